//! Backward of SignExt.
ghost use Rattle.std.specs.Prelude.{◌≡◌, ℕ, ◌-◌, ◌<◌, ◌≤◌, ◌&&◌, ◌==◌, if◌then◌else◌};
ghost use Rattle.dt_bits.specs.Bits.{IsWidth};
ghost use Rattle.dt_known.specs.Known.{IsKnown, known_bit, from_bits, nothing};
ghost use Rattle.dt_known.specs.Backward.{some_one_from, some_zero_from, top_bit};

use crate::Known;
use crate::parts::word_if;
use dt_bits::{Width, low_ones, ones};

/// Some bit from `start` on is known to be 1.
#[tactic(auto, using(crate::proofs::SignWords::one_from))]
#[inline(always)]
fn is_one_from(start: u32, outcome: &Known) -> bool
    requires outcome { IsKnown outcome.now }
    requires start { start < 128 }
    ensures { result ≡ some_one_from start outcome.now }
{
    let above = ones(outcome.width) ^ low_ones(start);
    outcome.value & above != 0
}

/// Some bit from `start` on is known to be 0.
#[tactic(auto, using(crate::proofs::SignWords::zero_from))]
#[inline(always)]
fn is_zero_from(start: u32, outcome: &Known) -> bool
    requires outcome { IsKnown outcome.now }
    requires start { start < 128 }
    ensures { result ≡ some_zero_from start outcome.now }
{
    let above = ones(outcome.width) ^ low_ones(start);
    outcome.zeros() & above != 0
}

/// The bits below the top are the result's, and the top is the value of the known bits of the
/// result from that place up: nothing where these differ.
#[inline(always)]
pub fn sign_back_of(outcome: &Known, width: Width) -> Known
    requires outcome { IsKnown outcome.now }
    requires width { IsWidth width.0 }
    requires order { width.0 ≤ outcome.now.width.0 }
    ensures { result ≡ (if some_one_from (width.0 - 1) outcome.now
        && some_zero_from (width.0 - 1) outcome.now then nothing width
        else from_bits width (λ i. if i == width.0 - 1 then top_bit i outcome.now
        else known_bit outcome.now i)) }
{
    let top = width.0 - 1;
    let below = low_ones(top);
    let one = is_one_from(top, outcome);
    let zero = is_zero_from(top, outcome);
    if one & zero {
        return Known::nothing(width);
    }
    let bit = 1 << top;
    let mask = outcome.mask & below | word_if(one | zero, bit);
    Known::of_words(mask, outcome.value & below | word_if(one, bit), width)
}
