//! Backward of the operators that go bit by bit or move bits.
ghost use Rattle.std.specs.Prelude.{◌≡◌, ℕ, ◌+◌, ◌-◌, ◌<◌, ◌≤◌, None, ◌&&◌, nat_lt, nat_le, if◌then◌else◌};
ghost use Rattle.dt_bits.specs.Bits.{IsWidth};
ghost use Rattle.dt_known.specs.Known.{IsKnown, known_bit, from_bits};
ghost use Rattle.dt_known.specs.Backward.{and_back, or_back};

use crate::Known;
use dt_bits::{Width, ones};

/// The Known that knows no bit.
#[tactic(auto, using(crate::proofs::BackWords::none_words))]
#[inline(always)]
pub fn unknown(width: Width) -> Known
    ensures { result ≡ from_bits width (λ i. None) }
{
    Known::of_words(0, 0, width)
}

#[tactic(auto, using(crate::proofs::BackWords::and_back_words))]
#[inline(always)]
pub fn and_back_of(outcome: &Known, other: &Known) -> Known
    requires outcome { IsKnown outcome.now }
    requires other { IsKnown other.now }
    requires widths { outcome.now.width ≡ other.now.width }
    ensures { result ≡ from_bits outcome.now.width
        (λ i. and_back (known_bit outcome.now i) (known_bit other.now i)) }
{
    let one = outcome.value;
    Known::of_words(one | outcome.zeros() & other.value, one, outcome.width)
}

#[tactic(auto, using(crate::proofs::BackWords::or_back_words))]
#[inline(always)]
pub fn or_back_of(outcome: &Known, other: &Known) -> Known
    requires outcome { IsKnown outcome.now }
    requires other { IsKnown other.now }
    requires widths { outcome.now.width ≡ other.now.width }
    ensures { result ≡ from_bits outcome.now.width
        (λ i. or_back (known_bit outcome.now i) (known_bit other.now i)) }
{
    let one = outcome.value & other.zeros();
    Known::of_words(one | outcome.zeros(), one, outcome.width)
}

#[tactic(auto, using(crate::proofs::BackWords::slice_back_words))]
#[inline(always)]
pub fn slice_back_of(outcome: &Known, hi: u32, lo: u32, width: Width) -> Known
    requires outcome { IsKnown outcome.now }
    requires lo { lo ≤ hi }
    requires hi { hi < width.0 }
    requires width { width.0 ≤ 128 }
    requires part { outcome.now.width.0 ≡ hi - lo + 1 }
    ensures { result ≡ from_bits width
        (λ i. if nat_le lo i && nat_le i hi then known_bit outcome.now (i - lo) else None) }
{
    Known::of_words(outcome.mask << lo, outcome.value << lo, width)
}

/// The bits from `low` on.
#[tactic(auto, using(crate::proofs::BackWords::high_words))]
#[inline(always)]
pub fn high_of(outcome: &Known, low: u32, width: Width) -> Known
    requires outcome { IsKnown outcome.now }
    requires low { low < 128 }
    requires whole { outcome.now.width.0 ≡ width.0 + low }
    ensures { result ≡ from_bits width (λ i. known_bit outcome.now (low + i)) }
{
    Known::of_words(outcome.mask >> low, outcome.value >> low, width)
}

/// The bits below `width`.
#[tactic(auto, using(crate::proofs::BackWords::low_words))]
#[inline(always)]
pub fn low_of(outcome: &Known, width: Width) -> Known
    requires outcome { IsKnown outcome.now }
    requires width { IsWidth width.0 }
    ensures { result ≡ from_bits width (λ i. known_bit outcome.now i) }
{
    let inside = ones(width);
    Known::of_words(outcome.mask & inside, outcome.value & inside, width)
}

#[tactic(auto, using(crate::proofs::BackWords::shl_back_words))]
#[inline(always)]
pub fn shl_back_of(outcome: &Known, by: u32) -> Known
    requires outcome { IsKnown outcome.now }
    requires by { by < outcome.now.width.0 }
    ensures { result ≡ from_bits outcome.now.width
        (λ i. if nat_lt (by + i) outcome.now.width.0 then known_bit outcome.now (by + i) else None) }
{
    Known::of_words(outcome.mask >> by, outcome.value >> by, outcome.width)
}

#[tactic(auto, using(crate::proofs::BackWords::shr_back_words))]
#[inline(always)]
pub fn shr_back_of(outcome: &Known, by: u32) -> Known
    requires outcome { IsKnown outcome.now }
    requires by { by < outcome.now.width.0 }
    ensures { result ≡ from_bits outcome.now.width
        (λ i. if nat_le by i then known_bit outcome.now (i - by) else None) }
{
    let inside = ones(outcome.width);
    Known::of_words(
        (outcome.mask << by) & inside,
        (outcome.value << by) & inside,
        outcome.width,
    )
}
