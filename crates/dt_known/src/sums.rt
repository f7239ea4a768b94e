//! Forward of Add and Sub: two sums of whole words.
ghost use Rattle.std.specs.Prelude.{◌≡◌, ℕ};
ghost use Rattle.dt_known.specs.Known.{IsKnown, known_bit, from_bits};
ghost use Rattle.dt_known.specs.Forward.{sum_at, difference_at};

use crate::Known;
use crate::forward::not_of;
use crate::parts::word_if;

/// The sum of two numbers and a carry.
///
/// `low` has the unknown bits 0 and `high` has them 1. The carry into a bit is known to be 1 where
/// `low` carries, and known to be 0 where `high` doesn't. Where both operands' bits are known, the
/// two sums differ in that bit exactly where their carries differ.
#[tactic(auto, using(crate::proofs::SumWords::sum_words))]
#[inline(always)]
pub fn sum_of(a: &Known, b: &Known, carry: bool) -> Known
    requires a { IsKnown a.now }
    requires b { IsKnown b.now }
    requires widths { a.now.width ≡ b.now.width }
    ensures { result ≡ from_bits a.now.width (sum_at carry (known_bit a.now) (known_bit b.now)) }
{
    let first = word_if(carry, 1);
    let low = a.value.wrapping_add(b.value).wrapping_add(first);
    let high = (a.value | !a.mask)
        .wrapping_add(b.value | !b.mask)
        .wrapping_add(first);
    let mask = a.mask & b.mask & !(low ^ high);
    Known::of_words(mask, low & mask, a.width)
}

/// The first less the second: the sum of the first, the second's bits turned, and 1.
#[tactic(auto, using(crate::proofs::SumWords::not_is_known, crate::proofs::SumWords::difference_words))]
#[inline(always)]
pub fn difference_of(a: &Known, b: &Known) -> Known
    requires a { IsKnown a.now }
    requires b { IsKnown b.now }
    requires widths { a.now.width ≡ b.now.width }
    ensures { result ≡ from_bits a.now.width (difference_at (known_bit a.now) (known_bit b.now)) }
{
    sum_of(a, &not_of(b), true)
}
