//! Forward of Eq, Ltu and Ite.
ghost use Rattle.std.specs.Prelude.{◌≡◌, ℕ};
ghost use Rattle.dt_bits.specs.Bits.{width};
ghost use Rattle.dt_known.specs.Known.{IsKnown, known_bit, from_bits};
ghost use Rattle.dt_known.specs.Forward.{common, eq_bit, ltu_bit, greatest, ite_bit};

use crate::Known;
use dt_bits::{Width, ones};

/// The Known of one bit.
#[inline(always)]
pub fn flag_of(known: Option<bool>) -> Known
    ensures { result ≡ from_bits (width 1) (λ i. known) }
{
    match known {
        None => Known::of_words(0, 0, Width(1)),
        Some(false) => Known::of_words(1, 0, Width(1)),
        Some(true) => Known::of_words(1, 1, Width(1)),
    }
}

#[inline(always)]
fn eq_bit(a: &Known, b: &Known) -> Option<bool>
    requires a { IsKnown a.now }
    requires b { IsKnown b.now }
    ensures { result ≡ eq_bit a.now b.now }
{
    if a.is_apart(b) {
        Some(false)
    } else if a.is_all_known() && b.is_all_known() {
        Some(true)
    } else {
        None
    }
}

#[inline(always)]
pub fn eq_of(a: &Known, b: &Known) -> Known
    requires a { IsKnown a.now }
    requires b { IsKnown b.now }
    ensures { result ≡ from_bits (width 1) (λ i. eq_bit a.now b.now) }
{
    flag_of(eq_bit(a, b))
}

/// The greatest held number.
#[inline(always)]
fn greatest(a: &Known) -> u128
    requires { IsKnown a.now }
    ensures { result ≡ greatest a.now }
{
    a.value + (ones(a.width) - a.mask)
}

#[inline(always)]
fn ltu_bit(a: &Known, b: &Known) -> Option<bool>
    requires a { IsKnown a.now }
    requires b { IsKnown b.now }
    ensures { result ≡ ltu_bit a.now b.now }
{
    if greatest(a) < b.value {
        Some(true)
    } else if greatest(b) <= a.value {
        Some(false)
    } else {
        None
    }
}

#[inline(always)]
pub fn ltu_of(a: &Known, b: &Known) -> Known
    requires a { IsKnown a.now }
    requires b { IsKnown b.now }
    ensures { result ≡ from_bits (width 1) (λ i. ltu_bit a.now b.now) }
{
    flag_of(ltu_bit(a, b))
}

/// What both know, with one value.
#[tactic(auto, using(crate::proofs::Words::common_words))]
#[inline(always)]
fn common_of(a: &Known, b: &Known) -> Known
    requires a { IsKnown a.now }
    requires b { IsKnown b.now }
    requires widths { a.now.width ≡ b.now.width }
    ensures { result ≡ from_bits a.now.width (λ i. common (known_bit a.now i) (known_bit b.now i)) }
{
    let mask = a.mask & b.mask & !(a.value ^ b.value);
    Known::of_words(mask, a.value & mask, a.width)
}

#[inline(always)]
pub fn ite_of(a: &Known, b: &Known, c: &Known) -> Known
    requires b { IsKnown b.now }
    requires c { IsKnown c.now }
    requires widths { b.now.width ≡ c.now.width }
    ensures { result ≡ from_bits b.now.width
        (λ i. ite_bit (known_bit a.now 0) (known_bit b.now i) (known_bit c.now i)) }
{
    match a.lowest() {
        Some(true) => Known::of_words(b.mask, b.value, b.width),
        Some(false) => Known::of_words(c.mask, c.value, b.width),
        None => common_of(b, c),
    }
}
