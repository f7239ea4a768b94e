//! Forward of the operators that move bits.
ghost use Rattle.std.specs.Prelude.{◌≡◌, ℕ, ◌+◌, ◌-◌, ◌^◌, ◌<◌, ◌≤◌, Some, false, nat_lt, if◌then◌else◌, min};
ghost use Rattle.dt_bits.specs.Bits.{IsWidth, bit, width};
ghost use Rattle.dt_known.specs.Known.{IsKnown, known_bit, from_bits};

use crate::Known;
use dt_bits::{Width, bit_of, low_ones, ones};

#[tactic(auto, using(crate::proofs::MovedWords::slice_words))]
#[inline(always)]
pub fn slice_of(a: &Known, hi: u32, lo: u32) -> Known
    requires a { IsKnown a.now }
    requires lo { lo ≤ hi }
    requires hi { hi < a.now.width.0 }
    ensures { result ≡ from_bits (width (hi - lo + 1)) (λ i. known_bit a.now (lo + i)) }
{
    let width = Width(hi - lo + 1);
    let inside = ones(width);
    Known::of_words((a.mask >> lo) & inside, (a.value >> lo) & inside, width)
}

#[tactic(auto, using(crate::proofs::MovedWords::concat_words))]
#[inline(always)]
pub fn concat_of(a: &Known, b: &Known) -> Known
    requires a { IsKnown a.now }
    requires b { IsKnown b.now }
    requires whole { a.now.width.0 + b.now.width.0 ≤ 128 }
    ensures { result ≡ from_bits (width (a.now.width.0 + b.now.width.0))
        (λ i. if nat_lt i b.now.width.0 then known_bit b.now i
        else known_bit a.now (i - b.now.width.0)) }
{
    let low = b.width.0;
    let width = Width(a.width.0 + low);
    Known::of_words(a.mask << low | b.mask, a.value << low | b.value, width)
}

/// The word's bits up to its top bit, and then that bit again, up to `to`.
#[tactic(auto, using(dt_lemmas::proofs::Powers::extended_words_fit, dt_lemmas::proofs::Powers::wider_fits, crate::proofs::MovedWords::spread_bits, crate::proofs::MovedWords::narrow_bits))]
#[inline(always)]
fn spread(word: u128, width: Width, to: u32) -> u128
    requires width { IsWidth width.0 }
    requires word { word < 2 ^ width.0 }
    requires order { width.0 ≤ to }
    requires to { to ≤ 128 }
    ensures fits { result < 2 ^ to }
    ensures bits { (i : ℕ) → i < to → bit result i ≡ bit word (min i (width.0 - 1)) }
{
    if bit_of(word, width.0 - 1) {
        word | ones(Width(to)) ^ ones(width)
    } else {
        word
    }
}

#[tactic(auto, using(crate::proofs::MovedWords::sign_words))]
#[inline(always)]
pub fn sign_of(a: &Known, to: u32) -> Known
    requires a { IsKnown a.now }
    requires order { a.now.width.0 ≤ to }
    requires to { to ≤ 128 }
    ensures { result ≡ from_bits (width to) (λ i. known_bit a.now (min i (a.now.width.0 - 1))) }
{
    Known::of_words(
        spread(a.mask, a.width, to),
        spread(a.value, a.width, to),
        Width(to),
    )
}

#[tactic(auto, using(crate::proofs::MovedWords::shl_words))]
#[inline(always)]
pub fn shl_of(a: &Known, by: u32) -> Known
    requires a { IsKnown a.now }
    requires by { by < a.now.width.0 }
    ensures { result ≡ from_bits a.now.width
        (λ i. if nat_lt i by then Some false else known_bit a.now (i - by)) }
{
    let inside = ones(a.width);
    let mask = a.mask << by | low_ones(by);
    Known::of_words(mask & inside, (a.value << by) & inside, a.width)
}

#[tactic(auto, using(crate::proofs::MovedWords::shr_words))]
#[inline(always)]
pub fn shr_of(a: &Known, by: u32) -> Known
    requires a { IsKnown a.now }
    requires by { by < a.now.width.0 }
    ensures { result ≡ from_bits a.now.width
        (λ i. if nat_lt (by + i) a.now.width.0 then known_bit a.now (by + i) else Some false) }
{
    let inside = ones(a.width);
    let cleared = inside ^ inside >> by;
    Known::of_words(a.mask >> by | cleared, a.value >> by, a.width)
}
