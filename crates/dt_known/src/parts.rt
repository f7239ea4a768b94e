//! Knowns of given words, and tests on whole words.
ghost use Rattle.std.specs.Prelude.{◌≡◌, ℕ, ◌-◌, ◌^◌, ◌<◌, false, ◌↔◌, if◌then◌else◌, IsTrue, bit_xor};
ghost use Rattle.dt_bits.specs.Bits.{IsWidth};
ghost use Rattle.dt_known.specs.Known.{IsKnown, known_bit, nothing, known_full, single_bit, are_apart, all_known, is_one, is_zero, KnowsAllOf};

use crate::Known;
use dt_bits::{Width, bit_of, ones};

/// The word, or 0 where it doesn't hold.
#[inline(always)]
pub fn word_if(holds: bool, word: u128) -> u128
    ensures { result ≡ (if holds then word else 0) }
{
    if holds { word } else { 0 }
}

impl Known {
    /// The Known of these words, which isn't empty.
    #[inline(always)]
    pub(crate) fn of_words(mask: u128, value: u128, width: Width) -> Known
        ensures { result ≡ record { mask = mask; value = value; width = width; empty = false } }
    {
        Known {
            mask,
            value,
            width,
            empty: false,
        }
    }

    /// The Known that holds nothing.
    #[inline(always)]
    pub(crate) fn nothing(width: Width) -> Known
        ensures { result ≡ nothing width }
    {
        Known {
            mask: 0,
            value: 0,
            width,
            empty: true,
        }
    }

    /// The Known that knows one bit alone.
    #[tactic(auto, using(crate::proofs::Words::single_words))]
    #[inline(always)]
    pub(crate) fn single_bit(width: Width, bit: u32, value: bool) -> Known
        requires width { IsWidth width.0 }
        requires bit { bit < width.0 }
        ensures { result ≡ single_bit width bit value }
    {
        let mask = 1 << bit;
        Known::of_words(mask, word_if(value, mask), width)
    }

    /// The bits that are known to be 0.
    #[inline(always)]
    pub(crate) fn zeros(&self) -> u128
        ensures { result ≡ bit_xor self.now.mask self.now.value }
    {
        self.mask ^ self.value
    }

    /// What is known of the lowest bit.
    #[inline(always)]
    pub(crate) fn lowest(&self) -> Option<bool>
        ensures { result ≡ known_bit self.now 0 }
    {
        if bit_of(self.mask, 0) {
            Some(bit_of(self.value, 0))
        } else {
            None
        }
    }

    /// The lowest bit is known to be 1.
    #[inline(always)]
    pub(crate) fn is_one_at_lowest(&self) -> bool
        ensures { result ≡ is_one (known_bit self.now 0) }
    {
        self.lowest() == Some(true)
    }

    /// The lowest bit is known to be 0.
    #[inline(always)]
    pub(crate) fn is_zero_at_lowest(&self) -> bool
        ensures { result ≡ is_zero (known_bit self.now 0) }
    {
        self.lowest() == Some(false)
    }

    /// Some bit that is known in both differs.
    #[tactic(auto, using(crate::proofs::Words::apart_is))]
    #[inline(always)]
    pub(crate) fn is_apart(&self, other: &Known) -> bool
        requires self_is { IsKnown self.now }
        requires other_is { IsKnown other.now }
        ensures { result ≡ are_apart self.now other.now }
    {
        (self.value ^ other.value) & (self.mask & other.mask) != 0
    }

    /// Each bit that the other knows is known, with the same value.
    #[inline(always)]
    pub(crate) fn knows_all_of(&self, other: &Known) -> bool
        ensures { IsTrue result ↔ KnowsAllOf self.now other.now }
    {
        self.mask & other.mask == other.mask && self.value & other.mask == other.value
    }

    /// All bits are known.
    #[tactic(auto, using(crate::proofs::Words::all_known_is))]
    #[inline(always)]
    pub(crate) fn is_all_known(&self) -> bool
        requires { IsKnown self.now }
        ensures { result ≡ all_known self.now.width.0 (known_bit self.now) }
    {
        self.mask == ones(self.width)
    }
}
