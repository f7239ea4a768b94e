//! Ranges of given ends, and what is asked of one range.
ghost use Rattle.std.specs.Prelude.{◌≡◌, ◌+◌, ◌≤◌, ◌<◌, ◌↔◌, ◌&&◌, IsTrue, not, false};
ghost use Rattle.dt_bits.specs.Bits.{IsWidth, IsValue};
ghost use Rattle.dt_range.specs.Range.{IsRange, is_single, no_range, range_between, range_full, range_is_empty, range_mask, range_meet, shares_from, half};
ghost use Rattle.dt_range.specs.Forward.{low_end, high_end, flag};
ghost use Rattle.dt_range.specs.Backward.{is_value, are_apart};

use crate::Range;
use dt_bits::{Bv, Width, ones};

impl Range {
    /// The range that holds nothing.
    #[inline(always)]
    pub(crate) fn nothing(width: Width) -> Range
        ensures { result ≡ no_range width }
    {
        Range {
            lo: 1,
            hi: 0,
            width,
        }
    }

    /// The numbers from `lo` to `hi`, of which there may be none.
    #[inline(always)]
    pub(crate) fn between(width: Width, lo: u128, hi: u128) -> Range
        ensures { result ≡ range_between width lo hi }
    {
        if lo <= hi {
            Range { lo, hi, width }
        } else {
            Range::nothing(width)
        }
    }

    /// All numbers of the width.
    #[inline(always)]
    pub(crate) fn all(width: Width) -> Range
        requires { IsWidth width.0 }
        ensures { result ≡ range_full width }
    {
        Range {
            lo: 0,
            hi: ones(width),
            width,
        }
    }

    /// One bit that is known.
    #[inline(always)]
    pub(crate) fn flag(value: bool) -> Range
        ensures { result ≡ flag value }
    {
        let bit = if value { 1 } else { 0 };
        Range {
            lo: bit,
            hi: bit,
            width: Width(1),
        }
    }

    /// The least number as a value.
    #[inline(always)]
    pub(crate) fn low_end(&self) -> Bv
        ensures { result ≡ low_end self.now }
    {
        Bv {
            width: self.width,
            bits: self.lo,
        }
    }

    /// The greatest number as a value.
    #[inline(always)]
    pub(crate) fn high_end(&self) -> Bv
        ensures { result ≡ high_end self.now }
    {
        Bv {
            width: self.width,
            bits: self.hi,
        }
    }

    /// No number is held.
    #[inline(always)]
    pub(crate) fn holds_none(&self) -> bool
        ensures { result ≡ range_is_empty self.now }
    {
        self.hi < self.lo
    }

    /// One number is held.
    #[inline(always)]
    pub(crate) fn is_single(&self) -> bool
        ensures { result ≡ is_single self.now }
    {
        self.lo == self.hi
    }

    /// This number is held, and no other.
    #[inline(always)]
    pub(crate) fn is_value(&self, value: u128) -> bool
        ensures { result ≡ is_value self.now value }
    {
        self.lo == value && self.hi == value
    }

    /// The numbers that both hold.
    #[inline(always)]
    pub(crate) fn common(&self, other: &Range) -> Range
        ensures { result ≡ range_meet self.now other.now }
    {
        Range::between(self.width, self.lo.max(other.lo), self.hi.min(other.hi))
    }

    /// No number is held by both.
    #[inline(always)]
    pub(crate) fn is_apart(&self, other: &Range) -> bool
        ensures { result ≡ are_apart self.now other.now }
    {
        self.common(other).holds_none()
    }

    /// The other's ends lie between this one's.
    #[inline(always)]
    pub(crate) fn covers(&self, other: &Range) -> bool
        ensures { IsTrue result ↔ ((self.now.lo ≤ other.now.lo) × (other.now.hi ≤ self.now.hi)) }
    {
        self.lo <= other.lo && other.hi <= self.hi
    }

    /// The ends have the same bits from this one up.
    #[inline(always)]
    pub(crate) fn shares_from(&self, bit: u32) -> bool
        requires { bit < 128 }
        ensures { result ≡ shares_from self.now bit }
    {
        self.lo >> bit == self.hi >> bit
    }

    /// The ends have the same bits above this one.
    #[tactic(auto, using(dt_lemmas::proofs::Powers::halved))]
    #[inline(always)]
    pub(crate) fn shares_above(&self, bit: u32) -> bool
        requires { bit < 128 }
        ensures { result ≡ shares_from self.now (bit + 1) }
    {
        (self.lo >> bit) >> 1 == (self.hi >> bit) >> 1
    }

    /// This bit and all above it are known.
    #[inline(always)]
    pub(crate) fn knows_from(&self, bit: u32) -> bool
        requires self_is { IsRange self.now }
        requires within { bit < 128 }
        ensures { result ≡ shares_from self.now bit }
    {
        (self.lo ^ self.hi) >> bit == 0
    }

    /// This bit is the highest that isn't known.
    #[inline(always)]
    pub(crate) fn is_highest_unknown(&self, bit: u32) -> bool
        requires self_is { IsRange self.now }
        requires within { bit < 128 }
        ensures { result ≡ (not (shares_from self.now bit) && shares_from self.now (bit + 1)) }
    {
        (self.lo ^ self.hi) >> bit == 1
    }

    /// The bits that are known: those above the highest in which the ends differ.
    #[inline(always)]
    pub(crate) fn mask(&self) -> u128
        requires { IsRange self.now }
        ensures { result ≡ range_mask self.now }
    {
        if self.holds_none() {
            return 0;
        }
        let differing = self.lo ^ self.hi;
        if differing == 0 {
            return ones(self.width);
        }
        ones(self.width) - (u128::MAX >> differing.leading_zeros())
    }

    /// The half in which this bit, the highest that isn't known, has this value.
    #[inline(always)]
    pub(crate) fn half(&self, bit: u32, value: bool) -> Range
        requires within { bit < 128 }
        requires order { self.now.lo ≤ self.now.hi }
        requires unknown { shares_from self.now bit ≡ false }
        ensures { result ≡ half self.now bit value }
    {
        let middle = (self.hi >> bit) << bit;
        if value {
            Range::between(self.width, middle, self.hi)
        } else {
            Range::between(self.width, self.lo, middle - 1)
        }
    }
}
