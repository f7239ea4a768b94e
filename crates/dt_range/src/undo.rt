//! Backward of the operators that move bits.
ghost use Rattle.std.specs.Prelude.{◌≡◌, ◌==◌, ◌+◌, ◌-◌, ◌*◌, ◌/◌, ◌%◌, ◌^◌, ◌<◌, ◌≤◌, nat_le, if◌then◌else◌};
ghost use Rattle.dt_bits.specs.Bits.{IsWidth};
ghost use Rattle.dt_range.specs.Range.{IsRange, range_between, range_full, largest};

use crate::Range;
use dt_bits::{Width, low_ones, ones};

/// The numbers that give a number of `outcome` when their lowest bits are dropped.
#[inline(always)]
fn spread_of(outcome: &Range, by: u32, width: Width) -> Range
    requires outcome { IsRange outcome.now }
    requires width { width.0 ≤ 128 }
    requires by { by < width.0 }
    requires fits { outcome.now.hi < 2 ^ (width.0 - by) }
    requires order { outcome.now.lo ≤ outcome.now.hi }
    ensures { result ≡ range_between width (outcome.now.lo * 2 ^ by)
        (outcome.now.hi * 2 ^ by + 2 ^ by - 1) }
{
    Range::between(width, outcome.lo << by, (outcome.hi << by) + low_ones(by))
}

/// The operand of Slice, where the slice goes up to its top bit.
#[inline(always)]
pub fn slice_back_of(outcome: &Range, hi: u32, lo: u32, width: Width) -> Range
    requires outcome { IsRange outcome.now }
    requires width { IsWidth width.0 }
    requires lo { lo ≤ hi }
    requires hi { hi < width.0 }
    requires part { outcome.now.width.0 ≡ hi - lo + 1 }
    requires order { outcome.now.lo ≤ outcome.now.hi }
    ensures { result ≡ (if hi + 1 == width.0
        then range_between width (outcome.now.lo * 2 ^ lo) (outcome.now.hi * 2 ^ lo + 2 ^ lo - 1)
        else range_full width) }
{
    if hi + 1 == width.0 {
        spread_of(outcome, lo, width)
    } else {
        Range::all(width)
    }
}

/// The operand of Shr, where what was dropped lies within the width.
#[inline(always)]
pub fn shr_back_of(outcome: &Range, by: u32) -> Range
    requires outcome { IsRange outcome.now }
    requires by { by < outcome.now.width.0 }
    requires order { outcome.now.lo ≤ outcome.now.hi }
    ensures { result ≡ (if nat_le outcome.now.hi (largest outcome.now.width / 2 ^ by)
        then range_between outcome.now.width (outcome.now.lo * 2 ^ by)
        (outcome.now.hi * 2 ^ by + 2 ^ by - 1)
        else range_full outcome.now.width) }
{
    if outcome.hi <= ones(outcome.width) >> by {
        spread_of(outcome, by, outcome.width)
    } else {
        Range::all(outcome.width)
    }
}

/// The first operand of Concat, where the second is `low` bits wide.
#[inline(always)]
pub fn high_of(outcome: &Range, low: u32, width: Width) -> Range
    requires { low < 128 }
    ensures { result ≡ range_between width (outcome.now.lo / 2 ^ low) (outcome.now.hi / 2 ^ low) }
{
    Range::between(width, outcome.lo >> low, outcome.hi >> low)
}

/// The second operand of Concat.
#[tactic(auto, using(std::proofs::lemmas::Nat::and_mask))]
#[inline(always)]
pub fn low_of(outcome: &Range, width: Width) -> Range
    requires width { IsWidth width.0 }
    requires part { width.0 < 128 }
    ensures { result ≡ (if outcome.now.lo / 2 ^ width.0 == outcome.now.hi / 2 ^ width.0
        then range_between width (outcome.now.lo % 2 ^ width.0) (outcome.now.hi % 2 ^ width.0)
        else range_full width) }
{
    let most = ones(width);
    if outcome.shares_from(width.0) {
        Range::between(width, outcome.lo & most, outcome.hi & most)
    } else {
        Range::all(width)
    }
}
