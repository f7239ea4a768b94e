//! Forward of the operators that move bits: both ends moved, where their order stays.
ghost use Rattle.std.specs.Prelude.{◌≡◌, ◌==◌, ◌+◌, ◌-◌, ◌*◌, ◌/◌, ◌%◌, ◌^◌, ◌<◌, ◌≤◌, nat_le, if◌then◌else◌};
ghost use Rattle.dt_bits.specs.Bits.{width};
ghost use Rattle.dt_range.specs.Range.{IsRange, range_between, range_full, largest};

use crate::Range;
use dt_bits::{Width, extended, joined, ones};

#[tactic(auto, using(std::proofs::lemmas::Nat::and_mask))]
#[inline(always)]
pub fn slice_of(a: &Range, hi: u32, lo: u32) -> Range
    requires lo { lo ≤ hi }
    requires hi { hi < 128 }
    ensures { result ≡ (if a.now.lo / 2 ^ (hi + 1) == a.now.hi / 2 ^ (hi + 1)
        then range_between (width (hi - lo + 1))
        (a.now.lo / 2 ^ lo % 2 ^ (hi - lo + 1)) (a.now.hi / 2 ^ lo % 2 ^ (hi - lo + 1))
        else range_full (width (hi - lo + 1))) }
{
    let width = Width(hi - lo + 1);
    let inside = ones(width);
    if a.shares_above(hi) {
        Range::between(width, (a.lo >> lo) & inside, (a.hi >> lo) & inside)
    } else {
        Range::all(width)
    }
}

#[inline(always)]
pub fn concat_of(a: &Range, b: &Range) -> Range
    requires a { IsRange a.now }
    requires b { IsRange b.now }
    requires whole { a.now.width.0 + b.now.width.0 ≤ 128 }
    ensures { result ≡ range_between (width (a.now.width.0 + b.now.width.0))
        (a.now.lo * 2 ^ b.now.width.0 + b.now.lo) (a.now.hi * 2 ^ b.now.width.0 + b.now.hi) }
{
    let least = joined(a.low_end(), b.low_end());
    let greatest = joined(a.high_end(), b.high_end());
    Range::between(least.width, least.bits, greatest.bits)
}

#[inline(always)]
pub fn sign_of(a: &Range, to: u32) -> Range
    requires a { IsRange a.now }
    requires to { to ≤ 128 }
    requires order { a.now.width.0 ≤ to }
    ensures { result ≡ (if a.now.lo / 2 ^ (a.now.width.0 - 1) == a.now.hi / 2 ^ (a.now.width.0 - 1)
        then range_between (width to)
        (if nat_le (2 ^ (a.now.width.0 - 1)) a.now.lo
        then a.now.lo + (2 ^ to - 2 ^ a.now.width.0) else a.now.lo)
        (if nat_le (2 ^ (a.now.width.0 - 1)) a.now.hi
        then a.now.hi + (2 ^ to - 2 ^ a.now.width.0) else a.now.hi)
        else range_full (width to)) }
{
    let wide = Width(to);
    if a.shares_from(a.width.0 - 1) {
        let least = extended(a.low_end(), wide);
        let greatest = extended(a.high_end(), wide);
        Range::between(wide, least.bits, greatest.bits)
    } else {
        Range::all(wide)
    }
}

#[inline(always)]
pub fn shl_of(a: &Range, by: u32) -> Range
    requires a { IsRange a.now }
    requires by { by < a.now.width.0 }
    requires order { a.now.lo ≤ a.now.hi }
    ensures { result ≡ (if nat_le (a.now.hi * 2 ^ by) (largest a.now.width)
        then range_between a.now.width
        (a.now.lo * 2 ^ by % 2 ^ a.now.width.0) (a.now.hi * 2 ^ by % 2 ^ a.now.width.0)
        else range_full a.now.width) }
{
    if a.hi <= ones(a.width) >> by {
        Range::between(a.width, a.lo << by, a.hi << by)
    } else {
        Range::all(a.width)
    }
}

#[inline(always)]
pub fn shr_of(a: &Range, by: u32) -> Range
    requires { by < 128 }
    ensures { result ≡ range_between a.now.width (a.now.lo / 2 ^ by) (a.now.hi / 2 ^ by) }
{
    Range::between(a.width, a.lo >> by, a.hi >> by)
}
