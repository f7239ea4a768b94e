//! Forward of Eq, Ltu and Ite.
ghost use Rattle.std.specs.Prelude.{◌≡◌, ◌==◌, false, true, nat_le, nat_lt, if◌then◌else◌};
ghost use Rattle.dt_bits.specs.Bits.{width};
ghost use Rattle.dt_range.specs.Range.{is_single, range_full};
ghost use Rattle.dt_range.specs.Forward.{flag, are_disjoint, range_hull};

use crate::Range;
use dt_bits::Width;

#[inline(always)]
pub fn eq_of(a: &Range, b: &Range) -> Range
    ensures { result ≡ (if are_disjoint a.now b.now then flag false else range_full (width 1)) }
{
    if a.hi < b.lo || b.hi < a.lo {
        Range::flag(false)
    } else {
        Range::all(Width(1))
    }
}

#[inline(always)]
pub fn ltu_of(a: &Range, b: &Range) -> Range
    ensures { result ≡ (if nat_lt a.now.hi b.now.lo then flag true
        else (if nat_le b.now.hi a.now.lo then flag false else range_full (width 1))) }
{
    if a.hi < b.lo {
        Range::flag(true)
    } else if b.hi <= a.lo {
        Range::flag(false)
    } else {
        Range::all(Width(1))
    }
}

/// The least range that has both.
#[inline(always)]
fn hull_of(a: &Range, b: &Range) -> Range
    ensures { result ≡ range_hull a.now b.now }
{
    Range::between(a.width, a.lo.min(b.lo), a.hi.max(b.hi))
}

#[inline(always)]
pub fn ite_of(a: &Range, b: &Range, c: &Range) -> Range
    ensures { result ≡ (if is_single a.now then (if a.now.lo == 1 then b.now else c.now)
        else range_hull b.now c.now) }
{
    if !a.is_single() {
        hull_of(b, c)
    } else if a.lo == 1 {
        *b
    } else {
        *c
    }
}
