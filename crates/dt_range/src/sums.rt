//! Forward of Not, Add and Sub: the ends, where all numbers between them wrap or none does.
ghost use Rattle.std.specs.Prelude.{◌≡◌, ◌≤◌};
ghost use Rattle.dt_range.specs.Range.{IsRange};
ghost use Rattle.dt_range.specs.Forward.{not_range, sum_range, difference_range};

use crate::Range;
use dt_bits::ones;

#[inline(always)]
pub fn not_of(a: &Range) -> Range
    requires { IsRange a.now }
    ensures { result ≡ not_range a.now }
{
    let most = ones(a.width);
    Range::between(a.width, most - a.hi, most - a.lo)
}

#[inline(always)]
pub fn sum_of(a: &Range, b: &Range) -> Range
    requires a { IsRange a.now }
    requires b { IsRange b.now }
    requires widths { a.now.width ≡ b.now.width }
    requires a_order { a.now.lo ≤ a.now.hi }
    requires b_order { b.now.lo ≤ b.now.hi }
    ensures { result ≡ sum_range a.now b.now }
{
    let most = ones(a.width);
    if a.hi <= most - b.hi {
        Range::between(a.width, a.lo + b.lo, a.hi + b.hi)
    } else if most - b.lo < a.lo {
        Range::between(a.width, a.lo - (most - b.lo) - 1, a.hi - (most - b.hi) - 1)
    } else {
        Range::all(a.width)
    }
}

#[inline(always)]
pub fn difference_of(a: &Range, b: &Range) -> Range
    requires a { IsRange a.now }
    requires b { IsRange b.now }
    requires widths { a.now.width ≡ b.now.width }
    requires a_order { a.now.lo ≤ a.now.hi }
    requires b_order { b.now.lo ≤ b.now.hi }
    ensures { result ≡ difference_range a.now b.now }
{
    let most = ones(a.width);
    if b.hi <= a.lo {
        Range::between(a.width, a.lo - b.hi, a.hi - b.lo)
    } else if a.hi < b.lo {
        Range::between(a.width, most - (b.hi - a.lo - 1), most - (b.lo - a.hi - 1))
    } else {
        Range::all(a.width)
    }
}
