//! Backward of Eq, Ltu and Ite.
ghost use Rattle.std.specs.Prelude.{◌≡◌, ◌+◌, ◌-◌, ◌≤◌, if◌then◌else◌};
ghost use Rattle.dt_bits.specs.Bits.{IsWidth};
ghost use Rattle.dt_range.specs.Range.{IsRange, range_between, range_full};
ghost use Rattle.dt_range.specs.Backward.{without, eq_back, below_some, ltu_first, ltu_second, test_back};

use crate::Range;
use dt_bits::{Width, ones};

/// The numbers above `below`, up to `hi`.
fn above_of(width: Width, below: u128, hi: u128) -> Range
    ensures { result ≡ range_between width (below + 1) hi }
{
    if below < hi {
        Range {
            lo: below + 1,
            hi,
            width,
        }
    } else {
        Range::nothing(width)
    }
}

/// The range without a number that is one of its ends.
fn without_of(operand: &Range, number: u128) -> Range
    requires operand { IsRange operand.now }
    requires order { operand.now.lo ≤ operand.now.hi }
    ensures { result ≡ without operand.now number }
{
    if operand.lo == number {
        above_of(operand.width, number, operand.hi)
    } else if operand.hi == number {
        Range::between(operand.width, operand.lo, number - 1)
    } else {
        Range::all(operand.width)
    }
}

/// An operand of Eq, where `other` is the other one.
pub fn eq_back_of(outcome: &Range, operand: &Range, other: &Range) -> Range
    requires operand { IsRange operand.now }
    requires order { operand.now.lo ≤ operand.now.hi }
    ensures { result ≡ eq_back outcome.now operand.now other.now }
{
    if outcome.is_value(1) {
        *other
    } else if outcome.is_value(0) && other.is_single() {
        without_of(operand, other.lo)
    } else {
        Range::all(operand.width)
    }
}

/// The numbers below some number of `b`.
fn below_some_of(b: &Range) -> Range
    ensures { result ≡ below_some b.now }
{
    if b.hi == 0 {
        Range::nothing(b.width)
    } else {
        Range::between(b.width, 0, b.hi - 1)
    }
}

/// The first operand of Ltu.
pub fn ltu_first_of(outcome: &Range, a: &Range, b: &Range) -> Range
    requires { IsRange a.now }
    ensures { result ≡ ltu_first outcome.now a.now b.now }
{
    if outcome.is_value(1) {
        below_some_of(b)
    } else if outcome.is_value(0) {
        Range::between(a.width, b.lo, ones(a.width))
    } else {
        Range::all(a.width)
    }
}

/// The second operand of Ltu.
pub fn ltu_second_of(outcome: &Range, a: &Range, b: &Range) -> Range
    requires { IsRange b.now }
    ensures { result ≡ ltu_second outcome.now a.now b.now }
{
    if outcome.is_value(1) {
        above_of(b.width, a.lo, ones(b.width))
    } else if outcome.is_value(0) {
        Range::between(b.width, 0, a.hi)
    } else {
        Range::all(b.width)
    }
}

/// The test of Ite, where the result rules out a branch.
pub fn test_of(outcome: &Range, first: &Range, second: &Range) -> Range
    ensures { result ≡ test_back outcome.now first.now second.now }
{
    match (outcome.is_apart(first), outcome.is_apart(second)) {
        (true, true) => Range::nothing(Width(1)),
        (true, false) => Range::flag(false),
        (false, true) => Range::flag(true),
        (false, false) => Range::all(Width(1)),
    }
}

/// The result where the branch is chosen, and else all numbers.
pub fn chosen_of(chosen: bool, outcome: &Range, width: Width) -> Range
    requires { IsWidth width.0 }
    ensures { result ≡ (if chosen then outcome.now else range_full width) }
{
    if chosen { *outcome } else { Range::all(width) }
}
