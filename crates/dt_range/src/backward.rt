//! The tables of backward, one function for each place.
ghost use Rattle.std.specs.Prelude.{◌≡◌, false};
ghost use Rattle.dt_domain.specs.Domain.{FittingAt};
ghost use Rattle.dt_range.specs.Range.{range_is_empty};
ghost use Rattle.dt_range.specs.Forward.{some_used_empty};
ghost use Rattle.dt_range.specs.Backward.{backward_table};
ghost use Rattle.dt_range.specs.Ops.{range_ops};

use crate::Range;
use crate::sums::{difference_of, not_of, sum_of};
use crate::undo::{high_of, low_of, shr_back_of, slice_back_of};
use crate::undo_tests::{chosen_of, eq_back_of, ltu_first_of, ltu_second_of, test_of};
use dt_bits::{Op, ones};

/// The first operand, where nothing used is empty.
#[inline(always)]
pub fn first_of(op: Op, outcome: &Range, a: &Range, b: &Range, c: &Range) -> Range
    requires fitting { FittingAt range_ops op 0 outcome.now a.now b.now c.now }
    requires outcome { range_is_empty outcome.now ≡ false }
    requires full { some_used_empty op a.now b.now c.now ≡ false }
    ensures { result ≡ backward_table op 0 outcome.now a.now b.now c.now }
{
    match op {
        Op::Not => not_of(outcome),
        Op::And => Range::between(outcome.width, outcome.lo, ones(outcome.width)),
        Op::Or => Range::between(outcome.width, 0, outcome.hi),
        Op::Add => difference_of(outcome, b),
        Op::Sub => sum_of(outcome, b),
        Op::Slice { hi, lo } => slice_back_of(outcome, hi, lo, a.width),
        Op::Concat => high_of(outcome, b.width.0, a.width),
        Op::Shr { by } => shr_back_of(outcome, by),
        Op::Eq => eq_back_of(outcome, a, b),
        Op::Ltu => ltu_first_of(outcome, a, b),
        Op::Ite => test_of(outcome, b, c),
        Op::Const { .. } | Op::Xor | Op::SignExt { .. } | Op::Shl { .. } => Range::all(a.width),
    }
}

/// The second operand, where nothing used is empty.
#[inline(always)]
pub fn second_of(op: Op, outcome: &Range, a: &Range, b: &Range, c: &Range) -> Range
    requires fitting { FittingAt range_ops op 1 outcome.now a.now b.now c.now }
    requires outcome { range_is_empty outcome.now ≡ false }
    requires full { some_used_empty op a.now b.now c.now ≡ false }
    ensures { result ≡ backward_table op 1 outcome.now a.now b.now c.now }
{
    match op {
        Op::And => Range::between(outcome.width, outcome.lo, ones(outcome.width)),
        Op::Or => Range::between(outcome.width, 0, outcome.hi),
        Op::Add => difference_of(outcome, a),
        Op::Sub => difference_of(a, outcome),
        Op::Concat => low_of(outcome, b.width),
        Op::Eq => eq_back_of(outcome, b, a),
        Op::Ltu => ltu_second_of(outcome, a, b),
        Op::Ite => chosen_of(a.is_value(1), outcome, b.width),
        _ => Range::all(b.width),
    }
}

/// The third operand, where nothing used is empty. Only Ite has one.
#[inline(always)]
pub fn third_of(op: Op, outcome: &Range, a: &Range, b: &Range, c: &Range) -> Range
    requires fitting { FittingAt range_ops op 2 outcome.now a.now b.now c.now }
    requires outcome { range_is_empty outcome.now ≡ false }
    requires full { some_used_empty op a.now b.now c.now ≡ false }
    ensures { result ≡ backward_table op 2 outcome.now a.now b.now c.now }
{
    match op {
        Op::Ite => chosen_of(a.is_value(0), outcome, c.width),
        _ => Range::all(c.width),
    }
}
