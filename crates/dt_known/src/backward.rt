//! The tables of backward, one function for each place.
ghost use Rattle.std.specs.Prelude.{◌≡◌, if◌then◌else◌};
ghost use Rattle.dt_domain.specs.Domain.{FittingAt, operand};
ghost use Rattle.dt_known.specs.Known.{from_bits, nothing};
ghost use Rattle.dt_known.specs.Backward.{backward_bit, has_conflict};
ghost use Rattle.dt_known.specs.Ops.{known_ops};

use crate::Known;
use crate::forward::{not_of, xor_of};
use crate::sums::{difference_of, sum_of};
use crate::undo::{
    and_back_of, high_of, low_of, or_back_of, shl_back_of, shr_back_of, slice_back_of, unknown,
};
use crate::undo_sign::sign_back_of;
use crate::undo_tests::{chosen_of, eq_back_of, test_of};
use dt_bits::Op;

/// The first operand, where nothing used is empty.
#[inline(always)]
pub fn first_of(op: Op, outcome: &Known, a: &Known, b: &Known, c: &Known) -> Known
    requires { FittingAt known_ops op 0 outcome.now a.now b.now c.now }
    ensures { result ≡ (if has_conflict op 0 outcome.now a.now b.now c.now then nothing a.now.width
        else from_bits a.now.width (backward_bit op 0 outcome.now a.now b.now c.now)) }
{
    match op {
        Op::Not => not_of(outcome),
        Op::And => and_back_of(outcome, b),
        Op::Or => or_back_of(outcome, b),
        Op::Xor => xor_of(outcome, b),
        Op::Add => difference_of(outcome, b),
        Op::Sub => sum_of(outcome, b, false),
        Op::Slice { hi, lo } => slice_back_of(outcome, hi, lo, a.width),
        Op::Concat => high_of(outcome, b.width.0, a.width),
        Op::SignExt { .. } => sign_back_of(outcome, a.width),
        Op::Shl { by } => shl_back_of(outcome, by),
        Op::Shr { by } => shr_back_of(outcome, by),
        Op::Eq => eq_back_of(outcome, a, b),
        Op::Ite => test_of(outcome, b, c),
        Op::Const { .. } | Op::Ltu => unknown(a.width),
    }
}

/// The second operand, where nothing used is empty.
#[inline(always)]
pub fn second_of(op: Op, outcome: &Known, a: &Known, b: &Known, c: &Known) -> Known
    requires { FittingAt known_ops op 1 outcome.now a.now b.now c.now }
    ensures { result ≡ (if has_conflict op 1 outcome.now a.now b.now c.now then nothing b.now.width
        else from_bits b.now.width (backward_bit op 1 outcome.now a.now b.now c.now)) }
{
    match op {
        Op::And => and_back_of(outcome, a),
        Op::Or => or_back_of(outcome, a),
        Op::Xor => xor_of(outcome, a),
        Op::Add => difference_of(outcome, a),
        Op::Sub => difference_of(a, outcome),
        Op::Concat => low_of(outcome, b.width),
        Op::Eq => eq_back_of(outcome, b, a),
        Op::Ite => chosen_of(a.is_one_at_lowest(), outcome),
        _ => unknown(b.width),
    }
}

/// The third operand, where nothing used is empty. Only Ite has one.
#[inline(always)]
pub fn third_of(op: Op, outcome: &Known, a: &Known, b: &Known, c: &Known) -> Known
    requires { FittingAt known_ops op 2 outcome.now a.now b.now c.now }
    ensures { result ≡ (if has_conflict op 2 outcome.now a.now b.now c.now then nothing c.now.width
        else from_bits c.now.width (backward_bit op 2 outcome.now a.now b.now c.now)) }
{
    match op {
        Op::Ite => chosen_of(a.is_zero_at_lowest(), outcome),
        _ => unknown(c.width),
    }
}
