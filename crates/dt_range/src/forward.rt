//! The tables of forward.
ghost use Rattle.std.specs.Prelude.{◌≡◌, false};
ghost use Rattle.dt_bits.specs.Ops.{applied};
ghost use Rattle.dt_domain.specs.Domain.{Fitting};
ghost use Rattle.dt_range.specs.Range.{range_one};
ghost use Rattle.dt_range.specs.Forward.{low_end, forward_table, some_used_empty, all_used_single};
ghost use Rattle.dt_range.specs.Ops.{range_ops};

use crate::Range;
use crate::compare::{eq_of, ite_of, ltu_of};
use crate::moved::{concat_of, shl_of, shr_of, sign_of, slice_of};
use crate::sums::{difference_of, not_of, sum_of};
use dt_bits::{Op, apply, arity, ones, result_width};

/// Each operand that the operator uses holds one number.
#[inline(always)]
pub fn is_all_used_single(op: Op, a: &Range, b: &Range, c: &Range) -> bool
    ensures { result ≡ all_used_single op a.now b.now c.now }
{
    let count = arity(op);
    (count <= 0 || a.is_single()) && (count <= 1 || b.is_single()) && (count <= 2 || c.is_single())
}

/// The operator's value of the least numbers.
#[inline(always)]
pub fn value_of_ends(op: Op, a: &Range, b: &Range, c: &Range) -> Range
    requires { Fitting range_ops op a.now b.now c.now }
    ensures { result ≡ range_one (applied op (low_end a.now) (low_end b.now) (low_end c.now)) }
{
    let value = apply(op, a.low_end(), b.low_end(), c.low_end());
    Range {
        lo: value.bits,
        hi: value.bits,
        width: value.width,
    }
}

/// The operator's table, where no used operand is empty.
#[inline(always)]
pub fn table_of(op: Op, a: &Range, b: &Range, c: &Range) -> Range
    requires fitting { Fitting range_ops op a.now b.now c.now }
    requires full { some_used_empty op a.now b.now c.now ≡ false }
    ensures { result ≡ forward_table op a.now b.now c.now }
{
    match op {
        Op::Not => not_of(a),
        Op::And => Range::between(a.width, 0, a.hi.min(b.hi)),
        Op::Or => Range::between(a.width, a.lo.max(b.lo), ones(a.width)),
        Op::Add => sum_of(a, b),
        Op::Sub => difference_of(a, b),
        Op::Slice { hi, lo } => slice_of(a, hi, lo),
        Op::Concat => concat_of(a, b),
        Op::SignExt { to } => sign_of(a, to),
        Op::Shl { by } => shl_of(a, by),
        Op::Shr { by } => shr_of(a, by),
        Op::Eq => eq_of(a, b),
        Op::Ltu => ltu_of(a, b),
        Op::Ite => ite_of(a, b, c),
        Op::Const { .. } | Op::Xor => Range::all(result_width(op, a.width, b.width, c.width)),
    }
}
