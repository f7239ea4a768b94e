//! The tables of forward.
ghost use Rattle.std.specs.Prelude.{◌≡◌, ℕ, Some};
ghost use Rattle.dt_bits.specs.Bits.{IsValue, bit};
ghost use Rattle.dt_domain.specs.Domain.{Fitting};
ghost use Rattle.dt_known.specs.Known.{IsKnown, known_bit, from_bits};
ghost use Rattle.dt_known.specs.Forward.{not_bit, and_bit, or_bit, xor_bit, forward_bit, width_after};
ghost use Rattle.dt_known.specs.Ops.{known_ops};

use crate::Known;
use crate::compare::{eq_of, ite_of, ltu_of};
use crate::moved::{concat_of, shl_of, shr_of, sign_of, slice_of};
use crate::sums::{difference_of, sum_of};
use dt_bits::{Bv, Op, ones};

#[tactic(auto, using(crate::proofs::Words::const_words))]
#[inline(always)]
pub fn const_of(value: Bv) -> Known
    requires { IsValue value }
    ensures { result ≡ from_bits value.width (λ i. Some (bit value.bits i)) }
{
    Known::of_words(ones(value.width), value.bits, value.width)
}

#[tactic(auto, using(crate::proofs::Words::not_words))]
#[inline(always)]
pub fn not_of(a: &Known) -> Known
    requires { IsKnown a.now }
    ensures { result ≡ from_bits a.now.width (λ i. not_bit (known_bit a.now i)) }
{
    Known::of_words(a.mask, a.zeros(), a.width)
}

#[tactic(auto, using(crate::proofs::Words::and_words))]
#[inline(always)]
pub fn and_of(a: &Known, b: &Known) -> Known
    requires a { IsKnown a.now }
    requires b { IsKnown b.now }
    requires widths { a.now.width ≡ b.now.width }
    ensures { result ≡ from_bits a.now.width (λ i. and_bit (known_bit a.now i) (known_bit b.now i)) }
{
    let one = a.value & b.value;
    Known::of_words(one | a.zeros() | b.zeros(), one, a.width)
}

#[tactic(auto, using(crate::proofs::Words::or_words))]
#[inline(always)]
pub fn or_of(a: &Known, b: &Known) -> Known
    requires a { IsKnown a.now }
    requires b { IsKnown b.now }
    requires widths { a.now.width ≡ b.now.width }
    ensures { result ≡ from_bits a.now.width (λ i. or_bit (known_bit a.now i) (known_bit b.now i)) }
{
    let one = a.value | b.value;
    Known::of_words(one | a.zeros() & b.zeros(), one, a.width)
}

#[tactic(auto, using(crate::proofs::Words::xor_words))]
#[inline(always)]
pub fn xor_of(a: &Known, b: &Known) -> Known
    requires a { IsKnown a.now }
    requires b { IsKnown b.now }
    requires widths { a.now.width ≡ b.now.width }
    ensures { result ≡ from_bits a.now.width (λ i. xor_bit (known_bit a.now i) (known_bit b.now i)) }
{
    let mask = a.mask & b.mask;
    Known::of_words(mask, (a.value ^ b.value) & mask, a.width)
}

/// The operator's table, where no used operand is empty.
#[inline(always)]
pub fn table_of(op: Op, a: &Known, b: &Known, c: &Known) -> Known
    requires { Fitting known_ops op a.now b.now c.now }
    ensures { result ≡ from_bits (width_after op a.now b.now c.now) (forward_bit op a.now b.now c.now) }
{
    match op {
        Op::Const { value } => const_of(value),
        Op::Not => not_of(a),
        Op::And => and_of(a, b),
        Op::Or => or_of(a, b),
        Op::Xor => xor_of(a, b),
        Op::Add => sum_of(a, b, false),
        Op::Sub => difference_of(a, b),
        Op::Slice { hi, lo } => slice_of(a, hi, lo),
        Op::Concat => concat_of(a, b),
        Op::SignExt { to } => sign_of(a, to),
        Op::Shl { by } => shl_of(a, by),
        Op::Shr { by } => shr_of(a, by),
        Op::Eq => eq_of(a, b),
        Op::Ltu => ltu_of(a, b),
        Op::Ite => ite_of(a, b, c),
    }
}
