ghost use Rattle.std.specs.Prelude.{◌≡◌, true, false, IfSome, IfOk};
ghost use Rattle.dt_bits.specs.Bits.{IsValue};
ghost use Rattle.dt_bits.specs.Ops.{IsOp, applied};
ghost use Rattle.dt_terms.specs.Terms.{AreTerms};
ghost use Rattle.dt_forms.specs.Meaning.{flag};
ghost use Rattle.dt_forms.specs.Folding.{constant_at, operand_at, known, is_zero, is_ones, with_constant, with_second, with_first, with_itself, is_beside, half_known, folded};
ghost use Rattle.dt_build.specs.Building.{IsFolded};

use crate::node::bits_at;
use dt_bits::{Bv, NoMemory, Op, Width, apply, arity, fits, ones};
use dt_forms::Folded;
use dt_terms::{Problem, Term};

// The value of the constant at a position.
fn constant_at(terms: &[Term], term: u32) -> Option<Bv>
    requires { AreTerms terms.now }
    ensures value { result ≡ constant_at terms.now term }
    ensures range { IfSome result (λ x. IsValue x) }
{
    match terms.get(term as usize) {
        Some(
            Term::Node {
                op: Op::Const { value },
                ..
            },
        ) => Some(*value),
        _ => None,
    }
}

// The operand at a place, where it is a constant; one that the operator doesn't have counts as one.
fn operand_at(terms: &[Term], op: Op, place: u32, term: u32) -> Option<Bv>
    requires { AreTerms terms.now }
    ensures value { result ≡ operand_at terms.now op place term }
    ensures range { IfSome result (λ x. IsValue x) }
{
    if place < arity(op) {
        return constant_at(terms, term);
    }
    Some(Bv {
        width: Width(1),
        bits: 0,
    })
}

// The operator's value of constants, where it fits them.
fn applied(op: Op, a: Bv, b: Bv, c: Bv) -> Result<Bv, NoMemory>
    requires op { IsOp op }
    requires a { IsValue a }
    requires b { IsValue b }
    requires c { IsValue c }
    ensures value { IfOk result (λ x. x ≡ applied op a b c) }
    ensures range { IfOk result (λ x. IsValue x) }
{
    match fits(op, a.width.0, b.width.0, c.width.0) {
        Some(_) => Ok(apply(op, a, b, c)),
        None => Err(NoMemory),
    }
}

fn is_zero(x: Bv) -> bool
    ensures { result ≡ is_zero x }
{
    x.bits == 0
}

// Whether each bit is 1.
fn is_ones(x: Bv) -> bool
    requires { IsValue x }
    ensures { result ≡ is_ones x }
{
    x.bits == ones(x.width)
}

// A truth as a value of one bit.
fn flag(holds: bool) -> Bv
    ensures value { result ≡ flag holds }
    ensures range { IsValue result }
{
    Bv {
        width: Width(1),
        bits: if holds { 1 } else { 0 },
    }
}

// What the operator comes to over the term `a` and the constant `x`, which stands at `b`.
fn with_constant(op: Op, a: u32, b: u32, x: Bv) -> Folded
    requires { IsValue x }
    ensures value { result ≡ with_constant op a b x }
    ensures range { IsFolded result }
{
    match op {
        Op::And if is_zero(x) => Folded::At(b),
        Op::And if is_ones(x) => Folded::At(a),
        Op::Or if is_zero(x) => Folded::At(a),
        Op::Or if is_ones(x) => Folded::At(b),
        _ => Folded::New,
    }
}

// What the operator comes to where the second operand is the constant `x`.
fn with_second(op: Op, a: u32, b: u32, x: Bv) -> Folded
    requires { IsValue x }
    ensures value { result ≡ with_second op a b x }
    ensures range { IsFolded result }
{
    match op {
        Op::Ltu if is_zero(x) => Folded::Value(flag(false)),
        _ => with_constant(op, a, b, x),
    }
}

// What the operator comes to where the first operand is the constant `x`.
fn with_first(op: Op, a: u32, b: u32, x: Bv) -> Folded
    requires { IsValue x }
    ensures value { result ≡ with_first op a b x }
    ensures range { IsFolded result }
{
    match op {
        Op::Ltu if is_ones(x) => Folded::Value(flag(false)),
        _ => with_constant(op, b, a, x),
    }
}

// What the operator comes to where both operands are one term.
fn with_itself(op: Op, a: u32) -> Folded
    ensures value { result ≡ with_itself op a }
    ensures range { IsFolded result }
{
    match op {
        Op::And | Op::Or => Folded::At(a),
        Op::Eq => Folded::Value(flag(true)),
        Op::Ltu => Folded::Value(flag(false)),
        _ => Folded::New,
    }
}

// Whether the term is there, with as many bits as the constant.
fn is_beside(terms: &[Term], term: u32, x: Bv) -> bool
    ensures { result ≡ is_beside terms.now term x }
{
    (term as usize) < terms.len() && bits_at(terms, term) == x.width.0
}

// What the operator comes to where one of two operands is a constant, or they are one term.
fn half_known(terms: &[Term], op: Op, a: u32, b: u32) -> Folded
    requires { AreTerms terms.now }
    ensures value { result ≡ half_known terms.now op a b (constant_at terms.now a) (constant_at terms.now b) }
    ensures range { IsFolded result }
{
    match (constant_at(terms, a), constant_at(terms, b)) {
        (None, Some(x)) if is_beside(terms, a, x) => with_second(op, a, b, x),
        (Some(x), None) if is_beside(terms, b, x) => with_first(op, a, b, x),
        (None, Some(_)) | (Some(_), None) => Folded::New,
        _ => if a == b {
            with_itself(op, a)
        } else {
            Folded::New
        },
    }
}

// What the node of an operator over these terms comes to, where the operator fits.
fn folded(terms: &[Term], op: Op, a: u32, b: u32, c: u32) -> Result<Folded, NoMemory>
    requires op { IsOp op }
    requires terms { AreTerms terms.now }
    ensures value { IfOk result (λ r. r ≡ folded terms.now op a b c) }
    ensures range { IfOk result (λ r. IsFolded r) }
{
    let first = operand_at(terms, op, 0, a);
    let second = operand_at(terms, op, 1, b);
    let third = operand_at(terms, op, 2, c);
    match (first, second, third) {
        (Some(x), Some(y), Some(z)) => Ok(Folded::Value(applied(op, x, y, z)?)),
        _ => Ok(half_known(terms, op, a, b)),
    }
}

/// What the node of an operator over terms of the problem comes to, where the operator fits.
pub(crate) fn folded_in(
    problem: &Problem,
    op: Op,
    a: u32,
    b: u32,
    c: u32,
) -> Result<Folded, NoMemory>
    requires { IsOp op }
    ensures value { IfOk result (λ r. r ≡ folded problem.now.terms op a b c) }
    ensures range { IfOk result (λ r. IsFolded r) }
{
    folded(problem.terms.as_slice(), op, a, b, c)
}
