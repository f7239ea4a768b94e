ghost use Rattle.std.specs.Prelude.{◌≡◌, ◌≤◌, IfOk, length};
ghost use Rattle.dt_bits.specs.Ops.{IsOp};
ghost use Rattle.dt_terms.specs.Terms.{AreTerms, bits_at};
ghost use Rattle.dt_terms.specs.Additions.{kept, node_of};

use dt_bits::{NoMemory, Op, arity, fits};
use dt_terms::{Problem, Term};

/// How many bits the value of the term at a position has, and 1 where there is no such term.
pub(crate) fn bits_at(terms: &[Term], term: u32) -> u32
    ensures { result ≡ bits_at terms.now term }
{
    match terms.get(term as usize) {
        Some(term) => term.width().0,
        None => 1,
    }
}

// The operand at a place, and 0 where the operator has none there.
fn kept(op: Op, place: u32, term: u32) -> u32
    ensures { result ≡ kept op place term }
{
    if place < arity(op) { term } else { 0 }
}

// The node of an operator over these terms, where it fits them.
fn node_over(terms: &[Term], op: Op, a: u32, b: u32, c: u32) -> Result<Term, NoMemory>
    requires op { IsOp op }
    requires terms { AreTerms terms.now }
    ensures { IfOk result (λ node. node ≡ node_of terms.now op a b c) }
{
    let (a, b, c) = (kept(op, 0, a), kept(op, 1, b), kept(op, 2, c));
    match fits(op, bits_at(terms, a), bits_at(terms, b), bits_at(terms, c)) {
        Some(width) => Ok(Term::Node { op, a, b, c, width }),
        None => Err(NoMemory),
    }
}

/// The node of an operator over terms of the problem, where it fits them.
pub(crate) fn node_in(problem: &Problem, op: Op, a: u32, b: u32, c: u32) -> Result<Term, NoMemory>
    requires { IsOp op }
    ensures { IfOk result (λ node. node ≡ node_of problem.now.terms op a b c) }
{
    node_over(problem.terms.as_slice(), op, a, b, c)
}

/// How many terms the problem has.
pub(crate) fn term_count(problem: &Problem) -> usize
    ensures count { result ≡ length problem.now.terms }
    ensures few { result ≤ 4000000 }
{
    problem.terms.len()
}
