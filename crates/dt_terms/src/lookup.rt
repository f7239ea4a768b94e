ghost use Rattle.std.specs.Prelude.{◌≡◌, ◌<◌, slice_get, IfOk, IfErr};
ghost use Rattle.dt_bits.specs.Ops.{IsOp};
ghost use Rattle.dt_terms.specs.Terms.{AreTerms, IsTerm, bits_at};
ghost use Rattle.dt_terms.specs.Additions.{is_full, kept, is_named, node_of, operands_fault};

use crate::{Term, TermFault};
use dt_bits::{Op, arity, fits};

// How many terms a problem has at most.
const MOST_TERMS: usize = 4_000_000;

// Whether there are as many terms as a problem may have.
pub(crate) fn is_full(terms: &[Term]) -> bool
    ensures { result ≡ is_full terms.now }
{
    terms.len() >= MOST_TERMS
}

// How many bits the value of the term at a position has, and 1 where there is no such term.
pub(crate) fn bits_at(terms: &[Term], term: u32) -> u32
    ensures { result ≡ bits_at terms.now term }
{
    match terms.get(term as usize) {
        Some(term) => term.width().0,
        None => 1,
    }
}

// The operand at a place, and 0 where the operator has none there.
pub(crate) fn kept(op: Op, place: u32, term: u32) -> u32
    ensures { result ≡ kept op place term }
{
    if place < arity(op) { term } else { 0 }
}

// The operator has no operand at this place, or the named one is there.
fn is_named(terms: &[Term], op: Op, place: u32, term: u32) -> bool
    ensures { result ≡ is_named terms.now op place term }
{
    arity(op) <= place || (term as usize) < terms.len()
}

// The node of an operator over these terms, or why there is none.
pub(crate) fn node_over(terms: &[Term], op: Op, a: u32, b: u32, c: u32) -> Result<Term, TermFault>
    requires op { IsOp op }
    requires terms { AreTerms terms.now }
    ensures node { IfOk result (λ node. node ≡ node_of terms.now op a b c) }
    ensures term { IfOk result (λ node. IsTerm terms.now node) }
    ensures none { IfOk result (λ _. operands_fault terms.now op a b c ≡ None) }
    ensures fault { IfErr result (λ e. Some e ≡ operands_fault terms.now op a b c) }
{
    if !(is_named(terms, op, 0, a) && is_named(terms, op, 1, b) && is_named(terms, op, 2, c)) {
        return Err(TermFault::Operand);
    }
    let (a, b, c) = (kept(op, 0, a), kept(op, 1, b), kept(op, 2, c));
    match fits(op, bits_at(terms, a), bits_at(terms, b), bits_at(terms, c)) {
        Some(width) => Ok(Term::Node { op, a, b, c, width }),
        None => Err(TermFault::Width),
    }
}

// The number at a position of a list, where there is one.
pub(crate) fn number_at(list: &[u32], at: u32) -> Option<u32>
    ensures { result ≡ slice_get list.now at }
{
    list.get(at as usize).copied()
}
