ghost use Rattle.std.specs.Prelude.{◌≡◌, ℕ, ◌<◌, true, length, IfSome, IsTrue, MatchOption};
ghost use Rattle.dt_bits.specs.declared.value.Bv.{Bv};
ghost use Rattle.dt_terms.specs.Terms.{AreTerms, term_at};
ghost use Rattle.dt_box.specs.Cells.{AreCells, cell_at};
ghost use Rattle.dt_box.specs.Fixed.{IsOnly, IsOperandNumber, ComesTo, Fixes};
ghost use Rattle.dt_box.specs.Stillness.{IsStillAt};

use dt_bits::{Bv, Op, apply, arity, ones};
use dt_domain::Domain;
use dt_terms::Term;

// The number of a domain whose bits are all known, and None where one isn't.
#[inline(always)]
fn only_number<D: Domain>(domain: &D) -> Option<Bv>
    requires { D.ops.IsDomain domain.now }
    ensures { MatchOption result ((v : Bv) → IsOnly D.ops domain.now v → ⊥) (IsOnly D.ops domain.now) }
{
    let width = domain.width();
    if domain.known_mask() != ones(width) {
        return None;
    }
    Some(Bv {
        width,
        bits: domain.known_value(),
    })
}

// The number of an operand whose bits are all known; 0 where the operator has no operand at this
// place.
#[inline(always)]
fn operand_number<D: Domain>(cell: &D, op: Op, place: u32) -> Option<Bv>
    requires { D.ops.IsDomain cell.now }
    ensures { MatchOption result ((v : Bv) → IsOperandNumber D.ops op place cell.now v → ⊥) (IsOperandNumber D.ops op place cell.now) }
{
    if place < arity(op) {
        return only_number(cell);
    }
    Some(Bv {
        width: cell.width(),
        bits: 0,
    })
}

// The operator's value, where all bits of the operands of a node are known.
#[inline(always)]
fn known_value<D: Domain>(terms: &[Term], cells: &[D], node: u32) -> Option<u128>
    requires terms { AreTerms terms.now }
    requires cells { AreCells D.ops terms.now cells.now }
    requires node { node < length terms.now }
    ensures value { MatchOption result ((x : ℕ) → ComesTo D.ops cells.now (term_at terms.now node) x → ⊥) (ComesTo D.ops cells.now (term_at terms.now node)) }
    ensures fixes { IfSome result (Fixes D.ops terms.now cells.now node) }
{
    match terms[node as usize] {
        Term::Choice { .. } => None,
        Term::Node { op, a, b, c, .. } => {
            let first = operand_number(&cells[a as usize], op, 0)?;
            let second = operand_number(&cells[b as usize], op, 1)?;
            let third = operand_number(&cells[c as usize], op, 2)?;
            Some(apply(op, first, second, third).bits)
        }
    }
}

// Whether all bits of a node and of its operands are known, and the node has its operator's value: then
// no step of it tells something new.
#[inline(always)]
pub(crate) fn is_fixed<D: Domain>(terms: &[Term], cells: &[D], node: u32) -> bool
    requires terms { AreTerms terms.now }
    requires cells { AreCells D.ops terms.now cells.now }
    requires node { node < length terms.now }
    ensures still { IsTrue result → IsStillAt D.ops terms.now node cells.now }
    ensures fixed { (v : Bv) → IsOnly D.ops (cell_at D.ops cells.now node) v → ComesTo D.ops cells.now (term_at terms.now node) v.bits → result ≡ true }
{
    match only_number(&cells[node as usize]) {
        None => false,
        Some(number) => match known_value(terms, cells, node) {
            None => false,
            Some(value) => number.bits == value,
        },
    }
}
