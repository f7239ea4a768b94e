ghost use Rattle.std.specs.Prelude.{◌≡◌, ◌<◌, length, IfSome};
ghost use Rattle.dt_bits.specs.Bits.{width};
ghost use Rattle.dt_domain.specs.Domain.{IsNarrowed, operand};
ghost use Rattle.dt_terms.specs.Terms.{AreTerms};
ghost use Rattle.dt_box.specs.declared.step.Step.TheVariants.{Forward, Backward};
ghost use Rattle.dt_box.specs.Cells.{AreCells, cell_at};
ghost use Rattle.dt_box.specs.Steps.{IsStep, operand_cell, target, propagated};

use crate::Step;
use dt_bits::{Op, arity};
use dt_domain::Domain;
use dt_terms::Term;

// The operand of a node at a place.
pub(crate) fn operand_of(a: u32, b: u32, c: u32, place: u32) -> u32
    ensures { result ≡ operand place a b c }
{
    match place {
        0 => a,
        1 => b,
        _ => c,
    }
}

// The term whose cell the step narrows.
pub(crate) fn target(terms: &[Term], step: Step) -> u32
    requires { IsStep terms.now step }
    ensures { result ≡ target terms.now step }
{
    match step {
        Step::Forward { term } => term,
        Step::Backward { parent, place } => match terms[parent as usize] {
            Term::Node { a, b, c, .. } => operand_of(a, b, c, place),
            Term::Choice { .. } => 0,
        },
    }
}

// The cell of the operand at a place, or what stands for it where the operator has none there.
fn operand_cell<'a, D: Domain>(
    cells: &'a [D],
    unused: &'a D,
    op: Op,
    place: u32,
    term: u32,
) -> &'a D
    requires term { term < length cells.now }
    requires unused { unused.now ≡ D.ops.full (width 1) }
    ensures { result.now ≡ operand_cell D.ops cells.now op place term }
{
    if place < arity(op) {
        &cells[term as usize]
    } else {
        unused
    }
}

// The node's cell, narrowed by what its operands' cells say of it; None where that is nothing new.
#[inline(always)]
pub(crate) fn narrowed_forward<D: Domain>(
    terms: &[Term],
    cells: &[D],
    unused: &D,
    term: u32,
) -> Option<D>
    requires terms { AreTerms terms.now }
    requires cells { AreCells D.ops terms.now cells.now }
    requires unused { unused.now ≡ D.ops.full (width 1) }
    requires step { IsStep terms.now (Forward term) }
    ensures value { IsNarrowed D.ops (cell_at D.ops cells.now term) (propagated D.ops terms.now (Forward term) cells.now) result }
    ensures domain { IfSome result D.ops.IsDomain }
    ensures cell { D.ops.IsDomain (cell_at D.ops cells.now term) }
    ensures within { term < length cells.now }
{
    match terms[term as usize] {
        Term::Node { op, a, b, c, .. } => {
            cells[term as usize].narrowed_forward(
                op,
                operand_cell(cells, unused, op, 0, a),
                operand_cell(cells, unused, op, 1, b),
                operand_cell(cells, unused, op, 2, c),
            )
        }
        Term::Choice { .. } => unreachable!(),
    }
}

// The cell of the operand at a place, narrowed by what the node's cell and those of its operands say
// of it; None where that is nothing new.
#[inline(always)]
pub(crate) fn narrowed_backward<D: Domain>(
    terms: &[Term],
    cells: &[D],
    unused: &D,
    parent: u32,
    place: u32,
) -> Option<D>
    requires terms { AreTerms terms.now }
    requires cells { AreCells D.ops terms.now cells.now }
    requires unused { unused.now ≡ D.ops.full (width 1) }
    requires step { IsStep terms.now (Backward parent place) }
    ensures value { IsNarrowed D.ops (cell_at D.ops cells.now (target terms.now (Backward parent place))) (propagated D.ops terms.now (Backward parent place) cells.now) result }
    ensures domain { IfSome result D.ops.IsDomain }
    ensures cell { D.ops.IsDomain (cell_at D.ops cells.now (target terms.now (Backward parent place))) }
    ensures within { target terms.now (Backward parent place) < length cells.now }
{
    match terms[parent as usize] {
        Term::Node { op, a, b, c, .. } => {
            cells[operand_of(a, b, c, place) as usize].narrowed_backward(
                op,
                place,
                &cells[parent as usize],
                operand_cell(cells, unused, op, 0, a),
                operand_cell(cells, unused, op, 1, b),
                operand_cell(cells, unused, op, 2, c),
            )
        }
        Term::Choice { .. } => unreachable!(),
    }
}
