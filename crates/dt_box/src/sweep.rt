ghost use Rattle.std.specs.Prelude.{◌≡◌, ℕ, ◌^◌, ◌<◌, false, length, IsTrue, IfSome, IfNone, MatchOption};
ghost use Rattle.std.specs.List.{position_from};
ghost use Rattle.dt_bits.specs.Bits.{width};
ghost use Rattle.dt_terms.specs.Terms.{AreTerms};
ghost use Rattle.dt_box.specs.declared.step.Step.TheVariants.{Backward};
ghost use Rattle.dt_box.specs.Cells.{AreDomains, AreCells, cell_at};
ghost use Rattle.dt_box.specs.Steps.{IsStep};
ghost use Rattle.dt_box.specs.Stillness.{HasNoEmpty, tells, TellsNew, IsStillAt, IsStill};

use crate::Step;
use crate::change::has_news;
use crate::fixed::is_fixed;
use crate::propagation::{narrowed_backward, narrowed_forward, target};
use dt_bits::arity;
use dt_domain::Domain;
use dt_terms::Term;

// The position of the first empty one of these cells.
pub(crate) fn first_empty<D: Domain>(cells: &[D]) -> Option<u32>
    requires { AreDomains D.ops cells.now }
    ensures first { result ≡ position_from D.ops.is_empty 0 cells.now }
    ensures found { IfSome result (λ t. (t < length cells.now) × IsTrue (D.ops.is_empty (cell_at D.ops cells.now t))) }
    ensures none { IfNone result (HasNoEmpty D.ops cells.now) }
{
    for (at, cell) in cells.iter().enumerate() {
        if cell.is_empty() {
            return Some(at as u32);
        }
    }
    None
}

// Whether the step empties a cell or makes a further bit known.
pub(crate) fn tells<D: Domain>(terms: &[Term], cells: &[D], unused: &D, step: Step) -> bool
    requires terms { AreTerms terms.now }
    requires cells { AreCells D.ops terms.now cells.now }
    requires unused { unused.now ≡ D.ops.full (width 1) }
    requires step { IsStep terms.now step }
    ensures { result ≡ tells D.ops terms.now step cells.now }
{
    let cell = &cells[target(terms, step) as usize];
    match step {
        Step::Forward { term } => has_news(narrowed_forward(terms, cells, unused, term), cell),
        Step::Backward { parent, place } => {
            has_news(narrowed_backward(terms, cells, unused, parent, place), cell)
        }
    }
}

// The first step backward from a node, with this many operands, that tells something new.
fn backward_from<D: Domain>(
    terms: &[Term],
    cells: &[D],
    unused: &D,
    parent: u32,
    places: u32,
) -> Option<Step>
    requires terms { AreTerms terms.now }
    requires cells { AreCells D.ops terms.now cells.now }
    requires unused { unused.now ≡ D.ops.full (width 1) }
    requires places { (k : ℕ) → k < places → IsStep terms.now (Backward parent k) }
    ensures { MatchOption result ((k : ℕ) → k < places → tells D.ops terms.now (Backward parent k) cells.now ≡ false) (λ step. TellsNew D.ops terms.now step cells.now) }
{
    for place in 0..places {
        let step = Step::Backward { parent, place };
        if tells(terms, cells, unused, step) {
            return Some(step);
        }
    }
    None
}

// The first step from the term at a position that tells something new.
pub(crate) fn step_from<D: Domain>(
    terms: &[Term],
    cells: &[D],
    unused: &D,
    term: u32,
) -> Option<Step>
    requires terms { AreTerms terms.now }
    requires cells { AreCells D.ops terms.now cells.now }
    requires unused { unused.now ≡ D.ops.full (width 1) }
    requires term { term < length terms.now }
    ensures { MatchOption result (IsStillAt D.ops terms.now term cells.now) (λ step. TellsNew D.ops terms.now step cells.now) }
{
    match terms[term as usize] {
        Term::Choice { .. } => None,
        Term::Node { op, .. } => {
            if is_fixed(terms, cells, term) {
                return None;
            }
            let forward = Step::Forward { term };
            if tells(terms, cells, unused, forward) {
                return Some(forward);
            }
            backward_from(terms, cells, unused, term, arity(op))
        }
    }
}

// The first step that tells something new.
pub(crate) fn first_step<D: Domain>(terms: &[Term], cells: &[D], unused: &D) -> Option<Step>
    requires terms { AreTerms terms.now }
    requires cells { AreCells D.ops terms.now cells.now }
    requires unused { unused.now ≡ D.ops.full (width 1) }
    requires count { length terms.now < 2 ^ 32 }
    ensures { MatchOption result (IsStill D.ops terms.now cells.now) (λ step. TellsNew D.ops terms.now step cells.now) }
{
    for term in 0..terms.len() as u32 {
        let step = step_from(terms, cells, unused, term);
        if step.is_some() {
            return step;
        }
    }
    None
}
