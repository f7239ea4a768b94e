ghost use Rattle.std.specs.Prelude.{◌≡◌, ◌<◌, ◌*◌, ◌+◌, length, IfOk, OnOk};
ghost use Rattle.dt_box.specs.Cells.{AreCells};
ghost use Rattle.dt_terms.specs.Terms.{term_at};
ghost use Rattle.dt_box.specs.Steps.{IsNodeTerm};
ghost use Rattle.dt_box.specs.Stillness.{HasNoEmpty};
ghost use Rattle.dt_box.specs.Watching.{watches_of};
ghost use Rattle.dt_propagate.specs.Marks.{HasRoom};
ghost use Rattle.dt_propagate.specs.Keeping.{IsCourse};
ghost use Rattle.dt_propagate.specs.Passing.{place_count, AreMarkedBut, AreMarked, IsVisited, IsPassed, StandsAt, IsLeft};

use crate::marks::{Marks, positions};
use crate::taking::{Keep, Took, take_step};
use dt_bits::{NoMemory, arity};
use dt_box::{Cells, Step, Trail, Watches};
use dt_domain::Domain;
use dt_log::Draft;
use dt_terms::{Problem, Term};

// How many operands a term has: none, if it is a choice.
fn places(term: &Term) -> u32
    ensures { result ≡ place_count term.now }
{
    match *term {
        Term::Choice { .. } => 0,
        Term::Node { op, .. } => arity(op),
    }
}

// Tries the step from a node to its operand at each place, until one changes something: that marks
// all of them again.
fn visit_backward<D: Domain>(
    problem: &Problem,
    watches: &Watches,
    cells: &mut Cells<D>,
    trail: &mut Trail<D>,
    keep: Keep,
    draft: &mut Draft,
    marks: &mut Marks,
    node: u32,
) -> Result<Took, NoMemory>
    requires cells { AreCells D.ops problem.now.terms cells.old }
    requires watches { watches.now ≡ watches_of problem.now.terms }
    requires held { HasNoEmpty D.ops cells.old }
    requires node { node < length problem.now.terms }
    requires room { HasRoom (2 * length problem.now.terms) marks.old.bits.words.items }
    requires marked { AreMarkedBut D.ops problem.now.terms cells.old marks.old.bits.words.items (IsLeft node 0) }
    ensures progress { IsCourse keep D.ops problem.now.terms cells.old trail.old draft.old.lines cells.new trail.new draft.new.lines }
    ensures room { OnOk result (HasRoom (2 * length problem.now.terms) marks.new.bits.words.items) }
    ensures took { IfOk result (λ took. IsVisited D.ops problem.now.terms cells.old marks.old took cells.new marks.new) }
{
    for place in 0..places(&problem.terms.as_slice()[node as usize]) {
        let step = Step::Backward {
            parent: node,
            place,
        };
        match take_step(problem, watches, cells, trail, keep, draft, marks, step)? {
            Took::Nothing => {}
            Took::Change => return Ok(Took::Change),
            Took::Empty(term) => return Ok(Took::Empty(term)),
        }
    }
    Ok(Took::Nothing)
}

// Tries the step from the operands of a node to it.
fn visit_forward<D: Domain>(
    problem: &Problem,
    watches: &Watches,
    cells: &mut Cells<D>,
    trail: &mut Trail<D>,
    keep: Keep,
    draft: &mut Draft,
    marks: &mut Marks,
    node: u32,
) -> Result<Took, NoMemory>
    requires cells { AreCells D.ops problem.now.terms cells.old }
    requires watches { watches.now ≡ watches_of problem.now.terms }
    requires held { HasNoEmpty D.ops cells.old }
    requires node { node < length problem.now.terms }
    requires is_node { IsNodeTerm (term_at problem.now.terms node) }
    requires room { HasRoom (2 * length problem.now.terms) marks.old.bits.words.items }
    requires marked { AreMarkedBut D.ops problem.now.terms cells.old marks.old.bits.words.items (StandsAt problem.now.terms node) }
    ensures progress { IsCourse keep D.ops problem.now.terms cells.old trail.old draft.old.lines cells.new trail.new draft.new.lines }
    ensures room { OnOk result (HasRoom (2 * length problem.now.terms) marks.new.bits.words.items) }
    ensures took { IfOk result (λ took. IsVisited D.ops problem.now.terms cells.old marks.old took cells.new marks.new) }
{
    let step = Step::Forward { term: node };
    match take_step(problem, watches, cells, trail, keep, draft, marks, step)? {
        Took::Nothing => Ok(Took::Nothing),
        Took::Change => Ok(Took::Change),
        Took::Empty(term) => Ok(Took::Empty(term)),
    }
}

// Tries the steps at a position.
fn visit<D: Domain>(
    problem: &Problem,
    watches: &Watches,
    cells: &mut Cells<D>,
    trail: &mut Trail<D>,
    keep: Keep,
    draft: &mut Draft,
    marks: &mut Marks,
    at: u32,
) -> Result<Took, NoMemory>
    requires cells { AreCells D.ops problem.now.terms cells.old }
    requires watches { watches.now ≡ watches_of problem.now.terms }
    requires held { HasNoEmpty D.ops cells.old }
    requires at { at < 2 * length problem.now.terms }
    requires room { HasRoom (2 * length problem.now.terms) marks.old.bits.words.items }
    requires marked { AreMarkedBut D.ops problem.now.terms cells.old marks.old.bits.words.items (StandsAt problem.now.terms at) }
    ensures progress { IsCourse keep D.ops problem.now.terms cells.old trail.old draft.old.lines cells.new trail.new draft.new.lines }
    ensures room { OnOk result (HasRoom (2 * length problem.now.terms) marks.new.bits.words.items) }
    ensures took { IfOk result (λ took. IsVisited D.ops problem.now.terms cells.old marks.old took cells.new marks.new) }
{
    let terms = problem.terms.as_slice();
    if (at as usize) < terms.len() {
        return match terms[at as usize] {
            Term::Choice { .. } => Ok(Took::Nothing),
            Term::Node { .. } => visit_forward(
                problem, watches, cells, trail, keep, draft, marks, at,
            ),
        };
    }
    visit_backward(
        problem,
        watches,
        cells,
        trail,
        keep,
        draft,
        marks,
        positions(terms.len()) - 1 - at,
    )
}

// Takes each mark away, in rising order, and tries the steps there. Steps that are marked
// meanwhile at or before the position where it stands are left to the next pass.
pub(crate) fn pass<D: Domain>(
    problem: &Problem,
    watches: &Watches,
    cells: &mut Cells<D>,
    trail: &mut Trail<D>,
    keep: Keep,
    draft: &mut Draft,
    marks: &mut Marks,
) -> Result<Took, NoMemory>
    requires cells { AreCells D.ops problem.now.terms cells.old }
    requires watches { watches.now ≡ watches_of problem.now.terms }
    requires held { HasNoEmpty D.ops cells.old }
    requires room { HasRoom (2 * length problem.now.terms) marks.old.bits.words.items }
    requires marked { AreMarked D.ops problem.now.terms cells.old marks.old.bits.words.items }
    ensures progress { IsCourse keep D.ops problem.now.terms cells.old trail.old draft.old.lines cells.new trail.new draft.new.lines }
    ensures room { OnOk result (HasRoom (2 * length problem.now.terms) marks.new.bits.words.items) }
    ensures took { IfOk result (λ took. IsPassed D.ops problem.now.terms cells.old marks.old took cells.new marks.new) }
{
    let end = positions(problem.terms.len());
    let mut from = 0;
    let mut changed = false;
    while let Some(at) = marks.bits.next_below(from, end) {
        from = at + 1;
        marks.bits.unmark(at);
        match visit(problem, watches, cells, trail, keep, draft, marks, at)? {
            Took::Nothing => {}
            Took::Change => changed = true,
            Took::Empty(term) => return Ok(Took::Empty(term)),
        }
    }
    if changed {
        return Ok(Took::Change);
    }
    Ok(Took::Nothing)
}
