ghost use Rattle.std.specs.Prelude.{◌≡◌, ◌==◌, ◌||◌, ◌<◌, ◌*◌, ◌+◌, not, length, IfOk, OnOk, OnErr};
ghost use Rattle.dt_box.specs.Cells.{AreCells, cell_at};
ghost use Rattle.dt_box.specs.Changes.{IsChange};
ghost use Rattle.dt_box.specs.Steps.{IsStep, target, narrowed, after_step};
ghost use Rattle.dt_box.specs.Stillness.{HasNoEmpty, tells};
ghost use Rattle.dt_box.specs.Watching.{watches_of};
ghost use Rattle.dt_propagate.specs.Marks.{HasRoom};
ghost use Rattle.dt_propagate.specs.Keeping.{IsKeptIf, IsCourse};
ghost use Rattle.dt_propagate.specs.Settling.{step_line};
ghost use Rattle.dt_propagate.specs.Passing.{IsTaken};

use crate::marks::Marks;
use dt_bits::NoMemory;
use dt_box::{Cells, Changed, Step, Trail, Watches};
use dt_domain::Domain;
use dt_log::{Draft, Line};
use dt_terms::Problem;

// What came of steps that were tried.
#[derive(Clone, Copy, Debug, PartialEq, Eq)]
pub(crate) enum Took {
    // Nothing.
    Nothing,
    // A cell was narrowed.
    Change,
    // The cell of this term is empty.
    Empty(u32),
}

// Where steps keep what the cells were that they change.
#[derive(Clone, Copy, Debug, PartialEq, Eq)]
pub(crate) enum Keep {
    // In the trail.
    Changes,
    // Nowhere: the trail stays as it is.
    Nothing,
}

// The item of a log for a step.
fn line_of(step: Step) -> Line
    ensures { result ≡ step_line step }
{
    match step {
        Step::Forward { term } => Line::Forward { term },
        Step::Backward { parent, place } => Line::Backward { parent, place },
    }
}

// Takes a step, and keeps in the trail what its target's cell was, if that is to be kept. Without
// memory for that, cells and trail stay.
fn apply<D: Domain>(
    problem: &Problem,
    cells: &mut Cells<D>,
    trail: &mut Trail<D>,
    keep: Keep,
    step: Step,
) -> Result<Changed, NoMemory>
    requires cells { AreCells D.ops problem.now.terms cells.old }
    requires step { IsStep problem.now.terms step }
    ensures cells { OnOk result (cells.new ≡ after_step D.ops problem.now.terms step cells.old) }
    ensures change { IfOk result (λ changed. IsChange D.ops (cell_at D.ops cells.old (target problem.now.terms step)) (narrowed D.ops problem.now.terms step cells.old) changed) }
    ensures err { OnErr result ((cells.new ≡ cells.old) × (trail.new ≡ trail.old)) }
    ensures are { AreCells D.ops problem.now.terms cells.new }
    ensures kept { IsKeptIf keep cells.old trail.old cells.new trail.new }
{
    match keep {
        Keep::Changes => cells.apply_kept(problem, step, trail),
        Keep::Nothing => Ok(cells.apply(problem, step)),
    }
}

// Takes a step, and logs it where it narrows its target's cell. Without memory nothing is changed.
fn log_step<D: Domain>(
    problem: &Problem,
    cells: &mut Cells<D>,
    trail: &mut Trail<D>,
    keep: Keep,
    draft: &mut Draft,
    step: Step,
) -> Result<Changed, NoMemory>
    requires cells { AreCells D.ops problem.now.terms cells.old }
    requires step { IsStep problem.now.terms step }
    ensures cells { OnOk result (cells.new ≡ after_step D.ops problem.now.terms step cells.old) }
    ensures change { IfOk result (λ changed. IsChange D.ops (cell_at D.ops cells.old (target problem.now.terms step)) (narrowed D.ops problem.now.terms step cells.old) changed) }
    ensures progress { IsCourse keep D.ops problem.now.terms cells.old trail.old draft.old.lines cells.new trail.new draft.new.lines }
{
    draft.push(line_of(step))?;
    match apply(problem, cells, trail, keep, step) {
        Err(e) => {
            draft.pop();
            Err(e)
        }
        Ok(Changed::No) => {
            draft.pop();
            Ok(Changed::No)
        }
        Ok(Changed::Narrowed) => Ok(Changed::Narrowed),
        Ok(Changed::BitKnown) => Ok(Changed::BitKnown),
        Ok(Changed::Empty) => Ok(Changed::Empty),
    }
}

// Whether a step is taken where that changes something: narrowings are left, or it tells something
// new.
fn may_take<D: Domain>(problem: &Problem, cells: &Cells<D>, narrowings: u64, step: Step) -> bool
    requires cells { AreCells D.ops problem.now.terms cells.now }
    requires step { IsStep problem.now.terms step }
    ensures { result ≡ (not (narrowings == 0) || tells D.ops problem.now.terms step cells.now) }
{
    narrowings != 0 || cells.tells(problem, step)
}

// Tries a step, and marks the steps near its target where that changes. A step that would only
// narrow is taken while narrowings are left.
pub(crate) fn take_step<D: Domain>(
    problem: &Problem,
    watches: &Watches,
    cells: &mut Cells<D>,
    trail: &mut Trail<D>,
    keep: Keep,
    draft: &mut Draft,
    marks: &mut Marks,
    step: Step,
) -> Result<Took, NoMemory>
    requires cells { AreCells D.ops problem.now.terms cells.old }
    requires watches { watches.now ≡ watches_of problem.now.terms }
    requires held { HasNoEmpty D.ops cells.old }
    requires step { IsStep problem.now.terms step }
    requires room { HasRoom (2 * length problem.now.terms) marks.old.bits.words.items }
    ensures progress { IsCourse keep D.ops problem.now.terms cells.old trail.old draft.old.lines cells.new trail.new draft.new.lines }
    ensures room { OnOk result (HasRoom (2 * length problem.now.terms) marks.new.bits.words.items) }
    ensures took { IfOk result (λ took. IsTaken D.ops problem.now.terms step cells.old marks.old took cells.new marks.new) }
{
    let _ = &problem.terms;
    if !may_take(problem, cells, marks.narrowings, step) {
        return Ok(Took::Nothing);
    }
    let target = step.target(problem);
    match log_step(problem, cells, trail, keep, draft, step)? {
        Changed::No => Ok(Took::Nothing),
        Changed::Empty => Ok(Took::Empty(target)),
        Changed::Narrowed => {
            marks.narrowings -= 1;
            marks.mark_near(problem, watches, target);
            Ok(Took::Change)
        }
        Changed::BitKnown => {
            marks.mark_near(problem, watches, target);
            Ok(Took::Change)
        }
    }
}
