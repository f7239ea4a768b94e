ghost use Rattle.std.specs.Prelude.{◌≡◌, ◌<◌, ◌*◌, length, IfOk, All};
ghost use Rattle.dt_box.specs.Cells.{AreCells};
ghost use Rattle.dt_box.specs.Stillness.{HasNoEmpty, IsSettled};
ghost use Rattle.dt_box.specs.Watching.{Covers, watches_of};
ghost use Rattle.dt_propagate.specs.Marks.{HasRoom};
ghost use Rattle.dt_propagate.specs.Keeping.{IsCourse};
ghost use Rattle.dt_propagate.specs.Passing.{AreMarked};
ghost use Rattle.dt_propagate.specs.Settling.{IsLogged, IsProgress, IsEnd, KeepsHeld, HoldsNone};

use crate::marks::Marks;
use crate::passing::pass;
use crate::taking::{Keep, Took};
use dt_bits::NoMemory;
use dt_box::{Cells, Trail, Watches};
use dt_domain::{Deciding, Domain};
use dt_log::Draft;
use dt_terms::Problem;
use std::alloc::Global;

/// How settling ended.
#[derive(Clone, Copy, Debug, PartialEq, Eq)]
pub enum Settled {
    /// The cells are settled.
    Quiet,
    /// The cell of this term is empty.
    Empty(u32),
}

// How often cells may be narrowed without a further bit, in one settling, beside what is given for
// each term where all are tried.
const NARROWINGS: u64 = 4096;

// Tries marked steps until none is marked, or a cell is empty.
fn settle_marked<D: Domain>(
    problem: &Problem,
    watches: &Watches,
    cells: &mut Cells<D>,
    trail: &mut Trail<D>,
    keep: Keep,
    draft: &mut Draft,
    marks: &mut Marks,
) -> Result<Settled, NoMemory>
    requires cells { AreCells D.ops problem.now.terms cells.old }
    requires watches { watches.now ≡ watches_of problem.now.terms }
    requires held { HasNoEmpty D.ops cells.old }
    requires room { HasRoom (2 * length problem.now.terms) marks.old.bits.words.items }
    requires marked { AreMarked D.ops problem.now.terms cells.old marks.old.bits.words.items }
    ensures progress { IsCourse keep D.ops problem.now.terms cells.old trail.old draft.old.lines cells.new trail.new draft.new.lines }
    ensures end { IfOk result (λ end. IsEnd D.ops problem.now.terms end cells.new (IsSettled D.ops problem.now.terms cells.new)) }
    ensures keeps { KeepsHeld D.ops problem.now.terms cells.old cells.new }
    ensures none { IfOk result (λ end. HoldsNone D.ops problem.now.terms end cells.old) }
{
    let _ = &problem.terms;
    loop {
        match pass(problem, watches, cells, trail, keep, draft, marks)? {
            Took::Nothing => return Ok(Settled::Quiet),
            Took::Change => {}
            Took::Empty(term) => return Ok(Settled::Empty(term)),
        }
    }
}

/// Takes steps until the cells are settled or one is empty. Each step that would tell something new
/// has to be near one of the terms that changed.
pub fn settle_from<D: Deciding>(
    alloc: Global,
    problem: &Problem,
    watches: &Watches,
    cells: &mut Cells<D>,
    trail: &mut Trail<D>,
    draft: &mut Draft,
    changed: &[u32],
) -> Result<Settled, NoMemory>
    requires cells { AreCells D.ops problem.now.terms cells.old }
    requires watches { watches.now ≡ watches_of problem.now.terms }
    requires held { HasNoEmpty D.ops cells.old }
    requires terms { All (λ t. t < length problem.now.terms) changed.now }
    requires covers { Covers D.ops problem.now.terms cells.old changed.now }
    ensures progress { IsProgress D.ops problem.now.terms cells.old trail.old draft.old.lines cells.new trail.new draft.new.lines }
    ensures end { IfOk result (λ end. IsEnd D.ops problem.now.terms end cells.new (IsSettled D.ops problem.now.terms cells.new)) }
    ensures keeps { KeepsHeld D.ops problem.now.terms cells.old cells.new }
    ensures none { IfOk result (λ end. HoldsNone D.ops problem.now.terms end cells.old) }
{
    let _ = &problem.terms;
    let mut marks = Marks::new(alloc, problem.terms.len(), 0, NARROWINGS)?;
    for term in changed {
        marks.mark_near(problem, watches, *term);
    }
    settle_marked(
        problem,
        watches,
        cells,
        trail,
        Keep::Changes,
        draft,
        &mut marks,
    )
}

/// Settles cells as `settle` does, with the watches of the problem that the caller has.
pub fn settle_with<D: Deciding>(
    alloc: Global,
    problem: &Problem,
    watches: &Watches,
    cells: &mut Cells<D>,
    draft: &mut Draft,
) -> Result<Settled, NoMemory>
    requires cells { AreCells D.ops problem.now.terms cells.old }
    requires watches { watches.now ≡ watches_of problem.now.terms }
    requires held { HasNoEmpty D.ops cells.old }
    ensures cells { AreCells D.ops problem.now.terms cells.new }
    ensures logged { IsLogged D.ops problem.now.terms cells.old draft.old.lines cells.new draft.new.lines }
    ensures end { IfOk result (λ end. IsEnd D.ops problem.now.terms end cells.new (IsSettled D.ops problem.now.terms cells.new)) }
    ensures keeps { KeepsHeld D.ops problem.now.terms cells.old cells.new }
    ensures none { IfOk result (λ end. HoldsNone D.ops problem.now.terms end cells.old) }
{
    let _ = &problem.terms;
    let count = problem.terms.len();
    let mut marks = Marks::new(alloc, count, u64::MAX, NARROWINGS + count as u64)?;
    // It stays empty: before the first split there is nothing to go back to.
    let mut trail = Trail::new(alloc)?;
    settle_marked(
        problem,
        watches,
        cells,
        &mut trail,
        Keep::Nothing,
        draft,
        &mut marks,
    )
}

/// Takes steps until the cells are settled or one is empty: first all steps from operands to nodes,
/// in rising order, and then those that may tell something new.
pub fn settle<D: Deciding>(
    alloc: Global,
    problem: &Problem,
    cells: &mut Cells<D>,
    draft: &mut Draft,
) -> Result<Settled, NoMemory>
    requires cells { AreCells D.ops problem.now.terms cells.old }
    requires held { HasNoEmpty D.ops cells.old }
    ensures cells { AreCells D.ops problem.now.terms cells.new }
    ensures logged { IsLogged D.ops problem.now.terms cells.old draft.old.lines cells.new draft.new.lines }
    ensures end { IfOk result (λ end. IsEnd D.ops problem.now.terms end cells.new (IsSettled D.ops problem.now.terms cells.new)) }
    ensures keeps { KeepsHeld D.ops problem.now.terms cells.old cells.new }
    ensures none { IfOk result (λ end. HoldsNone D.ops problem.now.terms end cells.old) }
{
    let watches = Watches::new(alloc, problem)?;
    settle_with(alloc, problem, &watches, cells, draft)
}
