ghost use Rattle.std.specs.Prelude.{◌≡◌, [], IfOk};
ghost use Rattle.dt_box.specs.Cells.{AreCells, root_cells};
ghost use Rattle.dt_box.specs.Stillness.{IsSettled};
ghost use Rattle.dt_box.specs.Watching.{watches_of};
ghost use Rattle.dt_propagate.specs.Settling.{IsLogged, IsEnd};
ghost use Rattle.dt_solve.specs.Roots.{IsRoot, is_refuted};

use crate::writing::copy_of;
use dt_bits::NoMemory;
use dt_box::{Cells, Watches};
use dt_domain::{Deciding, Domain};
use dt_log::Draft;
use dt_propagate::{Settled, settle_with};
use dt_terms::Problem;
use std::alloc::Global;

// Where each attempt begins: the root cells after settling, the steps that led there, and how settling
// ended.
#[derive(Drop)]
pub(crate) struct Root<D: Domain> {
    pub(crate) cells: Cells<D>,
    pub(crate) draft: Draft,
    pub(crate) end: Settled,
}

// Settles root cells, of which some may be empty.
fn settle_root<D: Deciding>(
    alloc: Global,
    problem: &Problem,
    watches: &Watches,
    cells: &mut Cells<D>,
    draft: &mut Draft,
) -> Result<Settled, NoMemory>
    requires cells { AreCells D.ops problem.now.terms cells.old }
    requires watches { watches.now ≡ watches_of problem.now.terms }
    ensures cells { AreCells D.ops problem.now.terms cells.new }
    ensures logged { IsLogged D.ops problem.now.terms cells.old draft.old.lines cells.new draft.new.lines }
    ensures end { IfOk result (λ end. IsEnd D.ops problem.now.terms end cells.new (IsSettled D.ops problem.now.terms cells.new)) }
{
    match cells.empty_cell() {
        Some(term) => Ok(Settled::Empty(term)),
        None => settle_with(alloc, problem, watches, cells, draft),
    }
}

// The root cells of a problem, settled.
pub(crate) fn settled_root<D: Deciding>(
    alloc: Global,
    problem: &Problem,
    mut cells: Cells<D>,
) -> Result<Root<D>, NoMemory>
    requires { cells ≡ root_cells D.ops problem.now }
    ensures { IfOk result (λ root. IsRoot D.ops problem.now root.cells root.draft.lines root.end) }
{
    let _ = &problem.terms;
    let watches = Watches::new(alloc, problem)?;
    let mut draft = Draft::new(alloc);
    let end = settle_root(alloc, problem, &watches, &mut cells, &mut draft)?;
    Ok(Root { cells, draft, end })
}

// Whether a root cell is empty, so that nothing is left to search.
pub(crate) fn is_refuted<D: Domain>(root: &Root<D>) -> bool
    ensures { result ≡ is_refuted root.now.end }
{
    match root.end {
        Settled::Quiet => false,
        Settled::Empty(_) => true,
    }
}

// The same root, in memory of its own.
pub(crate) fn root_again<D: Domain>(alloc: Global, root: &Root<D>) -> Result<Root<D>, NoMemory>
    ensures { IfOk result (λ again. (again.cells ≡ root.now.cells) × (again.draft.lines ≡ root.now.draft.lines) × (again.end ≡ root.now.end)) }
{
    Ok(Root {
        cells: root.cells.copy(alloc)?,
        draft: copy_of(alloc, &root.draft)?,
        end: root.end,
    })
}
