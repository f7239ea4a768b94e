ghost use Rattle.std.specs.Prelude.{◌≡◌, ◌<◌, All, length};
ghost use Rattle.dt_box.specs.Cells.{AreCells};
ghost use Rattle.dt_box.specs.Watching.{watches_of};
ghost use Rattle.dt_check.specs.Tests.{is_settled};
ghost use Rattle.dt_check.specs.Checking.{WasSettled};

use dt_box::{Cells, Trail, Watches};
use dt_domain::Domain;
use dt_terms::Problem;

// Whether the cells are settled, by a whole sweep.
fn are_settled<D: Domain>(problem: &Problem, cells: &Cells<D>) -> bool
    requires { AreCells D.ops problem.now.terms cells.now }
    ensures { result ≡ is_settled D.ops problem.now.terms cells.now }
{
    match cells.empty_cell() {
        Some(_) => false,
        None => match cells.unsettled(problem) {
            Some(_) => false,
            None => true,
        },
    }
}

/// Whether the cells are settled. Where they were when the trail had a length that is told, only the
/// cells that changed since then are looked at, and the steps that look at these or aim at them; else
/// all are.
pub(crate) fn is_settled_now<D: Domain>(
    problem: &Problem,
    watches: &Watches,
    cells: &Cells<D>,
    trail: &Trail<D>,
    settled: Option<u64>,
) -> bool
    requires cells { AreCells D.ops problem.now.terms cells.now }
    requires watches { watches.now ≡ watches_of problem.now.terms }
    requires within { All (λ change. change.0 < length cells.now) trail.now }
    requires settled { WasSettled D.ops problem.now.terms cells.now trail.now settled }
    ensures { result ≡ is_settled D.ops problem.now.terms cells.now }
{
    match settled {
        None => are_settled(problem, cells),
        Some(length) => cells.is_settled_since(problem, watches, trail, length),
    }
}
