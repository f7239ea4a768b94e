ghost use Rattle.std.specs.Prelude.{◌≡◌, None};
ghost use Rattle.dt_box.specs.Cells.{AreCells};
ghost use Rattle.dt_check.specs.Reading.{step_cause, close_cause, split_cause, unvisited_cause};

use crate::Cause;
use dt_bits::bit_of;
use dt_box::{Cells, Step};
use dt_domain::Domain;
use dt_log::Claim;
use dt_terms::Problem;

/// Why a step is refused.
pub(crate) fn step_cause(problem: &Problem, step: Step) -> Option<Cause>
    ensures { result ≡ step_cause problem.now.terms step }
{
    if step.is_of(problem) {
        None
    } else {
        Some(Cause::BadStep)
    }
}

/// Why a Close item is refused.
pub(crate) fn close_cause<D: Domain>(
    problem: &Problem,
    cells: &Cells<D>,
    term: u32,
) -> Option<Cause>
    requires { AreCells D.ops problem.now.terms cells.now }
    ensures { result ≡ close_cause D.ops problem.now.terms cells.now term }
{
    if term as usize >= problem.terms.len() {
        return Some(Cause::TermOutOfRange);
    }
    if cells.get(term).is_empty() {
        None
    } else {
        Some(Cause::NotEmpty)
    }
}

/// Why a Split item is refused, before what was tried is looked at.
pub(crate) fn bit_cause<D: Domain>(
    problem: &Problem,
    cells: &Cells<D>,
    term: u32,
    bit: u32,
) -> Option<Cause>
    requires { AreCells D.ops problem.now.terms cells.now }
    ensures { result ≡ split_cause D.ops problem.now.terms cells.now term bit None }
{
    let _ = &problem.terms;
    if term as usize >= problem.terms.len() {
        return Some(Cause::TermOutOfRange);
    }
    if !problem.terms.at(term as usize).is_choice() {
        return Some(Cause::NotChoice);
    }
    if bit >= problem.terms.at(term as usize).width().0 {
        return Some(Cause::BitOutOfRange);
    }
    if bit_of(cells.get(term).known_mask(), bit) {
        Some(Cause::BitKnown)
    } else {
        None
    }
}

/// Why an Unvisited item is refused.
pub(crate) fn unvisited_cause(claim: Claim, opened: bool) -> Option<Cause>
    ensures { result ≡ unvisited_cause claim opened }
{
    match claim {
        Claim::Impossible => Some(Cause::WrongClaim),
        Claim::Budget(_) => if opened { None } else { Some(Cause::Untried) },
    }
}
