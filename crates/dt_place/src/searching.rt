ghost use Rattle.std.specs.Prelude.{IfOk};
ghost use Rattle.dt_solve.specs.Outcomes.{IsAnswer};

use crate::Placer;
use dt_bits::NoMemory;
use dt_domain::Deciding;
use dt_model::Accepted;
use dt_request::Requests;
use dt_solve::{Outcome, search};
use dt_terms::Problem;
use std::alloc::Global;

/// How the search on the problem of a list of the model ends, with at most so many splits, where
/// layouts of the list are tried first; the seed fixes what is drawn for them.
///
/// # Errors
///
/// `NoMemory` where memory ran out.
pub fn search_list<D: Deciding>(
    alloc: Global,
    model: &Accepted,
    requests: &Requests,
    problem: &Problem,
    limit: u64,
    seed: u64,
) -> Result<Outcome, NoMemory>
    ensures answer { IfOk result (λ outcome. IsAnswer D.ops problem.now limit outcome) }
{
    let _ = &problem.terms;
    let mut placer = Placer::new(alloc, model, requests, seed)?;
    search::<D, Placer>(alloc, problem, limit, &mut placer)
}
