ghost use Rattle.std.specs.Prelude.{◌≡◌, IfOk, IfSome};
ghost use Rattle.dt_box.specs.Cells.{root_cells};
ghost use Rattle.dt_solve.specs.Early.{IsEarly};

use crate::proposer::Proposer;
use crate::tried::Tried;
use dt_bits::NoMemory;
use dt_box::Cells;
use dt_domain::Domain;
use dt_terms::Problem;
use std::alloc::Global;

// What the proposer proposes at the root cells, where it solves the problem: nothing is settled for
// it, so that it costs one look at each term.
pub(crate) fn found_early<D: Domain, P: Proposer<D>>(
    alloc: Global,
    problem: &Problem,
    cells: &Cells<D>,
    proposer: &mut P,
) -> Result<Option<Vec<u128>>, NoMemory>
    requires { cells.now ≡ root_cells D.ops problem.now }
    ensures found { IfOk result (λ found. IfSome found (λ numbers. IsEarly problem.now (P.aim proposer.old) numbers.items)) }
    ensures aim { P.aim proposer.new ≡ P.aim proposer.old }
{
    if cells.empty_cell().is_some() {
        return Ok(None);
    }
    let mut tried = Tried::new(alloc, problem)?;
    let mut values = vec![in alloc; 0u128; problem.terms.len()]?;
    tried.ask(problem, cells, proposer);
    if problem.eval(&tried.numbers, values.as_mut_slice()) {
        return Ok(Some(tried.numbers));
    }
    Ok(None)
}
