ghost use Rattle.dt_pair.specs.Ops.{pair_ops};
ghost use Rattle.dt_box.specs.Cells.{AreCells};

use crate::stop::Stop;
use dt_bits::{Bv, Op, Width};
use dt_box::{Cells, Changed, Step, Trail};
use dt_pair::Pair;
use dt_terms::Problem;
use std::alloc::Global;

/// The low byte of a number of 64 bits.
const LOW_BYTE: Op = Op::Const {
    value: Bv {
        width: Width(64),
        bits: 0xff,
    },
};

/// Adds the terms of a problem of this many.
fn add_terms(problem: &mut Problem, count: u32) -> Result<(), Stop> {
    let mask = problem.add(LOW_BYTE, 0, 0, 0)?;
    let mut last = mask;
    for n in 1..count {
        last = if n % 8 == 0 {
            problem.add_choice(Width(64))?
        } else {
            problem.add(Op::And, last, mask, 0)?
        };
    }
    Ok(())
}

/// A problem of this many terms: first a mask, then a choice of 64 bits in every eight, and else the
/// term before within the mask.
pub fn built(alloc: Global, count: u32) -> Result<Problem, Stop> {
    let mut problem = Problem::new(alloc)?;
    add_terms(&mut problem, count)?;
    Ok(problem)
}

/// Takes every step forward, and says in how many a bit became known.
pub fn swept(problem: &Problem, cells: &mut Cells<Pair>) -> u32
    requires { AreCells pair_ops problem.now.terms cells.old }
    ensures { AreCells pair_ops problem.now.terms cells.new }
{
    let mut known: u32 = 0;
    for term in 0..problem.terms.len() as u32 {
        let step = Step::Forward { term };
        if step.is_of(problem) && cells.apply(problem, step) == Changed::BitKnown {
            known = known.saturating_add(1);
        }
    }
    known
}

/// Takes steps forward until the trail has so many pairs, and says how many it has.
pub fn kept(
    problem: &Problem,
    cells: &mut Cells<Pair>,
    trail: &mut Trail<Pair>,
    most: u64,
) -> Result<u64, Stop>
    requires { AreCells pair_ops problem.now.terms cells.old }
    ensures { AreCells pair_ops problem.now.terms cells.new }
{
    for term in 0..problem.terms.len() as u32 {
        let step = Step::Forward { term };
        if trail.len() < most && step.is_of(problem) {
            cells.apply_kept(problem, step, trail)?;
        }
    }
    Ok(trail.len())
}

/// Whether 0 for each choice solves the problem.
pub fn evaluated(alloc: Global, problem: &Problem) -> Result<bool, Stop> {
    let values = vec![in alloc; 0u128; problem.choice_count() as usize]?;
    let mut out = vec![in alloc; 0u128; problem.terms.len()]?;
    Ok(problem.is_assignment(&values) && problem.eval(&values, &mut out))
}
