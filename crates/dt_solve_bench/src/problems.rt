//! Problems that are drawn: choices of eight bits, nodes over terms that are drawn among those before,
//! and nodes that must have the value that they have under an assignment that is drawn too.
ghost use Rattle.dt_bits.specs.Ops.{IsOp};

use crate::draws::Draws;
use crate::stop::Stop;
use dt_bits::{Bv, Op, Width};
use dt_terms::Problem;
use std::alloc::Global;

/// How large a problem is.
#[derive(Clone, Copy, Debug)]
pub struct Size {
    /// How many choices of eight bits there are.
    pub choices: u32,
    /// How many nodes of eight bits there are over them.
    pub nodes: u32,
    /// How many terms are drawn that must have the value that they have under the assignment.
    pub required: u32,
}

/// An operator that is drawn.
fn drawn_op(draws: &mut Draws) -> Op
    ensures { IsOp result }
{
    match draws.below(6) {
        0 => Op::And,
        1 => Op::Or,
        2 => Op::Xor,
        3 => Op::Add,
        4 => Op::Sub,
        _ => Op::Not,
    }
}

/// Adds a node over terms that are drawn.
fn add_node(problem: &mut Problem, draws: &mut Draws) -> Result<(), Stop> {
    let count = problem.terms.len() as u32;
    let op = drawn_op(draws);
    let first = draws.below(count);
    let second = draws.below(count);
    problem.add(op, first, second, 0)?;
    Ok(())
}

/// Adds the choices and the nodes.
fn add_terms(problem: &mut Problem, draws: &mut Draws, size: Size) -> Result<(), Stop> {
    for _choice in 0..size.choices {
        problem.add_choice(Width(8))?;
    }
    for _node in 0..size.nodes {
        add_node(problem, draws)?;
    }
    Ok(())
}

/// The values of the terms under an assignment that is drawn.
fn drawn_values(alloc: Global, problem: &Problem, draws: &mut Draws) -> Result<Vec<u128>, Stop> {
    let mut numbers = vec![in alloc; 0u128; problem.choice_count() as usize]?;
    for number in numbers.iter_mut() {
        *number = u128::from(draws.below(256));
    }
    if !problem.is_assignment(&numbers) {
        return Err(Stop::NoAssignment);
    }
    let mut values = vec![in alloc; 0u128; problem.terms.len()]?;
    problem.eval(&numbers, &mut values);
    Ok(values)
}

/// Requires that a term of eight bits has this value, modulo 256.
fn require_value(problem: &mut Problem, term: u32, value: u128) -> Result<(), Stop> {
    let value = Bv {
        width: Width(8),
        bits: value % 256,
    };
    let number = problem.add(Op::Const { value }, 0, 0, 0)?;
    let equal = problem.add(Op::Eq, term, number, 0)?;
    problem.require(equal)?;
    Ok(())
}

/// Requires that a term that is drawn has its value among these, or another than that.
fn require_drawn(
    problem: &mut Problem,
    draws: &mut Draws,
    values: &[u128],
    other: bool,
) -> Result<(), Stop> {
    let term = draws.below(values.len().min(u32::MAX as usize) as u32);
    match values.get(term as usize) {
        None => Ok(()),
        Some(value) => {
            let value = if other { *value ^ 1 } else { *value };
            require_value(problem, term, value)
        }
    }
}

/// The problem of this size that the seed fixes. The assignment solves it, unless it is turned: then
/// one more term is drawn, which must have another value.
pub fn drawn(alloc: Global, size: Size, seed: u64, turned: bool) -> Result<Problem, Stop> {
    let mut draws = Draws::new(seed);
    let mut problem = Problem::new(alloc)?;
    add_terms(&mut problem, &mut draws, size)?;
    let values = drawn_values(alloc, &problem, &mut draws)?;
    for _required in 0..size.required {
        require_drawn(&mut problem, &mut draws, &values, false)?;
    }
    if turned {
        require_drawn(&mut problem, &mut draws, &values, true)?;
    }
    Ok(problem)
}
