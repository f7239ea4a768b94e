//! Problems with chains: a choice of one bit, and nodes that are each the complement of the one before.
//! In each problem the first four terms say what is required.
use crate::stop::Stop;
use dt_bits::{Op, Width};
use dt_terms::Problem;
use std::alloc::Global;

/// How large a problem is.
#[derive(Clone, Copy, Debug)]
pub struct Size {
    /// How many chains there are.
    pub chains: u32,
    /// How many nodes each has behind its choice.
    pub nodes: u32,
    /// How many terms there are at least.
    pub terms: u32,
}

impl Size {
    /// The position of the choice of a chain.
    pub fn choice_of(self, chain: u32) -> u32 {
        let length = self.nodes.saturating_add(1);
        chain.saturating_mul(length).saturating_add(4)
    }
}

fn add_chain(problem: &mut Problem, nodes: u32) -> Result<(), Stop> {
    let mut last = problem.add_choice(Width(1))?;
    for _node in 0..nodes {
        last = problem.add(Op::Not, last, 0, 0)?;
    }
    Ok(())
}

/// Adds the chains, and choices until there are as many terms as are wanted.
fn add_chains(problem: &mut Problem, size: Size) -> Result<(), Stop> {
    for _chain in 0..size.chains {
        add_chain(problem, size.nodes)?;
    }
    for _term in problem.terms.len() as u32..size.terms {
        problem.add_choice(Width(1))?;
    }
    Ok(())
}

/// Adds the contradiction: a bit that is required to be 1 and to be 0.
fn add_contradiction(problem: &mut Problem) -> Result<(), Stop> {
    let bit = problem.add_choice(Width(1))?;
    let not = problem.add(Op::Not, bit, 0, 0)?;
    let both = problem.add(Op::And, bit, not, 0)?;
    problem.add_choice(Width(1))?;
    problem.require(both)?;
    Ok(())
}

/// A problem that no assignment solves: a bit is to be 1 and to be 0.
pub fn contradiction(alloc: Global, size: Size) -> Result<Problem, Stop> {
    let mut problem = Problem::new(alloc)?;
    add_contradiction(&mut problem)?;
    add_chains(&mut problem, size)?;
    Ok(problem)
}

/// Adds the difference: a number, of which two bits are required to differ.
fn add_difference(problem: &mut Problem) -> Result<(), Stop> {
    let number = problem.add_choice(Width(4))?;
    let low = problem.add(Op::Slice { hi: 0, lo: 0 }, number, 0, 0)?;
    let high = problem.add(Op::Slice { hi: 1, lo: 1 }, number, 0, 0)?;
    let differ = problem.add(Op::Xor, low, high, 0)?;
    problem.require(differ)?;
    Ok(())
}

/// A problem that the least numbers don't solve: two bits of a number are to differ.
pub fn difference(alloc: Global, size: Size) -> Result<Problem, Stop> {
    let mut problem = Problem::new(alloc)?;
    add_difference(&mut problem)?;
    add_chains(&mut problem, size)?;
    Ok(problem)
}
