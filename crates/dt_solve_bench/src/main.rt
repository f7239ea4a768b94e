//! Measures the search over triples on problems that are drawn (`src/problems.rt`). Its words are
//! `CHOICES NODES REQUIRED SEEDS LIMIT`: from each of so many seeds it draws a problem of that size
//! that an assignment solves, and one of which one more term must have another value than it has under
//! that assignment, and searches each with at most so many splits. Without words it does so for sizes
//! of its own. For each problem it prints a line: how many terms it has, how the search ended, how many
//! assignments were tried in all attempts of the search, and, where the answer has a log, how many
//! splits and items that has. With words standard error says how many milliseconds each search took.
//!
//! An assignment counts as tried each time that the proposer is asked; then those terms are evaluated
//! that use one whose value differs from the last trial's.
//!
//! Proved: each call is made where its conditions hold, and the program ends.
//! Only tested: that it runs, and the answers. The figures are the machine's.
#![tactic(auto)]

mod counting;
mod draws;
mod problems;
mod stop;

use crate::counting::Counting;
use crate::problems::{Size, drawn};
use crate::stop::Stop;
use dt_log::{Line, Log};
use dt_sets::Triple;
use dt_solve::{Outcome, search};
use dt_terms::Problem;
use std::env;
use std::time::Instant;

/// The sizes without words.
const SIZES: [Size; 6] = [
    Size {
        choices: 3,
        nodes: 60,
        required: 4,
    },
    Size {
        choices: 4,
        nodes: 200,
        required: 6,
    },
    Size {
        choices: 2,
        nodes: 400,
        required: 3,
    },
    Size {
        choices: 16,
        nodes: 400,
        required: 12,
    },
    Size {
        choices: 100,
        nodes: 3000,
        required: 10,
    },
    Size {
        choices: 200,
        nodes: 20_000,
        required: 20,
    },
];

/// What is searched of each size: problems of how many seeds, with how many splits at most; and
/// whether times are printed.
#[derive(Clone, Copy)]
struct Plan {
    seeds: u64,
    limit: u64,
    timed: bool,
}

/// The plan without words.
const USUAL: Plan = Plan {
    seeds: 4,
    limit: 1000,
    timed: false,
};

/// How many splits a log has.
fn splits_of(log: &Log) -> usize {
    let mut splits = 0usize;
    for index in 0..log.lines.len() {
        if matches!(log.lines.at(index), Line::Split { .. }) {
            splits = splits.saturating_add(1);
        }
    }
    splits
}

/// Prints how a search ended that answers with a log.
fn print_log(
    rt: &HostRuntime,
    terms: usize,
    word: &str,
    tried: u64,
    log: &Log,
) -> Result<(), Stop> {
    let splits = splits_of(log);
    let items = log.lines.len();
    println!(rt;
        "{terms} terms: {word}, {tried} assignments tried, {splits} splits, {items} items"
    )?;
    Ok(())
}

/// Prints how a search ended.
fn print(rt: &HostRuntime, terms: usize, tried: u64, outcome: &Outcome) -> Result<(), Stop> {
    match outcome {
        Outcome::Found(_) => {
            println!(rt; "{terms} terms: found, {tried} assignments tried")?;
            Ok(())
        }
        Outcome::Refuted(log) => print_log(rt, terms, "refuted", tried, log),
        Outcome::Spent(log) => print_log(rt, terms, "spent", tried, log),
    }
}

/// Tells how long a search took.
fn tell(rt: &HostRuntime, start: &Instant) -> Result<(), Stop> {
    let taken = start.elapsed(rt)?.as_millis();
    eprintln!(rt; "{taken} ms")?;
    Ok(())
}

/// Searches a problem, and prints how that ended.
fn measure_problem(rt: &HostRuntime, plan: Plan, problem: &Problem) -> Result<(), Stop> {
    let mut counting = Counting { asked: 0 };
    let start = Instant::now(rt)?;
    let outcome = search::<Triple, Counting>(rt.alloc(), problem, plan.limit, &mut counting)?;
    if plan.timed {
        tell(rt, &start)?;
    }
    print(rt, problem.terms.len(), counting.asked, &outcome)
}

/// Searches a problem that is drawn.
fn measure(rt: &HostRuntime, plan: Plan, size: Size, seed: u64, turned: bool) -> Result<(), Stop> {
    let problem = drawn(rt.alloc(), size, seed, turned)?;
    measure_problem(rt, plan, &problem)
}

/// Searches the problems of a size.
fn measure_size(rt: &HostRuntime, plan: Plan, size: Size) -> Result<(), Stop> {
    for seed in 0..plan.seeds {
        measure(rt, plan, size, seed, false)?;
        measure(rt, plan, size, seed, true)?;
    }
    Ok(())
}

/// Searches the problems of each size.
fn measure_sizes(rt: &HostRuntime) -> Result<(), Stop> {
    for size in SIZES {
        measure_size(rt, USUAL, size)?;
    }
    Ok(())
}

/// The number that a word spells, else 0.
fn number(word: Option<String>) -> u32 {
    match word {
        Some(word) => word.as_str().parse::<u32>().unwrap_or(0),
        None => 0,
    }
}

fn main(rt: HostRuntime) -> Result<(), Stop> {
    let mut words = env::args(&rt)?.skip(1);
    match words.next() {
        None => measure_sizes(&rt),
        Some(word) => {
            let size = Size {
                choices: number(Some(word)),
                nodes: number(words.next()),
                required: number(words.next()),
            };
            let plan = Plan {
                seeds: u64::from(number(words.next())),
                limit: u64::from(number(words.next())),
                timed: true,
            };
            measure_size(&rt, plan, size)
        }
    }
}
