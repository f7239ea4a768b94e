//! Measures the checker over pairs. `refutation CHAINS NODES TERMS` makes a problem of so many terms
//! that no assignment solves, and a refutation with a full tree of splits, one level for each chain,
//! each followed by NODES steps. `record CHAINS NODES TERMS` makes a record with the same splits and
//! steps of a problem of the same size. Standard error then says how many items the log had, and how
//! many milliseconds its check took. Without words it does both for a small size, and prints no
//! figure.
//!
//! Proved: each call is made where its conditions hold, and the program ends.
//! Only tested: that it runs, and the verdicts. The figures are the machine's.
#![tactic(auto)]

mod logs;
mod problems;
mod stop;

use crate::logs::{record, refutation};
use crate::problems::{Size, contradiction, difference};
use crate::stop::Stop;
use dt_check::{Verdict, check_log};
use dt_log::Log;
use dt_pair::Pair;
use dt_terms::Problem;
use std::alloc::Global;
use std::env;
use std::time::Instant;

/// The size without words.
const SMALL: Size = Size {
    chains: 3,
    nodes: 2,
    terms: 20,
};

fn checked(alloc: Global, problem: &Problem, log: &Log) -> Result<Verdict, Stop> {
    if log.lines.len() > u32::MAX as usize {
        return Err(Stop::NoTree);
    }
    Ok(check_log::<Pair>(alloc, problem, log)?)
}

/// Tells how large the log and the problem are, and how long the check took.
fn tell(rt: &HostRuntime, start: &Instant, problem: &Problem, log: &Log) -> Result<(), Stop> {
    let taken = start.elapsed(rt)?.as_millis();
    let items = log.lines.len();
    let terms = problem.terms.len();
    eprintln!(rt; "checked {items} items on {terms} terms: {taken} ms")?;
    Ok(())
}

fn print(rt: &HostRuntime, verdict: Verdict) -> Result<(), Stop> {
    match verdict {
        Verdict::Closed(splits) => println!(rt; "closed {splits}")?,
        Verdict::Unfinished(splits) => println!(rt; "open {splits}")?,
        Verdict::Refused { item, cause } => println!(rt; "refused item {item} {}", cause.word())?,
    }
    Ok(())
}

/// Checks the log, and says what it costs and what the verdict is.
fn measure(rt: &HostRuntime, shown: bool, problem: &Problem, log: &Log) -> Result<(), Stop> {
    let start = Instant::now(rt)?;
    let verdict = checked(rt.alloc(), problem, log)?;
    if shown {
        tell(rt, &start, problem, log)?;
    }
    print(rt, verdict)
}

fn refute(rt: &HostRuntime, shown: bool, size: Size, problem: &Problem) -> Result<(), Stop> {
    let log = refutation(rt.alloc(), size)?;
    measure(rt, shown, problem, &log)
}

fn measure_refutation(rt: &HostRuntime, shown: bool, size: Size) -> Result<(), Stop> {
    let problem = contradiction(rt.alloc(), size)?;
    refute(rt, shown, size, &problem)
}

fn keep(rt: &HostRuntime, shown: bool, size: Size, problem: &Problem) -> Result<(), Stop> {
    let log = record(rt.alloc(), size)?;
    measure(rt, shown, problem, &log)
}

fn measure_record(rt: &HostRuntime, shown: bool, size: Size) -> Result<(), Stop> {
    let problem = difference(rt.alloc(), size)?;
    keep(rt, shown, size, &problem)
}

fn number(word: Option<String>) -> u32 {
    match word {
        Some(word) => word.as_str().parse::<u32>().unwrap_or(0),
        None => 0,
    }
}

fn main(rt: HostRuntime) -> Result<(), Stop> {
    let mut words = env::args(&rt)?.skip(1);
    match words.next() {
        None => {
            measure_refutation(&rt, false, SMALL)?;
            measure_record(&rt, false, SMALL)
        }
        Some(kind) => {
            let size = Size {
                chains: number(words.next()).min(24),
                nodes: number(words.next()),
                terms: number(words.next()),
            };
            if kind.as_str() == "record" {
                measure_record(&rt, true, size)
            } else {
                measure_refutation(&rt, true, size)
            }
        }
    }
}
