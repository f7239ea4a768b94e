//! Searches over known bits, pairs or triples, with the limit of the case. The answer is
//! `found` and the numbers; or the log, and what the checker says of it over the same domain. Where
//! the case has an aim, it is proposed; else nothing is.

use crate::logs::{push_checked, push_text};
use crate::problems::{problem_alone, push_numbers};
use dt_bits::NoMemory;
use dt_domain::{Deciding, Domain};
use dt_known::Known;
use dt_log::Log;
use dt_pair::Pair;
use dt_script::{Case, numbers};
use dt_sets::Triple;
use dt_solve::{Aim, Outcome, Picks, Proposer, search};
use dt_terms::Problem;
use std::alloc::{AllocError, Global};

fn push_found(out: &mut String, numbers: &[u128]) -> Result<(), AllocError> {
    out.push_str("found")?;
    push_numbers(out, numbers)
}

fn push_log<D: Domain>(
    alloc: Global,
    problem: &Problem,
    log: &Log,
    out: &mut String,
) -> Result<(), NoMemory> {
    push_text(alloc, log, out)?;
    push_checked::<D>(alloc, problem, log, out)
}

fn push_outcome<D: Domain>(
    alloc: Global,
    problem: &Problem,
    outcome: &Outcome,
    out: &mut String,
) -> Result<(), NoMemory> {
    match outcome {
        Outcome::Found(numbers) => Ok(push_found(out, numbers)?),
        Outcome::Refuted(log) => push_log::<D>(alloc, problem, log, out),
        Outcome::Spent(log) => push_log::<D>(alloc, problem, log, out),
    }
}

fn push_search<D: Deciding, P: Proposer<D>>(
    alloc: Global,
    problem: &Problem,
    case: Case,
    proposer: &mut P,
    out: &mut String,
) -> Result<(), NoMemory> {
    let limit = case.words("limit").parse::<u64>().unwrap_or(0);
    let outcome = search::<D, P>(alloc, problem, limit, proposer)?;
    push_outcome::<D>(alloc, problem, &outcome, out)
}

fn push_answer<D: Deciding>(
    alloc: Global,
    problem: &Problem,
    case: Case,
    out: &mut String,
) -> Result<(), NoMemory> {
    match case.part("aim") {
        None => push_search::<D, Picks>(alloc, problem, case, &mut Picks, out),
        Some(_) => {
            let values = numbers(alloc, case.words("aim"))?;
            let mut aim = Aim::new(alloc, &values)?;
            push_search::<D, Aim>(alloc, problem, case, &mut aim, out)
        }
    }
}

/// What a search of this problem answers over the domain of this name.
fn push_answer_over(
    alloc: Global,
    domain: &str,
    problem: &Problem,
    case: Case,
    out: &mut String,
) -> Result<(), NoMemory> {
    match domain {
        "known" => push_answer::<Known>(alloc, problem, case, out),
        "triple" => push_answer::<Triple>(alloc, problem, case, out),
        _ => push_answer::<Pair>(alloc, problem, case, out),
    }
}

/// What a search answers over the domain of this name.
pub fn answered(alloc: Global, domain: &str, case: Case, out: &mut String) -> Result<(), NoMemory> {
    let problem = problem_alone(alloc, case)?;
    push_answer_over(alloc, domain, &problem, case, out)
}
