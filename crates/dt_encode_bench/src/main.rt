//! Measures the problems of lists. Its words name a file with a model and one with a list for it; the
//! problem of the list is built, and the values of its terms are found for the number 0 of each
//! choice. On standard error stands how many terms there are and how many are required, and how many
//! milliseconds both took. Without words it does the same for a small list, and prints no figure.
//!
//! Proved: each call is made where its conditions hold, and the program ends.
//! Only tested: that it runs. The figures are the machine's.
#![tactic(auto)]

ghost use Rattle.std.specs.Prelude.{IfOk};
ghost use Rattle.dt_model.specs.Accepted.{accepted_data};
ghost use Rattle.dt_request.specs.Lists.{IsList};

mod stop;

use crate::stop::Stop;
use dt_encode::encode;
use dt_model::Accepted;
use dt_modeltext::read_model;
use dt_request::{Requests, read_requests};
use dt_terms::Problem;
use std::alloc::Global;
use std::time::Instant;
use std::{env, fs};

const MODEL: &str =
    "model 1\nword 64\naddress 16\nreg base 16\nvar w 64\nnode s read w base 12 d f\nnode f fault 1\nnode d done (slice 15 0 w) 12\nend\n";

const LIST: &str = "requests 1\ntables 0x1000 0x2000\ncontext c0\naccess a0 c0\nends done\nend\n";

/// The model that a text spells.
fn model(alloc: Global, text: &[u8]) -> Result<Accepted, Stop> {
    if text.len() >= u32::MAX as usize {
        return Err(Stop::Long);
    }
    Ok(read_model(alloc, text)?)
}

/// The list that a text spells.
fn list(alloc: Global, model: &Accepted, text: &[u8]) -> Result<Requests, Stop>
    ensures { IfOk result (IsList (accepted_data model.now)) }
{
    if text.len() >= u32::MAX as usize {
        return Err(Stop::Long);
    }
    Ok(read_requests(alloc, model, text)?)
}

/// Whether these numbers of the choices solve the problem.
fn solve(alloc: Global, problem: &Problem, numbers: &[u128]) -> Result<bool, Stop> {
    let mut values = vec![in alloc; 0u128; problem.terms.len()]?;
    Ok(problem.is_assignment(numbers) && problem.eval(numbers, &mut values))
}

/// Whether the number 0 for each choice solves the problem.
fn zeros_solve(alloc: Global, problem: &Problem) -> Result<bool, Stop> {
    let zeros = vec![in alloc; 0u128; problem.choice_count() as usize]?;
    solve(alloc, problem, zeros.as_slice())
}

/// Finds the values of the problem's terms.
fn try_problem(rt: &HostRuntime, problem: &Problem) -> Result<(), Stop> {
    let solved = zeros_solve(rt.alloc(), problem)?;
    let terms = problem.terms.len();
    println!(rt; "{terms} terms, zeros solve {solved}: every call ran")?;
    Ok(())
}

fn try_list(rt: &HostRuntime, model: &Accepted, list: &Requests) -> Result<(), Stop>
    requires { IsList (accepted_data model.now) list.now }
{
    try_problem(rt, &encode(rt.alloc(), model, list)?)
}

fn try_model(rt: &HostRuntime, model: &Accepted) -> Result<(), Stop> {
    let list = list(rt.alloc(), model, LIST.as_bytes())?;
    try_list(rt, model, &list)
}

/// Builds the problem of a small list, and finds the values of its terms.
fn try_small(rt: &HostRuntime) -> Result<(), Stop> {
    let model = model(rt.alloc(), MODEL.as_bytes())?;
    try_model(rt, &model)
}

/// Tells how large the problem is, and how long it took to build it.
fn tell_built(rt: &HostRuntime, start: &Instant, problem: &Problem) -> Result<(), Stop> {
    let taken = start.elapsed(rt)?.as_millis();
    let terms = problem.terms.len();
    let required = problem.required.len();
    eprintln!(rt; "built {terms} terms, {required} required: {taken} ms")?;
    Ok(())
}

/// Finds the values of its terms, and tells how long it took.
fn evaluate(rt: &HostRuntime, problem: &Problem) -> Result<(), Stop> {
    let start = Instant::now(rt)?;
    let solved = zeros_solve(rt.alloc(), problem)?;
    let taken = start.elapsed(rt)?.as_millis();
    let terms = problem.terms.len();
    eprintln!(rt; "values of {terms} terms: {taken} ms, zeros solve {solved}")?;
    Ok(())
}

fn measure_problem(rt: &HostRuntime, start: &Instant, problem: &Problem) -> Result<(), Stop> {
    tell_built(rt, start, problem)?;
    evaluate(rt, problem)
}

/// Builds the problem of a list, and tells how long that took, and how long its evaluation.
fn measure_list(rt: &HostRuntime, model: &Accepted, list: &Requests) -> Result<(), Stop>
    requires { IsList (accepted_data model.now) list.now }
{
    let start = Instant::now(rt)?;
    let problem = encode(rt.alloc(), model, list)?;
    measure_problem(rt, &start, &problem)
}

/// The list in a file.
fn list_in(rt: &HostRuntime, model: &Accepted, path: &str) -> Result<Requests, Stop>
    ensures { IfOk result (IsList (accepted_data model.now)) }
{
    list(rt.alloc(), model, fs::read(rt, path)?.as_slice())
}

fn measure_model(rt: &HostRuntime, model: &Accepted, list_path: &str) -> Result<(), Stop> {
    let list = list_in(rt, model, list_path)?;
    measure_list(rt, model, &list)
}

/// The model in a file.
fn model_in(rt: &HostRuntime, path: &str) -> Result<Accepted, Stop> {
    model(rt.alloc(), fs::read(rt, path)?.as_slice())
}

/// Does both with the list in a file.
fn measure(rt: &HostRuntime, model_path: &str, list_path: &str) -> Result<(), Stop> {
    let model = model_in(rt, model_path)?;
    measure_model(rt, &model, list_path)
}

fn main(rt: HostRuntime) -> Result<(), Stop> {
    let mut words = env::args(&rt)?;
    match (words.nth(1), words.next()) {
        (Some(model), Some(list)) => measure(&rt, model.as_str(), list.as_str()),
        _ => try_small(&rt),
    }
}
