//! Logs of problems, and what the checker says of them over known bits, ranges, pairs or triples: `closed S`,
//! `open S`, or `refused item I CAUSE`; of a text that is no log, which line or item is wrong, and why.
//! `*N TEXT` in a case writes a long log.

use crate::problems::problem_alone;
use dt_bits::NoMemory;
use dt_check::{Verdict, check_log};
use dt_domain::Domain;
use dt_known::Known;
use dt_log::{Log, LogFault, print_log, read_log};
use dt_pair::Pair;
use dt_range::Range;
use dt_script::Case;
use dt_sets::Triple;
use dt_terms::Problem;
use std::alloc::{AllocError, Global};
use std::str;

fn push_verdict(out: &mut String, verdict: Verdict) -> Result<(), AllocError> {
    match verdict {
        Verdict::Closed(splits) => writeln!(out, "closed {splits}"),
        Verdict::Unfinished(splits) => writeln!(out, "open {splits}"),
        Verdict::Refused { item, cause } => writeln!(out, "refused item {item} {}", cause.word()),
    }
}

fn push_fault(out: &mut String, fault: LogFault) -> Result<(), AllocError> {
    match (fault.line(), fault.item()) {
        (Some(line), _) => writeln!(out, "refused log line {line} {}", fault.word()),
        (None, Some(item)) => writeln!(out, "refused log item {item} {}", fault.word()),
        (None, None) => writeln!(out, "{}", fault.word()),
    }
}

/// Writes what the checker says of the log, over this domain.
pub fn push_checked<D: Domain>(
    alloc: Global,
    problem: &Problem,
    log: &Log,
    out: &mut String,
) -> Result<(), NoMemory> {
    if log.lines.len() > u32::MAX as usize {
        return Ok(());
    }
    let verdict = check_log::<D>(alloc, problem, log)?;
    push_verdict(out, verdict)?;
    Ok(())
}

/// Writes the printed text of the log.
pub fn push_text(alloc: Global, log: &Log, out: &mut String) -> Result<(), NoMemory> {
    let text = print_log(alloc, log)?;
    out.push_str(str::from_utf8(text.as_slice()).unwrap_or("no text"))?;
    Ok(())
}

/// The printed text of the log, or which line or item is wrong, and why.
pub fn printed(alloc: Global, case: Case, out: &mut String) -> Result<(), NoMemory> {
    match read_log(alloc, case.text("log").as_bytes()) {
        Err(fault) => Ok(push_fault(out, fault)?),
        Ok(log) => push_text(alloc, &log, out),
    }
}

/// Writes what the checker says of the log, over the domain of this name.
fn push_checked_over(
    alloc: Global,
    domain: &str,
    problem: &Problem,
    log: &Log,
    out: &mut String,
) -> Result<(), NoMemory> {
    match domain {
        "known" => push_checked::<Known>(alloc, problem, log, out),
        "range" => push_checked::<Range>(alloc, problem, log, out),
        "triple" => push_checked::<Triple>(alloc, problem, log, out),
        _ => push_checked::<Pair>(alloc, problem, log, out),
    }
}

/// The checker's answer over the domain of this name, on the log of the case and this problem.
fn push_answer(
    alloc: Global,
    domain: &str,
    problem: &Problem,
    case: Case,
    out: &mut String,
) -> Result<(), NoMemory> {
    match read_log(alloc, case.text("log").as_bytes()) {
        Err(fault) => Ok(push_fault(out, fault)?),
        Ok(log) => push_checked_over(alloc, domain, problem, &log, out),
    }
}

/// The checker's answer over the domain of this name.
pub fn answered(alloc: Global, domain: &str, case: Case, out: &mut String) -> Result<(), NoMemory> {
    let problem = problem_alone(alloc, case)?;
    push_answer(alloc, domain, &problem, case, out)
}
