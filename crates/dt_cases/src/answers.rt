//! Which call a case asks for, and its answer.
use crate::stop::Stop;
use crate::{claims, commands, images, lists, models, sources};
use dt_script::{Calls, Case};
use std::alloc::{AllocError, Global};

/// Calls on the texts of a model.
fn push_of_model(alloc: Global, call: &str, case: Case, out: &mut String) -> Result<(), Stop> {
    match call {
        "check" | "nodes" | "print" => models::answer(alloc, call, case, out),
        "list" | "encode" | "terms" | "told" => lists::answer(alloc, call, case, out),
        "image" | "walk" | "rules" => images::answer(alloc, call, case, out),
        "judge" => claims::answer(alloc, case, out),
        _ => Err(Stop::Unknown),
    }
}

/// Writes what the call makes of the case.
fn push_answer(alloc: Global, call: &str, case: Case, out: &mut String) -> Result<(), Stop> {
    match call {
        "lex" => sources::lexed(alloc, case, out),
        "lines" => Ok(sources::lines(case, out)?),
        "numbers" => Ok(sources::numbers(alloc, case, out)?),
        "names" => Ok(sources::names(case, out)?),
        "run" => commands::answered(alloc, case, out),
        "measure" => commands::measured(alloc, case, out),
        _ => push_of_model(alloc, call, case, out),
    }
}

/// The line that says why there is no answer.
fn push_stop(out: &mut String, stop: Stop) -> Result<(), AllocError> {
    match stop {
        Stop::Memory => out.push_str("memory ran out\n"),
        Stop::Unknown => out.push_str("no such call\n"),
        Stop::Refused { text, line, cause } => {
            writeln!(out, "refused {text} line {line} {cause}")
        }
        Stop::TooLarge { what, number } => writeln!(out, "too large {what} {number}"),
    }
}

/// The calls of this program.
pub struct Answers;

impl Calls for Answers {
    fn answer(alloc: Global, call: &str, case: Case) -> Result<String, AllocError> {
        let mut out = String::new(alloc);
        if let Err(stop) = push_answer(alloc, call, case, &mut out) {
            push_stop(&mut out, stop)?;
        }
        Ok(out)
    }
}
