//! Which call a case asks for, and its answer.
use crate::{logs, problems, searches, steps, trails};
use dt_bits::NoMemory;
use dt_script::{Calls, Case};
use std::alloc::{AllocError, Global};

/// Writes what the call makes of the case.
fn push_answer(alloc: Global, call: &str, case: Case, out: &mut String) -> Result<(), NoMemory> {
    match call {
        "problem" => problems::answered(alloc, case, out),
        "cells" => steps::answered(alloc, case, out),
        "trail" => trails::answered(alloc, case, out),
        "users" => trails::users(alloc, case, out),
        "log" => logs::printed(alloc, case, out),
        "check known" => logs::answered(alloc, "known", case, out),
        "check range" => logs::answered(alloc, "range", case, out),
        "check pair" => logs::answered(alloc, "pair", case, out),
        "check triple" => logs::answered(alloc, "triple", case, out),
        "search known" => searches::answered(alloc, "known", case, out),
        "search pair" => searches::answered(alloc, "pair", case, out),
        "search triple" => searches::answered(alloc, "triple", case, out),
        _ => Ok(out.push_str("no such call\n")?),
    }
}

/// The calls of this program.
pub struct Answers;

impl Calls for Answers {
    fn answer(alloc: Global, call: &str, case: Case) -> Result<String, AllocError> {
        let mut out = String::new(alloc);
        if push_answer(alloc, call, case, &mut out).is_err() {
            out.push_str("memory ran out\n")?;
        }
        Ok(out)
    }
}
