//! Cases of problems of terms, of their cells, of logs and of searches, as texts: what the calls make of them,
//! line by line, and what they must. The words of the program name files of cases; `dt_script` says
//! how these are written.
//!
//! | call | parts | answer |
//! |---|---|---|
//! | `problem` | `problem` | an answer for each line, see `problems` |
//! | `cells` | `problem`, `steps` | an answer for each step from the root cells, see `steps` |
//! | `trail` | `problem`, `steps`, `undo N` | the same with a trail, and what undoing gives, see `trails` |
//! | `users` | `problem` | for each term `users`, and the nodes that use it |
//! | `log` | `log` | its printed text, or which line or item is wrong, and why |
//! | `check known`, `check range`, `check pair`, `check triple` | `problem`, `log` | what the checker says over this domain, see `logs` |
//! | `search known`, `search pair`, `search triple` | `problem`, `limit N`, `aim N..` | what a search answers over this domain, see `searches` |
//!
//! Proved: each call is made where its conditions hold, and the program ends. Only tested: all else,
//! and so that these calls answer something other than that memory ran out where there is enough.
#![tactic(auto)]

mod answers;
mod logs;
mod problems;
mod searches;
mod steps;
mod trails;

use crate::answers::Answers;
use std::process::ExitCode;

fn main(rt: HostRuntime) -> ExitCode {
    dt_script::answer_files::<Answers>(&rt)
}
