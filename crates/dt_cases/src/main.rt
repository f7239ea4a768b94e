//! Cases of the calls below, as texts: what a call makes of these texts, and what it must. The words
//! of the program name files of cases.
//!
//! `dt_script` says how a file of cases is written. Where a text is refused, the answer is the line
//! that the program prints then.
//!
//! | call | parts | answer |
//! |---|---|---|
//! | `lex` | `source` | `lines N`, then for each token its line, its start and its end |
//! | `lines` | `source` | its lines |
//! | `numbers` | `source` | for each line the number that it spells, as it is printed |
//! | `names` | `source` | for each line the name that it spells |
//! | `check` | `model` | `accepted` |
//! | `nodes` | `model` | the sizes, and for each node its kind and positions |
//! | `print` | `model` | its printed text |
//! | `list` | `model`, `list` | what the list has, by positions, and its choices with their bits |
//! | `image` | `model`, `image` | its printed text |
//! | `walk` | `model`, `image` | for each access its path, the sides that it took, its reads and its end |
//! | `rules` | `model`, `image` | for each context and access the values of its rules |
//! | `judge` | `model`, `list`, `image` | `satisfies`, `breaks K`, or `no match` |
//! | `encode` | `model`, `list` | the widths of the choices, how many terms the list's problem has, and how many are required |
//! | `terms` | `model`, `list` | each term of the problem, and which are required |
//! | `told` | `model`, `list`, `numbers N..` | the printed image that the numbers tell, or `fails`, or `no assignment` |
//! | `run` | `words W..`, `file NAME`.., `unread N..`, `unwritten N..` | `status S`, and what was written |
//! | `measure` | the same | `status S`, and how many bytes were written |
//!
//! A list that is too large is answered by `too large WHAT NUMBER`.
//!
//! Proved: each call is made where its conditions hold, and the program ends. Only tested: all else,
//! and so that these calls answer something other than that memory ran out where there is enough.
#![tactic(auto)]

mod answers;
mod claims;
mod commands;
mod images;
mod lists;
mod models;
mod output;
mod problems;
mod sources;
mod stop;
mod told;
mod walks;

use crate::answers::Answers;
use std::process::ExitCode;

fn main(rt: HostRuntime) -> ExitCode {
    dt_script::answer_files::<Answers>(&rt)
}
