//! Files of cases: texts, what a call is to make of them, and a report on whether it does. A program
//! of cases says by the trait `Calls` what the calls are.
//!
//! A file of cases has lines of these kinds:
//!
//! | line | what it is |
//! |---|---|
//! | `# ..`, or an empty one | nothing |
//! | `text NAME` | begins a text that cases take up by its name |
//! | `case NAME CALL` | begins a case |
//! | `PART` or `PART PIECE` | begins a part of the case: `model`, `list`, `image` and others, and `expect` |
//! | `\|LINE` | a piece of the text of the part above: this line, with its line feed |
//! | `:TEXT` | a piece: this text, without a line feed |
//! | `*N TEXT` | a piece: this text N times, without line feeds |
//! | `<NAME` | a piece: the text of this name |
//!
//! In a piece `\n` is a line feed, `\t` a tab, `\r` a carriage return, `\1` the byte 1, and `\\` a
//! backslash. An answer is lines too.
//!
//! For each case the report says `NAME: ok`, or `NAME: differs` and what came in place of the
//! expected answer; and at the end how many cases were ok, and how many differed.
//!
//! Proved: these calls are safe and end. Only tested: all else.
#![tactic(auto)]

mod operators;
mod parts;
mod report;
mod script;
mod spelling;

pub use operators::{numbers, operator, own_numbers, small};
pub use parts::{Case, Part};
pub use report::{Calls, Report, answer_files};
