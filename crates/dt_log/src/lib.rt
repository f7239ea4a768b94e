//! Logs: what a refutation or a search did with a problem, item by item, for a checker that trusts
//! nobody. The items are one tree: steps, then a cell that is empty, or a split with a tree for
//! each value of a bit, or an end that was left. A log is made of a [`Draft`] or read from its text,
//! and printed as a text.
//!
//! Proved: `Draft::finish` gives the log of a draft exactly where its items are one tree;
//! `read_log` gives exactly the log that a text spells, or the first bad line and the first of its
//! causes, or the first item where no tree can go on; `print_log` gives exactly the one text of a
//! log, and that text reads back as the same log; `trees_are_read` says what being a tree means of
//! trees, and that items stand for at most one; a fault names exactly its line or its item, and its
//! cause's word.
//!
//! Only tested: that these calls succeed where there is memory.
#![tactic(auto)]

mod draft;
mod entry;
mod fault;
mod laws;
mod line;
mod lines;
mod log;
mod print;
mod read;
mod shaping;
mod written;

pub use draft::Draft;
pub use fault::LogFault;
pub use laws::trees_are_read;
pub use line::{Claim, Line};
pub use lines::Lines;
pub use log::Log;
pub use print::print_log;
pub use read::read_log;
