//! The checker of logs: it goes through the items of a log in order, from the root cells of the
//! problem, and says whether the log refutes the problem, is the record of a search that ended at its
//! limit, or is refused, at which item and why. It knows nothing of who wrote the log, nor of models
//! and lists, and is written over the trait of domains alone.
//!
//! Proved: the verdict is exactly the one of the definitions (`specs/Reading.antt`); `Closed` comes
//! exactly for logs that refute (`specs/Sound.antt`), `Unfinished` exactly for records
//! (`specs/Records.antt`); and where it is `Closed`, no assignment solves the problem, by the laws of a
//! domain alone (`check_log`). Laws for whoever writes logs stand in `specs/Laws.antt`: a record has
//! fewer splits than two to the number of unknown bits at its first item that is no step, less 1;
//! steps forget no known bit; where all bits of choices are known, a trial solves.
//!
//! The checker keeps one list of cells and a trail, and for each right tree to come 16 bytes. A step
//! costs one call of the domain; going back costs as much as the changes that it undoes; at a split of
//! a record, and at its first end that was left, the steps beside the cells that changed since the
//! cells were last settled are tried, or the operator is evaluated where all is known there; picks are
//! taken where a choice's cell changed since the last trial or a number was tried then; of the terms only
//! those are evaluated that use a term whose value differs from the last trial's; and of the required
//! terms the one is looked at first that failed last.
//!
//! Only tested, in programs above: that `check_log` succeeds where there is memory.
#![tactic(auto)]

mod causing;
mod check;
mod checker;
mod evaluation;
mod laws;
mod marks;
mod pending;
mod settledness;
mod trial;
mod turning;
mod verdict;

pub use check::check_log;
pub use evaluation::Evaluation;
pub use laws::{decided_trials_solve, records_are_short, steps_keep_bits, verdicts_are_exact};
pub use pending::Pending;
pub use trial::{Trial, pick_of, write_picks, write_tried};
pub use turning::next_tree;
pub use verdict::{Cause, Verdict};
