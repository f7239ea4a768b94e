//! The judge: whether an image meets a request list. It walks the model's graph for each access of
//! the image, and asks in order whether the model's rules of legality hold, whether each demand is
//! met, whether each link holds, whether no page of a run overlaps a table of any run, and whether
//! no page and no table of a run touches a kept range.
//!
//! Proved: `matches` holds exactly where the image has the list's table bounds, as many contexts, as
//! many accesses, and each access its context; `judge` gives `Satisfies` exactly where all claims of
//! the list about the image hold, and else `Breaks` with the number, counted from 1, of the first
//! that doesn't, for every list of the model. The definitions say what each demand means.
//! `blocks_are_bytes` says of blocks and kept ranges that they overlap and touch exactly where they
//! have a byte in common.
#![tactic(auto)]

mod block;
mod demands;
mod judging;
mod links;
mod matching;
mod rules;
mod runs;
mod verdict;

pub use block::blocks_are_bytes;
pub use judging::judge;
pub use matching::matches;
pub use verdict::Judged;
