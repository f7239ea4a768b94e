//! The layout of a request list: its tables, words and pages are put into memory as a person would
//! do it. The walk of each access goes by sides from which what is demanded can be reached; what its
//! tests ask of registers, inputs and words is worked out backwards, bit by bit; tables go into free
//! blocks, pages where nothing else lies, and what is left free is drawn from a seed.
//!
//! Proved: a layout takes memory only when it is made, and always ends.
//!
//! Not proved: that what is laid out meets the list.
#![tactic(auto)]

mod backward;
mod forward;
mod known;
mod layout;
mod memory;
mod program;
mod routes;
mod site;
mod solver;

pub use layout::Layout;
