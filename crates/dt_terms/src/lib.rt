//! Problems of terms. A problem is a list of terms, each a choice or an operator over earlier
//! terms, and names some terms of one bit that must be 1. An assignment gives each choice a number
//! of its width, and with that each term a value.
//!
//! Proved: `add_choice`, `add` and `require` do exactly what they say, refuse with exactly the
//! first cause in their order, and after a refusal, or where memory ran out, the problem is as before;
//! every problem keeps its invariant (`specs/Problem.antt`). `choice_count`, `choice_term` and
//! `is_assignment` are exact. `eval` writes exactly the values of the terms, and answers exactly
//! whether each required term is 1 (`specs/Values.antt`). A term takes at most 96 bytes. Only
//! `add_choice`, `add` and `require` take memory.
//!
//! Every call but `eval` and `is_assignment` takes constant time, apart from the growth of a list
//! that is full; `eval` goes once over the terms.
//!
//! Only tested, in programs above: that the calls which take memory succeed where there is enough.
#![tactic(auto)]

mod evaluation;
mod fault;
mod lookup;
mod problem;
mod term;

pub use fault::TermFault;
pub use problem::Problem;
pub use term::Term;
