//! A problem that is built: terms that stand only once, and forms that are required.
//!
//! Proved: each call gives exactly the terms and the required positions of the definition of placing
//! (`dt_forms`), with constant operands folded where the call says so, and answers where the term stands. Placing a node takes one look-up by its hash,
//! apart from the growth of the table and of the list of terms.
//!
//! A call answers `NoMemory` where memory ran out, and where the term can't be added to the problem.
//! For a list within its limits the second never comes about: that is the law `lists_are_problems`
//! of the crate `dt_table`.
#![tactic(auto)]

mod builder;
mod folding;
mod node;
mod nodes;

pub use builder::Builder;
