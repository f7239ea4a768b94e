//! The claims of a list as required terms of a problem.
//!
//! Proved: `require_claims` requires exactly the claims of the list that are no rule, and the further
//! forms that hold of each image that satisfies, with constant operands folded, in the order of the
//! definition (`dt_table`), unless it answers `NoMemory`. It asks nothing of the model, the list and
//! the rows: where they don't fit each other, the definition still says which forms there are.
#![tactic(auto)]

mod apart;
mod claims;
mod demands;
mod ends;
mod extras;
mod kept;
mod links;
mod numbers;
mod outs;
mod pairs;
mod places;
mod sized;
mod spots;
mod terms;
mod unlike;
mod widths;

pub use claims::require_claims;
