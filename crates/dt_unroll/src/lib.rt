//! The walks of a list's accesses as terms of a problem.
//!
//! Proved: `build_accesses` puts behind the choices and the constants exactly the terms that the
//! definition of a list's problem has for the rules of each context and for the rules and the walk
//! of each access, in its order, requires exactly the rules, and answers the positions of what
//! stands for each node. Where a term can't be added or memory ran out it answers `NoMemory`.
#![tactic(auto)]

mod access;
mod accesses;
mod fork;
mod frame;
mod front;
mod layout;
mod node;
mod places;
mod positions;
mod rules;
mod walking;

pub use accesses::build_accesses;
