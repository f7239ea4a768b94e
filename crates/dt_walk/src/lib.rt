//! The meaning of a model's graph: the value of an expression, and the walk from node 0. A walk
//! binds variables, makes reads of table memory, and ends with a result or a fault; a run is its
//! path, the sides by which it left ifs and reads, the reads that it made, and its end. Rules of
//! legality are values of expressions too.
//!
//! Proved: `Walker::walk` gives exactly the walk that is defined by recursion on the nodes that are
//! left, for every accepted model, whatever the walker walked before; `context_rule_holds` and
//! `access_rule_holds` say exactly whether the rule's value is 1. None of them takes memory.
//! `goes_by_paths` says of each walk of an accepted model that its edges are a path of the model as
//! the check speaks of paths, on which each variable is assigned before it is used.
#![tactic(auto)]

mod paths;
mod rule;
mod run;
mod step;
mod value;
mod walker;
mod walking;

pub use paths::goes_by_paths;
pub use rule::{access_rule_holds, context_rule_holds};
pub use run::{End, ReadMade, Run, SideTaken};
pub use walker::Walker;
