//! A stage of translation as nodes of a model: three levels, each with the read of its entry and the
//! tests of the manual's rules, and what the walk tells from any node on.
//!
//! Proved: `stage` gives exactly the nodes of a stage, and in every graph in which these stand they go
//! on at the given exits just as the stage's walk by level says (`GoesByLevels`), from every map that
//! has what the exits need, for every table memory, with the same entries read, each at its level's
//! read. The other calls give exactly the expressions, nodes and levels that they say. Want of memory
//! alone may come in their place.
#![tactic(auto)]

mod levels;
mod stages;
mod trees;

pub use levels::{LastNames, Level, Place, UpperNames, decision, last_level, node, upper_level};
pub use stages::{StageNames, StagePlan, chained, extend, stage};
pub use trees::{bit, both, choose, either, is, joined, no, part};
