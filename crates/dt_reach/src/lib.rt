//! Where walks can go: which nodes can be come to from a node by ways that are open, which of them
//! lead on to an end, which no walk goes by, and by which each walk to a node goes.
//!
//! Proved: `ahead_of`, `live_nodes`, `sure_nodes` and `immediate_dominators` give what their
//! definitions say, unless they answer `NoMemory`; and, for the crates above, that a walk which goes
//! by open ways alone comes to none but live nodes, to each sure node, with each of its nodes to that
//! node's immediate dominator, and from each of its nodes to none but those ahead of it.
//!
//! The ways are those of nodes that are named by their positions. Each call takes memory for each
//! node, and time for each way; `immediate_dominators` takes that time for each node.
#![tactic(auto)]

mod dominators;
mod live;
mod marks;
mod sure;
mod ways;

pub use dominators::immediate_dominators;
pub use live::live_nodes;
pub use marks::{ahead_of, is_marked};
pub use sure::sure_nodes;
pub use ways::Ways;
