//! Where the walks of a list's accesses may go, whatever is in memory: for each node the edges that a
//! walk can take which meets the demands of its access and what the links ask of it, and whether it
//! may end there.
//!
//! Proved: `access_ways` gives exactly the ways of the definition, unless it answers `NoMemory`. That
//! the walks of an image that satisfies the list go by these ways alone is proved in `dt_table`.
#![tactic(auto)]

mod asks;
mod edges;
mod ends;
mod ways;

pub use ways::access_ways;
