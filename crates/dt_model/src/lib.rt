//! Models of translation units, and their check. A model is a graph of nodes over registers, inputs
//! and variables: it assigns, reads tables, branches, faults, or ends at a physical address. `check`
//! accepts a model or refuses it at the first place that is at fault, with the smallest of ten
//! refusals there.
//!
//! Proved: `Model::check` gives an accepted model exactly where no refusal applies at any place, and
//! then with the same data; else it gives the first place, in the order header, registers, inputs,
//! variables, context rules, access rules, nodes, and the smallest refusal that applies there. The
//! two rules on paths (a variable that is used is assigned on every path; none is assigned twice)
//! speak of all paths from node 0 over edges to later nodes; the code keeps two sets of variables
//! for each node. Want of memory alone may come in place of an answer. `Accepted` carries that it
//! is accepted, that each operator has as many operands as it takes, and that each name is spelled.
//! A fixed model needs no check where its builder proves a certificate: `Accepted::certified`.
//!
//! Cost: linear in the names, in the operators of the expressions, and in the edges times four words
//! of 128 bits (one bit for each of 512 variables); names are looked up by their hash. Sets are
//! kept for 1025 nodes at most.
#![tactic(auto)]

mod accepted;
mod acting;
mod bounds;
mod checking;
mod declared;
mod expr;
mod flags;
mod flow;
mod graph;
mod header;
mod legal;
mod limits;
mod measuring;
mod model;
mod name_table;
mod names;
mod naming;
mod node;
mod positions;
mod prefix;
mod refusal;
mod rules;
mod set;
mod surveying;

pub use accepted::Accepted;
pub use bounds::{address_end, bounds_fit, word_bytes};
pub use expr::Expr;
pub use model::{Act, Model, Named, Node};
pub use name_table::NameTable;
pub use names::Names;
pub use positions::{is_named, position_of};
pub use refusal::{ModelError, ModelRefusal, Place};
