//! The shipped model of Sv39 with Svnapot and Svpbmt: its graph as plain data (`specs/Shipped`), and
//! the code that makes it. Nodes have names that tell the manual's step; `docs/sv39.md` of the
//! repository shows them side by side.
//!
//! Proved: `sv39_model` gives exactly that model, which is accepted. For every setting, table memory
//! and access of 64 bits its walk ends as the manual's walk does (`dt_manual`), with the same address
//! and page or the same code, at the node that is named for that end; and its reads are the manual's
//! entries in order, each at the node of its level (`specs/Law`). Its rules hold of exactly the
//! settings and accesses that are legal. Want of memory alone may come in the model's place.
//!
//! Parts of it that the model of two stages has too are public: they give exactly the names, nodes,
//! expressions and data of `specs/Shipped`.
#![tactic(auto)]

mod ends;
mod expressions;
mod positions;
mod shipped;
mod tables;

pub use ends::{KindCodes, KindNames, access_faults, acts, by_kind, decides, page_faults};
pub use expressions::{allows, entry_at, is_sign_extended, kind_is, serves, va};
pub use shipped::{model_of, named, sv39_model};
