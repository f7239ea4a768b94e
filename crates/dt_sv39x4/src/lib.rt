//! The shipped model of two stages, Sv39 under Sv39x4, with Svnapot and Svpbmt: its graph as plain
//! data (`specs/Shipped`), and the code that makes it. Each of its five walks, the VS-stage and the
//! G-stages of its three entries' addresses and of the final address, comes from the one builder of a
//! stage (`dt_stage`). `docs/sv39x4.md` of the repository shows the nodes beside the manual's steps.
//!
//! Proved: `sv39x4_model` gives exactly that model, which is accepted. For every legal setting, table
//! memory and access of 64 bits its walk ends as the manual's walk does (`dt_manual`), with the same
//! address and page or the same code, at the node that is named for that end; and its reads are the
//! manual's entries in order, each at the node of its walk and level (`specs/Law`). Its rules hold of
//! exactly the settings and accesses that are legal. Want of memory alone may come in the model's place.
#![tactic(auto)]

mod choice;
mod entries;
mod faults;
mod guest;
mod names;
mod permission;
mod positions;
mod results;
mod shipped;
mod vars;

pub use shipped::sv39x4_model;
