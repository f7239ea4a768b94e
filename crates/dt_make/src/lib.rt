//! Generated request lists of the shipped model of Sv39, of 1 to 64 accesses: for trials and for
//! measurements. One context serves all accesses. Their walks end at the three levels in turn, the
//! kinds and modes take turns, each access has a gigabyte of virtual addresses to itself, the pages
//! of neighbours are apart, and neighbours that both end at level 0 share their last table.
//!
//! Proved: `make_requests` gives exactly the list of `specs/Made`, which is a list of the model, or
//! `OutOfRange` exactly where a list of so many accesses can't be made; want of memory alone may
//! come in its place. `can_be_made` tells where one can. The inputs and nodes that the list names by
//! their positions are those of the names `va`, `kind`, `user`, `r0`, `d12`, `d21` and `d30`.
//!
//! Not proved: that an image satisfies the list.
#![tactic(auto)]

mod accesses;
mod fault;
mod links;
mod making;

pub use fault::MakeFault;
pub use making::{can_be_made, make_requests};
