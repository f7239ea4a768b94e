//! Settling: steps are taken until none tells something new.
#![tactic(auto)]

mod bits;
mod marks;
mod passing;
mod settling;
mod taking;

pub use settling::{Settled, settle, settle_from, settle_with};
