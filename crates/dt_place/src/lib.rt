//! The placer: a proposer that lays out the tables, words and pages of a request list, so that few
//! splits are left to the search.
//!
//! Proved: it is a proposer. It tells no aim, takes no memory when it proposes, and always ends.
//! `search_list`, the search that tries such layouts, ends as the search of `dt_solve` does.
//!
//! Not proved: that its proposals are good.
#![tactic(auto)]

mod placer;
mod searching;

pub use dt_draws::Draws;
pub use placer::Placer;
pub use searching::search_list;
