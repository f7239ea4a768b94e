//! The tests that need a function of their own, in one crate, so that no crate with code is proved
//! a second time for its tests. What calls make of texts is a case of `dt_cases`, and has no test
//! here.
#![tactic(auto)]

#[cfg(test)]
mod ends;
#[cfg(test)]
mod lists;
#[cfg(test)]
mod models;
#[cfg(test)]
mod program;
