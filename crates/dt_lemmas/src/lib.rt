//! Lemmas over plain data: lists, options, booleans, numbers and powers. They name no type of the
//! crates above, which all cite them, so that each stands once. There is no code.
//!
//! Proved: each lemma of `proofs/`, as it is stated there.
#![tactic(auto)]
