//! Known bits: the numbers of a width of which some bits are known. It is the domain that follows
//! values through the operators bit by bit, forward from operands to result and backward from a
//! result to an operand. Every call works on whole machine words; none has a loop over bits.
//!
//! Proved: each call answers exactly its definition (`specs/Known.antt`, `specs/Forward.antt`,
//! `specs/Backward.antt`: what is known of each bit of the answer), and these definitions keep all
//! laws of a domain and the law of a deciding one (`specs/Laws.antt`).
//! Only tested: what a call costs, which `dt_domain_bench` measures, and that the definitions say what
//! is meant: `dt_domain_table` compares 825 answers with ones that were worked out bit by bit outside.
#![tactic(auto)]

use dt_bits::Width;

mod backward;
mod compare;
mod domain;
mod forward;
mod moved;
mod parts;
mod sums;
mod undo;
mod undo_sign;
mod undo_tests;

/// The numbers of `width` bits whose bits at `mask` are those of `value`; none where it is `empty`.
///
/// It is plain data. The calls ask that it is valid: the width is 1 to 128, the mask lies within
/// the width and the value within the mask, and where it is empty both are 0.
#[derive(Clone, Copy, Debug, PartialEq, Eq)]
pub struct Known {
    /// The bits that are known.
    pub mask: u128,
    /// The values of the known bits, and 0 elsewhere.
    pub value: u128,
    /// No number is held.
    pub empty: bool,
    /// How many bits a number has.
    pub width: Width,
}
