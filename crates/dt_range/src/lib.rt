//! Ranges: the numbers of a width between two ends. It is the domain that follows the order of
//! numbers through the operators, forward from operands to result and backward from a result to an
//! operand: it sees that an address lies inside a region, and nothing of how it is aligned. Every
//! call works on whole machine words; none has a loop.
//!
//! Proved: each call answers exactly its definition (`specs/Range.antt`, `specs/Forward.antt`,
//! `specs/Backward.antt`: formulas over whole numbers), and these definitions keep all laws of a
//! domain (`specs/Laws.antt`). It isn't a deciding domain: a bit that is set becomes known only
//! where it is the highest that isn't.
//! Only tested: what a call costs, which `dt_domain_bench` measures, and that the definitions say what
//! is meant: `dt_domain_table` compares 825 answers with ones that were worked out outside.
#![tactic(auto)]

use dt_bits::Width;

mod backward;
mod compare;
mod domain;
mod forward;
mod moved;
mod parts;
mod sums;
mod undo;
mod undo_tests;

/// The numbers of `width` bits from `lo` to `hi`, both among them; none where `lo` is 1 and `hi` 0.
///
/// It is plain data. The calls ask that it is valid: the width is 1 to 128, both ends lie within
/// the width, and `lo` is at most `hi`, but for the empty one, which is 1 to 0.
#[derive(Clone, Copy, Debug, PartialEq, Eq)]
pub struct Range {
    /// The least number that is held.
    pub lo: u128,
    /// The greatest number that is held.
    pub hi: u128,
    /// How many bits a number has.
    pub width: Width,
}
