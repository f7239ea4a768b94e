//! Known bits and a range together: the numbers that both parts hold. Each part is as narrow as the
//! other makes it: known bits raise the least number of the range and lower its greatest, and the
//! bits that all numbers of the range share are known. It is the domain that sees both that an
//! address is a multiple of eight and that it lies inside a table.
//!
//! Proved: each call answers exactly its definition (`specs/Pair.antt`): part by part, and then
//! normalised. These definitions keep all laws of a domain and the law of a deciding one
//! (`specs/Laws.antt`). `Pair::normal` holds exactly what both parts hold, is empty exactly where
//! no number is held by both, and is determined by the numbers that it holds: two Pairs that hold
//! the same numbers are the same data, so `==` compares sets. The ends are the least and the greatest
//! number that has the known bits, by the candidates of `specs/Ends.antt`, found with no loop over
//! bits. A step into a Pair (`narrowed_forward`, `narrowed_backward`) compares the parts as they are,
//! and normalises only where they narrow one of its own.
//! Only tested: what a call costs, which `dt_domain_bench` measures, and that the definitions say what
//! is meant: `dt_domain_table` compares 825 answers with ones that were worked out outside.
#![tactic(auto)]

use dt_known::Known;
use dt_range::Range;

mod domain;
mod ends;
mod normal;

/// The numbers that both parts hold.
///
/// It is plain data. The calls ask that it is valid: both parts are, they have one width, and they
/// are in normal form: both are empty where nothing is held; else the ends of the range are the
/// least and the greatest held number, and the bits above the highest in which these differ are
/// known.
#[derive(Clone, Copy, Debug, PartialEq, Eq)]
pub struct Pair {
    /// The known bits.
    pub known: Known,
    /// The least and the greatest number.
    pub range: Range,
}
