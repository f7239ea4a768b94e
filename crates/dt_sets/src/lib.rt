//! Listed numbers, and known bits, a range and listed numbers together. Sets are up to eight numbers of
//! a width, one by one, or all numbers of it: the domain that sees what only the values themselves show,
//! such as a choice between two constants. All numbers of 1 to 3 bits are listed. No call goes through
//! more than the listed numbers and at most 64 selections of them, and none takes memory. A Triple
//! holds what known bits, range and Sets hold, each as narrow as the others make it.
//!
//! Proved: each call answers exactly its definition (`specs/Sets.antt`, `specs/Forward.antt`,
//! `specs/Backward.antt`: formulas over lists of whole numbers; `specs/Triple.antt`: part by part, and
//! then normalised), and these definitions keep all laws of a domain (`specs/Laws.antt`,
//! `specs/TripleLaws.antt`), Triple also the law of a deciding one. `Sets::of_numbers` lists exactly the
//! numbers of a slice, or none where one doesn't fit or more than eight differ. Two Sets of one width
//! that hold the same numbers are the same data, so `==` compares sets; so are two Triples of which both
//! list their numbers or neither does. `Triple::normal` holds exactly what its parts hold. Sets by
//! themselves aren't a deciding domain: a bit that is set becomes known only where numbers are listed.
//! A step into a Triple (`narrowed_forward`, `narrowed_backward`) is that of its Pair where an operand
//! lists no number, and between single bits it goes by which of 0 and 1 is held.
//! Only tested: that the definitions say what is meant; `dt_problem_cases` has checks and searches over
//! triples.
#![tactic(auto)]

use dt_bits::Width;
use dt_known::Known;
use dt_range::Range;

mod gather;
mod listing;
mod narrow;
mod one_bit;
mod partners;
mod selections;
mod sets_domain;
mod steps;
mod triple_domain;
mod triple_normal;

/// The numbers that are listed, or all numbers of the width.
///
/// It is plain data. The calls ask that it is valid: the width is 1 to 128; where numbers are listed,
/// they rise and fit the width, and `numbers` is 0 at all other places; where none is, the width is at
/// least 4, and `count` and all of `numbers` are 0.
#[derive(Clone, Copy, Debug, PartialEq, Eq)]
pub struct Sets {
    /// How many bits a number has.
    pub width: Width,
    /// All numbers are held, and none is listed.
    pub many: bool,
    /// How many numbers are listed, 0 to 8.
    pub count: u32,
    /// The listed numbers, rising, and 0 at all other places.
    pub numbers: [u128; 8],
}

/// The numbers that all three parts hold.
///
/// It is plain data. The calls ask that it is valid: all parts are, they have one width, and they are
/// in normal form: all are empty where nothing is held; where numbers are listed, they are the held
/// ones, the known bits are those on which they agree, and the range goes from the first to the last;
/// else known bits and range are a Pair in normal form.
#[derive(Clone, Copy, Debug, PartialEq, Eq)]
pub struct Triple {
    /// The known bits.
    pub known: Known,
    /// The least and the greatest number.
    pub range: Range,
    /// The listed numbers, or all.
    pub sets: Sets,
}
