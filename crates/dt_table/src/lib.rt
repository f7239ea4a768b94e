//! The problem of a request list: a model and a list as terms of choices, and which of them must
//! be 1.
//!
//! Proved, as laws over the definition of the problem: numbers for the choices that make each
//! required term 1 tell an image that satisfies the list, and each image that satisfies gives such
//! numbers; and a list within the limits has a problem, with room for all its terms. The code that
//! builds the problem stands in the crates above.
#![tactic(auto)]

mod differing;
mod faithful;
mod out;

pub use differing::{UnlikeWords, Upper};
pub use faithful::{
    images_are_solutions, lists_are_problems, solutions_are_images, solutions_are_memories,
};
pub use out::Out;
