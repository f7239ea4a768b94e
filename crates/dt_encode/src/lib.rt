//! The problem of a request list, and the image that a solution of it tells. A list of a model
//! becomes terms over choices: the registers of its contexts, the inputs of its accesses, and a word
//! for each read node of each access. Numbers for the choices that make each required term 1 are an
//! image that satisfies the list.
//!
//! Proved: `encode` gives exactly the problem that the definition says (`table` of dt_table), or
//! `TooLarge` exactly where a product is above its limit, with the first such product; or memory
//! ran out. Of that problem it is proved that it is the list's: numbers that solve it tell an image
//! that satisfies, and an image that satisfies gives numbers that solve it. Its choices are those of
//! the list in order, and have as many bits as `choice_bits` says. `image_of` gives exactly the image
//! that numbers tell: it satisfies the list, its memory is a table memory, and its words are those
//! that its accesses read, one for each cell, and no others. `encode_list` and `image_in` are the same
//! two, by which the problem is built once for both.
//!
//! Not proved: that the calls succeed where there is memory.
#![tactic(auto)]

mod building;
mod choices;
mod encoding;
mod fault;
mod names;
mod reads;
mod sizes;
mod telling;
mod values;
mod words;

pub use building::Encoded;
pub use encoding::{encode, encode_list};
pub use fault::{EncodeFault, Quantity3};
pub use telling::{image_in, image_of};
