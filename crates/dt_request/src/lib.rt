//! Request lists: which accesses are wished for, what each must come to, how they relate, where
//! tables may lie, and which memory nothing may touch. A list names contexts and accesses; an access
//! has a context and demands on its walk, and links are over the walks of two accesses. It is read
//! for an accepted model, line by line, and refused by its first bad line.
//!
//! Proved: `read_requests` gives exactly the list that the text spells by `reading` of
//! `specs/Read.antt`, or exactly its fault, or want of memory; what it gives is a list of the
//! model (`IsList` of `specs/Lists.antt`): bounds in whole words within the addresses, at most 16
//! kept ranges and contexts, 64 accesses and 256 links, contexts and accesses with names of their
//! own, at most 64 demands an access, positions of what is declared, codes of at most 65535, page
//! exponents within the addresses, and numbers that fit their quantities. The lines of the text
//! spell it (`IsListText` of `specs/Spelling.antt`), and a text whose lines spell a list of the model
//! is read as that list.
//! `print_requests` gives exactly the one text of a list, which reads back as the same list.
//! `choice_count` and `choice_bits` are exactly the formulas of `specs/Choices.antt`, and take no
//! memory. A fault names exactly its line and its cause's word.
//!
//! Not proved: that reading and printing succeed where there is memory.
#![tactic(auto)]

mod asked;
mod counting;
mod draft;
mod entry;
mod fault;
mod known;
mod line;
mod list;
mod measure;
mod print;
mod read;

pub use counting::{choice_bits, choice_count};
pub use fault::RequestFault;
pub use list::{AccessWish, Demand, KeptRange, Link, Quantity, Requests, Side};
pub use print::print_requests;
pub use read::read_requests;
