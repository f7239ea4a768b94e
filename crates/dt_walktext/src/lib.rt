//! The printed walks of an image: for each access its number, the reads that its walk makes with
//! their cells and words, and its end.
//!
//! Proved: `print_walks` gives exactly that text, of the walks as `dt_walk` defines them, for every
//! accepted model and every image of it. Want of memory alone may come in its place.
#![tactic(auto)]

mod rows;
mod walks;

pub use walks::print_walks;
