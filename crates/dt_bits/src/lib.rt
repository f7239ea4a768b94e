//! Values of 1 to 128 bits, the fifteen operators on them, memory for translation tables, and the
//! list type that the data of all crates above is made of. A value is a width and a whole number
//! below two to that width; what an operator gives is a formula over whole numbers. Table memory
//! lists the words that are not 0.
//!
//! Proved: `arity`, `fits`, `result_width` and `apply` give exactly what the table of operators says,
//! at every width, and the result of `apply` is again a value; `fits` gives a width of 1 to 128;
//! `joined` and `extended` give the values of Concat and SignExt;
//! `TableMemory::word_at` gives a word exactly at the multiples of the word's bytes within the
//! memory, and that word is the listed one, or 0; each call of `Seq` does to its list what the
//! call of `Vec` with its name does. Nothing here takes memory but the calls of `Seq` that say so.
//!
//! Only tested: that `push` of `Seq` succeeds where there is memory.
#![tactic(auto)]

mod applying;
mod fitting;
mod memory;
mod no_memory;
mod op;
mod seq;
mod value;

pub use applying::{apply, extended, joined};
pub use fitting::{arity, fits, is_some_used, result_width};
pub use memory::{TableMemory, Word};
pub use no_memory::NoMemory;
pub use op::Op;
pub use seq::Seq;
pub use value::{Bv, Width, bit_of, low_ones, ones};
