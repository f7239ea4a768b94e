//! What all texts of the program share: lines, tokens, numbers, names, the order of sections, how a
//! text is read line by line, and printed rows. A line is cut into tokens, and a comment stands from
//! `#` to its end. A kind of text says by a grammar what its lines mean ([`Reader`]); this crate
//! reads it ([`read_text`]).
//!
//! Proved: `lex` gives exactly the lines of a text and its tokens, each with its line and with the
//! span where it stands, in order, or the first bad line; `next_line`, `next_token` and `fault_in`
//! cut and judge a text exactly as its definition; `number` is Some exactly where bytes spell a
//! number below 2^128, and gives it; `push_decimal` and `push_hex` append exactly the one spelling
//! of a number, and nothing where memory runs out; `Name::read` is Some exactly where bytes spell a
//! name, and its bytes are these; `may_follow` says exactly which line may stand behind which;
//! `read_text` gives exactly what a text spells by its reader's grammar, or the fault of its first
//! bad line, unless memory runs out; `push_row` appends exactly a row's text. In `proofs/`: a printed
//! number reads back, a printed row is cut into its tokens again, and a printed text reads as its
//! rows do.
//!
//! Only tested: that `lex` and `push_row` succeed where there is memory.
#![tactic(auto)]

mod fault;
mod frame;
mod lexing;
mod name;
mod numeral;
mod reader;
mod row;
mod section;
mod spans;
mod text;

pub use fault::LexFault;
pub use frame::{is_alone, is_nothing};
pub use lexing::lex;
pub use name::Name;
pub use numeral::{number, push_decimal, push_hex};
pub use reader::{Reader, read_text};
pub use row::{Piece, push_piece, push_row};
pub use section::{ANY, ONE, Section, Standing, may_follow};
pub use spans::{Lexed, Token};
pub use text::{fault_in, next_line, next_token};
