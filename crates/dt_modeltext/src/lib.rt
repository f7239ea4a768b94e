//! The text of a model, how it is read and how it is printed. It is read by the house of all texts
//! (`dt_lex::Reader`): a line is read with the names that the lines before it declare and with the
//! names of all nodes, and the model that comes out is checked.
//!
//! Proved: `read_model` gives an accepted model exactly where the text spells one, and then that
//! one, unless memory runs out (`accepted`, `none`); each refusal is the first bad line with its
//! first cause, or the check's own refusal with the line of its place (`refused`); each name is one
//! that a token spells (`names`), and a target is the position of the first node of its name
//! (`nodes`). A fault gives its line and the word of its cause. `is_grammar` says that an expression
//! is read exactly where tokens spell it, and that in a line which isn't too deep none is left out
//! for its depth. `print_model` gives the one printed text of an accepted model (`printed`), which
//! is a text of the same model (`reads_back`) and has no line of more than 16,384 bytes (`short`).
//!
//! Cost: linear in the text, names being looked up by their hash, and printed by their positions.
//!
//! Only tested, by the program `dt_modeltext_print`: that reading and printing succeed with ample
//! memory.
#![tactic(auto)]

mod act;
mod declarations;
mod depth;
mod draft;
mod entry;
mod expr;
mod fault;
mod grammar;
mod line;
mod nodes;
mod operator;
mod origins;
mod parser;
mod print;
mod read;
mod reader;
mod symbols;
mod token;

pub use fault::ModelFault;
pub use grammar::is_grammar;
pub use print::print_model;
pub use read::read_model;
