use crate::symbols::Symbols;
use std::alloc::{AllocError, Global};

/// What the expressions of a line are read with: where their parts are allocated, and what names
/// stand for.
#[derive(Clone, Copy)]
pub struct Parser<'s> {
    pub alloc: Global,
    pub symbols: Symbols<'s>,
}

/// What stands at the front of a text and what stands behind it, where the tokens spell it.
pub type Front<'t, T> = Option<(T, &'t [u8])>;

/// The same, where memory may run out.
pub type Parsed<'t, T> = Result<Front<'t, T>, AllocError>;
