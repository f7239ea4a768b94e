/// A token of a text: the number of its line, from 1, and the bytes from `start` up to `end`.
#[derive(Clone, Copy, Debug, PartialEq, Eq)]
pub struct Token {
    pub line: u32,
    pub start: u32,
    pub end: u32,
}

/// How many lines a text has, and its tokens in order.
#[derive(Debug, Drop)]
pub struct Lexed {
    pub lines: u32,
    pub tokens: Vec<Token>,
}
