/// A term's bits from one on, as bits of a word: bit `from` of the term is bit `lo` of the word, and so
/// on up to bit `hi`; above these the term has none.
#[derive(Clone, Copy, Debug, PartialEq, Eq)]
pub struct Upper {
    /// The term's bit that is the lowest of them.
    pub from: u32,
    /// The position of the word.
    pub word: u32,
    /// The word's bit that is the highest of them.
    pub hi: u32,
    /// The word's bit that is the lowest of them.
    pub lo: u32,
}

/// Two words that aren't equal where the walks of two accesses come to two nodes: the positions of
/// their terms.
#[derive(Clone, Copy, Debug, PartialEq, Eq)]
pub struct UnlikeWords {
    /// The one word.
    pub word: u32,
    /// The other.
    pub other: u32,
    /// One bit: the one walk doesn't come to its node.
    pub away: u32,
    /// The same of the other walk.
    pub other_away: u32,
}
