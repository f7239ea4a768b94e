/// A read that was made: the read node, the address that was read, and the word there.
#[derive(Clone, Copy, Debug, PartialEq, Eq)]
pub struct ReadMade {
    pub node: u32,
    pub cell: u128,
    pub word: u128,
}

/// A side by which a walk left an `if` or a `read`: by `then` where the test is 1 or the read is
/// made, else by the other side.
#[derive(Clone, Copy, Debug, PartialEq, Eq)]
pub struct SideTaken {
    pub node: u32,
    pub by_then: bool,
}

/// How a walk ends: with a result, which is an address and the exponent of its page, or with the code of a fault.
#[derive(Clone, Copy, Debug, PartialEq, Eq)]
pub enum End {
    Done { node: u32, pa: u128, page: u32 },
    Fault { node: u32, code: u32 },
}

/// What a walk did: the nodes that it visited, the ending one among them, the sides by which it left
/// each `if` and `read` of them, and the reads that it made, all in order.
#[derive(Debug, Drop)]
pub struct Run {
    pub path: Vec<u32>,
    pub sides: Vec<SideTaken>,
    pub reads: Vec<ReadMade>,
    pub end: End,
}
