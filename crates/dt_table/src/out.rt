/// What stands for a node of a walk: the positions of its terms.
#[derive(Clone, Copy, Debug, PartialEq, Eq)]
pub struct Out {
    /// One bit: the walk comes to the node.
    pub come: u32,
    /// The node's expression; the zero of one bit where it has none.
    pub value: u32,
    /// One bit: the walk leaves by `then` or `next`, and a read is made.
    pub by_then: u32,
    /// One bit: the walk leaves by the other side.
    pub by_other: u32,
    /// A read's word; the zero of one bit at other nodes.
    pub word: u32,
    /// One bit: the walk doesn't come to the node.
    pub away: u32,
}
