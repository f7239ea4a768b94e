/// What a walk that meets what a list asks of its access may do at a node.
#[derive(Clone, Copy, Debug)]
pub struct Ways {
    /// Where it may go by `then` or `next`.
    pub then_to: Option<u32>,
    /// Where it may go by the other side.
    pub other: Option<u32>,
    /// It may end there.
    pub ends: bool,
}
