use dt_bits::Bv;

/// What the node of an operator over terms comes to.
#[derive(Clone, Copy, Debug, PartialEq, Eq)]
pub enum Folded {
    /// It has the value of the term at this position.
    At(u32),
    /// It has this value.
    Value(Bv),
    /// Nothing is known of it.
    New,
}
