use dt_bits::Op;

/// An expression over registers, inputs and variables, which it names by their positions. An
/// operator stands with as many operands as it takes, and a constant only as `Value`.
#[derive(Debug, Drop)]
pub enum Expr {
    /// A constant: 1 to 128 bits, and a number below two to this width.
    Value {
        width: u32,
        bits: u128,
    },
    Reg(u32),
    Input(u32),
    Var(u32),
    Apply1 {
        op: Op,
        a: Box<Expr>,
    },
    Apply2 {
        op: Op,
        a: Box<Expr>,
        b: Box<Expr>,
    },
    Apply3 {
        op: Op,
        a: Box<Expr>,
        b: Box<Expr>,
        c: Box<Expr>,
    },
}
