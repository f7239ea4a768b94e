use crate::Bv;

/// An operator on values. How many operands it has, where it fits them, the width of its result and
/// its value stand in the table of `specs/Ops.antt`; results are modulo two to the result's width.
#[derive(Clone, Copy, Debug, PartialEq, Eq, Hash)]
pub enum Op {
    /// The value itself. No operand.
    Const { value: Bv },

    /// Each bit turned.
    Not,

    /// The bits that are 1 in both.
    And,

    /// The bits that are 1 in one or both.
    Or,

    /// The bits that differ.
    Xor,

    /// The sum.
    Add,

    /// The first less the second.
    Sub,

    /// The bits from `hi` down to `lo`, both among them; bit 0 is the lowest.
    Slice { hi: u32, lo: u32 },

    /// The first above the second.
    Concat,

    /// The same number in two's complement, `to` bits wide.
    SignExt { to: u32 },

    /// The bits moved up by `by` places, with zeros below.
    Shl { by: u32 },

    /// The bits moved down by `by` places, with zeros above.
    Shr { by: u32 },

    /// 1 where the two are equal, else 0; one bit wide.
    Eq,

    /// 1 where the first is below the second, else 0; one bit wide.
    Ltu,

    /// The second where the first, one bit wide, is 1, else the third.
    Ite,
}
