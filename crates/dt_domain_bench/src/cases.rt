//! The operators that are measured, with their operands' widths.
ghost use Rattle.dt_domain_bench.specs.Case.{IsCase};

use dt_bits::{Bv, Op, Width};

/// An operator, the widths of its operands, and that of its result.
#[derive(Clone, Copy, Debug)]
pub struct Case {
    pub op: Op,
    pub a: Width,
    pub b: Width,
    pub c: Width,
    pub r: Width,
}

/// How many cases there are.
pub const CASES: u32 = 15;

/// The operands have 128 bits, and Concat's and SignExt's 64.
pub fn case_at(index: u32) -> Case
    ensures { IsCase result }
{
    let wide = |op: Op| Case {
        op,
        a: Width(128),
        b: Width(128),
        c: Width(128),
        r: Width(128),
    };
    match index {
        0 => wide(Op::Not),
        1 => wide(Op::And),
        2 => wide(Op::Or),
        3 => wide(Op::Xor),
        4 => wide(Op::Add),
        5 => wide(Op::Sub),
        6 => wide(Op::Shl { by: 17 }),
        7 => wide(Op::Shr { by: 17 }),
        8 => Case {
            r: Width(64),
            ..wide(Op::Slice { hi: 79, lo: 16 })
        },
        9 => Case {
            a: Width(64),
            b: Width(64),
            ..wide(Op::Concat)
        },
        10 => Case {
            a: Width(64),
            ..wide(Op::SignExt { to: 128 })
        },
        11 => Case {
            r: Width(1),
            ..wide(Op::Eq)
        },
        12 => Case {
            r: Width(1),
            ..wide(Op::Ltu)
        },
        13 => Case {
            a: Width(1),
            ..wide(Op::Ite)
        },
        _ => wide(Op::Const {
            value: Bv {
                width: Width(128),
                bits: 1,
            },
        }),
    }
}

/// The operator's name.
pub fn name_of(op: Op) -> &'static str {
    match op {
        Op::Const { .. } => "Const",
        Op::Not => "Not",
        Op::And => "And",
        Op::Or => "Or",
        Op::Xor => "Xor",
        Op::Add => "Add",
        Op::Sub => "Sub",
        Op::Slice { .. } => "Slice",
        Op::Concat => "Concat",
        Op::SignExt { .. } => "SignExt",
        Op::Shl { .. } => "Shl",
        Op::Shr { .. } => "Shr",
        Op::Eq => "Eq",
        Op::Ltu => "Ltu",
        Op::Ite => "Ite",
    }
}
