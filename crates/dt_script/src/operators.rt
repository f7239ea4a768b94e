//! Numbers and operators, as lines of cases spell them.
ghost use Rattle.std.specs.Prelude.{◌≤◌, IfSome};
ghost use Rattle.dt_bits.specs.Ops.{IsOp};

use dt_bits::{Bv, Op, Width};
use std::alloc::{AllocError, Global};

/// The numbers of a line.
pub fn numbers(alloc: Global, line: &str) -> Result<Vec<u128>, AllocError> {
    let mut numbers = Vec::new(alloc);
    for word in line.split_whitespace() {
        if let Ok(number) = word.parse::<u128>() {
            numbers.push(number)?;
        }
    }
    Ok(numbers)
}

/// The number at a place; 0 where there is none, or a large one.
pub fn small(numbers: &[u128], at: usize) -> u32 {
    match numbers.get(at) {
        Some(number) if *number <= 0xffff_ffff => *number as u32,
        _ => 0,
    }
}

/// The constant of a width, where it has it.
fn constant(width: u32, bits: u128) -> Option<Op>
    ensures { IfSome result IsOp }
{
    if width < 1 || width > 128 || width < 128 && bits >= 1 << width {
        return None;
    }
    Some(Op::Const {
        value: Bv {
            width: Width(width),
            bits,
        },
    })
}

/// The operator of this name, with the line's first numbers.
pub fn operator(name: &str, numbers: &[u128]) -> Option<Op>
    ensures { IfSome result IsOp }
{
    let first = small(numbers, 0);
    match name {
        "const" => constant(first, *numbers.get(1)?),
        "not" => Some(Op::Not),
        "and" => Some(Op::And),
        "or" => Some(Op::Or),
        "xor" => Some(Op::Xor),
        "add" => Some(Op::Add),
        "sub" => Some(Op::Sub),
        "slice" => Some(Op::Slice {
            hi: first,
            lo: small(numbers, 1),
        }),
        "concat" => Some(Op::Concat),
        "sext" => Some(Op::SignExt { to: first }),
        "shl" => Some(Op::Shl { by: first }),
        "shr" => Some(Op::Shr { by: first }),
        "eq" => Some(Op::Eq),
        "ltu" => Some(Op::Ltu),
        "ite" => Some(Op::Ite),
        _ => None,
    }
}

/// How many numbers of a line are the operator's own.
pub fn own_numbers(op: Op) -> usize
    ensures { result ≤ 2 }
{
    match op {
        Op::Const { .. } | Op::Slice { .. } => 2,
        Op::SignExt { .. } | Op::Shl { .. } | Op::Shr { .. } => 1,
        _ => 0,
    }
}
