// What operators tell of their results.
use crate::known::{Known, down, low, up};
use dt_bits::Op;

/// An operand: its width, and what is known of it.
#[derive(Clone, Copy)]
pub struct Operand {
    pub width: u32,
    pub known: Known,
}

fn of_and(a: Known, b: Known) -> Known {
    let zeros = (a.mask & !a.bits) | (b.mask & !b.bits);
    Known::of((a.mask & b.mask) | zeros, a.bits & b.bits)
}

fn of_or(a: Known, b: Known) -> Known {
    let found = a.bits | b.bits;
    Known::of((a.mask & b.mask) | found, found)
}

// How many of the lowest bits are 1.
fn run_of_ones(mask: u128) -> u32 {
    mask.trailing_ones()
}

// Sums and differences are known up to the lowest bit that isn't.
fn of_sum(width: u32, a: Known, b: Known, number: u128) -> Known {
    let run = run_of_ones(a.mask & b.mask);
    Known::of(low(run) & low(width), number)
}

fn of_extension(width: u32, a: Operand) -> Known {
    let own = low(a.width);
    let high = low(width) & !own;
    let top = own & !down(own, 1);
    if !a.known.covers(top) {
        return a.known;
    }
    let sign = if a.known.bits & top == 0 { 0 } else { high };
    Known::of(a.known.mask | high, a.known.bits | sign)
}

fn of_equation(a: Operand, b: Operand) -> Known {
    if a.known.disagrees(&b.known) {
        return Known::truth(false);
    }
    if (a.known.mask & b.known.mask) & low(a.width) == low(a.width) {
        return Known::truth(true);
    }
    Known::nothing()
}

fn of_order(a: Operand, b: Operand) -> Known {
    if a.known.most(low(a.width)) < b.known.bits {
        return Known::truth(true);
    }
    if a.known.bits >= b.known.most(low(b.width)) {
        return Known::truth(false);
    }
    Known::nothing()
}

fn of_choice(a: Known, b: Known, c: Known) -> Known {
    if a.covers(1) {
        return if a.bits == 1 { b } else { c };
    }
    Known::of(b.mask & c.mask & !(b.bits ^ c.bits), b.bits)
}

/// What is known of the result of an operator, which has this width.
pub fn forward(op: Op, width: u32, a: Operand, b: Operand, c: Operand) -> Known {
    let (x, y) = (a.known, b.known);
    let all = low(width);
    match op {
        Op::Const { value } => Known::of(all, value.bits),
        Op::Not => Known::of(x.mask, !x.bits),
        Op::And => of_and(x, y),
        Op::Or => of_or(x, y),
        Op::Xor => Known::of(x.mask & y.mask, x.bits ^ y.bits),
        Op::Add => of_sum(width, x, y, x.bits.wrapping_add(y.bits)),
        Op::Sub => of_sum(width, x, y, x.bits.wrapping_sub(y.bits)),
        Op::Slice { lo, .. } => Known::of(down(x.mask, lo) & all, down(x.bits, lo)),
        Op::Concat => Known::of(up(x.mask, b.width) | y.mask, up(x.bits, b.width) | y.bits),
        Op::SignExt { .. } => of_extension(width, a),
        Op::Shl { by } => Known::of((up(x.mask, by) | low(by)) & all, up(x.bits, by)),
        Op::Shr { by } => Known::of(down(x.mask, by) | (all & !down(all, by)), down(x.bits, by)),
        Op::Eq => of_equation(a, b),
        Op::Ltu => of_order(a, b),
        Op::Ite => of_choice(x, y, c.known),
    }
}
