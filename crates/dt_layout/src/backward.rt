// What is asked of an operator's operands, so that its result has what is asked of it.
use crate::forward::Operand;
use crate::known::{Known, down, low, up};
use dt_bits::Op;

/// What is asked of each operand.
#[derive(Clone, Copy)]
pub struct Asked {
    pub a: Known,
    pub b: Known,
    pub c: Known,
}

/// How what is left open is chosen: not at all, or by these random bits.
#[derive(Clone, Copy)]
pub enum Choosing {
    Never,
    By(u128),
}

fn of_two(a: Known, b: Known) -> Asked {
    Asked {
        a,
        b,
        c: Known::nothing(),
    }
}

fn of_one(a: Known) -> Asked {
    of_two(a, Known::nothing())
}

// Where the result is `kept`, both operands are; where it is the opposite, one of them is, and the
// other where this one is known to be `kept`.
fn of_both(want: Known, a: Known, b: Known, kept: Known, choosing: Choosing) -> Asked {
    let both = want.mask & !(want.bits ^ kept.bits);
    let one = want.mask & !both;
    let a_kept = a.mask & !(a.bits ^ kept.bits);
    let b_kept = b.mask & !(b.bits ^ kept.bits);
    let open = one & !a.mask & !b.mask;
    let (mut a_one, mut b_one) = (one & b_kept, one & a_kept);
    if let Choosing::By(dice) = choosing {
        if dice & 1 == 1 {
            a_one |= open;
        } else {
            b_one |= open;
        }
    }
    of_two(
        Known::of(both | a_one, (kept.bits & both) | (!kept.bits & a_one)),
        Known::of(both | b_one, (kept.bits & both) | (!kept.bits & b_one)),
    )
}

fn of_xor(want: Known, a: Known, b: Known, choosing: Choosing) -> Asked {
    let mut asked = of_two(
        Known::of(want.mask & b.mask, want.bits ^ b.bits),
        Known::of(want.mask & a.mask, want.bits ^ a.bits),
    );
    if let Choosing::By(dice) = choosing {
        let open = want.mask & !a.mask & !b.mask;
        asked.a = asked.a.with(&Known::of(open, dice));
    }
    asked
}

// All bits up to the highest one of the mask.
fn filled_below(mask: u128) -> u128 {
    if mask == 0 {
        return 0;
    }
    low(128u32.saturating_sub(mask.leading_zeros()))
}

// The result that is asked for, with what is known or chosen of its lower bits.
fn whole_sum(want: Known, now: Known, choosing: Choosing) -> Known {
    let below = filled_below(want.mask);
    let got = want.with(&Known::of(below & !want.mask & now.mask, now.bits));
    match choosing {
        Choosing::Never => got,
        Choosing::By(dice) => Known::of(below, got.filled(dice)),
    }
}

fn is_narrower(a: Known, b: Known) -> bool {
    a.mask.count_ones() >= b.mask.count_ones()
}

// `a` and `b` give the result by `sum`; `first` and `second` undo it.
fn of_sum(want: Known, now: Known, a: Known, b: Known, is_sum: bool, choosing: Choosing) -> Asked {
    let whole = whole_sum(want, now, choosing);
    let below = filled_below(want.mask);
    if !whole.covers(below) {
        return of_one(Known::nothing());
    }
    if b.covers(below) {
        let first = if is_sum {
            whole.bits.wrapping_sub(b.bits)
        } else {
            whole.bits.wrapping_add(b.bits)
        };
        return of_one(Known::of(below, first));
    }
    if a.covers(below) {
        let second = if is_sum {
            whole.bits.wrapping_sub(a.bits)
        } else {
            a.bits.wrapping_sub(whole.bits)
        };
        return of_two(Known::nothing(), Known::of(below, second));
    }
    match choosing {
        Choosing::Never => of_one(Known::nothing()),
        Choosing::By(dice) => {
            let dice = down(dice, 3);
            if is_narrower(a, b) {
                of_one(Known::of(below, a.filled(dice)))
            } else {
                of_two(Known::nothing(), Known::of(below, b.filled(dice)))
            }
        }
    }
}

fn of_extension(want: Known, a: Operand) -> Known {
    let own = low(a.width);
    let top = own & !down(own, 1);
    let high = want.mask & !own;
    let kept = Known::of(want.mask & own, want.bits);
    if high == 0 {
        return kept;
    }
    let sign = if want.bits & high == 0 { 0 } else { top };
    kept.with(&Known::of(top & !kept.mask, sign))
}

// The operands are equal.
fn of_equal(a: Operand, b: Operand, choosing: Choosing) -> Asked {
    let mut asked = of_two(b.known, a.known);
    if let Choosing::By(dice) = choosing {
        let open = low(a.width) & !a.known.mask & !b.known.mask;
        asked.a = asked.a.with(&Known::of(open, dice));
    }
    asked
}

// The highest bit of a mask.
fn highest(mask: u128) -> u128 {
    let all = filled_below(mask);
    all & !down(all, 1)
}

// One bit of a mask: one of the random ones where there is any.
fn some_bit(mask: u128, dice: u128) -> u128 {
    let picked = mask & dice;
    highest(if picked == 0 { mask } else { picked })
}

// The operands differ at this bit.
fn of_bit_that_differs(bit: u128, a: Known, b: Known, dice: u128) -> Asked {
    if a.covers(bit) {
        return of_two(Known::nothing(), Known::of(bit, !a.bits));
    }
    if b.covers(bit) {
        return of_one(Known::of(bit, !b.bits));
    }
    of_one(Known::of(bit, dice))
}

// The operands differ: where a single bit is left, there.
fn of_different(a: Operand, b: Operand, choosing: Choosing) -> Asked {
    let open = low(a.width) & !(a.known.mask & b.known.mask);
    let top = highest(open);
    if open == top && (a.known.mask | b.known.mask) & top != 0 {
        return of_bit_that_differs(top, a.known, b.known, 0);
    }
    match choosing {
        Choosing::Never => of_one(Known::nothing()),
        Choosing::By(dice) => {
            let bit = some_bit(open, down(dice, 1));
            of_bit_that_differs(bit, a.known, b.known, dice)
        }
    }
}

// The first is below the second, or not: each is moved as far as it goes, one at a time.
fn of_order(below: bool, a: Operand, b: Operand, choosing: Choosing) -> Asked {
    match choosing {
        Choosing::Never => of_one(Known::nothing()),
        Choosing::By(_) => {
            let all = low(a.width);
            let (first, second) = if below { (0, all) } else { (all, 0) };
            if a.known.covers(all) {
                of_two(Known::nothing(), Known::of(all, b.known.filled(second)))
            } else {
                of_one(Known::of(all, a.known.filled(first)))
            }
        }
    }
}

// What is asked of the operands of a choice.
fn of_choice(want: Known, a: Known, b: Known, c: Known, choosing: Choosing) -> Asked {
    let takes_first = if a.covers(1) {
        a.bits == 1
    } else if b.disagrees(&want) {
        false
    } else if c.disagrees(&want) {
        true
    } else {
        match choosing {
            Choosing::Never => return of_one(Known::nothing()),
            Choosing::By(dice) => dice & 1 == 1,
        }
    };
    Asked {
        a: Known::truth(takes_first),
        b: if takes_first { want } else { Known::nothing() },
        c: if takes_first { Known::nothing() } else { want },
    }
}

// What is asked of the operands of a test of one bit.
fn of_test(op: Op, holds: bool, a: Operand, b: Operand, choosing: Choosing) -> Asked {
    match op {
        Op::Eq => if holds {
            of_equal(a, b, choosing)
        } else {
            of_different(a, b, choosing)
        },
        _ => of_order(holds, a, b, choosing),
    }
}

/// What is asked of the operands, so that the result of this width, of which so much is known now,
/// has what is asked of it.
pub fn backward(
    op: Op,
    want: Known,
    now: Known,
    a: Operand,
    b: Operand,
    c: Operand,
    choosing: Choosing,
) -> Asked {
    let (x, y) = (a.known, b.known);
    match op {
        Op::Const { .. } => of_one(Known::nothing()),
        Op::Not => of_one(Known::of(want.mask, !want.bits)),
        Op::And => of_both(want, x, y, Known::of(u128::MAX, u128::MAX), choosing),
        Op::Or => of_both(want, x, y, Known::of(u128::MAX, 0), choosing),
        Op::Xor => of_xor(want, x, y, choosing),
        Op::Add => of_sum(want, now, x, y, true, choosing),
        Op::Sub => of_sum(want, now, x, y, false, choosing),
        Op::Slice { lo, .. } => of_one(Known::of(up(want.mask, lo), up(want.bits, lo))),
        Op::Concat => of_two(
            Known::of(down(want.mask, b.width), down(want.bits, b.width)),
            Known::of(want.mask & low(b.width), want.bits),
        ),
        Op::SignExt { .. } => of_one(of_extension(want, a)),
        Op::Shl { by } => of_one(Known::of(down(want.mask, by), down(want.bits, by))),
        Op::Shr { by } => of_one(Known::of(up(want.mask, by) & low(a.width), up(want.bits, by))),
        Op::Eq | Op::Ltu => of_test(op, want.bits == 1, a, b, choosing),
        Op::Ite => of_choice(want, x, y, c.known, choosing),
    }
}
