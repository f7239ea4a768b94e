ghost use Rattle.std.specs.Prelude.{◌≡◌, ◌+◌, ◌-◌, ◌*◌, ◌/◌, ◌%◌, ◌^◌, ◌<◌, ◌≤◌, ◌==◌, bit_and, bit_or, bit_xor, nat_le, nat_lt, if◌then◌else◌, IsTrue};
ghost use Rattle.dt_bits.specs.Bits.{IsWidth, IsValue, width};
ghost use Rattle.dt_bits.specs.Ops.{IsOp, applied, fits_at};

use crate::{Bv, Op, Width, ones};

// Each bit turned.
fn complement(width: u32, a: u128) -> u128
    requires width { IsWidth width }
    requires a { a < 2 ^ width }
    ensures { result ≡ 2 ^ width - 1 - a }
{
    ones(Width(width)) - a
}

// The sum, of which what lies above the width is dropped.
fn sum(width: u32, a: u128, b: u128) -> u128
    requires width { IsWidth width }
    requires a { a < 2 ^ width }
    requires b { b < 2 ^ width }
    ensures { result ≡ (a + b) % 2 ^ width }
{
    let room = ones(Width(width)) - a;
    if b <= room { a + b } else { b - room - 1 }
}

// The difference, which goes on below 0 at the largest number of the width.
fn difference(width: u32, a: u128, b: u128) -> u128
    requires width { IsWidth width }
    requires a { a < 2 ^ width }
    requires b { b < 2 ^ width }
    ensures { result ≡ (a + 2 ^ width - b) % 2 ^ width }
{
    if b <= a {
        a - b
    } else {
        ones(Width(width)) - (b - a - 1)
    }
}

// The bits from `hi` down to `lo`.
fn part(a: u128, hi: u32, lo: u32) -> u128
    requires order { lo ≤ hi }
    requires range { hi < 128 }
    ensures { result ≡ a / 2 ^ lo % 2 ^ (hi - lo + 1) }
{
    (a >> lo) & ones(Width(hi - lo + 1))
}

// The bits that are 1 in one or both.
fn either(width: u32, a: u128, b: u128) -> u128
    requires a { a < 2 ^ width }
    requires b { b < 2 ^ width }
    ensures value { result ≡ bit_or a b }
    ensures range { result < 2 ^ width }
{
    a | b
}

// The bits that differ.
fn differing(width: u32, a: u128, b: u128) -> u128
    requires a { a < 2 ^ width }
    requires b { b < 2 ^ width }
    ensures value { result ≡ bit_xor a b }
    ensures range { result < 2 ^ width }
{
    a ^ b
}

/// The first value above the second; both together have at most 128 bits.
#[inline(always)]
pub fn joined(high: Bv, low: Bv) -> Bv
    requires high { IsValue high }
    requires low { IsValue low }
    requires whole { high.width.0 + low.width.0 ≤ 128 }
    ensures value { result ≡ record { width = width (high.width.0 + low.width.0); bits = high.bits * 2 ^ low.width.0 + low.bits } }
    ensures range { IsValue result }
{
    Bv {
        width: Width(high.width.0 + low.width.0),
        bits: (high.bits << low.width.0) | low.bits,
    }
}

/// The same number in two's complement, of a width that is no less.
#[inline(always)]
pub fn extended(value: Bv, to: Width) -> Bv
    requires value { IsValue value }
    requires to { IsWidth to.0 }
    requires order { value.width.0 ≤ to.0 }
    ensures value { result ≡ record {
      width = to;
      bits = if nat_le (2 ^ (value.width.0 - 1)) value.bits
          then value.bits + (2 ^ to.0 - 2 ^ value.width.0) else value.bits;
    } }
    ensures range { IsValue result }
{
    if value.bits >= 1 << (value.width.0 - 1) {
        Bv {
            width: to,
            bits: value.bits + (ones(to) - ones(value.width)),
        }
    } else {
        Bv {
            width: to,
            bits: value.bits,
        }
    }
}

// The bits moved up, of which those above the width are dropped.
fn shifted_left(width: u32, a: u128, by: u32) -> u128
    requires width { IsWidth width }
    requires by { by < width }
    ensures { result ≡ a * 2 ^ by % 2 ^ width }
{
    (a << by) & ones(Width(width))
}

// One bit that says whether something holds.
fn truth(holds: bool) -> Bv
    ensures width { result.width.0 ≡ 1 }
    ensures bits { result.bits ≡ (if holds then 1 else 0) }
{
    Bv {
        width: Width(1),
        bits: if holds { 1 } else { 0 },
    }
}

/// The value that the operator gives of operands which it fits, with its width. Operands that the
/// operator doesn't have are ignored. It takes no memory.
pub fn apply(op: Op, a: Bv, b: Bv, c: Bv) -> Bv
    requires op { IsOp op }
    requires a { IsValue a }
    requires b { IsValue b }
    requires c { IsValue c }
    requires fits { IsTrue (fits_at op a.width.0 b.width.0 c.width.0) }
    ensures value { result ≡ applied op a b c }
    ensures range { IsValue result }
{
    match op {
        Op::Const { value } => value,
        Op::Not => Bv {
            width: a.width,
            bits: complement(a.width.0, a.bits),
        },
        Op::And => Bv {
            width: a.width,
            bits: a.bits & b.bits,
        },
        Op::Or => Bv {
            width: a.width,
            bits: either(a.width.0, a.bits, b.bits),
        },
        Op::Xor => Bv {
            width: a.width,
            bits: differing(a.width.0, a.bits, b.bits),
        },
        Op::Add => Bv {
            width: a.width,
            bits: sum(a.width.0, a.bits, b.bits),
        },
        Op::Sub => Bv {
            width: a.width,
            bits: difference(a.width.0, a.bits, b.bits),
        },
        Op::Slice { hi, lo } => Bv {
            width: Width(hi - lo + 1),
            bits: part(a.bits, hi, lo),
        },
        Op::Concat => joined(a, b),
        Op::SignExt { to } => extended(a, Width(to)),
        Op::Shl { by } => Bv {
            width: a.width,
            bits: shifted_left(a.width.0, a.bits, by),
        },
        Op::Shr { by } => Bv {
            width: a.width,
            bits: a.bits >> by,
        },
        Op::Eq => truth(a.bits == b.bits),
        Op::Ltu => truth(a.bits < b.bits),
        Op::Ite => if a.bits == 1 { b } else { c },
    }
}
