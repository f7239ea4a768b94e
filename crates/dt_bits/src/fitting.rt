ghost use Rattle.std.specs.Prelude.{◌≡◌, ◌<◌, true, IfSome};
ghost use Rattle.dt_bits.specs.Bits.{IsWidth, width};
ghost use Rattle.dt_bits.specs.Ops.{arity_of, fits_at, fits_of, width_of, some_used, IsOp};

use crate::{Op, Width};

/// How many operands the operator has, 0 to 3.
pub fn arity(op: Op) -> u32
    ensures { result ≡ arity_of op }
{
    match op {
        Op::Const { .. } => 0,
        Op::Not | Op::Slice { .. } | Op::SignExt { .. } | Op::Shl { .. } | Op::Shr { .. } => 1,
        Op::And | Op::Or | Op::Xor | Op::Add | Op::Sub | Op::Concat | Op::Eq | Op::Ltu => 2,
        Op::Ite => 3,
    }
}

/// The width of the result for operands of these widths in bits, and None exactly where the operator
/// doesn't fit them. An operand that the operator doesn't have may have any number for its width.
pub fn fits(op: Op, a: u32, b: u32, c: u32) -> Option<Width>
    requires a { 0 < arity_of op → IsWidth a }
    requires b { 1 < arity_of op → IsWidth b }
    requires c { 2 < arity_of op → IsWidth c }
    ensures value { result ≡ fits_of op a b c }
    ensures range { IsOp op → IfSome result (λ width. IsWidth width.0) }
{
    match op {
        Op::Const { value } => Some(value.width),
        Op::Not => Some(Width(a)),
        Op::And | Op::Or | Op::Xor | Op::Add | Op::Sub => {
            if a == b { Some(Width(a)) } else { None }
        }
        Op::Slice { hi, lo } => {
            if lo <= hi && hi < a {
                Some(Width(hi - lo + 1))
            } else {
                None
            }
        }
        Op::Concat => if a + b <= 128 {
            Some(Width(a + b))
        } else {
            None
        },
        Op::SignExt { to } => if a <= to && to <= 128 {
            Some(Width(to))
        } else {
            None
        },
        Op::Shl { by } | Op::Shr { by } => if by < a { Some(Width(a)) } else { None },
        Op::Eq | Op::Ltu => if a == b { Some(Width(1)) } else { None },
        Op::Ite => if a == 1 && b == c {
            Some(Width(b))
        } else {
            None
        },
    }
}

/// The width of the result for operands of these widths, which the operator fits.
#[inline(always)]
pub fn result_width(op: Op, a: Width, b: Width, c: Width) -> Width
    requires { fits_at op a.0 b.0 c.0 ≡ true }
    ensures { result ≡ width (width_of op a.0 b.0 c.0) }
{
    match op {
        Op::Const { value } => value.width,
        Op::Not | Op::And | Op::Or | Op::Xor | Op::Add | Op::Sub => a,
        Op::Shl { .. } | Op::Shr { .. } => a,
        Op::Slice { hi, lo } => Width(hi - lo + 1),
        Op::Concat => Width(a.0 + b.0),
        Op::SignExt { to } => Width(to),
        Op::Eq | Op::Ltu => Width(1),
        Op::Ite => b,
    }
}

/// Whether some operand that the operator has passes a test, where `a`, `b` and `c` say which of the
/// three do.
#[inline(always)]
pub fn is_some_used(op: Op, a: bool, b: bool, c: bool) -> bool
    ensures { result ≡ some_used op a b c }
{
    let count = arity(op);
    0 < count && a || 1 < count && b || 2 < count && c
}
