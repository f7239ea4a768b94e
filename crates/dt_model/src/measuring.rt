ghost use Rattle.std.specs.Prelude.{◌≡◌, ℕ, ◌+◌, ◌≤◌, false};
ghost use Rattle.dt_bits.specs.Ops.{arity_of};
ghost use Rattle.dt_model.specs.ModelData.{tree_of};
ghost use Rattle.dt_model.specs.Scopes.{scope_of};
ghost use Rattle.dt_model.specs.Widths.{is_constant, width_at, fitted, tree_width, mismatch, out_of_range, has_mismatch, has_bad_range, HasArities, IsWidthOrNone, AreWidths, differs, is_below, is_above, too_wide};

use crate::{Expr, Named, Names};
use dt_bits::{Op, fits};

fn is_constant_of(width: u32, bits: u128) -> bool
    ensures { result ≡ is_constant width bits }
{
    1 <= width && width <= 128 && (width == 128 || bits < 1 << width)
}

/// The declared width at a position, where there is one.
pub fn width_of_name(names: &[Named], i: u32) -> Option<u32>
    ensures { result ≡ width_at names.now i }
{
    match names.get(i as usize) {
        Some(n) => Some(n.width),
        None => None,
    }
}

fn fitted_width(op: Op, a: Option<u32>, b: Option<u32>, c: Option<u32>) -> Option<u32>
    requires op { 1 ≤ arity_of op }
    requires a { IsWidthOrNone a }
    requires b { IsWidthOrNone b }
    requires c { IsWidthOrNone c }
    ensures value { result ≡ fitted op a b c }
    ensures range { IsWidthOrNone result }
{
    let a = a?;
    let b = b?;
    let c = c?;
    match fits(op, a, b, c) {
        Some(width) => Some(width.0),
        None => None,
    }
}

/// Whether two widths are known and differ.
pub fn differ(a: Option<u32>, b: Option<u32>) -> bool
    ensures { result ≡ differs a b }
{
    match (a, b) {
        (Some(a), Some(b)) => a != b,
        _ => false,
    }
}

fn mismatched(op: Op, a: Option<u32>, b: Option<u32>, c: Option<u32>) -> bool
    ensures { result ≡ mismatch op a b c }
{
    match op {
        Op::And | Op::Or | Op::Xor | Op::Add | Op::Sub | Op::Eq | Op::Ltu => differ(a, b),
        Op::Ite => differ(a, Some(1)) || differ(b, c),
        Op::Const { .. }
        | Op::Not
        | Op::Slice { .. }
        | Op::Concat
        | Op::SignExt { .. }
        | Op::Shl { .. }
        | Op::Shr { .. } => false,
    }
}

fn at_most(a: Option<u32>, n: u32) -> bool
    ensures { result ≡ is_below a (n + 1) }
{
    match a {
        Some(a) => a <= n,
        None => false,
    }
}

fn above(a: Option<u32>, n: u32) -> bool
    ensures { result ≡ is_above a n }
{
    match a {
        Some(a) => a > n,
        None => false,
    }
}

fn wide(a: Option<u32>, b: Option<u32>) -> bool
    requires a { IsWidthOrNone a }
    requires b { IsWidthOrNone b }
    ensures { result ≡ too_wide a b }
{
    match (a, b) {
        (Some(a), Some(b)) => a + b > 128,
        _ => false,
    }
}

fn ranged_badly(op: Op, a: Option<u32>, b: Option<u32>) -> bool
    requires a { IsWidthOrNone a }
    requires b { IsWidthOrNone b }
    ensures { result ≡ out_of_range op a b }
{
    match op {
        Op::Slice { hi, lo } => hi < lo || at_most(a, hi),
        Op::Concat => wide(a, b),
        Op::SignExt { to } => to > 128 || above(a, to),
        Op::Shl { by } | Op::Shr { by } => at_most(a, by),
        Op::Const { .. }
        | Op::Not
        | Op::And
        | Op::Or
        | Op::Xor
        | Op::Add
        | Op::Sub
        | Op::Eq
        | Op::Ltu
        | Op::Ite => false,
    }
}

/// An expression's width in bits, where nothing in it is at fault, and which faults of width it has.
#[derive(Clone, Copy, Debug)]
pub struct Measured {
    pub width: Option<u32>,
    pub mismatch: bool,
    pub range: bool,
}

fn leaf(width: Option<u32>) -> Measured
    ensures { result ≡ record { width = width; mismatch = false; range = false } }
{
    Measured {
        width,
        mismatch: false,
        range: false,
    }
}

/// The width of an expression and its faults, found in one walk over it.
pub fn measure(e: &Expr, names: &Names) -> Measured
    requires arities { HasArities (tree_of e.now) }
    requires regs { AreWidths names.now.regs.now }
    requires inputs { AreWidths names.now.inputs.now }
    requires vars { AreWidths names.now.vars.now }
    ensures width { result.width ≡ tree_width (scope_of names.now) (tree_of e.now) }
    ensures mismatch { result.mismatch ≡ has_mismatch (scope_of names.now) (tree_of e.now) }
    ensures range { result.range ≡ has_bad_range (scope_of names.now) (tree_of e.now) }
    ensures is_width { IsWidthOrNone result.width }
{
    match e {
        Expr::Value { width, bits } => {
            if is_constant_of(*width, *bits) {
                leaf(Some(*width))
            } else {
                Measured {
                    width: None,
                    mismatch: false,
                    range: true,
                }
            }
        }
        Expr::Reg(i) => leaf(width_of_name(names.regs, *i)),
        Expr::Input(i) => leaf(width_of_name(names.inputs, *i)),
        Expr::Var(i) => leaf(width_of_name(names.vars, *i)),
        Expr::Apply1 { op, a } => {
            let a = measure(a, names);
            let one = Some(1);
            Measured {
                width: fitted_width(*op, a.width, one, one),
                mismatch: mismatched(*op, a.width, one, one) || a.mismatch,
                range: ranged_badly(*op, a.width, one) || a.range,
            }
        }
        Expr::Apply2 { op, a, b } => {
            let a = measure(a, names);
            let b = measure(b, names);
            let one = Some(1);
            Measured {
                width: fitted_width(*op, a.width, b.width, one),
                mismatch: mismatched(*op, a.width, b.width, one) || a.mismatch || b.mismatch,
                range: ranged_badly(*op, a.width, b.width) || a.range || b.range,
            }
        }
        Expr::Apply3 { op, a, b, c } => {
            let a = measure(a, names);
            let b = measure(b, names);
            let c = measure(c, names);
            Measured {
                width: fitted_width(*op, a.width, b.width, c.width),
                mismatch: mismatched(*op, a.width, b.width, c.width)
                    || a.mismatch
                    || b.mismatch
                    || c.mismatch,
                range: a.range || b.range || c.range,
            }
        }
    }
}
