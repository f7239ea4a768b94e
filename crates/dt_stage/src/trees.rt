ghost use Rattle.std.specs.Prelude.{◌≡◌, IfOk};
ghost use Rattle.dt_model.specs.ModelData.{tree_of, apply1 as one_operand, apply2 as two_operands};
ghost use Rattle.dt_stage.specs.Trees.{part, bit, no, both, either, is, joined, choose};

use dt_bits::{NoMemory, Op};
use dt_model::Expr;
use std::alloc::Global;

fn apply1(alloc: Global, op: Op, a: Expr) -> Result<Expr, NoMemory>
    ensures { IfOk result (λ e. tree_of e ≡ one_operand op (tree_of a)) }
{
    Ok(Expr::Apply1 {
        op,
        a: Box::new(alloc, a)?,
    })
}

fn apply2(alloc: Global, op: Op, a: Expr, b: Expr) -> Result<Expr, NoMemory>
    ensures { IfOk result (λ e. tree_of e ≡ two_operands op (tree_of a) (tree_of b)) }
{
    Ok(Expr::Apply2 {
        op,
        a: Box::new(alloc, a)?,
        b: Box::new(alloc, b)?,
    })
}

/// The bits `hi` to `lo` of an expression, both counted from 0 and taken in.
pub fn part(alloc: Global, hi: u32, lo: u32, a: Expr) -> Result<Expr, NoMemory>
    ensures { IfOk result (λ e. tree_of e ≡ part hi lo (tree_of a)) }
{
    apply1(alloc, Op::Slice { hi, lo }, a)
}

/// The bit `k` of an expression, 1 wide.
pub fn bit(alloc: Global, k: u32, a: Expr) -> Result<Expr, NoMemory>
    ensures { IfOk result (λ e. tree_of e ≡ bit k (tree_of a)) }
{
    part(alloc, k, k, a)
}

/// The bitwise opposite of an expression: of one that is 1 wide, whether it is 0.
pub fn no(alloc: Global, a: Expr) -> Result<Expr, NoMemory>
    ensures { IfOk result (λ e. tree_of e ≡ no (tree_of a)) }
{
    apply1(alloc, Op::Not, a)
}

/// The bits that two expressions of one width both have: of two that are 1 wide, whether both hold.
pub fn both(alloc: Global, a: Expr, b: Expr) -> Result<Expr, NoMemory>
    ensures { IfOk result (λ e. tree_of e ≡ both (tree_of a) (tree_of b)) }
{
    apply2(alloc, Op::And, a, b)
}

/// The bits that one of two expressions of one width has: of two that are 1 wide, whether one holds.
pub fn either(alloc: Global, a: Expr, b: Expr) -> Result<Expr, NoMemory>
    ensures { IfOk result (λ e. tree_of e ≡ either (tree_of a) (tree_of b)) }
{
    apply2(alloc, Op::Or, a, b)
}

/// Whether an expression of this width is this constant, 1 wide.
pub fn is(alloc: Global, a: Expr, width: u32, bits: u128) -> Result<Expr, NoMemory>
    ensures { IfOk result (λ e. tree_of e ≡ is (tree_of a) width bits) }
{
    apply2(alloc, Op::Eq, a, Expr::Value { width, bits })
}

/// Two expressions side by side: `a` gives the upper bits and `b` the lower ones.
pub fn joined(alloc: Global, a: Expr, b: Expr) -> Result<Expr, NoMemory>
    ensures { IfOk result (λ e. tree_of e ≡ joined (tree_of a) (tree_of b)) }
{
    apply2(alloc, Op::Concat, a, b)
}

/// The value of `b` where `a`, which is 1 wide, is 1, and else that of `c`.
pub fn choose(alloc: Global, a: Expr, b: Expr, c: Expr) -> Result<Expr, NoMemory>
    ensures { IfOk result (λ e. tree_of e ≡ choose (tree_of a) (tree_of b) (tree_of c)) }
{
    Ok(Expr::Apply3 {
        op: Op::Ite,
        a: Box::new(alloc, a)?,
        b: Box::new(alloc, b)?,
        c: Box::new(alloc, c)?,
    })
}
