ghost use Rattle.std.specs.Prelude.{◌≡◌, ◌↔◌, ℕ, ◌<◌, ◌≤◌, true, min, IsTrue};
ghost use Rattle.dt_model.specs.ModelData.{tree_of};
ghost use Rattle.dt_model.specs.Scopes.{scope_of};
ghost use Rattle.dt_model.specs.Sets.{has};
ghost use Rattle.dt_model.specs.Widths.{has_unknown, uses, operators, depth};

use crate::set::VarSet;
use crate::{Expr, Names};

/// Whether an expression names a position outside its list.
pub fn names_unknown(e: &Expr, names: &Names) -> bool
    ensures { result ≡ has_unknown (scope_of names.now) (tree_of e.now) }
{
    match e {
        Expr::Value { .. } => false,
        Expr::Reg(i) => names.regs.len() <= *i as usize,
        Expr::Input(i) => names.inputs.len() <= *i as usize,
        Expr::Var(i) => names.vars.len() <= *i as usize,
        Expr::Apply1 { a, .. } => names_unknown(a, names),
        Expr::Apply2 { a, b, .. } => names_unknown(a, names) || names_unknown(b, names),
        Expr::Apply3 { a, b, c, .. } => {
            names_unknown(a, names) || names_unknown(b, names) || names_unknown(c, names)
        }
    }
}

/// The operators of an expression, or 65 where there are more than 64.
pub fn operators_in(e: &Expr) -> u32
    ensures { result ≡ min (operators (tree_of e.now)) 65 }
{
    match e {
        Expr::Value { .. } | Expr::Reg(_) | Expr::Input(_) | Expr::Var(_) => 0,
        Expr::Apply1 { a, .. } => (operators_in(a) + 1).min(65),
        Expr::Apply2 { a, b, .. } => (operators_in(a) + operators_in(b) + 1).min(65),
        Expr::Apply3 { a, b, c, .. } => (operators_in(a)
            + operators_in(b)
            + operators_in(c)
            + 1).min(65),
    }
}

/// The most operators on one way from the root, or 33 where there are more than 32.
pub fn depth_of(e: &Expr) -> u32
    ensures { result ≡ min (depth (tree_of e.now)) 33 }
{
    match e {
        Expr::Value { .. } | Expr::Reg(_) | Expr::Input(_) | Expr::Var(_) => 0,
        Expr::Apply1 { a, .. } => (depth_of(a) + 1).min(33),
        Expr::Apply2 { a, b, .. } => (depth_of(a).max(depth_of(b)) + 1).min(33),
        Expr::Apply3 { a, b, c, .. } => (depth_of(a).max(depth_of(b)).max(depth_of(c)) + 1).min(33),
    }
}

/// Whether an expression uses one of the first variables that the set has.
pub fn uses_any(e: &Expr, left: &VarSet, count: u32) -> bool
    requires { count ≤ 512 }
    ensures { IsTrue result ↔ ((v : ℕ) × (v < count) × (uses (tree_of e.now) v ≡ true) × (has left.now v ≡ true)) }
{
    match e {
        Expr::Value { .. } | Expr::Reg(_) | Expr::Input(_) => false,
        Expr::Var(i) => *i < count && left.contains(*i),
        Expr::Apply1 { a, .. } => uses_any(a, left, count),
        Expr::Apply2 { a, b, .. } => uses_any(a, left, count) || uses_any(b, left, count),
        Expr::Apply3 { a, b, c, .. } => {
            uses_any(a, left, count) || uses_any(b, left, count) || uses_any(c, left, count)
        }
    }
}
