ghost use Rattle.std.specs.Prelude.{◌≡◌, ◌<◌, ◌^◌, Some, IsSome, slice_index, length};
ghost use Rattle.dt_bits.specs.Bits.{IsValue};
ghost use Rattle.dt_model.specs.ModelData.{tree_of};
ghost use Rattle.dt_model.specs.Widths.{tree_width, width_at, HasArities};
ghost use Rattle.dt_walk.specs.Meaning.{value_at, valued};
ghost use Rattle.dt_walk.specs.Sound.{AreValues};
ghost use Rattle.dt_walk.specs.Env.{env_data};

use dt_bits::{Bv, Width, apply};
use dt_model::{Expr, Named, Names};

/// What expressions are read in: names with their widths, and the values of registers and inputs.
#[derive(Clone, Copy)]
pub struct Env<'a> {
    pub names: Names<'a>,
    pub regs: &'a [u128],
    pub inputs: &'a [u128],
}

// The value of the name at a position.
fn named_value(names: &[Named], values: &[u128], i: u32) -> Bv
    requires values { AreValues names.now values.now }
    requires there { IsSome (width_at names.now i) }
    ensures value { result ≡ valued (width_at names.now i) (slice_index values.now i) }
    ensures range { IsValue result }
    ensures width { width_at names.now i ≡ Some result.width.0 }
{
    Bv {
        width: Width(names[i as usize].width),
        bits: values[i as usize],
    }
}

// An operand that an operator doesn't use.
const UNUSED: Bv = Bv {
    width: Width(1),
    bits: 0,
};

/// The value of an expression.
pub fn value(e: &Expr, env: &Env, vars: &[u128]) -> Bv
    requires arities { HasArities (tree_of e.now) }
    requires width { IsSome (tree_width (env_data env.now).scope (tree_of e.now)) }
    requires regs { AreValues env.now.names.regs.now env.now.regs.now }
    requires inputs { AreValues env.now.names.inputs.now env.now.inputs.now }
    requires vars { AreValues env.now.names.vars.now vars.now }
    ensures value { result ≡ value_at (env_data env.now) (slice_index vars.now) (tree_of e.now) }
    ensures range { IsValue result }
    ensures width { tree_width (env_data env.now).scope (tree_of e.now) ≡ Some result.width.0 }
{
    match e {
        Expr::Value { width, bits } => Bv {
            width: Width(*width),
            bits: *bits,
        },
        Expr::Reg(i) => named_value(env.names.regs, env.regs, *i),
        Expr::Input(i) => named_value(env.names.inputs, env.inputs, *i),
        Expr::Var(i) => named_value(env.names.vars, vars, *i),
        Expr::Apply1 { op, a } => {
            let a = value(a, env, vars);
            apply(*op, a, UNUSED, UNUSED)
        }
        Expr::Apply2 { op, a, b } => {
            let a = value(a, env, vars);
            let b = value(b, env, vars);
            apply(*op, a, b, UNUSED)
        }
        Expr::Apply3 { op, a, b, c } => {
            let a = value(a, env, vars);
            let b = value(b, env, vars);
            let c = value(c, env, vars);
            apply(*op, a, b, c)
        }
    }
}
