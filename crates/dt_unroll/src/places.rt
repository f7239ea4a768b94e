ghost use Rattle.std.specs.Prelude.{◌≡◌, ◌<◌, ◌+◌, List, ℕ, Option, length, IfOk, OnOk, IsSome, None, slice_index_or, unwrap_or};
ghost use Rattle.dt_model.specs.ModelData.{tree_of};
ghost use Rattle.dt_model.specs.Scopes.{scope_of};
ghost use Rattle.dt_model.specs.Widths.{AreWidths, tree_width, width_at, HasArities};
ghost use Rattle.dt_forms.specs.Forms.{form_placed};
ghost use Rattle.dt_table.specs.Expressions.{form_of, var_form};
ghost use Rattle.dt_build.specs.Building.{placed_in};
ghost use Rattle.dt_unroll.specs.Fronts.{named_of};

use crate::positions::total;
use dt_bits::{NoMemory, Width};
use dt_build::Builder;
use dt_model::{Expr, Named, Names};

/// Where the terms of names stand: the names, and the positions of the first register and of the
/// first input.
#[derive(Clone, Copy)]
pub struct Places<'a> {
    pub names: Names<'a>,
    pub regs: u32,
    pub inputs: u32,
}

// The term of a variable, and the constant 0 of its width where it has none.
fn variable(
    builder: &mut Builder,
    names: &[Named],
    vars: &[Option<u32>],
    x: u32,
) -> Result<u32, NoMemory>
    requires widths { AreWidths names.now }
    requires there { IsSome (width_at names.now x) }
    requires vars { length vars.now ≡ length names.now }
    ensures at { IfOk result (λ t. t ≡
        (form_placed builder.old.terms (var_form (slice_index_or vars.now x None) (unwrap_or (width_at names.now x) 1))).at) }
    ensures placed { OnOk result (builder.new ≡ placed_in builder.old
        (form_placed builder.old.terms (var_form (slice_index_or vars.now x None) (unwrap_or (width_at names.now x) 1)))) }
{
    let width = names[x as usize].width;
    match vars[x as usize] {
        Some(term) => Ok(term),
        None => builder.number(Width(width), 0),
    }
}

/// Puts an expression over the terms of its names.
pub fn place_expression(
    builder: &mut Builder,
    places: &Places,
    vars: &[Option<u32>],
    e: &Expr,
) -> Result<u32, NoMemory>
    requires arities { HasArities (tree_of e.now) }
    requires width { IsSome (tree_width (scope_of places.now.names) (tree_of e.now)) }
    requires widths { AreWidths places.now.names.vars.now }
    requires vars { length vars.now ≡ length places.now.names.vars.now }
    ensures at { IfOk result (λ t. t ≡ (form_placed builder.old.terms (form_of (named_of places.now vars.now) (tree_of e.now))).at) }
    ensures placed { OnOk result (builder.new ≡ placed_in builder.old
        (form_placed builder.old.terms (form_of (named_of places.now vars.now) (tree_of e.now)))) }
{
    match e {
        Expr::Value { width, bits } => builder.number(Width(*width), *bits),
        Expr::Reg(i) => total(places.regs, *i),
        Expr::Input(i) => total(places.inputs, *i),
        Expr::Var(i) => variable(builder, places.names.vars, vars, *i),
        Expr::Apply1 { op, a } => {
            let a = place_expression(builder, places, vars, a)?;
            builder.place(*op, a, 0, 0)
        }
        Expr::Apply2 { op, a, b } => {
            let a = place_expression(builder, places, vars, a)?;
            let b = place_expression(builder, places, vars, b)?;
            builder.place(*op, a, b, 0)
        }
        Expr::Apply3 { op, a, b, c } => {
            let a = place_expression(builder, places, vars, a)?;
            let b = place_expression(builder, places, vars, b)?;
            let c = place_expression(builder, places, vars, c)?;
            builder.place(*op, a, b, c)
        }
    }
}
