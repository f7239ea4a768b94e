ghost use Rattle.std.specs.Prelude.{◌≡◌, [], map, OnOk};
ghost use Rattle.dt_model.specs.Accepted.{accepted_data};
ghost use Rattle.dt_model.specs.ModelData.{tree_of};
ghost use Rattle.dt_model.specs.Faults.{context_scope, access_scope};
ghost use Rattle.dt_model.specs.Scopes.{scope_of};
ghost use Rattle.dt_table.specs.Expressions.{form_of};
ghost use Rattle.dt_table.specs.Table.{rule_named};
ghost use Rattle.dt_build.specs.Building.{demanded};
ghost use Rattle.dt_unroll.specs.Fronts.{named_of, AreRules};

use crate::places::{Places, place_expression};
use dt_bits::NoMemory;
use dt_build::Builder;
use dt_model::{Accepted, Expr, Names};

/// Requires rules over the terms of registers and inputs, each put behind the terms in turn.
pub fn require_rules(builder: &mut Builder, places: &Places, rules: &[Expr]) -> Result<(), NoMemory>
    requires rules { AreRules (scope_of places.now.names) rules.now }
    requires no_vars { places.now.names.vars.now ≡ [] }
    ensures { OnOk result (builder.new ≡ demanded builder.old
        (map (λ e. form_of (named_of places.now []) (tree_of e)) rules.now)) }
{
    for rule in rules {
        let truth = place_expression(builder, places, &[], rule)?;
        builder.require(truth)?;
    }
    Ok(())
}

/// Requires the context rules over the registers that stand from here on.
pub fn require_context(builder: &mut Builder, model: &Accepted, regs: u32) -> Result<(), NoMemory>
    ensures { OnOk result (builder.new ≡ demanded builder.old
        (map (form_of (rule_named (context_scope (accepted_data model.now)) regs 0)) (accepted_data model.now).legal_context)) }
{
    let m = model.model();
    let names = Names {
        regs: m.regs.as_slice(),
        inputs: &[],
        vars: &[],
    };
    let places = Places {
        names,
        regs,
        inputs: 0,
    };
    require_rules(builder, &places, m.legal_context.as_slice())
}

/// Requires the access rules over the registers and the inputs that stand from here on.
pub fn require_access(
    builder: &mut Builder,
    model: &Accepted,
    regs: u32,
    inputs: u32,
) -> Result<(), NoMemory>
    ensures { OnOk result (builder.new ≡ demanded builder.old
        (map (form_of (rule_named (access_scope (accepted_data model.now)) regs inputs)) (accepted_data model.now).legal_access)) }
{
    let m = model.model();
    let names = Names {
        regs: m.regs.as_slice(),
        inputs: m.inputs.as_slice(),
        vars: &[],
    };
    let places = Places {
        names,
        regs,
        inputs,
    };
    require_rules(builder, &places, m.legal_access.as_slice())
}
