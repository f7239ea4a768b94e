ghost use Rattle.std.specs.Prelude.{◌≡◌, [], Contains};
ghost use Rattle.dt_model.specs.Accepted.{accepted_data};
ghost use Rattle.dt_model.specs.ModelData.{tree_of};
ghost use Rattle.dt_model.specs.Values.{FitNames};
ghost use Rattle.dt_walk.specs.Meaning.{rule_holds};

use crate::value::{Env, value};
use dt_model::{Accepted, Expr, Names};

/// Whether a context rule of the model is 1 under these values of the registers.
pub fn context_rule_holds(model: &Accepted, rule: &Expr, regs: &[u128]) -> bool
    requires rule { Contains (accepted_data model.now).legal_context (tree_of rule.now) }
    requires regs { FitNames (accepted_data model.now).regs regs.now }
    ensures { result ≡ rule_holds (accepted_data model.now) regs.now [] (tree_of rule.now) }
{
    let m = model.model();
    let names = Names {
        regs: m.regs.as_slice(),
        inputs: &[],
        vars: &[],
    };
    let env = Env {
        names,
        regs,
        inputs: &[],
    };
    let v = value(rule, &env, &[]);
    v.bits == 1
}

/// Whether an access rule of the model is 1 under these values of the registers and inputs.
pub fn access_rule_holds(model: &Accepted, rule: &Expr, regs: &[u128], inputs: &[u128]) -> bool
    requires rule { Contains (accepted_data model.now).legal_access (tree_of rule.now) }
    requires regs { FitNames (accepted_data model.now).regs regs.now }
    requires inputs { FitNames (accepted_data model.now).inputs inputs.now }
    ensures { result ≡ rule_holds (accepted_data model.now) regs.now inputs.now (tree_of rule.now) }
{
    let m = model.model();
    let names = Names {
        regs: m.regs.as_slice(),
        inputs: m.inputs.as_slice(),
        vars: &[],
    };
    let env = Env {
        names,
        regs,
        inputs,
    };
    let truth = value(rule, &env, &[]);
    truth.bits == 1
}
