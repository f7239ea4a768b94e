ghost use Rattle.std.specs.Prelude.{◌≡◌, ◌+◌, ◌≤◌, IfOk, IfErr};
ghost use Rattle.dt_model.specs.ModelData.{data_of};
ghost use Rattle.dt_model.specs.Faults.{HaveArities, IsRefused, rule_operators};
ghost use Rattle.dt_model.specs.Refusals.{Passes};

use crate::rules::rules_fault;
use crate::{Model, ModelRefusal, Names, Place};

/// The operators of the context rules, or the refusal of the first that is at fault.
fn context_fault(m: &Model) -> Result<u32, (Place, ModelRefusal)>
    requires declared { Passes (data_of m.now) 4 }
    requires arities { HaveArities (data_of m.now) }
    ensures passes { IfOk result (λ total. Passes (data_of m.now) 5) }
    ensures total { IfOk result (λ total. total ≡ rule_operators (data_of m.now).legal_context) }
    ensures few { IfOk result (λ total. total ≤ 8192) }
    ensures refused { IfErr result (λ f. IsRefused (data_of m.now) f.0 f.1) }
{
    let names = Names {
        regs: m.regs.as_slice(),
        inputs: &[],
        vars: &[],
    };
    match rules_fault(m.legal_context.as_slice(), &names, 0) {
        Ok(total) => Ok(total),
        Err((i, refusal)) => Err((Place::LegalContext(i), refusal)),
    }
}

/// The operators of all rules, or the refusal of the first access rule that is at fault.
fn access_fault(m: &Model, before: u32) -> Result<u32, (Place, ModelRefusal)>
    requires context { Passes (data_of m.now) 5 }
    requires arities { HaveArities (data_of m.now) }
    requires before { before ≡ rule_operators (data_of m.now).legal_context }
    requires few { before ≤ 8192 }
    ensures passes { IfOk result (λ total. Passes (data_of m.now) 6) }
    ensures total { IfOk result (λ total. total ≡ rule_operators (data_of m.now).legal_context + rule_operators (data_of m.now).legal_access) }
    ensures few { IfOk result (λ total. total ≤ 8192) }
    ensures refused { IfErr result (λ f. IsRefused (data_of m.now) f.0 f.1) }
{
    let names = Names {
        regs: m.regs.as_slice(),
        inputs: m.inputs.as_slice(),
        vars: &[],
    };
    match rules_fault(m.legal_access.as_slice(), &names, before) {
        Ok(total) => Ok(total),
        Err((i, refusal)) => Err((Place::LegalAccess(i), refusal)),
    }
}

/// The operators of all rules, or the refusal of the first rule that is at fault.
pub fn legal_fault(m: &Model) -> Result<u32, (Place, ModelRefusal)>
    requires declared { Passes (data_of m.now) 4 }
    requires arities { HaveArities (data_of m.now) }
    ensures passes { IfOk result (λ total. Passes (data_of m.now) 6) }
    ensures total { IfOk result (λ total. total ≡ rule_operators (data_of m.now).legal_context + rule_operators (data_of m.now).legal_access) }
    ensures few { IfOk result (λ total. total ≤ 8192) }
    ensures refused { IfErr result (λ f. IsRefused (data_of m.now) f.0 f.1) }
{
    let before = context_fault(m)?;
    access_fault(m, before)
}
