ghost use Rattle.std.specs.Prelude.{◌≡◌, [], ◌++◌, IfOk, IfNone};
ghost use Rattle.dt_model.specs.ModelData.{data_of};
ghost use Rattle.dt_model.specs.Faults.{names_of};
ghost use Rattle.dt_model.specs.Refusals.{Passes, IsFirstTo};

use crate::limits::{MOST_INPUTS, MOST_REGS, MOST_VARS};
use crate::naming::names_fault;
use crate::{Model, ModelRefusal, Place};
use dt_lex::Name;
use indexmap::IndexSet;
use std::alloc::{AllocError, Global};

/// The refusal of the first register that is at fault.
fn regs_fault(
    declared: &mut IndexSet<Name>,
    m: &Model,
) -> Result<Option<(Place, ModelRefusal)>, AllocError>
    requires header { Passes (data_of m.now) 1 }
    requires empty { declared.old.keys ≡ [] }
    ensures fault { IfOk result (IsFirstTo (data_of m.now) 2) }
    ensures declared { IfOk result (λ f. IfNone f (declared.new.keys ≡ names_of m.now.regs)) }
{
    match names_fault(declared, MOST_REGS, m.regs.as_slice())? {
        Some((i, refusal)) => Ok(Some((Place::Reg(i), refusal))),
        None => Ok(None),
    }
}

/// The refusal of the first input that is at fault, after the registers.
fn inputs_fault(
    declared: &mut IndexSet<Name>,
    m: &Model,
) -> Result<Option<(Place, ModelRefusal)>, AllocError>
    requires regs { Passes (data_of m.now) 2 }
    requires named { declared.old.keys ≡ names_of m.now.regs }
    ensures fault { IfOk result (IsFirstTo (data_of m.now) 3) }
    ensures declared { IfOk result (λ f. IfNone f (declared.new.keys ≡ names_of m.now.regs ++ names_of m.now.inputs)) }
{
    match names_fault(declared, MOST_INPUTS, m.inputs.as_slice())? {
        Some((i, refusal)) => Ok(Some((Place::Input(i), refusal))),
        None => Ok(None),
    }
}

/// The refusal of the first variable that is at fault, after the registers and inputs.
fn vars_fault(
    declared: &mut IndexSet<Name>,
    m: &Model,
) -> Result<Option<(Place, ModelRefusal)>, AllocError>
    requires inputs { Passes (data_of m.now) 3 }
    requires named { declared.old.keys ≡ names_of m.now.regs ++ names_of m.now.inputs }
    ensures { IfOk result (IsFirstTo (data_of m.now) 4) }
{
    match names_fault(declared, MOST_VARS, m.vars.as_slice())? {
        Some((i, refusal)) => Ok(Some((Place::Var(i), refusal))),
        None => Ok(None),
    }
}

/// The refusal of the first register, input or variable that is at fault.
pub fn declared_fault(alloc: Global, m: &Model) -> Result<Option<(Place, ModelRefusal)>, AllocError>
    requires { Passes (data_of m.now) 1 }
    ensures { IfOk result (IsFirstTo (data_of m.now) 4) }
{
    let mut declared = IndexSet::new(alloc);
    if let Some(found) = regs_fault(&mut declared, m)? {
        return Ok(Some(found));
    }
    if let Some(found) = inputs_fault(&mut declared, m)? {
        return Ok(Some(found));
    }
    vars_fault(&mut declared, m)
}
