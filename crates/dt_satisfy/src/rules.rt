ghost use Rattle.std.specs.Prelude.{◌≡◌, ◌<◌, ◌++◌, [], List, ℕ, map, length, OnOk};
ghost use Rattle.std.specs.List.{AllByRecursion};
ghost use Rattle.dt_model.specs.Accepted.{accepted_data};
ghost use Rattle.dt_model.specs.Values.{FitNames};
ghost use Rattle.dt_walk.specs.Meaning.{rule_holds};
ghost use Rattle.dt_image.specs.Images.{IsImage};
ghost use Rattle.dt_satisfy.specs.Claims.{context_claims, access_claims};

use dt_bits::NoMemory;
use dt_image::Image;
use dt_model::Accepted;
use dt_walk::{access_rule_holds, context_rule_holds};

// The claims of one context.
fn push_context(model: &Accepted, regs: &[u128], claims: &mut Vec<bool>) -> Result<(), NoMemory>
    requires { FitNames (accepted_data model.now).regs regs.now }
    ensures { OnOk result (claims.new.items ≡ claims.old.items
        ++ map (rule_holds (accepted_data model.now) regs.now []) (accepted_data model.now).legal_context) }
{
    let rules = model.model().legal_context.as_slice();
    for rule in rules {
        claims.push(context_rule_holds(model, rule, regs))?;
    }
    Ok(())
}

// The claims of one access that rules make.
fn push_access(
    model: &Accepted,
    regs: &[u128],
    inputs: &[u128],
    claims: &mut Vec<bool>,
) -> Result<(), NoMemory>
    requires regs { FitNames (accepted_data model.now).regs regs.now }
    requires inputs { FitNames (accepted_data model.now).inputs inputs.now }
    ensures { OnOk result (claims.new.items ≡ claims.old.items
        ++ map (rule_holds (accepted_data model.now) regs.now inputs.now) (accepted_data model.now).legal_access) }
{
    let rules = model.model().legal_access.as_slice();
    for rule in rules {
        claims.push(access_rule_holds(model, rule, regs, inputs))?;
    }
    Ok(())
}

/// Appends whether each context rule is 1, for each context.
pub fn push_context_claims(
    model: &Accepted,
    image: &Image,
    claims: &mut Vec<bool>,
) -> Result<(), NoMemory>
    requires { IsImage (accepted_data model.now) image.now }
    ensures { OnOk result (claims.new.items ≡ claims.old.items ++ context_claims (accepted_data model.now) image.now) }
{
    let contexts = image.contexts.as_slice();
    for context in contexts {
        push_context(model, context.as_slice(), claims)?;
    }
    Ok(())
}

/// Appends whether each access rule is 1, for each access.
pub fn push_access_claims(
    model: &Accepted,
    image: &Image,
    claims: &mut Vec<bool>,
) -> Result<(), NoMemory>
    requires { IsImage (accepted_data model.now) image.now }
    ensures { OnOk result (claims.new.items ≡ claims.old.items ++ access_claims (accepted_data model.now) image.now) }
{
    let contexts = image.contexts.as_slice();
    let accesses = image.accesses.as_slice();
    for access in accesses {
        let regs = contexts[access.context as usize].as_slice();
        push_access(model, regs, access.inputs.as_slice(), claims)?;
    }
    Ok(())
}
