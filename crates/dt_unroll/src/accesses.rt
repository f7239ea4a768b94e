ghost use Rattle.std.specs.Prelude.{◌≡◌, [], length, map, IfOk, OnOk};
ghost use Rattle.dt_model.specs.Accepted.{accepted_data};
ghost use Rattle.dt_table.specs.Table.{start, built, contexts_built};
ghost use Rattle.dt_unroll.specs.Building.{problem_of, built_of};

use crate::access::build_access;
use crate::layout::Layout;
use crate::positions::position;
use crate::rules::require_context;
use dt_bits::NoMemory;
use dt_build::Builder;
use dt_model::Accepted;
use dt_request::Requests;
use dt_table::Out;
use std::alloc::Global;

// Requires the rules of each context.
fn require_contexts(
    builder: &mut Builder,
    model: &Accepted,
    layout: &Layout,
    contexts: u32,
) -> Result<(), NoMemory>
    requires { layout.now.regs ≡ length (accepted_data model.now).regs }
    ensures { OnOk result (built_of builder.new [] ≡
        contexts_built (accepted_data model.now) (built_of builder.old []) contexts 0) }
{
    for context in 0..contexts {
        let regs = layout.regs_at(context)?;
        require_context(builder, model, regs)?;
    }
    Ok(())
}

/// Puts the rules of each context, and the rules and the walk of each access, behind the choices of
/// the list and the constants 0 and 1, and requires the rules. The result has what stands for each
/// node, for each access.
///
/// It takes time and memory for each operator of a context rule with each context, and for each
/// variable, node and operator of the others with each access. The terms aren't copied.
///
/// # Errors
///
/// `NoMemory` where memory ran out, and where the problem has no room.
pub fn build_accesses(
    alloc: Global,
    builder: &mut Builder,
    model: &Accepted,
    requests: &Requests,
) -> Result<Vec<Vec<Out>>, NoMemory>
    requires start { builder.old ≡ problem_of (start (accepted_data model.now) requests.now) }
    ensures problem { OnOk result (builder.new ≡ problem_of (built (accepted_data model.now) requests.now)) }
    ensures outs { IfOk result (λ v. map (λ w. w.items) v.items ≡ (built (accepted_data model.now) requests.now).outs) }
{
    let layout = Layout::new(model, requests)?;
    let contexts = position(requests.contexts.len())?;
    require_contexts(builder, model, &layout, contexts)?;
    let accesses = requests.accesses.as_slice();
    let mut all = Vec::with_capacity(alloc, accesses.len())?;
    for (k, wish) in accesses.iter().enumerate() {
        let number = position(k)?;
        let outs = build_access(alloc, builder, model, requests, &layout, number, wish)?;
        all.push(outs)?;
    }
    Ok(all)
}
