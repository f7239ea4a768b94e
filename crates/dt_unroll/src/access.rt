ghost use Rattle.std.specs.Prelude.{◌≡◌, ◌<◌, ◌++◌, ◌∷◌, [], List, IfOk, OnOk, length};
ghost use Rattle.dt_model.specs.Accepted.{accepted_data};
ghost use Rattle.dt_table.specs.Table.{access_built};
ghost use Rattle.dt_unroll.specs.Building.{built_of, walk_at, IsLayout};

use crate::frame::Frame;
use crate::front::Front;
use crate::layout::Layout;
use crate::places::Places;
use crate::positions::total;
use crate::rules::require_access;
use crate::walking::walk;
use dt_bits::NoMemory;
use dt_build::Builder;
use dt_model::{Accepted, Names};
use dt_request::{AccessWish, Requests};
use dt_table::Out;
use std::alloc::Global;

// The walk of an access whose registers and inputs stand from here on.
fn walk_access(
    alloc: Global,
    builder: &mut Builder,
    model: &Accepted,
    requests: &Requests,
    layout: &Layout,
    regs: u32,
    inputs: u32,
) -> Result<Vec<Out>, NoMemory>
    requires { IsLayout (accepted_data model.now) requests.now layout.now }
    ensures outs { IfOk result (λ v. v.items ≡ (walk_at (accepted_data model.now) requests.now regs inputs builder.old.terms).outs) }
    ensures terms { OnOk result (builder.new.terms ≡ (walk_at (accepted_data model.now) requests.now regs inputs builder.old.terms).terms) }
    ensures required { OnOk result (builder.new.required ≡ builder.old.required) }
{
    let m = model.model();
    let names = Names {
        regs: m.regs.as_slice(),
        inputs: m.inputs.as_slice(),
        vars: m.vars.as_slice(),
    };
    let frame = Frame {
        places: Places {
            names,
            regs,
            inputs,
        },
        word: m.word,
        address: m.address,
        lo: requests.lo,
        hi: requests.hi,
        zero: layout.zero,
        one: layout.one,
    };
    let nodes = m.nodes.as_slice();
    let word = total(inputs, layout.inputs)?;
    let front = Front::new(alloc, &frame, nodes.len(), word)?;
    walk(alloc, builder, &frame, front, nodes)
}

/// The rules and the walk of the access of this number. The result has what stands for each node.
pub fn build_access(
    alloc: Global,
    builder: &mut Builder,
    model: &Accepted,
    requests: &Requests,
    layout: &Layout,
    k: u32,
    wish: &AccessWish,
) -> Result<Vec<Out>, NoMemory>
    requires { IsLayout (accepted_data model.now) requests.now layout.now }
    ensures { IfOk result (λ v. (before : List (List Out)) → built_of builder.new (before ++ v.items ∷ []) ≡
        access_built (accepted_data model.now) requests.now (built_of builder.old before) k wish.now) }
{
    let regs = layout.regs_at(wish.context)?;
    let inputs = layout.inputs_at(k)?;
    require_access(builder, model, regs, inputs)?;
    walk_access(alloc, builder, model, requests, layout, regs, inputs)
}
