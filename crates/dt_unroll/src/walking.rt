ghost use Rattle.std.specs.Prelude.{◌≡◌, IfOk, OnOk, length};
ghost use Rattle.dt_model.specs.Flow.{steps_of};
ghost use Rattle.dt_model.specs.Scopes.{scope_of};
ghost use Rattle.dt_walk.specs.Sound.{AreSound};
ghost use Rattle.dt_table.specs.Passing.{walk_placed};
ghost use Rattle.dt_unroll.specs.Fronts.{access_data, state_of, IsFrame, IsWhole};

use crate::frame::Frame;
use crate::front::Front;
use crate::node::pass;
use dt_bits::NoMemory;
use dt_build::Builder;
use dt_model::Node;
use dt_table::Out;
use std::alloc::Global;

/// Puts the terms of all nodes, in order, and answers what stands for each.
pub fn walk(
    alloc: Global,
    builder: &mut Builder,
    frame: &Frame,
    mut front: Front,
    nodes: &[Node],
) -> Result<Vec<Out>, NoMemory>
    requires frame { IsFrame frame.now }
    requires whole { IsWhole frame.now (length nodes.now) front }
    requires sound { AreSound (scope_of frame.now.places.names) frame.now.word (steps_of nodes.now) }
    ensures outs { IfOk result (λ v. v.items ≡
        (walk_placed (access_data frame.now) (state_of builder.old frame.now.zero front) (steps_of nodes.now) 0).outs) }
    ensures terms { OnOk result (builder.new.terms ≡
        (walk_placed (access_data frame.now) (state_of builder.old frame.now.zero front) (steps_of nodes.now) 0).terms) }
    ensures required { OnOk result (builder.new.required ≡ builder.old.required) }
{
    let mut outs = Vec::with_capacity(alloc, nodes.len())?;
    for (at, node) in nodes.iter().enumerate() {
        front.note(builder, at)?;
        let out = pass(builder, frame, &mut front, at, &node.act)?;
        outs.push(out)?;
    }
    Ok(outs)
}
