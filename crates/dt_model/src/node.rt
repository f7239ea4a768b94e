ghost use Rattle.std.specs.Prelude.{◌≡◌, ◌↔◌, ℕ, ◌+◌, ◌<◌, ◌≤◌, Bool, true, false, not, ◌&&◌, ◌||◌, ◌==◌, nat_lt, nat_le, List, map, take, length, Option, Some, None, IsTrue, slice_index_or};
ghost use Rattle.dt_model.specs.declared.flow.NodeSets.{NodeSets as Sets};
ghost use Rattle.dt_model.specs.declared.model.Node.{Node as Given};
ghost use Rattle.dt_model.specs.ModelData.{data_of, node_of, ModelData};
ghost use Rattle.dt_model.specs.Flow.{found};
ghost use Rattle.dt_model.specs.declared.refusal.ModelRefusal.TheVariants.{NameTwice, TooMany};
ghost use Rattle.dt_model.specs.Paths.{SomePath};
ghost use Rattle.dt_model.specs.Faults.{NodeBreaks, steps};
ghost use Rattle.dt_model.specs.Ground.{IsDeclared};
ghost use Rattle.dt_model.specs.Refusals.{IsSmallest, flag, Tells, SetsTell};

use crate::acting::{
    act_again, act_back, act_deep, act_left, act_mismatch, act_no_node, act_range, act_unknown,
};
use crate::flags::Flags;
use crate::flow::NodeSets;
use crate::{Model, Names};

/// Which refusals apply at a node.
pub fn node_flags(m: &Model, i: usize, sets: &NodeSets, taken: bool, too_many: bool) -> Flags
    requires within { i < length m.now.nodes }
    requires declared { IsDeclared m.now }
    requires sets { SetsTell (data_of m.now) i sets.now }
    requires named { (d : Given) → IsTrue taken ↔ NodeBreaks (data_of m.now) i (node_of (slice_index_or m.now.nodes i d)) NameTwice }
    requires many { (d : Given) → IsTrue too_many ↔ NodeBreaks (data_of m.now) i (node_of (slice_index_or m.now.nodes i d)) TooMany }
    ensures { (d : Given) → Tells result (NodeBreaks (data_of m.now) i (node_of (slice_index_or m.now.nodes i d))) }
{
    let names = Names {
        regs: m.regs.as_slice(),
        inputs: m.inputs.as_slice(),
        vars: m.vars.as_slice(),
    };
    let nodes = m.nodes.as_slice();
    let count = m.vars.len() as u32;
    let node = &nodes[i];
    Flags {
        name_twice: taken,
        unknown_name: act_unknown(&node.act, &names),
        width_mismatch: act_mismatch(&node.act, &names, m.word, m.address),
        width_range: act_range(&node.act, &names, m.word, m.address),
        back_edge: act_back(&node.act, i, nodes.len()),
        unassigned: act_left(&node.act, &sets.left, count),
        assigned_twice: act_again(&node.act, &sets.assigned, count),
        no_node: act_no_node(&node.act, nodes.len()),
        too_many,
        too_deep: act_deep(&node.act),
    }
}
