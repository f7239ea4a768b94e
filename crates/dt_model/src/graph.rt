ghost use Rattle.std.specs.Prelude.{◌≡◌, ◌↔◌, ◌+◌, ◌<◌, ◌≤◌, length, IsTrue, IfOk, IfNone, slice_index_or};
ghost use Rattle.dt_model.specs.declared.model.Node.{Node as Given};
ghost use Rattle.dt_model.specs.declared.refusal.ModelRefusal.TheVariants.{NameTwice, TooMany};
ghost use Rattle.dt_model.specs.declared.refusal.Place.TheVariants.{Node as At};
ghost use Rattle.dt_model.specs.ModelData.{data_of, node_of};
ghost use Rattle.dt_model.specs.Faults.{Breaks, NodeBreaks, rule_operators};
ghost use Rattle.dt_model.specs.Ground.{IsDeclared};
ghost use Rattle.dt_model.specs.Refusals.{IsSmallest, IsFirst, SetsTell};
ghost use Rattle.dt_model.specs.Prefix.{IsPrefix};

use crate::acting::act_operators;
use crate::flags::smallest;
use crate::flow::{NodeSets, flows};
use crate::naming::declare;
use crate::node::node_flags;
use crate::prefix::{Prefix, Tally, is_crowded, tallied};
use crate::{Model, ModelRefusal};
use indexmap::IndexSet;
use std::alloc::{AllocError, Global};

/// The refusal of one node.
fn node_fault(
    m: &Model,
    i: usize,
    sets: &NodeSets,
    taken: bool,
    too_many: bool,
) -> Option<ModelRefusal>
    requires within { i < length m.now.nodes }
    requires declared { IsDeclared m.now }
    requires sets { SetsTell (data_of m.now) i sets.now }
    requires named { (d : Given) → IsTrue taken ↔ NodeBreaks (data_of m.now) i (node_of (slice_index_or m.now.nodes i d)) NameTwice }
    requires many { (d : Given) → IsTrue too_many ↔ NodeBreaks (data_of m.now) i (node_of (slice_index_or m.now.nodes i d)) TooMany }
    ensures { IsSmallest (Breaks (data_of m.now) (At i)) result }
{
    smallest(node_flags(m, i, sets, taken, too_many))
}

/// The refusal of the next node. Where there is none, the prefix has the node now.
fn next_fault(
    m: &Model,
    i: usize,
    sets: &NodeSets,
    prefix: &mut Prefix,
) -> Result<Option<ModelRefusal>, AllocError>
    requires within { i < length m.now.nodes }
    requires declared { IsDeclared m.now }
    requires sets { SetsTell (data_of m.now) i sets.now }
    requires prefix { IsPrefix (data_of m.now) i prefix.old }
    ensures fault { IfOk result (IsSmallest (Breaks (data_of m.now) (At i))) }
    ensures prefix { IfOk result (λ f. IfNone f (IsPrefix (data_of m.now) (i + 1) prefix.new)) }
{
    let node = &m.nodes.as_slice()[i];
    let own = act_operators(&node.act);
    let tally = tallied(prefix.tally, &node.act, own);
    let new = declare(&mut prefix.names, node.name)?;
    prefix.tally = tally;
    Ok(node_fault(m, i, sets, !new, is_crowded(i, own, tally)))
}

/// The first node that is at fault, where the rules have so many operators.
pub fn nodes_fault(
    alloc: Global,
    m: &Model,
    rules: u32,
) -> Result<Option<(u32, ModelRefusal)>, AllocError>
    requires declared { IsDeclared m.now }
    requires rules { rules ≡ rule_operators (data_of m.now).legal_context + rule_operators (data_of m.now).legal_access }
    requires few { rules ≤ 8192 }
    ensures { IfOk result (IsFirst (λ i. Breaks (data_of m.now) (At i))) }
{
    let nodes = m.nodes.as_slice();
    let sets = flows(alloc, nodes)?;
    let tally = Tally {
        reads: 0,
        dones: 0,
        operators: rules,
    };
    let names = IndexSet::new(alloc);
    let mut prefix = Prefix { names, tally };
    for i in 0..nodes.len() {
        if let Some(refusal) = next_fault(m, i, &sets[i], &mut prefix)? {
            return Ok(Some((i as u32, refusal)));
        }
    }
    Ok(None)
}
