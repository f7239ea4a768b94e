ghost use Rattle.std.specs.Prelude.{◌≡◌, ℕ, ◌+◌, ◌<◌, ◌≤◌, min, ◌==◌, ◌&&◌, ◌||◌, ◌↔◌, Bool, not, true, false, cond, eqb, ltb, Option, Some, None, length, map, All, IfOk, IsTrue, slice_index_or};
ghost use Rattle.dt_model.specs.declared.flow.NodeSets.{NodeSets as Sets};
ghost use Rattle.dt_model.specs.ModelData.{act_of};
ghost use Rattle.dt_model.specs.Paths.{exit, SomePath};
ghost use Rattle.dt_model.specs.Flow.{found, past, arrives, any_side, steps_of};

use crate::limits::MOST_VARS;
use crate::set::VarSet;
use crate::{Act, Node};
use std::alloc::{AllocError, Global};

/// For a node: the variables that some path to it leaves, and those that some path to it assigns.
#[derive(Clone, Copy, Debug)]
pub struct NodeSets {
    pub left: VarSet,
    pub assigned: VarSet,
}

/// The sets past an edge that assigns this variable, or none.
fn passed(sets: &NodeSets, assigns: Option<u32>) -> NodeSets
    ensures { (v : ℕ) (b : Bool) → v < 512 → found result v b ≡ past assigns v b (found sets.now v) }
{
    match assigns {
        Some(var) if var < MOST_VARS => {
            let reached = sets.left.contains(var) || sets.assigned.contains(var);
            let left = sets.left.without(var);
            let assigned = if reached {
                sets.assigned.with(var)
            } else {
                sets.assigned
            };
            NodeSets { left, assigned }
        }
        _ => *sets,
    }
}

/// The sets of the paths of both.
fn joined(a: &NodeSets, b: &NodeSets) -> NodeSets
    ensures { (v : ℕ) (c : Bool) → v < 512 → found result v c ≡ (found a.now v c || found b.now v c) }
{
    NodeSets {
        left: a.left.union(&b.left),
        assigned: a.assigned.union(&b.assigned),
    }
}

/// The sets past one edge, where it leads to a later node.
fn lead(sets: &mut [NodeSets], from: usize, to: u32, assigns: Option<u32>)
    requires { from < length sets.old }
    ensures { (n v : ℕ) (b : Bool) (d : Sets) → n < length sets.old → v < 512 → found (slice_index_or sets.new n d) v b ≡ (found (slice_index_or sets.old n d) v b || arrives (Some (record { to = to; assigns = assigns })) from n v b (found (slice_index_or sets.old from d) v)) }
{
    let at = to as usize;
    if from < at && at < sets.len() {
        let next = passed(&sets[from], assigns);
        sets[at] = joined(&sets[at], &next);
    }
}

/// The sets past the node's edges.
fn follow(sets: &mut [NodeSets], from: usize, act: &Act)
    requires { from < length sets.old }
    ensures { (n v : ℕ) (b : Bool) (d : Sets) → n < length sets.old → v < 512 → found (slice_index_or sets.new n d) v b ≡ (found (slice_index_or sets.old n d) v b || any_side (λ s. arrives (exit (act_of act.now) s) from n v b (found (slice_index_or sets.old from d) v))) }
{
    match act {
        Act::Let { var, next, .. } => lead(sets, from, *next, Some(*var)),
        Act::Read {
            var,
            then_to,
            other: misses,
            ..
        } => {
            lead(sets, from, *then_to, Some(*var));
            lead(sets, from, *misses, None);
        }
        Act::If { then_to, other, .. } => {
            lead(sets, from, *then_to, None);
            lead(sets, from, *other, None);
        }
        Act::Fault { .. } | Act::Done { .. } => {}
    }
}

/// The sets before any node's edges: the empty path leads to node 0, and leaves each variable.
fn begun(alloc: Global, count: usize) -> Result<Vec<NodeSets>, AllocError>
    ensures len { IfOk result (λ sets. length sets.items ≡ count) }
    ensures each { IfOk result (λ sets. (n v : ℕ) (b : Bool) (d : Sets) → n < count → v < 512 → found (slice_index_or sets.items n d) v b ≡ (n == 0 && not b)) }
{
    let mut sets = Vec::new(alloc);
    for i in 0..count {
        let left = if i == 0 {
            VarSet::all()
        } else {
            VarSet::empty()
        };
        sets.push(NodeSets {
            left,
            assigned: VarSet::empty(),
        })?;
    }
    Ok(sets)
}

/// For each of the first 1025 nodes the variables that some path to it leaves, and those that
/// some path to it assigns. It takes one step for each edge, over four words of 128 bits.
pub fn flows(alloc: Global, nodes: &[Node]) -> Result<Vec<NodeSets>, AllocError>
    ensures len { IfOk result (λ sets. length sets.items ≡ min (length nodes.now) 1025) }
    ensures sets { IfOk result (λ sets. (n v : ℕ) (b : Bool) (d : Sets) → n < length sets.items → v < 512 → (found (slice_index_or sets.items n d) v b ≡ true) ↔ SomePath (steps_of nodes.now) n v b) }
{
    let count = nodes.len().min(1025);
    let mut sets = begun(alloc, count)?;
    for k in 0..count {
        let node = &nodes[k];
        follow(sets.as_mut_slice(), k, &node.act);
    }
    Ok(sets)
}
