// A stage of three levels.
ghost use Rattle.std.specs.Prelude.{◌≡◌, ◌++◌, ◌<◌, length, map, IfOk, OnOk};
ghost use Rattle.dt_model.specs.ModelData.{node_of};
ghost use Rattle.dt_stage.specs.Level.{placed_of, upper_nodes, last_nodes};
ghost use Rattle.dt_stage.specs.Stage.{shape_of, stage_nodes, GoesByLevels};

use crate::levels::{LastNames, Level, Place, UpperNames, last_level, upper_level};
use dt_bits::NoMemory;
use dt_model::Node;
use std::alloc::Global;

/// The names of a stage's nodes, level by level.
#[derive(Clone, Copy, Debug)]
pub struct StageNames {
    pub level2: UpperNames,
    pub level1: UpperNames,
    pub level0: LastNames,
}

/// A stage: its names, the position of its first node, its levels, the nodes that find the address
/// of each level's entry (none where the entry lies in table memory at an address that its level
/// computes), and the nodes for an entry that can't be read and for the stage's fault.
#[derive(Debug, Drop)]
pub struct StagePlan {
    pub names: StageNames,
    pub at: u32,
    pub level2: Level,
    pub level1: Level,
    pub level0: Level,
    pub fetch2: Vec<Node>,
    pub fetch1: Vec<Node>,
    pub fetch0: Vec<Node>,
    pub unread: u32,
    pub fault: u32,
}

/// Appends nodes.
#[tactic(auto, using(crate::proofs::Appends::map_append))]
pub fn extend(nodes: &mut Vec<Node>, more: Vec<Node>) -> Result<(), NoMemory>
    ensures { OnOk result (map node_of nodes.new.items ≡ map node_of nodes.old.items ++ map node_of more.items) }
{
    let mut more = more;
    nodes.append(&mut more)?;
    Ok(())
}

/// Some nodes, and then more.
pub fn chained(nodes: Vec<Node>, more: Vec<Node>) -> Result<Vec<Node>, NoMemory>
    ensures { IfOk result (λ v. map node_of v.items ≡ map node_of nodes.items ++ map node_of more.items) }
{
    let mut nodes = nodes;
    extend(&mut nodes, more)?;
    Ok(nodes)
}

// What finds a level's address, and the level, above level 0.
fn upper_part(
    alloc: Global,
    fetch: Vec<Node>,
    names: UpperNames,
    i: u32,
    level: Level,
    place: Place,
) -> Result<Vec<Node>, NoMemory>
    requires i { i < 4 }
    requires at { place.at < 100000 }
    ensures { IfOk result (λ v. map node_of v.items
        ≡ map node_of fetch.items ++ upper_nodes names i (placed_of level place)) }
{
    chained(fetch, upper_level(alloc, names, i, level, place)?)
}

// What finds a level's address, and the level, at level 0.
fn last_part(
    alloc: Global,
    fetch: Vec<Node>,
    names: LastNames,
    level: Level,
    place: Place,
) -> Result<Vec<Node>, NoMemory>
    requires { place.at < 100000 }
    ensures { IfOk result (λ v. map node_of v.items
        ≡ map node_of fetch.items ++ last_nodes names (placed_of level place)) }
{
    chained(fetch, last_level(alloc, names, level, place)?)
}

/// The nodes of a stage, in the order of its levels: where nodes find a level's address, these, then
/// the level's own. In every graph in which they stand, they go on at the given exits as the stage's
/// walk by level says, with the same entries read.
#[tactic(auto, using(crate::proofs::Appends::three_parts))]
pub fn stage(alloc: Global, plan: StagePlan) -> Result<Vec<Node>, NoMemory>
    requires at { plan.at < 1000 }
    requires fetch2 { length plan.fetch2.items < 1000 }
    requires fetch1 { length plan.fetch1.items < 1000 }
    requires fetch0 { length plan.fetch0.items < 1000 }
    ensures nodes { IfOk result (λ v. map node_of v.items ≡ stage_nodes (shape_of plan)) }
    ensures walks { IfOk result (λ v. GoesByLevels (shape_of plan)) }
{
    let at2 = plan.at + plan.fetch2.len() as u32;
    let at1 = at2 + 5 + plan.fetch1.len() as u32;
    let at0 = at1 + 5 + plan.fetch0.len() as u32;
    let place2 = Place {
        at: at2,
        unread: plan.unread,
        fault: plan.fault,
        next: at2 + 5,
    };
    let place1 = Place {
        at: at1,
        unread: plan.unread,
        fault: plan.fault,
        next: at1 + 5,
    };
    let place0 = Place {
        at: at0,
        unread: plan.unread,
        fault: plan.fault,
        next: plan.fault,
    };
    let names = plan.names;
    let first = upper_part(alloc, plan.fetch2, names.level2, 1, plan.level2, place2)?;
    let second = upper_part(alloc, plan.fetch1, names.level1, 0, plan.level1, place1)?;
    let third = last_part(alloc, plan.fetch0, names.level0, plan.level0, place0)?;
    let upper = chained(first, second)?;
    let nodes = chained(upper, third)?;
    Ok(nodes)
}
