// The stage: three levels of tables.
ghost use Rattle.std.specs.Prelude.{◌≡◌, map, IfOk};
ghost use Rattle.dt_model.specs.ModelData.{tree_of, node_of};
ghost use Rattle.dt_stage.specs.Level.{level_of};
ghost use Rattle.dt_stage.specs.Stage.{shape_of, stage_nodes, GoesByLevels};
ghost use Rattle.dt_sv39.specs.Shipped.{level as placed_level, entry_at as entry_of, stage_names, stage as shipped_stage};

use crate::expressions::{entry_at, kind_is, permits, satp, va};
use crate::positions::{ACCESS_FAULT, D21, D30, NAPOT, PAGE_FAULT, STAGE};
use dt_bits::NoMemory;
use dt_lex::Name;
use dt_model::{Expr, Node};
use dt_stage::{LastNames, Level, StageNames, StagePlan, UpperNames, part, stage};
use std::alloc::Global;

fn names() -> StageNames
    ensures { result ≡ stage_names }
{
    StageNames {
        level2: UpperNames {
            read: Name::spelled(b"r2"),
            invalid: Name::spelled(b"invalid2"),
            pointer: Name::spelled(b"pointer2"),
            bad_pointer: Name::spelled(b"bad_pointer2"),
            bad_leaf: Name::spelled(b"bad_leaf2"),
        },
        level1: UpperNames {
            read: Name::spelled(b"r1"),
            invalid: Name::spelled(b"invalid1"),
            pointer: Name::spelled(b"pointer1"),
            bad_pointer: Name::spelled(b"bad_pointer1"),
            bad_leaf: Name::spelled(b"bad_leaf1"),
        },
        level0: LastNames {
            read: Name::spelled(b"r0"),
            invalid: Name::spelled(b"invalid0"),
            pointer: Name::spelled(b"pointer0"),
            bad_leaf: Name::spelled(b"bad_leaf0"),
        },
    }
}

// A level: the variable of its entry, the page number of its table, its index, and its leaves' node.
fn level(alloc: Global, entry: u32, ppn: Expr, index: Expr, leaf: u32) -> Result<Level, NoMemory>
    ensures { IfOk result (λ l. level_of l ≡ placed_level entry (entry_of (tree_of ppn) (tree_of index)) leaf) }
{
    Ok(Level {
        entry,
        cell: entry_at(alloc, ppn, index)?,
        granule: 12,
        permits: permits(alloc, entry)?,
        stores: kind_is(alloc, 2)?,
        leaf,
    })
}

fn level_2(alloc: Global) -> Result<Level, NoMemory>
    ensures { IfOk result (λ l. level_of l ≡ shipped_stage.level2) }
{
    let root = satp(alloc, 43, 0)?;
    level(alloc, 0, root, va(alloc, 38, 30)?, D30)
}

fn level_1(alloc: Global) -> Result<Level, NoMemory>
    ensures { IfOk result (λ l. level_of l ≡ shipped_stage.level1) }
{
    let table = part(alloc, 53, 10, Expr::Var(0))?;
    level(alloc, 1, table, va(alloc, 29, 21)?, D21)
}

fn level_0(alloc: Global) -> Result<Level, NoMemory>
    ensures { IfOk result (λ l. level_of l ≡ shipped_stage.level0) }
{
    let table = part(alloc, 53, 10, Expr::Var(1))?;
    level(alloc, 2, table, va(alloc, 20, 12)?, NAPOT)
}

fn plan(alloc: Global) -> Result<StagePlan, NoMemory>
    ensures { IfOk result (λ p. shape_of p ≡ shipped_stage) }
{
    Ok(StagePlan {
        names: names(),
        at: STAGE,
        level2: level_2(alloc)?,
        level1: level_1(alloc)?,
        level0: level_0(alloc)?,
        fetch2: Vec::new(alloc),
        fetch1: Vec::new(alloc),
        fetch0: Vec::new(alloc),
        unread: ACCESS_FAULT,
        fault: PAGE_FAULT,
    })
}

/// The nodes of the stage, which go on as its walk by level says.
pub fn table_nodes(alloc: Global) -> Result<Vec<Node>, NoMemory>
    ensures nodes { IfOk result (λ v. map node_of v.items ≡ stage_nodes shipped_stage) }
    ensures walks { IfOk result (λ v. GoesByLevels shipped_stage) }
{
    stage(alloc, plan(alloc)?)
}
