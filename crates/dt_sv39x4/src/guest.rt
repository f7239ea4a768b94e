// A G-stage.
ghost use Rattle.std.specs.Prelude.{◌≡◌, ◌+◌, ◌++◌, ◌<◌, [], ◌∷◌, map, IfOk};
ghost use Rattle.dt_model.specs.ModelData.{tree_of, node_of, var};
ghost use Rattle.dt_stage.specs.Level.{level_of};
ghost use Rattle.dt_stage.specs.Stage.{shape_of, stage_nodes, GoesByLevels};
ghost use Rattle.dt_stage.specs.Trees.{part as slice};
ghost use Rattle.dt_sv39.specs.Shipped.{entry_at as entry_of};
ghost use Rattle.dt_sv39x4.specs.Shipped.{hgatp as root, is_bare as bare, guest_mode, guest_high, guest_whole, guest_range, guest_head, guest_stage as shipped_stage, guest_nodes as shipped_nodes};

use crate::permission::{Permission, level};
use crate::positions::{ACCESS_FAULT, GUEST_FAULT};
use crate::results::{Address, Exits, ResultNames, Results, lets, result_nodes};
use dt_bits::NoMemory;
use dt_lex::Name;
use dt_model::{Expr, Node};
use dt_stage::{Level, StageNames, StagePlan, chained, decision, is, joined, part, stage};
use dt_sv39::entry_at;
use std::alloc::Global;

const HGATP: u32 = 1;

/// The names of a G-stage's nodes: Bare or not, the width of the address where it is Bare, the result
/// there, the range of addresses where it isn't, the levels, and their results.
#[derive(Clone, Copy, Debug)]
pub struct GuestNames {
    pub mode: Name,
    pub high: Name,
    pub bare: Name,
    pub range: Name,
    pub stage: StageNames,
    pub results: ResultNames,
}

/// A G-stage: its names, what its leaves are checked for, the position of its first node, the first of
/// its five variables (the address, the entries of levels 2, 1 and 0, the result), and where it goes
/// on, where it is Bare and by the exponent of its page.
#[derive(Clone, Copy, Debug)]
pub struct Guest {
    pub names: GuestNames,
    pub permission: Permission,
    pub at: u32,
    pub base: u32,
    pub bare: u32,
    pub exits: Exits,
}

// `hgatp` is 0.
fn is_bare(alloc: Global) -> Result<Expr, NoMemory>
    ensures { IfOk result (λ e. tree_of e ≡ bare) }
{
    is(alloc, Expr::Reg(HGATP), 64, 0)
}

fn mode(alloc: Global, g: Guest) -> Result<Node, NoMemory>
    requires { g.at < 1000 }
    ensures { IfOk result (λ n. node_of n ≡ guest_mode g) }
{
    let bare = is_bare(alloc)?;
    Ok(decision(g.names.mode, bare, g.at + 1, g.at + 3))
}

fn high(alloc: Global, g: Guest) -> Result<Node, NoMemory>
    requires { g.at < 1000 }
    ensures { IfOk result (λ n. node_of n ≡ guest_high g) }
{
    let top = is(alloc, part(alloc, 63, 56, Expr::Var(g.base))?, 8, 0)?;
    Ok(decision(g.names.high, top, g.at + 2, ACCESS_FAULT))
}

fn whole(alloc: Global, g: Guest) -> Result<Node, NoMemory>
    requires { g.base < 1000 }
    ensures { IfOk result (λ n. node_of n ≡ guest_whole g) }
{
    let whole = part(alloc, 55, 0, Expr::Var(g.base))?;
    Ok(lets(g.names.bare, g.base + 4, whole, g.bare))
}

fn range(alloc: Global, g: Guest) -> Result<Node, NoMemory>
    requires { g.at < 1000 }
    ensures { IfOk result (λ n. node_of n ≡ guest_range g) }
{
    let small = is(alloc, part(alloc, 63, 41, Expr::Var(g.base))?, 23, 0)?;
    Ok(decision(g.names.range, small, g.at + 4, GUEST_FAULT))
}

// Bare or not, and the width of an address where it is.
#[tactic(auto, using(crate::proofs::Joins::joins))]
fn modes(alloc: Global, g: Guest) -> Result<Vec<Node>, NoMemory>
    requires { g.at < 1000 }
    ensures { IfOk result (λ v. map node_of v.items ≡ guest_mode g ∷ guest_high g ∷ []) }
{
    let mode = mode(alloc, g)?;
    let high = high(alloc, g)?;
    Ok(vec![in alloc; mode, high]?)
}

// The result where it is Bare, and the range of addresses where it isn't.
#[tactic(auto, using(crate::proofs::Joins::joins))]
fn addresses(alloc: Global, g: Guest) -> Result<Vec<Node>, NoMemory>
    requires at { g.at < 1000 }
    requires base { g.base < 1000 }
    ensures { IfOk result (λ v. map node_of v.items ≡ guest_whole g ∷ guest_range g ∷ []) }
{
    let whole = whole(alloc, g)?;
    let range = range(alloc, g)?;
    Ok(vec![in alloc; whole, range]?)
}

// What is decided before the first table.
fn head(alloc: Global, g: Guest) -> Result<Vec<Node>, NoMemory>
    requires at { g.at < 1000 }
    requires base { g.base < 1000 }
    ensures { IfOk result (λ v. map node_of v.items ≡ guest_head g) }
{
    chained(modes(alloc, g)?, addresses(alloc, g)?)
}

// The root's table has 2^11 entries, in a block of 2^14 bytes.
fn level_2(alloc: Global, g: Guest) -> Result<Level, NoMemory>
    requires at { g.at < 1000 }
    requires base { g.base < 1000 }
    ensures { IfOk result (λ l. level_of l ≡ (shipped_stage g).level2) }
{
    let table = part(alloc, 43, 2, Expr::Reg(HGATP))?;
    let index = part(alloc, 40, 30, Expr::Var(g.base))?;
    let zeros = Expr::Value { width: 3, bits: 0 };
    let cell = joined(alloc, table, joined(alloc, index, zeros)?)?;
    level(alloc, g.permission, g.base + 1, cell, 14, g.at + 18)
}

fn level_1(alloc: Global, g: Guest) -> Result<Level, NoMemory>
    requires at { g.at < 1000 }
    requires base { g.base < 1000 }
    ensures { IfOk result (λ l. level_of l ≡ (shipped_stage g).level1) }
{
    let entry = g.base + 1;
    let results = g.at + 18;
    let table = part(alloc, 53, 10, Expr::Var(entry))?;
    let index = part(alloc, 29, 21, Expr::Var(g.base))?;
    let cell = entry_at(alloc, table, index)?;
    level(alloc, g.permission, entry + 1, cell, 12, results + 1)
}

fn level_0(alloc: Global, g: Guest) -> Result<Level, NoMemory>
    requires at { g.at < 1000 }
    requires base { g.base < 1000 }
    ensures { IfOk result (λ l. level_of l ≡ (shipped_stage g).level0) }
{
    let entry = g.base + 1;
    let results = g.at + 18;
    let table = part(alloc, 53, 10, Expr::Var(entry + 1))?;
    let index = part(alloc, 20, 12, Expr::Var(g.base))?;
    let cell = entry_at(alloc, table, index)?;
    level(alloc, g.permission, entry + 2, cell, 12, results + 2)
}

fn plan(alloc: Global, g: Guest) -> Result<StagePlan, NoMemory>
    requires at { g.at < 900 }
    requires base { g.base < 900 }
    ensures { IfOk result (λ p. shape_of p ≡ shipped_stage g) }
{
    Ok(StagePlan {
        names: g.names.stage,
        at: g.at + 4,
        level2: level_2(alloc, g)?,
        level1: level_1(alloc, g)?,
        level0: level_0(alloc, g)?,
        fetch2: Vec::new(alloc),
        fetch1: Vec::new(alloc),
        fetch0: Vec::new(alloc),
        unread: ACCESS_FAULT,
        fault: GUEST_FAULT,
    })
}

fn tables(alloc: Global, g: Guest) -> Result<Vec<Node>, NoMemory>
    requires at { g.at < 900 }
    requires base { g.base < 900 }
    ensures nodes { IfOk result (λ v. map node_of v.items ≡ stage_nodes (shipped_stage g)) }
    ensures walks { IfOk result (λ v. GoesByLevels (shipped_stage g)) }
{
    stage(alloc, plan(alloc, g)?)
}

/// The nodes of a G-stage, whose levels go on as the walk by level says.
pub fn guest_nodes(alloc: Global, g: Guest) -> Result<Vec<Node>, NoMemory>
    requires at { g.at < 900 }
    requires base { g.base < 900 }
    ensures nodes { IfOk result (λ v. map node_of v.items ≡ shipped_nodes g) }
    ensures walks { IfOk result (λ v. GoesByLevels (shipped_stage g)) }
{
    let ends = Results {
        names: g.names.results,
        at: g.at + 18,
        address: Address::OfGuest(g.base),
        entry: g.base + 1,
        out: g.base + 4,
        exits: g.exits,
    };
    let first = head(alloc, g)?;
    let levels = chained(tables(alloc, g)?, result_nodes(alloc, ends)?)?;
    let all = chained(first, levels)?;
    Ok(all)
}
