// The VS-stage: each entry's address goes through a G-stage of its own.
ghost use Rattle.std.specs.Prelude.{◌≡◌, ◌++◌, ◌<◌, [], ◌∷◌, length, map, IfOk, true};
ghost use Rattle.dt_lex.specs.Names.{spells_name};
ghost use Rattle.dt_model.specs.ModelData.{tree_of, node_of, bind};
ghost use Rattle.dt_stage.specs.Level.{level_of};
ghost use Rattle.dt_stage.specs.Stage.{shape_of, stage_nodes, GoesByLevels};
ghost use Rattle.dt_sv39.specs.Shipped.{acts as named_node, entry_at as entry_of};
ghost use Rattle.dt_sv39x4.specs.Shipped.{wide as widened, guest_nodes as shipped_guest, guest_stage, guest_a, guest_b, guest_c, guest_final, fetch2 as shipped_fetch2, fetch1 as shipped_fetch1, fetch0 as shipped_fetch0, virtual_stage, virtual_results, result_nodes as shipped_result_nodes, head as shipped_head};

use crate::guest::{Guest, guest_nodes};
use crate::names::{a_guest, b_guest, c_guest, g_guest, v_results, v_stage};
use crate::permission::{Permission, level};
use crate::positions::{ACCESS_FAULT, FINAL, G_PAGE, LED, PAGE_FAULT, STAGE, V_PAGE, V0, V1, V2};
use crate::results::{Address, Exits, Results, result_nodes, wide};
use dt_bits::NoMemory;
use dt_model::{Act, Expr, Node};
use dt_stage::{StagePlan, chained, is, part, stage};
use dt_sv39::{acts, decides, entry_at, is_sign_extended, va};
use std::alloc::Global;

const VSATP: u32 = 0;

const PTE2: u32 = 20;

const PTE1: u32 = 21;

const PTE0: u32 = 22;

// The same exit, whatever the page.
fn always(exit: u32) -> Exits
    ensures { result ≡ record { page30 = exit; page21 = exit; page16 = exit; page12 = exit } }
{
    Exits {
        page30: exit,
        page21: exit,
        page16: exit,
        page12: exit,
    }
}

// The G-stages of the entries' addresses, which go on at the entries' reads, and that of the final
// address, which goes on at its page.
fn guest_of_2() -> Guest
    ensures { result ≡ guest_a }
{
    Guest {
        names: a_guest(),
        permission: Permission::Implicit,
        at: 4,
        base: 0,
        bare: V2,
        exits: always(V2),
    }
}

fn guest_of_1() -> Guest
    ensures { result ≡ guest_b }
{
    Guest {
        names: b_guest(),
        permission: Permission::Implicit,
        at: 33,
        base: 5,
        bare: V1,
        exits: always(V1),
    }
}

fn guest_of_0() -> Guest
    ensures { result ≡ guest_c }
{
    Guest {
        names: c_guest(),
        permission: Permission::Implicit,
        at: 62,
        base: 10,
        bare: V0,
        exits: always(V0),
    }
}

fn guest_at_end() -> Guest
    ensures { result ≡ guest_final }
{
    Guest {
        names: g_guest(),
        permission: Permission::Explicit,
        at: FINAL,
        base: 15,
        bare: G_PAGE,
        exits: Exits {
            page30: G_PAGE + 1,
            page21: G_PAGE + 2,
            page16: G_PAGE + 3,
            page12: G_PAGE + 4,
        },
    }
}

/// The G-stage of the final address.
pub fn final_nodes(alloc: Global) -> Result<Vec<Node>, NoMemory>
    ensures nodes { IfOk result (λ v. map node_of v.items ≡ shipped_guest guest_final) }
    ensures walks { IfOk result (λ v. GoesByLevels (guest_stage guest_final)) }
{
    guest_nodes(alloc, guest_at_end())
}

// An entry's address into the first variable of its G-stage, which follows.
#[tactic(auto, using(crate::proofs::Joins::joins))]
fn address(
    alloc: Global,
    name: &[u8],
    ppn: Expr,
    index: Expr,
    base: u32,
    next: u32,
) -> Result<Vec<Node>, NoMemory>
    requires { spells_name name.now ≡ true }
    ensures { IfOk result (λ v. map node_of v.items ≡ named_node name.now (bind base (widened (entry_of (tree_of ppn) (tree_of index))) next) ∷ []) }
{
    let value = wide(alloc, entry_at(alloc, ppn, index)?)?;
    let node = acts(
        name,
        Act::Let {
            var: base,
            value,
            next,
        },
    );
    Ok(vec![in alloc; node]?)
}

fn guest_nodes_2(alloc: Global) -> Result<Vec<Node>, NoMemory>
    ensures nodes { IfOk result (λ v. map node_of v.items ≡ shipped_guest guest_a) }
    ensures walks { IfOk result (λ v. GoesByLevels (guest_stage guest_a)) }
{
    guest_nodes(alloc, guest_of_2())
}

fn fetch_2(alloc: Global) -> Result<Vec<Node>, NoMemory>
    ensures nodes { IfOk result (λ v. map node_of v.items ≡ shipped_fetch2) }
    ensures walks { IfOk result (λ v. GoesByLevels (guest_stage guest_a)) }
{
    let root = part(alloc, 43, 0, Expr::Reg(VSATP))?;
    let first = address(alloc, b"a_address", root, va(alloc, 38, 30)?, 0, 4)?;
    let all = chained(first, guest_nodes_2(alloc)?)?;
    Ok(all)
}

fn guest_nodes_1(alloc: Global) -> Result<Vec<Node>, NoMemory>
    ensures nodes { IfOk result (λ v. map node_of v.items ≡ shipped_guest guest_b) }
    ensures walks { IfOk result (λ v. GoesByLevels (guest_stage guest_b)) }
{
    guest_nodes(alloc, guest_of_1())
}

fn fetch_1(alloc: Global) -> Result<Vec<Node>, NoMemory>
    ensures nodes { IfOk result (λ v. map node_of v.items ≡ shipped_fetch1) }
    ensures walks { IfOk result (λ v. GoesByLevels (guest_stage guest_b)) }
{
    let table = part(alloc, 53, 10, Expr::Var(PTE2))?;
    let first = address(alloc, b"b_address", table, va(alloc, 29, 21)?, 5, 33)?;
    let all = chained(first, guest_nodes_1(alloc)?)?;
    Ok(all)
}

fn guest_nodes_0(alloc: Global) -> Result<Vec<Node>, NoMemory>
    ensures nodes { IfOk result (λ v. map node_of v.items ≡ shipped_guest guest_c) }
    ensures walks { IfOk result (λ v. GoesByLevels (guest_stage guest_c)) }
{
    guest_nodes(alloc, guest_of_0())
}

fn fetch_0(alloc: Global) -> Result<Vec<Node>, NoMemory>
    ensures nodes { IfOk result (λ v. map node_of v.items ≡ shipped_fetch0) }
    ensures walks { IfOk result (λ v. GoesByLevels (guest_stage guest_c)) }
{
    let table = part(alloc, 53, 10, Expr::Var(PTE1))?;
    let first = address(alloc, b"c_address", table, va(alloc, 20, 12)?, 10, 62)?;
    let all = chained(first, guest_nodes_0(alloc)?)?;
    Ok(all)
}

fn plan(alloc: Global) -> Result<StagePlan, NoMemory>
    ensures shape { IfOk result (λ p. shape_of p ≡ virtual_stage) }
    ensures a { IfOk result (λ p. GoesByLevels (guest_stage guest_a)) }
    ensures b { IfOk result (λ p. GoesByLevels (guest_stage guest_b)) }
    ensures c { IfOk result (λ p. GoesByLevels (guest_stage guest_c)) }
{
    Ok(StagePlan {
        names: v_stage(),
        at: STAGE,
        level2: level(alloc, Permission::Virtual, PTE2, Expr::Var(4), 12, LED)?,
        level1: level(alloc, Permission::Virtual, PTE1, Expr::Var(9), 12, LED + 1)?,
        level0: level(alloc, Permission::Virtual, PTE0, Expr::Var(14), 12, LED + 2)?,
        fetch2: fetch_2(alloc)?,
        fetch1: fetch_1(alloc)?,
        fetch0: fetch_0(alloc)?,
        unread: ACCESS_FAULT,
        fault: PAGE_FAULT,
    })
}

/// The nodes of the VS-stage with its G-stages, each of which goes on as its walk by level says.
pub fn virtual_nodes(alloc: Global) -> Result<Vec<Node>, NoMemory>
    ensures nodes { IfOk result (λ v. map node_of v.items ≡ stage_nodes virtual_stage) }
    ensures v { IfOk result (λ v. GoesByLevels virtual_stage) }
    ensures a { IfOk result (λ v. GoesByLevels (guest_stage guest_a)) }
    ensures b { IfOk result (λ v. GoesByLevels (guest_stage guest_b)) }
    ensures c { IfOk result (λ v. GoesByLevels (guest_stage guest_c)) }
{
    let plan = plan(alloc)?;
    stage(alloc, plan)
}

/// The nodes of the VS-stage's results.
pub fn led_nodes(alloc: Global) -> Result<Vec<Node>, NoMemory>
    ensures { IfOk result (λ v. map node_of v.items ≡ shipped_result_nodes virtual_results) }
{
    let exits = Exits {
        page30: V_PAGE + 1,
        page21: V_PAGE + 2,
        page16: V_PAGE + 3,
        page12: V_PAGE + 4,
    };
    let ends = Results {
        names: v_results(),
        at: LED,
        address: Address::OfAccess,
        entry: PTE2,
        out: 15,
        exits,
    };
    result_nodes(alloc, ends)
}

/// What is decided before the first table: Bare, and the sign extension of the address.
#[tactic(auto, using(crate::proofs::Joins::joins))]
pub fn head(alloc: Global) -> Result<Vec<Node>, NoMemory>
    ensures { IfOk result (λ v. map node_of v.items ≡ shipped_head) }
{
    let bare = is(alloc, Expr::Reg(VSATP), 64, 0)?;
    let mode = decides(b"mode", bare, 1, 2);
    let whole = acts(
        b"bare",
        Act::Let {
            var: 15,
            value: Expr::Input(0),
            next: V_PAGE,
        },
    );
    let sign = decides(b"sign", is_sign_extended(alloc)?, STAGE, PAGE_FAULT);
    Ok(vec![in alloc; mode, whole, sign]?)
}
