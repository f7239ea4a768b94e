// The nodes before the tables, the results and the faults.
ghost use Rattle.std.specs.Prelude.{◌≡◌, ◌<◌, map, IfOk, true, take, drop};
ghost use Rattle.dt_lex.specs.Names.{spells_name};
ghost use Rattle.dt_model.specs.ModelData.{tree_of, act_of, node_of, branch};
ghost use Rattle.dt_sv39.specs.Shipped.{acts as named_node, head as shipped_head, result as shipped_result, results as shipped_results, by_kind as shipped_by_kind, page_faults as shipped_page_faults, access_faults as shipped_access_faults};

use crate::expressions::{is_bare, is_sign_extended, kind_is, va};
use crate::positions::{ACCESS_FAULT, D12, D16, DBARE, PAGE_FAULT, STAGE};
use dt_bits::NoMemory;
use dt_lex::Name;
use dt_model::{Act, Expr, Node};
use dt_stage::{bit, chained, is, joined, part};
use std::alloc::Global;

/// A node of this name.
pub fn acts(name: &[u8], act: Act) -> Node
    requires { spells_name name.now ≡ true }
    ensures { node_of result ≡ named_node name.now (act_of act) }
{
    Node {
        name: Name::spelled(name),
        act,
    }
}

/// A node of this name, which tests.
pub fn decides(name: &[u8], test: Expr, then_to: u32, other: u32) -> Node
    requires { spells_name name.now ≡ true }
    ensures { node_of result ≡ named_node name.now (branch (tree_of test) then_to other) }
{
    acts(
        name,
        Act::If {
            test,
            then_to,
            other,
        },
    )
}

// Bare or not, and the width of an address where it is.
#[tactic(auto, using(crate::proofs::Joins::joins))]
fn modes(alloc: Global) -> Result<Vec<Node>, NoMemory>
    ensures { IfOk result (λ v. map node_of v.items ≡ take 2 shipped_head) }
{
    let mode = decides(b"mode", is_bare(alloc)?, 1, 3);
    let high = is(alloc, va(alloc, 63, 56)?, 8, 0)?;
    let bare = decides(b"bare", high, DBARE, ACCESS_FAULT);
    Ok(vec![in alloc; mode, bare]?)
}

// The result where it is Bare, and the sign extension of the address where it isn't.
#[tactic(auto, using(crate::proofs::Joins::joins))]
fn addresses(alloc: Global) -> Result<Vec<Node>, NoMemory>
    ensures { IfOk result (λ v. map node_of v.items ≡ drop 2 shipped_head) }
{
    let pa = va(alloc, 55, 0)?;
    let dbare = acts(b"dbare", Act::Done { pa, page: 12 });
    let sign = decides(b"sign", is_sign_extended(alloc)?, STAGE, PAGE_FAULT);
    Ok(vec![in alloc; dbare, sign]?)
}

/// What is decided before the first table: Bare, and the sign extension of the address.
pub fn head(alloc: Global) -> Result<Vec<Node>, NoMemory>
    ensures { IfOk result (λ v. map node_of v.items ≡ shipped_head) }
{
    chained(modes(alloc)?, addresses(alloc)?)
}

// A result: the page number of entry `x` from its bit `lo` on, above the address's bits `low` to 0.
fn result(
    alloc: Global,
    name: &[u8],
    lo: u32,
    x: u32,
    low: u32,
    page: u32,
) -> Result<Node, NoMemory>
    requires { spells_name name.now ≡ true }
    ensures { IfOk result (λ n. node_of n ≡ shipped_result name.now lo x low page) }
{
    let number = part(alloc, 53, lo, Expr::Var(x))?;
    let pa = joined(alloc, number, va(alloc, low, 0)?)?;
    Ok(acts(name, Act::Done { pa, page }))
}

// The results of leaves above level 0.
#[tactic(auto, using(crate::proofs::Joins::joins))]
fn upper_results(alloc: Global) -> Result<Vec<Node>, NoMemory>
    ensures { IfOk result (λ v. map node_of v.items ≡ take 2 shipped_results) }
{
    let d30 = result(alloc, b"d30", 28, 0, 29, 30)?;
    let d21 = result(alloc, b"d21", 19, 1, 20, 21)?;
    Ok(vec![in alloc; d30, d21]?)
}

// The test of N at level 0, and the results there.
#[tactic(auto, using(crate::proofs::Joins::joins))]
fn last_results(alloc: Global) -> Result<Vec<Node>, NoMemory>
    ensures { IfOk result (λ v. map node_of v.items ≡ drop 2 shipped_results) }
{
    let napot = decides(b"napot", bit(alloc, 63, Expr::Var(2))?, D16, D12);
    let d16 = result(alloc, b"d16", 14, 2, 15, 16)?;
    let d12 = result(alloc, b"d12", 10, 2, 11, 12)?;
    Ok(vec![in alloc; napot, d16, d12]?)
}

/// The results of leaves, and the test of N at level 0.
pub fn results(alloc: Global) -> Result<Vec<Node>, NoMemory>
    ensures { IfOk result (λ v. map node_of v.items ≡ shipped_results) }
{
    chained(upper_results(alloc)?, last_results(alloc)?)
}

/// The names of faults by kind: both tests, and the three faults.
#[derive(Clone, Copy)]
pub struct KindNames<'a> {
    pub first: &'a [u8],
    pub fetch: &'a [u8],
    pub second: &'a [u8],
    pub load: &'a [u8],
    pub store: &'a [u8],
}

/// The codes of a fault by the kind of the access.
#[derive(Clone, Copy)]
pub struct KindCodes {
    pub fetch: u32,
    pub load: u32,
    pub store: u32,
}

/// A fault by the kind of the access; its first node stands at `at`.
#[tactic(auto, using(crate::proofs::Joins::joins))]
pub fn by_kind(
    alloc: Global,
    names: KindNames,
    at: u32,
    codes: KindCodes,
) -> Result<Vec<Node>, NoMemory>
    requires first { spells_name names.first.now ≡ true }
    requires fetch { spells_name names.fetch.now ≡ true }
    requires second { spells_name names.second.now ≡ true }
    requires load { spells_name names.load.now ≡ true }
    requires store { spells_name names.store.now ≡ true }
    requires at { at < 1000 }
    ensures { IfOk result (λ v. map node_of v.items ≡ shipped_by_kind names.entry.first.now names.entry.fetch.now names.entry.second.now names.entry.load.now names.entry.store.now at codes.fetch codes.load codes.store) }
{
    let first = decides(names.first, kind_is(alloc, 0)?, at + 1, at + 2);
    let fetch = acts(names.fetch, Act::Fault { code: codes.fetch });
    let second = decides(names.second, kind_is(alloc, 1)?, at + 3, at + 4);
    let load = acts(names.load, Act::Fault { code: codes.load });
    let store = acts(names.store, Act::Fault { code: codes.store });
    Ok(vec![in alloc; first, fetch, second, load, store]?)
}

/// Page faults, by the kind of the access; the first node stands at `at`.
pub fn page_faults(alloc: Global, at: u32) -> Result<Vec<Node>, NoMemory>
    requires { at < 1000 }
    ensures { IfOk result (λ v. map node_of v.items ≡ shipped_page_faults at) }
{
    let names = KindNames {
        first: b"page_fault",
        fetch: b"pf12",
        second: b"page_fault_data",
        load: b"pf13",
        store: b"pf15",
    };
    let codes = KindCodes {
        fetch: 12,
        load: 13,
        store: 15,
    };
    by_kind(alloc, names, at, codes)
}

/// Access faults, by the kind of the access; the first node stands at `at`.
pub fn access_faults(alloc: Global, at: u32) -> Result<Vec<Node>, NoMemory>
    requires { at < 1000 }
    ensures { IfOk result (λ v. map node_of v.items ≡ shipped_access_faults at) }
{
    let names = KindNames {
        first: b"access_fault",
        fetch: b"af1",
        second: b"access_fault_data",
        load: b"af5",
        store: b"af7",
    };
    let codes = KindCodes {
        fetch: 1,
        load: 5,
        store: 7,
    };
    by_kind(alloc, names, at, codes)
}
