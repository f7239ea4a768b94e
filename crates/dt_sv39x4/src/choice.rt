// The pages of both stages, the choice of the smaller, and the results.
ghost use Rattle.std.specs.Prelude.{◌≡◌, map, IfOk, true, take, drop};
ghost use Rattle.dt_lex.specs.Names.{spells_name};
ghost use Rattle.dt_model.specs.ModelData.{tree_of, node_of};
ghost use Rattle.dt_sv39x4.specs.Shipped.{page_is as page_node, virtual_pages as shipped_virtual_pages, guest_pages as shipped_guest_pages, one_is as one_of, no_page as no_page_node, page_chosen, choice as shipped_choice, result as result_node, results as shipped_results};

use crate::positions::{CHOICE, DONE, FINAL};
use dt_bits::NoMemory;
use dt_model::{Act, Expr, Node};
use dt_stage::{both, chained, either, is};
use dt_sv39::{acts, decides};
use std::alloc::Global;

const V_PAGE: u32 = 23;

const G_PAGE: u32 = 24;

const PA: u32 = 19;

// The exponent of a stage's page, 0 for none.
fn page_is(name: &[u8], var: u32, page: u128, next: u32) -> Node
    requires { spells_name name.now ≡ true }
    ensures { node_of result ≡ page_node name.now var page next }
{
    let value = Expr::Value {
        width: 5,
        bits: page,
    };
    acts(name, Act::Let { var, value, next })
}

/// The pages of the VS-stage.
#[tactic(auto, using(crate::proofs::Joins::joins))]
pub fn virtual_pages(alloc: Global) -> Result<Vec<Node>, NoMemory>
    ensures { IfOk result (λ v. map node_of v.items ≡ shipped_virtual_pages) }
{
    let none = page_is(b"v_page0", V_PAGE, 0, FINAL);
    let page30 = page_is(b"v_page30", V_PAGE, 30, FINAL);
    let page21 = page_is(b"v_page21", V_PAGE, 21, FINAL);
    let page16 = page_is(b"v_page16", V_PAGE, 16, FINAL);
    let page12 = page_is(b"v_page12", V_PAGE, 12, FINAL);
    Ok(vec![in alloc; none, page30, page21, page16, page12]?)
}

/// The pages of the final address's G-stage.
#[tactic(auto, using(crate::proofs::Joins::joins))]
pub fn guest_pages(alloc: Global) -> Result<Vec<Node>, NoMemory>
    ensures { IfOk result (λ v. map node_of v.items ≡ shipped_guest_pages) }
{
    let none = page_is(b"g_page0", G_PAGE, 0, CHOICE);
    let page30 = page_is(b"g_page30", G_PAGE, 30, CHOICE);
    let page21 = page_is(b"g_page21", G_PAGE, 21, CHOICE);
    let page16 = page_is(b"g_page16", G_PAGE, 16, CHOICE);
    let page12 = page_is(b"g_page12", G_PAGE, 12, CHOICE);
    Ok(vec![in alloc; none, page30, page21, page16, page12]?)
}

// One of the two pages is this one.
fn one_is(alloc: Global, page: u128) -> Result<Expr, NoMemory>
    ensures { IfOk result (λ e. tree_of e ≡ one_of page) }
{
    let of_first = is(alloc, Expr::Var(V_PAGE), 5, page)?;
    let of_second = is(alloc, Expr::Var(G_PAGE), 5, page)?;
    either(alloc, of_first, of_second)
}

// Neither stage has a page.
fn no_page(alloc: Global) -> Result<Node, NoMemory>
    ensures { IfOk result (λ n. node_of n ≡ no_page_node) }
{
    let no_first = is(alloc, Expr::Var(V_PAGE), 5, 0)?;
    let no_second = is(alloc, Expr::Var(G_PAGE), 5, 0)?;
    let none = both(alloc, no_first, no_second)?;
    Ok(decides(b"no_page", none, DONE, CHOICE + 1))
}

// The smaller page is this one, as no smaller one is.
fn chosen(
    alloc: Global,
    name: &[u8],
    page: u128,
    then_to: u32,
    other: u32,
) -> Result<Node, NoMemory>
    requires { spells_name name.now ≡ true }
    ensures { IfOk result (λ n. node_of n ≡ page_chosen name.now page then_to other) }
{
    let is_chosen = one_is(alloc, page)?;
    Ok(decides(name, is_chosen, then_to, other))
}

#[tactic(auto, using(crate::proofs::Joins::joins))]
fn first_choices(alloc: Global) -> Result<Vec<Node>, NoMemory>
    ensures { IfOk result (λ v. map node_of v.items ≡ take 2 shipped_choice) }
{
    let no_page = no_page(alloc)?;
    let page12 = chosen(alloc, b"page12", 12, DONE + 4, CHOICE + 2)?;
    Ok(vec![in alloc; no_page, page12]?)
}

#[tactic(auto, using(crate::proofs::Joins::joins))]
fn last_choices(alloc: Global) -> Result<Vec<Node>, NoMemory>
    ensures { IfOk result (λ v. map node_of v.items ≡ drop 2 shipped_choice) }
{
    let page16 = chosen(alloc, b"page16", 16, DONE + 3, CHOICE + 3)?;
    let page21 = chosen(alloc, b"page21", 21, DONE + 2, DONE + 1)?;
    Ok(vec![in alloc; page16, page21]?)
}

/// The choice of the smaller page.
pub fn choice(alloc: Global) -> Result<Vec<Node>, NoMemory>
    ensures { IfOk result (λ v. map node_of v.items ≡ shipped_choice) }
{
    chained(first_choices(alloc)?, last_choices(alloc)?)
}

fn result(name: &[u8], page: u32) -> Node
    requires { spells_name name.now ≡ true }
    ensures { node_of result ≡ result_node name.now page }
{
    let pa = Expr::Var(PA);
    acts(name, Act::Done { pa, page })
}

/// The results.
#[tactic(auto, using(crate::proofs::Joins::joins))]
pub fn results(alloc: Global) -> Result<Vec<Node>, NoMemory>
    ensures { IfOk result (λ v. map node_of v.items ≡ shipped_results) }
{
    let dbare = result(b"dbare", 12);
    let d30 = result(b"d30", 30);
    let d21 = result(b"d21", 21);
    let d16 = result(b"d16", 16);
    let d12 = result(b"d12", 12);
    Ok(vec![in alloc; dbare, d30, d21, d16, d12]?)
}
