// The model itself.
ghost use Rattle.std.specs.Prelude.{◌≡◌, map, IfOk, true};
ghost use Rattle.dt_lex.specs.Names.{spells_name};
ghost use Rattle.dt_model.specs.Accepted.{accepted_data};
ghost use Rattle.dt_model.specs.ModelData.{tree_of, node_of, data_of};
ghost use Rattle.dt_stage.specs.Stage.{GoesByLevels};
ghost use Rattle.dt_sv39.specs.Shipped.{named as shipped_named, stage, nodes as shipped_nodes, context_rule as shipped_context_rule, access_rule as shipped_access_rule, model_of as shipped_model_of, sv39_data};
ghost use Rattle.dt_sv39.specs.Law.{WalksAsManual, IsLegalAsManual};

use crate::ends::{access_faults, head, page_faults, results};
use crate::expressions::{is_bare, kind_is, satp};
use crate::positions::{ACCESS_FAULT, PAGE_FAULT};
use crate::tables::table_nodes;
use dt_bits::{NoMemory, Seq};
use dt_lex::Name;
use dt_model::{Accepted, Expr, Model, Named, Node};
use dt_stage::{either, extend, is, no};
use std::alloc::Global;

/// A register, input or variable of this name and width, in bits.
pub fn named(name: &[u8], width: u32) -> Named
    requires { spells_name name.now ≡ true }
    ensures { result ≡ shipped_named name.now width }
{
    Named {
        name: Name::spelled(name),
        width,
    }
}

#[tactic(auto, using(crate::proofs::Joins::joins))]
fn nodes(alloc: Global) -> Result<Vec<Node>, NoMemory>
    ensures nodes { IfOk result (λ v. map node_of v.items ≡ shipped_nodes) }
    ensures walks { IfOk result (λ v. GoesByLevels stage) }
{
    let mut nodes = head(alloc)?;
    extend(&mut nodes, table_nodes(alloc)?)?;
    extend(&mut nodes, results(alloc)?)?;
    extend(&mut nodes, page_faults(alloc, PAGE_FAULT)?)?;
    extend(&mut nodes, access_faults(alloc, ACCESS_FAULT)?)?;
    Ok(nodes)
}

// MODE of `satp` is 8, or `satp` is 0.
fn context_rule(alloc: Global) -> Result<Expr, NoMemory>
    ensures { IfOk result (λ e. tree_of e ≡ shipped_context_rule) }
{
    let mode = is(alloc, satp(alloc, 63, 60)?, 4, 8)?;
    either(alloc, mode, is_bare(alloc)?)
}

// The kind is one of the three.
fn access_rule(alloc: Global) -> Result<Expr, NoMemory>
    ensures { IfOk result (λ e. tree_of e ≡ shipped_access_rule) }
{
    no(alloc, kind_is(alloc, 3)?)
}

/// The model with these registers, variables, rules of contexts and nodes, whose accesses are those of
/// Sv39.
pub fn model_of(
    alloc: Global,
    regs: Vec<Named>,
    vars: Vec<Named>,
    context: Vec<Expr>,
    nodes: Vec<Node>,
) -> Result<Model, NoMemory>
    ensures { IfOk result (λ m. data_of m ≡ shipped_model_of regs.items vars.items (map tree_of context.items) (map node_of nodes.items)) }
{
    let inputs = vec![in alloc; named(b"va", 64), named(b"kind", 2), named(b"user", 1)]?;
    let access = access_rule(alloc)?;
    Ok(Model {
        word: 64,
        address: 56,
        regs: Seq::from_vec(regs),
        inputs: Seq::from_vec(inputs),
        vars: Seq::from_vec(vars),
        legal_context: Seq::from_vec(context),
        legal_access: Seq::from_vec(vec![in alloc; access]?),
        nodes: Seq::from_vec(nodes),
    })
}

fn model(alloc: Global) -> Result<Model, NoMemory>
    ensures same { IfOk result (λ m. data_of m ≡ sv39_data) }
    ensures walks { IfOk result (λ m. GoesByLevels stage) }
{
    let regs = vec![in alloc; named(b"satp", 64), named(b"sum", 1), named(b"mxr", 1)]?;
    let vars = vec![in alloc; named(b"pte2", 64), named(b"pte1", 64), named(b"pte0", 64)]?;
    let context = vec![in alloc; context_rule(alloc)?]?;
    model_of(alloc, regs, vars, context, nodes(alloc)?)
}

// It is the shipped model, which has a certificate.
fn accepted(model: Model) -> Accepted
    requires { data_of model ≡ sv39_data }
    ensures { accepted_data result ≡ sv39_data }
{
    Accepted::certified(model)
}

/// The shipped model of Sv39: one and the same, accepted without a check. Its walk is the manual's, at
/// the nodes that are named for its ends and levels, and its rules hold of what is legal.
///
/// # Errors
///
/// `NoMemory` where memory ran out.
pub fn sv39_model(alloc: Global) -> Result<Accepted, NoMemory>
    ensures same { IfOk result (λ m. accepted_data m ≡ sv39_data) }
    ensures walks { IfOk result (λ m. WalksAsManual (accepted_data m)) }
    ensures legal { IfOk result (λ m. IsLegalAsManual (accepted_data m)) }
{
    Ok(accepted(model(alloc)?))
}
