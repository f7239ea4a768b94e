ghost use Rattle.std.specs.Prelude.{◌≡◌, ◌≤◌, ◌<◌, ◌^◌, length, map, count_by, sum_by};
ghost use Rattle.dt_model.specs.Accepted.{accepted_data};
ghost use Rattle.dt_model.specs.ModelData.{tree_of, act_of};
ghost use Rattle.dt_model.specs.Widths.{operators};
ghost use Rattle.dt_model.specs.Faults.{is_read, is_done, step_operators};
ghost use Rattle.dt_request.specs.Lists.{IsList};
ghost use Rattle.dt_request.specs.Choices.{read_nodes};
ghost use Rattle.dt_table.specs.Sizes.{done_nodes, model_operators};
ghost use Rattle.dt_encode.specs.SizeFault.{size_fault};

use crate::{EncodeFault, Quantity3};
use dt_model::{Accepted, Act, Expr, Node};
use dt_request::Requests;

const MOST_READS: u64 = 256;

const MOST_DONES: u64 = 512;

const MOST_TERMS: u64 = 200_000;

fn operators(e: &Expr) -> u64
    requires { operators (tree_of e.now) < 2 ^ 64 }
    ensures { result ≡ operators (tree_of e.now) }
{
    match e {
        Expr::Value { .. } | Expr::Reg(_) | Expr::Input(_) | Expr::Var(_) => 0,
        Expr::Apply1 { a, .. } => operators(a) + 1,
        Expr::Apply2 { a, b, .. } => operators(a) + operators(b) + 1,
        Expr::Apply3 { a, b, c, .. } => operators(a) + operators(b) + operators(c) + 1,
    }
}

fn act_operators(act: &Act) -> u64
    requires { step_operators (act_of act.now) < 2 ^ 64 }
    ensures { result ≡ step_operators (act_of act.now) }
{
    match act {
        Act::Let { value, .. } => operators(value),
        Act::Read { cell, .. } => operators(cell),
        Act::If { test, .. } => operators(test),
        Act::Fault { .. } => 0,
        Act::Done { pa, .. } => operators(pa),
    }
}

#[tactic(auto, using(std::proofs::lemmas::List::Sums::sum_by_more, std::proofs::lemmas::List::Sums::sum_by_more_le))]
fn rule_operators(rules: &[Expr]) -> u64
    requires { sum_by (λ e. operators (tree_of e)) rules.now < 2 ^ 64 }
    ensures { result ≡ sum_by (λ e. operators (tree_of e)) rules.now }
{
    let mut total = 0;
    for rule in rules {
        total += operators(rule);
    }
    total
}

#[tactic(auto, using(std::proofs::lemmas::List::Sums::sum_by_more, std::proofs::lemmas::List::Sums::sum_by_more_le))]
fn node_operators(nodes: &[Node]) -> u64
    requires { sum_by (λ n. step_operators (act_of n.act)) nodes.now < 2 ^ 64 }
    ensures { result ≡ sum_by (λ n. step_operators (act_of n.act)) nodes.now }
{
    let mut total = 0;
    for node in nodes {
        total += act_operators(&node.act);
    }
    total
}

// The operators of all rules and nodes.
fn model_operators(model: &Accepted) -> u64
    ensures value { result ≡ model_operators (accepted_data model.now) }
    ensures few { result ≤ 8192 }
{
    let m = model.model();
    rule_operators(m.legal_context.as_slice())
        + rule_operators(m.legal_access.as_slice())
        + node_operators(m.nodes.as_slice())
}

/// Whether a node reads.
pub fn is_read(act: &Act) -> bool
    ensures { result ≡ is_read (act_of act.now) }
{
    matches!(act, Act::Read { .. })
}

fn is_done(act: &Act) -> bool
    ensures { result ≡ is_done (act_of act.now) }
{
    matches!(act, Act::Done { .. })
}

#[tactic(auto, using(std::proofs::lemmas::List::Sums::count_by_more_yes, std::proofs::lemmas::List::Sums::count_by_more_no))]
fn reads_among(nodes: &[Node]) -> u64
    ensures { result ≡ count_by (λ n. is_read (act_of n.act)) nodes.now }
{
    let mut count = 0;
    for node in nodes {
        if is_read(&node.act) {
            count += 1;
        }
    }
    count
}

#[tactic(auto, using(std::proofs::lemmas::List::Sums::count_by_more_yes, std::proofs::lemmas::List::Sums::count_by_more_no))]
fn dones_among(nodes: &[Node]) -> u64
    ensures { result ≡ count_by (λ n. is_done (act_of n.act)) nodes.now }
{
    let mut count = 0;
    for node in nodes {
        if is_done(&node.act) {
            count += 1;
        }
    }
    count
}

/// How many read nodes a model has.
pub fn read_nodes(model: &Accepted) -> u64
    ensures value { result ≡ read_nodes (accepted_data model.now) }
    ensures few { result ≤ 64 }
{
    reads_among(model.model().nodes.as_slice())
}

fn done_nodes(model: &Accepted) -> u64
    ensures value { result ≡ done_nodes (accepted_data model.now) }
    ensures few { result ≤ 16 }
{
    dones_among(model.model().nodes.as_slice())
}

fn node_count(model: &Accepted) -> u64
    ensures value { result ≡ length (accepted_data model.now).nodes }
    ensures few { result ≤ 1024 }
{
    model.model().nodes.len() as u64
}

/// The first product of the list that is above its limit, in the order of reads, dones and terms.
pub fn size_fault(model: &Accepted, requests: &Requests) -> Option<EncodeFault>
    requires { IsList (accepted_data model.now) requests.now }
    ensures { result ≡ size_fault (accepted_data model.now) requests.now }
{
    let accesses = requests.accesses.len() as u64;
    let reads = accesses * read_nodes(model);
    let dones = accesses * done_nodes(model);
    let terms = accesses * (node_count(model) + model_operators(model));
    let (what, number) = if reads > MOST_READS {
        (Quantity3::Reads, reads)
    } else if dones > MOST_DONES {
        (Quantity3::Dones, dones)
    } else if terms > MOST_TERMS {
        (Quantity3::Terms, terms)
    } else {
        return None;
    };
    Some(EncodeFault::TooLarge { what, number })
}
