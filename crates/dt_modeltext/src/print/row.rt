// Each of these appends whole lines.
ghost use Rattle.std.specs.Prelude.{◌≡◌, ◌++◌, OnOk, map};
ghost use Rattle.dt_lex.specs.Printing.{spaced, row_text, text_of};
ghost use Rattle.dt_model.specs.ModelData.{tree_of, act_of, node_of, data_of};
ghost use Rattle.dt_model.specs.Faults.{node_scope};
ghost use Rattle.dt_modeltext.specs.Print.{act_pieces, size_row, named_row, rule_row, node_row};

use crate::print::expr::push_expr;
use crate::print::piece::{push_name, push_number, push_target, push_targets};
use dt_lex::{Piece, push_row};
use dt_model::{Act, Expr, Model, Named, Node};
use std::alloc::AllocError;

/// A size of the model.
pub fn push_size(out: &mut Vec<u8>, kind: &[u8], n: u32) -> Result<(), AllocError>
    ensures { OnOk result (out.new.items ≡ out.old.items ++ row_text (size_row kind.now n)) }
{
    push_row(out, kind, &[Piece::Decimal(u128::from(n))])
}

fn push_named(out: &mut Vec<u8>, kind: &[u8], named: &Named) -> Result<(), AllocError>
    ensures { OnOk result (
        out.new.items ≡ out.old.items ++ row_text (named_row kind.now named.now)) }
{
    push_row(
        out,
        kind,
        &[
            Piece::Word(named.name.bytes()),
            Piece::Decimal(u128::from(named.width)),
        ],
    )
}

/// Registers, inputs or variables.
#[tactic(auto, using(dt_lex::proofs::Rows::rows_more))]
pub fn push_names(out: &mut Vec<u8>, kind: &[u8], names: &[Named]) -> Result<(), AllocError>
    ensures { OnOk result (
        out.new.items ≡ out.old.items ++ text_of (map (named_row kind.now) names.now)) }
{
    for named in names {
        push_named(out, kind, named)?;
    }
    Ok(())
}

fn push_rule(out: &mut Vec<u8>, model: &Model, kind: &[u8], e: &Expr) -> Result<(), AllocError>
    ensures { OnOk result (out.new.items ≡ out.old.items
        ++ row_text (rule_row kind.now (node_scope (data_of model.now)) (tree_of e.now))) }
{
    out.extend_from_slice(b"legal ")?;
    out.extend_from_slice(kind)?;
    push_expr(out, model, e)?;
    out.push(b'\n')?;
    Ok(())
}

/// Rules on contexts or on accesses.
#[tactic(auto, using(dt_lex::proofs::Rows::rows_more))]
pub fn push_rules(
    out: &mut Vec<u8>,
    model: &Model,
    kind: &[u8],
    rules: &[Expr],
) -> Result<(), AllocError>
    ensures { OnOk result (out.new.items ≡ out.old.items ++ text_of
        (map (λ e. rule_row kind.now (node_scope (data_of model.now)) (tree_of e)) rules.now)) }
{
    for rule in rules {
        push_rule(out, model, kind, rule)?;
    }
    Ok(())
}

fn push_act(out: &mut Vec<u8>, model: &Model, act: &Act) -> Result<(), AllocError>
    ensures { OnOk result (out.new.items ≡ out.old.items ++ spaced
        (act_pieces (node_scope (data_of model.now)) (data_of model.now).nodes (act_of act.now))) }
{
    let nodes = model.nodes.as_slice();
    match act {
        Act::Let { var, value, next } => {
            out.extend_from_slice(b" let")?;
            push_name(out, model.vars.as_slice(), *var)?;
            push_expr(out, model, value)?;
            push_target(out, nodes, *next)
        }
        Act::Read {
            var,
            cell,
            granule,
            then_to,
            other,
        } => {
            out.extend_from_slice(b" read")?;
            push_name(out, model.vars.as_slice(), *var)?;
            push_expr(out, model, cell)?;
            push_number(out, *granule)?;
            push_targets(out, nodes, *then_to, *other)
        }
        Act::If {
            test,
            then_to,
            other,
        } => {
            out.extend_from_slice(b" if")?;
            push_expr(out, model, test)?;
            push_targets(out, nodes, *then_to, *other)
        }
        Act::Fault { code } => {
            out.extend_from_slice(b" fault")?;
            push_number(out, *code)
        }
        Act::Done { pa, page } => {
            out.extend_from_slice(b" done")?;
            push_expr(out, model, pa)?;
            push_number(out, *page)
        }
    }
}

fn push_node(out: &mut Vec<u8>, model: &Model, node: &Node) -> Result<(), AllocError>
    ensures { OnOk result (out.new.items ≡ out.old.items ++ row_text
        (node_row (node_scope (data_of model.now)) (data_of model.now).nodes (node_of node.now))) }
{
    out.extend_from_slice(b"node ")?;
    out.extend_from_slice(node.name.bytes())?;
    push_act(out, model, &node.act)?;
    out.push(b'\n')?;
    Ok(())
}

/// The nodes.
#[tactic(auto, using(dt_lex::proofs::Rows::rows_more))]
pub fn push_nodes(out: &mut Vec<u8>, model: &Model) -> Result<(), AllocError>
    ensures { OnOk result (out.new.items ≡ out.old.items ++ text_of (map (λ n. node_row
        (node_scope (data_of model.now)) (data_of model.now).nodes (node_of n)) model.now.nodes)) }
{
    for node in model.nodes.as_slice() {
        push_node(out, model, node)?;
    }
    Ok(())
}
