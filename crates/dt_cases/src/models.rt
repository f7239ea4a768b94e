//! Models: read, checked and printed.
use crate::output::push_text;
use crate::stop::Stop;
use dt_model::{Accepted, Act, Model};
use dt_modeltext::{print_model, read_model};
use dt_script::Case;
use std::alloc::{AllocError, Global};

/// The model of the case.
pub fn model(alloc: Global, case: Case) -> Result<Accepted, Stop> {
    Ok(read_model(alloc, case.text("model").as_bytes())?)
}

/// The bits of words and addresses, and how many names, rules and nodes there are.
fn push_sizes(out: &mut String, model: &Model) -> Result<(), AllocError> {
    write!(out, "sizes {} {}", model.word, model.address)?;
    write!(
        out,
        " {} {} {}",
        model.regs.len(),
        model.inputs.len(),
        model.vars.len()
    )?;
    write!(
        out,
        " {} {}",
        model.legal_context.len(),
        model.legal_access.len()
    )?;
    writeln!(out, " {}", model.nodes.len())
}

/// What a node does, without its expressions.
fn push_act(out: &mut String, act: &Act) -> Result<(), AllocError> {
    match act {
        Act::Let { var, next, .. } => writeln!(out, "let {var} {next}"),
        Act::Read {
            var,
            granule,
            then_to,
            other,
            ..
        } => writeln!(out, "read {var} {granule} {then_to} {other}"),
        Act::If { then_to, other, .. } => writeln!(out, "if {then_to} {other}"),
        Act::Fault { code } => writeln!(out, "fault {code}"),
        Act::Done { page, .. } => writeln!(out, "done {page}"),
    }
}

fn push_nodes(out: &mut String, model: &Model) -> Result<(), AllocError> {
    push_sizes(out, model)?;
    for node in model.nodes.as_slice() {
        push_act(out, &node.act)?;
    }
    Ok(())
}

/// The printed text of the model.
fn push_printed(alloc: Global, out: &mut String, model: &Accepted) -> Result<(), Stop> {
    push_text(out, print_model(alloc, model)?.as_slice())
}

fn push_answer(alloc: Global, call: &str, out: &mut String, model: &Accepted) -> Result<(), Stop> {
    match call {
        "check" => Ok(out.push_str("accepted\n")?),
        "nodes" => Ok(push_nodes(out, model.model())?),
        _ => push_printed(alloc, out, model),
    }
}

/// That the model is accepted, its sizes and what each node does, or its printed text.
pub fn answer(alloc: Global, call: &str, case: Case, out: &mut String) -> Result<(), Stop> {
    let model = model(alloc, case)?;
    push_answer(alloc, call, out, &model)
}
