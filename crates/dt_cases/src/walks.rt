//! Walks, and the values of rules.
ghost use Rattle.std.specs.Prelude.{◌≡◌, ◌*◌};
ghost use Rattle.dt_model.specs.Accepted.{accepted_data};
ghost use Rattle.dt_model.specs.Values.{FitNames};
ghost use Rattle.dt_image.specs.Images.{IsImage};

use crate::output::push_bytes;
use crate::stop::Stop;
use dt_bits::TableMemory;
use dt_image::Image;
use dt_model::{Accepted, Node};
use dt_walk::{End, ReadMade, Run, SideTaken, Walker, access_rule_holds, context_rule_holds};
use std::alloc::{AllocError, Global};

/// The name of the node at a position, behind a blank.
fn push_node(out: &mut String, nodes: &[Node], node: u32) -> Result<(), AllocError> {
    out.push(' ')?;
    match nodes.get(node as usize) {
        None => out.push_str("no node"),
        Some(node) => push_bytes(out, node.name.bytes()),
    }
}

fn push_path(out: &mut String, nodes: &[Node], path: &[u32]) -> Result<(), AllocError> {
    out.push_str("path")?;
    for node in path {
        push_node(out, nodes, *node)?;
    }
    out.push('\n')
}

fn push_sides(out: &mut String, nodes: &[Node], sides: &[SideTaken]) -> Result<(), AllocError> {
    out.push_str("sides")?;
    for side in sides {
        push_node(out, nodes, side.node)?;
        out.push_str(if side.by_then { " then" } else { " else" })?;
    }
    out.push('\n')
}

fn push_reads(out: &mut String, nodes: &[Node], reads: &[ReadMade]) -> Result<(), AllocError> {
    for read in reads {
        out.push_str("read")?;
        push_node(out, nodes, read.node)?;
        writeln!(out, " {:#x} {:#x}", read.cell, read.word)?;
    }
    Ok(())
}

fn push_end(out: &mut String, nodes: &[Node], end: End) -> Result<(), AllocError> {
    match end {
        End::Done { node, pa, page } => {
            out.push_str("done")?;
            push_node(out, nodes, node)?;
            writeln!(out, " {pa:#x} {page}")
        }
        End::Fault { node, code } => {
            out.push_str("fault")?;
            push_node(out, nodes, node)?;
            writeln!(out, " {code}")
        }
    }
}

fn push_run(out: &mut String, nodes: &[Node], run: &Run) -> Result<(), AllocError> {
    push_path(out, nodes, run.path.as_slice())?;
    push_sides(out, nodes, run.sides.as_slice())?;
    push_reads(out, nodes, run.reads.as_slice())?;
    push_end(out, nodes, run.end)
}

/// The walk under these registers and inputs.
fn push_walk(
    alloc: Global,
    out: &mut String,
    model: &Accepted,
    regs: &[u128],
    inputs: &[u128],
    memory: &TableMemory,
) -> Result<(), Stop>
    requires regs { FitNames (accepted_data model.now).regs regs.now }
    requires inputs { FitNames (accepted_data model.now).inputs inputs.now }
    requires memory { (accepted_data model.now).word ≡ 8 * memory.now.bytes }
{
    let mut walker = Walker::new(alloc, model)?;
    let run = walker.walk(regs, inputs, memory);
    push_run(out, model.model().nodes.as_slice(), run)?;
    Ok(())
}

/// The walks of the accesses of the image.
pub fn push_walks(
    alloc: Global,
    out: &mut String,
    model: &Accepted,
    image: &Image,
) -> Result<(), Stop>
    requires { IsImage (accepted_data model.now) image.now }
{
    let contexts = image.contexts.as_slice();
    for access in image.accesses.as_slice() {
        let regs = contexts[access.context as usize].as_slice();
        let inputs = access.inputs.as_slice();
        push_walk(alloc, out, model, regs, inputs, &image.memory)?;
    }
    Ok(())
}

fn push_context_rules(out: &mut String, model: &Accepted, regs: &[u128]) -> Result<(), AllocError>
    requires { FitNames (accepted_data model.now).regs regs.now }
{
    out.push_str("context")?;
    for rule in model.model().legal_context.as_slice() {
        let holds = context_rule_holds(model, rule, regs);
        out.push_str(if holds { " 1" } else { " 0" })?;
    }
    out.push('\n')
}

fn push_access_rules(
    out: &mut String,
    model: &Accepted,
    regs: &[u128],
    inputs: &[u128],
) -> Result<(), AllocError>
    requires regs { FitNames (accepted_data model.now).regs regs.now }
    requires inputs { FitNames (accepted_data model.now).inputs inputs.now }
{
    out.push_str("access")?;
    for rule in model.model().legal_access.as_slice() {
        let holds = access_rule_holds(model, rule, regs, inputs);
        out.push_str(if holds { " 1" } else { " 0" })?;
    }
    out.push('\n')
}

fn push_contexts(out: &mut String, model: &Accepted, image: &Image) -> Result<(), AllocError>
    requires { IsImage (accepted_data model.now) image.now }
{
    for context in image.contexts.as_slice() {
        push_context_rules(out, model, context.as_slice())?;
    }
    Ok(())
}

fn push_accesses(out: &mut String, model: &Accepted, image: &Image) -> Result<(), AllocError>
    requires { IsImage (accepted_data model.now) image.now }
{
    let contexts = image.contexts.as_slice();
    for access in image.accesses.as_slice() {
        let regs = contexts[access.context as usize].as_slice();
        push_access_rules(out, model, regs, access.inputs.as_slice())?;
    }
    Ok(())
}

/// The values of the rules in each context and access of the image.
pub fn push_rules(out: &mut String, model: &Accepted, image: &Image) -> Result<(), AllocError>
    requires { IsImage (accepted_data model.now) image.now }
{
    push_contexts(out, model, image)?;
    push_accesses(out, model, image)
}
