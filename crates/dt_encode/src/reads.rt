ghost use Rattle.std.specs.Prelude.{◌≡◌, ◌++◌, ◌<◌, ◌^◌, length, map, IfOk, OnOk};
ghost use Rattle.dt_model.specs.ModelData.{act_of};
ghost use Rattle.dt_model.specs.Flow.{steps_of};
ghost use Rattle.dt_table.specs.Told.{told};
ghost use Rattle.dt_table.specs.Images.{reads_told};
ghost use Rattle.dt_encode.specs.Telling.{valued, made_at};

use crate::sizes::is_read;
use crate::values::value_at;
use dt_bits::NoMemory;
use dt_model::{Act, Node};
use dt_table::Out;
use dt_walk::ReadMade;
use std::alloc::Global;

// Appends the read that the walk makes at a node.
fn push_read(
    node: u32,
    act: &Act,
    out: Out,
    values: &[u128],
    reads: &mut Vec<ReadMade>,
) -> Result<(), NoMemory>
    ensures { OnOk result (reads.new.items
        ≡ reads.old.items ++ made_at (valued values.now) node (act_of act.now) out) }
{
    if is_read(act)
        && value_at(values, out.come as usize) == 1
        && value_at(values, out.by_then as usize) == 1
    {
        reads.push(ReadMade {
            node,
            cell: value_at(values, out.value as usize),
            word: value_at(values, out.word as usize),
        })?;
    }
    Ok(())
}

// Appends the reads of an access's walk in order.
fn push_reads(
    nodes: &[Node],
    outs: &[Out],
    values: &[u128],
    reads: &mut Vec<ReadMade>,
) -> Result<(), NoMemory>
    requires { length nodes.now < 2 ^ 32 }
    ensures { OnOk result (reads.new.items
        ≡ reads.old.items ++ (told (valued values.now) (steps_of nodes.now) outs.now 0).reads) }
{
    for (i, node) in nodes.iter().enumerate() {
        match outs.get(i) {
            Some(out) => push_read(i as u32, &node.act, *out, values, reads)?,
            None => return Ok(()),
        }
    }
    Ok(())
}

/// The reads that all accesses make, by the values of the terms that stand for their nodes.
pub fn all_reads(
    alloc: Global,
    nodes: &[Node],
    outs: &[Vec<Out>],
    values: &[u128],
) -> Result<Vec<ReadMade>, NoMemory>
    requires { length nodes.now < 2 ^ 32 }
    ensures { IfOk result (λ reads. reads.items
        ≡ reads_told (valued values.now) (steps_of nodes.now) (map (λ row. row.items) outs.now)) }
{
    let mut reads = Vec::new(alloc);
    for row in outs {
        push_reads(nodes, row.as_slice(), values, &mut reads)?;
    }
    Ok(reads)
}
