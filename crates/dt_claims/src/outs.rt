ghost use Rattle.std.specs.Prelude.{◌≡◌, slice_get};
ghost use Rattle.dt_model.specs.ModelData.{data_of};
ghost use Rattle.dt_model.specs.Flow.{steps_of};
ghost use Rattle.dt_satisfy.specs.Links.{step_granule};
ghost use Rattle.dt_table.specs.Outs.{no_out, out_at, edge_at};
ghost use Rattle.dt_table.specs.Links.{outs_of, side_at};
ghost use Rattle.dt_claims.specs.Views.{sized, rows_of};

use crate::sized::SizedOut;
use dt_model::{Act, Model, Node};
use dt_request::Side;
use dt_table::Out;

// What stands for no node.
const NO_OUT: Out = Out {
    come: 0,
    value: 0,
    by_then: 0,
    by_other: 0,
    word: 0,
    away: 0,
};

/// What stands for the node at a position.
pub(crate) fn out_of(outs: &[Out], node: usize) -> Out
    ensures { result ≡ out_at outs.now node }
{
    match outs.get(node) {
        Some(out) => *out,
        None => NO_OUT,
    }
}

/// The same, of a position as requests name it.
pub(crate) fn out_at(outs: &[Out], node: u32) -> Out
    ensures { result ≡ out_at outs.now node }
{
    out_of(outs, node as usize)
}

/// The term of an edge: that of `then`, or the other one.
pub(crate) fn edge_at(by_then: bool, out: Out) -> u32
    ensures { result ≡ edge_at by_then out }
{
    if by_then { out.by_then } else { out.by_other }
}

/// What stands for the nodes of the access of this number.
pub(crate) fn outs_of(rows: &[Vec<Out>], access: u32) -> &[Out]
    ensures { result.now ≡ outs_of (rows_of rows.now) access }
{
    match rows.get(access as usize) {
        Some(row) => row.as_slice(),
        None => &[],
    }
}

// The granule of a read node.
fn granule(nodes: &[Node], node: u32) -> u32
    ensures { result ≡ step_granule (slice_get (steps_of nodes.now) node) }
{
    match nodes.get(node as usize) {
        Some(node) => match node.act {
            Act::Read { granule, .. } => granule,
            _ => 0,
        },
        None => 0,
    }
}

/// What stands for the read of a side, with the exponent of its table.
pub(crate) fn side_at(model: &Model, rows: &[Vec<Out>], side: Side) -> SizedOut
    ensures { sized result ≡ side_at (data_of model.now) (rows_of rows.now) side }
{
    SizedOut {
        exponent: granule(model.nodes.as_slice(), side.node),
        out: out_at(outs_of(rows, side.access), side.node),
    }
}
