ghost use Rattle.std.specs.Prelude.{◌≡◌, ℕ, ◌∷◌, [], ◌++◌, map, IfOk, OnOk};
ghost use Rattle.dt_model.specs.ModelData.{act_of, data_of};
ghost use Rattle.dt_model.specs.Faults.{steps};
ghost use Rattle.dt_model.specs.Flow.{steps_of};
ghost use Rattle.dt_reach.specs.Reach.{is_marked, is_live};
ghost use Rattle.dt_ways.specs.Ways.{access_ways};
ghost use Rattle.dt_table.specs.Spots.{spot_at, can_meet, read_spots, page_spots, all_reads, all_pages};
ghost use Rattle.dt_claims.specs.Steps.{read_spot, page_spot};
ghost use Rattle.dt_claims.specs.Views.{sized, spot, rows_of};

use crate::sized::SizedOut;
use dt_bits::NoMemory;
use dt_model::{Act, Model, Node};
use dt_reach::{Ways, ahead_of, is_marked, live_nodes};
use dt_request::Requests;
use dt_table::Out;
use dt_ways::access_ways;
use std::alloc::Global;

/// A read or a result of the walk of an access, with what is known of where the walk may go.
#[derive(Drop)]
pub(crate) struct SpotOut {
    pub access: usize,
    pub node: usize,
    /// Walks can come to the node, and from there to an end.
    pub live: bool,
    /// The nodes to which a walk can come from there.
    pub ahead: Vec<bool>,
    pub of: SizedOut,
}

/// Whether walks can come to both nodes.
pub(crate) fn can_meet(x: &SpotOut, y: &SpotOut) -> bool
    ensures { result ≡ can_meet (spot x.now) (spot y.now) }
{
    (x.live && y.live)
        && (x.access != y.access
            || is_marked(x.ahead.as_slice(), y.node)
            || is_marked(y.ahead.as_slice(), x.node))
}

fn push_spot(
    alloc: Global,
    ways: &[Ways],
    live: &[bool],
    access: usize,
    node: usize,
    of: SizedOut,
    spots: &mut Vec<SpotOut>,
) -> Result<(), NoMemory>
    requires { (k : ℕ) → is_marked live.now k ≡ is_live ways.now k }
    ensures { OnOk result (map spot spots.new.items ≡ map spot spots.old.items ++ spot_at ways.now access node of.exponent of.out ∷ []) }
{
    let ahead = ahead_of(alloc, ways, node)?;
    let live = is_marked(live, node);
    spots.push(SpotOut {
        access,
        node,
        live,
        ahead,
        of,
    })?;
    Ok(())
}

// The node, where it is a read.
fn push_read(
    alloc: Global,
    ways: &[Ways],
    live: &[bool],
    access: usize,
    n: usize,
    act: &Act,
    out: Out,
    spots: &mut Vec<SpotOut>,
) -> Result<(), NoMemory>
    requires { (k : ℕ) → is_marked live.now k ≡ is_live ways.now k }
    ensures { OnOk result (map spot spots.new.items ≡ map spot spots.old.items ++ read_spot ways.now access n (act_of act.now) out) }
{
    match act {
        Act::Read { granule, .. } => {
            let of = SizedOut {
                exponent: *granule,
                out,
            };
            push_spot(alloc, ways, live, access, n, of, spots)
        }
        _ => Ok(()),
    }
}

// The node, where it is a result.
fn push_page(
    alloc: Global,
    ways: &[Ways],
    live: &[bool],
    access: usize,
    n: usize,
    act: &Act,
    out: Out,
    spots: &mut Vec<SpotOut>,
) -> Result<(), NoMemory>
    requires { (k : ℕ) → is_marked live.now k ≡ is_live ways.now k }
    ensures { OnOk result (map spot spots.new.items ≡ map spot spots.old.items ++ page_spot ways.now access n (act_of act.now) out) }
{
    match act {
        Act::Done { page, .. } => {
            let of = SizedOut {
                exponent: *page,
                out,
            };
            push_spot(alloc, ways, live, access, n, of, spots)
        }
        _ => Ok(()),
    }
}

fn push_reads_among(
    alloc: Global,
    ways: &[Ways],
    live: &[bool],
    access: usize,
    nodes: &[Node],
    outs: &[Out],
    spots: &mut Vec<SpotOut>,
) -> Result<(), NoMemory>
    requires { (k : ℕ) → is_marked live.now k ≡ is_live ways.now k }
    ensures { OnOk result (map spot spots.new.items ≡ map spot spots.old.items ++ read_spots ways.now access (steps_of nodes.now) outs.now 0) }
{
    for (n, out) in outs.iter().enumerate() {
        let Some(node) = nodes.get(n) else {
            return Ok(());
        };
        push_read(alloc, ways, live, access, n, &node.act, *out, spots)?;
    }
    Ok(())
}

fn push_pages_among(
    alloc: Global,
    ways: &[Ways],
    live: &[bool],
    access: usize,
    nodes: &[Node],
    outs: &[Out],
    spots: &mut Vec<SpotOut>,
) -> Result<(), NoMemory>
    requires { (k : ℕ) → is_marked live.now k ≡ is_live ways.now k }
    ensures { OnOk result (map spot spots.new.items ≡ map spot spots.old.items ++ page_spots ways.now access (steps_of nodes.now) outs.now 0) }
{
    for (n, out) in outs.iter().enumerate() {
        let Some(node) = nodes.get(n) else {
            return Ok(());
        };
        push_page(alloc, ways, live, access, n, &node.act, *out, spots)?;
    }
    Ok(())
}

// The reads of the walk of an access.
fn push_reads(
    alloc: Global,
    model: &Model,
    requests: &Requests,
    access: usize,
    outs: &[Out],
    spots: &mut Vec<SpotOut>,
) -> Result<(), NoMemory>
    ensures { let d = data_of model.now in
        OnOk result (map spot spots.new.items ≡ map spot spots.old.items ++ read_spots (access_ways d requests.now access) access (steps d) outs.now 0) }
{
    let ways = access_ways(alloc, model, requests, access)?;
    let live = live_nodes(alloc, ways.as_slice())?;
    let nodes = model.nodes.as_slice();
    let open = ways.as_slice();
    push_reads_among(alloc, open, live.as_slice(), access, nodes, outs, spots)
}

/// Appends the results of the walk of an access.
pub(crate) fn push_pages(
    alloc: Global,
    model: &Model,
    requests: &Requests,
    access: usize,
    outs: &[Out],
    spots: &mut Vec<SpotOut>,
) -> Result<(), NoMemory>
    ensures { let d = data_of model.now in
        OnOk result (map spot spots.new.items ≡ map spot spots.old.items ++ page_spots (access_ways d requests.now access) access (steps d) outs.now 0) }
{
    let ways = access_ways(alloc, model, requests, access)?;
    let live = live_nodes(alloc, ways.as_slice())?;
    let nodes = model.nodes.as_slice();
    let open = ways.as_slice();
    push_pages_among(alloc, open, live.as_slice(), access, nodes, outs, spots)
}

/// The reads of all walks.
pub(crate) fn all_reads(
    alloc: Global,
    model: &Model,
    requests: &Requests,
    rows: &[Vec<Out>],
) -> Result<Vec<SpotOut>, NoMemory>
    ensures { IfOk result (λ v. map spot v.items ≡ all_reads (data_of model.now) requests.now 0 (rows_of rows.now)) }
{
    let mut spots = Vec::new(alloc);
    for (k, row) in rows.iter().enumerate() {
        push_reads(alloc, model, requests, k, row.as_slice(), &mut spots)?;
    }
    Ok(spots)
}

/// The results of all walks.
pub(crate) fn all_pages(
    alloc: Global,
    model: &Model,
    requests: &Requests,
    rows: &[Vec<Out>],
) -> Result<Vec<SpotOut>, NoMemory>
    ensures { IfOk result (λ v. map spot v.items ≡ all_pages (data_of model.now) requests.now 0 (rows_of rows.now)) }
{
    let mut spots = Vec::new(alloc);
    for (k, row) in rows.iter().enumerate() {
        push_pages(alloc, model, requests, k, row.as_slice(), &mut spots)?;
    }
    Ok(spots)
}
