ghost use Rattle.std.specs.Prelude.{◌≡◌};
ghost use Rattle.std.specs.List.{list_any};
ghost use Rattle.dt_model.specs.ModelData.{act_of};
ghost use Rattle.dt_ways.specs.Ways.{edge_to, leads_past, differ, bars, open_edge};

use dt_model::Act;
use dt_request::Demand;

// Where the side of a node leads, if the node has it.
fn edge_to(act: &Act, by_then: bool) -> Option<u32>
    ensures { result ≡ edge_to (act_of act.now) by_then }
{
    match act {
        Act::Let { next, .. } => { if by_then { Some(*next) } else { None } }
        Act::Read { then_to, other, .. } | Act::If { then_to, other, .. } => {
            if by_then {
                Some(*then_to)
            } else {
                Some(*other)
            }
        }
        Act::Fault { .. } | Act::Done { .. } => None,
    }
}

// Whether an edge from node `n` leads past the node.
fn leads_past(node: u32, n: usize, to: u32) -> bool
    ensures { result ≡ leads_past node n to }
{
    n < node as usize && node < to
}

// Whether the two sides differ.
fn differ(side: bool, by_then: bool) -> bool
    ensures { result ≡ differ side by_then }
{
    if side { !by_then } else { by_then }
}

// Whether no walk that meets the demand takes this edge of node `n`.
fn bars(demand: Demand, n: usize, by_then: bool, to: u32) -> bool
    ensures { result ≡ bars demand n by_then to }
{
    match demand {
        Demand::Via(node) => leads_past(node, n, to),
        Demand::Avoid(node) => to == node,
        Demand::Take {
            node,
            by_then: side,
        } => leads_past(node, n, to) || (n == node as usize && differ(side, by_then)),
        _ => false,
    }
}

// Whether some demand bars the edge.
fn is_barred(demands: &[Demand], n: usize, by_then: bool, to: u32) -> bool
    ensures { result ≡ list_any (λ q. bars q n by_then to) demands.now }
{
    for demand in demands {
        if bars(*demand, n, by_then, to) {
            return true;
        }
    }
    false
}

/// Where the side of node `n` leads, if the node has it and no demand bars it.
pub(crate) fn open_edge(demands: &[Demand], n: usize, by_then: bool, act: &Act) -> Option<u32>
    ensures { result ≡ open_edge demands.now n by_then (edge_to (act_of act.now) by_then) }
{
    match edge_to(act, by_then) {
        Some(to) if !is_barred(demands, n, by_then, to) => Some(to),
        _ => None,
    }
}
