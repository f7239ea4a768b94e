ghost use Rattle.std.specs.Prelude.{◌≡◌, IfOk};
ghost use Rattle.dt_model.specs.ModelData.{act_of, data_of};
ghost use Rattle.dt_model.specs.Flow.{steps_of};
ghost use Rattle.dt_ways.specs.Ways.{ways_of, all_ways, access_ways};

use crate::asks::all_asks;
use crate::edges::open_edge;
use crate::ends::may_end;
use dt_bits::NoMemory;
use dt_model::{Act, Model, Node};
use dt_reach::Ways;
use dt_request::{Demand, Requests};
use std::alloc::Global;

// What a walk that meets the demands may do at node `n`.
fn ways_of(demands: &[Demand], n: usize, act: &Act) -> Ways
    ensures { result ≡ ways_of demands.now n (act_of act.now) }
{
    Ways {
        then_to: open_edge(demands, n, true, act),
        other: open_edge(demands, n, false, act),
        ends: may_end(demands, n, act),
    }
}

// What such a walk may do at each of the nodes.
fn all_ways(alloc: Global, demands: &[Demand], nodes: &[Node]) -> Result<Vec<Ways>, NoMemory>
    ensures { IfOk result (λ v. v.items ≡ all_ways demands.now (steps_of nodes.now) 0) }
{
    let mut ways = Vec::new(alloc);
    for (n, node) in nodes.iter().enumerate() {
        ways.push(ways_of(demands, n, &node.act))?;
    }
    Ok(ways)
}

/// Where the walk of an access may go. It takes memory for each node and for what the list asks of
/// the access, and time for each node with all that is asked.
///
/// # Errors
///
/// `NoMemory` where memory ran out.
pub fn access_ways(
    alloc: Global,
    model: &Model,
    requests: &Requests,
    access: usize,
) -> Result<Vec<Ways>, NoMemory>
    ensures { IfOk result (λ v. v.items ≡ access_ways (data_of model.now) requests.now access) }
{
    let asked = all_asks(alloc, requests, access)?;
    all_ways(alloc, asked.as_slice(), model.nodes.as_slice())
}
