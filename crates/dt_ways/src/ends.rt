ghost use Rattle.std.specs.Prelude.{◌≡◌, ◌&&◌};
ghost use Rattle.std.specs.List.{list_all};
ghost use Rattle.dt_model.specs.ModelData.{act_of};
ghost use Rattle.dt_ways.specs.Ends.{is_end, ends_done, ends_fault, ends_page};
ghost use Rattle.dt_ways.specs.Ways.{ends_as};

use dt_model::Act;
use dt_request::Demand;

fn ends_done(act: &Act) -> bool
    ensures { result ≡ ends_done (act_of act.now) }
{
    matches!(act, Act::Done { .. })
}

fn ends_fault(asked: u32, act: &Act) -> bool
    ensures { result ≡ ends_fault asked (act_of act.now) }
{
    match act {
        Act::Fault { code } => *code == asked,
        _ => false,
    }
}

fn ends_page(asked: u32, act: &Act) -> bool
    ensures { result ≡ ends_page asked (act_of act.now) }
{
    match act {
        Act::Done { page, .. } => *page == asked,
        _ => false,
    }
}

// Whether a walk that meets the demand may end at node `n`.
fn ends_as(demand: Demand, n: usize, act: &Act) -> bool
    ensures { result ≡ ends_as demand n (act_of act.now) }
{
    match demand {
        Demand::Via(node) => node as usize <= n,
        Demand::Take { node, .. } => node as usize <= n,
        Demand::EndDone => ends_done(act),
        Demand::EndFault(code) => ends_fault(code, act),
        Demand::Page(exponent) => ends_page(exponent, act),
        _ => true,
    }
}

// Whether a walk that meets the demands may end at node `n`, where the node is an end.
fn all_end(demands: &[Demand], n: usize, act: &Act) -> bool
    ensures { result ≡ list_all (λ q. ends_as q n (act_of act.now)) demands.now }
{
    for demand in demands {
        if !ends_as(*demand, n, act) {
            return false;
        }
    }
    true
}

fn is_end(act: &Act) -> bool
    ensures { result ≡ is_end (act_of act.now) }
{
    matches!(act, Act::Fault { .. } | Act::Done { .. })
}

/// Whether a walk that meets the demands may end at node `n`.
pub(crate) fn may_end(demands: &[Demand], n: usize, act: &Act) -> bool
    ensures { result ≡ (is_end (act_of act.now) && list_all (λ q. ends_as q n (act_of act.now)) demands.now) }
{
    is_end(act) && all_end(demands, n, act)
}
