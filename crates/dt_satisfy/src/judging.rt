ghost use Rattle.std.specs.Prelude.{◌≡◌, ◌↔◌, ◌<◌, ◌+◌, ◌^◌, ◌∷◌, ◌++◌, not, length, map, position, IfOk, OnOk, IfSome};
ghost use Rattle.std.specs.Option.{ForSome};
ghost use Rattle.dt_model.specs.Accepted.{accepted_data};
ghost use Rattle.dt_model.specs.Flow.{steps_of};
ghost use Rattle.dt_walk.specs.Walkers.{run_data};
ghost use Rattle.dt_request.specs.Lists.{IsList};
ghost use Rattle.dt_image.specs.Images.{IsImage};
ghost use Rattle.dt_satisfy.specs.Blocks.{are_apart, is_kept};
ghost use Rattle.dt_satisfy.specs.Links.{pages_of, tables_of};
ghost use Rattle.dt_satisfy.specs.Claims.{claims};
ghost use Rattle.dt_satisfy.specs.Satisfies.{Matches, Satisfies, verdict_of};

use crate::Judged;
use crate::block::{are_apart, push_kept};
use crate::links::{push_links, push_pages, push_tables};
use crate::rules::{push_access_claims, push_context_claims};
use crate::runs::{all_runs, push_demand_claims};
use dt_bits::NoMemory;
use dt_image::Image;
use dt_model::{Accepted, Node};
use dt_request::{KeptRange, Requests};
use dt_walk::Run;
use std::alloc::Global;

// The position of the first claim that doesn't hold.
fn first_broken(claims: &[bool]) -> Option<usize>
    ensures value { result ≡ position not claims.now }
    ensures within { IfSome result (λ k. k < length claims.now) }
{
    claims.iter().position(|holds| !*holds)
}

// Claims are counted from 1.
fn verdict(first: Option<usize>) -> Judged
    requires { ForSome first (λ k. k + 1 < 2 ^ 32) }
    ensures { result ≡ verdict_of first }
{
    match first {
        None => Judged::Satisfies,
        Some(k) => Judged::Breaks(k as u32 + 1),
    }
}

// Appends whether no page of a run overlaps a table of any run, and for each kept range whether no
// page and no table of a run touches it.
fn push_memory_claims(
    alloc: Global,
    nodes: &[Node],
    runs: &[Run],
    kept: &[KeptRange],
    claims: &mut Vec<bool>,
) -> Result<(), NoMemory>
    ensures { let rows = map run_data runs.now in
        let pages = pages_of rows in
        let tables = tables_of (steps_of nodes.now) rows in
        OnOk result (claims.new.items ≡ claims.old.items
        ++ are_apart pages tables ∷ map (is_kept pages tables) kept.now) }
{
    let mut pages = Vec::new(alloc);
    push_pages(runs, &mut pages)?;
    let mut tables = Vec::new(alloc);
    push_tables(nodes, runs, &mut tables)?;
    claims.push(are_apart(pages.as_slice(), tables.as_slice()))?;
    push_kept(pages.as_slice(), tables.as_slice(), kept, claims)
}

// Whether each claim holds, in order.
fn all_claims(
    alloc: Global,
    model: &Accepted,
    requests: &Requests,
    image: &Image,
) -> Result<Vec<bool>, NoMemory>
    requires image { IsImage (accepted_data model.now) image.now }
    requires matches { Matches requests.now image.now }
    requires list { IsList (accepted_data model.now) requests.now }
    ensures { IfOk result (λ held. held.items ≡ claims (accepted_data model.now) requests.now image.now) }
{
    let mut claims = Vec::new(alloc);
    push_context_claims(model, image, &mut claims)?;
    push_access_claims(model, image, &mut claims)?;
    let runs = all_runs(alloc, model, image)?;
    push_demand_claims(model, requests, image, runs.as_slice(), &mut claims)?;
    let nodes = model.model().nodes.as_slice();
    push_links(
        nodes,
        runs.as_slice(),
        requests.links.as_slice(),
        &mut claims,
    )?;
    let kept = requests.kept.as_slice();
    push_memory_claims(alloc, nodes, runs.as_slice(), kept, &mut claims)?;
    Ok(claims)
}

/// Whether the image meets the list: whether all claims hold, or which is the first that doesn't.
/// The claims are in order: for each context each context rule is 1; for each access each access
/// rule is 1; for each access each of its demands is met by its run; each link holds; no page of a
/// run overlaps a table of any run; and for each kept range, no page and no table of a run touches
/// it. The image and the list are of the model, and match.
///
/// It takes memory for a run of each access, and time for each access's walk, for each demand or link
/// with the nodes, sides or reads of its runs, for each page with each table, and for each kept range
/// with each page and table: at most 64 pages with 4096 tables, and 16 ranges with these 4160 blocks.
///
/// # Errors
///
/// `NoMemory` where memory ran out.
pub fn judge(
    alloc: Global,
    model: &Accepted,
    requests: &Requests,
    image: &Image,
) -> Result<Judged, NoMemory>
    requires list { IsList (accepted_data model.now) requests.now }
    requires image { IsImage (accepted_data model.now) image.now }
    requires matches { Matches requests.now image.now }
    ensures verdict { IfOk result (λ found. found ≡
        verdict_of (position not (claims (accepted_data model.now) requests.now image.now))) }
    ensures satisfies { IfOk result (λ found. (found ≡ Judged.Satisfies) ↔
        Satisfies (accepted_data model.now) requests.now image.now) }
{
    let claims = all_claims(alloc, model, requests, image)?;
    let first = first_broken(claims.as_slice());
    Ok(verdict(first))
}
