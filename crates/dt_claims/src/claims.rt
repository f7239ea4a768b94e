ghost use Rattle.std.specs.Prelude.{◌≡◌, ◌++◌, map, OnOk};
ghost use Rattle.dt_model.specs.Accepted.{accepted_data};
ghost use Rattle.dt_model.specs.ModelData.{data_of};
ghost use Rattle.dt_build.specs.Building.{claimed};
ghost use Rattle.dt_table.specs.Pairs.{pair_forms};
ghost use Rattle.dt_table.specs.Spots.{all_reads};
ghost use Rattle.dt_table.specs.Extras.{all_extras};
ghost use Rattle.dt_table.specs.Unlike.{all_unlikes, unlike_forms};
ghost use Rattle.dt_table.specs.Table.{list_access, wish_forms, page_forms, keep_forms, list_forms, claim_forms, extra_forms};
ghost use Rattle.dt_claims.specs.Views.{rows_of, places_of};

use crate::apart::require_pages_apart;
use crate::demands::require_demands;
use crate::extras::require_extras;
use crate::kept::require_ranges_kept;
use crate::links::require_links;
use crate::pairs::require_pairs;
use crate::places::{Places, places_of};
use crate::spots::{all_pages, all_reads};
use crate::unlike::{all_unlikes, require_unlikes};
use dt_bits::NoMemory;
use dt_build::Builder;
use dt_model::{Accepted, Model};
use dt_request::Requests;
use dt_table::{Out, UnlikeWords};
use dt_ways::access_ways;
use std::alloc::Global;

// Made reads at one cell have one word.
fn require_words(
    alloc: Global,
    builder: &mut Builder,
    model: &Model,
    requests: &Requests,
    rows: &[Vec<Out>],
) -> Result<(), NoMemory>
    ensures { OnOk result (builder.new ≡ claimed builder.old
        (pair_forms (all_reads (data_of model.now) requests.now 0 (rows_of rows.now)))) }
{
    let reads = all_reads(alloc, model, requests, rows)?;
    require_pairs(builder, reads.as_slice())
}

// Each access meets its demands.
fn require_wishes(
    alloc: Global,
    builder: &mut Builder,
    model: &Model,
    requests: &Requests,
    rows: &[Vec<Out>],
) -> Result<(), NoMemory>
    ensures { OnOk result (builder.new ≡ claimed builder.old
        (wish_forms (data_of model.now) requests.now 0 requests.now.accesses (rows_of rows.now))) }
{
    let accesses = requests.accesses.as_slice();
    for (k, access) in accesses.iter().enumerate() {
        let Some(row) = rows.get(k) else {
            return Ok(());
        };
        let places = places_of(model, requests, k, access.context)?;
        let demands = access.demands.as_slice();
        require_demands(alloc, builder, model, places, row.as_slice(), demands)?;
    }
    Ok(())
}

// No page is on a table, and no page and no table touches a kept range.
fn require_blocks(
    alloc: Global,
    builder: &mut Builder,
    model: &Model,
    requests: &Requests,
    places: Places,
    rows: &[Vec<Out>],
) -> Result<(), NoMemory>
    requires { places ≡ places_of (data_of model.now) requests.now 0 0 }
    ensures { let d = data_of model.now in
        OnOk result (builder.new ≡ claimed builder.old
        (page_forms d requests.now (rows_of rows.now) ++ keep_forms d requests.now (rows_of rows.now))) }
{
    let pages = all_pages(alloc, model, requests, rows)?;
    let tables = all_reads(alloc, model, requests, rows)?;
    require_pages_apart(builder, places, pages.as_slice(), tables.as_slice())?;
    let kept = requests.kept.as_slice();
    require_ranges_kept(builder, places, pages.as_slice(), tables.as_slice(), kept)
}

// Demands, links, pages and kept ranges.
fn require_list(
    alloc: Global,
    builder: &mut Builder,
    model: &Model,
    requests: &Requests,
    rows: &[Vec<Out>],
) -> Result<(), NoMemory>
    ensures { OnOk result (builder.new ≡ claimed builder.old
        (list_forms (data_of model.now) requests.now (rows_of rows.now))) }
{
    require_wishes(alloc, builder, model, requests, rows)?;
    let places = places_of(model, requests, 0, 0)?;
    let links = requests.links.as_slice();
    require_links(alloc, builder, model, requests, places, rows, links)?;
    require_blocks(alloc, builder, model, requests, places, rows)
}

// What the walks of each access have in common that go by open ways.
fn require_all_extras(
    alloc: Global,
    builder: &mut Builder,
    model: &Model,
    requests: &Requests,
    rows: &[Vec<Out>],
) -> Result<(), NoMemory>
    ensures { OnOk result (builder.new ≡ claimed builder.old
        (all_extras (data_of model.now) requests.now 0 (rows_of rows.now))) }
{
    for (k, row) in rows.iter().enumerate() {
        let ways = access_ways(alloc, model, requests, k)?;
        require_extras(alloc, builder, ways.as_slice(), row.as_slice())?;
    }
    Ok(())
}

// Words differ of which blocks that are apart are the same bits.
fn require_differing(
    builder: &mut Builder,
    model: &Model,
    requests: &Requests,
    words: &[UnlikeWords],
) -> Result<(), NoMemory>
    ensures { OnOk result (builder.new ≡ claimed builder.old
        (unlike_forms (list_access (data_of model.now) requests.now) words.now)) }
{
    let places = places_of(model, requests, 0, 0)?;
    require_unlikes(builder, places, words)
}

/// Requires what the list asks of its accesses, but for their rules: made reads at one cell have one
/// word, the demands, the links, that no page is on a table, the kept ranges, and the further forms
/// that hold of each image that satisfies. A row of `outs` stands for an access, and has what stands
/// for each node of its walk.
///
/// It takes memory for the pages, tables and reads of all walks and for each two pages that a link
/// keeps apart, and time for each two reads, for each page with each table, and for each kept range
/// with each page and table.
///
/// # Errors
///
/// `NoMemory` where memory ran out, or a form can't be added to the problem: the builder has no room
/// for it, a row doesn't name terms of the builder, or the list isn't of the model.
pub fn require_claims(
    alloc: Global,
    builder: &mut Builder,
    model: &Accepted,
    requests: &Requests,
    outs: &[Vec<Out>],
) -> Result<(), NoMemory>
    ensures { let d = accepted_data model.now in
        let rows = map (λ v. v.items) outs.now in
        OnOk result (builder.new ≡ claimed builder.old (claim_forms d requests.now rows ++ extra_forms d requests.now builder.old.terms rows)) }
{
    let model = model.model();
    let words = all_unlikes(alloc, model, requests, builder.terms(), outs)?;
    require_words(alloc, builder, model, requests, outs)?;
    require_list(alloc, builder, model, requests, outs)?;
    require_all_extras(alloc, builder, model, requests, outs)?;
    require_differing(builder, model, requests, words.as_slice())
}
