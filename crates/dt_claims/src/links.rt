ghost use Rattle.std.specs.Prelude.{◌≡◌, ◌++◌, ◌∷◌, [], map, IfOk, OnOk};
ghost use Rattle.std.specs.List.{flat_map};
ghost use Rattle.dt_model.specs.ModelData.{data_of};
ghost use Rattle.dt_build.specs.Building.{claimed, placed_in};
ghost use Rattle.dt_forms.specs.Folding.{claim_placed};
ghost use Rattle.dt_table.specs.Links.{one_block, apart_blocks, one_cell, one_page, reads_forms, outs_of, page_if, pages_forms, access_pages, link_forms, side_at};
ghost use Rattle.dt_claims.specs.Relations.{relation_form, page_relation_form};
ghost use Rattle.dt_claims.specs.Views.{sized, spot, access_of, rows_of};

use crate::apart::{require_apart, same_block};
use crate::ends::{Ending, require_ends};
use crate::outs::{outs_of, side_at};
use crate::places::Places;
use crate::sized::SizedOut;
use crate::spots::{SpotOut, push_pages};
use dt_bits::{NoMemory, Op};
use dt_build::Builder;
use dt_model::Model;
use dt_request::{Link, Requests, Side};
use dt_table::Out;
use std::alloc::Global;

/// How two reads relate.
#[derive(Clone, Copy)]
pub(crate) enum Relation {
    /// Their tables are one.
    OneTable,
    /// Their addresses are one.
    OneCell,
    /// Their tables don't overlap.
    TablesApart,
}

/// How two pages relate.
#[derive(Clone, Copy)]
pub(crate) enum PageRelation {
    /// They are one.
    One,
    /// They don't overlap.
    Apart,
}

// Where the term stands that tells whether two blocks are one.
fn one_block(
    builder: &mut Builder,
    places: Places,
    x: SizedOut,
    y: SizedOut,
) -> Result<u32, NoMemory>
    ensures at { IfOk result (λ t. t ≡ (claim_placed builder.old.terms (one_block (access_of places) (sized x) (sized y))).at) }
    ensures placed { OnOk result (builder.new ≡ placed_in builder.old (claim_placed builder.old.terms (one_block (access_of places) (sized x) (sized y)))) }
{
    if x.exponent == y.exponent {
        same_block(builder, places, x.exponent, x.out.value, y.out.value)
    } else {
        Ok(places.zero)
    }
}

// Where the term stands that tells whether two blocks don't overlap.
fn apart_blocks(
    builder: &mut Builder,
    places: Places,
    x: SizedOut,
    y: SizedOut,
) -> Result<u32, NoMemory>
    ensures at { IfOk result (λ t. t ≡ (claim_placed builder.old.terms (apart_blocks (access_of places) (sized x) (sized y))).at) }
    ensures placed { OnOk result (builder.new ≡ placed_in builder.old (claim_placed builder.old.terms (apart_blocks (access_of places) (sized x) (sized y)))) }
{
    let exponent = x.exponent.max(y.exponent);
    let same = same_block(builder, places, exponent, x.out.value, y.out.value)?;
    builder.not(same)
}

// Where the term stands that tells whether two reads relate so.
fn place_relation(
    builder: &mut Builder,
    places: Places,
    relation: Relation,
    x: SizedOut,
    y: SizedOut,
) -> Result<u32, NoMemory>
    ensures at { IfOk result (λ t. t ≡ (claim_placed builder.old.terms (relation_form (access_of places) relation (sized x) (sized y))).at) }
    ensures placed { OnOk result (builder.new ≡ placed_in builder.old (claim_placed builder.old.terms (relation_form (access_of places) relation (sized x) (sized y)))) }
{
    match relation {
        Relation::OneTable => one_block(builder, places, x, y),
        Relation::OneCell => builder.same(x.out.value, y.out.value),
        Relation::TablesApart => apart_blocks(builder, places, x, y),
    }
}

// Both reads are made, and relate so.
fn require_reads(
    builder: &mut Builder,
    places: Places,
    relation: Relation,
    x: SizedOut,
    y: SizedOut,
) -> Result<(), NoMemory>
    ensures { OnOk result (builder.new ≡ claimed builder.old
        (reads_forms (relation_form (access_of places) relation) (sized x) (sized y))) }
{
    builder.require(x.out.by_then)?;
    builder.require(y.out.by_then)?;
    let related = place_relation(builder, places, relation, x, y)?;
    builder.require(related)
}

// The reads of both sides are made, and relate so.
fn require_sides(
    builder: &mut Builder,
    model: &Model,
    places: Places,
    rows: &[Vec<Out>],
    relation: Relation,
    a: Side,
    b: Side,
) -> Result<(), NoMemory>
    ensures { let d = data_of model.now in
        let outs = rows_of rows.now in
        OnOk result (builder.new ≡ claimed builder.old
        (reads_forms (relation_form (access_of places) relation) (side_at d outs a) (side_at d outs b))) }
{
    let x = side_at(model, rows, a);
    let y = side_at(model, rows, b);
    require_reads(builder, places, relation, x, y)
}

// Where the walks come to both results, their pages are one.
fn require_one_page(
    builder: &mut Builder,
    places: Places,
    x: SizedOut,
    y: SizedOut,
) -> Result<(), NoMemory>
    ensures { OnOk result (builder.new ≡ claimed builder.old (one_page (access_of places) (sized x) (sized y) ∷ [])) }
{
    let both = builder.both(x.out.come, y.out.come)?;
    let never = builder.not(both)?;
    if x.exponent != y.exponent {
        return builder.require(never);
    }
    let same = same_block(builder, places, x.exponent, x.out.value, y.out.value)?;
    let whole = builder.fold(Op::Or, never, same, 0)?;
    builder.require(whole)
}

// Where the walks come to both results, their pages relate so.
fn require_page_pair(
    builder: &mut Builder,
    places: Places,
    relation: PageRelation,
    x: SizedOut,
    y: SizedOut,
) -> Result<(), NoMemory>
    ensures { OnOk result (builder.new ≡ claimed builder.old
        (page_relation_form (access_of places) relation (sized x) (sized y) ∷ [])) }
{
    match relation {
        PageRelation::One => require_one_page(builder, places, x, y),
        PageRelation::Apart => require_apart(builder, places, x, y, y.out.come),
    }
}

// The same, of two pages to which walks can come.
fn require_page_if(
    builder: &mut Builder,
    places: Places,
    relation: PageRelation,
    x: &SpotOut,
    y: &SpotOut,
) -> Result<(), NoMemory>
    ensures { OnOk result (builder.new ≡ claimed builder.old
        (page_if (page_relation_form (access_of places) relation) (spot x.now) (spot y.now))) }
{
    if !(x.live && y.live) {
        return Ok(());
    }
    require_page_pair(builder, places, relation, x.of, y.of)
}

// The page with each of the others.
fn require_page_with(
    builder: &mut Builder,
    places: Places,
    relation: PageRelation,
    page: &SpotOut,
    others: &[SpotOut],
) -> Result<(), NoMemory>
    ensures { OnOk result (builder.new ≡ claimed builder.old
        (flat_map (page_if (page_relation_form (access_of places) relation) (spot page.now)) (map spot others.now))) }
{
    for other in others {
        require_page_if(builder, places, relation, page, other)?;
    }
    Ok(())
}

// Each page of one walk with each of another.
fn require_page_pairs(
    builder: &mut Builder,
    places: Places,
    relation: PageRelation,
    pages: &[SpotOut],
    others: &[SpotOut],
) -> Result<(), NoMemory>
    ensures { OnOk result (builder.new ≡ claimed builder.old
        (flat_map (λ x. flat_map (page_if (page_relation_form (access_of places) relation) x) (map spot others.now)) (map spot pages.now))) }
{
    for page in pages {
        require_page_with(builder, places, relation, page, others)?;
    }
    Ok(())
}

/// The results of the walk of an access.
pub(crate) fn access_pages(
    alloc: Global,
    model: &Model,
    requests: &Requests,
    rows: &[Vec<Out>],
    access: u32,
) -> Result<Vec<SpotOut>, NoMemory>
    ensures { IfOk result (λ v. map spot v.items ≡ access_pages (data_of model.now) requests.now (rows_of rows.now) access) }
{
    let mut pages = Vec::new(alloc);
    push_pages(
        alloc,
        model,
        requests,
        access as usize,
        outs_of(rows, access),
        &mut pages,
    )?;
    Ok(pages)
}

// Both walks end with a result, and their pages relate so.
fn require_pages(
    alloc: Global,
    builder: &mut Builder,
    model: &Model,
    requests: &Requests,
    places: Places,
    rows: &[Vec<Out>],
    relation: PageRelation,
    a: u32,
    b: u32,
) -> Result<(), NoMemory>
    ensures { let d = data_of model.now in let r = requests.now in let outs = rows_of rows.now in
        OnOk result (builder.new ≡ claimed builder.old
        (pages_forms d (page_relation_form (access_of places) relation) (outs_of outs a) (outs_of outs b) (access_pages d r outs a) (access_pages d r outs b))) }
{
    require_ends(builder, Ending::Result, model, outs_of(rows, a))?;
    require_ends(builder, Ending::Result, model, outs_of(rows, b))?;
    let pages = access_pages(alloc, model, requests, rows, a)?;
    let others = access_pages(alloc, model, requests, rows, b)?;
    require_page_pairs(
        builder,
        places,
        relation,
        pages.as_slice(),
        others.as_slice(),
    )
}

// The walks relate as the link asks.
fn require_link(
    alloc: Global,
    builder: &mut Builder,
    model: &Model,
    requests: &Requests,
    places: Places,
    rows: &[Vec<Out>],
    link: Link,
) -> Result<(), NoMemory>
    ensures { OnOk result (builder.new ≡ claimed builder.old
        (link_forms (data_of model.now) requests.now (access_of places) (rows_of rows.now) link)) }
{
    match link {
        Link::ShareTable(a, b) => {
            require_sides(builder, model, places, rows, Relation::OneTable, a, b)
        }
        Link::ShareCell(a, b) => {
            require_sides(builder, model, places, rows, Relation::OneCell, a, b)
        }
        Link::ApartTable(a, b) => {
            require_sides(builder, model, places, rows, Relation::TablesApart, a, b)
        }
        Link::SharePage(a, b) => {
            let relation = PageRelation::One;
            require_pages(
                alloc, builder, model, requests, places, rows, relation, a, b,
            )
        }
        Link::ApartPage(a, b) => {
            let relation = PageRelation::Apart;
            require_pages(
                alloc, builder, model, requests, places, rows, relation, a, b,
            )
        }
    }
}

/// Requires what the links ask of the walks. It takes memory for the results of two walks.
pub(crate) fn require_links(
    alloc: Global,
    builder: &mut Builder,
    model: &Model,
    requests: &Requests,
    places: Places,
    rows: &[Vec<Out>],
    links: &[Link],
) -> Result<(), NoMemory>
    ensures { OnOk result (builder.new ≡ claimed builder.old
        (flat_map (link_forms (data_of model.now) requests.now (access_of places) (rows_of rows.now)) links.now)) }
{
    for link in links {
        require_link(alloc, builder, model, requests, places, rows, *link)?;
    }
    Ok(())
}
