ghost use Rattle.std.specs.Prelude.{◌≡◌, ◌∷◌, [], ◌<◌, map, IfOk, OnOk};
ghost use Rattle.std.specs.List.{flat_map};
ghost use Rattle.dt_build.specs.Building.{claimed, placed_in};
ghost use Rattle.dt_forms.specs.Folding.{claim_placed};
ghost use Rattle.dt_table.specs.Kept.{touches_form, kept_form, kept_forms};
ghost use Rattle.dt_table.specs.Spots.{only_if};
ghost use Rattle.dt_claims.specs.Blocks.{not_above, not_below, within};
ghost use Rattle.dt_claims.specs.Views.{sized, spot, access_of};

use crate::places::Places;
use crate::sized::SizedOut;
use crate::spots::SpotOut;
use crate::terms::{number, quotient};
use dt_bits::NoMemory;
use dt_build::Builder;
use dt_request::KeptRange;

// Where the term stands that tells whether the block of an address isn't above this one.
fn not_above(
    builder: &mut Builder,
    width: u32,
    last: u128,
    exponent: u32,
    address: u32,
) -> Result<u32, NoMemory>
    ensures at { IfOk result (λ t. t ≡ (claim_placed builder.old.terms (not_above width last exponent address)).at) }
    ensures placed { OnOk result (builder.new ≡ placed_in builder.old (claim_placed builder.old.terms (not_above width last exponent address))) }
{
    let last = number(builder, width, last)?;
    let block = builder.block(exponent, address)?;
    let above = builder.less(last, block)?;
    builder.not(above)
}

// Where the term stands that tells whether the block of an address isn't below this one.
fn not_below(
    builder: &mut Builder,
    width: u32,
    first: u128,
    exponent: u32,
    address: u32,
) -> Result<u32, NoMemory>
    ensures at { IfOk result (λ t. t ≡ (claim_placed builder.old.terms (not_below width first exponent address)).at) }
    ensures placed { OnOk result (builder.new ≡ placed_in builder.old (claim_placed builder.old.terms (not_below width first exponent address))) }
{
    let block = builder.block(exponent, address)?;
    let first = number(builder, width, first)?;
    let below = builder.less(block, first)?;
    builder.not(below)
}

// Where the term stands that tells whether the block of an address is one of those from a first to a
// last one.
fn within(
    builder: &mut Builder,
    width: u32,
    first: u128,
    last: u128,
    exponent: u32,
    address: u32,
) -> Result<u32, NoMemory>
    ensures at { IfOk result (λ t. t ≡ (claim_placed builder.old.terms (within width first last exponent address)).at) }
    ensures placed { OnOk result (builder.new ≡ placed_in builder.old (claim_placed builder.old.terms (within width first last exponent address))) }
{
    let reached = not_above(builder, width, last, exponent, address)?;
    let begun = not_below(builder, width, first, exponent, address)?;
    builder.both(reached, begun)
}

// Where the term stands that tells whether the block of an address touches the range, which isn't
// empty.
fn touches(
    builder: &mut Builder,
    places: Places,
    exponent: u32,
    kept: KeptRange,
    address: u32,
) -> Result<u32, NoMemory>
    ensures at { IfOk result (λ t. t ≡ (claim_placed builder.old.terms (touches_form (access_of places) exponent kept address)).at) }
    ensures placed { OnOk result (builder.new ≡ placed_in builder.old (claim_placed builder.old.terms (touches_form (access_of places) exponent kept address))) }
{
    if places.address <= exponent {
        return Ok(places.one);
    }
    let first = quotient(kept.lo, exponent);
    let last = quotient(kept.hi.saturating_sub(1), exponent);
    within(builder, places.address, first, last, exponent, address)
}

// Where the term is 1, the block doesn't touch the range.
fn require_kept(
    builder: &mut Builder,
    places: Places,
    kept: KeptRange,
    block: SizedOut,
    made: u32,
) -> Result<(), NoMemory>
    ensures { OnOk result (builder.new ≡ claimed builder.old (kept_form (access_of places) kept (λ _. made) (sized block) ∷ [])) }
{
    let touched = touches(builder, places, block.exponent, kept, block.out.value)?;
    let both = builder.both(made, touched)?;
    let free = builder.not(both)?;
    builder.require(free)
}

// The same, where walks can come to the node.
fn require_kept_if(
    builder: &mut Builder,
    places: Places,
    kept: KeptRange,
    block: &SpotOut,
    made: u32,
) -> Result<(), NoMemory>
    ensures { OnOk result (builder.new ≡ claimed builder.old (only_if block.now.live (kept_form (access_of places) kept (λ _. made) (sized block.now.of)))) }
{
    if !block.live {
        return Ok(());
    }
    require_kept(builder, places, kept, block.of, made)
}

// No page to which the walk comes touches the range.
fn require_pages_kept(
    builder: &mut Builder,
    places: Places,
    pages: &[SpotOut],
    kept: KeptRange,
) -> Result<(), NoMemory>
    ensures { OnOk result (builder.new ≡ claimed builder.old
        (flat_map (λ x. only_if x.live (kept_form (access_of places) kept (λ o. o.come) x.of)) (map spot pages.now))) }
{
    for page in pages {
        require_kept_if(builder, places, kept, page, page.of.out.come)?;
    }
    Ok(())
}

// No table whose read is made touches the range.
fn require_tables_kept(
    builder: &mut Builder,
    places: Places,
    tables: &[SpotOut],
    kept: KeptRange,
) -> Result<(), NoMemory>
    ensures { OnOk result (builder.new ≡ claimed builder.old
        (flat_map (λ x. only_if x.live (kept_form (access_of places) kept (λ o. o.by_then) x.of)) (map spot tables.now))) }
{
    for table in tables {
        require_kept_if(builder, places, kept, table, table.of.out.by_then)?;
    }
    Ok(())
}

// No page and no table touches the range.
fn require_range_kept(
    builder: &mut Builder,
    places: Places,
    pages: &[SpotOut],
    tables: &[SpotOut],
    kept: KeptRange,
) -> Result<(), NoMemory>
    ensures { OnOk result (builder.new ≡ claimed builder.old
        (kept_forms (access_of places) (map spot pages.now) (map spot tables.now) kept)) }
{
    if kept.lo >= kept.hi {
        return Ok(());
    }
    require_pages_kept(builder, places, pages, kept)?;
    require_tables_kept(builder, places, tables, kept)
}

/// Requires for each range that no page to which a walk comes and no table that a walk reads touches
/// it. It takes time for each range with each page and table.
pub(crate) fn require_ranges_kept(
    builder: &mut Builder,
    places: Places,
    pages: &[SpotOut],
    tables: &[SpotOut],
    ranges: &[KeptRange],
) -> Result<(), NoMemory>
    ensures { OnOk result (builder.new ≡ claimed builder.old
        (flat_map (kept_forms (access_of places) (map spot pages.now) (map spot tables.now)) ranges.now)) }
{
    for kept in ranges {
        require_range_kept(builder, places, pages, tables, *kept)?;
    }
    Ok(())
}
