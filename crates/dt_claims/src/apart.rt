ghost use Rattle.std.specs.Prelude.{◌≡◌, ◌∷◌, [], map, max, IfOk, OnOk};
ghost use Rattle.std.specs.List.{flat_map};
ghost use Rattle.dt_build.specs.Building.{claimed, placed_in};
ghost use Rattle.dt_forms.specs.Folding.{claim_placed};
ghost use Rattle.dt_table.specs.Apart.{same_block, apart_form};
ghost use Rattle.dt_table.specs.Pairs.{apart_if, apart_forms};
ghost use Rattle.dt_claims.specs.Views.{sized, spot, access_of};

use crate::places::Places;
use crate::sized::SizedOut;
use crate::spots::{SpotOut, can_meet};
use dt_bits::NoMemory;
use dt_build::Builder;

/// Where the term stands that tells whether two addresses lie in one block of this exponent.
pub(crate) fn same_block(
    builder: &mut Builder,
    places: Places,
    exponent: u32,
    a: u32,
    b: u32,
) -> Result<u32, NoMemory>
    ensures at { IfOk result (λ t. t ≡ (claim_placed builder.old.terms (same_block (access_of places) exponent a b)).at) }
    ensures placed { OnOk result (builder.new ≡ placed_in builder.old (claim_placed builder.old.terms (same_block (access_of places) exponent a b))) }
{
    if places.address <= exponent {
        return Ok(places.one);
    }
    let first = builder.block(exponent, a)?;
    let second = builder.block(exponent, b)?;
    builder.same(first, second)
}

/// Requires that two blocks don't overlap, where the walks come to the first node and the term `other`
/// is 1.
pub(crate) fn require_apart(
    builder: &mut Builder,
    places: Places,
    page: SizedOut,
    block: SizedOut,
    other: u32,
) -> Result<(), NoMemory>
    ensures { OnOk result (builder.new ≡ claimed builder.old (apart_form (access_of places) (λ _. other) (sized page) (sized block) ∷ [])) }
{
    let both = builder.both(page.out.come, other)?;
    let exponent = page.exponent.max(block.exponent);
    let same = same_block(builder, places, exponent, page.out.value, block.out.value)?;
    let overlap = builder.both(both, same)?;
    let apart = builder.not(overlap)?;
    builder.require(apart)
}

// The page overlaps no table whose read is made, where walks can come to both.
fn require_apart_if(
    builder: &mut Builder,
    places: Places,
    page: &SpotOut,
    table: &SpotOut,
) -> Result<(), NoMemory>
    ensures { OnOk result (builder.new ≡ claimed builder.old (apart_if (access_of places) (spot page.now) (spot table.now))) }
{
    if !can_meet(page, table) {
        return Ok(());
    }
    require_apart(builder, places, page.of, table.of, table.of.out.by_then)
}

// The page overlaps no table whose read is made.
fn require_page_apart(
    builder: &mut Builder,
    places: Places,
    page: &SpotOut,
    tables: &[SpotOut],
) -> Result<(), NoMemory>
    ensures { OnOk result (builder.new ≡ claimed builder.old
        (flat_map (apart_if (access_of places) (spot page.now)) (map spot tables.now))) }
{
    for table in tables {
        require_apart_if(builder, places, page, table)?;
    }
    Ok(())
}

/// Requires that no page overlaps a table whose read is made. It takes time for each page with each
/// table.
pub(crate) fn require_pages_apart(
    builder: &mut Builder,
    places: Places,
    pages: &[SpotOut],
    tables: &[SpotOut],
) -> Result<(), NoMemory>
    ensures { OnOk result (builder.new ≡ claimed builder.old
        (apart_forms (access_of places) (map spot pages.now) (map spot tables.now))) }
{
    for page in pages {
        require_page_apart(builder, places, page, tables)?;
    }
    Ok(())
}
