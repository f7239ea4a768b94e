ghost use Rattle.std.specs.Prelude.{◌≡◌, ◌∷◌, [], map, IfOk, OnOk};
ghost use Rattle.dt_build.specs.Building.{claimed, placed_in};
ghost use Rattle.dt_forms.specs.Folding.{claim_placed};
ghost use Rattle.dt_table.specs.Demands.{is_masked_form, is_within_form, result_form};
ghost use Rattle.dt_claims.specs.Tests.{test_form};
ghost use Rattle.dt_claims.specs.Views.{sized};

use crate::sized::SizedOut;
use crate::terms::number;
use dt_bits::{NoMemory, Op};
use dt_build::Builder;

/// A test of a number.
#[derive(Clone, Copy)]
pub(crate) enum Test {
    /// It has this value in the bits of the mask.
    Masked { mask: u128, value: u128 },
    /// It is from `lo` to `hi`, both among them.
    Within { lo: u128, hi: u128 },
}

// Where the term stands that tells whether a number has this value in the bits of the mask.
fn place_masked(
    builder: &mut Builder,
    width: u32,
    mask: u128,
    value: u128,
    term: u32,
) -> Result<u32, NoMemory>
    ensures at { IfOk result (λ t. t ≡ (claim_placed builder.old.terms (is_masked_form width mask value term)).at) }
    ensures placed { OnOk result (builder.new ≡ placed_in builder.old (claim_placed builder.old.terms (is_masked_form width mask value term))) }
{
    let mask = number(builder, width, mask)?;
    let masked = builder.both(term, mask)?;
    let value = number(builder, width, value)?;
    builder.same(masked, value)
}

// Where the term stands that tells whether a number is from `lo` to `hi`.
fn place_within(
    builder: &mut Builder,
    width: u32,
    lo: u128,
    hi: u128,
    term: u32,
) -> Result<u32, NoMemory>
    ensures at { IfOk result (λ t. t ≡ (claim_placed builder.old.terms (is_within_form width lo hi term)).at) }
    ensures placed { OnOk result (builder.new ≡ placed_in builder.old (claim_placed builder.old.terms (is_within_form width lo hi term))) }
{
    let lo = number(builder, width, lo)?;
    let below = builder.less(term, lo)?;
    let begun = builder.not(below)?;
    let hi = number(builder, width, hi)?;
    let above = builder.less(hi, term)?;
    let reached = builder.not(above)?;
    builder.both(begun, reached)
}

// Where the term stands that tells whether a number of this width passes the test.
fn place_test(builder: &mut Builder, width: u32, test: Test, term: u32) -> Result<u32, NoMemory>
    ensures at { IfOk result (λ t. t ≡ (claim_placed builder.old.terms (test_form width test term)).at) }
    ensures placed { OnOk result (builder.new ≡ placed_in builder.old (claim_placed builder.old.terms (test_form width test term))) }
{
    match test {
        Test::Masked { mask, value } => place_masked(builder, width, mask, value, term),
        Test::Within { lo, hi } => place_within(builder, width, lo, hi, term),
    }
}

/// Requires that the number passes the test.
pub(crate) fn require_test(
    builder: &mut Builder,
    width: u32,
    test: Test,
    term: u32,
) -> Result<(), NoMemory>
    ensures { OnOk result (builder.new ≡ claimed builder.old (test_form width test term ∷ [])) }
{
    let passes = place_test(builder, width, test, term)?;
    builder.require(passes)
}

// The result passes the test, where the walk comes to it.
fn require_result_test(
    builder: &mut Builder,
    width: u32,
    test: Test,
    page: SizedOut,
) -> Result<(), NoMemory>
    ensures { OnOk result (builder.new ≡ claimed builder.old (result_form (test_form width test) (sized page) ∷ [])) }
{
    let passes = place_test(builder, width, test, page.out.value)?;
    let whole = builder.fold(Op::Or, page.out.away, passes, 0)?;
    builder.require(whole)
}

/// Requires that each result passes the test, where the walk comes to it.
pub(crate) fn require_result_tests(
    builder: &mut Builder,
    width: u32,
    test: Test,
    pages: &[SizedOut],
) -> Result<(), NoMemory>
    ensures { OnOk result (builder.new ≡ claimed builder.old (map (result_form (test_form width test)) (map sized pages.now))) }
{
    for page in pages {
        require_result_test(builder, width, test, *page)?;
    }
    Ok(())
}
