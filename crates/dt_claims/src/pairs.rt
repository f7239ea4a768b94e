ghost use Rattle.std.specs.Prelude.{◌≡◌, ◌∷◌, [], map, OnOk};
ghost use Rattle.std.specs.List.{flat_map};
ghost use Rattle.dt_build.specs.Building.{claimed};
ghost use Rattle.dt_table.specs.Claims.{pair_form};
ghost use Rattle.dt_table.specs.Pairs.{pair_if, pair_forms};
ghost use Rattle.dt_claims.specs.Views.{spot};

use crate::spots::{SpotOut, can_meet};
use dt_bits::{NoMemory, Op};
use dt_build::Builder;
use dt_table::Out;

// Where both reads are made and at one cell, their words are one.
fn require_pair(builder: &mut Builder, a: Out, b: Out) -> Result<(), NoMemory>
    ensures { OnOk result (builder.new ≡ claimed builder.old (pair_form a b ∷ [])) }
{
    let made = builder.both(a.by_then, b.by_then)?;
    let cell = builder.same(a.value, b.value)?;
    let both = builder.both(made, cell)?;
    let apart = builder.not(both)?;
    let word = builder.same(a.word, b.word)?;
    let whole = builder.fold(Op::Or, apart, word, 0)?;
    builder.require(whole)
}

// The same, of two reads to which walks can come.
fn require_pair_if(builder: &mut Builder, x: &SpotOut, y: &SpotOut) -> Result<(), NoMemory>
    ensures { OnOk result (builder.new ≡ claimed builder.old (pair_if (spot x.now) (spot y.now))) }
{
    if !can_meet(x, y) {
        return Ok(());
    }
    require_pair(builder, x.of.out, y.of.out)
}

// The read with each of the others.
fn require_pairs_of(
    builder: &mut Builder,
    read: &SpotOut,
    others: &[SpotOut],
) -> Result<(), NoMemory>
    ensures { OnOk result (builder.new ≡ claimed builder.old (flat_map (pair_if (spot read.now)) (map spot others.now))) }
{
    for other in others {
        require_pair_if(builder, read, other)?;
    }
    Ok(())
}

/// Requires for each two reads that their words are one where both are made and at one cell. It takes
/// time for each two reads.
pub(crate) fn require_pairs(builder: &mut Builder, reads: &[SpotOut]) -> Result<(), NoMemory>
    ensures { OnOk result (builder.new ≡ claimed builder.old (pair_forms (map spot reads.now))) }
{
    for (n, read) in reads.iter().enumerate() {
        require_pairs_of(builder, read, &reads[n + 1..])?;
    }
    Ok(())
}
