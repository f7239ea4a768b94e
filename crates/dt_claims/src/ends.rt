ghost use Rattle.std.specs.Prelude.{◌≡◌, OnOk};
ghost use Rattle.dt_model.specs.ModelData.{act_of, data_of};
ghost use Rattle.dt_model.specs.Faults.{steps};
ghost use Rattle.dt_model.specs.Flow.{steps_of};
ghost use Rattle.dt_build.specs.Building.{claimed};
ghost use Rattle.dt_table.specs.Claims.{ends_only};
ghost use Rattle.dt_ways.specs.Ends.{is_end};
ghost use Rattle.dt_claims.specs.Endings.{passes};
ghost use Rattle.dt_claims.specs.Steps.{end_forms};

use dt_bits::NoMemory;
use dt_build::Builder;
use dt_model::{Act, Model, Node};
use dt_table::Out;

/// How a walk is asked to end.
#[derive(Clone, Copy)]
pub(crate) enum Ending {
    /// With a result.
    Result,
    /// With a fault of this code.
    Fault(u32),
    /// With a result in a page of two to this many bytes.
    Page(u32),
}

// Whether a walk ends there.
fn is_end(act: &Act) -> bool
    ensures { result ≡ is_end (act_of act.now) }
{
    matches!(act, Act::Fault { .. } | Act::Done { .. })
}

/// Whether a walk may end there.
pub(crate) fn passes(ending: Ending, act: &Act) -> bool
    ensures { result ≡ passes ending (act_of act.now) }
{
    match (ending, act) {
        (Ending::Result, Act::Done { .. }) => true,
        (Ending::Fault(asked), Act::Fault { code }) => *code == asked,
        (Ending::Page(asked), Act::Done { page, .. }) => *page == asked,
        _ => false,
    }
}

// The walk doesn't come to the node, where it ends there otherwise.
fn require_end(builder: &mut Builder, ending: Ending, act: &Act, out: Out) -> Result<(), NoMemory>
    ensures { OnOk result (builder.new ≡ claimed builder.old (end_forms (passes ending) (act_of act.now) out)) }
{
    if is_end(act) && !passes(ending, act) {
        return builder.require(out.away);
    }
    Ok(())
}

// The walk comes to no end among these nodes but those that pass.
fn require_ends_among(
    builder: &mut Builder,
    ending: Ending,
    nodes: &[Node],
    outs: &[Out],
) -> Result<(), NoMemory>
    ensures { OnOk result (builder.new ≡ claimed builder.old (ends_only (passes ending) (steps_of nodes.now) outs.now)) }
{
    for (node, out) in nodes.iter().zip(outs) {
        require_end(builder, ending, &node.act, *out)?;
    }
    Ok(())
}

/// Requires that the walk comes to no end but those that pass.
pub(crate) fn require_ends(
    builder: &mut Builder,
    ending: Ending,
    model: &Model,
    outs: &[Out],
) -> Result<(), NoMemory>
    ensures { OnOk result (builder.new ≡ claimed builder.old (ends_only (passes ending) (steps (data_of model.now)) outs.now)) }
{
    require_ends_among(builder, ending, model.nodes.as_slice(), outs)
}
