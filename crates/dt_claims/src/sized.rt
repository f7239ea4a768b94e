ghost use Rattle.std.specs.Prelude.{◌≡◌, ◌++◌, map, OnOk};
ghost use Rattle.dt_model.specs.ModelData.{act_of, data_of};
ghost use Rattle.dt_model.specs.Faults.{steps};
ghost use Rattle.dt_model.specs.Flow.{steps_of};
ghost use Rattle.dt_table.specs.Apart.{pages_at};
ghost use Rattle.dt_claims.specs.Steps.{page_at};
ghost use Rattle.dt_claims.specs.Views.{sized};

use dt_bits::NoMemory;
use dt_model::{Act, Model, Node};
use dt_table::Out;

/// What stands for a node, with the exponent of its page or table.
#[derive(Clone, Copy)]
pub(crate) struct SizedOut {
    pub exponent: u32,
    pub out: Out,
}

// The node, where it is a result.
fn push_page(act: &Act, out: Out, pages: &mut Vec<SizedOut>) -> Result<(), NoMemory>
    ensures { OnOk result (map sized pages.new.items ≡ map sized pages.old.items ++ page_at (act_of act.now) out) }
{
    match act {
        Act::Done { page, .. } => {
            pages.push(SizedOut {
                exponent: *page,
                out,
            })?;
            Ok(())
        }
        _ => Ok(()),
    }
}

// What stands for the results among these nodes, with their pages.
fn push_pages_among(nodes: &[Node], outs: &[Out], pages: &mut Vec<SizedOut>) -> Result<(), NoMemory>
    ensures { OnOk result (map sized pages.new.items ≡ map sized pages.old.items
        ++ pages_at (steps_of nodes.now) outs.now) }
{
    for (node, out) in nodes.iter().zip(outs) {
        push_page(&node.act, *out, pages)?;
    }
    Ok(())
}

/// Appends what stands for the results of a walk, with their pages.
pub(crate) fn push_pages(
    model: &Model,
    outs: &[Out],
    pages: &mut Vec<SizedOut>,
) -> Result<(), NoMemory>
    ensures { OnOk result (map sized pages.new.items ≡ map sized pages.old.items
        ++ pages_at (steps (data_of model.now)) outs.now) }
{
    push_pages_among(model.nodes.as_slice(), outs, pages)
}
