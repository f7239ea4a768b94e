ghost use Rattle.std.specs.Prelude.{◌≡◌};
ghost use Rattle.dt_model.specs.ModelData.{data_of};
ghost use Rattle.dt_model.specs.declared.refusal.Place.TheVariants.{Header};
ghost use Rattle.dt_model.specs.Faults.{Breaks, is_word, is_address};
ghost use Rattle.dt_model.specs.Refusals.{IsSmallest};

use crate::{Model, ModelRefusal};

fn is_word(bits: u32) -> bool
    ensures { result ≡ is_word bits }
{
    bits == 8 || bits == 16 || bits == 32 || bits == 64
}

fn is_address(bits: u32) -> bool
    ensures { result ≡ is_address bits }
{
    8 <= bits && bits <= 64
}

/// The refusal of the widths of words and addresses, or of a model with no node.
pub fn header_fault(m: &Model) -> Option<ModelRefusal>
    ensures { IsSmallest (Breaks (data_of m.now) Header) result }
{
    if !is_word(m.word) || !is_address(m.address) {
        Some(ModelRefusal::WidthRange)
    } else if m.nodes.is_empty() {
        Some(ModelRefusal::NoNode)
    } else {
        None
    }
}
