ghost use Rattle.std.specs.Prelude.{◌≡◌, ◌^◌, nat_lt, slice_get};
ghost use Rattle.dt_model.specs.Accepted.{accepted_data};
ghost use Rattle.dt_model.specs.Widths.{width_at};
ghost use Rattle.dt_model.specs.Faults.{steps};
ghost use Rattle.dt_request.specs.Lists.{read_width, width_of};
ghost use Rattle.dt_request.specs.Entry.{quantity_in, can_be};

use crate::asked::AskedQuantity;
use crate::known::{Known, is_read_at};
use crate::list::Quantity;
use dt_model::{Accepted, Named};

/// The quantity of these names.
pub fn quantity_in(known: &Known, asked: AskedQuantity) -> Option<Quantity>
    ensures { result ≡ quantity_in (accepted_data known.now.model.now) asked }
{
    match asked {
        AskedQuantity::Reg(name) => Some(Quantity::Reg(known.reg(&name)?)),
        AskedQuantity::Input(name) => Some(Quantity::Input(known.input(&name)?)),
        AskedQuantity::Word(name) => Some(Quantity::Word(known.read_node(&name)?)),
        AskedQuantity::Cell(name) => Some(Quantity::Cell(known.read_node(&name)?)),
        AskedQuantity::Pa => Some(Quantity::Pa),
    }
}

fn width_at(names: &[Named], i: u32) -> Option<u32>
    ensures { result ≡ width_at names.now i }
{
    Some(names.get(i as usize)?.width)
}

/// The width, where the node at this position is a read.
#[tactic(auto, using(crate::proofs::Steps::read_width_is))]
fn read_width(model: &Accepted, width: u32, node: u32) -> Option<u32>
    ensures { result
        ≡ read_width width (slice_get (steps (accepted_data model.now)) node) }
{
    is_read_at(model, node).then_some(width)
}

/// How many bits a quantity has, where the model has it.
fn width_of(model: &Accepted, of: Quantity) -> Option<u32>
    ensures { result ≡ width_of (accepted_data model.now) of }
{
    let parts = model.model();
    match of {
        Quantity::Reg(i) => width_at(parts.regs.as_slice(), i),
        Quantity::Input(i) => width_at(parts.inputs.as_slice(), i),
        Quantity::Word(node) => read_width(model, parts.word, node),
        Quantity::Cell(node) => read_width(model, parts.address, node),
        Quantity::Pa => Some(parts.address),
    }
}

/// Whether a number of so many bits can be this one.
fn fits(value: u128, width: u32) -> bool
    ensures { result ≡ nat_lt value (2 ^ width) }
{
    width >= 128 || value < 1 << width
}

/// Whether a quantity of the model can be this number.
pub fn can_be(model: &Accepted, of: Quantity, value: u128) -> bool
    ensures { result ≡ can_be (accepted_data model.now) of value }
{
    match width_of(model, of) {
        None => false,
        Some(width) => fits(value, width),
    }
}
