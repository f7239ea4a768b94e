ghost use Rattle.std.specs.Prelude.{◌≡◌, slice_get};
ghost use Rattle.dt_model.specs.ModelData.{data_of};
ghost use Rattle.dt_model.specs.Widths.{width_at};
ghost use Rattle.dt_model.specs.Flow.{steps_of};
ghost use Rattle.dt_request.specs.Lists.{read_width, width_of};
ghost use Rattle.dt_table.specs.Demands.{quantity_width};

use dt_model::{Act, Model, Named, Node};
use dt_request::Quantity;

// The width of the name at a position.
fn width_at(names: &[Named], at: u32) -> Option<u32>
    ensures { result ≡ width_at names.now at }
{
    names.get(at as usize).map(|named| named.width)
}

// The width, where the node is a read.
fn read_width(nodes: &[Node], width: u32, node: u32) -> Option<u32>
    ensures { result ≡ read_width width (slice_get (steps_of nodes.now) node) }
{
    match nodes.get(node as usize) {
        Some(node) => match node.act {
            Act::Read { .. } => Some(width),
            _ => None,
        },
        None => None,
    }
}

// How many bits a quantity has, where there is one.
fn width_of(model: &Model, of: Quantity) -> Option<u32>
    ensures { result ≡ width_of (data_of model.now) of }
{
    match of {
        Quantity::Reg(reg) => width_at(model.regs.as_slice(), reg),
        Quantity::Input(input) => width_at(model.inputs.as_slice(), input),
        Quantity::Word(node) => read_width(model.nodes.as_slice(), model.word, node),
        Quantity::Cell(node) => read_width(model.nodes.as_slice(), model.address, node),
        Quantity::Pa => Some(model.address),
    }
}

/// How many bits a quantity of the model has.
pub(crate) fn quantity_width(model: &Model, of: Quantity) -> u32
    ensures { result ≡ quantity_width (data_of model.now) of }
{
    width_of(model, of).unwrap_or(1)
}
