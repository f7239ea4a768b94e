ghost use Rattle.std.specs.Prelude.{◌≡◌, ◌^◌, ◌-◌, ◌<◌, IfOk, IfErr, false, map, length};
ghost use Rattle.dt_lex.specs.Text.{lines_of};
ghost use Rattle.dt_lex.specs.Reading.{Gives};
ghost use Rattle.dt_model.specs.ModelData.{ModelData, data_of};
ghost use Rattle.dt_model.specs.Faults.{HaveArities};
ghost use Rattle.dt_model.specs.Accepted.{accepted_data};
ghost use Rattle.dt_model.specs.Spelled.{HaveNames};
ghost use Rattle.dt_modeltext.specs.Fault.{is_memory};
ghost use Rattle.dt_modeltext.specs.Line.{node_names};
ghost use Rattle.dt_modeltext.specs.Draft.{read_as};
ghost use Rattle.dt_modeltext.specs.Read.{reading, IsModelText, RefusesText};

use crate::fault::ModelFault;
use crate::nodes::node_table;
use crate::origins::Origins;
use crate::reader::ModelReader;
use dt_lex::read_text;
use dt_model::{Accepted, Model, ModelError};
use std::alloc::Global;

/// The model that the lines of a text spell, which isn't checked yet, and the lines of its parts.
fn read_unchecked(alloc: Global, text: &[u8]) -> Result<(Model, Origins), ModelFault>
    requires { length text.now < 2 ^ 32 - 1 }
    ensures value { Gives is_memory read_as result (reading text.now) }
    ensures arities { IfOk result (λ x. HaveArities (data_of x.0)) }
    ensures names { IfOk result (λ x. HaveNames (data_of x.0)) }
    ensures nodes { IfOk result (λ x. node_names (lines_of text.now)
        ≡ map (λ n. n.name) (data_of x.0).nodes) }
{
    let nodes = node_table(alloc, text)?;
    read_text(&ModelReader { alloc, nodes }, text)
}

/// The accepted model that a text spells. It takes time and memory that are linear in the text.
///
/// # Errors
///
/// Where a line is bad, the first of them has a lexical fault (`Lex`), or else is too deep
/// (`Refused`, with `TooDeep` and its number), or else doesn't have the shape that its place asks
/// for (`Form`); `Form` too, with the number behind the last line, where no line `end` comes. Where
/// no line is bad, `Refused` gives the check's refusal and the line of its place. `Memory` may come
/// at any time.
pub fn read_model(alloc: Global, bytes: &[u8]) -> Result<Accepted, ModelFault>
    requires { length bytes.now < 2 ^ 32 - 1 }
    ensures accepted { IfOk result (λ a. IsModelText bytes.now (accepted_data a)) }
    // Each name is one that a token spells.
    ensures names { IfOk result (λ a. HaveNames (accepted_data a)) }
    // Targets are looked up among the model's own nodes.
    ensures nodes { IfOk result
        (λ a. node_names (lines_of bytes.now) ≡ map (λ n. n.name) (accepted_data a).nodes) }
    ensures refused { IfErr result (RefusesText bytes.now) }
    // A text that is refused, and not for want of memory, is no text of an accepted model.
    ensures none { IfErr result
        (λ e. is_memory e ≡ false → (d : ModelData) → IsModelText bytes.now d → ⊥) }
{
    let (model, origins) = read_unchecked(alloc, bytes)?;
    match model.check(alloc) {
        Ok(accepted) => Ok(accepted),
        Err(ModelError::Memory) => Err(ModelFault::Memory),
        Err(ModelError::Refused { refusal, place }) => Err(ModelFault::Refused {
            refusal,
            line: origins.line_of(place),
        }),
    }
}
