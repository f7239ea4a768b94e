ghost use Rattle.std.specs.Prelude.{◌≡◌};
ghost use Rattle.dt_lex.specs.Text.{tokens_of};
ghost use Rattle.dt_lex.specs.Reading.{Gives};
ghost use Rattle.dt_model.specs.NameTable.{found_in};
ghost use Rattle.dt_modeltext.specs.Fault.{is_memory};
ghost use Rattle.dt_modeltext.specs.Entry.{placed_entry};
ghost use Rattle.dt_modeltext.specs.Draft.{line_data, declared_by, IsDraft};

use crate::depth::is_too_deep;
use crate::draft::Draft;
use crate::fault::ModelFault;
use crate::line::{Line, read_line};
use crate::parser::Parser;
use dt_model::{ModelRefusal, NameTable};
use std::alloc::Global;

/// The line of this number, by its first token and the text behind it, after the lines of a draft.
/// It is kept apart from the lines without tokens, which need none of its room.
///
/// # Errors
///
/// More than 32 opening parentheses stand unclosed in it (`Refused`, with `TooDeep`), or else it
/// doesn't have the shape that its place asks for (`Form`); `Memory` may come in place of both.
#[inline(never)]
#[tactic(auto, using(crate::proofs::Entries::entry_deep, crate::proofs::Entries::entry_none, crate::proofs::Entries::entry_out, crate::proofs::Entries::entry_in))]
pub fn read_entry(
    alloc: Global,
    nodes: &NameTable,
    draft: &Draft,
    number: u32,
    word: &[u8],
    rest: &[u8],
) -> Result<Line, ModelFault>
    requires { IsDraft number draft.now }
    ensures { Gives is_memory (λ l. record { number = number; line = line_data l }) result
        (placed_entry (found_in nodes.now) number (declared_by draft.now) word.now (tokens_of rest.now)) }
{
    if is_too_deep(word, rest) {
        return Err(ModelFault::Refused {
            refusal: ModelRefusal::TooDeep,
            line: number,
        });
    }
    let parser = Parser {
        alloc,
        symbols: draft.symbols(nodes),
    };
    match read_line(&parser, word, rest)? {
        None => Err(ModelFault::Form(number)),
        Some(line) => {
            if draft.allows(&line) {
                Ok(line)
            } else {
                Err(ModelFault::Form(number))
            }
        }
    }
}
