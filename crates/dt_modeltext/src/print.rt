ghost use Rattle.std.specs.Prelude.{◌≡◌, ◌^◌, ◌-◌, ◌<◌, ◌≤◌, ◌++◌, IfOk, OnOk, length, All};
ghost use Rattle.dt_lex.specs.Text.{lines_of};
ghost use Rattle.dt_model.specs.ModelData.{data_of};
ghost use Rattle.dt_model.specs.Accepted.{accepted_data};
ghost use Rattle.dt_modeltext.specs.Read.{IsModelText};
ghost use Rattle.dt_modeltext.specs.Print.{printed};

use crate::print::row::{push_names, push_nodes, push_rules, push_size};
use dt_bits::NoMemory;
use dt_lex::{Piece, push_row};
use dt_model::{Accepted, Model};
use std::alloc::{AllocError, Global};

mod expr;
mod piece;
mod row;

fn push_model(out: &mut Vec<u8>, model: &Model) -> Result<(), AllocError>
    ensures { OnOk result (out.new.items ≡ out.old.items ++ printed (data_of model.now)) }
{
    push_row(out, b"model", &[Piece::Word(b"1")])?;
    push_size(out, b"word", model.word)?;
    push_size(out, b"address", model.address)?;
    push_names(out, b"reg", model.regs.as_slice())?;
    push_names(out, b"input", model.inputs.as_slice())?;
    push_names(out, b"var", model.vars.as_slice())?;
    push_rules(out, model, b"context", model.legal_context.as_slice())?;
    push_rules(out, model, b"access", model.legal_access.as_slice())?;
    push_nodes(out, model)?;
    push_row(out, b"end", &[])?;
    Ok(())
}

/// The one printed text of an accepted model, which reads back as the same model: its sizes,
/// registers, inputs, variables, rules and nodes in their order, one line each. The time is linear
/// in the text, and the only error is want of memory.
pub fn print_model(alloc: Global, model: &Accepted) -> Result<Vec<u8>, NoMemory>
    ensures printed { IfOk result (λ text. text.items ≡ printed (accepted_data model.now)) }
    ensures reads_back { IfOk result (λ text. IsModelText text.items (accepted_data model.now)) }
    // So `read_model` may be called on it.
    ensures few_bytes { IfOk result (λ text. length text.items < 2 ^ 32 - 1) }
    ensures short { IfOk result (λ text. All (λ line. length line ≤ 16384) (lines_of text.items)) }
{
    let mut out = Vec::new(alloc);
    push_model(&mut out, model.model())?;
    Ok(out)
}
