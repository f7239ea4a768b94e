// The rows of one run.
ghost use Rattle.std.specs.Prelude.{◌≡◌, ◌++◌, OnOk, map};
ghost use Rattle.dt_lex.specs.Printing.{row_text, text_of};
ghost use Rattle.dt_model.specs.ModelData.{data_of};
ghost use Rattle.dt_request.specs.Entry.{node_names};
ghost use Rattle.dt_request.specs.Print.{name_text};
ghost use Rattle.dt_walk.specs.Walkers.{run_data};
ghost use Rattle.dt_walktext.specs.Printed.{read_row, end_row, run_rows};

use dt_lex::{Piece, push_row};
use dt_model::Model;
use dt_walk::{End, ReadMade, Run};
use std::alloc::AllocError;

#[tactic(auto, using(crate::proofs::RunRows::names))]
fn name_of(model: &Model, node: u32) -> &[u8]
    ensures { result.now ≡ name_text (node_names (data_of model.now)) node }
{
    match model.nodes.as_slice().get(node as usize) {
        Some(found) => found.name.bytes(),
        None => b"",
    }
}

fn push_read(out: &mut Vec<u8>, model: &Model, read: ReadMade) -> Result<(), AllocError>
    ensures { OnOk result (out.new.items ≡ out.old.items ++ row_text (read_row (data_of model.now) read)) }
{
    let pieces = [
        Piece::Word(name_of(model, read.node)),
        Piece::Hex(read.cell),
        Piece::Hex(read.word),
    ];
    push_row(out, b"read", &pieces)
}

#[tactic(auto, using(crate::proofs::RunRows::read_more))]
fn push_reads(out: &mut Vec<u8>, model: &Model, reads: &[ReadMade]) -> Result<(), AllocError>
    ensures { OnOk result (out.new.items ≡ out.old.items ++ text_of (map (read_row (data_of model.now)) reads.now)) }
{
    for read in reads {
        push_read(out, model, *read)?;
    }
    Ok(())
}

fn push_end(out: &mut Vec<u8>, model: &Model, end: End) -> Result<(), AllocError>
    ensures { OnOk result (out.new.items ≡ out.old.items ++ row_text (end_row (data_of model.now) end)) }
{
    match end {
        End::Done { node, pa, page } => {
            let pieces = [
                Piece::Word(name_of(model, node)),
                Piece::Hex(pa),
                Piece::Decimal(u128::from(page)),
            ];
            push_row(out, b"done", &pieces)
        }
        End::Fault { node, code } => {
            let pieces = [
                Piece::Word(name_of(model, node)),
                Piece::Decimal(u128::from(code)),
            ];
            push_row(out, b"fault", &pieces)
        }
    }
}

/// Appends the run of an access: its number, its reads, its end.
#[tactic(auto, using(crate::proofs::RunRows::run_text))]
pub fn push_run(
    out: &mut Vec<u8>,
    model: &Model,
    access: usize,
    run: &Run,
) -> Result<(), AllocError>
    ensures { OnOk result (out.new.items ≡ out.old.items ++ text_of (run_rows (data_of model.now) access (run_data run.now))) }
{
    push_row(out, b"access", &[Piece::Decimal(access as u128)])?;
    push_reads(out, model, run.reads.as_slice())?;
    push_end(out, model, run.end)
}
