ghost use Rattle.std.specs.Prelude.{◌≡◌, ◌++◌, IfOk, OnOk, Ok, map};
ghost use Rattle.dt_lex.specs.Printing.{row_text};
ghost use Rattle.dt_model.specs.Accepted.{accepted_data};
ghost use Rattle.dt_image.specs.declared.line.Line.TheVariants.{Tables as tables_line, Context as context_line, Access as access_line, Word as word_line};
ghost use Rattle.dt_image.specs.Images.{IsImage};
ghost use Rattle.dt_image.specs.Read.{reading};
ghost use Rattle.dt_image.specs.Print.{row_of, text_of_lines, printed};

use crate::image::{Image, ImageAccess};
use dt_bits::{NoMemory, Seq, Word};
use dt_lex::{Piece, push_row};
use dt_model::Accepted;
use std::alloc::{AllocError, Global};

#[tactic(auto, using(crate::proofs::Printed::hexes_last))]
fn push_context(out: &mut Vec<u8>, values: &[u128]) -> Result<(), AllocError>
    ensures { OnOk result (
        out.new.items ≡ out.old.items ++ row_text (row_of (context_line values.now))) }
{
    push_row(out, b"context", &[Piece::Hexes(values)])
}

#[tactic(auto, using(crate::proofs::Printed::hexes_last))]
fn push_access(out: &mut Vec<u8>, access: &ImageAccess) -> Result<(), AllocError>
    ensures { OnOk result (
        out.new.items ≡ out.old.items ++ row_text (row_of (access_line access.now.context access.now.inputs))) }
{
    push_row(
        out,
        b"access",
        &[
            Piece::Decimal(u128::from(access.context)),
            Piece::Hexes(access.inputs.as_slice()),
        ],
    )
}

fn push_word(out: &mut Vec<u8>, word: Word) -> Result<(), AllocError>
    ensures { OnOk result (
        out.new.items ≡ out.old.items ++ row_text (row_of (word_line word))) }
{
    push_row(
        out,
        b"word",
        &[Piece::Hex(word.address), Piece::Hex(word.value)],
    )
}

#[tactic(auto, using(crate::proofs::Printed::lines_more))]
fn push_contexts(out: &mut Vec<u8>, contexts: &[Seq<u128>]) -> Result<(), AllocError>
    ensures { OnOk result (
        out.new.items ≡ out.old.items ++ text_of_lines (map (λ vs. context_line vs) contexts.now)) }
{
    for values in contexts {
        push_context(out, values.as_slice())?;
    }
    Ok(())
}

#[tactic(auto, using(crate::proofs::Printed::lines_more))]
fn push_accesses(out: &mut Vec<u8>, accesses: &[ImageAccess]) -> Result<(), AllocError>
    ensures { OnOk result (
        out.new.items ≡ out.old.items ++ text_of_lines (map (λ a. access_line a.context a.inputs) accesses.now)) }
{
    for access in accesses {
        push_access(out, access)?;
    }
    Ok(())
}

#[tactic(auto, using(crate::proofs::Printed::lines_more))]
fn push_words(out: &mut Vec<u8>, words: &[Word]) -> Result<(), AllocError>
    ensures { OnOk result (
        out.new.items ≡ out.old.items ++ text_of_lines (map (λ w. word_line w) words.now)) }
{
    for word in words {
        push_word(out, *word)?;
    }
    Ok(())
}

/// The one printed text of an image, which reads back as the same image: `image 1`, the bounds of
/// table memory, then the contexts, the accesses and the listed words in their order, and `end`.
/// The image is of the model. The only error is want of memory.
#[tactic(auto, using(crate::proofs::Printed::printed_is, std::proofs::lemmas::List::append_assoc))]
pub fn print_image(alloc: Global, model: &Accepted, image: &Image) -> Result<Vec<u8>, NoMemory>
    requires { IsImage (accepted_data model.now) image.now }
    ensures printed { IfOk result (λ text. text.items ≡ printed image.now) }
    ensures reads_back { IfOk result (λ text.
        reading (accepted_data model.now) text.items ≡ Ok image.now) }
{
    let mut out = Vec::new(alloc);
    push_row(&mut out, b"image", &[Piece::Word(b"1")])?;
    let bounds = [Piece::Hex(image.memory.lo), Piece::Hex(image.memory.hi)];
    push_row(&mut out, b"tables", &bounds)?;
    // A list has fewer than 2^64 elements, so the position of a context is a number that reads back.
    let _count = image.contexts.len();
    push_contexts(&mut out, image.contexts.as_slice())?;
    push_accesses(&mut out, image.accesses.as_slice())?;
    push_words(&mut out, image.memory.words.as_slice())?;
    push_row(&mut out, b"end", &[])?;
    Ok(out)
}
