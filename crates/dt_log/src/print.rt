ghost use Rattle.std.specs.Prelude.{◌≡◌, ◌++◌, ◌∷◌, [], IfOk, OnOk, Ok, map};
ghost use Rattle.dt_lex.specs.Numeral.{decimal};
ghost use Rattle.dt_lex.specs.Printing.{row_text};
ghost use Rattle.dt_log.specs.declared.entry.Entry.TheVariants.{Claim as claim_entry, Item as item_entry};
ghost use Rattle.dt_log.specs.Read.{reading};
ghost use Rattle.dt_log.specs.Print.{row_of, text_of_entries, printed};
ghost use Rattle.dt_log.specs.Small.{IsSmall, AreSmall};

use crate::line::{Claim, Line};
use crate::lines::Lines;
use crate::log::Log;
use dt_bits::NoMemory;
use dt_lex::{Piece, push_row};
use std::alloc::{AllocError, Global};

fn push_claim(out: &mut Vec<u8>, claim: Claim) -> Result<(), AllocError>
    ensures text { OnOk result (out.new.items ≡ out.old.items ++ row_text (row_of (claim_entry claim))) }
    ensures small { IsSmall (claim_entry claim) }
{
    match claim {
        Claim::Impossible => push_row(out, b"impossible", &[]),
        Claim::Budget(splits) => push_row(out, b"budget", &[Piece::Decimal(u128::from(splits))]),
    }
}

// A row of a word and a number, and one of a word and two.
fn push_one(out: &mut Vec<u8>, word: &[u8], n: u32) -> Result<(), AllocError>
    ensures { OnOk result (out.new.items ≡ out.old.items ++ row_text (word.now ∷ decimal n ∷ [])) }
{
    push_row(out, word, &[Piece::Decimal(u128::from(n))])
}

fn push_two(out: &mut Vec<u8>, word: &[u8], m: u32, n: u32) -> Result<(), AllocError>
    ensures { OnOk result (out.new.items ≡ out.old.items ++ row_text (word.now ∷ decimal m ∷ decimal n ∷ [])) }
{
    push_row(
        out,
        word,
        &[Piece::Decimal(u128::from(m)), Piece::Decimal(u128::from(n))],
    )
}

fn push_line(out: &mut Vec<u8>, line: Line) -> Result<(), AllocError>
    ensures text { OnOk result (out.new.items ≡ out.old.items ++ row_text (row_of (item_entry line))) }
    ensures small { IsSmall (item_entry line) }
{
    match line {
        Line::Forward { term } => push_one(out, b"forward", term),
        Line::Backward { parent, place } => push_two(out, b"backward", parent, place),
        Line::Try { choice, value } => push_row(
            out,
            b"try",
            &[Piece::Decimal(u128::from(choice)), Piece::Hex(value)],
        ),
        Line::Split { term, bit } => push_two(out, b"split", term, bit),
        Line::Close { term } => push_one(out, b"close", term),
        Line::Loose => push_row(out, b"open", &[]),
        Line::Unvisited => push_row(out, b"unvisited", &[]),
    }
}

#[tactic(auto, using(crate::proofs::Printed::lines_more, crate::proofs::Printed::small_more))]
fn push_lines(out: &mut Vec<u8>, lines: &Lines) -> Result<(), AllocError>
    ensures text { OnOk result (out.new.items ≡ out.old.items ++ text_of_entries (map (λ l. item_entry l) lines.now)) }
    ensures small { OnOk result (AreSmall (map (λ l. item_entry l) lines.now)) }
{
    for i in 0..lines.len() {
        push_line(out, lines.at(i))?;
    }
    Ok(())
}

/// The one printed text of a log, which reads back as the same log: its claim, its items in their
/// order, and `end`. The only error is want of memory. It takes time by the bytes that it prints.
#[tactic(auto, using(crate::proofs::Printed::printed_is, std::proofs::lemmas::List::append_assoc))]
pub fn print_log(alloc: Global, log: &Log) -> Result<Vec<u8>, NoMemory>
    ensures printed { IfOk result (λ text. text.items ≡ printed (log.now.claim, log.now.lines)) }
    ensures reads_back { IfOk result (λ text. reading text.items ≡ Ok (log.now.claim, log.now.lines)) }
{
    let mut out = Vec::new(alloc);
    push_claim(&mut out, log.claim)?;
    push_lines(&mut out, &log.lines)?;
    push_row(&mut out, b"end", &[])?;
    Ok(out)
}
