ghost use Rattle.std.specs.Prelude.{◌≡◌, ◌++◌, ◌∷◌, OnOk, OnErr, take, map, length, vec_len};
ghost use Rattle.std.specs.List.{flat_map};
ghost use Rattle.dt_lex.specs.Numeral.{hex};
ghost use Rattle.dt_lex.specs.Printing.{spaced, row_text, piece_tokens};

use crate::numeral::{push_decimal, push_hex};
use std::alloc::AllocError;

/// Some tokens of a printed row.
#[derive(Clone, Copy, Debug)]
pub enum Piece<'a> {
    /// A word, or a name.
    Word(&'a [u8]),
    /// A number in decimal.
    Decimal(u128),
    /// A number in hexadecimal.
    Hex(u128),
    /// Any number of numbers in hexadecimal.
    Hexes(&'a [u128]),
}

fn push_hexes(out: &mut Vec<u8>, values: &[u128]) -> Result<(), AllocError>
    ensures ok { OnOk result (out.new.items ≡ out.old.items ++ spaced (map hex values.now)) }
{
    for value in values {
        out.push(b' ')?;
        push_hex(out, *value)?;
    }
    Ok(())
}

/// Appends the tokens of a piece, each behind a blank. Where memory runs out some may stand there.
pub fn push_piece(out: &mut Vec<u8>, piece: Piece) -> Result<(), AllocError>
    ensures { OnOk result (out.new.items ≡ out.old.items ++ spaced (piece_tokens piece.entry)) }
{
    match piece {
        Piece::Word(word) => {
            out.push(b' ')?;
            out.extend_from_slice(word)
        }
        Piece::Decimal(value) => {
            out.push(b' ')?;
            push_decimal(out, value)
        }
        Piece::Hex(value) => {
            out.push(b' ')?;
            push_hex(out, value)
        }
        Piece::Hexes(values) => push_hexes(out, values),
    }
}

/// Appends a row: its first word and its further tokens, with one blank between two, and a line
/// feed. Where memory runs out a part of the row may stand there.
pub fn push_row(out: &mut Vec<u8>, word: &[u8], pieces: &[Piece]) -> Result<(), AllocError>
    ensures { OnOk result (
        out.new.items ≡ out.old.items ++ row_text (word.now ∷ flat_map piece_tokens pieces.now)) }
{
    out.extend_from_slice(word)?;
    for piece in pieces {
        push_piece(out, *piece)?;
    }
    out.push(b'\n')?;
    Ok(())
}
