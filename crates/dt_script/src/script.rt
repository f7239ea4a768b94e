//! How a file of cases is read.
use crate::parts::Part;
use crate::spelling::piece;
use std::alloc::{AllocError, AllocFailed, Global};

/// Adds a piece to the text of the last part; one that stands before all parts is left out.
fn add_piece(parts: &mut Vec<Part>, piece: &str) -> Result<(), AllocError> {
    if let Some(part) = parts.as_mut_slice().last_mut() {
        part.text.push_str(piece)?;
    }
    Ok(())
}

/// Begins a part with a header line, at whose end a piece may stand.
fn add_header(alloc: Global, parts: &mut Vec<Part>, line: &str) -> Result<(), AllocError> {
    let (word, rest) = line.split_once(' ').unwrap_or((line, ""));
    let piece = piece(alloc, parts.as_slice(), rest)?;
    let part = match piece {
        Some(text) => Part {
            word: String::from_str(alloc, word)?,
            rest: String::new(alloc),
            text,
        },
        None => Part {
            word: String::from_str(alloc, word)?,
            rest: String::from_str(alloc, rest)?,
            text: String::new(alloc),
        },
    };
    parts.push(part)?;
    Ok(())
}

fn add_line(alloc: Global, parts: &mut Vec<Part>, line: &str) -> Result<(), AllocError> {
    if line.is_empty() || line.starts_with('#') {
        return Ok(());
    }
    match piece(alloc, parts.as_slice(), line)? {
        Some(piece) => add_piece(parts, piece.as_str()),
        None => add_header(alloc, parts, line),
    }
}

/// The parts of a file of cases, in order.
pub fn parts_of(alloc: Global, file: &str) -> Result<Vec<Part>, AllocError> {
    let mut parts = Vec::new(alloc);
    for line in file.lines() {
        add_line(alloc, &mut parts, line)?;
    }
    Ok(parts)
}
