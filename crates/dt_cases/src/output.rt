//! Texts that calls gave, written to an answer.
use crate::stop::Stop;
use std::alloc::AllocError;
use std::str;

/// Writes bytes that are a text.
pub fn push_bytes(out: &mut String, bytes: &[u8]) -> Result<(), AllocError> {
    out.push_str(str::from_utf8(bytes).unwrap_or("no text"))
}

/// Writes bytes that are a text, as the last thing that a call does.
pub fn push_text(out: &mut String, bytes: &[u8]) -> Result<(), Stop> {
    Ok(push_bytes(out, bytes)?)
}

/// Writes a word and a name as a line.
pub fn push_named(out: &mut String, word: &str, name: &[u8]) -> Result<(), AllocError> {
    out.push_str(word)?;
    push_bytes(out, name)?;
    out.push('\n')
}
