//! The pieces of texts, as they are spelled in a file of cases.
use crate::parts::Part;
use std::alloc::{AllocError, Global};

/// What stands for a character behind a backslash.
fn escaped(c: char) -> char {
    match c {
        'n' => '\n',
        't' => '\t',
        'r' => '\r',
        '1' => '\u{1}',
        _ => c,
    }
}

fn push_spelled(out: &mut String, spelled: &str) -> Result<(), AllocError> {
    let mut is_escaped = false;
    for c in spelled.chars() {
        if is_escaped {
            out.push(escaped(c))?;
            is_escaped = false;
        } else if c == '\\' {
            is_escaped = true;
        } else {
            out.push(c)?;
        }
    }
    Ok(())
}

fn push_times(out: &mut String, piece: &str) -> Result<(), AllocError> {
    if let Some((count, spelled)) = piece.split_once(' ') {
        for _ in 0..count.parse::<u32>().unwrap_or(0) {
            push_spelled(out, spelled)?;
        }
    }
    Ok(())
}

/// The text of this name.
fn text_named<'a>(parts: &'a [Part], name: &str) -> &'a str {
    for part in parts {
        if part.word.as_str() == "text" && part.rest.as_str() == name {
            return part.text.as_str();
        }
    }
    "there is no such text\n"
}

/// The text of a piece; None where the line is none.
pub fn piece(alloc: Global, parts: &[Part], line: &str) -> Result<Option<String>, AllocError> {
    let mut out = String::new(alloc);
    if let Some(spelled) = line.strip_prefix('|') {
        push_spelled(&mut out, spelled)?;
        out.push('\n')?;
    } else if let Some(spelled) = line.strip_prefix(':') {
        push_spelled(&mut out, spelled)?;
    } else if let Some(times) = line.strip_prefix('*') {
        push_times(&mut out, times)?;
    } else if let Some(name) = line.strip_prefix('<') {
        out.push_str(text_named(parts, name))?;
    } else {
        return Ok(None);
    }
    Ok(Some(out))
}
