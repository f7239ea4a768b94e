//! Lines, tokens, numbers and names of a source.
use crate::output::push_named;
use crate::stop::Stop;
use dt_lex::{Name, Token, lex, next_line, number, push_decimal, push_hex};
use dt_script::Case;
use std::alloc::{AllocError, Global};

fn push_tokens(out: &mut String, tokens: &[Token]) -> Result<(), AllocError> {
    for token in tokens {
        writeln!(out, "{} {} {}", token.line, token.start, token.end)?;
    }
    Ok(())
}

/// How many lines the source has, and where its tokens stand.
pub fn lexed(alloc: Global, case: Case, out: &mut String) -> Result<(), Stop> {
    let lexed = lex(alloc, case.text("source").as_bytes())?;
    writeln!(out, "lines {}", lexed.lines)?;
    push_tokens(out, lexed.tokens.as_slice())?;
    Ok(())
}

/// The lines of the source.
pub fn lines(case: Case, out: &mut String) -> Result<(), AllocError> {
    let mut rest = case.text("source").as_bytes();
    while let Some((line, after)) = next_line(rest) {
        push_named(out, "", line)?;
        rest = after;
    }
    Ok(())
}

/// A number in both bases.
fn printed(alloc: Global, number: u128) -> Result<Vec<u8>, AllocError> {
    let mut bytes = Vec::new(alloc);
    push_decimal(&mut bytes, number)?;
    bytes.push(b' ')?;
    push_hex(&mut bytes, number)?;
    Ok(bytes)
}

fn push_number(alloc: Global, out: &mut String, spelled: &str) -> Result<(), AllocError> {
    match number(spelled.as_bytes()) {
        None => out.push_str("none\n"),
        Some(number) => push_named(out, "", printed(alloc, number)?.as_slice()),
    }
}

/// The numbers that the lines of the source spell, printed in both bases.
pub fn numbers(alloc: Global, case: Case, out: &mut String) -> Result<(), AllocError> {
    for line in case.text("source").lines() {
        push_number(alloc, out, line)?;
    }
    Ok(())
}

fn push_name(out: &mut String, spelled: &str) -> Result<(), AllocError> {
    match Name::read(spelled.as_bytes()) {
        None => out.push_str("none\n"),
        Some(name) => push_named(out, "", name.bytes()),
    }
}

/// The names that the lines of the source spell.
pub fn names(case: Case, out: &mut String) -> Result<(), AllocError> {
    for line in case.text("source").lines() {
        push_name(out, line)?;
    }
    Ok(())
}
