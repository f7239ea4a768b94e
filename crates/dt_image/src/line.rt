ghost use Rattle.std.specs.Prelude.{◌≡◌, IfOk, Option, Some, None, codes};
ghost use Rattle.std.specs.Option.{option_and_then};
ghost use Rattle.dt_lex.specs.Text.{tokens_of};
ghost use Rattle.dt_image.specs.Line.{numbers_of, pair_of, access_of, two_of, spelled};

use dt_bits::{NoMemory, Seq, Word as Stored};
use dt_lex::{is_alone, is_nothing, next_token, number};
use std::alloc::Global;

/// A line of an image text.
#[derive(Debug, Drop)]
pub enum Line {
    /// `image 1`
    Header,
    /// `tables LO HI`
    Tables(u128, u128),
    /// `context V..`
    Context(Seq<u128>),
    /// `access K V..`
    Access(u128, Seq<u128>),
    /// `word ADDRESS VALUE`
    Word(Stored),
    /// `end`
    End,
}

#[tactic(auto, using(crate::proofs::Numbers::numbers_start, crate::proofs::Numbers::numbers_more, crate::proofs::Numbers::numbers_stop, crate::proofs::Numbers::numbers_end))]
fn numbers(alloc: Global, tokens: &[u8]) -> Result<Option<Seq<u128>>, NoMemory>
    ensures { IfOk result (λ found. found ≡ numbers_of (tokens_of tokens.now)) }
{
    let mut found = Seq::new(alloc);
    let mut rest = tokens;
    while let Some((token, after)) = next_token(rest) {
        match number(token) {
            None => return Ok(None),
            Some(n) => {
                found.push(n)?;
                rest = after;
            }
        }
    }
    Ok(Some(found))
}

#[tactic(auto, using(crate::proofs::Numbers::two_at, crate::proofs::Numbers::two_else))]
fn two(numbers: &[u128]) -> Option<(u128, u128)>
    ensures { result ≡ two_of numbers.now }
{
    if numbers.len() == 2 {
        Some((numbers[0], numbers[1]))
    } else {
        None
    }
}

#[tactic(auto, unfolding(crate::specs::Line::pair_of))]
fn pair(alloc: Global, tokens: &[u8]) -> Result<Option<(u128, u128)>, NoMemory>
    ensures { IfOk result (λ found. found ≡ pair_of (tokens_of tokens.now)) }
{
    match numbers(alloc, tokens)? {
        None => Ok(None),
        Some(found) => Ok(two(found.as_slice())),
    }
}

#[tactic(auto, unfolding(crate::specs::Line::numbers_of))]
fn access(alloc: Global, tokens: &[u8]) -> Result<Option<Line>, NoMemory>
    ensures { IfOk result (λ line. line ≡ option_and_then access_of (numbers_of (tokens_of tokens.now))) }
{
    match next_token(tokens) {
        None => Ok(None),
        Some((first, after)) => match number(first) {
            None => Ok(None),
            Some(context) => match numbers(alloc, after)? {
                None => Ok(None),
                Some(inputs) => Ok(Some(Line::Access(context, inputs))),
            },
        },
    }
}

/// The line that its first token and the tokens after it spell, and None where they spell none.
#[tactic(auto, unfolding(crate::specs::Line::spelled))]
pub fn read_line(alloc: Global, first: &[u8], tokens: &[u8]) -> Result<Option<Line>, NoMemory>
    ensures { IfOk result (λ line. line ≡ spelled first.now (tokens_of tokens.now)) }
{
    if first == b"image".as_slice() {
        return Ok(is_alone(b"1", tokens).then_some(Line::Header));
    }
    if first == b"tables".as_slice() {
        return match pair(alloc, tokens)? {
            None => Ok(None),
            Some((lo, hi)) => Ok(Some(Line::Tables(lo, hi))),
        };
    }
    if first == b"context".as_slice() {
        return match numbers(alloc, tokens)? {
            None => Ok(None),
            Some(values) => Ok(Some(Line::Context(values))),
        };
    }
    if first == b"access".as_slice() {
        return access(alloc, tokens);
    }
    if first == b"word".as_slice() {
        return match pair(alloc, tokens)? {
            None => Ok(None),
            Some((address, value)) => Ok(Some(Line::Word(Stored { address, value }))),
        };
    }
    if first == b"end".as_slice() {
        return Ok(is_nothing(tokens).then_some(Line::End));
    }
    Ok(None)
}
