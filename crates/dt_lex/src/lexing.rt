ghost use Rattle.std.specs.Prelude.{◌≡◌, ◌++◌, ◌≤◌, ◌<◌, ◌-◌, ◌^◌, length, OnOk, IfOk, slice_range};
ghost use Rattle.dt_lex.specs.Text.{tokens_of};
ghost use Rattle.dt_lex.specs.Reading.{Gives};
ghost use Rattle.dt_lex.specs.Spans.{numbered, tokens_in, lexed_in, lexed, spans_of, on_line, all_tokens, AreInOrder, is_memory};

use crate::fault::LexFault;
use crate::spans::{Lexed, Token};
use crate::text::{fault_in, first_token, line_len};
use std::alloc::{AllocError, Global};

/// Pushes the tokens of the line that stands from `from` up to `to`.
#[tactic(auto, using(crate::proofs::Spanned::token_more, crate::proofs::Spanned::token_end, crate::proofs::Spanned::in_order_more, crate::proofs::Spanned::in_order_wider, crate::proofs::Located::span_more, crate::proofs::Located::span_end))]
fn push_tokens(
    text: &[u8],
    from: usize,
    to: usize,
    number: u32,
    tokens: &mut Vec<Token>,
) -> Result<(), AllocError>
    requires range { (from ≤ to) × (to ≤ length text.now) × (length text.now < 2 ^ 32 - 1) }
    requires before { AreInOrder 0 from tokens.old.items }
    ensures pushed { OnOk result (
        tokens_in text.now tokens.new.items
        ≡ tokens_in text.now tokens.old.items
        ++ numbered number (tokens_of (slice_range text.now from to))) }
    ensures spans { OnOk result (tokens.new.items
        ≡ tokens.old.items ++ on_line number (spans_of from (slice_range text.now from to))) }
    ensures in_order { OnOk result (AreInOrder 0 to tokens.new.items) }
{
    let mut at = from;
    while let Some((start, end)) = first_token(&text[at..to]) {
        tokens.push(Token {
            line: number,
            start: (at + start) as u32,
            end: (at + end) as u32,
        })?;
        at += end;
    }
    Ok(())
}

/// The number of lines and the tokens of a text, or the first line whose bytes are at fault:
/// LineTooLong where it has more than 16,384 bytes, else BadByte where a byte before its comment
/// is neither printable ASCII nor a tab or carriage return.
pub fn lex(alloc: Global, bytes: &[u8]) -> Result<Lexed, LexFault>
    requires { length bytes.now < 2 ^ 32 - 1 }
    ensures lexed { Gives is_memory (lexed_in bytes.now) result (lexed bytes.now) }
    ensures spans { IfOk result (λ l. l.tokens.items ≡ all_tokens bytes.now) }
    ensures in_order { IfOk result (λ l. AreInOrder 0 (length bytes.now) l.tokens.items) }
{
    let mut tokens = Vec::new(alloc);
    let mut lines = 0u32;
    let mut from = 0;
    while from < bytes.len() {
        let to = from + line_len(&bytes[from..]);
        lines += 1;
        if let Some(fault) = fault_in(lines, &bytes[from..to]) {
            return Err(fault);
        }
        push_tokens(bytes, from, to, lines, &mut tokens)?;
        from = to + 1;
    }
    Ok(Lexed { lines, tokens })
}
