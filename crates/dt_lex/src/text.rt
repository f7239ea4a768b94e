ghost use Rattle.std.specs.Prelude.{◌≡◌, ◌==◌, ◌+◌, ◌-◌, ◌≤◌, ◌<◌, ◌∷◌, [], ℕ, not, length, take, drop, MatchOption, IfSome, slice_range};
ghost use Rattle.std.specs.List.{prefix_len, position_or_len};
ghost use Rattle.dt_lex.specs.Text.{lines_of, is_blank, is_paren, is_word, tokens_of, is_bad, has_bad_byte, fault_of};
ghost use Rattle.dt_lex.specs.Spans.{spans_of};

use crate::fault::LexFault;

/// The most bytes of a line.
const LINE_MAX: usize = 16384;

/// How many bytes stand before the first line feed, or in the whole text where there is none.
pub fn line_len(text: &[u8]) -> usize
    ensures in_range { result ≤ length text.now }
    ensures value { result ≡ position_or_len (λ b. b == 10) text.now }
{
    let mut n = 0;
    while n < text.len() && text[n] != b'\n' {
        n += 1;
    }
    n
}

/// The first line of a text without its line feed, and the text after it; None exactly where the
/// text is empty. A last piece without a line feed is a line.
#[tactic(auto, using(crate::proofs::Cuts::at_line_end, crate::proofs::Cuts::lines_nil, crate::proofs::Cuts::lines_last, std::proofs::lemmas::List::take_rest))]
pub fn next_line(text: &[u8]) -> Option<(&[u8], &[u8])>
    ensures cut { MatchOption result (lines_of text.now ≡ [])
        (λ x. lines_of text.now ≡ x.0.now ∷ lines_of x.1.now) }
    ensures shorter { IfSome result (λ x. length x.1.now < length text.now) }
{
    if text.is_empty() {
        return None;
    }
    let n = line_len(text);
    if n < text.len() {
        Some((&text[..n], &text[n + 1..]))
    } else {
        Some(text.split_at(n))
    }
}

fn is_blank(b: u8) -> bool
    ensures { result ≡ is_blank b }
{
    b == b' ' || b == b'\t' || b == b'\r'
}

fn is_paren(b: u8) -> bool
    ensures { result ≡ is_paren b }
{
    b == b'(' || b == b')'
}

fn is_word(b: u8) -> bool
    ensures { result ≡ is_word b }
{
    !is_blank(b) && !is_paren(b) && b != b'#'
}

fn word_len(text: &[u8]) -> usize
    ensures in_range { result ≤ length text.now }
    ensures value { result ≡ prefix_len is_word text.now }
{
    let mut n = 0;
    while n < text.len() && is_word(text[n]) {
        n += 1;
    }
    n
}

/// Where the first token of a line begins and where it ends.
#[tactic(auto, using(crate::proofs::Places::comment_at, crate::proofs::Places::blank_at, crate::proofs::Places::paren_at, crate::proofs::Places::word_from, crate::proofs::Places::end_at))]
pub fn first_token(line: &[u8]) -> Option<(usize, usize)>
    ensures within { IfSome result (λ x. (x.0 < x.1) × (x.1 ≤ length line.now)) }
    ensures cut { MatchOption result (tokens_of line.now ≡ [])
        (λ x. tokens_of line.now ≡ slice_range line.now x.0 x.1 ∷ tokens_of (drop x.1 line.now)) }
    ensures span { MatchOption result ((start : ℕ) → spans_of start line.now ≡ [])
        (λ x. (start : ℕ) → spans_of start line.now
        ≡ (start + x.0, start + x.1) ∷ spans_of (start + x.1) (drop x.1 line.now)) }
{
    let mut i = 0;
    while i < line.len() {
        let b = line[i];
        if b == b'#' {
            return None;
        }
        if is_paren(b) {
            return Some((i, i + 1));
        }
        if !is_blank(b) {
            let end = i + word_len(&line[i..]);
            return Some((i, end));
        }
        i += 1;
    }
    None
}

/// The first token of a line, and the line after it; None exactly where the line has no token. A
/// parenthesis is a token by itself, and every other token is a longest run of bytes without
/// blanks, parentheses and `#`.
#[tactic(auto, using(std::proofs::lemmas::List::take_rest))]
pub fn next_token(line: &[u8]) -> Option<(&[u8], &[u8])>
    ensures cut { MatchOption result (tokens_of line.now ≡ [])
        (λ x. tokens_of line.now ≡ x.0.now ∷ tokens_of x.1.now) }
{
    match first_token(line) {
        None => None,
        Some((start, end)) => Some((&line[start..end], &line[end..])),
    }
}

fn is_bad(b: u8) -> bool
    ensures { result ≡ is_bad b }
{
    !(b == b'\t' || b == b'\r' || (b >= b' ' && b < 127))
}

#[tactic(auto, unfolding(crate::specs::Text::has_bad_byte), using(std::proofs::lemmas::List::drop_more))]
fn has_bad_byte(line: &[u8]) -> bool
    ensures { result ≡ has_bad_byte line.now }
{
    for b in line {
        if *b == b'#' {
            return false;
        }
        if is_bad(*b) {
            return true;
        }
    }
    false
}

/// What is wrong with the bytes of the line of this number, if anything: LineTooLong above 16,384
/// bytes, else BadByte where a byte before the comment is neither printable ASCII nor a blank.
pub fn fault_in(number: u32, line: &[u8]) -> Option<LexFault>
    ensures { result ≡ fault_of number line.now }
{
    if line.len() > LINE_MAX {
        return Some(LexFault::LineTooLong(number));
    }
    if has_bad_byte(line) {
        return Some(LexFault::BadByte(number));
    }
    None
}
