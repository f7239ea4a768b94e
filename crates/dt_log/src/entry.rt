ghost use Rattle.std.specs.Prelude.{◌≡◌, ◌^◌};
ghost use Rattle.std.specs.Option.{option_map, option_and_then};
ghost use Rattle.dt_lex.specs.Text.{tokens_of};
ghost use Rattle.dt_lex.specs.Frame.{is_nothing, given};
ghost use Rattle.dt_log.specs.declared.line.Claim.TheVariants.{Budget};
ghost use Rattle.dt_log.specs.declared.entry.Entry.TheVariants.{Claim as claim_entry, Item as item_entry};
ghost use Rattle.dt_log.specs.Entry.{below, alone_of, pair_of, small_of, small_pair_of, tried_of, standing, spelled, meaning};

use crate::line::{Claim, Line};
use dt_lex::{ANY, ONE, Section, Standing, is_nothing, may_follow, next_token, number};

/// A line of a log's text.
#[derive(Clone, Copy, Debug)]
pub enum Entry {
    /// `impossible`, or `budget N`
    Claim(Claim),
    /// An item.
    Item(Line),
    /// `end`
    End,
}

/// The claim, the items, and the end.
pub const SECTIONS: [Section; 3] = [ONE, ANY, ONE];

fn standing(entry: Entry) -> Standing
    ensures { result ≡ standing entry }
{
    match entry {
        Entry::Claim(_) => Standing::In(0),
        Entry::Item(_) => Standing::In(1),
        Entry::End => Standing::In(2),
    }
}

// The one number that the tokens spell.
fn alone(tokens: &[u8]) -> Option<u128>
    ensures { result ≡ alone_of (tokens_of tokens.now) }
{
    match next_token(tokens) {
        None => None,
        Some((first, rest)) => {
            if is_nothing(rest) {
                number(first)
            } else {
                None
            }
        }
    }
}

// The two numbers that the tokens spell.
fn pair(tokens: &[u8]) -> Option<(u128, u128)>
    ensures { result ≡ pair_of (tokens_of tokens.now) }
{
    match next_token(tokens) {
        None => None,
        Some((first, rest)) => match alone(rest) {
            None => None,
            Some(second) => match number(first) {
                None => None,
                Some(first) => Some((first, second)),
            },
        },
    }
}

// The number, where it is below 2^32.
fn small(n: u128) -> Option<u32>
    ensures { result ≡ below (2 ^ 32) n }
{
    if n < 1 << 32 { Some(n as u32) } else { None }
}

// The one number that the tokens spell, below 2^32.
fn one_small(tokens: &[u8]) -> Option<u32>
    ensures { result ≡ small_of (tokens_of tokens.now) }
{
    match alone(tokens) {
        None => None,
        Some(n) => small(n),
    }
}

// The two numbers that the tokens spell, below 2^32.
fn two_small(tokens: &[u8]) -> Option<(u32, u32)>
    ensures { result ≡ small_pair_of (tokens_of tokens.now) }
{
    match pair(tokens) {
        None => None,
        Some((first, second)) => match small(first) {
            None => None,
            Some(first) => match small(second) {
                None => None,
                Some(second) => Some((first, second)),
            },
        },
    }
}

// The two numbers that the tokens spell, the first below 2^32.
fn tried(tokens: &[u8]) -> Option<(u32, u128)>
    ensures { result ≡ tried_of (tokens_of tokens.now) }
{
    match pair(tokens) {
        None => None,
        Some((choice, value)) => match small(choice) {
            None => None,
            Some(choice) => Some((choice, value)),
        },
    }
}

// An item without numbers, where no token follows.
fn plain(line: Line, tokens: &[u8]) -> Option<Entry>
    ensures { result ≡ given (is_nothing (tokens_of tokens.now)) (item_entry line) }
{
    is_nothing(tokens).then_some(Entry::Item(line))
}

// `budget N`, behind its word.
fn budget(tokens: &[u8]) -> Option<Entry>
    ensures { result ≡ option_map (λ n. claim_entry (Budget n)) (option_and_then (below (2 ^ 64)) (alone_of (tokens_of tokens.now))) }
{
    match alone(tokens) {
        None => None,
        Some(n) => {
            if n < 1 << 64 {
                Some(Entry::Claim(Claim::Budget(n as u64)))
            } else {
                None
            }
        }
    }
}

/// The line that its first token and the tokens after it spell, and None where they spell none.
#[tactic(auto, unfolding(crate::specs::Entry::spelled))]
pub fn read_entry(first: &[u8], tokens: &[u8]) -> Option<Entry>
    ensures { result ≡ spelled first.now (tokens_of tokens.now) }
{
    if first == b"forward".as_slice() {
        return match one_small(tokens) {
            None => None,
            Some(term) => Some(Entry::Item(Line::Forward { term })),
        };
    }
    if first == b"backward".as_slice() {
        return match two_small(tokens) {
            None => None,
            Some((parent, place)) => Some(Entry::Item(Line::Backward { parent, place })),
        };
    }
    if first == b"try".as_slice() {
        return match tried(tokens) {
            None => None,
            Some((choice, value)) => Some(Entry::Item(Line::Try { choice, value })),
        };
    }
    if first == b"split".as_slice() {
        return match two_small(tokens) {
            None => None,
            Some((term, bit)) => Some(Entry::Item(Line::Split { term, bit })),
        };
    }
    if first == b"close".as_slice() {
        return match one_small(tokens) {
            None => None,
            Some(term) => Some(Entry::Item(Line::Close { term })),
        };
    }
    if first == b"open".as_slice() {
        return plain(Line::Loose, tokens);
    }
    if first == b"unvisited".as_slice() {
        return plain(Line::Unvisited, tokens);
    }
    if first == b"impossible".as_slice() {
        return is_nothing(tokens).then_some(Entry::Claim(Claim::Impossible));
    }
    if first == b"budget".as_slice() {
        return budget(tokens);
    }
    if first == b"end".as_slice() {
        return is_nothing(tokens).then_some(Entry::End);
    }
    None
}

/// The line, where it may stand at this place of a text, which counts the sections up to that of
/// the line before.
pub fn meaning(place: usize, entry: Option<Entry>) -> Option<Entry>
    ensures { result ≡ meaning place entry }
{
    match entry {
        None => None,
        Some(entry) => may_follow(&SECTIONS, place, standing(entry)).then_some(entry),
    }
}
