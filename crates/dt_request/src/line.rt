ghost use Rattle.std.specs.Prelude.{◌≡◌};
ghost use Rattle.std.specs.Option.{option_map};
ghost use Rattle.dt_lex.specs.Text.{tokens_of};
ghost use Rattle.dt_request.specs.declared.asked.AskedDemand.TheVariants as asked;
ghost use Rattle.dt_request.specs.declared.asked.Line.TheVariants as line;
ghost use Rattle.dt_request.specs.Line.{names_at, numbers_at, named_quantity, quantity_behind, quantity_at, measured_at, branch_of, take_of, ends_of, demand_of, side_at, sides_at, share_of, apart_of, header_of, spelled};
ghost use Rattle.dt_lex.specs.Frame.{name_at, number_at, lone};

use crate::asked::{AskedDemand, AskedLink, AskedQuantity, AskedSide, Line};
use dt_lex::{Name, is_alone, is_nothing, next_token, number};

/// What stands at the front of a text and what stands behind it, where the tokens spell it.
type Front<'t, T> = Option<(T, &'t [u8])>;

fn name_at(tokens: &[u8]) -> Front<Name>
    ensures { option_map (λ x. (x.0, tokens_of x.1.now)) result ≡ name_at (tokens_of tokens.now) }
{
    let (token, rest) = next_token(tokens)?;
    Some((Name::read(token)?, rest))
}

fn number_at(tokens: &[u8]) -> Front<u128>
    ensures { option_map (λ x. (x.0, tokens_of x.1.now)) result ≡ number_at (tokens_of tokens.now) }
{
    let (token, rest) = next_token(tokens)?;
    Some((number(token)?, rest))
}

#[tactic(auto, unfolding(crate::specs::Line::names_at))]
fn names_at(tokens: &[u8]) -> Front<(Name, Name)>
    ensures { option_map (λ x. (x.0, tokens_of x.1.now)) result ≡ names_at (tokens_of tokens.now) }
{
    let (first, rest) = name_at(tokens)?;
    let (second, rest) = name_at(rest)?;
    Some(((first, second), rest))
}

#[tactic(auto, unfolding(crate::specs::Line::numbers_at))]
fn numbers_at(tokens: &[u8]) -> Front<(u128, u128)>
    ensures { option_map (λ x. (x.0, tokens_of x.1.now)) result ≡ numbers_at (tokens_of tokens.now) }
{
    let (first, rest) = number_at(tokens)?;
    let (second, rest) = number_at(rest)?;
    Some(((first, second), rest))
}

fn one_name(tokens: &[u8]) -> Option<Name>
    ensures { result ≡ lone (name_at (tokens_of tokens.now)) }
{
    let (name, rest) = name_at(tokens)?;
    is_nothing(rest).then_some(name)
}

fn one_number(tokens: &[u8]) -> Option<u128>
    ensures { result ≡ lone (number_at (tokens_of tokens.now)) }
{
    let (value, rest) = number_at(tokens)?;
    is_nothing(rest).then_some(value)
}

fn two_names(tokens: &[u8]) -> Option<(Name, Name)>
    ensures { result ≡ lone (names_at (tokens_of tokens.now)) }
{
    let (names, rest) = names_at(tokens)?;
    is_nothing(rest).then_some(names)
}

fn two_numbers(tokens: &[u8]) -> Option<(u128, u128)>
    ensures { result ≡ lone (numbers_at (tokens_of tokens.now)) }
{
    let (numbers, rest) = numbers_at(tokens)?;
    is_nothing(rest).then_some(numbers)
}

// ---- demands

#[tactic(auto, unfolding(crate::specs::Line::named_quantity))]
fn named_quantity(word: &[u8], name: Name) -> Option<AskedQuantity>
    ensures { result ≡ named_quantity word.now name }
{
    if word == b"reg".as_slice() {
        return Some(AskedQuantity::Reg(name));
    }
    if word == b"in".as_slice() {
        return Some(AskedQuantity::Input(name));
    }
    if word == b"word".as_slice() {
        return Some(AskedQuantity::Word(name));
    }
    if word == b"cell".as_slice() {
        return Some(AskedQuantity::Cell(name));
    }
    None
}

#[tactic(auto, unfolding(crate::specs::Line::quantity_behind))]
fn quantity_behind<'t>(word: &[u8], tokens: &'t [u8]) -> Front<'t, AskedQuantity>
    ensures { option_map (λ x. (x.0, tokens_of x.1.now)) result
        ≡ quantity_behind word.now (tokens_of tokens.now) }
{
    let (name, rest) = name_at(tokens)?;
    Some((named_quantity(word, name)?, rest))
}

#[tactic(auto, unfolding(crate::specs::Line::quantity_at))]
fn quantity_at(tokens: &[u8]) -> Front<AskedQuantity>
    ensures { option_map (λ x. (x.0, tokens_of x.1.now)) result
        ≡ quantity_at (tokens_of tokens.now) }
{
    let (word, rest) = next_token(tokens)?;
    if word == b"pa".as_slice() {
        return Some((AskedQuantity::Pa, rest));
    }
    quantity_behind(word, rest)
}

#[tactic(auto, unfolding(crate::specs::Line::measured_at))]
fn measured_at(tokens: &[u8]) -> Front<(AskedQuantity, (u128, u128))>
    ensures { option_map (λ x. (x.0, tokens_of x.1.now)) result
        ≡ measured_at (tokens_of tokens.now) }
{
    let (of, rest) = quantity_at(tokens)?;
    let (numbers, rest) = numbers_at(rest)?;
    Some(((of, numbers), rest))
}

fn one_measured(tokens: &[u8]) -> Option<(AskedQuantity, (u128, u128))>
    ensures { result ≡ lone (measured_at (tokens_of tokens.now)) }
{
    let (measured, rest) = measured_at(tokens)?;
    is_nothing(rest).then_some(measured)
}

#[tactic(auto, unfolding(crate::specs::Line::branch_of))]
fn branch_of(tokens: &[u8]) -> Option<bool>
    ensures { result ≡ branch_of (tokens_of tokens.now) }
{
    if is_alone(b"then", tokens) {
        return Some(true);
    }
    is_alone(b"else", tokens).then_some(false)
}

#[tactic(auto, unfolding(crate::specs::Line::take_of))]
fn take_of(tokens: &[u8]) -> Option<AskedDemand>
    ensures { result ≡ take_of (tokens_of tokens.now) }
{
    let (node, rest) = name_at(tokens)?;
    let by_then = branch_of(rest)?;
    Some(AskedDemand::Take { node, by_then })
}

fn ends_of(tokens: &[u8]) -> Option<AskedDemand>
    ensures { result ≡ ends_of (tokens_of tokens.now) }
{
    let (end, after) = next_token(tokens)?;
    match next_token(after) {
        None => (end == b"done".as_slice()).then_some(AskedDemand::EndDone),
        Some((code, rest)) => {
            if end != b"fault".as_slice() || next_token(rest).is_some() {
                return None;
            }
            Some(AskedDemand::EndFault(number(code)?))
        }
    }
}

fn bits_of(tokens: &[u8]) -> Option<AskedDemand>
    ensures { result
        ≡ option_map (λ x. asked.Bits x.0 x.1.0 x.1.1) (lone (measured_at (tokens_of tokens.now))) }
{
    let (of, (mask, value)) = one_measured(tokens)?;
    Some(AskedDemand::Bits { of, mask, value })
}

fn range_of(tokens: &[u8]) -> Option<AskedDemand>
    ensures { result
        ≡ option_map (λ x. asked.Span x.0 x.1.0 x.1.1) (lone (measured_at (tokens_of tokens.now))) }
{
    let (of, (lo, hi)) = one_measured(tokens)?;
    Some(AskedDemand::Span { of, lo, hi })
}

#[tactic(auto, unfolding(crate::specs::Line::demand_of))]
fn demand_of(word: &[u8], tokens: &[u8]) -> Option<AskedDemand>
    ensures { result ≡ demand_of word.now (tokens_of tokens.now) }
{
    if word == b"via".as_slice() {
        return Some(AskedDemand::Via(one_name(tokens)?));
    }
    if word == b"avoid".as_slice() {
        return Some(AskedDemand::Avoid(one_name(tokens)?));
    }
    if word == b"take".as_slice() {
        return take_of(tokens);
    }
    if word == b"ends".as_slice() {
        return ends_of(tokens);
    }
    if word == b"page".as_slice() {
        return Some(AskedDemand::Page(one_number(tokens)?));
    }
    if word == b"bits".as_slice() {
        return bits_of(tokens);
    }
    if word == b"range".as_slice() {
        return range_of(tokens);
    }
    None
}

// ---- links

#[tactic(auto, unfolding(crate::specs::Line::side_at))]
fn side_at(tokens: &[u8]) -> Front<AskedSide>
    ensures { option_map (λ x. (x.0, tokens_of x.1.now)) result ≡ side_at (tokens_of tokens.now) }
{
    let ((access, node), rest) = names_at(tokens)?;
    Some((AskedSide { access, node }, rest))
}

#[tactic(auto, unfolding(crate::specs::Line::sides_at))]
fn sides_at(tokens: &[u8]) -> Front<(AskedSide, AskedSide)>
    ensures { option_map (λ x. (x.0, tokens_of x.1.now)) result ≡ sides_at (tokens_of tokens.now) }
{
    let (first, rest) = side_at(tokens)?;
    let (second, rest) = side_at(rest)?;
    Some(((first, second), rest))
}

fn two_sides(tokens: &[u8]) -> Option<(AskedSide, AskedSide)>
    ensures { result ≡ lone (sides_at (tokens_of tokens.now)) }
{
    let (sides, rest) = sides_at(tokens)?;
    is_nothing(rest).then_some(sides)
}

#[tactic(auto, unfolding(crate::specs::Line::share_of))]
fn share_of(tokens: &[u8]) -> Option<AskedLink>
    ensures { result ≡ share_of (tokens_of tokens.now) }
{
    let (word, rest) = next_token(tokens)?;
    if word == b"table".as_slice() {
        let (first, second) = two_sides(rest)?;
        return Some(AskedLink::ShareTable(first, second));
    }
    if word == b"cell".as_slice() {
        let (first, second) = two_sides(rest)?;
        return Some(AskedLink::ShareCell(first, second));
    }
    if word == b"page".as_slice() {
        let (first, second) = two_names(rest)?;
        return Some(AskedLink::SharePage(first, second));
    }
    None
}

#[tactic(auto, unfolding(crate::specs::Line::apart_of))]
fn apart_of(tokens: &[u8]) -> Option<AskedLink>
    ensures { result ≡ apart_of (tokens_of tokens.now) }
{
    let (word, rest) = next_token(tokens)?;
    if word == b"table".as_slice() {
        let (first, second) = two_sides(rest)?;
        return Some(AskedLink::ApartTable(first, second));
    }
    if word == b"page".as_slice() {
        let (first, second) = two_names(rest)?;
        return Some(AskedLink::ApartPage(first, second));
    }
    None
}

// ---- lines

fn header_of(tokens: &[u8]) -> Option<Line>
    ensures { result ≡ header_of (tokens_of tokens.now) }
{
    if is_alone(b"1", tokens) {
        return Some(Line::Header { keeps: false });
    }
    is_alone(b"2", tokens).then_some(Line::Header { keeps: true })
}

fn tables_of(tokens: &[u8]) -> Option<Line>
    ensures { result
        ≡ option_map (λ x. line.Tables x.0 x.1) (lone (numbers_at (tokens_of tokens.now))) }
{
    let (lo, hi) = two_numbers(tokens)?;
    Some(Line::Tables(lo, hi))
}

fn keep_of(tokens: &[u8]) -> Option<Line>
    ensures { result
        ≡ option_map (λ x. line.Keep x.0 x.1) (lone (numbers_at (tokens_of tokens.now))) }
{
    let (lo, hi) = two_numbers(tokens)?;
    Some(Line::Keep(lo, hi))
}

fn access_of(tokens: &[u8]) -> Option<Line>
    ensures { result
        ≡ option_map (λ x. line.Access x.0 x.1) (lone (names_at (tokens_of tokens.now))) }
{
    let (name, context) = two_names(tokens)?;
    Some(Line::Access(name, context))
}

/// The line that a first token and the text after it spell.
#[tactic(auto, unfolding(crate::specs::Line::spelled))]
pub fn read_line(word: &[u8], tokens: &[u8]) -> Option<Line>
    ensures { result ≡ spelled word.now (tokens_of tokens.now) }
{
    if word == b"requests".as_slice() {
        return header_of(tokens);
    }
    if word == b"tables".as_slice() {
        return tables_of(tokens);
    }
    if word == b"keep".as_slice() {
        return keep_of(tokens);
    }
    if word == b"context".as_slice() {
        return Some(Line::Context(one_name(tokens)?));
    }
    if word == b"access".as_slice() {
        return access_of(tokens);
    }
    if word == b"share".as_slice() {
        return Some(Line::Link(share_of(tokens)?));
    }
    if word == b"apart".as_slice() {
        return Some(Line::Link(apart_of(tokens)?));
    }
    if word == b"end".as_slice() {
        return is_nothing(tokens).then_some(Line::End);
    }
    Some(Line::Demand(demand_of(word, tokens)?))
}
