ghost use Rattle.std.specs.Prelude.{◌≡◌, ◌≤◌, IfOk};
ghost use Rattle.std.specs.Option.{option_map};
ghost use Rattle.dt_lex.specs.Text.{tokens_of};
ghost use Rattle.dt_model.specs.ModelData.{tree_of, node_of};
ghost use Rattle.dt_model.specs.Limits.{most_depth};
ghost use Rattle.dt_modeltext.specs.Expr.{expr_at, small_at};
ghost use Rattle.dt_modeltext.specs.Line.{named_at, node_at, plain_line, rule_of, spelled};
ghost use Rattle.dt_modeltext.specs.Entry.{section_of};
ghost use Rattle.dt_modeltext.specs.Draft.{positions_of, line_data};
ghost use Rattle.dt_lex.specs.Frame.{lone};

use crate::act::act_at;
use crate::depth::MAX_DEPTH;
use crate::expr::read_expr;
use crate::parser::Parser;
use crate::token::{name_at, small_at};
use dt_lex::{ANY, ONE, Section, is_alone, is_nothing, next_token};
use dt_model::{Expr, Named, Node};
use std::alloc::AllocError;

/// The sections of a text, each of one kind of line: the header, the bits of a word and of an
/// address, registers, inputs, variables, rules on contexts and on accesses, nodes, and the end.
pub const SECTIONS: [Section; 10] = [ONE, ONE, ONE, ANY, ANY, ANY, ANY, ANY, ANY, ONE];

/// One line of a model text.
#[derive(Debug, Drop)]
pub enum Line {
    /// `model 1`
    Header,
    /// `word BITS`
    Word(u32),
    /// `address BITS`
    Address(u32),
    /// `reg NAME WIDTH`
    Reg(Named),
    /// `input NAME WIDTH`
    Input(Named),
    /// `var NAME WIDTH`
    Var(Named),
    /// `legal context EXPR`
    ContextRule(Expr),
    /// `legal access EXPR`
    AccessRule(Expr),
    /// `node NAME ACT`
    Node(Node),
    /// `end`
    End,
}

impl Line {
    /// The section of this kind of line in the order of a text, from 0.
    pub fn section(&self) -> usize
        ensures within { result ≤ 9 }
        ensures value { result ≡ section_of (line_data self.now) }
    {
        match self {
            Line::Header => 0,
            Line::Word(_) => 1,
            Line::Address(_) => 2,
            Line::Reg(_) => 3,
            Line::Input(_) => 4,
            Line::Var(_) => 5,
            Line::ContextRule(_) => 6,
            Line::AccessRule(_) => 7,
            Line::Node(_) => 8,
            Line::End => 9,
        }
    }
}

/// A number below 2^32, alone.
fn lone_small(tokens: &[u8]) -> Option<u32>
    ensures { result ≡ lone (small_at (tokens_of tokens.now)) }
{
    let (n, rest) = small_at(tokens)?;
    if is_nothing(rest) { Some(n) } else { None }
}

/// `NAME WIDTH`, alone.
#[tactic(auto, unfolding(crate::specs::Line::named_at))]
fn lone_named(tokens: &[u8]) -> Option<Named>
    ensures { result ≡ lone (named_at (tokens_of tokens.now)) }
{
    let (name, rest) = name_at(tokens)?;
    let (width, rest) = small_at(rest)?;
    if is_nothing(rest) {
        Some(Named { name, width })
    } else {
        None
    }
}

/// An expression, alone.
fn lone_expr(parser: &Parser, tokens: &[u8]) -> Result<Option<Expr>, AllocError>
    ensures { IfOk result (λ o. option_map tree_of o
        ≡ lone (expr_at (positions_of parser.now.symbols) most_depth (tokens_of tokens.now))) }
{
    match read_expr(parser, MAX_DEPTH, tokens)? {
        None => Ok(None),
        Some((expr, rest)) => {
            if is_nothing(rest) {
                Ok(Some(expr))
            } else {
                Ok(None)
            }
        }
    }
}

/// `NAME ACT`, alone.
#[tactic(auto, unfolding(crate::specs::Line::node_at))]
fn lone_node(parser: &Parser, tokens: &[u8]) -> Result<Option<Node>, AllocError>
    ensures { IfOk result (λ o. option_map node_of o
        ≡ lone (node_at (positions_of parser.now.symbols) (tokens_of tokens.now))) }
{
    match name_at(tokens) {
        None => Ok(None),
        Some((name, rest)) => match act_at(parser, rest)? {
            None => Ok(None),
            Some((act, rest)) => {
                if is_nothing(rest) {
                    Ok(Some(Node { name, act }))
                } else {
                    Ok(None)
                }
            }
        },
    }
}

/// `context EXPR` or `access EXPR`.
#[tactic(auto, unfolding(crate::specs::Line::rule_of))]
fn rule(parser: &Parser, tokens: &[u8]) -> Result<Option<Line>, AllocError>
    ensures { IfOk result (λ o. option_map line_data o
        ≡ rule_of (positions_of parser.now.symbols) (tokens_of tokens.now)) }
{
    match next_token(tokens) {
        None => Ok(None),
        Some((token, rest)) => {
            if token == b"context".as_slice() {
                return match lone_expr(parser, rest)? {
                    None => Ok(None),
                    Some(expr) => Ok(Some(Line::ContextRule(expr))),
                };
            }
            if token == b"access".as_slice() {
                return match lone_expr(parser, rest)? {
                    None => Ok(None),
                    Some(expr) => Ok(Some(Line::AccessRule(expr))),
                };
            }
            Ok(None)
        }
    }
}

/// The line of this first token, where it needs no names.
#[tactic(auto, unfolding(crate::specs::Line::plain_line))]
fn plain_line(word: &[u8], tokens: &[u8]) -> Option<Line>
    ensures { option_map line_data result ≡ plain_line word.now (tokens_of tokens.now) }
{
    if word == b"model".as_slice() {
        return if is_alone(b"1", tokens) {
            Some(Line::Header)
        } else {
            None
        };
    }
    if word == b"word".as_slice() {
        return Some(Line::Word(lone_small(tokens)?));
    }
    if word == b"address".as_slice() {
        return Some(Line::Address(lone_small(tokens)?));
    }
    if word == b"reg".as_slice() {
        return Some(Line::Reg(lone_named(tokens)?));
    }
    if word == b"input".as_slice() {
        return Some(Line::Input(lone_named(tokens)?));
    }
    if word == b"var".as_slice() {
        return Some(Line::Var(lone_named(tokens)?));
    }
    if word == b"end".as_slice() && is_nothing(tokens) {
        return Some(Line::End);
    }
    None
}

/// The line that its first token and the text behind it spell.
#[tactic(auto, unfolding(crate::specs::Line::spelled))]
pub fn read_line(parser: &Parser, word: &[u8], tokens: &[u8]) -> Result<Option<Line>, AllocError>
    ensures { IfOk result (λ o. option_map line_data o
        ≡ spelled (positions_of parser.now.symbols) word.now (tokens_of tokens.now)) }
{
    if word == b"legal".as_slice() {
        return rule(parser, tokens);
    }
    if word == b"node".as_slice() {
        return match lone_node(parser, tokens)? {
            None => Ok(None),
            Some(node) => Ok(Some(Line::Node(node))),
        };
    }
    Ok(plain_line(word, tokens))
}
