ghost use Rattle.std.specs.Prelude.{◌≡◌, IfOk};
ghost use Rattle.std.specs.Option.{option_map};
ghost use Rattle.dt_lex.specs.Text.{tokens_of};
ghost use Rattle.dt_model.specs.ModelData.{act_of};
ghost use Rattle.dt_modeltext.specs.Act.{targets_at, let_at, read_at, branch_at, fault_at, done_at, act_at};
ghost use Rattle.dt_modeltext.specs.Draft.{positions_of};

use crate::depth::MAX_DEPTH;
use crate::expr::read_expr;
use crate::parser::{Front, Parsed, Parser};
use crate::symbols::Symbols;
use crate::token::{name_at, small_at, target, variable};
use dt_lex::next_token;
use dt_model::Act;

/// `THEN ELSE`: the positions of the two nodes, and what stands after them.
#[tactic(auto, unfolding(crate::specs::Act::targets_at))]
fn targets_at<'t>(symbols: &Symbols, tokens: &'t [u8]) -> Front<'t, (u32, u32)>
    ensures { option_map (λ x. (x.0, tokens_of x.1.now)) result
        ≡ targets_at (positions_of symbols.now) (tokens_of tokens.now) }
{
    let (then_to, rest) = name_at(tokens)?;
    let (other, rest) = name_at(rest)?;
    Some(((target(symbols, &then_to), target(symbols, &other)), rest))
}

/// `VAR EXPR NEXT`.
#[tactic(auto, unfolding(crate::specs::Act::let_at))]
fn let_at<'t>(parser: &Parser, tokens: &'t [u8]) -> Parsed<'t, Act>
    ensures { IfOk result (λ o. option_map (λ x. (act_of x.0, tokens_of x.1.now)) o
        ≡ let_at (positions_of parser.now.symbols) (tokens_of tokens.now)) }
{
    match name_at(tokens) {
        None => Ok(None),
        Some((var, rest)) => match read_expr(parser, MAX_DEPTH, rest)? {
            None => Ok(None),
            Some((value, rest)) => match name_at(rest) {
                None => Ok(None),
                Some((next, rest)) => {
                    let var = variable(&parser.symbols, &var);
                    let next = target(&parser.symbols, &next);
                    Ok(Some((Act::Let { var, value, next }, rest)))
                }
            },
        },
    }
}

/// `VAR EXPR GRANULE THEN ELSE`.
#[tactic(auto, unfolding(crate::specs::Act::read_at))]
fn read_at<'t>(parser: &Parser, tokens: &'t [u8]) -> Parsed<'t, Act>
    ensures { IfOk result (λ o. option_map (λ x. (act_of x.0, tokens_of x.1.now)) o
        ≡ read_at (positions_of parser.now.symbols) (tokens_of tokens.now)) }
{
    match name_at(tokens) {
        None => Ok(None),
        Some((var, rest)) => match read_expr(parser, MAX_DEPTH, rest)? {
            None => Ok(None),
            Some((cell, rest)) => match small_at(rest) {
                None => Ok(None),
                Some((granule, rest)) => match targets_at(&parser.symbols, rest) {
                    None => Ok(None),
                    Some(((then_to, other), rest)) => {
                        let var = variable(&parser.symbols, &var);
                        Ok(Some((
                            Act::Read {
                                var,
                                cell,
                                granule,
                                then_to,
                                other,
                            },
                            rest,
                        )))
                    }
                },
            },
        },
    }
}

/// `EXPR THEN ELSE`.
#[tactic(auto, unfolding(crate::specs::Act::branch_at))]
fn branch_at<'t>(parser: &Parser, tokens: &'t [u8]) -> Parsed<'t, Act>
    ensures { IfOk result (λ o. option_map (λ x. (act_of x.0, tokens_of x.1.now)) o
        ≡ branch_at (positions_of parser.now.symbols) (tokens_of tokens.now)) }
{
    match read_expr(parser, MAX_DEPTH, tokens)? {
        None => Ok(None),
        Some((test, rest)) => match targets_at(&parser.symbols, rest) {
            None => Ok(None),
            Some(((then_to, other), rest)) => Ok(Some((
                Act::If {
                    test,
                    then_to,
                    other,
                },
                rest,
            ))),
        },
    }
}

/// `CODE`.
#[tactic(auto, unfolding(crate::specs::Act::fault_at))]
fn fault_at(tokens: &[u8]) -> Front<Act>
    ensures { option_map (λ x. (act_of x.0, tokens_of x.1.now)) result
        ≡ fault_at (tokens_of tokens.now) }
{
    let (code, rest) = small_at(tokens)?;
    Some((Act::Fault { code }, rest))
}

/// `EXPR PAGE`.
#[tactic(auto, unfolding(crate::specs::Act::done_at))]
fn done_at<'t>(parser: &Parser, tokens: &'t [u8]) -> Parsed<'t, Act>
    ensures { IfOk result (λ o. option_map (λ x. (act_of x.0, tokens_of x.1.now)) o
        ≡ done_at (positions_of parser.now.symbols) (tokens_of tokens.now)) }
{
    match read_expr(parser, MAX_DEPTH, tokens)? {
        None => Ok(None),
        Some((pa, rest)) => match small_at(rest) {
            None => Ok(None),
            Some((page, rest)) => Ok(Some((Act::Done { pa, page }, rest))),
        },
    }
}

/// What a node does, and what stands after it.
#[tactic(auto, unfolding(crate::specs::Act::act_at))]
pub fn act_at<'t>(parser: &Parser, tokens: &'t [u8]) -> Parsed<'t, Act>
    ensures { IfOk result (λ o. option_map (λ x. (act_of x.0, tokens_of x.1.now)) o
        ≡ act_at (positions_of parser.now.symbols) (tokens_of tokens.now)) }
{
    match next_token(tokens) {
        None => Ok(None),
        Some((token, rest)) => {
            if token == b"let".as_slice() {
                return let_at(parser, rest);
            }
            if token == b"read".as_slice() {
                return read_at(parser, rest);
            }
            if token == b"if".as_slice() {
                return branch_at(parser, rest);
            }
            if token == b"fault".as_slice() {
                return Ok(fault_at(rest));
            }
            if token == b"done".as_slice() {
                return done_at(parser, rest);
            }
            Ok(None)
        }
    }
}
