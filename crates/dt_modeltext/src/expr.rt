ghost use Rattle.std.specs.Prelude.{◌≡◌, ◌<◌, ◌≤◌, IfOk};
ghost use Rattle.std.specs.Option.{option_map};
ghost use Rattle.dt_lex.specs.Text.{tokens_of};
ghost use Rattle.dt_model.specs.ModelData.{tree_of, apply2, apply3};
ghost use Rattle.dt_modeltext.specs.Expr.{one_at, two_at, three_at, operands_at, applied_at, expr_at};
ghost use Rattle.dt_modeltext.specs.Draft.{positions_of};

use crate::operator::operator_at;
use crate::parser::{Parsed, Parser};
use crate::token::{after_close, atom};
use dt_bits::{Op, arity};
use dt_lex::next_token;
use dt_model::Expr;
use std::alloc::{AllocError, Global};

/// An operator of two operands.
fn of_two(alloc: Global, op: Op, a: Expr, b: Expr) -> Result<Expr, AllocError>
    ensures { IfOk result (λ e. tree_of e ≡ apply2 op (tree_of a) (tree_of b)) }
{
    let a = Box::new(alloc, a)?;
    let b = Box::new(alloc, b)?;
    Ok(Expr::Apply2 { op, a, b })
}

/// An operator of three operands.
fn of_three(alloc: Global, op: Op, a: Expr, b: Expr, c: Expr) -> Result<Expr, AllocError>
    ensures { IfOk result (λ e. tree_of e ≡ apply3 op (tree_of a) (tree_of b) (tree_of c)) }
{
    let a = Box::new(alloc, a)?;
    let b = Box::new(alloc, b)?;
    let c = Box::new(alloc, c)?;
    Ok(Expr::Apply3 { op, a, b, c })
}

/// The expression at the front, with at most `depth` operators on one way from its root, and what
/// stands after it.
#[cycle(expressions)]
#[tactic(auto, unfolding(crate::specs::Expr::level), using(crate::proofs::ExprLevels::at_depth, crate::proofs::ExprLevels::no_depth))]
pub fn read_expr<'t>(parser: &Parser, depth: u32, tokens: &'t [u8]) -> Parsed<'t, Expr>
    requires { depth ≤ 32 }
    ensures { IfOk result (λ o. option_map (λ x. (tree_of x.0, tokens_of x.1.now)) o
        ≡ expr_at (positions_of parser.now.symbols) depth (tokens_of tokens.now)) }
{
    match next_token(tokens) {
        None => Ok(None),
        Some((token, rest)) => {
            if depth > 0 && token == b"(".as_slice() {
                return read_applied(parser, depth - 1, rest);
            }
            match atom(&parser.symbols, token) {
                None => Ok(None),
                Some(expr) => Ok(Some((expr, rest))),
            }
        }
    }
}

/// What stands after an opening parenthesis: an operator, its operands and the closing one.
#[cycle(expressions)]
#[tactic(auto, unfolding(crate::specs::Expr::applied_at))]
fn read_applied<'t>(parser: &Parser, depth: u32, tokens: &'t [u8]) -> Parsed<'t, Expr>
    requires { depth < 32 }
    ensures { IfOk result (λ o. option_map (λ x. (tree_of x.0, tokens_of x.1.now)) o
        ≡ applied_at (expr_at (positions_of parser.now.symbols) depth) (tokens_of tokens.now)) }
{
    match operator_at(tokens) {
        None => Ok(None),
        Some((op, rest)) => read_operands(parser, depth, op, rest),
    }
}

/// As many operands as the operator takes.
#[cycle(expressions)]
#[tactic(auto, unfolding(crate::specs::Expr::operands_at))]
fn read_operands<'t>(parser: &Parser, depth: u32, op: Op, tokens: &'t [u8]) -> Parsed<'t, Expr>
    requires { depth < 32 }
    ensures { IfOk result (λ o. option_map (λ x. (tree_of x.0, tokens_of x.1.now)) o
        ≡ operands_at (expr_at (positions_of parser.now.symbols) depth) op (tokens_of tokens.now)) }
{
    match arity(op) {
        1 => read_one(parser, depth, op, tokens),
        2 => read_two(parser, depth, op, tokens),
        3 => read_three(parser, depth, op, tokens),
        _ => Ok(None),
    }
}

#[cycle(expressions)]
#[tactic(auto, unfolding(crate::specs::Expr::one_at))]
fn read_one<'t>(parser: &Parser, depth: u32, op: Op, tokens: &'t [u8]) -> Parsed<'t, Expr>
    requires { depth < 32 }
    ensures { IfOk result (λ o. option_map (λ x. (tree_of x.0, tokens_of x.1.now)) o
        ≡ one_at (expr_at (positions_of parser.now.symbols) depth) op (tokens_of tokens.now)) }
{
    match read_expr(parser, depth, tokens)? {
        None => Ok(None),
        Some((a, rest)) => match after_close(rest) {
            None => Ok(None),
            Some(rest) => {
                let a = Box::new(parser.alloc, a)?;
                Ok(Some((Expr::Apply1 { op, a }, rest)))
            }
        },
    }
}

#[cycle(expressions)]
#[tactic(auto, unfolding(crate::specs::Expr::two_at))]
fn read_two<'t>(parser: &Parser, depth: u32, op: Op, tokens: &'t [u8]) -> Parsed<'t, Expr>
    requires { depth < 32 }
    ensures { IfOk result (λ o. option_map (λ x. (tree_of x.0, tokens_of x.1.now)) o
        ≡ two_at (expr_at (positions_of parser.now.symbols) depth) op (tokens_of tokens.now)) }
{
    match read_expr(parser, depth, tokens)? {
        None => Ok(None),
        Some((a, rest)) => match read_expr(parser, depth, rest)? {
            None => Ok(None),
            Some((b, rest)) => match after_close(rest) {
                None => Ok(None),
                Some(rest) => Ok(Some((of_two(parser.alloc, op, a, b)?, rest))),
            },
        },
    }
}

#[cycle(expressions)]
#[tactic(auto, unfolding(crate::specs::Expr::three_at))]
fn read_three<'t>(parser: &Parser, depth: u32, op: Op, tokens: &'t [u8]) -> Parsed<'t, Expr>
    requires { depth < 32 }
    ensures { IfOk result (λ o. option_map (λ x. (tree_of x.0, tokens_of x.1.now)) o
        ≡ three_at (expr_at (positions_of parser.now.symbols) depth) op (tokens_of tokens.now)) }
{
    match read_expr(parser, depth, tokens)? {
        None => Ok(None),
        Some((a, rest)) => match read_expr(parser, depth, rest)? {
            None => Ok(None),
            Some((b, rest)) => match read_expr(parser, depth, rest)? {
                None => Ok(None),
                Some((c, rest)) => match after_close(rest) {
                    None => Ok(None),
                    Some(rest) => Ok(Some((of_three(parser.alloc, op, a, b, c)?, rest))),
                },
            },
        },
    }
}
