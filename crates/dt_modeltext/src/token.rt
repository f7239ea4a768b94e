ghost use Rattle.std.specs.Prelude.{◌≡◌, Some, None, not, position};
ghost use Rattle.std.specs.List.{before_first, after_first};
ghost use Rattle.std.specs.Option.{option_map};
ghost use Rattle.dt_lex.specs.Text.{tokens_of};
ghost use Rattle.dt_model.specs.ModelData.{tree_of};
ghost use Rattle.dt_modeltext.specs.Expr.{small_of, decimal_of, is_colon, constant_of, named, atom_of, small_at, closing};
ghost use Rattle.dt_modeltext.specs.Act.{target, variable};
ghost use Rattle.dt_modeltext.specs.Draft.{positions_of};
ghost use Rattle.dt_lex.specs.Frame.{name_at};

use crate::parser::Front;
use crate::symbols::Symbols;
use dt_lex::{Name, next_token, number};
use dt_model::Expr;

/// The position of what isn't declared.
const UNKNOWN: u32 = u32::MAX;

#[tactic(auto, unfolding(crate::specs::Expr::small_of))]
fn small(token: &[u8]) -> Option<u32>
    ensures { result ≡ small_of token.now }
{
    let n = number(token)?;
    if n < 1 << 32 { Some(n as u32) } else { None }
}

#[tactic(auto, unfolding(crate::specs::Expr::decimal_of))]
fn decimal(token: &[u8]) -> Option<u32>
    ensures { result ≡ decimal_of token.now }
{
    if let [b'0', b'x', ..] = token {
        return None;
    }
    small(token)
}

fn colon(token: &[u8]) -> Option<usize>
    ensures { result ≡ position is_colon token.now }
{
    token.iter().position(|b| *b == b':')
}

/// What stands before the first colon, and after it.
#[tactic(auto, using(dt_lemmas::proofs::Positions::before_none, dt_lemmas::proofs::Positions::after_none, dt_lemmas::proofs::Positions::before_some, dt_lemmas::proofs::Positions::after_some, dt_lemmas::proofs::Positions::position_below, std::proofs::lemmas::List::take_rest))]
fn at_colon(token: &[u8]) -> (&[u8], &[u8])
    ensures before { result.0.now ≡ before_first is_colon token.now }
    ensures after { result.1.now ≡ after_first is_colon token.now }
{
    match colon(token) {
        None => (token, b"".as_slice()),
        Some(i) => (&token[..i], &token[i + 1..]),
    }
}

/// The constant that a token spells.
#[tactic(auto, unfolding(crate::specs::Expr::constant_of))]
fn constant(token: &[u8]) -> Option<Expr>
    ensures { option_map tree_of result ≡ constant_of token.now }
{
    let (before, after) = at_colon(token);
    let width = decimal(before)?;
    let bits = number(after)?;
    Some(Expr::Value { width, bits })
}

/// The position of the first node of this name.
#[tactic(auto, unfolding(crate::specs::Act::target))]
pub fn target(symbols: &Symbols, name: &Name) -> u32
    ensures { result ≡ target (positions_of symbols.now) name.now }
{
    match symbols.nodes.position(name) {
        None => UNKNOWN,
        Some(i) => i,
    }
}

/// The position of a variable.
#[tactic(auto, unfolding(crate::specs::Act::variable))]
pub fn variable(symbols: &Symbols, name: &Name) -> u32
    ensures { result ≡ variable (positions_of symbols.now) name.now }
{
    match symbols.vars.position(name) {
        None => UNKNOWN,
        Some(i) => i,
    }
}

/// What a name in an expression stands for.
#[tactic(auto, unfolding(crate::specs::Expr::named))]
fn named(symbols: &Symbols, name: &Name) -> Expr
    ensures { tree_of result ≡ named (positions_of symbols.now) name.now }
{
    match symbols.regs.position(name) {
        Some(i) => Expr::Reg(i),
        None => match symbols.inputs.position(name) {
            Some(i) => Expr::Input(i),
            None => match symbols.vars.position(name) {
                Some(i) => Expr::Var(i),
                None => Expr::Reg(UNKNOWN),
            },
        },
    }
}

/// The name or the constant that a token spells.
#[tactic(auto, unfolding(crate::specs::Expr::atom_of))]
pub fn atom(symbols: &Symbols, token: &[u8]) -> Option<Expr>
    ensures { option_map tree_of result ≡ atom_of (positions_of symbols.now) token.now }
{
    match Name::read(token) {
        Some(name) => Some(named(symbols, &name)),
        None => constant(token),
    }
}

/// The number below 2^32 at the front, and what stands after it.
pub fn small_at(tokens: &[u8]) -> Front<u32>
    ensures { option_map (λ x. (x.0, tokens_of x.1.now)) result ≡ small_at (tokens_of tokens.now) }
{
    let (token, rest) = next_token(tokens)?;
    Some((small(token)?, rest))
}

/// The name at the front, and what stands after it.
pub fn name_at(tokens: &[u8]) -> Front<Name>
    ensures { option_map (λ x. (x.0, tokens_of x.1.now)) result ≡ name_at (tokens_of tokens.now) }
{
    let (token, rest) = next_token(tokens)?;
    Some((Name::read(token)?, rest))
}

/// What stands after a closing parenthesis.
pub fn after_close(tokens: &[u8]) -> Option<&[u8]>
    ensures { option_map (λ x. tokens_of x.now) result ≡ closing (tokens_of tokens.now) }
{
    let (token, rest) = next_token(tokens)?;
    if token == b")".as_slice() {
        Some(rest)
    } else {
        None
    }
}
