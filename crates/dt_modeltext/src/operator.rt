ghost use Rattle.std.specs.Prelude.{◌≡◌, ◌∷◌};
ghost use Rattle.std.specs.Option.{option_map};
ghost use Rattle.dt_bits.specs.declared.op.Op.TheVariants.{SignExt, Shl, Shr};
ghost use Rattle.dt_lex.specs.Text.{tokens_of};
ghost use Rattle.dt_modeltext.specs.Expr.{slice_at, counted_at, plain_of, operator_at};

use crate::parser::Front;
use crate::token::small_at;
use dt_bits::Op;
use dt_lex::next_token;

/// The two numbers of a slice.
#[tactic(auto, unfolding(crate::specs::Expr::slice_at))]
fn slice_at(tokens: &[u8]) -> Front<Op>
    ensures { option_map (λ x. (x.0, tokens_of x.1.now)) result ≡ slice_at (tokens_of tokens.now) }
{
    let (hi, rest) = small_at(tokens)?;
    let (lo, rest) = small_at(rest)?;
    Some((Op::Slice { hi, lo }, rest))
}

/// An operator of one word.
#[tactic(auto, unfolding(crate::specs::Expr::plain_of))]
fn plain(token: &[u8]) -> Option<Op>
    ensures { result ≡ plain_of token.now }
{
    if token == b"not".as_slice() {
        return Some(Op::Not);
    }
    if token == b"and".as_slice() {
        return Some(Op::And);
    }
    if token == b"or".as_slice() {
        return Some(Op::Or);
    }
    if token == b"xor".as_slice() {
        return Some(Op::Xor);
    }
    if token == b"add".as_slice() {
        return Some(Op::Add);
    }
    if token == b"sub".as_slice() {
        return Some(Op::Sub);
    }
    if token == b"concat".as_slice() {
        return Some(Op::Concat);
    }
    if token == b"eq".as_slice() {
        return Some(Op::Eq);
    }
    if token == b"ltu".as_slice() {
        return Some(Op::Ltu);
    }
    if token == b"ite".as_slice() {
        return Some(Op::Ite);
    }
    None
}

/// The width that a `sext` extends to.
#[tactic(auto, unfolding(crate::specs::Expr::counted_at))]
fn sext_at(tokens: &[u8]) -> Front<Op>
    ensures { option_map (λ x. (x.0, tokens_of x.1.now)) result
        ≡ counted_at (λ to. SignExt to) (tokens_of tokens.now) }
{
    let (to, rest) = small_at(tokens)?;
    Some((Op::SignExt { to }, rest))
}

/// The places that a `shl` moves by.
#[tactic(auto, unfolding(crate::specs::Expr::counted_at))]
fn shl_at(tokens: &[u8]) -> Front<Op>
    ensures { option_map (λ x. (x.0, tokens_of x.1.now)) result
        ≡ counted_at (λ by. Shl by) (tokens_of tokens.now) }
{
    let (by, rest) = small_at(tokens)?;
    Some((Op::Shl { by }, rest))
}

/// The places that a `shr` moves by.
#[tactic(auto, unfolding(crate::specs::Expr::counted_at))]
fn shr_at(tokens: &[u8]) -> Front<Op>
    ensures { option_map (λ x. (x.0, tokens_of x.1.now)) result
        ≡ counted_at (λ by. Shr by) (tokens_of tokens.now) }
{
    let (by, rest) = small_at(tokens)?;
    Some((Op::Shr { by }, rest))
}

/// The operator that a token and the text after it begin with, and what stands after its numbers.
#[tactic(auto, unfolding(crate::specs::Expr::operator_at))]
fn operator_of<'t>(token: &[u8], rest: &'t [u8]) -> Front<'t, Op>
    ensures { option_map (λ x. (x.0, tokens_of x.1.now)) result
        ≡ operator_at (token.now ∷ tokens_of rest.now) }
{
    if token == b"slice".as_slice() {
        return slice_at(rest);
    }
    if token == b"sext".as_slice() {
        return sext_at(rest);
    }
    if token == b"shl".as_slice() {
        return shl_at(rest);
    }
    if token == b"shr".as_slice() {
        return shr_at(rest);
    }
    Some((plain(token)?, rest))
}

/// The operator at the front, with its numbers, and what stands after them.
#[tactic(auto, unfolding(crate::specs::Expr::operator_at))]
pub fn operator_at(tokens: &[u8]) -> Front<Op>
    ensures { option_map (λ x. (x.0, tokens_of x.1.now)) result
        ≡ operator_at (tokens_of tokens.now) }
{
    let (token, rest) = next_token(tokens)?;
    operator_of(token, rest)
}
