ghost use Rattle.std.specs.Prelude.{◌≡◌};
ghost use Rattle.dt_lex.specs.Text.{tokens_of};
ghost use Rattle.dt_lex.specs.Frame.{is_alone, is_nothing};

use crate::text::next_token;

/// Whether the tokens are this one alone, in its very spelling: `1` behind the word of a header.
pub fn is_alone(token: &[u8], tokens: &[u8]) -> bool
    ensures { result ≡ is_alone token.now (tokens_of tokens.now) }
{
    match next_token(tokens) {
        None => false,
        Some((first, rest)) => first == token && next_token(rest).is_none(),
    }
}

/// Whether there is no token: nothing stands behind the word `end`.
pub fn is_nothing(tokens: &[u8]) -> bool
    ensures { result ≡ is_nothing (tokens_of tokens.now) }
{
    next_token(tokens).is_none()
}
