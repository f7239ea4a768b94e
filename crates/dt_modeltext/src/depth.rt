ghost use Rattle.std.specs.Prelude.{◌≡◌, ◌≤◌, ◌∷◌};
ghost use Rattle.dt_lex.specs.Text.{tokens_of};
ghost use Rattle.dt_modeltext.specs.Depth.{unclosed, opens_above, is_too_deep};

use dt_lex::next_token;

/// The most operators on one way from the root of an expression, and the most opening parentheses
/// that stand unclosed.
pub const MAX_DEPTH: u32 = 32;

/// How many opening parentheses are unclosed at a token, where `before` are before it.
fn unclosed(before: u32, token: &[u8]) -> u32
    requires { before ≤ 32 }
    ensures { result ≡ unclosed before token.now }
{
    if token == b"(".as_slice() {
        before + 1
    } else if token == b")".as_slice() {
        before.saturating_sub(1)
    } else {
        before
    }
}

/// Whether more than 32 opening parentheses stand unclosed at one of these tokens, where `before`
/// are before them.
#[tactic(auto, unfolding(crate::specs::Depth::opens_above))]
fn opens_too_many(before: u32, tokens: &[u8]) -> bool
    requires { before ≤ 32 }
    ensures { result ≡ opens_above 32 before (tokens_of tokens.now) }
{
    let mut count = before;
    let mut rest = tokens;
    while let Some((token, after)) = next_token(rest) {
        count = unclosed(count, token);
        if count > MAX_DEPTH {
            return true;
        }
        rest = after;
    }
    false
}

/// Whether more than 32 opening parentheses stand unclosed at one of a line's tokens, of which the
/// first is given by itself.
#[tactic(auto, unfolding(crate::specs::Depth::opens_above))]
pub fn is_too_deep(word: &[u8], rest: &[u8]) -> bool
    ensures { result ≡ is_too_deep (word.now ∷ tokens_of rest.now) }
{
    opens_too_many(unclosed(0, word), rest)
}
