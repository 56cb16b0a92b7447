//! The steps that all readers of tokens take.

ghost use Rattle.std.specs.Prelude.{◌≡◌};
ghost use Rattle.cw_expressions.specs.Cursor.{Gives, begins, after, first, expect};

use crate::refusal::Refusal;
use cw_grammar::terminals::{Lexeme, Terminal, is_same};

/// Whether a token of this kind is next.
#[inline(always)]
pub fn begins_with(tokens: &[Lexeme], terminal: Terminal) -> bool
    ensures begins { result ≡ begins terminal tokens.now }
{
    match tokens {
        [] => false,
        [first, ..] => is_same(first.terminal, terminal),
    }
}

/// The tokens after the first.
#[inline(always)]
pub fn past(tokens: &[Lexeme]) -> &[Lexeme]
    ensures after { result.now ≡ after tokens.now }
{
    match tokens {
        [] => tokens,
        [_, rest @ ..] => rest,
    }
}

/// The first token, and the tokens after it. Syntax where there is none.
#[inline(always)]
pub fn first_of(tokens: &[Lexeme]) -> Result<(Lexeme, &[Lexeme]), Refusal>
    ensures first { Gives (λ x. (x.0, x.1.now)) result (first tokens.now) }
{
    match tokens {
        [] => Err(Refusal::Syntax),
        [first, rest @ ..] => Ok((*first, rest)),
    }
}

/// The token of this kind that is next, and the tokens after it. Syntax where another is next.
#[inline(always)]
#[tactic(auto, unfolding(crate::specs::Cursor::expect))]
pub fn take(tokens: &[Lexeme], terminal: Terminal) -> Result<(Lexeme, &[Lexeme]), Refusal>
    ensures token { Gives (λ x. (x.0, x.1.now)) result (expect terminal tokens.now) }
{
    match tokens {
        [] => Err(Refusal::Syntax),
        [first, rest @ ..] => {
            if is_same(first.terminal, terminal) {
                Ok((*first, rest))
            } else {
                Err(Refusal::Syntax)
            }
        }
    }
}
