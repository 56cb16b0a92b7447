//! Types.

ghost use Rattle.std.specs.Prelude.{◌≡◌};
ghost use Rattle.cw_expressions.specs.Cursor.{Gives};
ghost use Rattle.cw_expressions.specs.TypeReading.{starts_type, skip, unsigned_base, base_of, stars_of, type_name, type_between};

use crate::cursor::{begins_with, past, take};
use crate::refusal::Refusal;
use cw_grammar::terminals::{Lexeme, Terminal};
use cw_syntax::program::{Base, CType};

/// Whether a terminal begins a type, or a type with `const`.
pub(crate) fn begins_type(terminal: Terminal) -> bool
    ensures starts { result ≡ starts_type terminal }
{
    match terminal {
        Terminal::Const
        | Terminal::Void
        | Terminal::Unsigned
        | Terminal::Char
        | Terminal::Int
        | Terminal::Long => true,
        _ => false,
    }
}

/// The tokens behind this terminal, if it stands there.
fn past_terminal(tokens: &[Lexeme], terminal: Terminal) -> &[Lexeme]
    ensures { result.now ≡ skip terminal tokens.now }
{
    if begins_with(tokens, terminal) {
        past(tokens)
    } else {
        tokens
    }
}

/// What stands behind `unsigned`: `char`, `int`, `long`, `long int`, or nothing, which is `int` (ISO C11, 6.7.2).
#[tactic(auto, unfolding(crate::specs::TypeReading::unsigned_base))]
fn unsigned_base_at(tokens: &[Lexeme]) -> Result<((Base, bool), &[Lexeme]), Refusal>
    ensures { Gives (λ x. (x.0, x.1.now)) result (unsigned_base tokens.now) }
{
    match tokens {
        [] => Ok(((Base::Int, true), tokens)),
        [first, rest @ ..] => match first.terminal {
            Terminal::Char => Ok(((Base::Char, true), rest)),
            Terminal::Int => Ok(((Base::Int, true), rest)),
            Terminal::Long => Ok(((Base::Long, true), past_terminal(rest, Terminal::Int))),
            _ => Ok(((Base::Int, true), tokens)),
        },
    }
}

/// The base of a type that is next, whether it is unsigned, and the tokens after it.
#[tactic(auto, unfolding(crate::specs::TypeReading::base_of))]
pub fn base_at(tokens: &[Lexeme]) -> Result<((Base, bool), &[Lexeme]), Refusal>
    ensures base { Gives (λ x. (x.0, x.1.now)) result (base_of tokens.now) }
{
    match tokens {
        [] => Err(Refusal::Syntax),
        [first, rest @ ..] => match first.terminal {
            Terminal::Void => Ok(((Base::Void, false), rest)),
            Terminal::Char => Ok(((Base::Char, false), rest)),
            Terminal::Int => Ok(((Base::Int, false), rest)),
            Terminal::Long => Ok(((Base::Long, false), past_terminal(rest, Terminal::Int))),
            Terminal::Unsigned => unsigned_base_at(rest),
            _ => Err(Refusal::Syntax),
        },
    }
}

/// How many stars are next, up to two, and the tokens after them.
#[tactic(auto, unfolding(crate::specs::TypeReading::stars_of))]
pub fn stars_at(tokens: &[Lexeme]) -> (u8, &[Lexeme])
    ensures stars { (result.0, result.1.now) ≡ stars_of tokens.now }
{
    if begins_with(tokens, Terminal::Star) {
        let rest = past(tokens);
        if begins_with(rest, Terminal::Star) {
            (2, past(rest))
        } else {
            (1, rest)
        }
    } else {
        (0, tokens)
    }
}

/// A type that is next, with its `const` and stars, and the tokens after it.
#[tactic(auto, unfolding(crate::specs::TypeReading::type_name))]
pub fn type_name_at(tokens: &[Lexeme]) -> Result<(CType, &[Lexeme]), Refusal>
    ensures kind { Gives (λ x. (x.0, x.1.now)) result (type_name tokens.now) }
{
    let ((base, unsigned), rest) = base_at(past_terminal(tokens, Terminal::Const))?;
    let (stars, rest) = stars_at(rest);
    Ok((
        CType {
            base,
            unsigned,
            stars,
        },
        rest,
    ))
}

/// A type in parentheses that is next, where it begins and ends, and the tokens after it.
#[tactic(auto, unfolding(crate::specs::TypeReading::type_between))]
pub(crate) fn type_between_at(
    tokens: &[Lexeme],
) -> Result<((CType, (u32, u32)), &[Lexeme]), Refusal>
    ensures kind { Gives (λ x. (x.0, x.1.now)) result (type_between tokens.now) }
{
    let (open, rest) = take(tokens, Terminal::Open)?;
    let (kind, rest) = type_name_at(rest)?;
    let (close, rest) = take(rest, Terminal::Close)?;
    Ok(((kind, (open.from, close.to)), rest))
}
