//! Specifiers and names.

ghost use Rattle.std.specs.Prelude.{◌≡◌};
ghost use Rattle.cw_expressions.specs.Cursor.{Gives};
ghost use Rattle.cw_parse.specs.DeclarationReading.{storage, flag, specifiers, next_name, optional_name, starts_declaration};
ghost use Rattle.cw_parse.specs.DeclarationView.{specified, plain};

use cw_expressions::cursor::{begins_with, past, take};
use cw_expressions::refusal::Refusal;
use cw_expressions::types::base_at;
use cw_grammar::terminals::{Lexeme, Terminal, is_same};
use cw_syntax::program::{Base, Name};

/// What stands before the stars of each name that is declared.
#[derive(Clone, Copy, Drop, Debug, PartialEq, Eq)]
pub struct Specifiers {
    pub external: bool,
    pub fixed: bool,
    pub constant: bool,
    pub base: Base,
    pub unsigned: bool,
}

/// Whether a terminal begins a declaration.
pub(crate) fn begins_declaration(terminal: Terminal) -> bool
    ensures starts { result ≡ starts_declaration terminal }
{
    match terminal {
        Terminal::Extern
        | Terminal::Static
        | Terminal::Const
        | Terminal::Void
        | Terminal::Char
        | Terminal::Unsigned
        | Terminal::Int
        | Terminal::Long => true,
        _ => false,
    }
}

/// Whether `extern` or `static` stands there, in this order (ISO C11, 6.7.1).
fn storage_at(tokens: &[Lexeme]) -> ((bool, bool), &[Lexeme])
    ensures { plain result ≡ storage tokens.now }
{
    if begins_with(tokens, Terminal::Extern) {
        ((true, false), past(tokens))
    } else if begins_with(tokens, Terminal::Static) {
        ((false, true), past(tokens))
    } else {
        ((false, false), tokens)
    }
}

/// Whether this terminal is next, and the tokens after it.
pub(crate) fn flag_at(tokens: &[Lexeme], terminal: Terminal) -> (bool, &[Lexeme])
    ensures { plain result ≡ flag terminal tokens.now }
{
    if begins_with(tokens, terminal) {
        (true, past(tokens))
    } else {
        (false, tokens)
    }
}

/// Specifiers that are next, and the tokens after them.
#[tactic(auto, unfolding(crate::specs::DeclarationReading::specifiers))]
pub(crate) fn specifiers_at(tokens: &[Lexeme]) -> Result<(Specifiers, &[Lexeme]), Refusal>
    ensures { Gives specified result (specifiers tokens.now) }
{
    let ((external, fixed), rest) = storage_at(tokens);
    let (constant, rest) = flag_at(rest, Terminal::Const);
    let ((base, unsigned), rest) = base_at(rest)?;
    Ok((
        Specifiers {
            external,
            fixed,
            constant,
            base,
            unsigned,
        },
        rest,
    ))
}

/// A name that is next, and the tokens after it.
#[tactic(auto, unfolding(crate::specs::DeclarationReading::next_name))]
pub(crate) fn name_at(tokens: &[Lexeme]) -> Result<(Name, &[Lexeme]), Refusal>
    ensures { Gives plain result (next_name tokens.now) }
{
    let (name, rest) = take(tokens, Terminal::Name)?;
    Ok((
        Name {
            from: name.from,
            to: name.to,
        },
        rest,
    ))
}

/// A name, where one is next, and the tokens after it.
pub(crate) fn optional_name_at(tokens: &[Lexeme]) -> (Option<Name>, &[Lexeme])
    ensures { plain result ≡ optional_name tokens.now }
{
    match tokens {
        [] => (None, tokens),
        [first, rest @ ..] => {
            if is_same(first.terminal, Terminal::Name) {
                let name = Name {
                    from: first.from,
                    to: first.to,
                };
                (Some(name), rest)
            } else {
                (None, tokens)
            }
        }
    }
}
