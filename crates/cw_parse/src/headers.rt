//! Parameters, and headers of prototypes and functions.

ghost use Rattle.std.specs.Prelude.{◌≡◌};
ghost use Rattle.cw_expressions.specs.Cursor.{Gives, begins};
ghost use Rattle.cw_grammar.specs.declared.terminals.Terminal.TheVariants.{Comma};
ghost use Rattle.cw_parse.specs.Lists.{one_more, many, behind, separated};
ghost use Rattle.cw_parse.specs.DeclarationReading.{brackets, param, is_void, params, front, header_behind};
ghost use Rattle.cw_parse.specs.DeclarationView.{specifiers_of, plain, parameters, headed};

use crate::specifiers::{Specifiers, name_at, optional_name_at, specifiers_at};
use cw_expressions::cursor::{begins_with, past, take};
use cw_expressions::refusal::Refusal;
use cw_expressions::types::{stars_at, type_name_at};
use cw_grammar::terminals::{Lexeme, Terminal};
use cw_syntax::program::{CType, Name, Param, Proto};
use std::alloc::Global;

/// `[]`, where a bracket is next.
#[tactic(auto, unfolding(crate::specs::DeclarationReading::brackets))]
fn brackets_at(tokens: &[Lexeme]) -> Result<(bool, &[Lexeme]), Refusal>
    ensures { Gives plain result (brackets tokens.now) }
{
    if begins_with(tokens, Terminal::OpenBracket) {
        let (_, rest) = take(past(tokens), Terminal::CloseBracket)?;
        Ok((true, rest))
    } else {
        Ok((false, tokens))
    }
}

/// A parameter (ISO C11, 6.7.6.3).
#[tactic(auto, unfolding(crate::specs::DeclarationReading::param))]
fn param_at(tokens: &[Lexeme]) -> Result<(Param, &[Lexeme]), Refusal>
    ensures { Gives plain result (param tokens.now) }
{
    let (kind, rest) = type_name_at(tokens)?;
    let (name, rest) = optional_name_at(rest);
    let (array, rest) = brackets_at(rest)?;
    Ok((Param { kind, name, array }, rest))
}

/// A parameter behind a comma.
#[tactic(auto, unfolding(crate::specs::Lists::one_more))]
fn param_after<'t>(
    before: (Vec<Param>, &'t [Lexeme]),
) -> Result<(Vec<Param>, &'t [Lexeme]), Refusal>
    ensures { Gives parameters result (one_more (behind param) (parameters before.entry)) }
{
    let (mut list, rest) = before;
    let (param, rest) = param_at(past(rest))?;
    list.push(param)?;
    Ok((list, rest))
}

/// The parameters behind the first.
fn params_after<'t>(
    first: (Vec<Param>, &'t [Lexeme]),
) -> Result<(Vec<Param>, &'t [Lexeme]), Refusal>
    ensures { Gives parameters result (many (behind param) (begins Comma) (parameters first.entry)) }
{
    let mut so_far = first;
    'params: while begins_with(so_far.1, Terminal::Comma) {
        so_far = param_after(so_far)?;
    }
    Ok(so_far)
}

/// Parameters with commas between them.
#[tactic(auto, unfolding(crate::specs::Lists::separated))]
fn separated_params_at<'t>(
    alloc: Global,
    tokens: &'t [Lexeme],
) -> Result<(Vec<Param>, &'t [Lexeme]), Refusal>
    ensures { Gives parameters result (separated param (begins Comma) tokens.now) }
{
    let (first, rest) = param_at(tokens)?;
    let list = Vec::from_array(alloc, [first])?;
    let (mut list, rest) = params_after((list, rest))?;
    list.shrink_to_fit();
    Ok((list, rest))
}

/// Whether `void` stands alone before a parenthesis.
fn is_void_next(tokens: &[Lexeme]) -> bool
    ensures { result ≡ is_void tokens.now }
{
    begins_with(tokens, Terminal::Void) && begins_with(past(tokens), Terminal::Close)
}

/// Parameters up to a parenthesis.
#[tactic(auto, unfolding(crate::specs::DeclarationReading::params))]
fn params_at<'t>(alloc: Global, tokens: &'t [Lexeme]) -> Result<(Vec<Param>, &'t [Lexeme]), Refusal>
    ensures { Gives parameters result (params tokens.now) }
{
    if begins_with(tokens, Terminal::Close) {
        Ok((Vec::new(alloc), tokens))
    } else if is_void_next(tokens) {
        Ok((Vec::new(alloc), past(tokens)))
    } else {
        separated_params_at(alloc, tokens)
    }
}

/// What a header or a declaration begins with: specifiers, stars and a name, and the tokens after them.
#[tactic(auto, unfolding(crate::specs::DeclarationReading::front))]
pub(crate) fn front_at(tokens: &[Lexeme]) -> Result<((Specifiers, u8, Name), &[Lexeme]), Refusal>
    ensures { Gives (λ x. (((specifiers_of x.0.0, x.0.1), x.0.2), x.1.now)) result (front tokens.now) }
{
    let (specifiers, rest) = specifiers_at(tokens)?;
    let (stars, rest) = stars_at(rest);
    let (name, rest) = name_at(rest)?;
    Ok(((specifiers, stars, name), rest))
}

/// The header of a prototype or a function behind its specifiers, stars and name, up to the parenthesis that closes its parameters, and
/// the tokens after it. Public source: ISO/IEC 9899:2011, 6.7.6.3 and 6.9.1.
#[tactic(auto, unfolding(crate::specs::DeclarationReading::header_behind))]
pub(crate) fn header_at<'t>(
    alloc: Global,
    specifiers: Specifiers,
    stars: u8,
    name: Name,
    tokens: &'t [Lexeme],
) -> Result<(Proto, &'t [Lexeme]), Refusal>
    ensures { Gives headed result (header_behind ((specifiers_of specifiers, stars), name) tokens.now) }
{
    let (_, rest) = take(tokens, Terminal::Open)?;
    let (params, rest) = params_at(alloc, rest)?;
    let (_, rest) = take(rest, Terminal::Close)?;
    let result = CType {
        base: specifiers.base,
        unsigned: specifiers.unsigned,
        stars,
    };
    Ok((
        Proto {
            name,
            result,
            params,
        },
        rest,
    ))
}
