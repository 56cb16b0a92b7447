//! Arrays and initialisers.

ghost use Rattle.std.specs.Prelude.{◌≡◌};
ghost use Rattle.cw_expressions.specs.Cursor.{Gives};
ghost use Rattle.cw_expressions.specs.Next.{next_expression};
ghost use Rattle.cw_parse.specs.Lists.{one_more, many, behind, separated};
ghost use Rattle.cw_parse.specs.DeclarationReading.{optional_expression, array, more_elements, elements, value, initialiser};
ghost use Rattle.cw_parse.specs.DeclarationView.{optional, arrayed, expressions, initial};

use crate::specifiers::flag_at;
use cw_expressions::cursor::{begins_with, past, take};
use cw_expressions::expressions::read_expression;
use cw_expressions::refusal::Refusal;
use cw_grammar::terminals::{Lexeme, Terminal};
use cw_syntax::program::Expr;
use std::alloc::Global;

/// An expression that is next, unless this punctuator is, and the tokens after it.
#[tactic(auto, unfolding(crate::specs::DeclarationReading::optional_expression))]
pub(crate) fn optional_expression_at<'t>(
    alloc: Global,
    tokens: &'t [Lexeme],
    closes: Terminal,
) -> Result<(Option<Expr>, &'t [Lexeme]), Refusal>
    ensures optional { Gives optional result (optional_expression closes tokens.now) }
{
    if begins_with(tokens, closes) {
        return Ok((None, tokens));
    }
    let (expression, rest) = read_expression(alloc, tokens)?;
    Ok((Some(expression), rest))
}

/// `[ ]` or `[ size ]`, if it stands there (ISO C11, 6.7.6.2).
#[tactic(auto, unfolding(crate::specs::DeclarationReading::array))]
pub(crate) fn array_at<'t>(
    alloc: Global,
    tokens: &'t [Lexeme],
) -> Result<(Option<Option<Expr>>, &'t [Lexeme]), Refusal>
    ensures { Gives arrayed result (array tokens.now) }
{
    if begins_with(tokens, Terminal::OpenBracket) {
        let (size, rest) = optional_expression_at(alloc, past(tokens), Terminal::CloseBracket)?;
        let (_, rest) = take(rest, Terminal::CloseBracket)?;
        Ok((Some(size), rest))
    } else {
        Ok((None, tokens))
    }
}

/// Whether a comma is next, and another element behind it.
fn has_more_elements(tokens: &[Lexeme]) -> bool
    ensures { result ≡ more_elements tokens.now }
{
    begins_with(tokens, Terminal::Comma) && !begins_with(past(tokens), Terminal::CloseBrace)
}

/// An element behind a comma.
#[tactic(auto, unfolding(crate::specs::Lists::one_more))]
fn element_after<'t>(
    alloc: Global,
    before: (Vec<Expr>, &'t [Lexeme]),
) -> Result<(Vec<Expr>, &'t [Lexeme]), Refusal>
    ensures { Gives expressions result (one_more (behind next_expression) (expressions before.entry)) }
{
    let (mut list, rest) = before;
    let (element, rest) = read_expression(alloc, past(rest))?;
    list.push(element)?;
    Ok((list, rest))
}

/// The elements behind the first.
fn elements_after<'t>(
    alloc: Global,
    first: (Vec<Expr>, &'t [Lexeme]),
) -> Result<(Vec<Expr>, &'t [Lexeme]), Refusal>
    ensures { Gives expressions result (many (behind next_expression) more_elements (expressions first.entry)) }
{
    let mut so_far = first;
    'elements: while has_more_elements(so_far.1) {
        so_far = element_after(alloc, so_far)?;
    }
    Ok(so_far)
}

/// Expressions with commas between them, up to the brace or a last comma (ISO C11, 6.7.9).
#[tactic(auto, unfolding(crate::specs::Lists::separated))]
fn separated_elements_at<'t>(
    alloc: Global,
    tokens: &'t [Lexeme],
) -> Result<(Vec<Expr>, &'t [Lexeme]), Refusal>
    ensures { Gives expressions result (separated next_expression more_elements tokens.now) }
{
    let (first, rest) = read_expression(alloc, tokens)?;
    let list = Vec::from_array(alloc, [first])?;
    let (mut list, rest) = elements_after(alloc, (list, rest))?;
    list.shrink_to_fit();
    Ok((list, rest))
}

/// What stands in the braces of an initialiser.
#[tactic(auto, unfolding(crate::specs::DeclarationReading::elements))]
fn elements_at<'t>(
    alloc: Global,
    tokens: &'t [Lexeme],
) -> Result<(Vec<Expr>, &'t [Lexeme]), Refusal>
    ensures { Gives expressions result (elements tokens.now) }
{
    let (list, rest) = separated_elements_at(alloc, tokens)?;
    let (_, rest) = flag_at(rest, Terminal::Comma);
    Ok((list, rest))
}

/// What stands behind `=`.
#[tactic(auto, unfolding(crate::specs::DeclarationReading::value))]
fn value_at<'t>(
    alloc: Global,
    tokens: &'t [Lexeme],
) -> Result<((Vec<Expr>, bool), &'t [Lexeme]), Refusal>
    ensures { Gives initial result (value tokens.now) }
{
    if begins_with(tokens, Terminal::OpenBrace) {
        let (list, rest) = elements_at(alloc, past(tokens))?;
        let (_, rest) = take(rest, Terminal::CloseBrace)?;
        return Ok(((list, true), rest));
    }
    let (expression, rest) = read_expression(alloc, tokens)?;
    let list = Vec::from_array(alloc, [expression])?;
    Ok(((list, false), rest))
}

/// An initialiser, where one is next: its expressions, and whether they stand in braces.
#[tactic(auto, unfolding(crate::specs::DeclarationReading::initialiser))]
pub(crate) fn initialiser_at<'t>(
    alloc: Global,
    tokens: &'t [Lexeme],
) -> Result<((Vec<Expr>, bool), &'t [Lexeme]), Refusal>
    ensures { Gives initial result (initialiser tokens.now) }
{
    if begins_with(tokens, Terminal::Assign) {
        value_at(alloc, past(tokens))
    } else {
        Ok(((Vec::new(alloc), false), tokens))
    }
}
