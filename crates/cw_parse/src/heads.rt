//! What statements are made of besides statements.

ghost use Rattle.std.specs.Prelude.{◌≡◌};
ghost use Rattle.cw_syntax.specs.Trees.{Form, form_of};
ghost use Rattle.cw_expressions.specs.Cursor.{Gives};
ghost use Rattle.cw_expressions.specs.View.{seen};
ghost use Rattle.cw_parse.specs.StatementReading.{condition, ended, declares, declared, evaluated, start, short, returned};
ghost use Rattle.cw_parse.specs.StatementView.{optional, one, perhaps};

use crate::declarations::declaration_at;
use crate::initialisers::optional_expression_at;
use crate::specifiers::begins_declaration;
use cw_expressions::cursor::{begins_with, first_of, past, take};
use cw_expressions::expressions::read_expression;
use cw_expressions::refusal::Refusal;
use cw_grammar::terminals::{Lexeme, Terminal};
use cw_syntax::program::{Expr, Stmt, What};
use std::alloc::Global;

/// An expression in parentheses.
#[inline(always)]
#[tactic(auto, unfolding(crate::specs::StatementReading::condition))]
pub(crate) fn test_at<'t>(
    alloc: Global,
    tokens: &'t [Lexeme],
) -> Result<(Expr, &'t [Lexeme]), Refusal>
    ensures { Gives seen result (condition tokens.now) }
{
    let (_, rest) = take(tokens, Terminal::Open)?;
    let (test, rest) = read_expression(alloc, rest)?;
    let (_, rest) = take(rest, Terminal::Close)?;
    Ok((test, rest))
}

/// An expression, unless this punctuator is next, and past it: where it ends, and the tokens after it.
#[tactic(auto, unfolding(crate::specs::StatementReading::ended))]
pub(crate) fn ended_at<'t>(
    alloc: Global,
    tokens: &'t [Lexeme],
    closes: Terminal,
) -> Result<((Option<Expr>, u32), &'t [Lexeme]), Refusal>
    ensures { Gives optional result (ended closes tokens.now) }
{
    let (expression, rest) = optional_expression_at(alloc, tokens, closes)?;
    let (close, rest) = take(rest, closes)?;
    Ok(((expression, close.to), rest))
}

/// Whether a declaration begins here.
pub(crate) fn declares_next(tokens: &[Lexeme]) -> bool
    ensures { result ≡ declares tokens.now }
{
    match tokens {
        [] => false,
        [first, ..] => begins_declaration(first.terminal),
    }
}

/// A declaration, as a statement. It stands in its callers, so that the place of what it reads is cleared only where one is read.
#[inline(always)]
#[tactic(auto, unfolding(crate::specs::StatementReading::declared))]
pub(crate) fn declared_at<'t>(
    alloc: Global,
    tokens: &'t [Lexeme],
) -> Result<(Stmt, &'t [Lexeme]), Refusal>
    ensures { Gives one result (declared tokens.now) }
{
    let (declaration, rest) = declaration_at(alloc, tokens)?;
    let (from, to) = (declaration.from, declaration.to);
    Ok((
        Stmt {
            what: What::Decl(declaration),
            from,
            to,
        },
        rest,
    ))
}

/// An expression before a semicolon, as a statement.
#[inline(always)]
#[tactic(auto, unfolding(crate::specs::StatementReading::evaluated))]
pub(crate) fn evaluated_at<'t>(
    alloc: Global,
    tokens: &'t [Lexeme],
) -> Result<(Stmt, &'t [Lexeme]), Refusal>
    ensures { Gives one result (evaluated tokens.now) }
{
    let (first, _) = first_of(tokens)?;
    let (expression, rest) = read_expression(alloc, tokens)?;
    let (semicolon, rest) = take(rest, Terminal::Semicolon)?;
    Ok((
        Stmt {
            what: What::Expr(expression),
            from: first.from,
            to: semicolon.to,
        },
        rest,
    ))
}

/// The first part of the head of a `for`, past its semicolon.
#[tactic(auto, unfolding(crate::specs::StatementReading::start))]
pub(crate) fn start_at<'t>(
    alloc: Global,
    tokens: &'t [Lexeme],
) -> Result<(Option<Stmt>, &'t [Lexeme]), Refusal>
    ensures { Gives perhaps result (start tokens.now) }
{
    if begins_with(tokens, Terminal::Semicolon) {
        Ok((None, past(tokens)))
    } else if declares_next(tokens) {
        let (declaration, rest) = declared_at(alloc, tokens)?;
        Ok((Some(declaration), rest))
    } else {
        let (expression, rest) = evaluated_at(alloc, tokens)?;
        Ok((Some(expression), rest))
    }
}

/// `break` or `continue`, behind the terminal.
#[inline(always)]
#[tactic(auto, unfolding(crate::specs::StatementReading::short))]
pub(crate) fn short_at<'t>(
    what: What,
    terminal: &Lexeme,
    tokens: &'t [Lexeme],
) -> Result<(Stmt, &'t [Lexeme]), Refusal>
    ensures { Gives one result (short (form_of what) terminal.now tokens.now) }
{
    let (semicolon, rest) = take(tokens, Terminal::Semicolon)?;
    Ok((
        Stmt {
            what,
            from: terminal.from,
            to: semicolon.to,
        },
        rest,
    ))
}

/// Behind `return`.
#[tactic(auto, unfolding(crate::specs::StatementReading::returned))]
pub(crate) fn returned_at<'t>(
    alloc: Global,
    terminal: &Lexeme,
    tokens: &'t [Lexeme],
) -> Result<(Stmt, &'t [Lexeme]), Refusal>
    ensures { Gives one result (returned terminal.now tokens.now) }
{
    let ((value, to), rest) = ended_at(alloc, tokens, Terminal::Semicolon)?;
    Ok((
        Stmt {
            what: What::Return(value),
            from: terminal.from,
            to,
        },
        rest,
    ))
}
