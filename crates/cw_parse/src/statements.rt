//! Statements, by recursion on the nesting that is left.

ghost use Rattle.std.specs.Prelude.{◌≡◌, true, false, [], ◌∷◌, ◌++◌, IfOk};
ghost use Rattle.cw_grammar.specs.Expressions.{nesting_limit};
ghost use Rattle.cw_syntax.specs.Trees.{tree_of, statement_of};
ghost use Rattle.cw_expressions.specs.Cursor.{Gives};
ghost use Rattle.cw_parse.specs.Lists.{many};
ghost use Rattle.cw_parse.specs.StatementReading.{goes_on, block, labelled, chosen, branched, looped, done, counted, stated, statement, read_statement};
ghost use Rattle.cw_parse.specs.StatementView.{one, several};

use crate::heads::{
    declared_at, declares_next, ended_at, evaluated_at, returned_at, short_at, start_at, test_at,
};
use cw_core::limits::NESTING;
use cw_expressions::cursor::{begins_with, past, take};
use cw_expressions::refusal::Refusal;
use cw_grammar::terminals::{Lexeme, Terminal};
use cw_syntax::program::{Expr, Head, Name, Stmt, What};
use std::alloc::{AllocError, Global};

/// A statement at the front, with at most this nesting. It stands in its callers, so that a statement is moved once to where it is kept.
#[inline(always)]
#[cycle(parser)]
fn read<'t>(
    alloc: Global,
    depth: u32,
    in_block: bool,
    tokens: &'t [Lexeme],
) -> Result<(Stmt, &'t [Lexeme]), Refusal>
    ensures { Gives one result (read_statement depth in_block tokens.now) }
{
    if depth == 0 {
        return Err(Refusal::TooDeep);
    }
    statement_at(alloc, depth - 1, in_block, tokens)
}

/// A statement, or in a block a declaration, with `depth` nestings left (ISO C11, 6.8). What begins with a name is read apart from
/// what `nested_at` reads by calls: so it isn't moved to the place of what they give, and that place is cleared only where one of them
/// is called.
#[inline(always)]
#[cycle(parser)]
#[tactic(auto, unfolding(crate::specs::StatementReading::statement, crate::specs::StatementReading::stated))]
fn statement_at<'t>(
    alloc: Global,
    depth: u32,
    in_block: bool,
    tokens: &'t [Lexeme],
) -> Result<(Stmt, &'t [Lexeme]), Refusal>
    ensures { Gives one result (statement (read_statement depth) in_block tokens.now) }
{
    if in_block && declares_next(tokens) {
        return declared_at(alloc, tokens);
    }
    match tokens {
        [] => Err(Refusal::Syntax),
        [first, rest @ ..] => match first.terminal {
            Terminal::Name => {
                if begins_with(rest, Terminal::Colon) {
                    labelled_in_place(alloc, depth, first, rest)
                } else {
                    evaluated_at(alloc, tokens)
                }
            }
            _ => nested_at(alloc, depth, tokens),
        },
    }
}

/// By its first terminal, whatever it is.
#[inline(always)]
#[cycle(parser)]
#[tactic(auto, unfolding(crate::specs::StatementReading::stated))]
fn nested_at<'t>(
    alloc: Global,
    depth: u32,
    tokens: &'t [Lexeme],
) -> Result<(Stmt, &'t [Lexeme]), Refusal>
    ensures { Gives one result (stated (read_statement depth) tokens.now) }
{
    match tokens {
        [] => Err(Refusal::Syntax),
        [first, rest @ ..] => match first.terminal {
            Terminal::OpenBrace => block_at(alloc, depth, first, rest),
            Terminal::Semicolon => Ok((
                Stmt {
                    what: What::Empty,
                    from: first.from,
                    to: first.to,
                },
                rest,
            )),
            Terminal::If => branched_at(alloc, depth, first, rest),
            Terminal::While => looped_at(alloc, depth, first, rest),
            Terminal::Do => done_at(alloc, depth, first, rest),
            Terminal::For => counted_at(alloc, depth, first, rest),
            Terminal::Break => short_at(What::Break, first, rest),
            Terminal::Continue => short_at(What::Continue, first, rest),
            Terminal::Return => returned_at(alloc, first, rest),
            Terminal::Name => {
                if begins_with(rest, Terminal::Colon) {
                    labelled_at(alloc, depth, first, rest)
                } else {
                    evaluated_at(alloc, tokens)
                }
            }
            _ => evaluated_at(alloc, tokens),
        },
    }
}

/// Behind `{`.
#[cycle(parser)]
#[tactic(auto, unfolding(crate::specs::StatementReading::block))]
fn block_at<'t>(
    alloc: Global,
    depth: u32,
    brace: &Lexeme,
    tokens: &'t [Lexeme],
) -> Result<(Stmt, &'t [Lexeme]), Refusal>
    ensures { Gives one result (block (read_statement depth) brace.now tokens.now) }
{
    let (kids, rest) = listed_at(alloc, depth, tokens)?;
    let (close, rest) = take(rest, Terminal::CloseBrace)?;
    Ok((
        Stmt {
            what: What::Block(kids),
            from: brace.from,
            to: close.to,
        },
        rest,
    ))
}

/// Takes memory for the statements of a block when its first is read: for one where the block ends behind it, and else for two. So a list
/// of one or two, as most blocks are, is never moved.
#[inline(always)]
fn make_room(list: &mut Vec<Stmt>, behind: &[Lexeme]) -> Result<(), AllocError>
    ensures { list.new.items ≡ list.old.items }
{
    if !list.is_empty() {
        return Ok(());
    }
    let room = if begins_with(behind, Terminal::CloseBrace) {
        1
    } else {
        2
    };
    list.reserve_exact(room)
}

/// Appends a statement of a block, behind which these tokens stand. What is let go where memory is wanting is let go here, and not in the
/// loop that reads.
#[inline(always)]
fn put_statement(list: &mut Vec<Stmt>, statement: Stmt, behind: &[Lexeme]) -> Result<(), AllocError>
    ensures { IfOk result (λ _. list.new.items ≡ list.old.items ++ statement ∷ []) }
{
    make_room(list, behind)?;
    list.push(statement)?;
    Ok(())
}

/// Statements up to a brace, in a list with no room to spare.
#[inline(always)]
#[cycle(parser)]
fn listed_at<'t>(
    alloc: Global,
    depth: u32,
    tokens: &'t [Lexeme],
) -> Result<(Vec<Stmt>, &'t [Lexeme]), Refusal>
    ensures { Gives several result (many (read_statement depth true) goes_on ([], tokens.now)) }
{
    let mut list = Vec::new(alloc);
    let mut rest = tokens;
    'statements: while !begins_with(rest, Terminal::CloseBrace) {
        let (statement, behind) = read(alloc, depth, true, rest)?;
        put_statement(&mut list, statement, behind)?;
        rest = behind;
    }
    list.shrink_to_fit();
    Ok((list, rest))
}

/// Behind a label's name. It stands in its caller, so that the place of what `labelled_at` gives is cleared only where a label is next.
#[inline(always)]
#[cycle(parser)]
fn labelled_in_place<'t>(
    alloc: Global,
    depth: u32,
    name: &Lexeme,
    tokens: &'t [Lexeme],
) -> Result<(Stmt, &'t [Lexeme]), Refusal>
    ensures { Gives one result (labelled (read_statement depth) name.now tokens.now) }
{
    labelled_at(alloc, depth, name, tokens)
}

/// Behind a label's name.
#[cycle(parser)]
#[tactic(auto, unfolding(crate::specs::StatementReading::labelled))]
fn labelled_at<'t>(
    alloc: Global,
    depth: u32,
    name: &Lexeme,
    tokens: &'t [Lexeme],
) -> Result<(Stmt, &'t [Lexeme]), Refusal>
    ensures { Gives one result (labelled (read_statement depth) name.now tokens.now) }
{
    let (colon, rest) = take(tokens, Terminal::Colon)?;
    let (body, rest) = read(alloc, depth, false, rest)?;
    let to = body.to;
    let body = Box::new(alloc, body)?;
    let label = Name {
        from: name.from,
        to: name.to,
    };
    let what = What::Label(label, colon.to, body);
    let from = name.from;
    Ok((Stmt { what, from, to }, rest))
}

/// Behind `if`.
#[cycle(parser)]
#[tactic(auto, unfolding(crate::specs::StatementReading::branched))]
fn branched_at<'t>(
    alloc: Global,
    depth: u32,
    terminal: &Lexeme,
    tokens: &'t [Lexeme],
) -> Result<(Stmt, &'t [Lexeme]), Refusal>
    ensures { Gives one result (branched (read_statement depth) terminal.now tokens.now) }
{
    let (test, rest) = test_at(alloc, tokens)?;
    let (body, rest) = read(alloc, depth, false, rest)?;
    chosen_at(alloc, depth, terminal, test, body, rest)
}

/// Behind the first arm of an `if`.
#[inline(always)]
#[cycle(parser)]
#[tactic(auto, unfolding(crate::specs::StatementReading::chosen))]
fn chosen_at<'t>(
    alloc: Global,
    depth: u32,
    terminal: &Lexeme,
    test: Expr,
    body: Stmt,
    tokens: &'t [Lexeme],
) -> Result<(Stmt, &'t [Lexeme]), Refusal>
    ensures { Gives one result (chosen (read_statement depth) terminal.now (tree_of test) (statement_of body) tokens.now) }
{
    let to = body.to;
    let body = Box::new(alloc, body)?;
    let from = terminal.from;
    if begins_with(tokens, Terminal::Else) {
        let (other, rest) = read(alloc, depth, false, past(tokens))?;
        let to = other.to;
        let other = Box::new(alloc, other)?;
        let what = What::If(test, body, Some(other));
        return Ok((Stmt { what, from, to }, rest));
    }
    let what = What::If(test, body, None);
    Ok((Stmt { what, from, to }, tokens))
}

/// Behind `while`.
#[cycle(parser)]
#[tactic(auto, unfolding(crate::specs::StatementReading::looped))]
fn looped_at<'t>(
    alloc: Global,
    depth: u32,
    terminal: &Lexeme,
    tokens: &'t [Lexeme],
) -> Result<(Stmt, &'t [Lexeme]), Refusal>
    ensures { Gives one result (looped (read_statement depth) terminal.now tokens.now) }
{
    let (test, rest) = test_at(alloc, tokens)?;
    let (body, rest) = read(alloc, depth, false, rest)?;
    let to = body.to;
    let body = Box::new(alloc, body)?;
    let what = What::While(test, body);
    let from = terminal.from;
    Ok((Stmt { what, from, to }, rest))
}

/// Behind `do`.
#[cycle(parser)]
#[tactic(auto, unfolding(crate::specs::StatementReading::done))]
fn done_at<'t>(
    alloc: Global,
    depth: u32,
    terminal: &Lexeme,
    tokens: &'t [Lexeme],
) -> Result<(Stmt, &'t [Lexeme]), Refusal>
    ensures { Gives one result (done (read_statement depth) terminal.now tokens.now) }
{
    let (body, rest) = read(alloc, depth, false, tokens)?;
    let (_, rest) = take(rest, Terminal::While)?;
    let (test, rest) = test_at(alloc, rest)?;
    let (semicolon, rest) = take(rest, Terminal::Semicolon)?;
    let body = Box::new(alloc, body)?;
    let what = What::Do(body, test);
    let (from, to) = (terminal.from, semicolon.to);
    Ok((Stmt { what, from, to }, rest))
}

/// Behind `for`.
#[cycle(parser)]
#[tactic(auto, unfolding(crate::specs::StatementReading::counted))]
fn counted_at<'t>(
    alloc: Global,
    depth: u32,
    terminal: &Lexeme,
    tokens: &'t [Lexeme],
) -> Result<(Stmt, &'t [Lexeme]), Refusal>
    ensures { Gives one result (counted (read_statement depth) terminal.now tokens.now) }
{
    let (_, rest) = take(tokens, Terminal::Open)?;
    let (init, rest) = start_at(alloc, rest)?;
    let ((test, _), rest) = ended_at(alloc, rest, Terminal::Semicolon)?;
    let ((step, _), rest) = ended_at(alloc, rest, Terminal::Close)?;
    let (body, rest) = read(alloc, depth, false, rest)?;
    let to = body.to;
    let body = Box::new(alloc, body)?;
    let head = Box::new(alloc, Head { init, test, step })?;
    let what = What::For(head, body);
    let from = terminal.from;
    Ok((Stmt { what, from, to }, rest))
}

/// Statements up to a brace.
pub(crate) fn statements_at<'t>(
    alloc: Global,
    tokens: &'t [Lexeme],
) -> Result<(Vec<Stmt>, &'t [Lexeme]), Refusal>
    ensures { Gives several result (many (read_statement nesting_limit true) goes_on ([], tokens.now)) }
{
    listed_at(alloc, NESTING as u32, tokens)
}
