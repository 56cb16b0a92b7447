//! Statements by their places, and what passing them does.

ghost use Rattle.std.specs.Prelude.{◌≡◌, ℕ, find, map, option_and_then, option_map, Some};
ghost use Rattle.cw_syntax.specs.Trees.{Evaluates, Node, tree_of, trees_of, statement_of, parts_of};
ghost use Rattle.cw_value.specs.Deeds.{arguments_if, arguments_of, begins_at, condition, evaluated, form_of, next_turn, plain_deed, plain_if, returned};
ghost use Rattle.cw_value.specs.Expressions.{from_of};
ghost use Rattle.cw_value.specs.Machines.{call_from, second_from, whole_from};
ghost use Rattle.cw_slots.specs.Texts.{statement_at};
ghost use Rattle.cw_eval.specs.Passings.{deed_in};
ghost use Rattle.cw_scope.specs.Held.{tree_at};
ghost use Rattle.cw_deeds.specs.Forms.{deed_among, form_in, second_parts};

use crate::items::Row;
use cw_eval::Deed;
use cw_syntax::program::{Expr, Op, Stmt, What};

/// The statement that begins at this place.
fn statement_by<'s>(said: &[&'s Stmt], at: u32) -> Option<&'s Stmt>
    ensures { option_map statement_at result ≡ find (begins_at at) (map statement_at said.now) }
{
    for statement in said {
        if statement.from == at {
            return Some(*statement);
        }
    }
    None
}

/// What passing a plain statement does.
fn plain_deed<'s>(statement: &'s Stmt) -> Deed<'s>
    ensures { deed_in result ≡ plain_deed (form_of (statement_of statement.now)) }
{
    match &statement.what {
        What::Expr(e) => Deed::Computes(Some(e)),
        What::Decl(declaration) => Deed::Makes(declaration),
        What::Block(_) => Deed::Rests,
        What::For(_, _) => Deed::Rests,
        What::Label(_, _, _) | What::If(_, _, _) | What::While(_, _) | What::Do(_, _) => {
            Deed::Rests
        }
        What::Empty | What::Break | What::Continue | What::Return(_) => Deed::Rests,
    }
}

/// The expression that a statement is.
fn evaluated<'s>(statement: &'s Stmt) -> Option<&'s Expr>
    ensures { option_map tree_at result ≡ evaluated (form_of (statement_of statement.now)) }
{
    match &statement.what {
        What::Expr(e) => Some(e),
        What::Block(_) => None,
        What::For(_, _) => None,
        What::Decl(_) | What::Label(_, _, _) | What::If(_, _, _) => None,
        What::While(_, _) | What::Do(_, _) => None,
        What::Empty | What::Break | What::Continue | What::Return(_) => None,
    }
}

/// What a `return` gives back.
fn returned<'s>(statement: &'s Stmt) -> Option<&'s Expr>
    ensures { option_map tree_at result ≡ returned (form_of (statement_of statement.now)) }
{
    match &statement.what {
        What::Return(e) => match e {
            None => None,
            Some(e) => Some(e),
        },
        What::Block(_) => None,
        What::For(_, _) => None,
        What::Decl(_) | What::Label(_, _, _) | What::If(_, _, _) => None,
        What::While(_, _) | What::Do(_, _) | What::Expr(_) => None,
        What::Empty | What::Break | What::Continue => None,
    }
}

/// The condition of a statement.
fn condition<'s>(statement: &'s Stmt) -> Option<&'s Expr>
    ensures { option_map tree_at result ≡ condition (form_of (statement_of statement.now)) }
{
    match &statement.what {
        What::If(e, _, _) => Some(e),
        What::While(e, _) => Some(e),
        What::Do(_, e) => Some(e),
        What::For(head, _) => match &head.test {
            None => None,
            Some(e) => Some(e),
        },
        What::Block(_) => None,
        What::Decl(_) | What::Label(_, _, _) | What::Expr(_) => None,
        What::Empty | What::Break | What::Continue | What::Return(_) => None,
    }
}

/// The step of a `for`.
fn next_turn<'s>(statement: &'s Stmt) -> Option<&'s Expr>
    ensures { option_map tree_at result ≡ next_turn (form_of (statement_of statement.now)) }
{
    match &statement.what {
        What::For(head, _) => match &head.step {
            None => None,
            Some(e) => Some(e),
        },
        What::Block(_) => None,
        What::Decl(_) | What::Label(_, _, _) | What::If(_, _, _) => None,
        What::While(_, _) | What::Do(_, _) | What::Expr(_) => None,
        What::Empty | What::Break | What::Continue | What::Return(_) => None,
    }
}

/// The arguments of `f(..)` and of `x = f(..)`.
fn arguments_of(e: &Expr) -> &[Expr]
    ensures { trees_of result.now ≡ arguments_of (tree_of e.now) }
{
    arguments_in(e.op, &e.parts)
}

/// The parts of the second of these expressions; none where there is no second.
fn second_parts(parts: &[Expr]) -> &[Expr]
    ensures { trees_of result.now ≡ second_parts (trees_of parts.now) }
{
    match parts {
        [] => &[],
        [_, rest @ ..] => match rest {
            [] => &[],
            [e, ..] => parts_of(e),
        },
    }
}

/// The parts of an expression.
fn parts_of(e: &Expr) -> &[Expr]
    ensures { trees_of result.now ≡ parts_of (tree_of e.now) }
{
    &e.parts
}

/// The arguments of `f(..)` or of `x = f(..)`, by the operator and the parts of the whole.
fn arguments_in(op: Op, parts: &[Expr]) -> &[Expr]
    ensures { (from to : ℕ) → trees_of result.now ≡ arguments_of (Node op (trees_of parts.now) from to) }
{
    match op {
        Op::Call(_) => parts,
        Op::Name => second_parts(parts),
        Op::Number(_) => second_parts(parts),
        Op::Char(_) => second_parts(parts),
        Op::Text => second_parts(parts),
        Op::Index => second_parts(parts),
        Op::Prefix(_) => second_parts(parts),
        Op::Suffix(_) => second_parts(parts),
        Op::Binary(_) => second_parts(parts),
        Op::Assign(_) => second_parts(parts),
        Op::Cast(_) => second_parts(parts),
        Op::SizeOf => second_parts(parts),
        Op::SizeOfType(_) => second_parts(parts),
    }
}

/// What passing the plain statement at a place does; nothing where none begins there.
fn plain_at<'s>(said: &[&'s Stmt], at: u32) -> Deed<'s>
    ensures { deed_in result ≡ plain_if (form_in (map statement_at said.now) at) }
{
    match statement_by(said, at) {
        None => Deed::Rests,
        Some(statement) => plain_deed(statement),
    }
}

/// The expression that the statement at a place is, if it is one.
fn evaluated_at<'s>(said: &[&'s Stmt], at: u32) -> Option<&'s Expr>
    ensures { option_map tree_at result ≡ option_and_then evaluated (form_in (map statement_at said.now) at) }
{
    match statement_by(said, at) {
        None => None,
        Some(statement) => evaluated(statement),
    }
}

/// What the `return` at a place gives back, if anything.
fn returned_at<'s>(said: &[&'s Stmt], at: u32) -> Option<&'s Expr>
    ensures { option_map tree_at result ≡ option_and_then returned (form_in (map statement_at said.now) at) }
{
    match statement_by(said, at) {
        None => None,
        Some(statement) => returned(statement),
    }
}

/// The condition of the `if` or the loop at a place, if it has one.
fn condition_at<'s>(said: &[&'s Stmt], at: u32) -> Option<&'s Expr>
    ensures { option_map tree_at result ≡ option_and_then condition (form_in (map statement_at said.now) at) }
{
    match statement_by(said, at) {
        None => None,
        Some(statement) => condition(statement),
    }
}

/// The step of the `for` at a place, if it has one.
fn next_turn_at<'s>(said: &[&'s Stmt], at: u32) -> Option<&'s Expr>
    ensures { option_map tree_at result ≡ option_and_then next_turn (form_in (map statement_at said.now) at) }
{
    match statement_by(said, at) {
        None => None,
        Some(statement) => next_turn(statement),
    }
}

/// The arguments of the call that the statement at a place makes.
fn arguments_at<'s>(said: &[&'s Stmt], at: u32) -> &'s [Expr]
    ensures { trees_of result.now ≡ arguments_if (option_and_then evaluated (form_in (map statement_at said.now) at)) }
{
    match evaluated_at(said, at) {
        None => &[],
        Some(e) => arguments_of(e),
    }
}

/// What passing a row does in a function that has these statements.
pub fn deed_by<'s>(said: &[&'s Stmt], row: Row) -> Deed<'s>
    ensures deed { deed_in result ≡ deed_among (map statement_at said.now) row }
{
    match row {
        Row::Rests => Deed::Rests,
        Row::Plain(at) => plain_at(said, at),
        Row::Returns(at) => Deed::Answers(returned_at(said, at)),
        Row::Opens(at) => Deed::Opens(evaluated_at(said, at)),
        Row::Closes(at) => Deed::Computes(evaluated_at(said, at)),
        Row::Calls(at, _, _) => Deed::Calls(arguments_at(said, at)),
        Row::Decides(at) => Deed::Decides(condition_at(said, at)),
        Row::Steps(at) => Deed::Computes(next_turn_at(said, at)),
        Row::Ends => Deed::Rests,
    }
}

/// The start of the second of these parts, or this place where there is none.
fn second_start(at: u32, parts: &[Expr]) -> u32
    ensures { result ≡ second_from at (trees_of parts.now) }
{
    match parts {
        [] => at,
        [_, rest @ ..] => match rest {
            [] => at,
            [e, ..] => start_of(e),
        },
    }
}

/// Where an expression begins.
fn start_of(e: &Expr) -> u32
    ensures { result ≡ from_of (tree_of e.now) }
{
    e.from
}

/// The start of the call in `x = f(..)`.
fn second_of(e: &Expr) -> u32
    ensures { (at : ℕ) → result ≡ call_from at (Some (Evaluates (tree_of e.now))) }
{
    second_start(e.from, &e.parts)
}

/// The start of the call in the statement `x = f(..);` that stands at this place.
pub fn call_start(said: &[&Stmt], at: u32) -> u32
    ensures start { result ≡ call_from at (form_in (map statement_at said.now) at) }
{
    match statement_by(said, at) {
        None => at,
        Some(statement) => call_in(statement, at),
    }
}

/// Where the call in a statement `x = f(..);` begins; `at` where the statement isn't an expression.
fn call_in(statement: &Stmt, at: u32) -> u32
    ensures { result ≡ call_from at (Some (form_of (statement_of statement.now))) }
{
    match &statement.what {
        What::Expr(e) => second_of(e),
        What::Block(_) => at,
        What::For(_, _) => at,
        What::Decl(_) | What::Label(_, _, _) | What::If(_, _, _) => at,
        What::While(_, _) | What::Do(_, _) => at,
        What::Empty | What::Break | What::Continue | What::Return(_) => at,
    }
}

/// The start of the expression of the statement that stands at this place.
pub fn statement_start(said: &[&Stmt], at: u32) -> u32
    ensures start { result ≡ whole_from at (form_in (map statement_at said.now) at) }
{
    match statement_by(said, at) {
        None => at,
        Some(statement) => whole_in(statement, at),
    }
}

/// Where the expression that a statement is begins; `at` where it isn't one.
fn whole_in(statement: &Stmt, at: u32) -> u32
    ensures { result ≡ whole_from at (Some (form_of (statement_of statement.now))) }
{
    match &statement.what {
        What::Expr(e) => start_of(e),
        What::Block(_) => at,
        What::For(_, _) => at,
        What::Decl(_) | What::Label(_, _, _) | What::If(_, _, _) => at,
        What::While(_, _) | What::Do(_, _) => at,
        What::Empty | What::Break | What::Continue | What::Return(_) => at,
    }
}
