//! How many points a program has, counted up to one more than it may have.

ghost use Rattle.std.specs.Prelude.{◌≡◌, ◌+◌, ◌≤◌, map, is_some};
ghost use Rattle.cw_syntax.specs.Trees.{statement_of, statements_of, definition_of};
ghost use Rattle.cw_syntax.specs.declared.program.Head.{out-Head};
ghost use Rattle.cw_points.specs.Points.{one_if};
ghost use Rattle.cw_points.specs.Sizes.{size, size_all, size_from, capped};

use cw_core::limits;
use cw_syntax::program::{Function, Head, Stmt, What};

/// The most points that a program may have.
pub(crate) const MOST_POINTS: u32 = limits::POINTS as u32;

/// The count of two parts together.
fn add(a: u32, b: u32) -> u32
    requires a { a ≤ 8193 }
    requires b { b ≤ 8193 }
    ensures { result ≡ capped (a + b) }
{
    (a + b).min(MOST_POINTS + 1)
}

/// How many points the head of a `for` has: its init, its test and its step.
fn head_count(head: &Head) -> u32
    ensures { result ≡ one_if (is_some (out-Head head.now).init) + 1 + one_if (is_some (out-Head head.now).step) }
{
    let init = u32::from(head.init.is_some());
    let step = u32::from(head.step.is_some());
    init + 1 + step
}

/// How many points a statement has.
#[cycle(counts)]
pub(crate) fn count(statement: &Stmt) -> u32
    ensures { result ≡ capped (size (statement_of statement.now)) }
{
    match &statement.what {
        What::Block(statements) => count_all(statements),
        What::Label(_, _, body) => add(count(body), 1),
        What::If(_, arm, other) => {
            let first = add(count(arm), 1);
            match other {
                None => first,
                Some(other) => add(first, count(other)),
            }
        }
        What::While(_, body) => add(count(body), 1),
        What::Do(body, _) => add(count(body), 1),
        What::For(head, body) => add(count(body), head_count(head)),
        What::Decl(_) | What::Expr(_) | What::Empty => 1,
        What::Break | What::Continue | What::Return(_) => 1,
    }
}

/// How many points these statements have together.
#[cycle(counts)]
pub(crate) fn count_all(statements: &[Stmt]) -> u32
    ensures { result ≡ capped (size_all (statements_of statements.now)) }
{
    let mut total = 0;
    for statement in statements {
        total = add(total, count(statement));
    }
    total
}

/// How many points these functions have together: an entry and an exit more for each.
pub(crate) fn count_functions(functions: &[Function]) -> u32
    ensures { result ≡ capped (size_from (map definition_of functions.now)) }
{
    let mut total = 0;
    for function in functions {
        total = add(total, add(count_all(&function.body), 2));
    }
    total
}
