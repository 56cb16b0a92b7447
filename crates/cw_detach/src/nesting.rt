//! How deep the statements of a form nest.

ghost use Rattle.std.specs.Prelude.{◌≡◌, nat_le, map};
ghost use Rattle.std.specs.List.{list_all};
ghost use Rattle.cw_syntax.specs.Trees.{statement_of, statements_of, definition_of};
ghost use Rattle.cw_detach.specs.Form.{nesting, nesting_all};
ghost use Rattle.cw_resolve.specs.Held.{lists};

use crate::spans::calls_one;
use cw_core::limits;
use cw_core::limits::NESTING;
use cw_syntax::program::{Function, Stmt, What};

/// Whether what stands in the form for a statement nests at most so deep.
#[cycle(nesting)]
fn is_within(source: &[u8], names: &[Vec<u8>], statement: &Stmt, most: u32) -> bool
    ensures { result ≡ nat_le (nesting source.now (lists names.now) (statement_of statement.now)) most }
{
    if most == 0 {
        return false;
    }
    match &statement.what {
        What::Expr(e) => most >= 5 || !calls_one(source, names, e),
        What::Block(statements) => are_within(source, names, statements, most - 1),
        What::Label(_, _, body) => is_within(source, names, body, most - 1),
        What::If(_, arm, other) => {
            is_within(source, names, arm, most - 1)
                && match other {
                    None => true,
                    Some(other) => is_within(source, names, other, most - 1),
                }
        }
        What::While(_, body) => is_within(source, names, body, most - 1),
        What::Do(body, _) => is_within(source, names, body, most - 1),
        What::For(_, body) => is_within(source, names, body, most - 1),
        What::Decl(_) | What::Empty => true,
        What::Break | What::Continue | What::Return(_) => true,
    }
}

/// The same for each of these statements.
#[cycle(nesting)]
fn are_within(source: &[u8], names: &[Vec<u8>], statements: &[Stmt], most: u32) -> bool
    ensures { result ≡ nat_le (nesting_all source.now (lists names.now) (statements_of statements.now)) most }
{
    for statement in statements {
        if !is_within(source, names, statement, most) {
            return false;
        }
    }
    true
}

/// Whether what stands in the form for the bodies of these functions nests no deeper than a source may.
pub(crate) fn are_shallow(source: &[u8], names: &[Vec<u8>], functions: &[Function]) -> bool
    ensures { result ≡ list_all (λ f. nat_le (nesting_all source.now (lists names.now) f.body) NESTING) (map definition_of functions.now) }
{
    for function in functions {
        if !are_within(source, names, &function.body, limits::NESTING as u32) {
            return false;
        }
    }
    true
}
