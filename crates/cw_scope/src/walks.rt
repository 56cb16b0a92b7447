//! What stands in a program, as whole lists: its statements, its expressions.

ghost use Rattle.std.specs.Prelude.{◌≡◌, ◌++◌, map, IfOk};
ghost use Rattle.cw_syntax.specs.Trees.{tree_of, trees_of, statement_of, statements_of};
ghost use Rattle.cw_scope.specs.Walks.{nodes, nodes_in, nested, nested_all};
ghost use Rattle.cw_scope.specs.Held.{nested_of, tree_at};
ghost use Rattle.cw_scope.specs.Mentions.{own_name, own_call, names_at, names_all, calls_at, calls_all};

use crate::names::plain_name;
use crate::rules::is_call;
use cw_syntax::program::{Expr, Name, Stmt, What};
use std::alloc::AllocError;

/// A statement, and whether it stands in a loop.
#[derive(Clone, Copy, Drop)]
pub struct Nested<'p> {
    pub statement: &'p Stmt,
    pub looped: bool,
}

/// A whole expression, and whether it is the whole of a statement.
#[derive(Clone, Copy, Drop)]
pub(crate) struct Whole<'p> {
    pub tree: &'p Expr,
    pub stands: bool,
}

/// Appends an expression and all that are in it, each before its parts, these from left to right.
#[cycle(nodes)]
pub(crate) fn put_nodes<'p>(e: &'p Expr, out: &mut Vec<&'p Expr>) -> Result<(), AllocError>
    ensures { IfOk result (λ _. map tree_at out.new.items ≡ map tree_at out.old.items ++ nodes (tree_of e.now)) }
{
    out.push(e)?;
    put_parts(&e.parts, out)
}

/// Appends these expressions with all that are in them.
#[cycle(nodes)]
pub(crate) fn put_parts<'p>(parts: &'p [Expr], out: &mut Vec<&'p Expr>) -> Result<(), AllocError>
    ensures { IfOk result (λ _. map tree_at out.new.items ≡ map tree_at out.old.items ++ nodes_in (trees_of parts.now)) }
{
    for e in parts {
        put_nodes(e, out)?;
    }
    Ok(())
}

/// Appends the name that an expression is.
fn put_name(e: &Expr, out: &mut Vec<Name>) -> Result<(), AllocError>
    ensures { IfOk result (λ _. out.new.items ≡ out.old.items ++ own_name (tree_of e.now)) }
{
    match plain_name(e) {
        None => Ok(()),
        Some(name) => {
            out.push(name)?;
            Ok(())
        }
    }
}

/// Appends an expression that is a call.
fn put_call<'p>(e: &'p Expr, out: &mut Vec<&'p Expr>) -> Result<(), AllocError>
    ensures { IfOk result (λ _. map tree_at out.new.items ≡ map tree_at out.old.items ++ own_call (tree_of e.now)) }
{
    if !is_call(e) {
        return Ok(());
    }
    out.push(e)?;
    Ok(())
}

/// Appends the plain names and the calls of an expression, in the order of `put_nodes`. It stands in its callers: most expressions have no
/// parts, and cost no call so.
#[inline(always)]
#[cycle(mentions)]
pub(crate) fn put_mentions<'p>(
    e: &'p Expr,
    names: &mut Vec<Name>,
    calls: &mut Vec<&'p Expr>,
) -> Result<(), AllocError>
    ensures names { IfOk result (λ _. names.new.items ≡ names.old.items ++ names_at (tree_of e.now)) }
    ensures calls { IfOk result (λ _. map tree_at calls.new.items ≡ map tree_at calls.old.items ++ calls_at (tree_of e.now)) }
{
    put_name(e, names)?;
    put_call(e, calls)?;
    if e.parts.is_empty() {
        return Ok(());
    }
    put_all_mentions(&e.parts, names, calls)
}

/// Appends the plain names and the calls of these expressions.
#[cycle(mentions)]
fn put_all_mentions<'p>(
    parts: &'p [Expr],
    names: &mut Vec<Name>,
    calls: &mut Vec<&'p Expr>,
) -> Result<(), AllocError>
    ensures names { IfOk result (λ _. names.new.items ≡ names.old.items ++ names_all (trees_of parts.now)) }
    ensures calls { IfOk result (λ _. map tree_at calls.new.items ≡ map tree_at calls.old.items ++ calls_all (trees_of parts.now)) }
{
    for e in parts {
        put_mentions(e, names, calls)?;
    }
    Ok(())
}

/// Appends a statement and all that are in it, each before those in it.
#[cycle(nested)]
fn put_statement<'p>(
    statement: &'p Stmt,
    looped: bool,
    out: &mut Vec<Nested<'p>>,
) -> Result<(), AllocError>
    ensures { IfOk result (λ _. map nested_of out.new.items ≡ map nested_of out.old.items ++ nested looped (statement_of statement.now)) }
{
    out.push(Nested { statement, looped })?;
    match &statement.what {
        What::Block(statements) => put_statements(statements, looped, out),
        What::Label(_, _, body) => put_statement(body, looped, out),
        What::If(_, arm, other) => {
            put_statement(arm, looped, out)?;
            match other {
                None => Ok(()),
                Some(other) => put_statement(other, looped, out),
            }
        }
        What::While(_, body) => put_statement(body, true, out),
        What::Do(body, _) => put_statement(body, true, out),
        What::For(_, body) => put_statement(body, true, out),
        What::Decl(_) | What::Expr(_) | What::Empty => Ok(()),
        What::Break | What::Continue | What::Return(_) => Ok(()),
    }
}

/// Appends these statements with all that are in them.
#[cycle(nested)]
pub(crate) fn put_statements<'p>(
    statements: &'p [Stmt],
    looped: bool,
    out: &mut Vec<Nested<'p>>,
) -> Result<(), AllocError>
    ensures { IfOk result (λ _. map nested_of out.new.items ≡ map nested_of out.old.items ++ nested_all looped (statements_of statements.now)) }
{
    for statement in statements {
        put_statement(statement, looped, out)?;
    }
    Ok(())
}
