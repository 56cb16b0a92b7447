//! The statements of a function.

ghost use Rattle.std.specs.Prelude.{◌≡◌, ◌++◌, map, IfOk};
ghost use Rattle.cw_syntax.specs.Trees.{statement_of, statements_of, perhaps_of};
ghost use Rattle.cw_value.specs.Deeds.{said, said_all, said_init};
ghost use Rattle.cw_slots.specs.Texts.{statement_at};

use cw_syntax::program::{Stmt, What};
use std::alloc::{AllocError, Global};

/// Appends the init of a `for` where it is a declaration or an expression.
fn put_init<'p>(init: &'p Option<Stmt>, out: &mut Vec<&'p Stmt>) -> Result<(), AllocError>
    ensures { IfOk result (λ _. map statement_at out.new.items ≡ map statement_at out.old.items ++ said_init (perhaps_of init.now)) }
{
    match init {
        None => Ok(()),
        Some(init) => match &init.what {
            What::Decl(_) => {
                out.push(init)?;
                Ok(())
            }
            What::Expr(_) => {
                out.push(init)?;
                Ok(())
            }
            What::Block(_) => Ok(()),
            What::For(_, _) => Ok(()),
            What::Label(_, _, _) | What::If(_, _, _) => Ok(()),
            What::While(_, _) | What::Do(_, _) => Ok(()),
            What::Empty | What::Break | What::Continue | What::Return(_) => Ok(()),
        },
    }
}

/// Appends a statement and all that are in it, each before those in it, in the order of the text.
#[cycle(said)]
fn put_statement<'p>(statement: &'p Stmt, out: &mut Vec<&'p Stmt>) -> Result<(), AllocError>
    ensures { IfOk result (λ _. map statement_at out.new.items ≡ map statement_at out.old.items ++ said (statement_of statement.now)) }
{
    out.push(statement)?;
    match &statement.what {
        What::Block(statements) => put_statements(statements, out),
        What::Label(_, _, body) => put_statement(body, out),
        What::If(_, arm, other) => {
            put_statement(arm, out)?;
            match other {
                None => Ok(()),
                Some(other) => put_statement(other, out),
            }
        }
        What::While(_, body) => put_statement(body, out),
        What::Do(body, _) => put_statement(body, out),
        What::For(head, body) => {
            put_init(&head.init, out)?;
            put_statement(body, out)
        }
        What::Decl(_) | What::Expr(_) | What::Empty => Ok(()),
        What::Break | What::Continue | What::Return(_) => Ok(()),
    }
}

/// Appends these statements with all that are in them.
#[cycle(said)]
fn put_statements<'p>(statements: &'p [Stmt], out: &mut Vec<&'p Stmt>) -> Result<(), AllocError>
    ensures { IfOk result (λ _. map statement_at out.new.items ≡ map statement_at out.old.items ++ said_all (statements_of statements.now)) }
{
    for statement in statements {
        put_statement(statement, out)?;
    }
    Ok(())
}

/// All statements of a function's body, in the order of the text.
pub fn said(alloc: Global, body: &[Stmt]) -> Result<Vec<&Stmt>, AllocError>
    ensures said { IfOk result (λ said. map statement_at said.items ≡ said_all (statements_of body.now)) }
{
    let mut out = Vec::new(alloc);
    put_statements(body, &mut out)?;
    Ok(out)
}
