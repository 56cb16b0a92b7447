//! Which points of a program are forks.

ghost use Rattle.std.specs.Prelude.{◌≡◌, ◌++◌, map, is_some, IfOk};
ghost use Rattle.cw_syntax.specs.declared.program.Head.{out-Head};
ghost use Rattle.cw_syntax.specs.Trees.{statement_of, statements_of, definition_of, file_of};
ghost use Rattle.cw_syntax.specs.Names.{Names};
ghost use Rattle.cw_syntax.specs.Plans.{plan_of};
ghost use Rattle.cw_points.specs.Points.{points};
ghost use Rattle.cw_worlds.specs.Forks.{is_place, is_fork_item, fork_places};
ghost use Rattle.cw_items.specs.Flags.{head_flags, flags, flags_all, file_flags};

use crate::forks::fork_places;
use cw_core::NoMemory;
use cw_syntax::checked::Checked;
use cw_syntax::program::{Function, Head, Stmt, What};
use std::alloc::{AllocError, Global};

/// Appends the flags of the init, the test and the step of a `for`, whose test is a fork where `here` says so.
fn put_head(here: bool, head: &Head, out: &mut Vec<bool>) -> Result<(), AllocError>
    ensures { IfOk result (λ _. out.new.items ≡ out.old.items
        ++ head_flags here (is_some (out-Head head.now).init) (is_some (out-Head head.now).test) (is_some (out-Head head.now).step)) }
{
    if head.init.is_some() {
        out.push(false)?;
    }
    out.push(here && head.test.is_some())?;
    if head.step.is_some() {
        out.push(false)?;
    }
    Ok(())
}

/// Appends the flags of a statement's points.
#[cycle(flags)]
fn put_flags(forks: &[u32], statement: &Stmt, out: &mut Vec<bool>) -> Result<(), AllocError>
    ensures { IfOk result (λ _. out.new.items ≡ out.old.items ++ flags forks.now (statement_of statement.now)) }
{
    let here = forks.contains(&statement.from);
    match &statement.what {
        What::Block(statements) => put_all_flags(forks, statements, out),
        What::Label(_, _, body) => {
            out.push(false)?;
            put_flags(forks, body, out)
        }
        What::If(_, arm, other) => {
            out.push(here)?;
            put_flags(forks, arm, out)?;
            match other {
                None => Ok(()),
                Some(other) => put_flags(forks, other, out),
            }
        }
        What::While(_, body) => {
            out.push(here)?;
            put_flags(forks, body, out)
        }
        What::Do(body, _) => {
            put_flags(forks, body, out)?;
            out.push(here)?;
            Ok(())
        }
        What::For(head, body) => {
            put_head(here, head, out)?;
            put_flags(forks, body, out)
        }
        What::Decl(_)
        | What::Expr(_)
        | What::Empty
        | What::Break
        | What::Continue
        | What::Return(_) => {
            out.push(false)?;
            Ok(())
        }
    }
}

/// Appends the flags of these statements' points.
#[cycle(flags)]
fn put_all_flags(forks: &[u32], statements: &[Stmt], out: &mut Vec<bool>) -> Result<(), AllocError>
    ensures { IfOk result (λ _. out.new.items ≡ out.old.items ++ flags_all forks.now (statements_of statements.now)) }
{
    for statement in statements {
        put_flags(forks, statement, out)?;
    }
    Ok(())
}

/// Appends the flags of these functions' points.
fn put_functions(
    forks: &[u32],
    functions: &[Function],
    out: &mut Vec<bool>,
) -> Result<(), AllocError>
    ensures { IfOk result (λ _. out.new.items ≡ out.old.items ++ file_flags forks.now (map definition_of functions.now)) }
{
    for function in functions {
        out.push(false)?;
        put_all_flags(forks, &function.body, out)?;
        out.push(false)?;
    }
    Ok(())
}

/// Whether each point of a program, by number, is a fork: an `if` or the test of a loop whose condition is exactly `!fork()`.
///
/// Errors: `NoMemory` where the allocator refuses. Public source: fork(2).
pub fn fork_points(alloc: Global, checked: &Checked) -> Result<Vec<bool>, NoMemory>
    ensures forks { (names : Names) → IfOk result (λ flags. flags.items
        ≡ map (is_fork_item (fork_places checked.now.source.now (file_of checked.now.program))) (points (plan_of names checked.now.source.now (file_of checked.now.program)))) }
{
    let forks = fork_places(alloc, checked)?;
    let mut flags = Vec::new(alloc);
    put_functions(&forks, &checked.program.functions, &mut flags)?;
    Ok(flags)
}
