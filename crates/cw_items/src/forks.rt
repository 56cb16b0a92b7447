//! The places of a program's forks.

ghost use Rattle.std.specs.Prelude.{◌≡◌, ◌++◌, map, IfOk, option_to_list};
ghost use Rattle.std.specs.List.{flat_map};
ghost use Rattle.cw_syntax.specs.declared.program.Expr.{out-Expr};
ghost use Rattle.cw_syntax.specs.Trees.{tree_of, trees_of, statement_of, file_of};
ghost use Rattle.cw_scope.specs.Held.{nested_of};
ghost use Rattle.cw_worlds.specs.Forks.{calls_fork, is_fork_operand, is_fork_test, fork_of, fork_places};

use cw_resolve::text;
use cw_scope::{Nested, every_statement};
use cw_syntax::checked::Checked;
use cw_syntax::program::{Expr, Op, Stmt, What};
use std::alloc::{AllocError, Global};

/// Whether an expression is a call of `fork` without arguments.
fn calls_fork(checked: &Checked, e: &Expr) -> bool
    ensures { result ≡ calls_fork checked.now.source.now (out-Expr e.now).op (trees_of (out-Expr e.now).parts.items) }
{
    match e.op {
        Op::Call(name) => e.parts.as_slice().is_empty()
            && text(checked, name) == b"fork".as_slice(),
        _ => false,
    }
}

/// Whether the operand of `!` is such a call.
#[tactic(auto, using(cw_syntax::proofs::Shapes::node_is))]
fn is_fork_operand(checked: &Checked, parts: &[Expr]) -> bool
    ensures { result ≡ is_fork_operand checked.now.source.now (trees_of parts.now) }
{
    match parts {
        [call] => calls_fork(checked, call),
        _ => false,
    }
}

/// Whether a condition is exactly `!fork()`: fork(2).
#[tactic(auto, using(cw_syntax::proofs::Shapes::node_is))]
fn is_fork_test(checked: &Checked, test: &Expr) -> bool
    ensures { result ≡ is_fork_test checked.now.source.now (tree_of test.now) }
{
    match test.op {
        Op::Prefix(number) => number == 2 && is_fork_operand(checked, &test.parts),
        _ => false,
    }
}

/// The place of a statement whose condition is a fork.
fn fork_of(checked: &Checked, statement: &Stmt) -> Option<u32>
    ensures { option_to_list result ≡ fork_of checked.now.source.now (statement_of statement.now) }
{
    let test = match &statement.what {
        What::If(test, _, _) | What::While(test, _) | What::Do(_, test) => test,
        What::For(head, _) => match &head.test {
            Some(test) => test,
            None => return None,
        },
        _ => return None,
    };
    if is_fork_test(checked, test) {
        Some(statement.from)
    } else {
        None
    }
}

/// The places of some statements whose conditions are forks.
fn put_forks(
    checked: &Checked,
    statements: &[Nested],
    forks: &mut Vec<u32>,
) -> Result<(), AllocError>
    ensures { IfOk result (λ _. forks.new.items ≡ forks.old.items ++ flat_map (λ p. fork_of checked.now.source.now p.statement) (map nested_of statements.now)) }
{
    for nested in statements {
        if let Some(place) = fork_of(checked, nested.statement) {
            forks.push(place)?;
        }
    }
    Ok(())
}

/// The places of a program's forks.
pub(crate) fn fork_places(alloc: Global, checked: &Checked) -> Result<Vec<u32>, AllocError>
    ensures { IfOk result (λ forks. forks.items ≡ fork_places checked.now.source.now (file_of checked.now.program)) }
{
    let statements = every_statement(alloc, &checked.program)?;
    let mut forks = Vec::new(alloc);
    put_forks(checked, &statements, &mut forks)?;
    Ok(forks)
}
