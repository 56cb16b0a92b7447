//! What a function calls directly.

ghost use Rattle.std.specs.Prelude.{◌≡◌, ◌≤◌, map, length, IfOk};
ghost use Rattle.std.specs.List.{All};
ghost use Rattle.cw_syntax.specs.Plans.{acting, action_of};
ghost use Rattle.cw_syntax.specs.Trees.{tree_of};
ghost use Rattle.cw_resolve.specs.Scenes.{stm_in, stms_in};
ghost use Rattle.cw_callgraph.specs.Effects.{callees, callees_all};
ghost use Rattle.cw_callgraph.specs.Finding.{IsFound, Finds, AreBelow, lists_of, direct};

use crate::found::{Found, find, nothing};
use cw_core::NoMemory;
use cw_resolve::{Act, Scene, action_of};
use cw_syntax::program::{Expr, Function, Program, Stmt, What};
use std::alloc::Global;

/// The function that an expression statement calls is found.
fn find_callee(scene: &Scene, e: &Expr, found: &mut Found) -> Result<(), NoMemory>
    requires few { length scene.now.functions ≤ 65535 }
    requires wide { length found.old.flags.items ≡ length scene.now.functions }
    requires sound { IsFound found.old }
    ensures { IfOk result (λ _. Finds (callees (acting (action_of scene.now (tree_of e.now)) 0)) found.old found.new) }
{
    match action_of(scene, e) {
        Act::Invokes { function, .. } => find(found, function as u16),
        Act::Computes | Act::Opens(_) | Act::Closes(_) => Ok(()),
    }
}

/// The functions that a statement calls are found, in the order of the text.
#[cycle(callees)]
fn find_callees(scene: &Scene, statement: &Stmt, found: &mut Found) -> Result<(), NoMemory>
    requires few { length scene.now.functions ≤ 65535 }
    requires wide { length found.old.flags.items ≡ length scene.now.functions }
    requires sound { IsFound found.old }
    ensures { IfOk result (λ _. Finds (callees (stm_in scene.now statement.now)) found.old found.new) }
{
    match &statement.what {
        What::Block(statements) => find_callees_of_all(scene, statements, found),
        What::Expr(e) => find_callee(scene, e, found),
        What::Label(_, _, body) => find_callees(scene, body, found),
        What::If(_, arm, other) => {
            find_callees(scene, arm, found)?;
            match other {
                None => Ok(()),
                Some(other) => find_callees(scene, other, found),
            }
        }
        What::While(_, body) => find_callees(scene, body, found),
        What::Do(body, _) => find_callees(scene, body, found),
        What::For(_, body) => find_callees(scene, body, found),
        What::Decl(_) | What::Empty | What::Break | What::Continue | What::Return(_) => Ok(()),
    }
}

/// The functions that these statements call are found, in the order of the text.
#[cycle(callees)]
pub(crate) fn find_callees_of_all(
    scene: &Scene,
    statements: &[Stmt],
    found: &mut Found,
) -> Result<(), NoMemory>
    requires few { length scene.now.functions ≤ 65535 }
    requires wide { length found.old.flags.items ≡ length scene.now.functions }
    requires sound { IsFound found.old }
    ensures { IfOk result (λ _. Finds (callees_all (stms_in scene.now statements.now)) found.old found.new) }
{
    for statement in statements {
        find_callees(scene, statement, found)?;
    }
    Ok(())
}

/// What a function calls: each function once, in the order of its first call in the text.
fn calls_of(alloc: Global, scene: &Scene, function: &Function) -> Result<Vec<u16>, NoMemory>
    requires few { length scene.now.functions ≤ 65535 }
    ensures { IfOk result (λ calls. (calls.items ≡ direct scene.now function.now) × AreBelow (length scene.now.functions) calls.items) }
{
    let mut found = nothing(alloc, scene.function_count())?;
    find_callees_of_all(scene, &function.body, &mut found)?;
    Ok(found.numbers)
}

/// What each function of a program calls in a scene of it, by their numbers.
pub(crate) fn all_calls(
    alloc: Global,
    scene: &Scene,
    program: &Program,
) -> Result<Vec<Vec<u16>>, NoMemory>
    requires few { length scene.now.functions ≤ 65535 }
    ensures calls { IfOk result (λ rows. lists_of rows.items ≡ map (direct scene.now) program.now.functions.items) }
    ensures below { IfOk result (λ rows. All (AreBelow (length scene.now.functions)) (lists_of rows.items)) }
{
    let mut rows = Vec::new(alloc);
    for function in &program.functions {
        rows.push(calls_of(alloc, scene, function)?)?;
    }
    Ok(rows)
}
