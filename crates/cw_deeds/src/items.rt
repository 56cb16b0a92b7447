//! What stands at each point of a program, by its place in the source.

ghost use Rattle.std.specs.Prelude.{◌≡◌, [], ◌∷◌, ◌++◌, is_some, map, option_map, IfOk};
ghost use Rattle.std.specs.List.{flat_map};
ghost use Rattle.cw_syntax.specs.Trees.{file_of, tree_of};
ghost use Rattle.cw_syntax.specs.Plans.{acting, action_of, plan_of};
ghost use Rattle.cw_syntax.specs.declared.program.Head.{out-Head};
ghost use Rattle.cw_rights.specs.Policies.{policy_of};
ghost use Rattle.cw_resolve.specs.Scenes.{names_of, plan_in, stm_in, stms_in};
ghost use Rattle.cw_points.specs.Points.{points, points_in, points_in_all};
ghost use Rattle.cw_deeds.specs.Rows.{function_rows, head_rows, row_of};

use cw_resolve::{Act, Scene, action_of};
use cw_rights::Policy;
use cw_syntax::checked::Checked;
use cw_syntax::program::{Expr, Function, Head, Name, Stmt, What};
use std::alloc::{AllocError, Global};

/// What stands at a point, with the place of its statement.
#[derive(Clone, Copy, Drop, Debug, PartialEq, Eq)]
pub enum Row {
    /// An entry, a label, a jump that gives nothing back, a loop without a condition.
    Rests,
    /// A declaration, an expression, an empty statement, the init of a `for`.
    Plain(u32),
    Returns(u32),
    Opens(u32),
    Closes(u32),
    /// The call of the function with this number, and the name that takes its result.
    Calls(u32, usize, Option<Name>),
    /// The condition of an `if` or of a loop.
    Decides(u32),
    /// The step of a `for`.
    Steps(u32),
    Ends,
}

/// An expression that stands at this place.
fn expression_row(scene: &Scene, e: &Expr, at: u32) -> Row
    ensures { map row_of (points_in (acting (action_of scene.now (tree_of e.now)) at)) ≡ result ∷ [] }
{
    match action_of(scene, e) {
        Act::Computes => Row::Plain(at),
        Act::Opens(_) => Row::Opens(at),
        Act::Closes(_) => Row::Closes(at),
        Act::Invokes {
            function,
            result,
            ..
        } => Row::Calls(at, function, result),
    }
}

/// The init, the test and the step of a `for`.
fn put_head(rows: &mut Vec<Row>, head: &Head, at: u32) -> Result<(), AllocError>
    ensures { IfOk result (λ _. rows.new.items ≡ rows.old.items ++ head_rows (option_map (λ s. s.from) (out-Head head.now).init) (is_some (out-Head head.now).test) (is_some (out-Head head.now).step) at) }
{
    if let Some(init) = &head.init {
        rows.push(Row::Plain(init.from))?;
    }
    if head.test.is_some() {
        rows.push(Row::Decides(at))?;
    } else {
        rows.push(Row::Rests)?;
    }
    if head.step.is_some() {
        rows.push(Row::Steps(at))?;
    }
    Ok(())
}

/// Appends the rows of a statement.
#[cycle(rows)]
fn put_statement(rows: &mut Vec<Row>, scene: &Scene, statement: &Stmt) -> Result<(), AllocError>
    ensures { IfOk result (λ _. rows.new.items ≡ rows.old.items ++ map row_of (points_in (stm_in scene.now statement.now))) }
{
    match &statement.what {
        What::Decl(_) => {
            rows.push(Row::Plain(statement.from))?;
            Ok(())
        }
        What::Empty => {
            rows.push(Row::Plain(statement.from))?;
            Ok(())
        }
        What::Break => {
            rows.push(Row::Rests)?;
            Ok(())
        }
        What::Continue => {
            rows.push(Row::Rests)?;
            Ok(())
        }
        What::Return(_) => {
            rows.push(Row::Returns(statement.from))?;
            Ok(())
        }
        What::Expr(e) => {
            rows.push(expression_row(scene, e, statement.from))?;
            Ok(())
        }
        What::Block(statements) => put_statements(rows, scene, statements),
        What::Label(_, _, body) => {
            rows.push(Row::Rests)?;
            put_statement(rows, scene, body)
        }
        What::If(_, arm, other) => {
            rows.push(Row::Decides(statement.from))?;
            match other {
                None => put_statement(rows, scene, arm),
                Some(other) => {
                    put_statement(rows, scene, arm)?;
                    put_statement(rows, scene, other)
                }
            }
        }
        What::While(_, body) => {
            rows.push(Row::Decides(statement.from))?;
            put_statement(rows, scene, body)
        }
        What::Do(body, _) => {
            put_statement(rows, scene, body)?;
            rows.push(Row::Decides(statement.from))?;
            Ok(())
        }
        What::For(head, body) => {
            put_head(rows, head, statement.from)?;
            put_statement(rows, scene, body)
        }
    }
}

/// Appends the rows of these statements.
#[cycle(rows)]
fn put_statements(rows: &mut Vec<Row>, scene: &Scene, statements: &[Stmt]) -> Result<(), AllocError>
    ensures { IfOk result (λ _. rows.new.items ≡ rows.old.items ++ map row_of (points_in_all (stms_in scene.now statements.now))) }
{
    for statement in statements {
        put_statement(rows, scene, statement)?;
    }
    Ok(())
}

/// Appends the rows of a function: its entry, its statements, its exit.
fn put_function(rows: &mut Vec<Row>, scene: &Scene, function: &Function) -> Result<(), AllocError>
    ensures { IfOk result (λ _. rows.new.items ≡ rows.old.items ++ function_rows scene.now function.now) }
{
    rows.push(Row::Rests)?;
    put_statements(rows, scene, &function.body)?;
    rows.push(Row::Ends)?;
    Ok(())
}

/// Appends the rows of these functions.
fn put_functions(
    rows: &mut Vec<Row>,
    scene: &Scene,
    functions: &[Function],
) -> Result<(), AllocError>
    ensures { IfOk result (λ _. rows.new.items ≡ rows.old.items ++ flat_map (function_rows scene.now) functions.now) }
{
    for function in functions {
        put_function(rows, scene, function)?;
    }
    Ok(())
}

/// What stands at each point of a program, by number.
pub fn rows(alloc: Global, checked: &Checked, policy: &Policy) -> Result<Vec<Row>, AllocError>
    ensures rows { IfOk result (λ rows. rows.items ≡ map row_of (points (plan_in checked.now (policy_of policy.now)))) }
{
    let scene = Scene::under(alloc, checked, policy)?;
    let mut rows = Vec::new(alloc);
    put_functions(&mut rows, &scene, &checked.program.functions)?;
    Ok(rows)
}
