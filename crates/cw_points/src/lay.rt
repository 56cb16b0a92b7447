//! The points and seams of statements.

ghost use Rattle.std.specs.Prelude.{◌≡◌, ◌+◌, ◌≤◌, ℕ, true, length, is_some, Some, None, IfOk, OnOk};
ghost use Rattle.cw_syntax.specs.Trees.{Stated, Evaluates, tree_of, statement_of, statements_of};
ghost use Rattle.cw_syntax.specs.declared.program.Head.{out-Head};
ghost use Rattle.cw_points.specs.Points.{one_if};
ghost use Rattle.cw_points.specs.Sizes.{size, size_all};
ghost use Rattle.cw_points.specs.Graphs.{first, step_nodes, test_node};
ghost use Rattle.cw_points.specs.Drawing.{drawn_of, looped, before, with_nodes, with_node, laid, laid_all};

use crate::count::count;
use crate::draft::{Draft, Ways, first};
use crate::graph::Point;
use cw_core::limits::POINTS;
use cw_resolve::{Act, Scene, action_of};
use cw_syntax::program::{Expr, Head, Stmt, What};
use std::alloc::AllocError;

/// The ways in a loop whose body goes on at this point.
fn looped(ways: Ways, turn: u32) -> Ways
    ensures { result ≡ looped ways turn }
{
    Ways {
        next: turn,
        exit: ways.exit,
        broken: Some(ways.next),
        continued: Some(turn),
    }
}

/// The ways of a statement that goes on at this point.
fn before(ways: Ways, next: u32) -> Ways
    ensures { result ≡ before ways next }
{
    Ways { next, ..ways }
}

/// The number of a descriptor, as a point holds it.
fn descriptor_number(number: usize) -> u8
    requires few { number ≤ 255 }
    ensures { result ≡ number }
{
    number as u8
}

/// The number of a function, as a point holds it.
pub(crate) fn function_number(number: usize) -> u16
    requires few { number ≤ 65535 }
    ensures { result ≡ number }
{
    number as u16
}

/// An expression that stands at this place.
fn lay_expression(
    draft: &mut Draft,
    scene: &Scene,
    function: u16,
    e: &Expr,
    place: u32,
    ways: Ways,
) -> Result<(), AllocError>
    requires descriptors { length scene.now.names.descriptors ≤ 255 }
    requires functions { length scene.now.functions ≤ 65535 }
    requires few { length draft.old.nodes.items ≤ POINTS }
    ensures { OnOk result ((to : ℕ) → drawn_of draft.new ≡ laid scene.now function (Stated (Evaluates (tree_of e.now)) place to) ways (drawn_of draft.old)) }
{
    match action_of(scene, e) {
        Act::Computes => draft.put_step(function, Some(ways.next)),
        Act::Opens(d) => {
            let d = descriptor_number(d);
            draft.put_seam(Point::Open(d), function, ways.next, place, None)
        }
        Act::Closes(d) => {
            let d = descriptor_number(d);
            draft.put_seam(Point::Close(d), function, ways.next, place, None)
        }
        Act::Invokes {
            function: callee,
            split: _,
            result: taken,
        } => {
            let callee = function_number(callee);
            draft.put_seam(Point::Call(callee), function, ways.next, place, taken)
        }
    }
}

/// The init, the test and the step of a `for` whose body has so many points; it answers where the body goes on.
fn put_head(
    draft: &mut Draft,
    function: u16,
    head: &Head,
    body: u32,
    next: u32,
) -> Result<u32, AllocError>
    requires few { length draft.old.nodes.items ≤ POINTS }
    requires body { body ≤ POINTS }
    ensures turn { IfOk result (λ turn. turn ≡ length draft.old.nodes.items + one_if (is_some (out-Head head.now).init) + one_if (is_some (out-Head head.now).step)) }
    ensures drawn { IfOk result (λ turn. (test : ℕ) → test ≡ length draft.old.nodes.items + one_if (is_some (out-Head head.now).init) →
        drawn_of draft.new ≡ with_nodes (step_nodes function (is_some (out-Head head.now).step) test) (with_node (test_node function (is_some (out-Head head.now).test) (first body (turn + 1) turn) next) (with_nodes (step_nodes function (is_some (out-Head head.now).init) test) (drawn_of draft.old)))) }
{
    let at = draft.next_point();
    let begun = head.init.is_some();
    let stepped = head.step.is_some();
    let test = at + u32::from(begun);
    let turn = test + u32::from(stepped);
    draft.put_step_if(begun, function, test)?;
    draft.put_test(
        head.test.is_some(),
        function,
        first(body, turn + 1, turn),
        next,
    )?;
    draft.put_step_if(stepped, function, test)?;
    Ok(turn)
}

/// How many points a statement has, of which so many are left with those behind it: all of them, where it is the last.
fn own_count(statement: &Stmt, last: bool, left: u32) -> u32
    requires few { size (statement_of statement.now) ≤ POINTS }
    requires last { last ≡ true → left ≡ size (statement_of statement.now) }
    ensures { result ≡ size (statement_of statement.now) }
{
    if last { left } else { count(statement) }
}

/// A statement, which has so many points.
#[cycle(lay)]
fn lay(
    draft: &mut Draft,
    scene: &Scene,
    function: u16,
    statement: &Stmt,
    own: u32,
    ways: Ways,
) -> Result<(), AllocError>
    requires labels { length scene.now.names.labels ≤ 65535 }
    requires descriptors { length scene.now.names.descriptors ≤ 255 }
    requires functions { length scene.now.functions ≤ 65535 }
    requires own { own ≡ size (statement_of statement.now) }
    requires few { length draft.old.nodes.items + size (statement_of statement.now) ≤ POINTS }
    ensures { OnOk result (drawn_of draft.new ≡ laid scene.now function (statement_of statement.now) ways (drawn_of draft.old)) }
{
    match &statement.what {
        What::Decl(_) => draft.put_step(function, Some(ways.next)),
        What::Empty => draft.put_step(function, Some(ways.next)),
        What::Break => draft.put_step(function, ways.broken),
        What::Continue => draft.put_step(function, ways.continued),
        What::Return(_) => draft.put_step(function, Some(ways.exit)),
        What::Expr(e) => lay_expression(draft, scene, function, e, statement.from, ways),
        What::Block(statements) => lay_all(draft, scene, function, statements, own, ways),
        What::Label(name, mark, body) => {
            let label = scene.label_number(scene.text(*name));
            let at = draft.next_point();
            let inner = own - 1;
            let next = first(inner, at + 1, ways.next);
            draft.put_seam(Point::Label(label), function, next, *mark, None)?;
            lay(draft, scene, function, body, inner, ways)
        }
        What::If(_, arm, other) => match other {
            None => {
                let at = draft.next_point();
                let inner = own - 1;
                let holds = first(inner, at + 1, ways.next);
                draft.put_branch(function, holds, ways.next)?;
                lay(draft, scene, function, arm, inner, ways)
            }
            Some(other) => {
                let at = draft.next_point();
                let inner = count(arm);
                let rest = own - 1 - inner;
                let holds = first(inner, at + 1, ways.next);
                let fails = first(rest, at + 1 + inner, ways.next);
                draft.put_branch(function, holds, fails)?;
                lay(draft, scene, function, arm, inner, ways)?;
                lay(draft, scene, function, other, rest, ways)
            }
        },
        What::While(_, body) => {
            let at = draft.next_point();
            let inner = own - 1;
            let holds = first(inner, at + 1, at);
            draft.put_branch(function, holds, ways.next)?;
            lay(draft, scene, function, body, inner, looped(ways, at))
        }
        What::Do(body, _) => {
            let at = draft.next_point();
            let inner = own - 1;
            let test = at + inner;
            lay(draft, scene, function, body, inner, looped(ways, test))?;
            draft.put_branch(function, at, ways.next)
        }
        What::For(head, body) => {
            let inner = count(body);
            let turn = put_head(draft, function, head, inner, ways.next)?;
            lay(draft, scene, function, body, inner, looped(ways, turn))
        }
    }
}

/// These statements, which have so many points, one after the other.
#[cycle(lay)]
pub(crate) fn lay_all(
    draft: &mut Draft,
    scene: &Scene,
    function: u16,
    statements: &[Stmt],
    size: u32,
    ways: Ways,
) -> Result<(), AllocError>
    requires labels { length scene.now.names.labels ≤ 65535 }
    requires descriptors { length scene.now.names.descriptors ≤ 255 }
    requires functions { length scene.now.functions ≤ 65535 }
    requires size { size ≡ size_all (statements_of statements.now) }
    requires few { length draft.old.nodes.items + size_all (statements_of statements.now) ≤ POINTS }
    ensures { OnOk result (drawn_of draft.new ≡ laid_all scene.now function (statements_of statements.now) ways (drawn_of draft.old)) }
{
    let mut left = size;
    for (i, statement) in statements.iter().enumerate() {
        let own = own_count(statement, i + 1 == statements.len(), left);
        left -= own;
        let at = draft.next_point();
        let next = first(left, at + own, ways.next);
        lay(draft, scene, function, statement, own, before(ways, next))?;
    }
    Ok(())
}
