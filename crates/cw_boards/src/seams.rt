//! How many seams a statement has, counted up to the most that there may be.

ghost use Rattle.cw_boards.specs.Numbered.{capped};
ghost use Rattle.cw_boards.specs.Held.{seams_before};
ghost use Rattle.std.specs.Prelude.{◌≡◌};
ghost use Rattle.cw_syntax.specs.Plans.{acting, action_of, seams, seams_all};
ghost use Rattle.cw_syntax.specs.Trees.{tree_of};
ghost use Rattle.cw_resolve.specs.Scenes.{stm_in, stms_in};

use cw_resolve::{Act, Scene, action_of};
use cw_syntax::program::{Expr, Function, Stmt, What};

/// How many seams an expression has as a statement: one where it opens, closes or calls.
fn expression_seams(scene: &Scene, e: &Expr) -> usize
    ensures { result ≡ capped (seams (acting (action_of scene.now (tree_of e.now)) 0)) }
{
    match action_of(scene, e) {
        Act::Computes => 0,
        Act::Opens(_) | Act::Closes(_) | Act::Invokes { .. } => 1,
    }
}

/// How many seams a statement has.
#[cycle(seams)]
pub(crate) fn seams(scene: &Scene, statement: &Stmt) -> usize
    ensures { result ≡ capped (seams (stm_in scene.now statement.now)) }
{
    match &statement.what {
        What::Block(statements) => seams_all(scene, statements),
        What::Expr(e) => expression_seams(scene, e),
        What::Label(_, _, body) => seams(scene, body).saturating_add(1),
        What::If(_, arm, other) => match other {
            None => seams(scene, arm),
            Some(other) => seams(scene, arm).saturating_add(seams(scene, other)),
        },
        What::While(_, body) => seams(scene, body),
        What::Do(body, _) => seams(scene, body),
        What::For(_, body) => seams(scene, body),
        What::Decl(_) | What::Empty | What::Break | What::Continue | What::Return(_) => 0,
    }
}

/// How many seams these statements have together.
#[cycle(seams)]
pub(crate) fn seams_all(scene: &Scene, statements: &[Stmt]) -> usize
    ensures { result ≡ capped (seams_all (stms_in scene.now statements.now)) }
{
    let mut count: usize = 0;
    for s in statements {
        count = count.saturating_add(seams(scene, s));
    }
    count
}

/// How many seams these functions have together: one more for each entry.
pub(crate) fn seams_before(scene: &Scene, functions: &[Function]) -> usize
    ensures { result ≡ capped (seams_before scene.now functions.now) }
{
    let mut count: usize = 0;
    for f in functions {
        count = count
            .saturating_add(seams_all(scene, &f.body))
            .saturating_add(1);
    }
    count
}
