//! What forbids splitting each function by its own head and its own body.

ghost use Rattle.std.specs.Prelude.{◌≡◌, map, IfOk};
ghost use Rattle.cw_syntax.specs.Trees.{definition_of, file_of};
ghost use Rattle.cw_callgraph.specs.Lowest.{lowest};
ghost use Rattle.cw_callgraph.specs.Forbidding.{body_places};
ghost use Rattle.cw_callgraph.specs.Walking.{scene_at, file_at, head_bar, body_bar};

use crate::heads::head_place;
use crate::lowest::lowest;
use crate::scopes::{Known, file_scope};
use crate::statements::{Setting, put_body};
use cw_core::NoMemory;
use cw_resolve::Scene;
use cw_syntax::program::{Function, Program};
use std::alloc::Global;

/// The least place in each function's head, and the least in its body, by the numbers of the functions.
#[derive(Drop)]
pub(crate) struct Bars {
    pub heads: Vec<Option<u32>>,
    pub bodies: Vec<Option<u32>>,
}

/// For each function the place in its head that forbids splitting it, if there is one.
fn head_bars(alloc: Global, functions: &[Function]) -> Result<Vec<Option<u32>>, NoMemory>
    ensures { IfOk result (λ heads. heads.items ≡ map head_bar functions.now) }
{
    let mut heads = Vec::new(alloc);
    for function in functions {
        heads.push(head_place(function))?;
    }
    Ok(heads)
}

/// The least place in the body of a function that forbids splitting it, and what reaches it. The names and the places that were found
/// before are let go.
pub(crate) fn body_bar(
    setting: &Setting,
    function: &Function,
    inner: &mut Vec<Known>,
    out: &mut Vec<u32>,
) -> Result<Option<u32>, NoMemory>
    ensures { IfOk result (λ place. place ≡ body_bar (scene_at setting.now) (file_at setting.now) function.now) }
{
    put_body(setting, function, inner, out)?;
    Ok(lowest(out))
}

/// The same for each function.
fn body_bars(
    alloc: Global,
    setting: &Setting,
    functions: &[Function],
) -> Result<Vec<Option<u32>>, NoMemory>
    ensures { IfOk result (λ bodies. bodies.items ≡ map (body_bar (scene_at setting.now) (file_at setting.now)) functions.now) }
{
    let mut inner = Vec::new(alloc);
    let mut out = Vec::new(alloc);
    let mut bodies = Vec::new(alloc);
    for function in functions {
        bodies.push(body_bar(setting, function, &mut inner, &mut out)?)?;
    }
    Ok(bodies)
}

/// The least place in each function's head and in each function's body.
pub(crate) fn all_bars(alloc: Global, scene: &Scene, program: &Program) -> Result<Bars, NoMemory>
    ensures heads { IfOk result (λ bars. bars.heads.items ≡ map head_bar program.now.functions.items) }
    ensures bodies { IfOk result (λ bars. bars.bodies.items ≡ map (λ f. lowest (body_places scene.now (file_of program.now) (definition_of f))) program.now.functions.items) }
{
    let file = file_scope(alloc, program)?;
    let setting = Setting { scene, file: &file };
    let heads = head_bars(alloc, &program.functions)?;
    let bodies = body_bars(alloc, &setting, &program.functions)?;
    Ok(Bars { heads, bodies })
}
