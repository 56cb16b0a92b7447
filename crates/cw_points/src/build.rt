//! The graph of a program's points.

ghost use Rattle.std.specs.Prelude.{◌≡◌, ◌+◌, ◌≤◌, ◌<◌, [], suc, length, map, codes, Some, IfOk, IfErr, OnOk};
ghost use Rattle.cw_core.specs.Quantities.{limit_of};
ghost use Rattle.cw_core.specs.declared.quantity.Quantity.TheVariants.{Points};
ghost use Rattle.cw_syntax.specs.Names.{number_or_other};
ghost use Rattle.cw_syntax.specs.Trees.{definition_of, file_of};
ghost use Rattle.cw_syntax.specs.Plans.{plan_of};
ghost use Rattle.cw_rights.specs.Policies.{policy_of};
ghost use Rattle.cw_resolve.specs.Own.{IsSceneOf};
ghost use Rattle.cw_resolve.specs.Scenes.{names_of};
ghost use Rattle.cw_points.specs.Points.{point_count};
ghost use Rattle.cw_points.specs.Sizes.{size_all, size_from};
ghost use Rattle.cw_points.specs.Graphs.{IsGraph, part};
ghost use Rattle.cw_points.specs.Drawing.{drawn_of, laid_one, split_of};

use crate::count::{MOST_POINTS, count_all, count_functions};
use crate::draft::{Draft, Ways, first};
use crate::fault::PointsFault;
use crate::graph::{Graph, Part, Point};
use crate::lay::{function_number, lay_all};
use cw_core::PointId;
use cw_core::limits::POINTS;
use cw_resolve::Scene;
use cw_rights::Policy;
use cw_syntax::checked::Checked;
use cw_syntax::program::{Function, Program};
use std::alloc::{AllocError, Global};

/// A function: its entry, its statements and its exit.
fn lay_function(
    draft: &mut Draft,
    scene: &Scene,
    number: u16,
    function: &Function,
) -> Result<Part, AllocError>
    requires labels { length scene.now.names.labels ≤ 65535 }
    requires descriptors { length scene.now.names.descriptors ≤ 255 }
    requires functions { length scene.now.functions ≤ 65535 }
    requires few { length draft.old.nodes.items + size_all (definition_of function.now).body + 2 ≤ POINTS }
    ensures drawn { OnOk result (drawn_of draft.new ≡ laid_one scene.now number (definition_of function.now) (drawn_of draft.old)) }
    ensures part { IfOk result (λ p. p ≡ part (length draft.old.nodes.items) (length draft.old.nodes.items + 1 + size_all (definition_of function.now).body) (split_of scene.now (definition_of function.now))) }
{
    let entry = draft.next_point();
    let size = count_all(&function.body);
    let exit = entry + 1 + size;
    let ways = Ways {
        next: exit,
        exit,
        broken: None,
        continued: None,
    };
    let start = first(size, entry + 1, exit);
    draft.put_seam(Point::Entry, number, start, function.brace, None)?;
    lay_all(draft, scene, number, &function.body, size, ways)?;
    draft.put_exit(number)?;
    let split = scene.is_split(scene.text(function.name));
    Ok(Part {
        entry: PointId(entry),
        exit: PointId(exit),
        split,
    })
}

/// The number of `main` among the functions, or their number.
fn main_number(scene: &Scene) -> u16
    requires functions { length scene.now.functions ≤ 65535 }
    ensures { result ≡ number_or_other scene.now.functions (codes "main") }
{
    let number = scene.function_named(b"main".as_slice());
    function_number(number.unwrap_or(scene.function_count()))
}

/// The graph of a program of few points, in a scene of it.
fn draw(alloc: Global, scene: &Scene, program: &Program) -> Result<Graph, AllocError>
    requires scene { IsSceneOf scene.now (file_of program.now) }
    requires labels { length scene.now.names.labels ≤ 65535 }
    requires descriptors { length scene.now.names.descriptors ≤ 255 }
    requires functions { length scene.now.functions ≤ 65535 }
    requires few { size_from (map definition_of program.now.functions.items) ≤ POINTS }
    ensures { IfOk result (λ g. IsGraph scene.now.names scene.now.source (file_of program.now) g) }
{
    let mut draft = Draft::new(alloc);
    let mut parts = Vec::new(alloc);
    for (number, function) in program.functions.iter().enumerate() {
        let number = function_number(number);
        let part = lay_function(&mut draft, scene, number, function)?;
        parts.push(part)?;
    }
    let main = main_number(scene);
    let Draft { nodes, seams } = draft;
    Ok(Graph {
        nodes,
        parts,
        main,
        seams,
    })
}

/// The graph of a program's points in a scene of it. A program has at most 8,192 points (`cw_core`'s limit of points); of one that has more
/// the answer is `TooManyPoints`, and nothing is drawn.
pub fn build_in(alloc: Global, scene: &Scene, program: &Program) -> Result<Graph, PointsFault>
    requires scene { IsSceneOf scene.now (file_of program.now) }
    requires labels { length scene.now.names.labels ≤ 65535 }
    requires descriptors { length scene.now.names.descriptors ≤ 255 }
    ensures graph { IfOk result (λ g. IsGraph scene.now.names scene.now.source (file_of program.now) g) }
    ensures few { IfOk result (λ g. point_count (plan_of scene.now.names scene.now.source (file_of program.now)) ≤ limit_of Points) }
    ensures many { IfErr result (λ fault. fault ≡ PointsFault.TooManyPoints → limit_of Points < point_count (plan_of scene.now.names scene.now.source (file_of program.now))) }
{
    if count_functions(&program.functions) > MOST_POINTS {
        return Err(PointsFault::TooManyPoints);
    }
    let graph = draw(alloc, scene, program)?;
    Ok(graph)
}

/// The graph of a program's points under a policy's names. A program has at most 8,192 points
/// (`cw_core`'s limit of points); of one that has more the answer is `TooManyPoints`, and nothing is drawn.
pub fn build(alloc: Global, checked: &Checked, policy: &Policy) -> Result<Graph, PointsFault>
    requires labels { length (policy_of policy.now).labels ≤ 65535 }
    requires descriptors { length (policy_of policy.now).descriptors ≤ 255 }
    ensures graph { IfOk result (λ g. IsGraph (names_of (policy_of policy.now)) checked.now.source.now (file_of checked.now.program) g) }
    ensures few { IfOk result (λ g. point_count (plan_of (names_of (policy_of policy.now)) checked.now.source.now (file_of checked.now.program)) ≤ limit_of Points) }
    ensures many { IfErr result (λ fault. fault ≡ PointsFault.TooManyPoints → limit_of Points < point_count (plan_of (names_of (policy_of policy.now)) checked.now.source.now (file_of checked.now.program))) }
{
    let scene = Scene::under(alloc, checked, policy)?;
    build_in(alloc, &scene, &checked.program)
}
