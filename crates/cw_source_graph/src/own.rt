//! The graph of a program under its own labels.

ghost use Rattle.std.specs.Prelude.{◌≡◌, ◌≤◌, length, IfErr, IfOk};
ghost use Rattle.cw_syntax.specs.Trees.{file_of};
ghost use Rattle.cw_resolve.specs.Own.{own_scene};
ghost use Rattle.cw_source_graph.specs.Own.{own_names, HasManyPoints, IsDrawn};

use cw_callgraph::calls_in;
use cw_points::build::build_in;
use cw_points::{Graph, PointsFault};
use cw_resolve::{Scene, label_names};
use cw_syntax::checked::Checked;
use std::alloc::Global;

/// The most labels that have numbers of 16 bits; a program with more of them has more than 8,192 points.
const LABELS: usize = 65_535;

/// A program under its own labels and no other names: these labels in the order of the text, the graph of its points, and for each
/// function by its number the numbers of the functions that it calls.
#[derive(Drop)]
pub struct Drawn {
    pub labels: Vec<Vec<u8>>,
    pub graph: Graph,
    pub calls: Vec<Vec<u16>>,
}

/// The graph of a program in the scene of its own labels, with what each function calls.
fn drawn_in(alloc: Global, scene: &Scene, checked: &Checked) -> Result<Drawn, PointsFault>
    requires scene { scene.now ≡ own_scene checked.now }
    requires few { length checked.now.program.functions.items ≤ 65535 }
    ensures drawn { IfOk result (IsDrawn (own_names checked.now.source.now (file_of checked.now.program)) checked.now.source.now (file_of checked.now.program)) }
    ensures many { IfErr result (λ fault. fault ≡ PointsFault.TooManyPoints
        → HasManyPoints (own_names checked.now.source.now (file_of checked.now.program)) checked.now.source.now (file_of checked.now.program)) }
{
    if scene.label_count() > LABELS {
        return Err(PointsFault::TooManyPoints);
    }
    let graph = build_in(alloc, scene, &checked.program)?;
    let calls = calls_in(alloc, scene, &checked.program)?;
    let labels = label_names(alloc, checked.source, &checked.program)?;
    Ok(Drawn {
        labels,
        graph,
        calls,
    })
}

/// The graph of a program under its own labels, with what each function calls; or that its points are too many.
pub fn draw_own(alloc: Global, checked: &Checked) -> Result<Drawn, PointsFault>
    requires few { length checked.now.program.functions.items ≤ 65535 }
    ensures drawn { IfOk result (IsDrawn (own_names checked.now.source.now (file_of checked.now.program)) checked.now.source.now (file_of checked.now.program)) }
    ensures many { IfErr result (λ fault. fault ≡ PointsFault.TooManyPoints
        → HasManyPoints (own_names checked.now.source.now (file_of checked.now.program)) checked.now.source.now (file_of checked.now.program)) }
{
    let scene = Scene::own(alloc, checked)?;
    drawn_in(alloc, &scene, checked)
}
