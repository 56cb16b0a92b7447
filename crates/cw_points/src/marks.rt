//! The marks of a graph's seams.

ghost use Rattle.std.specs.Prelude.{◌≡◌, ℕ, List, [], ◌++◌, map, option_map, IfOk, OnOk};
ghost use Rattle.std.specs.List.{cons_option};
ghost use Rattle.cw_syntax.specs.Names.{Names};
ghost use Rattle.cw_syntax.specs.Trees.{File};
ghost use Rattle.cw_syntax.specs.Plans.{plan_of};
ghost use Rattle.cw_syntax.specs.Marks.{mark_of, kind_of, marks_of};
ghost use Rattle.cw_points.specs.Graphs.{IsGraph};
ghost use Rattle.cw_points.specs.Marking.{kind_at, mark_at, mark_in};

use crate::graph::{Graph, Node, Point, Seam};
use cw_core::NoMemory;
use cw_syntax::marks::{MarkKind, SeamMark};
use cw_syntax::program::Name;
use std::alloc::{AllocError, Global};

/// What a mark stands at, by what stands at its point and the variable that takes a call's result.
fn kind_at(point: Point, taken: Option<Name>) -> Option<MarkKind>
    ensures { option_map kind_of result ≡ kind_at point taken }
{
    match point {
        Point::Entry => Some(MarkKind::Entry),
        Point::Label(_) => Some(MarkKind::Label),
        Point::Open(descriptor) => Some(MarkKind::Open(descriptor)),
        Point::Close(_) => Some(MarkKind::Close),
        Point::Call(_) => Some(MarkKind::Call(taken)),
        Point::Step | Point::Branch | Point::Exit => None,
    }
}

/// The mark of a seam that stands at this node.
fn mark_at(node: &Node, seam: &Seam) -> Option<SeamMark>
    ensures { option_map mark_of result ≡ mark_at node.now seam.now }
{
    let number = node.seam?;
    let kind = kind_at(node.point, seam.result)?;
    Some(SeamMark {
        place: seam.place,
        seam: number.0,
        kind,
    })
}

/// The mark of a seam, where its point is a seam.
fn mark_in(nodes: &[Node], seam: &Seam) -> Option<SeamMark>
    ensures { option_map mark_of result ≡ mark_in nodes.now seam.now }
{
    mark_at(nodes.get(seam.point.0 as usize)?, seam)
}

/// Appends a mark, where there is one.
fn put_mark(marks: &mut Vec<SeamMark>, mark: Option<SeamMark>) -> Result<(), AllocError>
    ensures { OnOk result (marks.new.items ≡ marks.old.items ++ cons_option mark []) }
{
    match mark {
        Some(mark) => {
            marks.push(mark)?;
            Ok(())
        }
        None => Ok(()),
    }
}

/// The marks of a graph's seams, in the order of the text.
pub fn marks(alloc: Global, graph: &Graph) -> Result<Vec<SeamMark>, NoMemory>
    ensures marks { IfOk result (λ marks. (names : Names) (source : List ℕ) (file : File) → IsGraph names source file graph.now → map mark_of marks.items ≡ marks_of (plan_of names source file)) }
{
    let mut marks = Vec::new(alloc);
    for seam in &graph.seams {
        put_mark(&mut marks, mark_in(&graph.nodes, seam))?;
    }
    Ok(marks)
}
