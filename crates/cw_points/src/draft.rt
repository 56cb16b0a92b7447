//! A graph that is drawn front first.

ghost use Rattle.std.specs.Prelude.{◌≡◌, ◌≤◌, [], ◌∷◌, length, Some, None, option_map, OnOk};
ghost use Rattle.cw_points.specs.Graphs.{point_id, first, step, branch, step_nodes, test_node, node};

use crate::graph::{Node, Point, Seam};
use cw_core::limits::POINTS;
use cw_core::{PointId, SeamId};
use cw_syntax::program::Name;
use std::alloc::{AllocError, Global};

/// The points and the seams that are drawn so far, by number. Each seam is a point.
#[derive(Drop)]
pub(crate) struct Draft {
    pub nodes: Vec<Node>,
    pub seams: Vec<Seam>,
    ghost seams_are_points: { length seams.items ≤ length nodes.items },
}

/// Where a statement leads: to what follows it, at a `return`, and, in a loop, at a `break` and at a `continue`.
#[derive(Clone, Copy, Drop)]
pub(crate) struct Ways {
    pub next: u32,
    pub exit: u32,
    pub broken: Option<u32>,
    pub continued: Option<u32>,
}

/// Where a part of so many points begins: at its first one, or, where it has none, at what follows.
pub(crate) fn first(count: u32, at: u32, next: u32) -> u32
    ensures { result ≡ first count at next }
{
    if count == 0 { next } else { at }
}

/// A point by its number, if there is one.
fn point_id(number: Option<u32>) -> Option<PointId>
    ensures { result ≡ option_map point_id number }
{
    match number {
        None => None,
        Some(number) => Some(PointId(number)),
    }
}

impl Draft {
    ghost use Rattle.cw_points.specs.Drawing.{drawn_of, nothing_drawn, with_nodes, with_node, with_seam};

    /// A graph without points.
    pub(crate) fn new(alloc: Global) -> Draft
        ensures { drawn_of result ≡ nothing_drawn }
    {
        Draft {
            nodes: Vec::new(alloc),
            seams: Vec::new(alloc),
        }
    }

    /// The number of the point that is put next.
    pub(crate) fn next_point(&self) -> u32
        requires few { length self.now.nodes.items ≤ POINTS }
        ensures { result ≡ length self.now.nodes.items }
    {
        self.nodes.len() as u32
    }

    /// The number of the seam that is put next.
    fn next_seam(&self) -> u32
        requires few { length self.now.nodes.items ≤ POINTS }
        ensures { result ≡ length self.now.seams.items }
    {
        self.seams.len() as u32
    }

    /// Draws a node before all that are drawn.
    fn put(&mut self, node: Node) -> Result<(), AllocError>
        ensures { OnOk result (drawn_of self.new ≡ with_node node (drawn_of self.old)) }
    {
        self.nodes.push(node)?;
        Ok(())
    }

    /// Puts a point that does nothing but lead on.
    pub(crate) fn put_step(&mut self, function: u16, next: Option<u32>) -> Result<(), AllocError>
        ensures { OnOk result (drawn_of self.new ≡ with_node (step function next) (drawn_of self.old)) }
    {
        self.put(Node {
            point: Point::Step,
            function,
            next: [point_id(next), None],
            seam: None,
        })
    }

    /// Puts a condition.
    pub(crate) fn put_branch(
        &mut self,
        function: u16,
        holds: u32,
        fails: u32,
    ) -> Result<(), AllocError>
        ensures { OnOk result (drawn_of self.new ≡ with_node (branch function holds fails) (drawn_of self.old)) }
    {
        self.put(Node {
            point: Point::Branch,
            function,
            next: [Some(PointId(holds)), Some(PointId(fails))],
            seam: None,
        })
    }

    /// Puts the init or the step of a `for`, where there is one, which goes to the test.
    pub(crate) fn put_step_if(
        &mut self,
        there: bool,
        function: u16,
        test: u32,
    ) -> Result<(), AllocError>
        ensures { OnOk result (drawn_of self.new ≡ with_nodes (step_nodes function there test) (drawn_of self.old)) }
    {
        if there {
            self.put_step(function, Some(test))
        } else {
            Ok(())
        }
    }

    /// Puts the test of a `for`: with a condition it leads to the body or to what follows, and else to the body.
    pub(crate) fn put_test(
        &mut self,
        decided: bool,
        function: u16,
        body: u32,
        next: u32,
    ) -> Result<(), AllocError>
        ensures { OnOk result (drawn_of self.new ≡ with_node (test_node function decided body next) (drawn_of self.old)) }
    {
        if decided {
            self.put_branch(function, body, next)
        } else {
            self.put_step(function, Some(body))
        }
    }

    /// Puts the exit of a function.
    pub(crate) fn put_exit(&mut self, function: u16) -> Result<(), AllocError>
        ensures { OnOk result (drawn_of self.new ≡ with_node (node Point.Exit function None None) (drawn_of self.old)) }
    {
        self.put(Node {
            point: Point::Exit,
            function,
            next: [None, None],
            seam: None,
        })
    }

    /// Puts a point that is a seam, with the place of its mark.
    pub(crate) fn put_seam(
        &mut self,
        point: Point,
        function: u16,
        next: u32,
        place: u32,
        taken: Option<Name>,
    ) -> Result<(), AllocError>
        requires few { length self.old.nodes.items ≤ POINTS }
        ensures { OnOk result (drawn_of self.new ≡ with_seam point function next place taken (drawn_of self.old)) }
    {
        let at = self.next_point();
        let number = self.next_seam();
        self.nodes.push(Node {
            point,
            function,
            next: [Some(PointId(next)), None],
            seam: Some(SeamId(number)),
        })?;
        self.seams.push(Seam {
            point: PointId(at),
            place,
            result: taken,
        })?;
        Ok(())
    }
}
