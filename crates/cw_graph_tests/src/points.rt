//! Graphs of small programs, which are read from their texts, and their marks. A graph is told as lines: of each point what stands there, its function, the
//! points that it leads to, and its seam; of each function its first and its last point, and whether its calls may be split off; the number of `main`; of each
//! mark its place, its seam, and what it stands at.

use crate::ground::{Named, Question, all_told};
use cw_core::{PointId, SeamId};
use cw_points::build::build;
use cw_points::marks::marks;
use cw_points::{Graph, Node, Part};
use cw_rights::Policy;
use cw_syntax::checked::Checked;
use std::alloc::Global;
use std::mem::forget;
use std::process::Abort;

fn number_of(point: Option<PointId>) -> Option<u32> {
    match point {
        None => None,
        Some(PointId(number)) => Some(number),
    }
}

fn seam_of(node: &Node) -> Option<u32> {
    match node.seam {
        None => None,
        Some(SeamId(number)) => Some(number),
    }
}

fn put_nodes(rt: &impl Abort, text: &mut String, nodes: &[Node]) {
    for node in nodes {
        let row = (
            node.point,
            node.function,
            number_of(node.next[0]),
            number_of(node.next[1]),
            seam_of(node),
        );
        write!(text, "{row:?}\n").expect(rt, "memory");
    }
}

fn put_parts(rt: &impl Abort, text: &mut String, parts: &[Part]) {
    for part in parts {
        let row = (part.entry.0, part.exit.0, part.split);
        write!(text, "{row:?}\n").expect(rt, "memory");
    }
}

fn put_marks(rt: &impl Abort, alloc: Global, text: &mut String, graph: &Graph) {
    let marks = marks(alloc, graph).expect(rt, "memory");
    for mark in &marks {
        let row = (mark.place, mark.seam, mark.kind);
        write!(text, "{row:?}\n").expect(rt, "memory");
    }
    forget(marks);
}

/// The graph of a program.
pub(crate) fn drawn(rt: &impl Abort, alloc: Global, policy: &Policy, checked: &Checked) -> Graph {
    assert!(rt; policy.labels.len() <= 65535, "too many labels");
    assert!(rt; policy.descriptors.len() <= 255, "too many descriptors");
    build(alloc, checked, policy).expect(rt, "a program without a graph")
}

/// The points, the functions and the marks of a program.
pub(crate) fn graph_told(
    rt: &impl Abort,
    alloc: Global,
    policy: &Policy,
    checked: &Checked,
) -> String {
    let graph = drawn(rt, alloc, policy, checked);
    let mut text = String::new(alloc);
    put_nodes(rt, &mut text, &graph.nodes);
    put_parts(rt, &mut text, &graph.parts);
    write!(text, "main {}\n", graph.main).expect(rt, "memory");
    put_marks(rt, alloc, &mut text, &graph);
    forget(graph);
    text
}

/// How many points a program has, or why it has no graph.
pub(crate) fn count_told(
    rt: &impl Abort,
    alloc: Global,
    policy: &Policy,
    checked: &Checked,
) -> String {
    assert!(rt; policy.labels.len() <= 65535, "too many labels");
    assert!(rt; policy.descriptors.len() <= 255, "too many descriptors");
    match build(alloc, checked, policy) {
        Ok(graph) => {
            let count = graph.nodes.len();
            forget(graph);
            format!(in alloc; "{count} points").expect(rt, "memory")
        }
        Err(fault) => format!(in alloc; "{fault}").expect(rt, "memory"),
    }
}

/// The descriptor variable `x` and the label `b`; calls of `g` may be split off.
const POLICY: Named = Named {
    descriptor: "x",
    labels: &["b"],
    split: &["g"],
};

/// Asserts what is told of a program.
fn draws(rt: &impl Abort, alloc: Global, source: &str, wanted: &str) {
    all_told(rt, alloc, POLICY, Question::Graph, &[(source, wanted)]);
}

#[test]
fn a_label_is_a_seam(rt: HostRuntime) {
    draws(
        &rt,
        rt.alloc(),
        "int main(void){a:;return;}",
        "(Entry, 0, Some(1), None, Some(0))
(Label(1), 0, Some(2), None, Some(1))
(Step, 0, Some(3), None, None)
(Step, 0, Some(4), None, None)
(Exit, 0, None, None, None)
(0, 4, false)
main 0
(15, 0, Entry)
(17, 1, Label)
",
    );
}

/// More labels than are walked over, and one that the policy doesn't name.
#[test]
fn labels_have_their_numbers_among_many(rt: HostRuntime) {
    let named = Named {
        descriptor: "x",
        labels: &["a", "b", "c", "d", "e", "f", "g", "h"],
        split: &[],
    };
    all_told(
        &rt,
        rt.alloc(),
        named,
        Question::Graph,
        &[(
            "int main(void){h:a:i:g:;}",
            "(Entry, 0, Some(1), None, Some(0))
(Label(7), 0, Some(2), None, Some(1))
(Label(0), 0, Some(3), None, Some(2))
(Label(8), 0, Some(4), None, Some(3))
(Label(6), 0, Some(5), None, Some(4))
(Step, 0, Some(6), None, None)
(Exit, 0, None, None, None)
(0, 6, false)
main 0
(15, 0, Entry)
(17, 1, Label)
(19, 2, Label)
(21, 3, Label)
(23, 4, Label)
",
        )],
    );
}

#[test]
fn a_for_goes_on_at_its_step(rt: HostRuntime) {
    draws(
        &rt,
        rt.alloc(),
        "int main(void){for(;x;x){if(x)continue;b:;}return;}",
        "(Entry, 0, Some(1), None, Some(0))
(Branch, 0, Some(3), Some(7), None)
(Step, 0, Some(1), None, None)
(Branch, 0, Some(4), Some(5), None)
(Step, 0, Some(2), None, None)
(Label(0), 0, Some(6), None, Some(1))
(Step, 0, Some(2), None, None)
(Step, 0, Some(8), None, None)
(Exit, 0, None, None, None)
(0, 8, false)
main 0
(15, 0, Entry)
(41, 1, Label)
",
    );
}

#[test]
fn a_do_is_tested_behind_its_body(rt: HostRuntime) {
    draws(
        &rt,
        rt.alloc(),
        "int main(void){do;while(x);while(x){}}",
        "(Entry, 0, Some(1), None, Some(0))
(Step, 0, Some(2), None, None)
(Branch, 0, Some(1), Some(3), None)
(Branch, 0, Some(3), Some(4), None)
(Exit, 0, None, None, None)
(0, 4, false)
main 0
(15, 0, Entry)
",
    );
}

#[test]
fn a_call_leads_on_to_its_return_and_has_the_mark_of_its_result(rt: HostRuntime) {
    draws(
        &rt,
        rt.alloc(),
        "int main(void){     x=open(); x=g();    close(x);}int g(void){;}",
        "(Entry, 0, Some(1), None, Some(0))
(Open(0), 0, Some(2), None, Some(1))
(Call(1), 0, Some(3), None, Some(2))
(Close(0), 0, Some(4), None, Some(3))
(Exit, 0, None, None, None)
(Entry, 1, Some(6), None, Some(4))
(Step, 1, Some(7), None, None)
(Exit, 1, None, None, None)
(0, 4, false)
(5, 7, true)
main 0
(15, 0, Entry)
(20, 1, Open(0))
(30, 2, Call(Some(Name { from: 30, to: 31 })))
(40, 3, Close)
(62, 4, Entry)
",
    );
}

/// Asserts how many points a `main` of so many empty statements has, or that there are too many.
fn long(rt: &impl Abort, alloc: Global, count: usize, wanted: &str) {
    let mut source = String::from_str(alloc, "int main(void){").expect(rt, "memory");
    for _ in 0..count {
        source.push_str(";").expect(rt, "memory");
    }
    source.push_str("}").expect(rt, "memory");
    all_told(rt, alloc, POLICY, Question::Count, &[(&source, wanted)]);
}

#[test]
fn a_program_has_at_most_8192_points(rt: HostRuntime) {
    long(&rt, rt.alloc(), 8190, "8192 points");
    long(&rt, rt.alloc(), 8191, "too many points");
}
