//! The texts of graphs, and names.

use crate::ground::{FD, Named, Question, all_told};
use crate::points::drawn;
use cw_callgraph::call_table;
use cw_io::{SureSink, Writer};
use cw_listing::{Names, put_graph};
use cw_points::Graph;
use cw_resolve::{function_names, is_label, label_names};
use cw_rights::Policy;
use cw_syntax::checked::Checked;
use std::alloc::Global;
use std::mem::forget;
use std::process::Abort;

fn functions_of(rt: &impl Abort, alloc: Global, checked: &Checked) -> Vec<Vec<u8>> {
    function_names(alloc, checked.source, &checked.program).expect(rt, "memory")
}

fn labels_of(rt: &impl Abort, alloc: Global, checked: &Checked) -> Vec<Vec<u8>> {
    label_names(alloc, checked.source, &checked.program).expect(rt, "memory")
}

fn descriptors_of(rt: &impl Abort, alloc: Global, policy: &Policy) -> Vec<Vec<u8>> {
    let mut names = Vec::new(alloc);
    for descriptor in &policy.descriptors {
        let name = descriptor.name.to_vec(alloc).expect(rt, "memory");
        names.push(name).expect(rt, "memory");
    }
    names
}

fn calls_of(rt: &impl Abort, alloc: Global, policy: &Policy, checked: &Checked) -> Vec<Vec<u16>> {
    assert!(rt;
        checked.program.functions.len() <= 65535,
        "too many functions"
    );
    call_table(alloc, checked, policy).expect(rt, "memory")
}

/// The text of a graph.
fn listed(
    rt: &impl Abort,
    alloc: Global,
    names: Names,
    calls: &[Vec<u16>],
    graph: &Graph,
) -> String {
    let mut sink = SureSink::make(alloc);
    let mut writer = Writer::begin(&sink);
    put_graph(names, calls, graph, &mut writer, &mut sink);
    assert!(rt; writer.finish(&mut sink).is_ok(), "memory");
    let text = str::from_utf8(sink.bytes()).expect(rt, "a text of other bytes");
    String::from_str(alloc, text).expect(rt, "memory")
}

/// The text of a program's graph.
pub(crate) fn listing_told(
    rt: &impl Abort,
    alloc: Global,
    policy: &Policy,
    checked: &Checked,
) -> String {
    let functions = functions_of(rt, alloc, checked);
    let labels = labels_of(rt, alloc, checked);
    let descriptors = descriptors_of(rt, alloc, policy);
    let calls = calls_of(rt, alloc, policy, checked);
    let graph = drawn(rt, alloc, policy, checked);
    let names = Names {
        functions: &functions,
        labels: &labels,
        descriptors: &descriptors,
    };
    let text = listed(rt, alloc, names, &calls, &graph);
    forget(functions);
    forget(labels);
    forget(descriptors);
    forget(calls);
    forget(graph);
    text
}

/// Whether the program has this name as a label's, as text.
fn kind_of(checked: &Checked, name: &[u8]) -> &'static str {
    if is_label(checked.source, name, &checked.program) {
        "label"
    } else {
        "no label"
    }
}

/// Appends names, each with whether it is a label's.
fn put_names(rt: &impl Abort, text: &mut String, what: &str, names: &[Vec<u8>], checked: &Checked) {
    for name in names {
        let kind = kind_of(checked, name);
        let name = str::from_utf8(name).expect(rt, "a name of other bytes");
        write!(text, "{what} {name}, {kind}\n").expect(rt, "memory");
    }
}

/// The names of a program's functions and of its labels, each with whether it is a label's.
pub(crate) fn names_told(rt: &impl Abort, alloc: Global, checked: &Checked) -> String {
    let functions = functions_of(rt, alloc, checked);
    let labels = labels_of(rt, alloc, checked);
    let mut text = String::new(alloc);
    put_names(rt, &mut text, "function", &functions, checked);
    put_names(rt, &mut text, "label", &labels, checked);
    forget(functions);
    forget(labels);
    text
}

#[test]
fn text_of_a_label(rt: HostRuntime) {
    let named = Named {
        descriptor: "fd",
        labels: &["a"],
        split: &[],
    };
    all_told(
        &rt,
        rt.alloc(),
        named,
        Question::Listing,
        &[(
            "int main(void){a:;return 0;}",
            "points 5\nfunction main 0 4\n0 main entry -> 1\n1 main label a -> 2\n2 main step -> 3\n3 main step -> 4\n4 main exit\n",
        )],
    );
}

#[test]
fn text_of_a_branch_and_a_call(rt: HostRuntime) {
    all_told(
        &rt,
        rt.alloc(),
        FD,
        Question::Listing,
        &[(
            "int fd;void f(void){fd=open(\"x\",0);}int main(void){if(1)f();close(fd);}",
            "points 8\nfunction f 0 2\nfunction main 3 7 calls f\n0 f entry -> 1\n1 f open fd -> 2\n2 f exit\n3 main entry -> 4\n4 main branch -> 5 6\n5 main call f -> 6\n6 main close fd -> 7\n7 main exit\n",
        )],
    );
}

#[test]
fn names_of_a_program(rt: HostRuntime) {
    all_told(
        &rt,
        rt.alloc(),
        FD,
        Question::Names,
        &[(
            "int main(void){a:;}",
            "function main, no label\nlabel a, label\n",
        )],
    );
}
