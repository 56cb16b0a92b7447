//! What runs of sources show. A test that lacks memory ends at once, and what it read isn't let go: the proof of that would cost more than all its calls.

ghost use Rattle.cw_rights.specs.Policies.{policy_of};
ghost use Rattle.cw_rights.specs.Valid.{IsValid};

use cw_answers::read_answers;
use cw_io::{SureSink, Writer};
use cw_points::build::build;
use cw_policy::read_policy;
use cw_rights::Policy;
use cw_source::laws::programs_are_runnable;
use cw_source::read_source;
use cw_value::{Answers, ValueFault, Values};
use cw_value_text::put_values;
use cw_values::values_plain;
use std::alloc::Global;
use std::mem::forget;
use std::process::Abort;

/// A source, answers as a text, and what the run shows.
pub(crate) type Row<'t> = (&'t str, &'t str, &'t str);

/// Asserts what a run shows, as the program tells it.
pub(crate) fn shows(rt: &impl Abort, alloc: Global, source: &str, values: &Values, wanted: &str) {
    let mut sink = SureSink::make(alloc);
    let mut writer = Writer::begin(&sink);
    put_values(source.as_bytes(), values, &mut writer, &mut sink);
    assert!(rt; writer.finish(&mut sink).is_ok(), "memory");
    assert!(rt; sink.bytes() == wanted.as_bytes(), "{source}");
}

/// Asserts why a source isn't run, as a text.
fn is_told(rt: &impl Abort, alloc: Global, source: &str, fault: ValueFault, wanted: &str) {
    let told = match fault {
        ValueFault::Shape(place) => format!(in alloc; "{fault} at {place}"),
        ValueFault::NoMemory => format!(in alloc; "{fault}"),
    };
    let told = told.expect(rt, "memory");
    assert!(rt; told.as_str() == wanted, "{source}");
}

/// Asserts what the run of a source shows, or why it isn't run.
fn runs(
    rt: &impl Abort,
    alloc: Global,
    policy: &Policy,
    source: &str,
    answers: &Answers,
    wanted: &str,
)
    requires valid { IsValid (policy_of policy.now) }
{
    assert!(rt; source.len() <= 262144, "a source that is too long");
    let Ok(checked) = read_source(alloc, source.as_bytes()) else {
        panic!(rt; "a source that isn't read");
    };
    let Ok(graph) = build(alloc, &checked, policy) else {
        panic!(rt; "a source without a graph");
    };
    programs_are_runnable();
    match values_plain(alloc, &checked, &graph, policy, answers) {
        Ok(values) => {
            shows(rt, alloc, source, &values, wanted);
            forget(values);
        }
        Err(fault) => is_told(rt, alloc, source, fault, wanted),
    }
    forget(graph);
    forget(checked);
}

/// The answers with these lines between the first and the last.
fn answers_with(rt: &impl Abort, alloc: Global, lines: &str) -> Answers {
    let text = format!(in alloc; "capweave answers 1\n{lines}end\n").expect(rt, "memory");
    assert!(rt; text.len() <= 33554432, "answers that are too long");
    read_answers(alloc, text.as_bytes()).expect(rt, "answers that aren't read")
}

/// Asserts what the run of each source shows over answers with these lines.
pub(crate) fn all_told(rt: &impl Abort, alloc: Global, policy: &str, rows: &[Row]) {
    let Ok(policy) = read_policy(alloc, policy.as_bytes()) else {
        panic!(rt; "a policy that isn't read");
    };
    for (source, lines, wanted) in rows {
        let answers = answers_with(rt, alloc, lines);
        runs(rt, alloc, &policy, source, &answers, wanted);
        forget(answers);
    }
    forget(policy);
}
