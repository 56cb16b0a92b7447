//! What is told of programs by their texts. A test that lacks memory ends at once, and what it reads isn't let go: the proof of that would cost more than
//! all its calls.

use crate::calling::{calls_told, effects_told};
use crate::fitting::{fault_told, fits_told};
use crate::listing::{listing_told, names_told};
use crate::points::{count_told, graph_told};
use crate::splitting::bar_told;
use cw_rights::{Descriptor, Policy, Rights};
use cw_source::read_source;
use cw_syntax::checked::Checked;
use std::alloc::Global;
use std::mem::forget;
use std::process::Abort;

/// What is asked of a program.
#[derive(Clone, Copy)]
pub(crate) enum Question {
    /// What each function calls, by `call_table`.
    Calls,
    /// What each function calls, and what each reaches, by `effects`.
    Effects,
    /// What forbids splitting the function `f`.
    Bar,
    /// What of the policy it doesn't fit first, by `fits`.
    Fits,
    /// The same, by `fit_fault`.
    FitFault,
    /// Its points, its functions and its marks.
    Graph,
    /// How many points it has.
    Count,
    /// The text of its graph.
    Listing,
    /// The names of its functions and labels.
    Names,
}

/// What a policy names: a descriptor variable, labels, and functions to be split.
#[derive(Clone, Copy)]
pub(crate) struct Named<'t> {
    pub(crate) descriptor: &'t str,
    pub(crate) labels: &'t [&'t str],
    pub(crate) split: &'t [&'t str],
}

/// The descriptor variable `fd` alone.
pub(crate) const FD: Named = Named {
    descriptor: "fd",
    labels: &[],
    split: &[],
};

/// A source, and what is told of it.
pub(crate) type Row<'t> = (&'t str, &'t str);

/// A copy of a name.
fn name(rt: &impl Abort, alloc: Global, text: &str) -> Vec<u8> {
    text.as_bytes().to_vec(alloc).expect(rt, "memory")
}

/// A list of names.
fn names(rt: &impl Abort, alloc: Global, texts: &[&str]) -> Vec<Vec<u8>> {
    let mut names = Vec::new(alloc);
    for text in texts {
        names.push(name(rt, alloc, text)).expect(rt, "memory");
    }
    names
}

/// A policy that names these.
fn policy(rt: &impl Abort, alloc: Global, named: Named) -> Policy {
    let descriptor = Descriptor {
        name: name(rt, alloc, named.descriptor),
        number: None,
        rights: Rights(0xfff),
    };
    Policy {
        descriptors: Vec::from_array(alloc, [descriptor]).expect(rt, "memory"),
        limits: Vec::new(alloc),
        refuse_limit: false,
        refuse_enter: false,
        refuse_split: false,
        split: names(rt, alloc, named.split),
        labels: names(rt, alloc, named.labels),
        rules: Vec::new(alloc),
        stop: false,
        format: 1,
        detached: Vec::new(alloc),
    }
}

/// What is told of a program that is read.
fn answered(
    rt: &impl Abort,
    alloc: Global,
    policy: &Policy,
    checked: &Checked,
    question: Question,
) -> String {
    match question {
        Question::Calls => calls_told(rt, alloc, policy, checked),
        Question::Effects => effects_told(rt, alloc, policy, checked),
        Question::Bar => bar_told(rt, alloc, policy, checked),
        Question::Fits => fits_told(rt, alloc, policy, checked),
        Question::FitFault => fault_told(rt, alloc, policy, checked),
        Question::Graph => graph_told(rt, alloc, policy, checked),
        Question::Count => count_told(rt, alloc, policy, checked),
        Question::Listing => listing_told(rt, alloc, policy, checked),
        Question::Names => names_told(rt, alloc, checked),
    }
}

/// Asserts what is told of a source.
fn tells(
    rt: &impl Abort,
    alloc: Global,
    policy: &Policy,
    source: &str,
    question: Question,
    wanted: &str,
) {
    assert!(rt; source.len() <= 262144, "a source that is too long");
    let checked = read_source(alloc, source.as_bytes()).expect(rt, "a source");
    let told = answered(rt, alloc, policy, &checked, question);
    assert!(rt; told.as_str() == wanted, "{source}: {told}");
    forget(checked);
}

/// Asserts what is told of each source under a policy that names these.
pub(crate) fn all_told(
    rt: &impl Abort,
    alloc: Global,
    named: Named,
    question: Question,
    rows: &[Row],
) {
    let policy = policy(rt, alloc, named);
    for (source, wanted) in rows {
        tells(rt, alloc, &policy, source, question, wanted);
    }
    forget(policy);
}
