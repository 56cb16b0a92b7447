//! Audits of small programs, edited, read, and checked against the games of the programs.

use crate::audits::{
    CALLS_SOURCE, DOWN, DOWN_POLICY, LABEL_SOURCE, MUST, MUST_POLICY, NEVER, NEVER_POLICY, UP,
    UP_POLICY,
};
use crate::told::{Question, Told, all_told, answer};
use std::alloc::Global;
use std::process::Abort;

/// A policy, a source, and the text of an audit.
type Texts<'t> = (&'t str, &'t str, &'t str);

/// Words, what is put in their place, and what is told of the audit then.
type Edit<'t> = (&'t str, &'t str, Told);

/// Asserts what is told of an audit with other words in the place of the first that are these.
fn all_edited(rt: &impl Abort, alloc: Global, texts: Texts, edits: &[Edit]) {
    let (policy, source, text) = texts;
    for (old, new, want) in edits {
        let (front, back) = text.split_once(*old).unwrap_or(("", ""));
        let other = format!(in alloc; "{front}{new}{back}").expect(rt, "a text");
        assert!(rt;
            answer(alloc, policy, source, Question::Checked, &other) == *want,
            "{old}"
        );
    }
}

#[test]
fn audits_are_exact(rt: HostRuntime) {
    all_told(
        &rt,
        rt.alloc(),
        Question::Checked,
        &[
            (NEVER_POLICY, LABEL_SOURCE, NEVER, Told::Exact),
            (MUST_POLICY, LABEL_SOURCE, MUST, Told::Exact),
            (UP_POLICY, CALLS_SOURCE, UP, Told::Exact),
            (DOWN_POLICY, CALLS_SOURCE, DOWN, Told::Exact),
        ],
    );
}

#[test]
fn the_conditions_of_a_group_without_calls_are_told(rt: HostRuntime) {
    all_edited(
        &rt,
        rt.alloc(),
        (MUST_POLICY, LABEL_SOURCE, MUST),
        &[
            ("at 8 2 4\n", "", Told::Bad(0, 3, 4)),
            ("at 8 2 4\n", "at 8 2 5\n", Told::Bad(0, 3, 4)),
            ("at 6 2 2\n", "at 6 0 2\n", Told::Bad(0, 1, 4)),
            (
                "at 6 2 2\nat 7 2 3\n",
                "at 7 2 3\nat 6 2 2\n",
                Told::Bad(0, 3, 1),
            ),
            ("at 5 0 1\n", "at 4 0 1\n", Told::Bad(0, 1, 1)),
            ("at 5 0 1\n", "at 500 0 1\n", Told::Bad(0, 1, 1)),
            ("at 5 0 1\n", "at 5 9 1\n", Told::Bad(0, 1, 1)),
            ("at 5 0 1\n", "at 5 0 1\nat 5 0 1\n", Told::Bad(0, 2, 1)),
            ("at 2 0 0\n", "at 2 0 1\n", Told::Bad(0, 0, 2)),
        ],
    );
}

#[test]
fn a_distance_that_is_too_great_or_not_shown_is_told(rt: HostRuntime) {
    all_edited(
        &rt,
        rt.alloc(),
        (NEVER_POLICY, LABEL_SOURCE, NEVER),
        &[
            ("violates 1\non\n", "violates 2\non\n", Told::Bad(0, 0, 4)),
            ("violates 1\non\n", "meets\n", Told::Bad(0, 0, 4)),
            ("on\n", "", Told::NotShown),
            ("on\n", "on\non\n", Told::NotShown),
            ("on\n", "left\n", Told::NotShown),
            ("states 4", "states 5", Told::Bad(0, 0, 1)),
            ("at 2 0 0\n", "", Told::Bad(0, 0, 2)),
            ("in 0 0 0\n", "in 0 0 1\n", Told::Bad(0, 0, 2)),
            ("at 2 0 0\n", "at 2 0 0\nat 5 0 1\n", Told::Bad(0, 1, 3)),
        ],
    );
    all_edited(
        &rt,
        rt.alloc(),
        (MUST_POLICY, LABEL_SOURCE, MUST),
        &[("meets\n", "violates 3\non\non\non\n", Told::NotShown)],
    );
}

#[test]
fn a_line_that_is_no_audits_is_told(rt: HostRuntime) {
    all_edited(
        &rt,
        rt.alloc(),
        (NEVER_POLICY, LABEL_SOURCE, NEVER),
        &[
            ("audit 1", "audit 2", Told::Line(1)),
            ("states 4", "states  4", Told::Line(2)),
            ("violates 1", "violates 01", Told::Line(3)),
            ("violates 1\non\n", "meets\non\n", Told::Line(4)),
            ("on\n", "stop\n", Told::Line(4)),
            ("in 0 0 0\n", "", Told::Line(5)),
            ("at 2 0 0\n", "at 2 0\n", Told::Line(6)),
            ("at 2 0 0\n", "at 2 0 0 \n", Told::Line(6)),
            ("at 2 0 0\n", "at 2 0 0\non\n", Told::Line(7)),
            ("end\n", "end", Told::Line(7)),
            ("end\n", "end\n\n", Told::Line(8)),
        ],
    );
}

#[test]
fn the_conditions_of_calls_are_told(rt: HostRuntime) {
    all_edited(
        &rt,
        rt.alloc(),
        (DOWN_POLICY, CALLS_SOURCE, DOWN),
        &[
            ("in 0 0 2\n", "in 0 0 65000\n", Told::Bad(1, 1, 5)),
            ("in 1 0 0\n", "in 1 1 0\n", Told::Bad(1, 0, 2)),
            ("in 1 0 0\n", "in 2 0 0\n", Told::Bad(1, 0, 1)),
            ("at 22 2 7", "at 22 2 6", Told::Bad(1, 2, 4)),
            ("at 22 2 7", "at 22 2 8", Told::Bad(1, 1, 5)),
            ("at 9 2 8", "at 9 2 9", Told::Bad(0, 2, 5)),
            ("at 9 2 8\n", "", Told::Bad(0, 2, 5)),
        ],
    );
    all_edited(
        &rt,
        rt.alloc(),
        (UP_POLICY, CALLS_SOURCE, UP),
        &[
            ("violates 10", "violates 11", Told::Bad(0, 2, 5)),
            ("violates 10", "violates 9", Told::NotShown),
            ("left\n", "right\n", Told::NotShown),
        ],
    );
}

#[test]
fn what_is_read_is_printed(rt: HostRuntime) {
    all_told(
        &rt,
        rt.alloc(),
        Question::Printed,
        &[
            (NEVER_POLICY, LABEL_SOURCE, NEVER, Told::Printed),
            (MUST_POLICY, LABEL_SOURCE, MUST, Told::Printed),
            (UP_POLICY, CALLS_SOURCE, UP, Told::Printed),
            (DOWN_POLICY, CALLS_SOURCE, DOWN, Told::Printed),
        ],
    );
}
