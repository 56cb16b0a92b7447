//! Arguments that fit no command, files that are not read and sinks that fail: each single read and each single put in turn.
use crate::given::{NO_EDIT, all_end, all_fail};
use crate::texts::{
    NEVER, NEVER_AMBIENT, NO_LABEL, NO_RULES, TWO_CALLS, TWO_CALLS_WOVEN, TWO_PROMISES,
};

const NO_RULE: &str = "format = 1\n";

const WEAVE: [&str; 3] = ["weave", "p.toml", "s.c"];

const CHECK: [&str; 3] = ["check", "p.toml", "s.c"];

const RUN: [&str; 4] = ["run", "p.toml", "s.c", "tape"];

const WEAVE_USAGE: &str = "usage: capweave weave POLICY SOURCE\n";

const GRAPH_USAGE: &str = "usage: capweave graph SOURCE\n";

const USAGE: &str = "usage: capweave COMMAND ARGUMENTS\n";

/// `NO_RULES` has 201 bytes, and of a piece that fails the first half is put.
#[test]
fn faults_and_arguments_that_fit_no_command(rt: HostRuntime) {
    all_fail(
        &rt,
        rt.alloc(),
        &[NO_RULE, NO_LABEL],
        &NO_EDIT,
        &[
            (&WEAVE, [9, 0, 9], 7, NO_RULES, 100, "write\n"),
            (&WEAVE, [0, 9, 9], 6, "", 0, "read: p.toml\n"),
            (&WEAVE, [1, 9, 9], 6, "", 0, "read: s.c\n"),
            (
                &["weave", "p.toml", "missing"],
                [9, 9, 9],
                6,
                "",
                0,
                "read: missing\n",
            ),
            (&["weave", "p.toml"], [9, 9, 9], 2, "", 0, WEAVE_USAGE),
            (&["weave", "-p", "s.c"], [9, 9, 9], 2, "", 0, WEAVE_USAGE),
            (&["graph", "s.c", "t"], [9, 9, 9], 2, "", 0, GRAPH_USAGE),
            (
                &["graph", "missing"],
                [9, 9, 9],
                6,
                "",
                0,
                "read: missing\n",
            ),
            (
                &["weave", "p.toml", "s.c", "t"],
                [9, 9, 9],
                2,
                "",
                0,
                WEAVE_USAGE,
            ),
            (&["woven", "p.toml", "s.c"], [9, 9, 9], 2, "", 0, USAGE),
            (
                &["refute", "p.toml", "s.c"],
                [9, 9, 9],
                2,
                "",
                0,
                "usage: capweave refute POLICY SOURCE STRATEGY\n",
            ),
            (&[], [9, 9, 9], 2, "", 0, USAGE),
        ],
    );
}

/// A policy that is too long is told before a source that is missing.
#[test]
fn files_that_are_too_long(rt: HostRuntime) {
    all_fail(
        &rt,
        rt.alloc(),
        &["@"],
        &("@", b"#", 65_537),
        &[(
            &["weave", "p.toml", "missing"],
            [9, 9, 9],
            5,
            "",
            0,
            "limit: policy bytes\n",
        )],
    );
    all_fail(
        &rt,
        rt.alloc(),
        &[NO_RULE, "@"],
        &("@", b";", 262_145),
        &[
            (&WEAVE, [9, 9, 9], 5, "", 0, "limit: source bytes\n"),
            (
                &["graph", "s.c"],
                [9, 9, 9],
                5,
                "",
                0,
                "limit: source bytes\n",
            ),
        ],
    );
}

#[test]
fn what_the_note_answers_changes_no_status(rt: HostRuntime) {
    all_fail(
        &rt,
        rt.alloc(),
        &[NO_RULE, ""],
        &NO_EDIT,
        &[(&WEAVE, [9, 9, 0], 3, "", 0, "source: ")],
    );
}

#[test]
fn no_put_to_the_note_that_fails_changes_a_status(rt: HostRuntime) {
    all_fail(
        &rt,
        rt.alloc(),
        &[NO_RULE, "/*cw{*/int main(void){return 0;}"],
        &NO_EDIT,
        &[
            (&WEAVE, [9, 9, 0], 3, "", 0, "source 1:"),
            (&WEAVE, [9, 9, 1], 3, "", 0, "source 1:3: marker\n"),
        ],
    );
}

/// The text has 909 bytes, so it is one piece, and no run makes a second put.
#[test]
fn each_put_that_fails_leaves_a_front_of_the_text(rt: HostRuntime) {
    all_fail(
        &rt,
        rt.alloc(),
        &[TWO_PROMISES, TWO_CALLS],
        &NO_EDIT,
        &[
            (&WEAVE, [9, 0, 9], 7, TWO_CALLS_WOVEN, 454, "write\n"),
            (&WEAVE, [9, 1, 9], 0, TWO_CALLS_WOVEN, 909, ""),
        ],
    );
}

#[test]
fn each_read_that_fails_is_told_by_name(rt: HostRuntime) {
    all_fail(
        &rt,
        rt.alloc(),
        &[NEVER, NEVER_AMBIENT, "", "on grant on on on on"],
        &NO_EDIT,
        &[
            (&CHECK, [0, 9, 9], 6, "", 0, "read: p.toml\n"),
            (&CHECK, [1, 9, 9], 6, "", 0, "read: s.c\n"),
            (&CHECK, [2, 9, 9], 0, "yes\n", 4, ""),
            (&RUN, [0, 9, 9], 6, "", 0, "read: p.toml\n"),
            (&RUN, [1, 9, 9], 6, "", 0, "read: s.c\n"),
            (&RUN, [2, 9, 9], 6, "", 0, "read: tape\n"),
            (
                &RUN,
                [3, 9, 9],
                0,
                "try 1 enter granted\nlabel a cap\nended\n",
                38,
                "",
            ),
        ],
    );
}

/// A name that no file has is an empty file.
#[test]
fn arguments_are_read_as_clap_reads_them(rt: HostRuntime) {
    all_end(
        &rt,
        rt.alloc(),
        &[
            (
                &["weave", "--", "p.toml", "s.c"],
                &[NO_RULE, NO_LABEL],
                0,
                NO_RULES,
                "",
            ),
            (
                &["weave", "p.toml", "--", "s.c"],
                &[NO_RULE, NO_LABEL],
                0,
                NO_RULES,
                "",
            ),
            (&["graph", "-"], &[], 3, "", "source: no main\n"),
            (&["graph", ""], &[], 3, "", "source: no main\n"),
            (&["graph", "--", "-x"], &[], 3, "", "source: no main\n"),
            (&["graph", "-x"], &[], 2, "", GRAPH_USAGE),
            (&["graph", "--"], &[], 2, "", GRAPH_USAGE),
            (&["weave", "--help"], &[], 2, "", WEAVE_USAGE),
            (&["--help"], &[], 2, "", USAGE),
        ],
    );
}
