//! Audits of small programs, and of programs at the limits, searched for.

use crate::audits::{
    CALLS_SOURCE, DOWN, DOWN_POLICY, LABEL_SOURCE, MUST, MUST_POLICY, NEVER, NEVER_POLICY, UP,
    UP_POLICY,
};
use crate::limits::{
    DOUBLING, DOUBLING_END, FAR, FAR_SOURCE, NEARER, NEARER_POLICY, NEARER_SOURCE,
};
use crate::told::{Question, Told, all_told, answer};
use std::alloc::{AllocError, Global};
use std::process::Abort;

/// A rule that counts a label, as often as the text behind this has it.
const RULE: &str = "format = 1\n[[rule]]\nname = \"r\"\nbad = \"";

/// Behind a loop the end, with a label that is never come to.
const END: &str = "return 0;b:;}\n";

/// A text in parts, each so many times.
type Parts<'t> = &'t [(&'t str, u32)];

/// Appends a text so many times.
fn put(text: &mut String, part: &str, times: u32) -> Result<(), AllocError> {
    for _ in 0..times {
        text.push_str(part)?;
    }
    Ok(())
}

/// The text of these parts.
fn joined(alloc: Global, parts: Parts) -> Result<String, AllocError> {
    let mut text = String::new(alloc);
    for (part, times) in parts {
        put(&mut text, part, *times)?;
    }
    Ok(text)
}

/// How large the audit is that is found of a policy and a source in parts, or why there is none.
fn size(alloc: Global, policy: Parts, source: Parts) -> Told {
    let Ok(policy) = joined(alloc, policy) else {
        return Told::Nothing;
    };
    match joined(alloc, source) {
        Ok(source) => answer(alloc, &policy, &source, Question::Found, ""),
        Err(_) => Told::Nothing,
    }
}

/// Asserts how large audits are that are found of policies and sources in parts, or why there are none.
fn all_sized(rt: &impl Abort, alloc: Global, rows: &[(Parts, Parts, Told)]) {
    for (policy, source, want) in rows {
        assert!(rt; size(alloc, policy, source) == *want);
    }
}

#[test]
fn audits_are_found(rt: HostRuntime) {
    all_told(
        &rt,
        rt.alloc(),
        Question::Found,
        &[
            (NEVER_POLICY, LABEL_SOURCE, NEVER, Told::Printed),
            (MUST_POLICY, LABEL_SOURCE, MUST, Told::Printed),
            (UP_POLICY, CALLS_SOURCE, UP, Told::Printed),
            (DOWN_POLICY, CALLS_SOURCE, DOWN, Told::Printed),
            (NEARER_POLICY, NEARER_SOURCE, NEARER, Told::Printed),
        ],
    );
}

#[test]
fn numbers_past_the_greatest_are_cut(rt: HostRuntime) {
    all_told(
        &rt,
        rt.alloc(),
        Question::Found,
        &[(NEVER_POLICY, FAR_SOURCE, FAR, Told::Printed)],
    );
}

#[test]
fn as_many_moves_as_can_be_told(rt: HostRuntime) {
    all_sized(
        &rt,
        rt.alloc(),
        &[(
            &[(NEVER_POLICY, 1)],
            &[(DOUBLING, 1), (DOUBLING_END, 1)],
            Told::Other(Some(65_536), 65_536, 63),
        )],
    );
}

#[test]
fn one_move_more_is_too_many(rt: HostRuntime) {
    all_sized(
        &rt,
        rt.alloc(),
        &[(
            &[(NEVER_POLICY, 1)],
            &[(DOUBLING, 1), (";", 1), (DOUBLING_END, 1)],
            Told::TooManyMoves,
        )],
    );
}

#[test]
fn as_many_rows_as_can_be_told(rt: HostRuntime) {
    all_sized(
        &rt,
        rt.alloc(),
        &[(
            &[(RULE, 1), ("a ", 62), ("b\"\n", 1)],
            &[
                ("int main(void){while(c){", 1),
                (";", 1_000),
                ("a:;}", 1),
                (";", 19),
                (END, 1),
            ],
            Told::Other(None, 0, 65_536),
        )],
    );
}

#[test]
fn one_row_more_is_too_many(rt: HostRuntime) {
    all_sized(
        &rt,
        rt.alloc(),
        &[(
            &[(RULE, 1), ("a ", 62), ("b\"\n", 1)],
            &[
                ("int main(void){;while(c){", 1),
                (";", 1_000),
                ("a:;}", 1),
                (";", 19),
                (END, 1),
            ],
            Told::TooManyRows,
        )],
    );
}

#[test]
fn rows_are_told_before_moves(rt: HostRuntime) {
    all_sized(
        &rt,
        rt.alloc(),
        &[(
            &[(RULE, 1), ("a ", 62), ("a\"\n", 1)],
            &[
                ("int main(void){while(c){", 1),
                (";", 1_100),
                ("a:;}", 1),
                (END, 1),
            ],
            Told::TooManyRows,
        )],
    );
}
