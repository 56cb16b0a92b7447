//! Rights that are limited, literals and expressions that are matched plainly, and how a run begins, against answers by hand.
use crate::given::{letter_of, lone_expression_of};
use cw_rights::capabilities::{
    Allowed, Caps, Hold, Limit, Primitive, Rights, apply, close_hold, limit_allowed, open_hold,
};
use cw_rights::plain::matches_plain;
use cw_rights::policy::{Descriptor, Policy, is_refusable, start_caps};
use cw_rights::words::{Letter, Lit, Regex, Test, lit_matches};
use std::alloc::Global;
use std::process::Abort;

/// Whether descriptor 0 may be limited to these rights.
fn answer(caps: &Caps, rights: u16) -> Allowed {
    let limit = Limit {
        descriptor: 0,
        keep: Rights(rights),
    };
    limit_allowed(caps, limit)
}

/// Limits descriptor 0 to these rights, which is allowed.
fn limit(rt: &impl Abort, caps: &mut Caps, rights: u16) {
    let limit = Limit {
        descriptor: 0,
        keep: Rights(rights),
    };
    match limit_allowed(caps, limit) {
        Allowed::Yes => apply(caps, Primitive::Limit(limit)),
        _ => assert!(rt; false, "a limit that keeps less is allowed"),
    }
}

/// Whether there is ambient authority, or none, and descriptor 0 is held so.
fn are(caps: &Caps, amb: bool, hold: Hold) -> bool {
    caps.amb == amb && caps.holds[0] == hold
}

#[test]
fn limits_reduce_and_never_expand(rt: HostRuntime) {
    let mut caps = Caps {
        amb: true,
        holds: [Hold::Closed; 8],
    };
    assert!(rt; answer(&caps, 0) == Allowed::BadDescriptor);
    open_hold(&mut caps, 0, Rights(3));
    limit(&rt, &mut caps, 1);
    assert!(rt; are(&caps, true, Hold::Open(Rights(1))));
    assert!(rt; answer(&caps, 2) == Allowed::NotCapable);
    assert!(rt; answer(&caps, 0) == Allowed::Yes);
    apply(&mut caps, Primitive::Split);
    assert!(rt; are(&caps, true, Hold::Open(Rights(1))));
    apply(&mut caps, Primitive::Enter);
    assert!(rt; are(&caps, false, Hold::Open(Rights(1))));
    close_hold(&mut caps, 0);
    assert!(rt; are(&caps, false, Hold::Closed));
}

/// Descriptors of which one is open, with the right 4.
fn holds() -> [Hold; 8] {
    let mut holds = [Hold::Closed; 8];
    holds[1] = Hold::Open(Rights(4));
    holds
}

/// Asserts whether the letter fits a literal of any label with each of these tests, which is wanted to hold or not to.
fn all_judged(rt: &impl Abort, alloc: Global, tests: &[(Test, bool, bool)]) {
    let letter = Letter {
        label: 7,
        caps: Caps {
            amb: true,
            holds: holds(),
        },
    };
    for (test, wanted, expected) in tests {
        let lit = Lit {
            label: None,
            tests: Vec::from_array(alloc, [(*wanted, *test)]).expect(rt, "memory"),
        };
        assert!(rt; lit_matches(&lit, &letter) == *expected);
    }
}

#[test]
fn tests_of_literals_are_judged(rt: HostRuntime) {
    all_judged(
        &rt,
        rt.alloc(),
        &[
            (Test::Amb, true, true),
            (Test::Amb, false, false),
            (
                Test::Holds {
                    descriptor: 1,
                    need: Rights(4),
                },
                true,
                true,
            ),
            (
                Test::Holds {
                    descriptor: 1,
                    need: Rights(2),
                },
                true,
                false,
            ),
            (
                Test::Holds {
                    descriptor: 0,
                    need: Rights(4),
                },
                false,
                true,
            ),
        ],
    );
}

/// The letters of the bytes of a word.
fn word_of(rt: &impl Abort, alloc: Global, word: &str) -> Vec<Letter> {
    let mut letters = Vec::new(alloc);
    for byte in word.as_bytes() {
        letters.push(letter_of(*byte, holds())).expect(rt, "memory");
    }
    letters
}

fn is_matched(rt: &impl Abort, alloc: Global, tree: &Regex, word: &str) -> bool {
    let letters = word_of(rt, alloc, word);
    matches_plain(tree, &letters)
}

/// Asserts whether an expression matches each of these words.
fn all_matched(rt: &impl Abort, alloc: Global, text: &str, words: &[(&str, bool)]) {
    let read = lone_expression_of(rt, alloc, text, 1);
    let tree = read.expect(rt, text);
    for (word, expected) in words {
        assert!(rt; is_matched(rt, alloc, &tree, word) == *expected, "{word}");
    }
}

#[test]
fn plain_matching_follows_the_definition(rt: HostRuntime) {
    let alloc = rt.alloc();
    all_matched(
        &rt,
        alloc,
        "(a | b[!amb])* c?",
        &[
            ("", true),
            ("a", true),
            ("b", false),
            ("B", true),
            ("aBac", true),
            ("ca", false),
        ],
    );
    all_matched(
        &rt,
        alloc,
        "a+",
        &[("", false), ("aa", true), ("ab", false)],
    );
}

fn descriptor_of(
    rt: &impl Abort,
    alloc: Global,
    name: &str,
    number: Option<u8>,
    rights: u16,
) -> Descriptor {
    Descriptor {
        name: Vec::from_slice(alloc, name.as_bytes()).expect(rt, "memory"),
        number,
        rights: Rights(rights),
    }
}

/// A policy of a number and a variable, which may refuse to enter capability mode.
fn policy_of(rt: &impl Abort, alloc: Global) -> Policy {
    let descriptors = [
        descriptor_of(rt, alloc, "0", Some(0), 3),
        descriptor_of(rt, alloc, "fd", None, 0xfff),
    ];
    Policy {
        descriptors: Vec::from_array(alloc, descriptors).expect(rt, "memory"),
        limits: Vec::new(alloc),
        refuse_limit: false,
        refuse_enter: true,
        refuse_split: false,
        split: Vec::new(alloc),
        labels: Vec::new(alloc),
        rules: Vec::new(alloc),
        stop: false,
        format: 1,
        detached: Vec::new(alloc),
    }
}

#[test]
fn policies_say_how_a_run_starts(rt: HostRuntime) {
    let policy = policy_of(&rt, rt.alloc());
    let caps = start_caps(&policy);
    assert!(rt; caps.amb && caps.holds[0] == Hold::Open(Rights(3)));
    assert!(rt; caps.holds[1] == Hold::Closed && caps.holds[7] == Hold::Closed);
    assert!(rt; is_refusable(&policy, Primitive::Enter));
    assert!(rt; !is_refusable(&policy, Primitive::Split));
}
