//! Automata of rules: the sets of positions after words, and how many states there are, against numbers by hand.

use crate::given::{letter_of, rules_of};
use cw_dfa::rules::{DfaFault, Rules, start, step, violated};
use cw_dfa::states::all_states;
use cw_rights::{Caps, Hold, Letter, Rights};
use std::alloc::Global;
use std::process::Abort;

/// Each label below a number with ambient authority or not, and with each of these rights of one descriptor.
fn letters(rt: &impl Abort, alloc: Global, labels: u16, rights: &[u16]) -> Vec<Letter> {
    let mut all = Vec::new(alloc);
    for label in 0..labels {
        for held in rights {
            let mut holds = [Hold::Closed; 8];
            holds[0] = Hold::Open(Rights(*held));
            let ambient = Caps { amb: true, holds };
            let enclosed = Caps { amb: false, holds };
            let first = Letter {
                label,
                caps: ambient,
            };
            let second = Letter {
                label,
                caps: enclosed,
            };
            all.push(first).expect(rt, "memory");
            all.push(second).expect(rt, "memory");
        }
    }
    all
}

/// The states of the rule of an expression over these letters.
fn states_of(
    rt: &impl Abort,
    alloc: Global,
    text: &str,
    letters: &[Letter],
) -> Result<Vec<u64>, DfaFault> {
    let rules = rules_of(rt, alloc, &[text]);
    assert!(rt; rules.len() == 1);
    match Rules::make(&rules) {
        Err(fault) => Err(fault),
        Ok(made) => all_states(alloc, &made, letters),
    }
}

/// Whether the empty word has the set of the start alone, which no rule forbids.
fn begins(rules: &Rules) -> bool {
    start(rules) == 1 && violated(rules, 1).is_none()
}

/// Asserts the set after each of these sets and letters, and which rule is violated there.
fn all_steps(rt: &impl Abort, rules: &Rules, steps: &[(u64, u8, u64, Option<u8>)]) {
    for (set, next, after, rule) in steps {
        let found = step(rules, *set, &letter_of(*next, [Hold::Closed; 8]));
        assert!(rt;
            found == *after && violated(rules, found) == *rule,
            "after {set}"
        );
    }
}

#[test]
fn words_are_judged_by_their_sets(rt: HostRuntime) {
    let rules = rules_of(&rt, rt.alloc(), &["a b* a", ".* b[amb]"]);
    assert!(rt; rules.len() == 2);
    match Rules::make(&rules) {
        Err(_) => assert!(rt; false, "five literals are few"),
        Ok(made) => {
            assert!(rt; begins(&made));
            all_steps(
                &rt,
                &made,
                &[
                    (1, b'a', 18, None),
                    (18, b'B', 20, None),
                    (20, b'b', 52, Some(1)),
                    (20, b'a', 24, Some(0)),
                    (18, b'a', 24, Some(0)),
                    (24, b'B', 16, None),
                    (1, b'b', 48, Some(1)),
                ],
            );
        }
    }
}

/// Asserts how many states the rule of each of these expressions has over these letters, or that there are too many.
fn all_counted(
    rt: &impl Abort,
    alloc: Global,
    letters: &[Letter],
    texts: &[(&str, Option<usize>)],
) {
    for (text, count) in texts {
        let found = match states_of(rt, alloc, text, letters) {
            Ok(states) => Some(states.len()),
            Err(DfaFault::TooManyStates) => None,
            Err(_) => Some(0),
        };
        assert!(rt; found == *count, "{text}");
    }
}

/// Whether there are 64 states, of which the first, the second and the last are no position, the start's and the last one's.
fn are_single(states: &[u64]) -> bool {
    states.len() == 64
        && states.first() == Some(&0)
        && states.get(1) == Some(&1)
        && states.last() == Some(&0x4000_0000_0000_0000)
}

#[test]
fn sixty_three_times_a_gives_64_sets(rt: HostRuntime) {
    let alloc = rt.alloc();
    let letters = letters(&rt, alloc, 2, &[7, 1, 2, 0]);
    let found = states_of(
        &rt,
        alloc,
        "a a a a a a a a a a a a a a a a a a a a a a a a a a a a a a a a a a a a a a a a a a a a a a a a a a a a a a a a a a a a a a a",
        &letters,
    );
    assert!(rt; matches!(&found, Ok(states) if are_single(states)));
}

#[test]
fn positions_and_states_are_counted(rt: HostRuntime) {
    let alloc = rt.alloc();
    let letters = letters(&rt, alloc, 2, &[0]);
    let found = states_of(
        &rt,
        alloc,
        "a a a a a a a a a a a a a a a a a a a a a a a a a a a a a a a a a a a a a a a a a a a a a a a a a a a a a a a a a a a a a a a a",
        &letters,
    );
    assert!(rt; matches!(found, Err(DfaFault::TooManyPositions)));
    all_counted(
        &rt,
        alloc,
        &letters,
        &[(".* a . . . . .", Some(33)), (".* a . . . . . .", None)],
    );
}

#[test]
fn states_at_the_limits(rt: HostRuntime) {
    let alloc = rt.alloc();
    let mut rights = [0; 64];
    for held in 0..64u16 {
        rights[usize::from(held)] = held;
    }
    // 257 labels, 128 capabilities
    let letters = letters(&rt, alloc, 257, &rights);
    assert!(rt; letters.len() == 32_896);
    // 63 literals, nested 31 deep
    let text =
        "(((((((((((((((((((((((((((((((l0 l1 | l2)* l3 | l4)* l5 | l6)* l7 | l8)* l9 | l10)* l11 | l12)* l13 | l14)* l15 | l16)* l17 | l18)* l19 | l20)* l21 | l22)* l23 | l24)* l25 | l26)* l27 | l28)* l29 | l30)* l31 | l32)* l33 | l34)* l35 | l36)* l37 | l38)* l39 | l40)* l41 | l42)* l43 | l44)* l45 | l46)* l47 | l48)* l49 | l50)* l51 | l52)* l53 | l54)* l55 | l56)* l57 | l58)* l59 | l60)* l61 | l62)*";
    all_counted(&rt, alloc, &letters, &[(text, Some(63))]);
}
