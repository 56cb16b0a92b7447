//! Policies by their texts, how many states they have, and where these lead. A test that lacks memory ends at once.

ghost use Rattle.std.specs.Prelude.{◌≡◌};
ghost use Rattle.cw_rights.specs.Policies.{policy_of};
ghost use Rattle.cw_rights.specs.Valid.{IsValid};

use crate::texts::joined;
use cw_core::StateId;
use cw_policy::read_policy;
use cw_rights::{Hold, Policy, Primitive};
use cw_states::{States, StatesFault, Uses};
use std::alloc::Global;
use std::mem::forget;
use std::process::Abort;

/// The source closes no number, and every label is the policy's.
const PLAIN: Uses = Uses {
    closes: [false; 8],
    has_other: false,
};

/// The source has a label that the policy doesn't name.
const OTHER: Uses = Uses {
    closes: [false; 8],
    has_other: true,
};

/// What the source closes: the descriptors with the numbers 0 to 2.
const CLOSING: Uses = Uses {
    closes: [true, true, true, false, false, false, false, false],
    has_other: false,
};

/// Six variables, and one before them.
const SIX: &str = "[[descriptor]]
name = \"u\"
[[descriptor]]
name = \"v\"
[[descriptor]]
name = \"w\"
[[descriptor]]
name = \"x\"
[[descriptor]]
name = \"y\"
[[descriptor]]
name = \"z\"
";

const ONE: &str = "[[descriptor]]
name = \"t\"
";

/// A rule of any words, then `a`, and where it goes on.
const LATE: &str = "[[rule]]
name = \"late\"
bad = \".* a";

/// Three limits of one number, and a rule of 63 labels: 8 rights states and 64 policy states.
const LONG: &str = "[[descriptor]]
name = \"0\"
rights = [\"CAP_READ\", \"CAP_WRITE\", \"CAP_SEEK\"]
[[limit]]
descriptor = \"0\"
keep = [\"CAP_READ\"]
[[limit]]
descriptor = \"0\"
keep = [\"CAP_WRITE\"]
[[limit]]
descriptor = \"0\"
keep = []
[[rule]]
name = \"long\"
bad = \"a a a a a a a a a a a a a a a a a a a a a a a a a a a a a a a a a a a a a a a a a a a a a a a a a a a a a a a a a a a a a a a\"
";

/// A fourth limit of the same number: 10 rights states.
const FOURTH: &str = "[[limit]]
descriptor = \"0\"
keep = [\"CAP_READ\", \"CAP_WRITE\"]
";

/// A tool that reads a file and writes a log: 36 rights states and 2 policy states.
const TOOL: &str = "format = 1
[[descriptor]]
name = \"in\"
[[descriptor]]
name = \"logfd\"
[[descriptor]]
name = \"1\"
[[limit]]
descriptor = \"in\"
keep = [\"CAP_READ\", \"CAP_FSTAT\"]
[[limit]]
descriptor = \"logfd\"
keep = [\"CAP_WRITE\"]
[[limit]]
descriptor = \"1\"
keep = [\"CAP_WRITE\", \"CAP_FSTAT\"]
[[at]]
label = \"start\"
must = [\"amb\"]
[[at]]
label = \"parse\"
never = [\"amb\", \"in:CAP_WRITE\", \"logfd:CAP_READ\", \"1:CAP_READ\"]
[[at]]
label = \"done\"
never = [\"in:CAP_READ\"]
";

/// How many states a policy has, or why none.
fn count(alloc: Global, policy: &Policy, uses: Uses) -> Result<u16, StatesFault>
    requires valid { IsValid (policy_of policy.now) }
{
    match States::make(alloc, policy, uses) {
        Ok(states) => {
            let count = states.count();
            forget(states);
            Ok(count)
        }
        Err(fault) => Err(fault),
    }
}

/// How many states a policy by its text has, or why none.
fn counted(rt: &impl Abort, alloc: Global, text: &str, uses: Uses) -> Result<u16, StatesFault> {
    let Ok(policy) = read_policy(alloc, text.as_bytes()) else {
        panic!(rt; "a policy that isn't read");
    };
    let count = count(alloc, &policy, uses);
    forget(policy);
    count
}

/// The parts of a policy's text, each so many times, what its source closes, and how many states it has, or why none.
type Counted<'t> = (&'t [(&'t str, usize)], Uses, Result<u16, StatesFault>);

/// Asserts how many states these policies have.
fn all_count(rt: &impl Abort, alloc: Global, rows: &[Counted]) {
    for (parts, uses, want) in rows {
        let text = joined(rt, alloc, parts);
        assert!(rt; counted(rt, alloc, &text, *uses) == *want, "{text}");
    }
}

/// The number 1 is closed too in the last row.
#[test]
fn states_are_counted(rt: HostRuntime) {
    all_count(
        &rt,
        rt.alloc(),
        &[
            (&[("format = 1\n", 1)], PLAIN, Ok(2)),
            (&[("format = 1\n", 1)], OTHER, Ok(4)),
            (&[(TOOL, 1)], PLAIN, Ok(72)),
            (&[(TOOL, 1)], CLOSING, Ok(108)),
        ],
    );
}

#[test]
fn the_first_limit_is_told(rt: HostRuntime) {
    all_count(
        &rt,
        rt.alloc(),
        &[
            (&[("format = 1\n", 1), (LONG, 1)], OTHER, Ok(512)),
            (
                &[("format = 1\n", 1), (LONG, 1), (FOURTH, 1)],
                OTHER,
                Err(StatesFault::TooManyStates),
            ),
            (
                &[("format = 2\n", 1), (LONG, 1), (FOURTH, 1)],
                OTHER,
                Ok(640),
            ),
            (&[("format = 1\n", 1), (SIX, 1)], PLAIN, Ok(128)),
            (
                &[("format = 1\n", 1), (ONE, 1), (SIX, 1)],
                PLAIN,
                Err(StatesFault::TooManyCaps),
            ),
            (
                &[("format = 1\n", 1), (LATE, 1), (" . . . . .\"\n", 1)],
                OTHER,
                Ok(66),
            ),
            (
                &[("format = 1\n", 1), (LATE, 1), (" . . . . . .\"\n", 1)],
                OTHER,
                Err(StatesFault::TooManyWords),
            ),
        ],
    );
}

/// The state after the policy's limit with this number, where it may be granted.
fn limited(states: &States, policy: &Policy, state: u16, limit: usize) -> Option<u16>
    requires { states.now.policy ≡ policy.now }
{
    if state >= states.count() || limit >= policy.limits.len() {
        return None;
    }
    let prim = Primitive::Limit(policy.limits[limit]);
    if states.may_grant(StateId(state), prim) {
        Some(states.granted(StateId(state), prim).0)
    } else {
        None
    }
}

/// The state after an enter, where it may be granted.
fn entered(states: &States, state: u16) -> Option<u16> {
    if state < states.count() && states.may_grant(StateId(state), Primitive::Enter) {
        Some(states.granted(StateId(state), Primitive::Enter).0)
    } else {
        None
    }
}

/// The state after an open or a close of a descriptor.
fn turned(states: &States, policy: &Policy, state: u16, descriptor: u8, opens: bool) -> Option<u16>
    requires { states.now.policy ≡ policy.now }
{
    if state >= states.count() || descriptor as usize >= policy.descriptors.len() {
        return None;
    }
    if opens {
        Some(states.opened(StateId(state), descriptor).0)
    } else {
        Some(states.closed(StateId(state), descriptor).0)
    }
}

/// The state after a label, where its letter isn't bad.
fn lettered(states: &States, policy: &Policy, state: u16, label: u16) -> Option<u16>
    requires { states.now.policy ≡ policy.now }
{
    if state >= states.count() || label as usize > policy.labels.len() {
        return None;
    }
    if states.bad(StateId(state), label) {
        None
    } else {
        Some(states.lettered(StateId(state), label).0)
    }
}

/// The state after a return to the state of the call.
fn returned(states: &States, state: u16, call: u16) -> Option<u16> {
    if state < states.count() && call < states.count() {
        Some(states.with_rights(StateId(state), StateId(call)).0)
    } else {
        None
    }
}

/// The rights of the first descriptor, where it is open.
fn held(states: &States, state: u16) -> Option<u16> {
    if state >= states.count() {
        return None;
    }
    match states.caps(StateId(state)).holds[0] {
        Hold::Open(rights) => Some(rights.0),
        Hold::Closed => None,
    }
}

/// What is asked of a state: where a limit of the policy, an enter, an open or a close of a descriptor, a label, or a return to the state of
/// the call leads, or which rights of the first descriptor are held.
#[derive(Clone, Copy)]
enum Asked {
    Limit(usize),
    Enter,
    Open(u8),
    Close(u8),
    Label(u16),
    Return(u16),
    Held,
}

/// The state to which a state leads, where what leads there may be granted, or its letter isn't bad; or the rights that are held.
fn told(states: &States, policy: &Policy, state: u16, asked: Asked) -> Option<u16>
    requires { states.now.policy ≡ policy.now }
{
    match asked {
        Asked::Limit(limit) => limited(states, policy, state, limit),
        Asked::Enter => entered(states, state),
        Asked::Open(descriptor) => turned(states, policy, state, descriptor, true),
        Asked::Close(descriptor) => turned(states, policy, state, descriptor, false),
        Asked::Label(label) => lettered(states, policy, state, label),
        Asked::Return(call) => returned(states, state, call),
        Asked::Held => held(states, state),
    }
}

/// A state, what is asked of it, and what is told.
type Row = (u16, Asked, Option<u16>);

/// Asserts what is told of states.
fn all_told(rt: &impl Abort, states: &States, policy: &Policy, rows: &[Row])
    requires { states.now.policy ≡ policy.now }
{
    for (state, asked, want) in rows {
        assert!(rt; told(states, policy, *state, *asked) == *want, "{state}");
    }
}

/// Asserts at which state a policy starts, and what is told of its states.
fn leads(rt: &impl Abort, alloc: Global, policy: &Policy, start: u16, rows: &[Row])
    requires valid { IsValid (policy_of policy.now) }
{
    let Ok(states) = States::make(alloc, policy, PLAIN) else {
        panic!(rt; "a policy without states");
    };
    assert!(rt; states.start().0 == start);
    all_told(rt, &states, policy, rows);
    forget(states);
}

/// Asserts the same of a policy by its text.
fn all_lead(rt: &impl Abort, alloc: Global, text: &str, start: u16, rows: &[Row]) {
    let Ok(policy) = read_policy(alloc, text.as_bytes()) else {
        panic!(rt; "a policy that isn't read");
    };
    leads(rt, alloc, &policy, start, rows);
    forget(policy);
}

/// At the start there is ambient authority, in and logfd are closed, 1 has all rights. As in is closed, its limit may not be granted; 1 keeps
/// two rights. start wants ambient authority, parse wants none.
#[test]
fn the_tool_goes_from_state_to_state(rt: HostRuntime) {
    all_lead(
        &rt,
        rt.alloc(),
        TOOL,
        1,
        &[
            (1, Asked::Enter, Some(19)),
            (1, Asked::Limit(0), None),
            (1, Asked::Limit(2), Some(0)),
            (13, Asked::Limit(0), Some(7)),
            (1, Asked::Open(0), Some(13)),
            (1, Asked::Close(0), Some(1)),
            (13, Asked::Open(1), Some(17)),
            (13, Asked::Close(1), Some(13)),
            (49, Asked::Open(0), Some(49)),
            (49, Asked::Close(0), Some(37)),
            (1, Asked::Label(0), Some(37)),
            (19, Asked::Label(0), None),
            (1, Asked::Label(1), None),
            (18, Asked::Label(1), Some(54)),
            (37, Asked::Return(19), Some(55)),
            (13, Asked::Held, Some(0xfff)),
            (43, Asked::Held, Some(0x9)),
        ],
    );
}
