//! The data of policies.

ghost use Rattle.std.specs.Prelude.{◌≡◌};
ghost use Rattle.std.specs.Option.{option_copied, option_map};
ghost use Rattle.cw_rights.specs.Policies.{policy_of, is_refusable, start_caps, start_hold, descriptor_of};

use crate::capabilities::{Caps, Hold, Limit, Primitive, Rights};
use crate::words::Regex;

/// A descriptor of a policy: a number that starts open, or a variable that starts closed.
///
/// `number` is the digit of the name `0`, `1` or `2`, and None for a variable. `rights` are those with which
/// the number starts, or those that a successful open gives.
#[derive(Drop)]
pub struct Descriptor {
    pub name: Vec<u8>,
    pub number: Option<u8>,
    pub rights: Rights,
}

/// A rule: the expression of the words that are bad.
#[derive(Drop)]
pub struct Rule {
    pub name: Vec<u8>,
    pub bad: Regex,
}

/// A policy. `refuse_limit`, `refuse_enter` and `refuse_split` say which kinds of primitives may be refused;
/// `split` has the names of the functions whose calls may be split off. `stop` says that the weaver may end the
/// program after a refusal where a grant was possible too. `format` is 1 or 2, the format of the policy's text;
/// `detached` has the names of the functions whose calls aren't waited for (none in format 1).
#[derive(Drop)]
pub struct Policy {
    pub descriptors: Vec<Descriptor>,
    pub limits: Vec<Limit>,
    pub refuse_limit: bool,
    pub refuse_enter: bool,
    pub refuse_split: bool,
    pub split: Vec<Vec<u8>>,
    pub labels: Vec<Vec<u8>>,
    pub rules: Vec<Rule>,
    pub stop: bool,
    pub format: u8,
    pub detached: Vec<Vec<u8>>,
}

/// What a descriptor holds at the start: its rights where it has a number, else it is closed.
fn start_hold(descriptor: Option<&Descriptor>) -> Hold
    ensures { result ≡ start_hold (option_map descriptor_of (option_copied descriptor.entry)) }
{
    match descriptor {
        Some(d) if d.number.is_some() => Hold::Open(d.rights),
        _ => Hold::Closed,
    }
}

/// The capabilities at the start: ambient authority, each descriptor that is a number open with its rights, and
/// every other hold closed.
pub fn start_caps(policy: &Policy) -> Caps
    ensures { result ≡ start_caps (policy_of policy.now) }
{
    let mut holds = [Hold::Closed; 8];
    for i in 0..8 {
        holds[i] = start_hold(policy.descriptors.get(i));
    }
    Caps { amb: true, holds }
}

/// Whether the policy lets a try of this kind of primitive be refused.
pub fn is_refusable(policy: &Policy, prim: Primitive) -> bool
    ensures { result ≡ is_refusable (policy_of policy.now) prim }
{
    match prim {
        Primitive::Limit(_) => policy.refuse_limit,
        Primitive::Enter => policy.refuse_enter,
        Primitive::Split => policy.refuse_split,
    }
}
