//! The limits of a policy as text.

ghost use Rattle.std.specs.Prelude.{◌≡◌, ◌++◌};
ghost use Rattle.cw_io.specs.Written.{Follows};
ghost use Rattle.cw_rights.specs.Policies.{policy_of};
ghost use Rattle.cw_text.specs.RowLines.{numbered};
ghost use Rattle.cw_text.specs.LimitsText.{descriptor_name, limit_text, limits_line};

use cw_core::StateSet;
use cw_io::{Sink, Writer};
use cw_rights::{Limit, Policy};

/// Appends the line of a policy's limits, `#define CW_LIMITS(X)` with ` X(INDEX,DESCRIPTOR,MASK)` for each limit and LF: the
/// descriptor by its name, the rights that are kept in hexadecimal, cap_rights_limit(2).
#[tactic(auto, unfolding(crate::specs::LimitsText::limits_line))]
pub fn put_limits<S: Sink>(policy: &Policy, writer: &mut Writer<S>, out: &mut S)
    requires follows { Follows S.taken S.faults S.refused writer.old out.old }
    ensures text { writer.new.text ≡ writer.old.text ++ limits_line (policy_of policy.now) }
    ensures begun { writer.new.begun ≡ writer.old.begun }
    ensures follows { Follows S.taken S.faults S.refused writer.new out.new }
{
    writer.put(b"#define CW_LIMITS(X)", out);
    put_each_limit(policy, &policy.limits, writer, out);
    writer.put(b"\n", out);
}

/// Puts all limits, each with its number.
fn put_each_limit<S: Sink>(policy: &Policy, limits: &[Limit], writer: &mut Writer<S>, out: &mut S)
    requires follows { Follows S.taken S.faults S.refused writer.old out.old }
    ensures text { writer.new.text ≡ writer.old.text ++ numbered (limit_text (policy_of policy.now)) limits.now }
    ensures begun { writer.new.begun ≡ writer.old.begun }
    ensures follows { Follows S.taken S.faults S.refused writer.new out.new }
{
    for index in 0..limits.len() {
        put_limit(policy, index, &limits[index], writer, out);
    }
}

/// Puts one limit: its number, its descriptor and the rights that it keeps.
fn put_limit<S: Sink>(
    policy: &Policy,
    index: usize,
    limit: &Limit,
    writer: &mut Writer<S>,
    out: &mut S,
)
    requires follows { Follows S.taken S.faults S.refused writer.old out.old }
    ensures text { writer.new.text ≡ writer.old.text ++ limit_text (policy_of policy.now) index limit.now }
    ensures begun { writer.new.begun ≡ writer.old.begun }
    ensures follows { Follows S.taken S.faults S.refused writer.new out.new }
{
    writer.put(b" X(", out);
    writer.put_number(index as u64, out);
    writer.put(b",", out);
    writer.put(descriptor_name(policy, limit.descriptor), out);
    writer.put(b",", out);
    writer.put_mask(&StateSet::from_bits(u64::from(limit.keep.0)), out);
    writer.put(b")", out);
}

/// The name of a descriptor of the policy, by its number; none where the policy doesn't have it.
pub fn descriptor_name(policy: &Policy, descriptor: u8) -> &[u8]
    ensures { result.now ≡ descriptor_name (policy_of policy.now) descriptor }
{
    match policy.descriptors.get(usize::from(descriptor)) {
        Some(found) => found.name.as_slice(),
        None => &[],
    }
}
