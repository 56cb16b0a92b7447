//! What changes capabilities.

ghost use Rattle.std.specs.Prelude.{◌≡◌, ◌<◌, slice_get};
ghost use Rattle.cw_rights.specs.Capabilities.{IsDescriptorBelow, applied};
ghost use Rattle.cw_rights.specs.Policies.{policy_of};
ghost use Rattle.cw_model.specs.Boards.{with_opened};
ghost use Rattle.cw_states.specs.Tables.{after_act, IsActBelow};

use cw_rights::{Caps, Policy, Primitive, close_hold, open_hold};

/// What changes capabilities: a granted primitive, an open of a descriptor that gave it, a close.
#[derive(Clone, Copy, Drop)]
pub(crate) enum Act {
    Granted(Primitive),
    Opened(u8),
    Closed(u8),
}

/// What is held after an open that succeeded.
#[tactic(auto, using(crate::proofs::Listed::opened_is))]
fn after_open(policy: &Policy, caps: Caps, descriptor: u8) -> Caps
    requires { descriptor < 8 }
    ensures { result ≡ with_opened caps descriptor (slice_get (policy_of policy.now).descriptors descriptor) }
{
    match policy.descriptors.get(descriptor as usize) {
        None => caps,
        Some(opened) => {
            let mut after = caps;
            open_hold(&mut after, descriptor, opened.rights);
            after
        }
    }
}

/// What is held after a primitive was granted.
fn after_grant(caps: Caps, prim: Primitive) -> Caps
    requires { IsDescriptorBelow 8 prim }
    ensures { result ≡ applied caps prim }
{
    let mut after = caps;
    match prim {
        Primitive::Limit(limit) => open_hold(&mut after, limit.descriptor, limit.keep),
        Primitive::Enter => after.amb = false,
        Primitive::Split => {}
    }
    after
}

/// Capabilities after an act. A limit is taken as one that is allowed.
pub(crate) fn after_act(policy: &Policy, act: Act, caps: Caps) -> Caps
    requires { IsActBelow 8 act }
    ensures { result ≡ after_act (policy_of policy.now) act caps }
{
    match act {
        Act::Granted(prim) => after_grant(caps, prim),
        Act::Opened(descriptor) => after_open(policy, caps, descriptor),
        Act::Closed(descriptor) => {
            let mut after = caps;
            close_hold(&mut after, descriptor);
            after
        }
    }
}
