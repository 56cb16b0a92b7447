//! The rights states: what follows capabilities, and all that is reached.

ghost use Rattle.std.specs.Prelude.{◌≡◌, ◌+◌, ◌<◌, ◌≤◌, ◌++◌, length, map, slice_get, IfOk, OnOk, IfSome, IfNone};
ghost use Rattle.cw_fixpoint.specs.Closures.{Exactly, HasMore};
ghost use Rattle.cw_rights.specs.declared.capabilities.Primitive.TheVariants.{Limit as ALimit};
ghost use Rattle.cw_rights.specs.Capabilities.{IsDescriptorBelow};
ghost use Rattle.cw_rights.specs.Policies.{descriptor_of, policy_of};
ghost use Rattle.cw_model.specs.Boards.{may_grant};
ghost use Rattle.cw_states.specs.Rights.{IsRightsState, caps_cmp};
ghost use Rattle.cw_states.specs.Growing.{all_caps, after_limit, after_limits, after_open, is_closed, after_close, after_held, AreHolds, IsNarrow};

use crate::order::Ranked;
use crate::uses::Uses;
use cw_core::limits::RIGHTS_STATES;
use cw_fixpoint::{Steps, closed_up_to};
use cw_rights::policy::start_caps;
use cw_rights::{
    Allowed, Caps, Descriptor, Limit, Policy, Primitive, apply, close_hold, limit_allowed,
    open_hold,
};
use std::alloc::{AllocError, Global};

/// Whether a primitive may be granted.
pub(crate) fn may_grant(caps: &Caps, prim: Primitive) -> bool
    requires { IsDescriptorBelow 8 prim }
    ensures { result ≡ may_grant caps.now prim }
{
    match prim {
        Primitive::Limit(limit) => match limit_allowed(caps, limit) {
            Allowed::Yes => true,
            _ => false,
        },
        Primitive::Enter | Primitive::Split => true,
    }
}

/// Appends what is held after a limit, where it can be granted.
fn put_limited(caps: &Caps, limit: Limit, keys: &mut Vec<Ranked>) -> Result<(), AllocError>
    requires { limit.descriptor < 8 }
    ensures { OnOk result (keys.new.items ≡ keys.old.items ++ after_limit caps.now limit) }
{
    if may_grant(caps, Primitive::Limit(limit)) {
        let mut after = *caps;
        apply(&mut after, Primitive::Limit(limit));
        keys.push(Ranked { caps: after })?;
    }
    Ok(())
}

/// The same for each limit.
fn put_all_limited(caps: &Caps, limits: &[Limit], keys: &mut Vec<Ranked>) -> Result<(), AllocError>
    requires { AreHolds limits.now }
    ensures { OnOk result (keys.new.items ≡ keys.old.items ++ after_limits caps.now limits.now) }
{
    match limits {
        [] => Ok(()),
        [first, rest @ ..] => {
            put_limited(caps, *first, keys)?;
            put_all_limited(caps, rest, keys)?;
            Ok(())
        }
    }
}

/// Appends what is held after an open of this descriptor; one with a number isn't opened.
fn put_opened(
    caps: &Caps,
    descriptor: &Descriptor,
    number: u8,
    keys: &mut Vec<Ranked>,
) -> Result<(), AllocError>
    requires { number < 8 }
    ensures { OnOk result (keys.new.items ≡ keys.old.items ++ after_open descriptor.now.number descriptor.now.rights number caps.now) }
{
    match descriptor.number {
        Some(_) => Ok(()),
        None => {
            let mut after = *caps;
            open_hold(&mut after, number, descriptor.rights);
            keys.push(Ranked { caps: after })?;
            Ok(())
        }
    }
}

/// Whether the descriptor with this number is closed: a variable, or a number that the source closes.
fn is_closed(uses: &Uses, descriptor: &Descriptor, number: u8) -> bool
    requires { number < 8 }
    ensures { result ≡ is_closed descriptor.now.number (slice_get uses.now.closes number) }
{
    match descriptor.number {
        None => true,
        Some(_) => uses.closes[number as usize],
    }
}

/// Appends what is held after a close of this descriptor, where the program closes it.
fn put_closed(
    caps: &Caps,
    is_closed: bool,
    number: u8,
    keys: &mut Vec<Ranked>,
) -> Result<(), AllocError>
    requires { number < 8 }
    ensures { OnOk result (keys.new.items ≡ keys.old.items ++ after_close is_closed number caps.now) }
{
    if is_closed {
        let mut after = *caps;
        close_hold(&mut after, number);
        keys.push(Ranked { caps: after })?;
    }
    Ok(())
}

/// Appends what is held after opens and closes of the descriptors from this number on.
fn put_held(
    caps: &Caps,
    uses: &Uses,
    descriptors: &[Descriptor],
    number: u8,
    keys: &mut Vec<Ranked>,
) -> Result<(), AllocError>
    requires { number + length descriptors.now ≤ 8 }
    ensures { OnOk result (keys.new.items ≡ keys.old.items ++ after_held uses.now (map descriptor_of descriptors.now) number caps.now) }
{
    match descriptors {
        [] => Ok(()),
        [first, rest @ ..] => {
            put_opened(caps, first, number, keys)?;
            put_closed(caps, is_closed(uses, first, number), number, keys)?;
            put_held(caps, uses, rest, number + 1, keys)?;
            Ok(())
        }
    }
}

/// What follows capabilities, under a policy, for what a source has.
#[derive(Drop)]
pub(crate) struct Growth<'p> {
    pub policy: &'p Policy,
    pub uses: Uses,
}

impl<'p> Steps<Ranked> for Growth<'p> {
    ghost use Rattle.cw_rights.specs.Policies.{policy_of};
    ghost use Rattle.cw_states.specs.Growing.{after, IsNarrow};

    ghost after = { λ s k. after (policy_of s.policy.now) s.uses k.caps };

    ghost can_follow = { λ s k. IsNarrow (policy_of s.policy.now) };

    fn put_after(&self, key: Ranked, keys: &mut Vec<Ranked>) -> Result<(), AllocError> {
        let mut after = key.caps;
        apply(&mut after, Primitive::Enter);
        keys.push(Ranked { caps: after })?;
        put_all_limited(&key.caps, &self.policy.limits, keys)?;
        put_held(&key.caps, &self.uses, &self.policy.descriptors, 0, keys)?;
        Ok(())
    }

    ghost keeps = { λ s k q can follows. can };
}

/// The rights states in order; none where they are more than 128. The one error is want of memory.
pub(crate) fn rights_states(
    alloc: Global,
    policy: &Policy,
    uses: Uses,
) -> Result<Option<Vec<Ranked>>, AllocError>
    requires narrow { IsNarrow (policy_of policy.now) }
    ensures all { IfOk result (λ found. IfSome found
        (λ v. Exactly caps_cmp (IsRightsState (policy_of policy.now) uses) (all_caps v.items))) }
    ensures few { IfOk result (λ found. IfSome found (λ v. length v.items ≤ RIGHTS_STATES)) }
    ensures many { IfOk result (λ found. IfNone found
        (HasMore caps_cmp (IsRightsState (policy_of policy.now) uses) RIGHTS_STATES)) }
{
    let growth = Growth { policy, uses };
    let starts = [Ranked {
        caps: start_caps(policy),
    }];
    let found = closed_up_to(alloc, &growth, &starts, RIGHTS_STATES)?;
    Ok(found)
}
