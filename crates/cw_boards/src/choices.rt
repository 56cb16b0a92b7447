//! What a move does to a board, as far as the primitives go.

ghost use Rattle.std.specs.Prelude.{◌≡◌, ◌<◌, IfSome, slice_get};
ghost use Rattle.cw_rights.specs.Policies.{policy_of, primitives};
ghost use Rattle.cw_rights.specs.Valid.{IsValid};
ghost use Rattle.cw_rights.specs.Capabilities.{IsDescriptorBelow};
ghost use Rattle.cw_model.specs.Boards.{may_grant, may_refuse, can_stop};
ghost use Rattle.cw_boards.specs.Choices.{primitives_by, choice_of, granted_choice, visited_choice, refused_phase, answered_choice, resumed_choice};

use crate::kinds::FrontKind;
use cw_certs::Move;
use cw_rights::policy::is_refusable;
use cw_rights::{Allowed, Caps, Policy, Primitive, limit_allowed};

/// The phase of a board. In a visit the primitive of this stage is skipped or tried; a visit past the last
/// primitive is the phase in which the front item is passed.
#[derive(Clone, Copy, Drop)]
pub(crate) enum Phase {
    Visit(usize),
    Asked(usize),
    Refused(usize),
    Split,
    Over,
}

/// What a move does.
#[derive(Clone, Copy, Drop)]
pub(crate) enum Choice {
    /// It isn't the board's.
    Forbidden,
    /// The phase changes.
    To(Phase),
    /// This primitive is granted, and the visit goes on at this stage.
    Grants(Primitive, usize),
    /// The program makes a step: of a call that runs in a process of its own, or another.
    Steps { split: bool },
}

/// The primitive at a stage: the policy's limits in their order, then entering, then splitting at a call that may be split.
fn primitive(policy: &Policy, split: bool, stage: usize) -> Option<Primitive>
    requires { IsValid (policy_of policy.now) }
    ensures same { result ≡ slice_get (primitives (policy_of policy.now) split) stage }
    ensures fit { IfSome result (λ a. (stage < 14) × IsDescriptorBelow 8 a) }
{
    let count = policy.limits.len();
    if stage < count {
        return Some(Primitive::Limit(policy.limits[stage]));
    }
    match stage - count {
        0 => Some(Primitive::Enter),
        1 if split => Some(Primitive::Split),
        _ => None,
    }
}

/// The primitive of this stage at a front item of this kind.
pub(crate) fn primitive_at(
    policy: &Policy,
    kind: Option<FrontKind>,
    stage: usize,
) -> Option<Primitive>
    requires { IsValid (policy_of policy.now) }
    ensures same { result ≡ slice_get (primitives_by (policy_of policy.now) kind) stage }
    ensures fit { IfSome result (λ a. (stage < 14) × IsDescriptorBelow 8 a) }
{
    match kind {
        Some(FrontKind::Entry) => primitive(policy, false, stage),
        Some(FrontKind::Label(_)) => primitive(policy, false, stage),
        Some(FrontKind::Call { function: _, split }) => primitive(policy, split, stage),
        _ => None,
    }
}

/// Whether the kernel can grant a primitive (cap_rights_limit(2), cap_enter(2)).
fn may_grant(caps: &Caps, prim: Primitive) -> bool
    requires { IsDescriptorBelow 8 prim }
    ensures { result ≡ may_grant caps.now prim }
{
    match prim {
        Primitive::Limit(limit) => match limit_allowed(caps, limit) {
            Allowed::Yes => true,
            Allowed::NotCapable | Allowed::BadDescriptor => false,
        },
        Primitive::Enter | Primitive::Split => true,
    }
}

/// Whether it can refuse a primitive: where it can't grant it, or the policy says that it is refusable.
fn may_refuse(policy: &Policy, caps: &Caps, prim: Primitive) -> bool
    requires { IsDescriptorBelow 8 prim }
    ensures { result ≡ may_refuse (policy_of policy.now) caps.now prim }
{
    !may_grant(caps, prim) || is_refusable(policy, prim)
}

/// Whether the weaver can stop when this primitive is refused.
fn can_stop(policy: &Policy, caps: &Caps, prim: Primitive) -> bool
    requires { IsDescriptorBelow 8 prim }
    ensures { result ≡ can_stop (policy_of policy.now) caps.now prim }
{
    policy.stop && is_refusable(policy, prim) && may_grant(caps, prim)
}

/// The phase after a refusal, by whether the weaver can stop.
fn refused_phase(stops: bool, stage: usize) -> Phase
    requires { stage < 14 }
    ensures { result ≡ refused_phase stops stage }
{
    if stops {
        Phase::Refused(stage)
    } else {
        Phase::Visit(stage + 1)
    }
}

/// What a grant leads to: the next stage, or the call in a process of its own.
fn granted(prim: Primitive, next: usize) -> Choice
    ensures { result ≡ granted_choice prim next }
{
    match prim {
        Primitive::Split => Choice::To(Phase::Split),
        Primitive::Limit(_) | Primitive::Enter => Choice::Grants(prim, next),
    }
}

/// The weaver's moves where a stage is visited: skip or try.
fn visited(stage: usize, by: Move) -> Choice
    requires { stage < 14 }
    ensures { result ≡ visited_choice stage by }
{
    match by {
        Move::Skip => Choice::To(Phase::Visit(stage + 1)),
        Move::Try => Choice::To(Phase::Asked(stage)),
        Move::Grant | Move::Refuse | Move::On | Move::Left => Choice::Forbidden,
        Move::Right | Move::Opened | Move::Failed | Move::Stop => Choice::Forbidden,
    }
}

/// The environment's moves where a primitive is asked for: grant or refuse.
fn answered(policy: &Policy, caps: &Caps, stage: usize, prim: Primitive, by: Move) -> Choice
    requires stage { stage < 14 }
    requires below { IsDescriptorBelow 8 prim }
    ensures { result ≡ answered_choice (policy_of policy.now) caps.now stage prim by }
{
    match by {
        Move::Grant => {
            if may_grant(caps, prim) {
                granted(prim, stage + 1)
            } else {
                Choice::Forbidden
            }
        }
        Move::Refuse => {
            if may_refuse(policy, caps, prim) {
                Choice::To(refused_phase(can_stop(policy, caps, prim), stage))
            } else {
                Choice::Forbidden
            }
        }
        Move::Skip | Move::Try | Move::On | Move::Left => Choice::Forbidden,
        Move::Right | Move::Opened | Move::Failed | Move::Stop => Choice::Forbidden,
    }
}

/// The weaver's moves after a refusal that a stop can answer: skip or stop.
fn resumed(stage: usize, by: Move) -> Choice
    requires { stage < 14 }
    ensures { result ≡ resumed_choice stage by }
{
    match by {
        Move::Skip => Choice::To(Phase::Visit(stage + 1)),
        Move::Stop => Choice::To(Phase::Over),
        Move::Try | Move::Grant | Move::Refuse | Move::On | Move::Left => Choice::Forbidden,
        Move::Right | Move::Opened | Move::Failed => Choice::Forbidden,
    }
}

/// What a move does in a phase, at a front item of this kind.
pub(crate) fn choice_of(
    policy: &Policy,
    kind: Option<FrontKind>,
    caps: &Caps,
    phase: Phase,
    by: Move,
) -> Choice
    requires { IsValid (policy_of policy.now) }
    ensures { result ≡ choice_of (policy_of policy.now) (primitives_by (policy_of policy.now) kind) caps.now phase by }
{
    match phase {
        Phase::Over => Choice::Forbidden,
        Phase::Split => Choice::Steps { split: true },
        Phase::Visit(stage) => match primitive_at(policy, kind, stage) {
            None => Choice::Steps { split: false },
            Some(_) => visited(stage, by),
        },
        Phase::Asked(stage) => match primitive_at(policy, kind, stage) {
            None => Choice::Forbidden,
            Some(prim) => answered(policy, caps, stage, prim, by),
        },
        Phase::Refused(stage) => match primitive_at(policy, kind, stage) {
            None => Choice::Forbidden,
            Some(_) => resumed(stage, by),
        },
    }
}
