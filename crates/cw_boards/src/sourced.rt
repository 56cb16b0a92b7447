//! What boards ask of a source under a policy, by its scene.

ghost use Rattle.std.specs.Prelude.{◌≡◌, IfOk, option_map};
ghost use Rattle.cw_rights.specs.Policies.{policy_of};
ghost use Rattle.cw_rights.specs.Valid.{IsValid};
ghost use Rattle.cw_syntax.specs.Frames.{pass, start_stack};
ghost use Rattle.cw_resolve.specs.Scenes.{plan_in, scene_in};
ghost use Rattle.cw_boards.specs.Held.{item_of, stack_in, HasFewSeams};
ghost use Rattle.cw_boards.specs.Kinds.{front_kind, item_kind};
ghost use Rattle.cw_boards.specs.Numbered.{most_seams, StackBelow};
ghost use Rattle.cw_boards.specs.Turns.{way_in};

use crate::items::Item;
use crate::kinds::FrontKind;
use crate::turns::Way;
use crate::{kinds, steps};
use cw_resolve::Scene;
use cw_rights::Policy;
use cw_syntax::checked::Checked;
use std::alloc::{AllocError, Global};
use std::collections::VecDeque;

/// What an item does.
pub(crate) fn item_kind(scene: &Scene, checked: &Checked, policy: &Policy, item: &Item) -> FrontKind
    requires valid { IsValid (policy_of policy.now) }
    requires scene { scene.now ≡ scene_in checked.now (policy_of policy.now) }
    ensures { result ≡ item_kind (item_of (scene_in checked.now (policy_of policy.now)) item.now) }
{
    let _ = checked;
    let _ = policy;
    kinds::item_kind(scene, item)
}

/// What the front item of the top frame does.
pub(crate) fn front_kind(
    scene: &Scene,
    checked: &Checked,
    policy: &Policy,
    stack: &VecDeque<VecDeque<Item>>,
) -> Option<FrontKind>
    requires valid { IsValid (policy_of policy.now) }
    requires scene { scene.now ≡ scene_in checked.now (policy_of policy.now) }
    ensures { result ≡ front_kind (stack_in (scene_in checked.now (policy_of policy.now)) stack.now) }
{
    let _ = checked;
    let _ = policy;
    kinds::front_kind(scene, stack)
}

/// One step of a stack of frames, where its front can be passed this way.
pub(crate) fn pass<'s>(
    alloc: Global,
    scene: &Scene,
    checked: &'s Checked<'s>,
    policy: &Policy,
    frames: VecDeque<VecDeque<Item<'s>>>,
    way: Way,
) -> Result<Option<VecDeque<VecDeque<Item<'s>>>>, AllocError>
    requires valid { IsValid (policy_of policy.now) }
    requires scene { scene.now ≡ scene_in checked.now (policy_of policy.now) }
    requires few { HasFewSeams checked.now policy.now }
    requires below { StackBelow most_seams (stack_in (scene_in checked.now (policy_of policy.now)) frames) }
    ensures { IfOk result (λ o. option_map (stack_in (scene_in checked.now (policy_of policy.now))) o ≡ pass (plan_in checked.now (policy_of policy.now)) (stack_in (scene_in checked.now (policy_of policy.now)) frames.entry) (way_in way)) }
{
    let _ = policy;
    steps::pass(alloc, scene, &checked.program.functions, frames, way)
}

/// The stack with which a program starts: one frame, that of `main`, where it has that function.
pub(crate) fn start_stack<'s>(
    alloc: Global,
    scene: &Scene,
    checked: &'s Checked<'s>,
    policy: &Policy,
) -> Result<VecDeque<VecDeque<Item<'s>>>, AllocError>
    requires scene { scene.now ≡ scene_in checked.now (policy_of policy.now) }
    requires few { HasFewSeams checked.now policy.now }
    ensures { IfOk result (λ stack. stack_in (scene_in checked.now (policy_of policy.now)) stack ≡ start_stack (plan_in checked.now (policy_of policy.now))) }
{
    let _ = policy;
    steps::start_stack(alloc, scene, &checked.program.functions)
}
