//! Which moves a board has.

ghost use Rattle.std.specs.Prelude.{◌≡◌, ◌↔◌, IsTrue, is_some, drop, map};
ghost use Rattle.cw_rights.specs.Policies.{policy_of};
ghost use Rattle.cw_rights.specs.Valid.{IsValid};
ghost use Rattle.cw_syntax.specs.Plans.{Scene};
ghost use Rattle.cw_syntax.specs.Frames.{broken, continued, frame_of, pass, popped};
ghost use Rattle.cw_model.specs.Boards.{moved, way_of, IsWeavers};
ghost use Rattle.cw_boards.specs.Held.{primitives_at, phase_by, frame_in, stack_in, board_in, board_of, problem, IsBoard, HasMove};
ghost use Rattle.cw_boards.specs.Changes.{may_turn, may_step};
ghost use Rattle.cw_resolve.specs.Scenes.{plan_in, scene_in};
ghost use Rattle.cw_boards.specs.Turns.{way_in};

use crate::boards::{Board, State};
use crate::changes::way_of;
use crate::choices::{Choice, Phase, choice_of, primitive_at};
use crate::items::Item;
use crate::sourced::{front_kind, item_kind};
use crate::turns::{Turn, Way, turn_of};
use cw_certs::Move;
use cw_resolve::Scene;
use cw_rights::Policy;
use cw_syntax::checked::Checked;
use std::collections::VecDeque;

/// The moves that a board has, and whether it is the weaver's turn. `tried` stands for a try.
#[derive(Clone, Copy, Drop, Debug, PartialEq, Eq)]
pub struct Moves {
    pub weaver: bool,
    pub skip: bool,
    pub tried: bool,
    pub grant: bool,
    pub refuse: bool,
    pub on: bool,
    pub left: bool,
    pub right: bool,
    pub opened: bool,
    pub failed: bool,
    pub stop: bool,
}

/// Whether a `break` has a loop to leave.
fn has_loop_end(frame: &VecDeque<Item>) -> bool
    ensures { (s : Scene) → result ≡ is_some (broken (frame_in s frame.now)) }
{
    for i in 0..frame.len() {
        if let Item::LoopEnd = frame[i] {
            return true;
        }
    }
    false
}

/// Whether a `continue` has a loop to go on with.
fn has_turn(frame: &VecDeque<Item>) -> bool
    ensures { (s : Scene) → result ≡ is_some (continued (frame_in s frame.now)) }
{
    for i in 0..frame.len() {
        match frame[i] {
            Item::Test { .. } | Item::After(_) => return true,
            _ => {}
        }
    }
    false
}

/// Whether the frame on top can be taken off.
fn has_below(stack: &VecDeque<VecDeque<Item>>) -> bool
    ensures { (s : Scene) → result ≡ is_some (popped (map (frame_in s) (drop 1 stack.now.items))) }
{
    match stack.get(1) {
        None => true,
        Some(frame) => !frame.is_empty(),
    }
}

/// Whether the program has a function with this number.
fn has_function(checked: &Checked, policy: &Policy, number: usize) -> bool
    ensures { result ≡ is_some (frame_of (plan_in checked.now (policy_of policy.now)) number) }
{
    number < checked.program.functions.len()
}

/// Whether the stack has what a turn goes to: a loop, a function, a caller.
fn may_turn(
    checked: &Checked,
    policy: &Policy,
    turn: Turn,
    frame: &VecDeque<Item>,
    stack: &VecDeque<VecDeque<Item>>,
) -> bool
    ensures { result ≡ may_turn (plan_in checked.now (policy_of policy.now)) turn (frame_in (scene_in checked.now (policy_of policy.now)) frame.now) (map (frame_in (scene_in checked.now (policy_of policy.now))) (drop 1 stack.now.items)) }
{
    match turn {
        Turn::Passes | Turn::Ends | Turn::Enters => true,
        Turn::Breaks => has_loop_end(frame),
        Turn::Continues => has_turn(frame),
        Turn::Calls(number) => has_function(checked, policy, number),
        Turn::Returns => has_below(stack),
        Turn::Stops => false,
    }
}

/// Whether the front item can be passed on this way.
fn may_pass(
    scene: &Scene,
    checked: &Checked,
    policy: &Policy,
    stack: &VecDeque<VecDeque<Item>>,
    way: Way,
) -> bool
    requires valid { IsValid (policy_of policy.now) }
    requires scene { scene.now ≡ scene_in checked.now (policy_of policy.now) }
    ensures { result ≡ is_some (pass (plan_in checked.now (policy_of policy.now)) (stack_in (scene_in checked.now (policy_of policy.now)) stack.now) (way_in way)) }
{
    match stack.front() {
        None => false,
        Some(frame) => match frame.front() {
            None => false,
            Some(item) => {
                let turn = turn_of(item_kind(scene, checked, policy, item), way);
                may_turn(checked, policy, turn, frame, stack)
            }
        },
    }
}

/// Whether a move passes the front item.
fn may_step(
    scene: &Scene,
    checked: &Checked,
    policy: &Policy,
    stack: &VecDeque<VecDeque<Item>>,
    by: Move,
) -> bool
    requires valid { IsValid (policy_of policy.now) }
    requires scene { scene.now ≡ scene_in checked.now (policy_of policy.now) }
    ensures { result ≡ may_step (problem checked.now policy.now) (stack_in (scene_in checked.now (policy_of policy.now)) stack.now) (way_of by) }
{
    match way_of(by) {
        None => false,
        Some(way) => may_pass(scene, checked, policy, stack, way),
    }
}

/// Whether a board that keeps the policy has this move.
fn may_move(scene: &Scene, checked: &Checked, policy: &Policy, state: &State, by: Move) -> bool
    requires valid { IsValid (policy_of policy.now) }
    requires scene { scene.now ≡ scene_in checked.now (policy_of policy.now) }
    ensures { result ≡ is_some (moved (problem checked.now policy.now) (board_in checked.now policy.now state.now) (phase_by (primitives_at (policy_of policy.now) (stack_in (scene_in checked.now (policy_of policy.now)) state.now.stack)) state.now.phase) by) }
{
    let kind = front_kind(scene, checked, policy, &state.stack);
    match choice_of(policy, kind, &state.caps, state.phase, by) {
        Choice::Forbidden => false,
        Choice::To(_) => true,
        Choice::Grants(_, _) => true,
        Choice::Steps { split: _ } => may_step(scene, checked, policy, &state.stack, by),
    }
}

/// Whether a board has this move; where the policy is violated it has none.
fn has_move(checked: &Checked, policy: &Policy, board: &Board, by: Move) -> bool
    requires valid { IsValid (policy_of policy.now) }
    requires board { IsBoard checked.now policy.now board.now }
    ensures { IsTrue result ↔ HasMove checked.now policy.now board.now by }
{
    if board.violates {
        return false;
    }
    may_move(&board.scene, checked, policy, &board.state, by)
}

/// Whether the weaver is to move.
fn is_weavers(scene: &Scene, checked: &Checked, policy: &Policy, state: &State) -> bool
    requires valid { IsValid (policy_of policy.now) }
    requires scene { scene.now ≡ scene_in checked.now (policy_of policy.now) }
    ensures { IsTrue result ↔ IsWeavers (board_in checked.now policy.now state.now) }
{
    let kind = front_kind(scene, checked, policy, &state.stack);
    match state.phase {
        Phase::Visit(stage) => match primitive_at(policy, kind, stage) {
            None => false,
            Some(_) => true,
        },
        Phase::Refused(stage) => match primitive_at(policy, kind, stage) {
            None => false,
            Some(_) => true,
        },
        Phase::Asked(_) => false,
        Phase::Split | Phase::Over => false,
    }
}

/// Which of the ten moves a board has, and whose turn it is. A board that violates and one that is over have none.
pub fn board_moves(checked: &Checked, policy: &Policy, board: &Board) -> Moves
    requires valid { IsValid (policy_of policy.now) }
    requires board { IsBoard checked.now policy.now board.now }
    ensures weaver { IsTrue result.weaver ↔ IsWeavers (board_of checked.now policy.now board.now) }
    ensures skip { IsTrue result.skip ↔ HasMove checked.now policy.now board.now Move.Skip }
    ensures tried { IsTrue result.tried ↔ HasMove checked.now policy.now board.now Move.Try }
    ensures grant { IsTrue result.grant ↔ HasMove checked.now policy.now board.now Move.Grant }
    ensures refuse { IsTrue result.refuse ↔ HasMove checked.now policy.now board.now Move.Refuse }
    ensures on { IsTrue result.on ↔ HasMove checked.now policy.now board.now Move.On }
    ensures left { IsTrue result.left ↔ HasMove checked.now policy.now board.now Move.Left }
    ensures right { IsTrue result.right ↔ HasMove checked.now policy.now board.now Move.Right }
    ensures opened { IsTrue result.opened ↔ HasMove checked.now policy.now board.now Move.Opened }
    ensures failed { IsTrue result.failed ↔ HasMove checked.now policy.now board.now Move.Failed }
    ensures stop { IsTrue result.stop ↔ HasMove checked.now policy.now board.now Move.Stop }
{
    Moves {
        weaver: is_weavers(&board.scene, checked, policy, &board.state),
        skip: has_move(checked, policy, board, Move::Skip),
        tried: has_move(checked, policy, board, Move::Try),
        grant: has_move(checked, policy, board, Move::Grant),
        refuse: has_move(checked, policy, board, Move::Refuse),
        on: has_move(checked, policy, board, Move::On),
        left: has_move(checked, policy, board, Move::Left),
        right: has_move(checked, policy, board, Move::Right),
        opened: has_move(checked, policy, board, Move::Opened),
        failed: has_move(checked, policy, board, Move::Failed),
        stop: has_move(checked, policy, board, Move::Stop),
    }
}
