//! Boards.

ghost use Rattle.std.specs.Prelude.{◌≡◌, ◌≤◌, ◌↔◌, IsTrue, IfOk, IfErr, Some, None, []};
ghost use Rattle.cw_rights.specs.Policies.{PlainPolicy, policy_of};
ghost use Rattle.cw_syntax.specs.Plans.{Scene};
ghost use Rattle.cw_rights.specs.Capabilities.{applied};
ghost use Rattle.cw_rights.specs.Valid.{IsValid};
ghost use Rattle.cw_syntax.specs.Frames.{pass};
ghost use Rattle.cw_resolve.specs.Scenes.{scene_in};
ghost use Rattle.cw_model.specs.Boards.{landed, stepped, way_of, begin, Violates, start_board, mode_of};
ghost use Rattle.cw_boards.specs.Held.{primitives_at, phase_by, stack_in, board_in, board_of, problem, seams_before, HasFewSeams, IsBoard, After};
ghost use Rattle.cw_boards.specs.Numbered.{most_seams, StackBelow};
ghost use Rattle.cw_boards.specs.Choices.{chosen};
ghost use Rattle.cw_boards.specs.Kinds.{front_kind};
ghost use Rattle.cw_boards.specs.Turns.{way_in};
ghost use Rattle.std.specs.Prelude.{option_map};

use crate::changes::{caps_after, is_bad_with, kept_after, reached_letter, way_of, with_letter};
use crate::choices::{Choice, Phase, choice_of};
use crate::fault::BoardFault;
use crate::items::Item;
use crate::kinds::FrontKind;
use crate::seams::seams_before;
use crate::sourced::{front_kind, pass, start_stack};
use crate::turns::Way;
use cw_certs::Move;
use cw_core::NoMemory;
use cw_resolve::Scene;
use cw_rights::policy::start_caps;
use cw_rights::{Caps, Letter, Policy, Primitive, open_hold};
use cw_syntax::checked::Checked;
use std::alloc::{AllocError, Global};
use std::collections::VecDeque;

/// What stands on a board: the stack of frames, the top first; what is kept for the return of each; the
/// capabilities, the word and the phase.
#[derive(Drop)]
pub(crate) struct State<'s> {
    pub(crate) stack: VecDeque<VecDeque<Item<'s>>>,
    pub(crate) kept: VecDeque<Option<Caps>>,
    pub(crate) caps: Caps,
    pub(crate) word: Vec<Letter>,
    pub(crate) phase: Phase,
}

/// A board of a program under a policy, in the lifetime of both.
#[derive(Drop)]
pub struct Board<'s> {
    pub(crate) state: State<'s>,
    pub(crate) violates: bool,
    pub(crate) scene: Scene<'s>,
}

/// The phase in which a front begins.
fn begin(stack: &VecDeque<VecDeque<Item>>) -> Phase
    ensures { (policy : PlainPolicy) (s : Scene) → phase_by (primitives_at policy (stack_in s stack.now)) result ≡ begin policy (stack_in s stack.now) }
{
    match stack.front() {
        None => Phase::Over,
        Some(_) => Phase::Visit(0),
    }
}

/// What a call keeps for its return: what was held, where it runs in a process of its own.
fn mode_of(split: bool, caps: Caps) -> Option<Caps>
    ensures { result ≡ mode_of split caps }
{
    if split { Some(caps) } else { None }
}

/// The board after a step of the program, whose front item is of this kind.
fn landed<'s>(
    alloc: Global,
    scene: &Scene,
    checked: &'s Checked<'s>,
    policy: &Policy,
    state: State<'s>,
    split: bool,
    kind: FrontKind,
    way: Way,
) -> Result<Option<State<'s>>, AllocError>
    requires valid { IsValid (policy_of policy.now) }
    requires scene { scene.now ≡ scene_in checked.now (policy_of policy.now) }
    requires few { HasFewSeams checked.now policy.now }
    requires below { StackBelow most_seams (stack_in (scene_in checked.now (policy_of policy.now)) state.stack) }
    requires kind { front_kind (stack_in (scene_in checked.now (policy_of policy.now)) state.stack) ≡ Some kind }
    ensures { IfOk result (λ o. option_map (board_in checked.now policy.now) o ≡ stepped (problem checked.now policy.now) (mode_of split state.entry.caps) (board_in checked.now policy.now state.entry) (Some (way_in way))) }
{
    let State {
        stack,
        kept,
        caps,
        word,
        phase: _,
    } = state;
    match pass(alloc, scene, checked, policy, stack, way)? {
        None => Ok(None),
        Some(next) => {
            let after = caps_after(policy, kind, &kept, way, caps);
            let kept_next = kept_after(kind, mode_of(split, caps), kept)?;
            let word_next = with_letter(kind, word, caps)?;
            let phase = begin(&next);
            Ok(Some(State {
                stack: next,
                kept: kept_next,
                caps: after,
                word: word_next,
                phase,
            }))
        }
    }
}

/// The board after a step of the program by this move, where it is one.
fn stepped<'s>(
    alloc: Global,
    scene: &Scene,
    checked: &'s Checked<'s>,
    policy: &Policy,
    state: State<'s>,
    split: bool,
    by: Move,
) -> Result<Option<State<'s>>, AllocError>
    requires valid { IsValid (policy_of policy.now) }
    requires scene { scene.now ≡ scene_in checked.now (policy_of policy.now) }
    requires few { HasFewSeams checked.now policy.now }
    requires below { StackBelow most_seams (stack_in (scene_in checked.now (policy_of policy.now)) state.stack) }
    ensures { IfOk result (λ o. option_map (board_in checked.now policy.now) o ≡ stepped (problem checked.now policy.now) (mode_of split state.entry.caps) (board_in checked.now policy.now state.entry) (way_of by)) }
{
    match way_of(by) {
        None => Ok(None),
        Some(way) => match front_kind(scene, checked, policy, &state.stack) {
            None => Ok(None),
            Some(kind) => landed(alloc, scene, checked, policy, state, split, kind, way),
        },
    }
}

/// What a granted primitive leaves of the capabilities.
fn applied(caps: Caps, prim: Primitive) -> Caps
    ensures { result ≡ applied caps prim }
{
    let mut after = caps;
    match prim {
        Primitive::Limit(limit) => {
            if limit.descriptor < 8 {
                open_hold(&mut after, limit.descriptor, limit.keep);
            }
        }
        Primitive::Enter => after.amb = false,
        Primitive::Split => {}
    }
    after
}

/// The board after a choice.
fn chosen<'s>(
    alloc: Global,
    scene: &Scene,
    checked: &'s Checked<'s>,
    policy: &Policy,
    state: State<'s>,
    choice: Choice,
    by: Move,
) -> Result<Option<State<'s>>, AllocError>
    requires valid { IsValid (policy_of policy.now) }
    requires scene { scene.now ≡ scene_in checked.now (policy_of policy.now) }
    requires few { HasFewSeams checked.now policy.now }
    requires below { StackBelow most_seams (stack_in (scene_in checked.now (policy_of policy.now)) state.stack) }
    ensures { IfOk result (λ o. option_map (board_in checked.now policy.now) o ≡ chosen (problem checked.now policy.now) (board_in checked.now policy.now state.entry) choice by) }
{
    match choice {
        Choice::Forbidden => Ok(None),
        Choice::To(phase) => Ok(Some(State { phase, ..state })),
        Choice::Grants(prim, stage) => {
            let caps = applied(state.caps, prim);
            Ok(Some(State {
                caps,
                phase: Phase::Visit(stage),
                ..state
            }))
        }
        Choice::Steps { split } => stepped(alloc, scene, checked, policy, state, split, by),
    }
}

/// A board with whether it violates.
fn judged<'s>(
    scene: Scene<'s>,
    checked: &Checked<'s>,
    policy: &Policy,
    state: State<'s>,
) -> Result<Board<'s>, AllocError>
    requires valid { IsValid (policy_of policy.now) }
    requires scene { scene ≡ scene_in checked.now (policy_of policy.now) }
    requires few { HasFewSeams checked.now policy.now }
    requires below { StackBelow most_seams (stack_in (scene_in checked.now (policy_of policy.now)) state.stack) }
    ensures same { IfOk result (λ b. board_of checked.now policy.now b ≡ board_in checked.now policy.now state.entry) }
    ensures board { IfOk result (λ b. IsBoard checked.now policy.now b) }
{
    let kind = front_kind(&scene, checked, policy, &state.stack);
    match reached_letter(policy, kind, state.caps, state.phase) {
        None => Ok(Board {
            state,
            violates: false,
            scene,
        }),
        Some(letter) => {
            let State {
                stack,
                kept,
                caps,
                word,
                phase,
            } = state;
            let (word, violates) = is_bad_with(policy, word, letter)?;
            let state = State {
                stack,
                kept,
                caps,
                word,
                phase,
            };
            Ok(Board {
                state,
                violates,
                scene,
            })
        }
    }
}

/// The state with which a program begins, in its scene under a policy.
fn start_state<'s>(
    alloc: Global,
    scene: &Scene,
    checked: &'s Checked<'s>,
    policy: &Policy,
) -> Result<State<'s>, BoardFault>
    requires valid { IsValid (policy_of policy.now) }
    requires scene { scene.now ≡ scene_in checked.now (policy_of policy.now) }
    ensures start { IfOk result (λ s. board_in checked.now policy.now s ≡ start_board (problem checked.now policy.now)) }
    ensures few { IfOk result (λ _. HasFewSeams checked.now policy.now) }
    ensures many { IfErr result (λ fault. fault ≡ BoardFault.TooManySeams → most_seams ≤ seams_before (scene_in checked.now (policy_of policy.now)) checked.now.program.functions.items) }
{
    if seams_before(scene, &checked.program.functions) == usize::MAX {
        return Err(BoardFault::TooManySeams);
    }
    let stack = start_stack(alloc, scene, checked, policy)?;
    let phase = begin(&stack);
    let mut kept = VecDeque::new(alloc);
    let mode: Option<Caps> = None;
    if kept.push_front(mode).is_err() {
        return Err(BoardFault::NoMemory);
    }
    Ok(State {
        stack,
        kept,
        caps: start_caps(policy),
        word: Vec::new(alloc),
        phase,
    })
}

/// The board with which a program begins under a policy: the frame of `main`, the capabilities at the start and
/// the empty word. Of a source with 2^64 - 1 seams or more the answer is `TooManySeams`.
pub fn board_start<'s>(
    alloc: Global,
    checked: &'s Checked<'s>,
    policy: &'s Policy,
) -> Result<Board<'s>, BoardFault>
    requires { IsValid (policy_of policy.now) }
    ensures start { IfOk result (λ b. board_of checked.now policy.now b ≡ start_board (problem checked.now policy.now)) }
    ensures board { IfOk result (λ b. IsBoard checked.now policy.now b) }
    ensures many { IfErr result (λ fault. fault ≡ BoardFault.TooManySeams → most_seams ≤ seams_before (scene_in checked.now (policy_of policy.now)) checked.now.program.functions.items) }
{
    let scene = Scene::under(alloc, checked, policy)?;
    let state = start_state(alloc, &scene, checked, policy)?;
    let board = judged(scene, checked, policy, state)?;
    Ok(board)
}

/// The board after a move: None exactly where the move isn't the board's. The board is spent either way.
pub fn board_move<'s>(
    alloc: Global,
    checked: &'s Checked<'s>,
    policy: &Policy,
    board: Board<'s>,
    by: Move,
) -> Result<Option<Board<'s>>, NoMemory>
    requires valid { IsValid (policy_of policy.now) }
    requires board { IsBoard checked.now policy.now board }
    ensures { IfOk result (λ o. After checked.now policy.now board.entry by o) }
{
    let Board {
        state,
        violates,
        scene,
    } = board;
    if violates {
        return Ok(None);
    }
    let kind = front_kind(&scene, checked, policy, &state.stack);
    let choice = choice_of(policy, kind, &state.caps, state.phase, by);
    match chosen(alloc, &scene, checked, policy, state, choice, by)? {
        None => Ok(None),
        Some(next) => {
            let after = judged(scene, checked, policy, next)?;
            Ok(Some(after))
        }
    }
}
