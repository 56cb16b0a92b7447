//! Steps of a stack of frames, the top first.

ghost use Rattle.std.specs.Prelude.{◌≡◌, codes, ◌<◌, ◌≤◌, ◌+◌, [], ◌∷◌, length, take, IfOk, option_map};
ghost use Rattle.cw_syntax.specs.Plans.{Scene, numbered, numbered_all, seams, seams_all};
ghost use Rattle.cw_syntax.specs.Names.{number_or_other};
ghost use Rattle.cw_syntax.specs.Frames.{Entry, Todo, Test, End, after_if, items_of, settle, frame_of, pass, popped, start_stack};
ghost use Rattle.cw_resolve.specs.Scenes.{stm_in, stms_in};
ghost use Rattle.cw_boards.specs.Held.{item_of, frame_in, stack_in, plan_by};
ghost use Rattle.cw_boards.specs.Numbered.{most_seams, SeamsBelow, ItemBelow, FrameBelow, StackBelow};
ghost use Rattle.cw_boards.specs.Held.{seams_before};
ghost use Rattle.cw_boards.specs.Kinds.{item_kind};
ghost use Rattle.cw_boards.specs.Turns.{way_in, entered, taken, turn_of, stepped_by};

use crate::frames::{broken, continued, ended, put, put_all, settle};
use crate::items::Item;
use crate::kinds::item_kind;
use crate::seams::{seams, seams_before};
use crate::turns::{Turn, Way, turn_of};
use cw_resolve::Scene;
use cw_syntax::program::{Function, Stmt, What};
use std::alloc::{AllocError, Global};
use std::collections::VecDeque;

/// The number of the entry's seam of the function with this number.
fn entry_seam(scene: &Scene, functions: &[Function], number: usize) -> usize
    requires number { number < length functions.now }
    requires few { seams_before scene.now functions.now < most_seams }
    ensures { result ≡ seams_before scene.now (take number functions.now) }
{
    seams_before(scene, &functions[..number])
}

/// A new frame of this function, which has this number, by the seam of its entry.
fn frame_from<'s>(
    alloc: Global,
    scene: &Scene,
    f: &'s Function,
    number: usize,
    seam: usize,
) -> Result<VecDeque<Item<'s>>, AllocError>
    requires fits { seam + 1 + seams_all (stms_in scene.now f.now.body.items) ≤ most_seams }
    ensures { IfOk result (λ frame. frame_in scene.now frame ≡ Entry number seam ∷ items_of (numbered_all (stms_in scene.now f.now.body.items) (seam + 1)) (End number ∷ [])) }
{
    let last = put(VecDeque::new(alloc), Item::End(number))?;
    let body = put_all(scene, &f.body, seam + 1, last)?;
    put(
        body,
        Item::Entry {
            function: number,
            seam,
        },
    )
}

/// A new frame of a function, where there is one with this number.
fn new_frame<'s>(
    alloc: Global,
    scene: &Scene,
    functions: &'s [Function],
    number: usize,
) -> Result<Option<VecDeque<Item<'s>>>, AllocError>
    requires few { seams_before scene.now functions.now < most_seams }
    ensures { IfOk result (λ o. option_map (frame_in scene.now) o ≡ frame_of (plan_by scene.now functions.now) number) }
{
    if number >= functions.len() {
        return Ok(None);
    }
    let f = &functions[number];
    let seam = entry_seam(scene, functions, number);
    let frame = frame_from(alloc, scene, f, number, seam)?;
    Ok(Some(frame))
}

/// The second arm of an `if` before a frame: its seams come behind those of the first.
fn other_arm<'s>(
    scene: &Scene,
    arm: &Stmt,
    other: &'s Stmt,
    seam: usize,
    rest: VecDeque<Item<'s>>,
) -> Result<VecDeque<Item<'s>>, AllocError>
    requires below { SeamsBelow most_seams (numbered (stm_in scene.now arm.now) seam) }
    ensures { IfOk result (λ next. frame_in scene.now next ≡ Todo (numbered (stm_in scene.now other.now) (seam + seams (stm_in scene.now arm.now))) ∷ frame_in scene.now rest.entry) }
{
    let behind = seam + seams(scene, arm);
    put(
        rest,
        Item::Todo {
            statement: other,
            seam: behind,
        },
    )
}

/// The statement that stands in a label or an `if` comes next.
fn enter_statement<'s>(
    scene: &Scene,
    statement: &'s Stmt,
    seam: usize,
    way: Way,
    rest: VecDeque<Item<'s>>,
) -> Result<Option<VecDeque<Item<'s>>>, AllocError>
    requires below { SeamsBelow most_seams (numbered (stm_in scene.now statement.now) seam) }
    ensures { IfOk result (λ o. option_map (frame_in scene.now) o ≡ entered (Todo (numbered (stm_in scene.now statement.now) seam)) (way_in way) (frame_in scene.now rest.entry)) }
{
    match &statement.what {
        What::Label(_, _, body) => match way {
            Way::On => {
                let next = put(
                    rest,
                    Item::Todo {
                        statement: body,
                        seam: seam + 1,
                    },
                )?;
                Ok(Some(next))
            }
            Way::Left | Way::Right | Way::Opened | Way::Failed => Ok(None),
        },
        What::If(_, arm, other) => match way {
            Way::Left => {
                let next = put(
                    rest,
                    Item::Todo {
                        statement: arm,
                        seam,
                    },
                )?;
                Ok(Some(next))
            }
            Way::Right => match other {
                None => {
                    let next = put(rest, Item::Nothing)?;
                    Ok(Some(next))
                }
                Some(other) => {
                    let next = other_arm(scene, arm, other, seam, rest)?;
                    Ok(Some(next))
                }
            },
            Way::On | Way::Opened | Way::Failed => Ok(None),
        },
        What::Block(_) => Ok(None),
        What::Expr(_) => Ok(None),
        What::For(_, _) => Ok(None),
        What::Decl(_) | What::Empty | What::While(_, _) | What::Do(_, _) => Ok(None),
        What::Break | What::Continue | What::Return(_) => Ok(None),
    }
}

/// The body of a loop, its step and its test, before a frame.
fn enter_body<'s>(
    rest: VecDeque<Item<'s>>,
    at: u32,
    decided: bool,
    stepped: bool,
    body: &'s Stmt,
    seam: usize,
) -> Result<VecDeque<Item<'s>>, AllocError>
    ensures { IfOk result (λ next. (s : Scene) → frame_in s next ≡ Todo (numbered (stm_in s body.now) seam) ∷ after_if stepped at (Test at decided stepped (numbered (stm_in s body.now) seam) ∷ frame_in s rest.entry)) }
{
    let test = Item::Test {
        at,
        decided,
        stepped,
        body,
        seam,
    };
    let first = Item::Todo {
        statement: body,
        seam,
    };
    let tested = put(rest, test)?;
    if stepped {
        let again = put(tested, Item::After(at))?;
        put(again, first)
    } else {
        put(tested, first)
    }
}

/// The statement that stands in an item comes next.
fn enter<'s>(
    scene: &Scene,
    item: Item<'s>,
    way: Way,
    rest: VecDeque<Item<'s>>,
) -> Result<Option<VecDeque<Item<'s>>>, AllocError>
    requires below { ItemBelow most_seams (item_of scene.now item) }
    ensures { IfOk result (λ o. option_map (frame_in scene.now) o ≡ entered (item_of scene.now item.entry) (way_in way) (frame_in scene.now rest.entry)) }
{
    match item {
        Item::Todo { statement, seam } => enter_statement(scene, statement, seam, way, rest),
        Item::Test {
            at,
            decided,
            stepped,
            body,
            seam,
        } => enter_test(at, decided, stepped, body, seam, way, rest),
        Item::Entry { .. } | Item::Nothing | Item::Init(_) => Ok(None),
        Item::After(_) | Item::LoopEnd | Item::End(_) => Ok(None),
    }
}

/// A loop's test: goes into its body where the way does, else None.
fn enter_test<'s>(
    at: u32,
    decided: bool,
    stepped: bool,
    body: &'s Stmt,
    seam: usize,
    way: Way,
    rest: VecDeque<Item<'s>>,
) -> Result<Option<VecDeque<Item<'s>>>, AllocError>
    ensures { IfOk result (λ o. (s : Scene) → option_map (frame_in s) o ≡ entered (Test at decided stepped (numbered (stm_in s body.now) seam)) (way_in way) (frame_in s rest.entry)) }
{
    let goes_in = match way {
        Way::On => !decided,
        Way::Left => decided,
        Way::Right | Way::Opened | Way::Failed => false,
    };
    if goes_in {
        let next = enter_body(rest, at, decided, stepped, body, seam)?;
        Ok(Some(next))
    } else {
        Ok(None)
    }
}

/// What is to do after an item that is passed, not yet rewritten; a call and an end aren't passed within their frame.
fn after<'s>(
    alloc: Global,
    scene: &Scene,
    item: Item<'s>,
    turn: Turn,
    way: Way,
    rest: VecDeque<Item<'s>>,
) -> Result<Option<VecDeque<Item<'s>>>, AllocError>
    requires below { ItemBelow most_seams (item_of scene.now item) }
    ensures { IfOk result (λ o. option_map (frame_in scene.now) o ≡ taken turn (item_of scene.now item.entry) (way_in way) (frame_in scene.now rest.entry)) }
{
    match turn {
        Turn::Passes => Ok(Some(rest)),
        Turn::Breaks => Ok(broken(rest)),
        Turn::Continues => {
            let next = continued(rest)?;
            Ok(next)
        }
        Turn::Ends => {
            let next = ended(alloc, rest)?;
            Ok(Some(next))
        }
        Turn::Enters => enter(scene, item, way, rest),
        Turn::Calls(_) => Ok(None),
        Turn::Returns | Turn::Stops => Ok(None),
    }
}

/// A step within the top frame.
fn within<'s>(
    alloc: Global,
    scene: &Scene,
    item: Item<'s>,
    turn: Turn,
    way: Way,
    rest: VecDeque<Item<'s>>,
    mut frames: VecDeque<VecDeque<Item<'s>>>,
) -> Result<Option<VecDeque<VecDeque<Item<'s>>>>, AllocError>
    requires item { ItemBelow most_seams (item_of scene.now item) }
    requires rest { FrameBelow most_seams (frame_in scene.now rest) }
    ensures { IfOk result (λ o. option_map (stack_in scene.now) o ≡ option_map (λ next. settle next ∷ stack_in scene.now frames.entry) (taken turn (item_of scene.now item.entry) (way_in way) (frame_in scene.now rest.entry))) }
{
    match after(alloc, scene, item, turn, way, rest)? {
        None => Ok(None),
        Some(next) => {
            let top = settle(scene, next)?;
            frames.push_front(top)?;
            Ok(Some(frames))
        }
    }
}

/// A call of the defined function with this number: its frame comes on top.
fn called<'s>(
    alloc: Global,
    scene: &Scene,
    functions: &'s [Function],
    number: usize,
    mut frames: VecDeque<VecDeque<Item<'s>>>,
) -> Result<Option<VecDeque<VecDeque<Item<'s>>>>, AllocError>
    requires few { seams_before scene.now functions.now < most_seams }
    ensures { IfOk result (λ o. option_map (stack_in scene.now) o ≡ option_map (λ frame. frame ∷ stack_in scene.now frames.entry) (frame_of (plan_by scene.now functions.now) number)) }
{
    match new_frame(alloc, scene, functions, number)? {
        None => Ok(None),
        Some(frame) => {
            frames.push_front(frame)?;
            Ok(Some(frames))
        }
    }
}

/// The end of a frame that was taken off: the call at the front of the frame below is passed.
fn returned<'s>(
    scene: &Scene,
    mut frames: VecDeque<VecDeque<Item<'s>>>,
) -> Result<Option<VecDeque<VecDeque<Item<'s>>>>, AllocError>
    requires below { StackBelow most_seams (stack_in scene.now frames) }
    ensures { IfOk result (λ o. option_map (stack_in scene.now) o ≡ popped (stack_in scene.now frames.entry)) }
{
    match frames.pop_front() {
        None => Ok(Some(frames)),
        Some(mut frame) => match frame.pop_front() {
            None => Ok(None),
            Some(_) => {
                let top = settle(scene, frame)?;
                frames.push_front(top)?;
                Ok(Some(frames))
            }
        },
    }
}

/// A step of a stack whose front item was taken off.
fn pass_front<'s>(
    alloc: Global,
    scene: &Scene,
    functions: &'s [Function],
    item: Item<'s>,
    rest: VecDeque<Item<'s>>,
    mut frames: VecDeque<VecDeque<Item<'s>>>,
    way: Way,
) -> Result<Option<VecDeque<VecDeque<Item<'s>>>>, AllocError>
    requires labels { length scene.now.names.labels ≤ 65535 }
    requires few { seams_before scene.now functions.now < most_seams }
    requires item { ItemBelow most_seams (item_of scene.now item) }
    requires rest { FrameBelow most_seams (frame_in scene.now rest) }
    requires frames { StackBelow most_seams (stack_in scene.now frames) }
    ensures { IfOk result (λ o. option_map (stack_in scene.now) o ≡ stepped_by (plan_by scene.now functions.now) (turn_of (item_kind (item_of scene.now item.entry)) way) (item_of scene.now item.entry) (way_in way) (frame_in scene.now rest.entry) (stack_in scene.now frames.entry)) }
{
    let turn = turn_of(item_kind(scene, &item), way);
    match turn {
        Turn::Calls(number) => {
            let caller = put(rest, item)?;
            frames.push_front(caller)?;
            called(alloc, scene, functions, number, frames)
        }
        Turn::Returns => returned(scene, frames),
        Turn::Passes | Turn::Breaks | Turn::Continues | Turn::Ends | Turn::Enters | Turn::Stops => {
            within(alloc, scene, item, turn, way, rest, frames)
        }
    }
}

/// One step of a stack of frames, where its front can be passed this way.
pub(crate) fn pass<'s>(
    alloc: Global,
    scene: &Scene,
    functions: &'s [Function],
    mut frames: VecDeque<VecDeque<Item<'s>>>,
    way: Way,
) -> Result<Option<VecDeque<VecDeque<Item<'s>>>>, AllocError>
    requires labels { length scene.now.names.labels ≤ 65535 }
    requires few { seams_before scene.now functions.now < most_seams }
    requires below { StackBelow most_seams (stack_in scene.now frames) }
    ensures { IfOk result (λ o. option_map (stack_in scene.now) o ≡ pass (plan_by scene.now functions.now) (stack_in scene.now frames.entry) (way_in way)) }
{
    match frames.pop_front() {
        None => Ok(None),
        Some(mut rest) => match rest.pop_front() {
            None => Ok(None),
            Some(item) => pass_front(alloc, scene, functions, item, rest, frames, way),
        },
    }
}

/// The stack with which a program starts: one frame, that of `main`, where it has that function.
pub(crate) fn start_stack<'s>(
    alloc: Global,
    scene: &Scene,
    functions: &'s [Function],
) -> Result<VecDeque<VecDeque<Item<'s>>>, AllocError>
    requires few { seams_before scene.now functions.now < most_seams }
    ensures { IfOk result (λ stack. stack_in scene.now stack ≡ start_stack (plan_by scene.now functions.now)) }
{
    let mut stack = VecDeque::new(alloc);
    if let Some(frame) = new_frame(alloc, scene, functions, main_number(scene))? {
        stack.push_front(frame)?;
    }
    Ok(stack)
}

/// The name of `main`.
fn main_text() -> &'static [u8]
    ensures { result.now ≡ codes "main" }
{
    b"main".as_slice()
}

/// The number of `main`, or the number of functions where there is none.
fn main_number(scene: &Scene) -> usize
    ensures { result ≡ number_or_other scene.now.functions (codes "main") }
{
    match scene.function_named(main_text()) {
        Some(number) => number,
        None => scene.function_count(),
    }
}
