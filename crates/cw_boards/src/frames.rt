//! Frames: what is still to do, the front first.

ghost use Rattle.std.specs.Prelude.{◌≡◌, ◌∷◌, IfOk, option_map, is_some};
ghost use Rattle.cw_syntax.specs.Plans.{Scene, numbered, numbered_all};
ghost use Rattle.cw_syntax.specs.Frames.{Todo, Test, LoopEnd, items_of, init_if, settle, broken, continued, ended};
ghost use Rattle.cw_syntax.specs.declared.program.Head.{out-Head};
ghost use Rattle.cw_resolve.specs.Scenes.{stm_in, stms_in};
ghost use Rattle.cw_boards.specs.Held.{item_of, frame_in};
ghost use Rattle.cw_boards.specs.Numbered.{most_seams, SeamsBelow, AllSeamsBelow, ItemBelow, FrameBelow};
ghost use Rattle.cw_boards.specs.Rewriting.{Rewrites};

use crate::items::Item;
use crate::seams::{seams, seams_all};
use cw_resolve::Scene;
use cw_syntax::program::{Head, Stmt, What};
use std::alloc::{AllocError, Global};
use std::collections::VecDeque;

/// A frame with one item more, at its front.
pub(crate) fn put<'s>(
    mut frame: VecDeque<Item<'s>>,
    item: Item<'s>,
) -> Result<VecDeque<Item<'s>>, AllocError>
    ensures { IfOk result (λ next. next.items ≡ item.entry ∷ frame.entry.items) }
{
    frame.push_front(item)?;
    Ok(frame)
}

/// A frame with these statements before it, whose seams are numbered from this one on.
pub(crate) fn put_all<'s>(
    scene: &Scene,
    statements: &'s [Stmt],
    seam: usize,
    rest: VecDeque<Item<'s>>,
) -> Result<VecDeque<Item<'s>>, AllocError>
    requires below { AllSeamsBelow most_seams (numbered_all (stms_in scene.now statements.now) seam) }
    ensures { IfOk result (λ next. frame_in scene.now next ≡ items_of (numbered_all (stms_in scene.now statements.now) seam) (frame_in scene.now rest.entry)) }
{
    let mut frame = rest;
    let mut at = seam + seams_all(scene, statements);
    let mut i = statements.len();
    while i > 0 {
        i -= 1;
        let statement = &statements[i];
        let own = seams(scene, statement);
        at -= own;
        frame = put(
            frame,
            Item::Todo {
                statement,
                seam: at,
            },
        )?;
    }
    Ok(frame)
}

/// A rewriting at the front: there is no more to make, or there may be.
pub(crate) enum Rewritten<'s> {
    Last(VecDeque<Item<'s>>),
    More(VecDeque<Item<'s>>),
}

/// Rewrites the front item of a frame.
fn rewrite<'s>(
    scene: &Scene,
    item: Item<'s>,
    rest: VecDeque<Item<'s>>,
) -> Result<Rewritten<'s>, AllocError>
    requires below { ItemBelow most_seams (item_of scene.now item) }
    ensures { IfOk result (λ r. Rewrites scene.now (item_of scene.now item.entry ∷ frame_in scene.now rest.entry) r) }
{
    match item {
        Item::LoopEnd | Item::Nothing => Ok(Rewritten::More(rest)),
        Item::Todo { statement, seam } => rewrite_statement(scene, statement, seam, rest),
        _ => Ok(Rewritten::Last(put(rest, item)?)),
    }
}

/// A statement at the front taken apart, where it is made of others; its seams are numbered from `seam`.
fn rewrite_statement<'s>(
    scene: &Scene,
    statement: &'s Stmt,
    seam: usize,
    rest: VecDeque<Item<'s>>,
) -> Result<Rewritten<'s>, AllocError>
    requires below { SeamsBelow most_seams (numbered (stm_in scene.now statement.now) seam) }
    ensures { IfOk result (λ r. Rewrites scene.now (Todo (numbered (stm_in scene.now statement.now) seam) ∷ frame_in scene.now rest.entry) r) }
{
    match &statement.what {
        What::Block(statements) => Ok(Rewritten::More(put_all(scene, statements, seam, rest)?)),
        What::While(_, body) => Ok(Rewritten::More(looped(
            rest,
            statement.from,
            true,
            false,
            body,
            seam,
        )?)),
        What::Do(body, _) => {
            let rest = looped(rest, statement.from, true, false, body, seam)?;
            let first = Item::Todo {
                statement: body,
                seam,
            };
            Ok(Rewritten::More(put(rest, first)?))
        }
        What::For(head, body) => Ok(Rewritten::More(for_loop(
            head,
            statement.from,
            body,
            seam,
            rest,
        )?)),
        What::Decl(_) | What::Empty | What::Break | What::Continue | What::Return(_) => {
            Ok(Rewritten::Last(put(rest, Item::Todo { statement, seam })?))
        }
        What::Expr(_) => Ok(Rewritten::Last(put(rest, Item::Todo { statement, seam })?)),
        What::Label(_, _, _) => Ok(Rewritten::Last(put(rest, Item::Todo { statement, seam })?)),
        What::If(_, _, _) => Ok(Rewritten::Last(put(rest, Item::Todo { statement, seam })?)),
    }
}

/// A loop's test and its end, before a frame.
fn looped<'s>(
    rest: VecDeque<Item<'s>>,
    at: u32,
    decided: bool,
    stepped: bool,
    body: &'s Stmt,
    seam: usize,
) -> Result<VecDeque<Item<'s>>, AllocError>
    ensures { IfOk result (λ next. (s : Scene) → frame_in s next ≡ Test at decided stepped (numbered (stm_in s body.now) seam) ∷ (LoopEnd ∷ frame_in s rest.entry)) }
{
    let test = Item::Test {
        at,
        decided,
        stepped,
        body,
        seam,
    };
    put(put(rest, Item::LoopEnd)?, test)
}

/// The init, test and end of a `for`, before a frame.
fn for_loop<'s>(
    head: &Head,
    at: u32,
    body: &'s Stmt,
    seam: usize,
    rest: VecDeque<Item<'s>>,
) -> Result<VecDeque<Item<'s>>, AllocError>
    ensures { IfOk result (λ next. (s : Scene) → frame_in s next ≡ init_if (option_map (λ i. i.from) (out-Head head.now).init) (Test at (is_some (out-Head head.now).test) (is_some (out-Head head.now).step) (numbered (stm_in s body.now) seam) ∷ (LoopEnd ∷ frame_in s rest.entry))) }
{
    let decided = head.test.is_some();
    let stepped = head.step.is_some();
    let rest = looped(rest, at, decided, stepped, body, seam)?;
    let next = with_init(&head.init, rest)?;
    Ok(next)
}

/// The init of a `for` before its loop, where it has one.
fn with_init<'s>(
    init: &Option<Stmt>,
    rest: VecDeque<Item<'s>>,
) -> Result<VecDeque<Item<'s>>, AllocError>
    ensures { IfOk result (λ next. (s : Scene) → frame_in s next ≡ init_if (option_map (λ i. i.from) init.now) (frame_in s rest.entry)) }
{
    match init {
        None => Ok(rest),
        Some(init) => put(rest, Item::Init(init.from)),
    }
}

/// A frame rewritten, so that a step passes its front.
pub(crate) fn settle<'s>(
    scene: &Scene,
    mut frame: VecDeque<Item<'s>>,
) -> Result<VecDeque<Item<'s>>, AllocError>
    requires below { FrameBelow most_seams (frame_in scene.now frame) }
    ensures { IfOk result (λ next. frame_in scene.now next ≡ settle (frame_in scene.now frame.entry)) }
{
    while let Some(item) = frame.pop_front() {
        match rewrite(scene, item, frame)? {
            Rewritten::Last(next) => return Ok(next),
            Rewritten::More(next) => frame = next,
        }
    }
    Ok(frame)
}

/// `break`: all up to and with the first loop end is dropped.
pub(crate) fn broken<'s>(mut frame: VecDeque<Item<'s>>) -> Option<VecDeque<Item<'s>>>
    ensures { (s : Scene) → option_map (frame_in s) result ≡ broken (frame_in s frame.entry) }
{
    while let Some(item) = frame.pop_front() {
        if let Item::LoopEnd = item {
            return Some(frame);
        }
    }
    None
}

/// `continue`: all before the first step of a `for`, or test, is dropped.
pub(crate) fn continued<'s>(
    mut frame: VecDeque<Item<'s>>,
) -> Result<Option<VecDeque<Item<'s>>>, AllocError>
    ensures { IfOk result (λ next. (s : Scene) → option_map (frame_in s) next ≡ continued (frame_in s frame.entry)) }
{
    while let Some(item) = frame.pop_front() {
        match item {
            Item::Test { .. } | Item::After(_) => return Ok(Some(put(frame, item)?)),
            _ => {}
        }
    }
    Ok(None)
}

/// `return`: all but the end is dropped.
pub(crate) fn ended<'s>(
    alloc: Global,
    mut frame: VecDeque<Item<'s>>,
) -> Result<VecDeque<Item<'s>>, AllocError>
    ensures { IfOk result (λ next. (s : Scene) → frame_in s next ≡ ended (frame_in s frame.entry)) }
{
    let mut ends = VecDeque::new(alloc);
    while let Some(item) = frame.pop_front() {
        if let Item::End(_) = item {
            ends.push_back(item)?;
        }
    }
    Ok(ends)
}
