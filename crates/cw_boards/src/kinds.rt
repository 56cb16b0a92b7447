//! What a front item does.

ghost use Rattle.std.specs.Prelude.{◌≡◌, ◌≤◌, ℕ, length};
ghost use Rattle.cw_syntax.specs.Plans.{steps_of_form};
ghost use Rattle.cw_syntax.specs.Trees.{form_of};
ghost use Rattle.cw_boards.specs.Held.{item_of, stack_in};
ghost use Rattle.cw_boards.specs.Kinds.{act_kind, kind_of, item_kind, front_kind};

use crate::items::Item;
use cw_resolve::{Act, Scene, action_of};
use cw_syntax::program::What;
use std::collections::VecDeque;

/// What an item does, without what stands in it.
#[derive(Clone, Copy, Drop)]
pub(crate) enum FrontKind {
    Entry,
    Plain,
    Break,
    Continue,
    Return,
    Open(usize),
    Close(usize),
    Call { function: usize, split: bool },
    Group,
    Label(u16),
    If,
    Loop,
    Test(bool),
    Step,
    LoopEnd,
    End,
}

/// The kind of a statement that is an expression, by what it does.
fn act_kind(act: Act) -> FrontKind
    ensures { result ≡ act_kind act }
{
    match act {
        Act::Computes => FrontKind::Plain,
        Act::Opens(d) => FrontKind::Open(d),
        Act::Closes(d) => FrontKind::Close(d),
        Act::Invokes {
            function,
            split,
            ..
        } => FrontKind::Call { function, split },
    }
}

/// What a statement does.
pub(crate) fn statement_kind(scene: &Scene, what: &What) -> FrontKind
    requires labels { length scene.now.names.labels ≤ 65535 }
    ensures { (at : ℕ) → result ≡ kind_of (steps_of_form scene.now at (form_of what.now)) }
{
    match what {
        What::Block(_) => FrontKind::Group,
        What::Decl(_) | What::Empty => FrontKind::Plain,
        What::Expr(e) => act_kind(action_of(scene, e)),
        What::Label(name, _, _) => FrontKind::Label(scene.label_number(scene.text(*name))),
        What::If(_, _, _) => FrontKind::If,
        What::While(_, _) | What::Do(_, _) => FrontKind::Loop,
        What::For(_, _) => FrontKind::Loop,
        What::Break => FrontKind::Break,
        What::Continue => FrontKind::Continue,
        What::Return(_) => FrontKind::Return,
    }
}

/// What an item does.
pub(crate) fn item_kind(scene: &Scene, item: &Item) -> FrontKind
    requires labels { length scene.now.names.labels ≤ 65535 }
    ensures { result ≡ item_kind (item_of scene.now item.now) }
{
    match item {
        Item::Entry { .. } => FrontKind::Entry,
        Item::Todo { statement, .. } => statement_kind(scene, &statement.what),
        Item::Nothing => FrontKind::Group,
        Item::Init(_) => FrontKind::Plain,
        Item::Test { decided, .. } => FrontKind::Test(*decided),
        Item::After(_) => FrontKind::Step,
        Item::LoopEnd => FrontKind::LoopEnd,
        Item::End(_) => FrontKind::End,
    }
}

/// What the front item of the top frame does.
pub(crate) fn front_kind(scene: &Scene, stack: &VecDeque<VecDeque<Item>>) -> Option<FrontKind>
    requires labels { length scene.now.names.labels ≤ 65535 }
    ensures { result ≡ front_kind (stack_in scene.now stack.now) }
{
    match stack.front() {
        None => None,
        Some(frame) => match frame.front() {
            None => None,
            Some(item) => Some(item_kind(scene, item)),
        },
    }
}
