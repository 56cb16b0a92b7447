//! How a step passes a front item.

ghost use Rattle.std.specs.Prelude.{◌≡◌};
ghost use Rattle.cw_boards.specs.Turns.{turn_of};

use crate::kinds::FrontKind;

/// A way on from an item.
#[derive(Clone, Copy, Drop)]
pub(crate) enum Way {
    On,
    Left,
    Right,
    Opened,
    Failed,
}

/// How a front item is passed.
#[derive(Clone, Copy, Drop)]
pub(crate) enum Turn {
    /// It is dropped.
    Passes,
    /// `break`, `continue` and `return`.
    Breaks,
    Continues,
    Ends,
    /// A statement that stands in it comes next.
    Enters,
    /// A defined function is called, or returns.
    Calls(usize),
    Returns,
    /// There is no such way on.
    Stops,
}

/// How an item is passed that has one way.
fn on(kind: FrontKind) -> Turn
    ensures { result ≡ turn_of kind Way.On }
{
    match kind {
        FrontKind::Entry | FrontKind::Plain | FrontKind::Step => Turn::Passes,
        FrontKind::Close(_) => Turn::Passes,
        FrontKind::Break => Turn::Breaks,
        FrontKind::Continue => Turn::Continues,
        FrontKind::Return => Turn::Ends,
        FrontKind::Label(_) => Turn::Enters,
        FrontKind::Test(decided) => if decided { Turn::Stops } else { Turn::Enters },
        FrontKind::Call { function, split: _ } => Turn::Calls(function),
        FrontKind::End => Turn::Returns,
        FrontKind::Open(_) => Turn::Stops,
        FrontKind::Group | FrontKind::If | FrontKind::Loop | FrontKind::LoopEnd => Turn::Stops,
    }
}

/// How an item of this kind is passed this way.
pub(crate) fn turn_of(kind: FrontKind, way: Way) -> Turn
    ensures { result ≡ turn_of kind way }
{
    match way {
        Way::On => on(kind),
        Way::Left => match kind {
            FrontKind::If | FrontKind::Test(true) => Turn::Enters,
            _ => Turn::Stops,
        },
        Way::Right => match kind {
            FrontKind::If => Turn::Enters,
            FrontKind::Test(true) => Turn::Passes,
            _ => Turn::Stops,
        },
        Way::Opened | Way::Failed => match kind {
            FrontKind::Open(_) => Turn::Passes,
            _ => Turn::Stops,
        },
    }
}
