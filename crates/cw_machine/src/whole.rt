//! A step by the row of its point.

ghost use Rattle.std.specs.Prelude.{◌≡◌, ◌∷◌, List, Some, IfOk, drop, false, map};
ghost use Rattle.cw_syntax.specs.Frames.{Frame, Item};
ghost use Rattle.cw_value.specs.Machines.{step_by};
ghost use Rattle.cw_deeds.specs.Rows.{row_of};
ghost use Rattle.cw_starts.specs.Sources.{source_in};
ghost use Rattle.cw_machine.specs.Knowing.{IsKnown, IsTask};
ghost use Rattle.cw_machine.specs.Shown.{Goes, IsInnerRow, Waits, back_of, call_of, machine_of};

use crate::known::Known;
use crate::machine::Machine;
use crate::passing::step_task;
use crate::steps::{step_back, step_into};
use crate::tasks::Task;
use cw_core::PointId;
use cw_deeds::Row;
use cw_eval::{Halt, Way};
use cw_syntax::program::Name;

/// A step within a frame: whatever the item with the row of this task is, it does what that item does.
#[inline(always)]
pub fn step_within(known: &Known, m: &mut Machine, task: &Task) -> Result<Way, Halt>
    requires known { IsKnown known.now }
    requires task { IsTask (source_in known.now.source).file.functions task.now }
    requires inner { IsInnerRow task.now.row }
    ensures goes { (i : Item) (frames : List Frame) → row_of i ≡ task.now.row → Goes result (machine_of m.new) (step_by (source_in known.now.source) false i frames (machine_of m.old)) }
    ensures waits { m.new.waits ≡ m.old.waits }
{
    step_task(known, m, task)
}

/// A call of a defined function: whatever the item with this row is.
pub fn step_call(
    known: &Known,
    m: &mut Machine,
    at: u32,
    callee: usize,
    taker: Option<Name>,
    back: PointId,
) -> Result<Way, Halt>
    requires known { IsKnown known.now }
    ensures goes { (i : Item) (frames : List Frame) → row_of i ≡ Row.Calls at callee taker → Goes result (machine_of m.new) (step_by (source_in known.now.source) false i frames (machine_of m.old)) }
    ensures backs { IfOk result (λ _. map back_of m.new.waits.items ≡ back.0 ∷ map back_of m.old.waits.items) }
    ensures waiting { IfOk result (λ _. map call_of m.new.waits.items ≡ Some (at, taker) ∷ map call_of m.old.waits.items) }
{
    step_into(known, m, at, callee, taker, back)
}

/// The end of a frame, whatever the item with this row is, where the frames below go on behind the calls that wait.
pub fn step_end(known: &Known, m: &mut Machine) -> Result<Way, Halt>
    requires known { IsKnown known.now }
    ensures goes { (i : Item) (frames : List Frame) → row_of i ≡ Row.Ends → Waits frames m.old.waits.items → Goes result (machine_of m.new) (step_by (source_in known.now.source) false i frames (machine_of m.old)) }
    ensures waits { m.new.waits.items ≡ drop 1 m.old.waits.items }
{
    match m.waits.pop_front() {
        None => Ok(Way::On),
        Some(wait) => step_back(known, m, wait),
    }
}
