//! A step that stays in its frame, by what is to be done at its point.

ghost use Rattle.std.specs.Prelude.{◌≡◌, map, Some};
ghost use Rattle.cw_syntax.specs.Trees.{tree_of};
ghost use Rattle.cw_value.specs.Deeds.{Computes, Decides, decided_by, does};
ghost use Rattle.cw_value.specs.Machines.{function, scope_in};
ghost use Rattle.cw_eval.specs.Passings.{deed_in, way_in};
ghost use Rattle.cw_eval.specs.Shown.{memory_of};
ghost use Rattle.cw_starts.specs.Sources.{source_in};
ghost use Rattle.cw_machine.specs.Knowing.{IsKnown, IsTask};
ghost use Rattle.cw_machine.specs.Shown.{Goes, locals_of, machine_of, stays, stays_by, top_of};

use crate::known::Known;
use crate::machine::Machine;
use crate::steps::{perform_deed, step_on};
use crate::tasks::Task;
use cw_eval::{Deed, Halt, Way, value};
use cw_figures::is_zero;
use cw_syntax::program::Expr;

/// Evaluates an expression.
#[inline(always)]
fn compute(known: &Known, m: &mut Machine, e: &Expr) -> Result<Way, Halt>
    requires known { IsKnown known.now }
    ensures goes { Goes result (machine_of m.new) (stays_by (source_in known.now.source) (top_of m.old) (map locals_of m.old.waits.items) (does (scope_in (source_in known.now.source) (function (source_in known.now.source) m.old.function)) (Computes (Some (tree_of e.now))) (memory_of m.old.memory))) }
    ensures waits { m.new.waits ≡ m.old.waits }
{
    let scope = known.scope(m.function);
    value(&scope, e, &mut m.memory)?;
    Ok(Way::On)
}

/// A condition that isn't 0 goes left.
#[inline(always)]
fn side(z: i64) -> Way
    ensures { way_in result ≡ decided_by (Some z) }
{
    if is_zero(z) { Way::Right } else { Way::Left }
}

/// Decides by a condition.
#[inline(always)]
fn decide(known: &Known, m: &mut Machine, e: &Expr) -> Result<Way, Halt>
    requires known { IsKnown known.now }
    ensures goes { Goes result (machine_of m.new) (stays_by (source_in known.now.source) (top_of m.old) (map locals_of m.old.waits.items) (does (scope_in (source_in known.now.source) (function (source_in known.now.source) m.old.function)) (Decides (Some (tree_of e.now))) (memory_of m.old.memory))) }
    ensures waits { m.new.waits ≡ m.old.waits }
{
    let scope = known.scope(m.function);
    let z = value(&scope, e, &mut m.memory)?;
    Ok(side(z))
}

/// Does anything else.
#[inline(never)]
fn do_other(known: &Known, m: &mut Machine, deed: Deed) -> Result<Way, Halt>
    requires known { IsKnown known.now }
    ensures goes { Goes result (machine_of m.new) (stays_by (source_in known.now.source) (top_of m.old) (map locals_of m.old.waits.items) (does (scope_in (source_in known.now.source) (function (source_in known.now.source) m.old.function)) (deed_in deed.entry) (memory_of m.old.memory))) }
    ensures waits { m.new.waits ≡ m.old.waits }
{
    let passing = perform_deed(known, m, deed)?;
    Ok(passing.way)
}

/// Does what a deed says, without a list of arguments where it has none.
#[inline(always)]
fn act(known: &Known, m: &mut Machine, deed: Deed) -> Result<Way, Halt>
    requires known { IsKnown known.now }
    ensures goes { Goes result (machine_of m.new) (stays_by (source_in known.now.source) (top_of m.old) (map locals_of m.old.waits.items) (does (scope_in (source_in known.now.source) (function (source_in known.now.source) m.old.function)) (deed_in deed.entry) (memory_of m.old.memory))) }
    ensures waits { m.new.waits ≡ m.old.waits }
{
    match deed {
        Deed::Rests => Ok(Way::On),
        Deed::Computes(e) => match e {
            None => Ok(Way::On),
            Some(e) => compute(known, m, e),
        },
        Deed::Decides(e) => match e {
            None => Ok(Way::Left),
            Some(e) => decide(known, m, e),
        },
        Deed::Makes(_) | Deed::Opens(_) | Deed::Calls(_) | Deed::Answers(_) => {
            do_other(known, m, deed)
        }
    }
}

/// A step that stays in its frame, at the point of this task.
///
/// Whether the task is of the function that runs is tested; where it isn't, what its row does is looked up.
#[inline(always)]
pub(crate) fn step_task(known: &Known, m: &mut Machine, task: &Task) -> Result<Way, Halt>
    requires known { IsKnown known.now }
    requires task { IsTask (source_in known.now.source).file.functions task.now }
    ensures goes { Goes result (machine_of m.new) (stays (source_in known.now.source) task.now.row (machine_of m.old)) }
    ensures waits { m.new.waits ≡ m.old.waits }
{
    if task.function != m.function {
        return step_on(known, m, task.row);
    }
    act(known, m, task.deed)
}
