//! What a step of the program does with the values.

ghost use Rattle.std.specs.Prelude.{◌≡◌, ◌∷◌, ℕ, List, map, Some, IfOk, MatchResult};
ghost use Rattle.std.specs.Option.{option_or};
ghost use Rattle.cw_value.specs.Deeds.{does};
ghost use Rattle.cw_value.specs.Machines.{function, result_by, scope_in, taken_over};
ghost use Rattle.cw_eval.specs.Passings.{deed_in, passing_of};
ghost use Rattle.cw_eval.specs.Shown.{Shows, memory_of};
ghost use Rattle.cw_starts.specs.Sources.{source_in};
ghost use Rattle.cw_machine.specs.Knowing.{IsKnown, deed_for};
ghost use Rattle.cw_machine.specs.Shown.{Goes, back_of, call_of, calls, locals_of, machine_of, returns, stays, top_of};

use crate::known::Known;
use crate::machine::{Machine, Wait, new_store};
use cw_core::{NoMemory, PointId};
use cw_deeds::Row;
use cw_eval::{Deed, Halt, Passing, Target, Way, does, name_target};
use cw_syntax::program::Name;
use cw_value::Stop;
use std::alloc::Global;
use std::mem;

/// A cell that holds a number.
fn cell_of(z: &i64) -> Option<i64>
    ensures { result ≡ Some z.now }
{
    Some(*z)
}

/// The values of a call's arguments, as a new frame begins with them.
fn first_cells(alloc: Global, arguments: &[i64]) -> Result<Vec<Option<i64>>, NoMemory>
    ensures { IfOk result (λ cells. cells.items ≡ map Some arguments.now) }
{
    let mut cells = Vec::new(alloc);
    for z in arguments {
        cells.push(cell_of(z))?;
    }
    Ok(cells)
}

/// What is returned, where something is, and else what was before.
fn returned(answer: Option<i64>, before: Option<i64>) -> Option<i64>
    ensures { result ≡ option_or answer before }
{
    match answer {
        Some(z) => Some(z),
        None => before,
    }
}

/// Does this, and keeps what is returned.
pub(crate) fn perform_deed(known: &Known, m: &mut Machine, deed: Deed) -> Result<Passing, Halt>
    requires known { IsKnown known.now }
    ensures outcome { Shows passing_of result (memory_of m.new.memory) (does (scope_in (source_in known.now.source) (function (source_in known.now.source) m.old.function)) (deed_in deed.entry) (memory_of m.old.memory)) }
    ensures answer { MatchResult result (λ p. m.new.answer ≡ option_or p.answer m.old.answer) (λ _. m.new.answer ≡ m.old.answer) }
    ensures function { m.new.function ≡ m.old.function }
    ensures waits { m.new.waits ≡ m.old.waits }
{
    let scope = known.scope(m.function);
    let passing = does(&scope, deed, &mut m.memory)?;
    m.answer = returned(passing.answer, m.answer);
    Ok(passing)
}

/// Does what passing a row does, and keeps what is returned.
fn perform(known: &Known, m: &mut Machine, row: Row) -> Result<Passing, Halt>
    requires known { IsKnown known.now }
    ensures outcome { Shows passing_of result (memory_of m.new.memory) (does (scope_in (source_in known.now.source) (function (source_in known.now.source) m.old.function)) (deed_for (function (source_in known.now.source) m.old.function) row) (memory_of m.old.memory)) }
    ensures answer { MatchResult result (λ p. m.new.answer ≡ option_or p.answer m.old.answer) (λ _. m.new.answer ≡ m.old.answer) }
    ensures function { m.new.function ≡ m.old.function }
    ensures waits { m.new.waits ≡ m.old.waits }
{
    let deed = known.deed(m.function, row);
    perform_deed(known, m, deed)
}

/// A step that stays in its frame.
pub fn step_on(known: &Known, m: &mut Machine, row: Row) -> Result<Way, Halt>
    requires known { IsKnown known.now }
    ensures goes { Goes result (machine_of m.new) (stays (source_in known.now.source) row (machine_of m.old)) }
    ensures waits { m.new.waits ≡ m.old.waits }
{
    let passing = perform(known, m, row)?;
    Ok(passing.way)
}

/// A call of a defined function: a new frame comes on top, and the call waits.
pub fn step_into(
    known: &Known,
    m: &mut Machine,
    at: u32,
    callee: usize,
    taker: Option<Name>,
    back: PointId,
) -> Result<Way, Halt>
    requires known { IsKnown known.now }
    ensures goes { Goes result (machine_of m.new) (calls (source_in known.now.source) at callee taker (machine_of m.old)) }
    ensures backs { IfOk result (λ _. map back_of m.new.waits.items ≡ back.0 ∷ map back_of m.old.waits.items) }
    ensures waiting { IfOk result (λ _. map call_of m.new.waits.items ≡ Some (at, taker) ∷ map call_of m.old.waits.items) }
{
    let alloc = known.source.alloc;
    let passing = perform(known, m, Row::Calls(at, callee, taker))?;
    let cells = first_cells(alloc, &passing.arguments)?;
    let store = new_store(alloc, known.names(callee), &cells)?;
    let wait = Wait {
        back,
        at,
        result: taker,
        function: m.function,
        own: mem::replace(&mut m.memory.own, store),
        answer: m.answer,
    };
    m.waits.push_front(wait)?;
    m.function = callee;
    m.answer = None;
    Ok(passing.way)
}

/// Stores the result of a call.
fn store_result(known: &Known, m: &mut Machine, at: u32, name: Name, z: i64) -> Result<Way, Halt>
    requires known { IsKnown known.now }
    ensures goes { Goes result (machine_of m.new) (taken_over (source_in known.now.source) at name (Some z) (top_of m.old) (map locals_of m.old.waits.items) (machine_of m.old)) }
    ensures waits { m.new.waits ≡ m.old.waits }
{
    let scope = known.scope(m.function);
    let target = name_target(&scope, name.from, name.to);
    match target {
        Target::Own(_) => {
            m.memory.store(target, z)?;
            Ok(Way::On)
        }
        Target::Shared(_) => {
            m.memory.store(target, z)?;
            Ok(Way::On)
        }
        Target::Nothing => Err(Halt::Stop(Stop::Form(known.whole_start(m.function, at)))),
    }
}

/// The result of a call is taken over by the caller's name.
fn take_result(
    known: &Known,
    m: &mut Machine,
    at: u32,
    name: Option<Name>,
    answer: Option<i64>,
) -> Result<Way, Halt>
    requires known { IsKnown known.now }
    ensures goes { Goes result (machine_of m.new) (result_by (source_in known.now.source) at name answer (top_of m.old) (map locals_of m.old.waits.items) (machine_of m.old)) }
    ensures waits { m.new.waits ≡ m.old.waits }
{
    match name {
        None => Ok(Way::On),
        Some(name) => match answer {
            None => Err(Halt::Stop(Stop::Form(known.call_start(m.function, at)))),
            Some(z) => store_result(known, m, at, name, z),
        },
    }
}

/// The end of a frame: the innermost call that waits goes on, with its result.
pub fn step_back(known: &Known, m: &mut Machine, wait: Wait) -> Result<Way, Halt>
    requires known { IsKnown known.now }
    ensures goes { Goes result (machine_of m.new) (returns (source_in known.now.source) wait (machine_of m.old)) }
    ensures waits { m.new.waits ≡ m.old.waits }
{
    let Wait {
        back: _,
        at,
        result: taker,
        function,
        own,
        answer,
    } = wait;
    let given = m.answer;
    m.memory.own = own;
    m.function = function;
    m.answer = answer;
    take_result(known, m, at, taker, given)
}
