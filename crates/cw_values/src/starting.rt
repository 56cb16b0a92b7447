//! How a run begins.

ghost use Rattle.std.specs.Prelude.{◌≡◌, List, [], map, None, IfOk, option_map, slice_get};
ghost use Rattle.cw_rights.specs.Policies.{PlainPolicy};
ghost use Rattle.cw_certs.specs.declared.moves.Move.{Move};
ghost use Rattle.cw_syntax.specs.Runnable.{IsRunnable};
ghost use Rattle.cw_value.specs.Machines.{function, globals, scope_in};
ghost use Rattle.cw_value.specs.Starts.{begun, main_cells, no_store, start_store};
ghost use Rattle.cw_slots.specs.Shown.{scope_of};
ghost use Rattle.cw_eval.specs.Shown.{memory_of};
ghost use Rattle.cw_starts.specs.Held.{item_at};
ghost use Rattle.cw_starts.specs.Sources.{source_in};
ghost use Rattle.cw_machine.specs.Knowing.{IsKnown};
ghost use Rattle.cw_values.specs.Running.{IsRunOf, entry_of};
ghost use Rattle.cw_values.specs.Stands.{plan};
ghost use Rattle.cw_values.specs.Starting.{BeginsMain, Begins};

use crate::running::Run;
use cw_core::{NoMemory, PointId};
use cw_eval::{Halt, Memory};
use cw_machine::{Known, Machine, given_cells, new_store};
use cw_slots::Scope;
use cw_starts::{Turning, begin, globals, no_store, start_store};
use cw_syntax::program::{Function, Item};
use cw_value::Values;
use std::collections::VecDeque;

/// How a run begins.
#[derive(Drop)]
pub enum Begun<'c> {
    /// At the entry of `main`, with these values.
    Main(Machine<'c>),
    /// It has ended in an initialiser at file scope.
    Ended(Values),
}

/// Where `main` begins.
pub fn entry(run: &Run) -> Option<PointId>
    ensures { result ≡ entry_of run.now }
{
    match run.graph.parts.get(run.graph.main as usize) {
        None => None,
        Some(part) => Some(part.entry),
    }
}

/// The scope of the file's declarations.
fn file_scope<'a, 's>(known: &Known<'a, 's>) -> Scope<'a, 's>
    requires known { IsKnown known.now }
    ensures { scope_of result ≡ scope_in (source_in known.now.source) None }
{
    let functions: &[Function] = &known.source.program.functions;
    known.scope(functions.len())
}

/// What `main` begins with: a parameter has the value that is handed in for its name.
fn first_cells(known: &Known, main: usize) -> Result<Vec<Option<i64>>, NoMemory>
    requires known { IsKnown known.now }
    ensures { IfOk result (λ cells. cells.items ≡ main_cells (source_in known.now.source) (function (source_in known.now.source) main)) }
{
    let functions = &known.source.program.functions;
    match functions.get(main) {
        None => Ok(Vec::new(known.source.alloc)),
        Some(function) => {
            let scope = file_scope(known);
            let cells = given_cells(&scope, &function.params)?;
            Ok(cells)
        }
    }
}

/// The values with which `main` begins, after these at file scope.
fn start_main<'c>(run: &Run, memory: Memory<'c>) -> Result<Machine<'c>, NoMemory>
    requires known { IsKnown run.now.known }
    ensures { (policy : PlainPolicy) (tries : List Move) → IsRunOf policy run.now → IsRunnable (plan policy (source_in run.now.known.source)) → IfOk result (λ m. BeginsMain policy run.now tries (memory_of memory.entry) m) }
{
    let alloc = run.known.source.alloc;
    let main = run.graph.main as usize;
    let cells = first_cells(&run.known, main)?;
    let own = new_store(alloc, run.known.names(main), &cells)?;
    let Memory {
        own: _,
        shared,
        calls,
        made,
    } = memory;
    Ok(Machine {
        memory: Memory {
            own,
            shared,
            calls,
            made,
        },
        function: main,
        answer: None,
        waits: VecDeque::new(alloc),
    })
}

/// The values at file scope before their turns.
fn first_memory<'c>(run: &Run, items: &[&Item], calls: &'c [i64]) -> Result<Memory<'c>, NoMemory>
    requires known { IsKnown run.now.known }
    requires items { map item_at items.now ≡ globals (source_in run.now.known.source).file }
    ensures { IfOk result (λ m. memory_of m ≡ record { own = no_store; shared = start_store (source_in run.now.known.source); calls = calls.now; made = [] }) }
{
    let alloc = run.known.source.alloc;
    let shared = start_store(&run.known.source, run.known.shared, items)?;
    Ok(Memory {
        own: no_store(alloc),
        shared,
        calls,
        made: Vec::new(alloc),
    })
}

/// How a run begins, over these answers of external calls: the turns of the declarations at file scope come first.
pub fn start<'c>(run: &Run, calls: &'c [i64]) -> Result<Begun<'c>, NoMemory>
    requires known { IsKnown run.now.known }
    ensures { (policy : PlainPolicy) (tries : List Move) → IsRunOf policy run.now → IsRunnable (plan policy (source_in run.now.known.source)) → IfOk result (λ start. Begins policy run.now tries (begun (source_in run.now.known.source) calls.now) start) }
{
    let alloc = run.known.source.alloc;
    let items = globals(alloc, run.known.source.program)?;
    let turning = Turning {
        source: run.known.source,
        scope: file_scope(&run.known),
        items: &items,
    };
    let mut memory = first_memory(run, &items, calls)?;
    match begin(&turning, &mut memory) {
        Ok(()) => {
            let main = start_main(run, memory)?;
            Ok(Begun::Main(main))
        }
        Err(Halt::Stop(stop)) => Ok(Begun::Ended(Values {
            made: memory.made,
            tried: 0,
            stop,
        })),
        Err(Halt::NoMemory) => Err(NoMemory),
    }
}
