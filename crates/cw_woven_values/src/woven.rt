//! The run of a woven program.

ghost use Rattle.std.specs.Prelude.{◌≡◌, None, Some, IfOk, IfErr};
ghost use Rattle.std.specs.List.{All};
ghost use Rattle.cw_rights.specs.Policies.{policy_of};
ghost use Rattle.cw_rights.specs.Valid.{IsValid};
ghost use Rattle.cw_syntax.specs.Trees.{file_of};
ghost use Rattle.cw_resolve.specs.Scenes.{names_of};
ghost use Rattle.cw_callgraph.specs.Fitting.{Fits};
ghost use Rattle.cw_points.specs.Graphs.{IsGraph};
ghost use Rattle.cw_source.specs.Read.{ReadsAs};
ghost use Rattle.cw_states.specs.States.{AreLists, lists_of};
ghost use Rattle.cw_product.specs.Product.{game_of};
ghost use Rattle.cw_product.specs.Uses.{uses_of};
ghost use Rattle.cw_game.specs.Conditions.{IsGoodTable};
ghost use Rattle.cw_value.specs.Expressions.{Memory};
ghost use Rattle.cw_value.specs.Starts.{begun, shape};
ghost use Rattle.cw_value.specs.Shown.{AreInOrder, IsAnswer, answers_of, values_of};
ghost use Rattle.cw_value.specs.Runs.{Ends, IsWovenRun, RunsFrom, going_start, most_steps};
ghost use Rattle.cw_starts.specs.Sources.{source_in};
ghost use Rattle.cw_machine.specs.Knowing.{IsKnown};
ghost use Rattle.cw_machine.specs.Shown.{machine_of};
ghost use Rattle.cw_values.specs.Faults.{IsShape};
ghost use Rattle.cw_values.specs.Running.{IsRunOf, entry_of};
ghost use Rattle.cw_values.specs.Starting.{BeginsMain};
ghost use Rattle.cw_woven_values.specs.Standing.{IsWoven, problem};
ghost use Rattle.cw_woven_values.specs.Beside.{AgreesWithPlain};

use crate::looping::steps;
use crate::stepping::Stand;
use crate::tries::Tries;
use cw_certs::{Move, WeaverCert};
use cw_core::{NoMemory, PointId};
use cw_machine::Machine;
use cw_product::Game;
use cw_run::Here;
use cw_starts::{Source, shape};
use cw_syntax::checked::Checked;
use cw_value::{Answers, Stop, ValueFault, Values};
use cw_values::{Begun, Run, entry, prepare, start};
use std::alloc::Global;

/// The run from the entry of `main` on, which is at this point.
fn run_from(
    run: &Run,
    game: &Game,
    table: &WeaverCert,
    tries: &[Move],
    main: Machine,
    point: PointId,
) -> Result<Values, NoMemory>
    requires known { IsKnown run.now.known }
    requires entry { entry_of run.now ≡ Some point }
    ensures { (w : IsWoven game.now (source_in run.now.known.source) table.now) (mem : Memory)
        → IsRunOf (policy_of game.now.states.policy) run.now
        → All IsAnswer tries.now
        → BeginsMain (policy_of game.now.states.policy) run.now tries.now mem main.entry
        → IfOk result (λ v. Ends (source_in run.now.known.source) (problem game.now (source_in run.now.known.source) table.now) (Some table.now) most_steps (going_start (source_in run.now.known.source) (problem game.now (source_in run.now.known.source) table.now) (Some table.now) tries.now mem) (values_of v)) }
{
    let (pos, state) = game.start();
    let here = Here {
        pos,
        state,
        mem: table.start(),
    };
    let mut m = main;
    let mut tries = Tries {
        left: tries,
        made: 0,
    };
    let stop = steps(run, game, table, &mut m, &mut tries, Stand { point, here })?;
    let Machine { memory, .. } = m;
    Ok(Values {
        made: memory.made,
        tried: tries.made,
        stop,
    })
}

/// The run of a program that has ended before its first step.
fn at_once(main: Machine) -> Values
    ensures { values_of result ≡ record { made = (machine_of main.entry).made; tried = 0; stop = Stop.Ended } }
{
    let Machine { memory, .. } = main;
    Values {
        made: memory.made,
        tried: 0,
        stop: Stop::Ended,
    }
}

/// The run from the entry of `main` on.
fn run_main(
    run: &Run,
    game: &Game,
    table: &WeaverCert,
    tries: &[Move],
    main: Machine,
) -> Result<Values, NoMemory>
    requires known { IsKnown run.now.known }
    ensures { (w : IsWoven game.now (source_in run.now.known.source) table.now) (mem : Memory)
        → IsRunOf (policy_of game.now.states.policy) run.now
        → All IsAnswer tries.now
        → BeginsMain (policy_of game.now.states.policy) run.now tries.now mem main.entry
        → IfOk result (λ v. Ends (source_in run.now.known.source) (problem game.now (source_in run.now.known.source) table.now) (Some table.now) most_steps (going_start (source_in run.now.known.source) (problem game.now (source_in run.now.known.source) table.now) (Some table.now) tries.now mem) (values_of v)) }
{
    match entry(run) {
        None => Ok(at_once(main)),
        Some(point) => run_from(run, game, table, tries, main, point),
    }
}

/// The run from its beginning.
fn run_all(
    run: &Run,
    game: &Game,
    table: &WeaverCert,
    tries: &[Move],
    calls: &[i64],
) -> Result<Values, NoMemory>
    requires known { IsKnown run.now.known }
    ensures { (w : IsWoven game.now (source_in run.now.known.source) table.now)
        → IsRunOf (policy_of game.now.states.policy) run.now
        → All IsAnswer tries.now
        → IfOk result (λ v. RunsFrom (source_in run.now.known.source) (problem game.now (source_in run.now.known.source) table.now) (Some table.now) tries.now (begun (source_in run.now.known.source) calls.now) (values_of v)) }
{
    match start(run, calls)? {
        Begun::Main(main) => run_main(run, game, table, tries, main),
        Begun::Ended(values) => Ok(values),
    }
}

/// The run of a woven program, over these answers: the external calls that it makes, in order, how many primitives it tries, and how it ends.
///
/// The game is one that was made for the program's graph and the policy, the policy fits the program, and the table meets the conditions of tables. So the
/// run makes the external calls of the source as it is, with the same arguments in the same order, and ends as it does, but for a stop right after a refusal,
/// where the policy allows that. The one error beside `Shape` is want of memory.
pub fn values_woven<'s>(
    alloc: Global,
    checked: &'s Checked<'s>,
    game: &Game,
    table: &WeaverCert,
    answers: &'s Answers,
) -> Result<Values, ValueFault>
    requires valid { IsValid (policy_of game.now.states.policy) }
    requires lists { AreLists (uses_of (policy_of game.now.states.policy) game.now.graph.nodes.items) (lists_of game.now.states) }
    requires reads { ReadsAs checked.now.source.now (file_of checked.now.program) }
    requires drawn { IsGraph (names_of (policy_of game.now.states.policy)) checked.now.source.now (file_of checked.now.program) game.now.graph }
    requires good { IsGoodTable (game_of game.now) table.now }
    requires fits { Fits checked.now.source.now (file_of checked.now.program) (policy_of game.now.states.policy) }
    requires in_order { AreInOrder (answers_of answers.now) }
    ensures run { IfOk result (λ values. IsWovenRun (policy_of game.now.states.policy) table.now checked.now.source.now (file_of checked.now.program) (answers_of answers.now) (values_of values)) }
    ensures shape { IfErr result (λ fault. IsShape checked.now.source.now (file_of checked.now.program) fault) }
    ensures both { IfOk result (λ _. shape checked.now.source.now (file_of checked.now.program) ≡ None) }
    ensures agrees { IfOk result (λ values. AgreesWithPlain (policy_of game.now.states.policy) checked.now.source.now (file_of checked.now.program) (answers_of answers.now) (values_of values)) }
{
    if let Some(stand) = shape(alloc, checked.source, &checked.program)? {
        return Err(ValueFault::Shape(stand));
    }
    let source = Source {
        alloc,
        bytes: checked.source,
        program: &checked.program,
        given: &answers.names,
    };
    let prepared = prepare(alloc, checked, game.policy())?;
    let run = prepared.run(source, game.graph());
    let values = run_all(&run, game, table, &answers.tries, &answers.calls)?;
    Ok(values)
}
