//! The run of a source as it is, without primitives.

ghost use Rattle.std.specs.Prelude.{◌≡◌, List, None, IfOk, IfErr};
ghost use Rattle.cw_rights.specs.Policies.{PlainPolicy, policy_of};
ghost use Rattle.cw_certs.specs.declared.moves.Move.{Move};
ghost use Rattle.cw_syntax.specs.Trees.{file_of};
ghost use Rattle.cw_syntax.specs.Plans.{plan_of};
ghost use Rattle.cw_syntax.specs.Runnable.{IsRunnable};
ghost use Rattle.cw_resolve.specs.Scenes.{names_of};
ghost use Rattle.cw_points.specs.Graphs.{IsGraph};
ghost use Rattle.cw_model.specs.Boards.{problem_of};
ghost use Rattle.cw_value.specs.Starts.{begun, shape};
ghost use Rattle.cw_value.specs.Shown.{answers_of, values_of};
ghost use Rattle.cw_value.specs.Runs.{Going, Ends, IsPlainRun, RunsFrom, most_steps};
ghost use Rattle.cw_starts.specs.Sources.{source_in};
ghost use Rattle.cw_machine.specs.Knowing.{IsKnown};
ghost use Rattle.cw_values.specs.Faults.{IsShape};
ghost use Rattle.cw_values.specs.Running.{IsRunOf, entry_of};
ghost use Rattle.cw_values.specs.Stands.{StandsAt, plan};

use crate::looping::steps;
use crate::prepared::prepare;
use crate::running::Run;
use crate::starting::{Begun, entry, start};
use cw_core::NoMemory;
use cw_machine::Machine;
use cw_points::Graph;
use cw_rights::Policy;
use cw_starts::{Source, shape};
use cw_syntax::checked::Checked;
use cw_value::{Answers, ValueFault, Values};
use std::alloc::Global;

/// The run from the entry of `main` on.
fn run_main(run: &Run, main: Machine) -> Result<Values, NoMemory>
    requires known { IsKnown run.now.known }
    ensures { (policy : PlainPolicy) (g : Going) → IsRunOf policy run.now → StandsAt policy (source_in run.now.known.source) (entry_of run.now) main.entry g → IfOk result (λ v. Ends (source_in run.now.known.source) (problem_of policy (source_in run.now.known.source).bytes (source_in run.now.known.source).file) None most_steps g (values_of v)) }
{
    let mut m = main;
    let stop = steps(run, &mut m, entry(run))?;
    let Machine { memory, .. } = m;
    Ok(Values {
        made: memory.made,
        tried: 0,
        stop,
    })
}

/// The run from its beginning.
fn run_all(run: &Run, calls: &[i64]) -> Result<Values, NoMemory>
    requires known { IsKnown run.now.known }
    ensures { (policy : PlainPolicy) (tries : List Move) → IsRunOf policy run.now → IsRunnable (plan policy (source_in run.now.known.source)) → IfOk result (λ v. RunsFrom (source_in run.now.known.source) (problem_of policy (source_in run.now.known.source).bytes (source_in run.now.known.source).file) None tries (begun (source_in run.now.known.source) calls.now) (values_of v)) }
{
    match start(run, calls)? {
        Begun::Main(main) => run_main(run, main),
        Begun::Ended(values) => Ok(values),
    }
}

/// The run of a source as it is, over these answers: the external calls that it makes, in order, and how it ends.
///
/// Nothing is asked of the answers. The one error beside `Shape` is want of memory.
pub fn values_plain<'s>(
    alloc: Global,
    checked: &'s Checked<'s>,
    graph: &Graph,
    policy: &Policy,
    answers: &'s Answers,
) -> Result<Values, ValueFault>
    requires drawn { IsGraph (names_of (policy_of policy.now)) checked.now.source.now (file_of checked.now.program) graph.now }
    requires runnable { IsRunnable (plan_of (names_of (policy_of policy.now)) checked.now.source.now (file_of checked.now.program)) }
    ensures run { IfOk result (λ values. IsPlainRun (policy_of policy.now) checked.now.source.now (file_of checked.now.program) (answers_of answers.now) (values_of values)) }
    ensures shape { IfErr result (λ fault. IsShape checked.now.source.now (file_of checked.now.program) fault) }
    ensures both { IfOk result (λ _. shape checked.now.source.now (file_of checked.now.program) ≡ None) }
{
    if let Some(place) = shape(alloc, checked.source, &checked.program)? {
        return Err(ValueFault::Shape(place));
    }
    let source = Source {
        alloc,
        bytes: checked.source,
        program: &checked.program,
        given: &answers.names,
    };
    let prepared = prepare(alloc, checked, policy)?;
    let run = prepared.run(source, graph);
    let values = run_all(&run, &answers.calls)?;
    Ok(values)
}
