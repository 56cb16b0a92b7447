//! The steps of a run, one after the other.

ghost use Rattle.std.specs.Prelude.{◌≡◌, IfOk};
ghost use Rattle.cw_rights.specs.Policies.{PlainPolicy};
ghost use Rattle.cw_value.specs.Runs.{Going};
ghost use Rattle.cw_starts.specs.Sources.{source_in};
ghost use Rattle.cw_machine.specs.Knowing.{IsKnown};
ghost use Rattle.cw_values.specs.Running.{IsRunOf};
ghost use Rattle.cw_values.specs.Stands.{EndsSo, StandsAt};

use crate::running::{Run, advance};
use cw_core::{NoMemory, PointId};
use cw_eval::Halt;
use cw_machine::Machine;
use cw_value::Stop;

/// The most steps of a program.
const MOST_STEPS: u32 = 1_000_000;

/// Steps until the program ends, stops, or has made its steps.
pub(crate) fn steps(run: &Run, m: &mut Machine, start: Option<PointId>) -> Result<Stop, NoMemory>
    requires known { IsKnown run.now.known }
    ensures { (policy : PlainPolicy) (g : Going) → IsRunOf policy run.now → StandsAt policy (source_in run.now.known.source) start m.old g → IfOk result (λ stop. EndsSo policy (source_in run.now.known.source) m.new g stop) }
{
    let mut point = start;
    for i in 0..MOST_STEPS {
        let _ = i;
        let Some(at) = point else {
            return Ok(Stop::Ended);
        };
        match advance(run, m, at) {
            Ok(step) => point = step.next,
            Err(Halt::Stop(stop)) => return Ok(stop),
            Err(Halt::NoMemory) => return Err(NoMemory),
        }
    }
    match point {
        None => Ok(Stop::Ended),
        Some(_) => Ok(Stop::Steps),
    }
}
