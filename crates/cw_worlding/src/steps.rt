//! Steps as a file of a command.

ghost use Rattle.std.specs.Prelude.{◌≤◌, ℕ, List, length, IfErr, IfOk};
ghost use Rattle.cw_rights.specs.Policies.{PlainPolicy};
ghost use Rattle.cw_steps.specs.Steps.{Spells};
ghost use Rattle.cw_stages.specs.Stops.{IsStop};
ghost use Rattle.cw_worlding.specs.Worlding.{IsStepsRefusal};

use cw_core::limits::FILE_BYTES_IN_FORMAT_2;
use cw_stages::Stop;
use cw_steps::{Step, StepsFault, read_steps};
use std::alloc::Global;

/// The steps of a text; or its first line that is none.
pub(crate) fn steps_in(alloc: Global, text: &[u8]) -> Result<Vec<Step>, Stop>
    requires { length text.now ≤ FILE_BYTES_IN_FORMAT_2 }
    ensures spells { IfOk result (λ steps. Spells text.now steps.items) }
    ensures stop { IfErr result (λ stop. (whole : PlainPolicy) → (source : List ℕ) → IsStop whole source (IsStepsRefusal text.now) stop) }
{
    match read_steps(alloc, text) {
        Ok(steps) => Ok(steps),
        Err(StepsFault::Line(line)) => Err(Stop::Steps(line)),
        Err(StepsFault::NoMemory) => Err(Stop::NoMemory),
    }
}
