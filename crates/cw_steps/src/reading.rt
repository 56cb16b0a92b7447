//! Steps read.

ghost use Rattle.std.specs.Prelude.{◌≤◌, length, IfOk, IfErr};
ghost use Rattle.cw_steps.specs.Steps.{Spells};
ghost use Rattle.cw_steps.specs.Faults.{IsCause};

use crate::fault::StepsFault;
use crate::step::{Step, next_step};
use cw_core::limits::FILE_BYTES_IN_FORMAT_2;
use std::alloc::Global;

/// The steps whose text this is: a line for each, `PROCESS MOVE`, with its LF. Otherwise Line with the number of the first line that
/// doesn't fit, from 1. A text has at most 33,554,432 bytes.
pub fn read_steps(alloc: Global, text: &[u8]) -> Result<Vec<Step>, StepsFault>
    requires { length text.now ≤ FILE_BYTES_IN_FORMAT_2 }
    ensures spells { IfOk result (λ steps. Spells text.now steps.items) }
    ensures fault { IfErr result (λ fault. IsCause text.now fault) }
{
    let mut steps = Vec::new(alloc);
    let mut rest = text;
    let mut number: u32 = 1;
    'lines: while !rest.is_empty() {
        let Some((step, more)) = next_step(rest) else {
            return Err(StepsFault::Line(number));
        };
        steps.push(step)?;
        rest = more;
        number += 1;
    }
    Ok(steps)
}
