//! Tapes as files of a command.

ghost use Rattle.std.specs.Prelude.{◌≤◌, ℕ, List, length, IfErr, IfOk};
ghost use Rattle.cw_rights.specs.Policies.{PlainPolicy};
ghost use Rattle.cw_text.specs.Tapes.{IsTape};
ghost use Rattle.cw_stages.specs.Stops.{IsStop};
ghost use Rattle.cw_stages.specs.Tapes.{IsTapeRefusal};

use crate::stop::Stop;
use cw_certs::Move;
use cw_core::limits::FILE_BYTES_IN_FORMAT_2;
use cw_text::{TextFault, read_tape};
use std::alloc::Global;

/// The moves of a tape, a play's or a run's; or its first line that has another entry.
pub fn moves_of(alloc: Global, text: &[u8], play: bool) -> Result<Vec<Move>, Stop>
    requires { length text.now ≤ FILE_BYTES_IN_FORMAT_2 }
    ensures moves { IfOk result (λ moves. IsTape play text.now moves.items) }
    ensures stop { IfErr result (λ stop. (whole : PlainPolicy) → (source : List ℕ) → IsStop whole source (IsTapeRefusal play text.now) stop) }
{
    match read_tape(alloc, text, play) {
        Ok(moves) => Ok(moves),
        Err(TextFault::Line(number)) => Err(Stop::Tape(number)),
        Err(TextFault::NoMemory) => Err(Stop::NoMemory),
        Err(_) => unreachable!(),
    }
}
