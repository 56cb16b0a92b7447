//! Tapes read.

ghost use Rattle.std.specs.Prelude.{◌≤◌, length, IfErr, IfOk, OnOk};
ghost use Rattle.cw_text.specs.Tapes.{fields, IsTape, IsFault};
ghost use Rattle.cw_text.specs.TapeLines.{Adds, IsLineFault};

use crate::TextFault;
use crate::tape_moves::{is_white, move_of};
use cw_certs::Move;
use cw_core::limits::FILE_BYTES_IN_FORMAT_2;
use std::alloc::Global;

/// The moves of a tape, a play's or a run's: fields with white space between, each the name of a move. Otherwise Line with the number
/// of the first line that has another field, counted from 1 by LF. A text has at most 33,554,432 bytes.
pub fn read_tape(alloc: Global, text: &[u8], play: bool) -> Result<Vec<Move>, TextFault>
    requires { length text.now ≤ FILE_BYTES_IN_FORMAT_2 }
    ensures moves { IfOk result (λ moves. IsTape play text.now moves.items) }
    ensures fault { IfErr result (λ fault. IsFault play text.now fault) }
{
    let mut moves = Vec::new(alloc);
    let mut number = 0;
    for line in text.split(|byte| *byte == b'\n') {
        number += 1;
        read_line(line, number, play, &mut moves)?;
    }
    Ok(moves)
}

/// Appends the moves of the line with a number. Where it has another field, or memory is wanting, what was appended is left.
fn read_line(line: &[u8], number: u32, play: bool, moves: &mut Vec<Move>) -> Result<(), TextFault>
    ensures moves { OnOk result (Adds play (fields line.now) moves.old.items moves.new.items) }
    ensures fault { IfErr result (λ fault. IsLineFault play line.now number fault) }
{
    let pieces = line.split(|byte| is_white(*byte));
    for field in pieces.filter(|piece| !piece.is_empty()) {
        let Some(by) = move_of(field, play) else {
            return Err(TextFault::Line(number));
        };
        moves.push(by)?;
    }
    Ok(())
}
