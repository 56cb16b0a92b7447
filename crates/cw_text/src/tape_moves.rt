//! Moves by their names.

ghost use Rattle.std.specs.Prelude.{◌≡◌};
ghost use Rattle.cw_text.specs.Lines.{Reads};
ghost use Rattle.cw_text.specs.Moves.{move_name};
ghost use Rattle.cw_text.specs.Tapes.{is_white, IsIn};

use crate::{environments_move, weavers_move};
use cw_certs::Move;

/// Whether a byte is space, TAB, LF, VT, FF or CR.
pub(crate) fn is_white(byte: u8) -> bool
    ensures { result ≡ is_white byte }
{
    byte == b' ' || (9 <= byte && byte <= 13)
}

/// The move of a play's tape, or of a run's, whose name this is.
pub(crate) fn move_of(field: &[u8], play: bool) -> Option<Move>
    ensures { Reads (IsIn play) move_name field.now result }
{
    if play {
        weavers_move(field)
    } else {
        environments_move(field)
    }
}
