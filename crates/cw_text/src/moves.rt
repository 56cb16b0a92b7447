//! Moves by their names.

ghost use Rattle.std.specs.Prelude.{◌≡◌};
ghost use Rattle.cw_text.specs.Lines.{Reads};
ghost use Rattle.cw_text.specs.Moves.{move_name, IsWeavers, IsEnvironments};

use cw_certs::Move;

/// The name of a move. A stop has none.
pub fn move_name(by: Move) -> &'static str
    ensures { result.now ≡ move_name by }
{
    match by {
        Move::Skip => "skip",
        Move::Try => "try",
        Move::Grant => "grant",
        Move::Refuse => "refuse",
        Move::On => "on",
        Move::Left => "left",
        Move::Right => "right",
        Move::Opened => "opened",
        Move::Failed => "failed",
        Move::Stop => "",
    }
}

/// The move of the weaver whose name this is.
pub fn weavers_move(field: &[u8]) -> Option<Move>
    ensures { Reads IsWeavers move_name field.now result }
{
    match field {
        b"skip" => Some(Move::Skip),
        b"try" => Some(Move::Try),
        _ => None,
    }
}

/// The move of the environment whose name this is.
pub fn environments_move(field: &[u8]) -> Option<Move>
    ensures { Reads IsEnvironments move_name field.now result }
{
    match field {
        b"grant" => Some(Move::Grant),
        b"refuse" => Some(Move::Refuse),
        b"on" => Some(Move::On),
        b"left" => Some(Move::Left),
        b"right" => Some(Move::Right),
        b"opened" => Some(Move::Opened),
        b"failed" => Some(Move::Failed),
        _ => None,
    }
}
