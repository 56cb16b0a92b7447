//! What a row does, by its field.

ghost use Rattle.cw_text.specs.Lines.{Reads};
ghost use Rattle.cw_strategy_text.specs.Fields.{kind_field, FitsKind};

use cw_certs::Move;
use cw_text::environments_move;

/// What a row does, without its numbers.
#[derive(Clone, Copy, Drop)]
pub(crate) enum RowKind {
    Bad,
    Out,
    Both,
    Go(Move),
    Into,
}

/// What a row does whose field this is.
pub(crate) fn kind_of(field: &[u8]) -> Option<RowKind>
    ensures { Reads FitsKind kind_field field.now result }
{
    match field {
        b"bad" => Some(RowKind::Bad),
        b"out" => Some(RowKind::Out),
        b"both" => Some(RowKind::Both),
        b"into" => Some(RowKind::Into),
        _ => Some(RowKind::Go(environments_move(field)?)),
    }
}
