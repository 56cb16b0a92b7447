//! The lines of an audit's text.

ghost use Rattle.std.specs.Prelude.{◌≡◌, [], IfSome};
ghost use Rattle.cw_text.specs.Lines.{Reads};
ghost use Rattle.cw_text.specs.KindsByName.{kind_by};
ghost use Rattle.cw_audit_text.specs.TextLines.{line_fields, line_text, FitsLine};
ghost use Rattle.cw_audit_text.specs.Kinds.{kind_field, word_kinds, rest_fields, FitsKind, IsOf};
ghost use Rattle.cw_audit_text.specs.declared.text_line.LineKind.TheVariants as kind;

use cw_certs::Move;
use cw_text::{Fields, environments_move};

/// What a line says: the head; the number of states; that nothing violates, or after how many moves something does; a move; a group,
/// by its function, its state and how many moves it is from the start; a row, by its position, its state and how many moves it is
/// from the group's entry; the end.
#[derive(Clone, Copy, Drop)]
pub enum TextLine {
    Head,
    States(u16),
    Meets,
    Violates(u32),
    Go(Move),
    In(u16, u16, u32),
    At(u32, u16, u32),
    End,
}

/// What a line says, without its numbers.
#[derive(Clone, Copy, Drop)]
enum LineKind {
    Head,
    States,
    Meets,
    Violates,
    Go(Move),
    In,
    At,
    End,
}

/// What a line without its LF says, where it is one of these.
pub(crate) fn read_line(line: &[u8]) -> Option<TextLine>
    ensures { Reads FitsLine line_text line.now result }
{
    let mut fields = Fields::of(line, b' ');
    take_line(&mut fields)
}

/// What a line says, by its fields.
fn take_line(fields: &mut Fields) -> Option<TextLine>
    ensures { Reads FitsLine line_fields fields.old result }
{
    let Some(field) = fields.take() else {
        return None;
    };
    let Some(kind) = kind_of(field) else {
        return None;
    };
    read_as(kind, fields)
}

/// What a line says whose first field this is.
#[tactic(auto, using(crate::proofs::KindWords::word_kind, crate::proofs::KindWords::move_kind, crate::proofs::KindWords::no_kind))]
fn kind_of(field: &[u8]) -> Option<LineKind>
    ensures { Reads FitsKind kind_field field.now result }
{
    match word_kind(field) {
        Some(kind) => Some(kind),
        None => Some(LineKind::Go(environments_move(field)?)),
    }
}

/// The same where the field is no move's name.
fn word_kind(field: &[u8]) -> Option<LineKind>
    ensures { result ≡ kind_by word_kinds field.now }
{
    match field {
        b"in" => Some(LineKind::In),
        b"at" => Some(LineKind::At),
        b"capweave" => Some(LineKind::Head),
        b"states" => Some(LineKind::States),
        b"meets" => Some(LineKind::Meets),
        b"violates" => Some(LineKind::Violates),
        b"end" => Some(LineKind::End),
        _ => None,
    }
}

/// What a line of this kind says, by the fields behind its first one.
fn read_as(kind: LineKind, fields: &mut Fields) -> Option<TextLine>
    requires named { FitsKind kind }
    ensures { Reads (IsOf kind) rest_fields fields.old result }
{
    match kind {
        LineKind::Head => read_head(fields),
        LineKind::States => read_states(fields),
        LineKind::Meets => read_meets(fields),
        LineKind::Violates => read_violates(fields),
        LineKind::Go(by) => read_go(by, fields),
        LineKind::In => read_in(fields),
        LineKind::At => read_at(fields),
        LineKind::End => read_end(fields),
    }
}

/// `audit 1`, behind `capweave`.
fn read_head(fields: &mut Fields) -> Option<TextLine>
    ensures { Reads (IsOf kind.Head) rest_fields fields.old result }
{
    let audit = fields.take()?;
    let format = fields.take()?;
    if audit == b"audit".as_slice() && format == b"1".as_slice() && fields.is_done() {
        Some(TextLine::Head)
    } else {
        None
    }
}

/// How many states the game has.
fn read_states(fields: &mut Fields) -> Option<TextLine>
    ensures { Reads (IsOf kind.States) rest_fields fields.old result }
{
    let states = fields.take_u16()?;
    if fields.is_done() {
        Some(TextLine::States(states))
    } else {
        None
    }
}

/// Nothing stands behind `meets`.
fn read_meets(fields: &Fields) -> Option<TextLine>
    ensures { Reads (IsOf kind.Meets) rest_fields fields.now result }
{
    if fields.is_done() {
        Some(TextLine::Meets)
    } else {
        None
    }
}

/// The distance, in moves.
fn read_violates(fields: &mut Fields) -> Option<TextLine>
    ensures { Reads (IsOf kind.Violates) rest_fields fields.old result }
{
    let distance = fields.take_u32()?;
    if fields.is_done() {
        Some(TextLine::Violates(distance))
    } else {
        None
    }
}

/// Nothing stands behind the name of a move.
fn read_go(by: Move, fields: &Fields) -> Option<TextLine>
    requires named { FitsKind (kind.Go by) }
    ensures { Reads (IsOf (kind.Go by)) rest_fields fields.now result }
{
    if fields.is_done() {
        Some(TextLine::Go(by))
    } else {
        None
    }
}

/// The head of a group: its function, the state in which that is entered, and the moves from the start up to there.
fn read_in(fields: &mut Fields) -> Option<TextLine>
    ensures { Reads (IsOf kind.In) rest_fields fields.old result }
{
    let function = fields.take_u16()?;
    let entered = fields.take_u16()?;
    let reach = fields.take_u32()?;
    if fields.is_done() {
        Some(TextLine::In(function, entered, reach))
    } else {
        None
    }
}

/// A row: its position, its state, and the moves from its group's entry.
fn read_at(fields: &mut Fields) -> Option<TextLine>
    ensures { Reads (IsOf kind.At) rest_fields fields.old result }
{
    let pos = fields.take_u32()?;
    let state = fields.take_u16()?;
    let inside = fields.take_u32()?;
    if fields.is_done() {
        Some(TextLine::At(pos, state, inside))
    } else {
        None
    }
}

/// Nothing stands behind `end`.
fn read_end(fields: &Fields) -> Option<TextLine>
    ensures { Reads (IsOf kind.End) rest_fields fields.now result }
{
    if fields.is_done() {
        Some(TextLine::End)
    } else {
        None
    }
}
