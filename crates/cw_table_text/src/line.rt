//! The line of a row.

ghost use Rattle.std.specs.Prelude.{◌≡◌, codes, option_map};
ghost use Rattle.cw_text.specs.Lines.{Reads};
ghost use Rattle.cw_text.specs.KindsByName.{kind_by};
ghost use Rattle.cw_table_text.specs.Grammar.{Fits};
ghost use Rattle.cw_table_text.specs.Rows.{row_text};
ghost use Rattle.cw_table_text.specs.Working.{IsCalled, TakesNamed, kind_name, row_names};

use crate::fields::{
    take_after, take_back, take_into, take_live, take_memory, take_opened, take_try,
};
use crate::row::Row;
use cw_text::{Fields, cut};

/// What a row is, without its fields.
#[derive(Clone, Copy, Drop)]
enum RowKind {
    Memory,
    Live,
    Try,
    At,
    Opened,
    Closed,
    Into,
    Back,
}

/// The name before the first `(` of a line, and what stands between that and a `)` at its end.
pub(crate) fn name_and_inner(line: &[u8]) -> Option<(&[u8], &[u8])>
    ensures { IsCalled line.now (option_map (λ parts. (parts.0.now, parts.1.now)) result) }
{
    let (name, rest) = cut(line, b'(')?;
    let (last, inner) = rest.split_last()?;
    if *last != b')' {
        return None;
    }
    Some((name, inner))
}

/// The row whose fields stand first among these.
#[tactic(auto, using(crate::proofs::RowNames::named_row, crate::proofs::RowNames::no_row))]
fn take_row(name: &[u8], fields: &mut Fields, format: u8) -> Option<Row>
    ensures { TakesNamed format name.now fields.old fields.new result }
{
    let kind = kind_of(name)?;
    take_as(kind, fields, format)
}

/// The kind of the rows that begin with this name.
fn kind_of(name: &[u8]) -> Option<RowKind>
    ensures { result ≡ kind_by row_names name.now }
{
    match name {
        b"CW_MEM" => Some(RowKind::Memory),
        b"CW_LIVE" => Some(RowKind::Live),
        b"CW_TRY" => Some(RowKind::Try),
        b"CW_AT" => Some(RowKind::At),
        b"CW_OPENED" => Some(RowKind::Opened),
        b"CW_CLOSED" => Some(RowKind::Closed),
        b"CW_INTO" => Some(RowKind::Into),
        b"CW_BACK" => Some(RowKind::Back),
        _ => None,
    }
}

/// The row of this kind whose fields stand first among these.
fn take_as(kind: RowKind, fields: &mut Fields, format: u8) -> Option<Row>
    ensures { TakesNamed format (kind_name kind) fields.old fields.new result }
{
    match kind {
        RowKind::Memory => memory_row(fields, format),
        RowKind::Live => live_row(fields, format),
        RowKind::Try => try_row(fields, format),
        RowKind::At => at_row(fields, format),
        RowKind::Opened => opened_row(fields, format),
        RowKind::Closed => closed_row(fields, format),
        RowKind::Into => into_row(fields, format),
        RowKind::Back => back_row(fields, format),
    }
}

/// A row of `CW_MEM` behind its name.
fn memory_row(fields: &mut Fields, format: u8) -> Option<Row>
    ensures { TakesNamed format (codes "CW_MEM") fields.old fields.new result }
{
    let (number, memory) = take_memory(fields, format)?;
    Some(Row::Memory(number, memory))
}

/// A row of `CW_LIVE` behind its name.
fn live_row(fields: &mut Fields, _format: u8) -> Option<Row>
    ensures { TakesNamed _format (codes "CW_LIVE") fields.old fields.new result }
{
    Some(Row::Live(take_live(fields)?))
}

/// A row of `CW_TRY` behind its name.
fn try_row(fields: &mut Fields, _format: u8) -> Option<Row>
    ensures { TakesNamed _format (codes "CW_TRY") fields.old fields.new result }
{
    Some(Row::Try(take_try(fields)?))
}

/// A row of `CW_AT` behind its name.
fn at_row(fields: &mut Fields, _format: u8) -> Option<Row>
    ensures { TakesNamed _format (codes "CW_AT") fields.old fields.new result }
{
    Some(Row::At(take_after(fields)?))
}

/// A row of `CW_OPENED` behind its name.
fn opened_row(fields: &mut Fields, _format: u8) -> Option<Row>
    ensures { TakesNamed _format (codes "CW_OPENED") fields.old fields.new result }
{
    Some(Row::Opened(take_opened(fields)?))
}

/// A row of `CW_CLOSED` behind its name.
fn closed_row(fields: &mut Fields, _format: u8) -> Option<Row>
    ensures { TakesNamed _format (codes "CW_CLOSED") fields.old fields.new result }
{
    Some(Row::Closed(take_after(fields)?))
}

/// A row of `CW_INTO` behind its name.
fn into_row(fields: &mut Fields, _format: u8) -> Option<Row>
    ensures { TakesNamed _format (codes "CW_INTO") fields.old fields.new result }
{
    Some(Row::Into(take_into(fields)?))
}

/// A row of `CW_BACK` behind its name.
fn back_row(fields: &mut Fields, _format: u8) -> Option<Row>
    ensures { TakesNamed _format (codes "CW_BACK") fields.old fields.new result }
{
    Some(Row::Back(take_back(fields)?))
}

/// The row of a line; none where the line is that of no row.
pub(crate) fn read_row(line: &[u8], format: u8) -> Option<Row>
    ensures { Reads (Fits format) (row_text format) line.now result }
{
    let (name, inner) = name_and_inner(line)?;
    let mut fields = Fields::of(inner, b',');
    let row = take_row(name, &mut fields, format)?;
    if !fields.is_done() {
        return None;
    }
    Some(row)
}
