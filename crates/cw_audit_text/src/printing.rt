//! Audits written.

ghost use Rattle.std.specs.Prelude.{◌≡◌, ◌++◌, ◌∷◌, [], map};
ghost use Rattle.std.specs.List.{flat_map};
ghost use Rattle.cw_io.specs.Causes.{HasCause};
ghost use Rattle.cw_io.specs.Pieces.{Puts};
ghost use Rattle.cw_io.specs.Written.{Follows};
ghost use Rattle.cw_audit_table.specs.Tables.{row_of, group_of, audit_of};
ghost use Rattle.cw_audit_text.specs.declared.text_line.TextLine.TheVariants.{Go, In, At};
ghost use Rattle.cw_audit_text.specs.TextLines.{whole_line};
ghost use Rattle.cw_audit_text.specs.AuditText.{verdict_line, row_line, group_lines, whole_lines, audit_text};

use cw_audit_table::{AuditTable, Group};
use cw_certs::Move;
use cw_core::{PosId, StateId};
use cw_io::{Sink, SinkFault, Writer};
use cw_text::move_name;

/// Puts the text of an audit piece by piece. After a fault of the sink a front of it is put, and nothing after the fault.
///
/// It is read again where each move is one of the environment's, and none stands without a distance (`read_audit`).
pub fn print_audit<S: Sink>(table: &AuditTable, out: &mut S) -> Result<(), SinkFault>
    ensures bytes { Puts (S.taken out.old) (S.taken out.new) (audit_text (audit_of table.now)) result }
    ensures failed { HasCause SinkFault.Failed (S.faults out.old) (S.faults out.new) result }
    ensures refused { HasCause SinkFault.NoMemory (S.refused out.old) (S.refused out.new) result }
{
    let mut writer = Writer::begin(out);
    put_audit(table, &mut writer, out);
    writer.finish(out)
}

/// Appends the text of an audit.
pub fn put_audit<S: Sink>(table: &AuditTable, writer: &mut Writer<S>, out: &mut S)
    requires follows { Follows S.taken S.faults S.refused writer.old out.old }
    ensures text { writer.new.text ≡ writer.old.text ++ audit_text (audit_of table.now) }
    ensures begun { writer.new.begun ≡ writer.old.begun }
    ensures follows { Follows S.taken S.faults S.refused writer.new out.new }
{
    writer.put(b"capweave audit 1\nstates ", out);
    writer.put_number(u64::from(table.states), out);
    writer.put(b"\n", out);
    put_verdict(table.distance, writer, out);
    put_moves(&table.moves, writer, out);
    put_groups(&table.groups, writer, out);
    writer.put(b"end\n", out);
}

/// Appends the line of the verdict.
fn put_verdict<S: Sink>(distance: Option<u32>, writer: &mut Writer<S>, out: &mut S)
    requires follows { Follows S.taken S.faults S.refused writer.old out.old }
    ensures text { writer.new.text ≡ writer.old.text ++ verdict_line distance }
    ensures begun { writer.new.begun ≡ writer.old.begun }
    ensures follows { Follows S.taken S.faults S.refused writer.new out.new }
{
    match distance {
        None => writer.put(b"meets\n", out),
        Some(distance) => {
            writer.put(b"violates ", out);
            writer.put_number(u64::from(distance), out);
            writer.put(b"\n", out);
        }
    }
}

/// Appends a line for each move.
fn put_moves<S: Sink>(moves: &[Move], writer: &mut Writer<S>, out: &mut S)
    requires follows { Follows S.taken S.faults S.refused writer.old out.old }
    ensures text { writer.new.text ≡ writer.old.text ++ whole_lines (map Go moves.now) }
    ensures begun { writer.new.begun ≡ writer.old.begun }
    ensures follows { Follows S.taken S.faults S.refused writer.new out.new }
{
    for by in moves {
        put_move(*by, writer, out);
    }
}

/// Appends a move's line.
fn put_move<S: Sink>(by: Move, writer: &mut Writer<S>, out: &mut S)
    requires follows { Follows S.taken S.faults S.refused writer.old out.old }
    ensures text { writer.new.text ≡ writer.old.text ++ whole_line (Go by) }
    ensures begun { writer.new.begun ≡ writer.old.begun }
    ensures follows { Follows S.taken S.faults S.refused writer.new out.new }
{
    writer.put(move_name(by).as_bytes(), out);
    writer.put(b"\n", out);
}

/// Appends the lines of each group.
fn put_groups<S: Sink>(groups: &[Group], writer: &mut Writer<S>, out: &mut S)
    requires follows { Follows S.taken S.faults S.refused writer.old out.old }
    ensures text { writer.new.text ≡ writer.old.text ++ whole_lines (flat_map group_lines (map group_of groups.now)) }
    ensures begun { writer.new.begun ≡ writer.old.begun }
    ensures follows { Follows S.taken S.faults S.refused writer.new out.new }
{
    for group in groups {
        put_group(group, writer, out);
    }
}

/// Appends the lines of a group.
fn put_group<S: Sink>(group: &Group, writer: &mut Writer<S>, out: &mut S)
    requires follows { Follows S.taken S.faults S.refused writer.old out.old }
    ensures text { writer.new.text ≡ writer.old.text ++ whole_lines (group_lines (group_of group.now)) }
    ensures begun { writer.new.begun ≡ writer.old.begun }
    ensures follows { Follows S.taken S.faults S.refused writer.new out.new }
{
    put_in(group.function, group.entered, group.reach, writer, out);
    put_rows(&group.rows, writer, out);
}

/// Appends a group's own line.
fn put_in<S: Sink>(function: u16, entered: StateId, reach: u32, writer: &mut Writer<S>, out: &mut S)
    requires follows { Follows S.taken S.faults S.refused writer.old out.old }
    ensures text { writer.new.text ≡ writer.old.text ++ whole_line (In function entered.0 reach) }
    ensures begun { writer.new.begun ≡ writer.old.begun }
    ensures follows { Follows S.taken S.faults S.refused writer.new out.new }
{
    writer.put(b"in ", out);
    writer.put_number(u64::from(function), out);
    writer.put(b" ", out);
    writer.put_number(u64::from(entered.0), out);
    writer.put(b" ", out);
    writer.put_number(u64::from(reach), out);
    writer.put(b"\n", out);
}

/// Appends a line for each row.
fn put_rows<S: Sink>(rows: &[(PosId, StateId, u32)], writer: &mut Writer<S>, out: &mut S)
    requires follows { Follows S.taken S.faults S.refused writer.old out.old }
    ensures text { writer.new.text ≡ writer.old.text ++ whole_lines (map row_line (map row_of rows.now)) }
    ensures begun { writer.new.begun ≡ writer.old.begun }
    ensures follows { Follows S.taken S.faults S.refused writer.new out.new }
{
    for row in rows {
        put_row(*row, writer, out);
    }
}

/// Appends a row's line.
fn put_row<S: Sink>(row: (PosId, StateId, u32), writer: &mut Writer<S>, out: &mut S)
    requires follows { Follows S.taken S.faults S.refused writer.old out.old }
    ensures text { writer.new.text ≡ writer.old.text ++ whole_line (row_line (row_of row)) }
    ensures begun { writer.new.begun ≡ writer.old.begun }
    ensures follows { Follows S.taken S.faults S.refused writer.new out.new }
{
    writer.put(b"at ", out);
    writer.put_number(u64::from(row.0.0), out);
    writer.put(b" ", out);
    writer.put_number(u64::from(row.1.0), out);
    writer.put(b" ", out);
    writer.put_number(u64::from(row.2), out);
    writer.put(b"\n", out);
}
