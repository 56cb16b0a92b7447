//! The text of a table.

ghost use Rattle.std.specs.Prelude.{◌≡◌, ℕ, ◌++◌, ◌∷◌, [], List, codes};
ghost use Rattle.std.specs.Fmt.{decimal};
ghost use Rattle.std.specs.List.{flat_map};
ghost use Rattle.cw_io.specs.Causes.{HasCause};
ghost use Rattle.cw_io.specs.Pieces.{Puts};
ghost use Rattle.cw_io.specs.Written.{Follows};
ghost use Rattle.cw_rights.specs.Policies.{policy_of};
ghost use Rattle.cw_text.specs.Lines.{line};
ghost use Rattle.cw_text.specs.TableText.{answer, mode, live_fields, try_fields, after_fields, opened_fields, into_fields, back_fields};
ghost use Rattle.cw_table_text.specs.Rows.{called, memories, memory_fields};
ghost use Rattle.cw_table_text.specs.TablesText.{table_text, tables_text, text_of};
ghost use Rattle.cw_table_text.specs.Working.{row_lines};

use cw_certs::{AtRow, BackRow, IntoRow, OpenRow, TryRow, WeaverCert};
use cw_core::{MemId, PosId, StateId, StateSet};
use cw_io::{Sink, SinkFault, Writer};
use cw_rights::Policy;
use cw_text::{put_limits, put_set};

/// Appends a number and a separator.
fn put_number<S: Sink>(number: u64, separator: u8, writer: &mut Writer<S>, out: &mut S)
    requires follows { Follows S.taken S.faults S.refused writer.old out.old }
    ensures text { writer.new.text ≡ writer.old.text ++ (decimal number ++ separator ∷ []) }
    ensures begun { writer.new.begun ≡ writer.old.begun }
    ensures follows { Follows S.taken S.faults S.refused writer.new out.new }
{
    writer.put_number(number, out);
    writer.put(&[separator], out);
}

/// Appends a number of 32 bits and a separator.
fn put_field<S: Sink>(number: u32, separator: u8, writer: &mut Writer<S>, out: &mut S)
    requires follows { Follows S.taken S.faults S.refused writer.old out.old }
    ensures text { writer.new.text ≡ writer.old.text ++ (decimal number ++ separator ∷ []) }
    ensures begun { writer.new.begun ≡ writer.old.begun }
    ensures follows { Follows S.taken S.faults S.refused writer.new out.new }
{
    put_number(u64::from(number), separator, writer, out);
}

/// Appends a memory, or `CW_NONE` for an answer that never comes.
fn put_memory_or_none<S: Sink>(after: Option<MemId>, writer: &mut Writer<S>, out: &mut S)
    requires follows { Follows S.taken S.faults S.refused writer.old out.old }
    ensures text { writer.new.text ≡ writer.old.text ++ answer after }
    ensures begun { writer.new.begun ≡ writer.old.begun }
    ensures follows { Follows S.taken S.faults S.refused writer.new out.new }
{
    match after {
        Some(mem) => writer.put_number(u64::from(mem.0), out),
        None => writer.put(b"CW_NONE", out),
    }
}

/// Appends a memory, or `CW_NONE` for an answer that never comes, and a separator.
fn put_answer<S: Sink>(after: Option<MemId>, separator: u8, writer: &mut Writer<S>, out: &mut S)
    requires follows { Follows S.taken S.faults S.refused writer.old out.old }
    ensures text { writer.new.text ≡ writer.old.text ++ (answer after ++ separator ∷ []) }
    ensures begun { writer.new.begun ≡ writer.old.begun }
    ensures follows { Follows S.taken S.faults S.refused writer.new out.new }
{
    put_memory_or_none(after, writer, out);
    writer.put(&[separator], out);
}

/// Appends 1 for a split call, 0 for a plain one, and a separator.
fn put_mode<S: Sink>(split: bool, separator: u8, writer: &mut Writer<S>, out: &mut S)
    requires follows { Follows S.taken S.faults S.refused writer.old out.old }
    ensures text { writer.new.text ≡ writer.old.text ++ (mode split ++ separator ∷ []) }
    ensures begun { writer.new.begun ≡ writer.old.begun }
    ensures follows { Follows S.taken S.faults S.refused writer.new out.new }
{
    put_number(u64::from(split), separator, writer, out);
}

/// Appends the name of a line and `(`.
fn put_name<S: Sink>(name: &[u8], writer: &mut Writer<S>, out: &mut S)
    requires follows { Follows S.taken S.faults S.refused writer.old out.old }
    ensures text { writer.new.text ≡ writer.old.text ++ (name.now ++ 40 ∷ []) }
    ensures begun { writer.new.begun ≡ writer.old.begun }
    ensures follows { Follows S.taken S.faults S.refused writer.new out.new }
{
    writer.put(name, out);
    writer.put(b"(", out);
}

/// A row of a list, whose line has its fields behind a name.
trait Spelled {
    ghost fields: { Self → List (List ℕ) };

    /// Appends its line, under a name.
    fn put<S: Sink>(&self, name: &[u8], writer: &mut Writer<S>, out: &mut S)
        requires follows { Follows S.taken S.faults S.refused writer.old out.old }
        ensures text { writer.new.text ≡ writer.old.text ++ line (called name.now (fields self.now)) }
        ensures begun { writer.new.begun ≡ writer.old.begun }
        ensures follows { Follows S.taken S.faults S.refused writer.new out.new };
}

impl Spelled for (PosId, MemId) {
    ghost fields = { live_fields };

    fn put<S: Sink>(&self, name: &[u8], writer: &mut Writer<S>, out: &mut S) {
        put_name(name, writer, out);
        put_field(self.0.0, b',', writer, out);
        put_field(self.1.0, b')', writer, out);
        writer.put(b"\n", out);
    }
}

impl Spelled for TryRow {
    ghost fields = { try_fields };

    fn put<S: Sink>(&self, name: &[u8], writer: &mut Writer<S>, out: &mut S) {
        put_name(name, writer, out);
        put_field(self.seam.0, b',', writer, out);
        put_field(u32::from(self.stage), b',', writer, out);
        put_field(self.mem.0, b',', writer, out);
        put_answer(self.granted, b',', writer, out);
        put_answer(self.refused, b')', writer, out);
        writer.put(b"\n", out);
    }
}

impl Spelled for AtRow {
    ghost fields = { after_fields };

    fn put<S: Sink>(&self, name: &[u8], writer: &mut Writer<S>, out: &mut S) {
        put_name(name, writer, out);
        put_field(self.seam.0, b',', writer, out);
        put_field(self.mem.0, b',', writer, out);
        put_field(self.after.0, b')', writer, out);
        writer.put(b"\n", out);
    }
}

impl Spelled for OpenRow {
    ghost fields = { opened_fields };

    fn put<S: Sink>(&self, name: &[u8], writer: &mut Writer<S>, out: &mut S) {
        put_name(name, writer, out);
        put_field(self.seam.0, b',', writer, out);
        put_field(self.mem.0, b',', writer, out);
        put_field(self.opened.0, b',', writer, out);
        put_field(self.failed.0, b')', writer, out);
        writer.put(b"\n", out);
    }
}

impl Spelled for IntoRow {
    ghost fields = { into_fields };

    fn put<S: Sink>(&self, name: &[u8], writer: &mut Writer<S>, out: &mut S) {
        put_name(name, writer, out);
        put_field(self.seam.0, b',', writer, out);
        put_mode(self.split, b',', writer, out);
        put_field(self.mem.0, b',', writer, out);
        put_field(self.callee.0, b')', writer, out);
        writer.put(b"\n", out);
    }
}

impl Spelled for BackRow {
    ghost fields = { back_fields };

    fn put<S: Sink>(&self, name: &[u8], writer: &mut Writer<S>, out: &mut S) {
        put_name(name, writer, out);
        put_field(self.seam.0, b',', writer, out);
        put_mode(self.split, b',', writer, out);
        put_field(self.mem.0, b',', writer, out);
        put_field(u32::from(self.exit.0), b',', writer, out);
        put_field(self.after.0, b')', writer, out);
        writer.put(b"\n", out);
    }
}

/// Appends the lines of rows of one kind.
fn put_rows<R: Spelled, S: Sink>(name: &[u8], rows: &[R], writer: &mut Writer<S>, out: &mut S)
    requires follows { Follows S.taken S.faults S.refused writer.old out.old }
    ensures text { writer.new.text ≡ writer.old.text ++ flat_map (λ row. line (called name.now (R.fields row))) rows.now }
    ensures begun { writer.new.begun ≡ writer.old.begun }
    ensures follows { Follows S.taken S.faults S.refused writer.new out.new }
{
    for row in rows {
        row.put(name, writer, out);
    }
}

/// Appends the line of a memory.
fn put_memory<S: Sink>(
    number: usize,
    memory: &(StateId, StateSet),
    format: u8,
    writer: &mut Writer<S>,
    out: &mut S,
)
    requires follows { Follows S.taken S.faults S.refused writer.old out.old }
    ensures text { writer.new.text ≡ writer.old.text ++ line (called (codes "CW_MEM") (memory_fields format (number, memory.now))) }
    ensures begun { writer.new.begun ≡ writer.old.begun }
    ensures follows { Follows S.taken S.faults S.refused writer.new out.new }
{
    put_name(b"CW_MEM", writer, out);
    put_number(number as u64, b',', writer, out);
    put_number(u64::from(memory.0.0), b',', writer, out);
    put_set(&memory.1, format, writer, out);
    writer.put(b")\n", out);
}

/// Appends the lines of memories, numbered from 0.
fn put_memories<S: Sink>(
    mems: &[(StateId, StateSet)],
    format: u8,
    writer: &mut Writer<S>,
    out: &mut S,
)
    requires follows { Follows S.taken S.faults S.refused writer.old out.old }
    ensures text { writer.new.text ≡ writer.old.text ++ text_of (row_lines format (memories 0 mems.now)) }
    ensures begun { writer.new.begun ≡ writer.old.begun }
    ensures follows { Follows S.taken S.faults S.refused writer.new out.new }
{
    for number in 0..mems.len() {
        put_memory(number, &mems[number], format, writer, out);
    }
}

/// Appends the table's own line.
fn put_head<S: Sink>(cert: &WeaverCert, format: u8, writer: &mut Writer<S>, out: &mut S)
    requires follows { Follows S.taken S.faults S.refused writer.old out.old }
    ensures text { writer.new.text ≡ writer.old.text ++ line (table_text format cert.now.states cert.now.start) }
    ensures begun { writer.new.begun ≡ writer.old.begun }
    ensures follows { Follows S.taken S.faults S.refused writer.new out.new }
{
    put_name(b"CW_TABLE", writer, out);
    put_number(u64::from(format), b',', writer, out);
    put_number(u64::from(cert.states()), b',', writer, out);
    put_number(u64::from(cert.start().0), b')', writer, out);
    writer.put(b"\n", out);
}

/// Appends the text of a table for a policy of format 1 or 2: the lines of a woven text's prologue after its first, up to
/// and with `CW_DONE` and its LF.
pub fn put_tables<S: Sink>(cert: &WeaverCert, policy: &Policy, writer: &mut Writer<S>, out: &mut S)
    requires follows { Follows S.taken S.faults S.refused writer.old out.old }
    ensures text { writer.new.text ≡ writer.old.text ++ tables_text (policy_of policy.now) cert.now }
    ensures begun { writer.new.begun ≡ writer.old.begun }
    ensures follows { Follows S.taken S.faults S.refused writer.new out.new }
{
    writer.put(b"#include \"capweave.h\"\n", out);
    put_limits(policy, writer, out);
    put_head(cert, policy.format, writer, out);
    put_memories(cert.mems(), policy.format, writer, out);
    put_rows(b"CW_LIVE", cert.live(), writer, out);
    put_rows(b"CW_TRY", cert.tries(), writer, out);
    put_rows(b"CW_AT", cert.ats(), writer, out);
    put_rows(b"CW_OPENED", cert.opened(), writer, out);
    put_rows(b"CW_CLOSED", cert.closed(), writer, out);
    put_rows(b"CW_INTO", cert.into_rows(), writer, out);
    put_rows(b"CW_BACK", cert.back_rows(), writer, out);
    writer.put(b"CW_DONE\n", out);
}

/// Puts the text of a table, as `put_tables` appends it, piece by piece. After a fault of the sink a front of it is put, and
/// nothing after the fault; the fault is the sink's.
pub fn print_tables<S: Sink>(
    cert: &WeaverCert,
    policy: &Policy,
    out: &mut S,
) -> Result<(), SinkFault>
    ensures bytes { Puts (S.taken out.old) (S.taken out.new) (tables_text (policy_of policy.now) cert.now) result }
    ensures failed { HasCause SinkFault.Failed (S.faults out.old) (S.faults out.new) result }
    ensures refused { HasCause SinkFault.NoMemory (S.refused out.old) (S.refused out.new) result }
{
    let mut writer = Writer::begin(out);
    put_tables(cert, policy, &mut writer, out);
    writer.finish(out)
}
