//! Woven texts.

ghost use Rattle.std.specs.Prelude.{◌≡◌, ◌≤◌, ◌++◌, codes, drop, length, map, take, ◌-◌};
ghost use Rattle.cw_io.specs.Causes.{HasCause};
ghost use Rattle.cw_io.specs.Pieces.{Puts};
ghost use Rattle.cw_io.specs.Written.{Follows};
ghost use Rattle.cw_rights.specs.Policies.{policy_of};
ghost use Rattle.cw_rights.specs.Valid.{IsValid};
ghost use Rattle.cw_syntax.specs.Marks.{mark_of, AreInOrder};
ghost use Rattle.cw_emit.specs.Cut.{cut};
ghost use Rattle.cw_syntax.specs.PlainMarks.{HasNone};
ghost use Rattle.cw_emit.specs.Woven.{prologue, woven, woven_text};
ghost use Rattle.cw_syntax.specs.PlainMarks.{ArePlainMarks};

use crate::marks::put_mark;
use cw_certs::WeaverCert;
use cw_io::{Sink, SinkFault, Writer};
use cw_rights::Policy;
use cw_syntax::marks::SeamMark;
use cw_table_text::put_tables;

/// Puts the woven text in the policy's format, piece by piece: the prologue with the lines of the table, and then the source
/// with each mark at its place, in bytes. Where the source has no `cw{*` and no name of it that a mark spells has a slash, the
/// text without the parts from `/*cw{*/` to the next `/*}cw*/` is the source, byte for byte. After a fault of the sink a front
/// of the text is put, and nothing after the fault.
pub fn weave_text<S: Sink>(
    source: &[u8],
    marks: &[SeamMark],
    policy: &Policy,
    cert: &WeaverCert,
    out: &mut S,
) -> Result<(), SinkFault>
    requires valid { IsValid (policy_of policy.now) }
    requires order { AreInOrder 0 (length source.now) (map mark_of marks.now) }
    ensures bytes { Puts (S.taken out.old) (S.taken out.new) (woven_text source.now (map mark_of marks.now) cert.now (policy_of policy.now)) result }
    ensures failed { HasCause SinkFault.Failed (S.faults out.old) (S.faults out.new) result }
    ensures refused { HasCause SinkFault.NoMemory (S.refused out.old) (S.refused out.new) result }
    ensures cut { HasNone (codes "cw{*") source.now → ArePlainMarks source.now (map mark_of marks.now)
        → cut (woven_text source.now (map mark_of marks.now) cert.now (policy_of policy.now)) ≡ source.now }
{
    let mut writer = Writer::begin(out);
    put_woven(source, marks, policy, cert, &mut writer, out);
    writer.finish(out)
}

/// Appends the woven text, as `weave_text` puts it.
pub fn put_woven<S: Sink>(
    source: &[u8],
    marks: &[SeamMark],
    policy: &Policy,
    cert: &WeaverCert,
    writer: &mut Writer<S>,
    out: &mut S,
)
    requires valid { IsValid (policy_of policy.now) }
    requires order { AreInOrder 0 (length source.now) (map mark_of marks.now) }
    requires follows { Follows S.taken S.faults S.refused writer.old out.old }
    ensures text { writer.new.text ≡ writer.old.text ++ woven_text source.now (map mark_of marks.now) cert.now (policy_of policy.now) }
    ensures begun { writer.new.begun ≡ writer.old.begun }
    ensures follows { Follows S.taken S.faults S.refused writer.new out.new }
    ensures cut { HasNone (codes "cw{*") source.now → ArePlainMarks source.now (map mark_of marks.now)
        → cut (woven_text source.now (map mark_of marks.now) cert.now (policy_of policy.now)) ≡ source.now }
{
    put_prologue(policy, cert, writer, out);
    put_source(source, marks, policy, writer, out);
}

/// Puts the first part of a woven text: the table between its markers.
fn put_prologue<S: Sink>(policy: &Policy, cert: &WeaverCert, writer: &mut Writer<S>, out: &mut S)
    requires follows { Follows S.taken S.faults S.refused writer.old out.old }
    ensures text { writer.new.text ≡ writer.old.text ++ prologue (policy_of policy.now) cert.now }
    ensures begun { writer.new.begun ≡ writer.old.begun }
    ensures follows { Follows S.taken S.faults S.refused writer.new out.new }
{
    writer.put(b"/*cw{*/\n", out);
    put_tables(cert, policy, writer, out);
    writer.put(b"/*}cw*/", out);
}

/// Appends the source with its marks.
fn put_source<S: Sink>(
    source: &[u8],
    marks: &[SeamMark],
    policy: &Policy,
    writer: &mut Writer<S>,
    out: &mut S,
)
    requires order { AreInOrder 0 (length source.now) (map mark_of marks.now) }
    requires follows { Follows S.taken S.faults S.refused writer.old out.old }
    ensures text { writer.new.text ≡ writer.old.text ++ woven (policy_of policy.now) source.now (map mark_of marks.now) }
    ensures begun { writer.new.begun ≡ writer.old.begun }
    ensures follows { Follows S.taken S.faults S.refused writer.new out.new }
{
    let mut at: usize = 0;
    for mark in marks {
        let place = mark.place as usize;
        writer.put(between(source, at, place), out);
        put_mark(mark, source, policy, writer, out);
        at = place;
    }
    writer.put(after(source, at), out);
}

/// The bytes from one place up to another.
fn between(source: &[u8], from: usize, to: usize) -> &[u8]
    requires order { from ≤ to }
    requires within { to ≤ length source.now }
    ensures { result.now ≡ take (to - from) (drop from source.now) }
{
    &source[from..to]
}

/// The bytes from a place on.
fn after(source: &[u8], from: usize) -> &[u8]
    requires { from ≤ length source.now }
    ensures { result.now ≡ drop from source.now }
{
    &source[from..]
}
