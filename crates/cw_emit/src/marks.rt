//! Marks as text.

ghost use Rattle.std.specs.Prelude.{◌≡◌, ◌++◌, codes};
ghost use Rattle.std.specs.Fmt.{decimal};
ghost use Rattle.cw_io.specs.Written.{Follows};
ghost use Rattle.cw_rights.specs.Policies.{policy_of};
ghost use Rattle.cw_syntax.specs.Marks.{kind_of, mark_of};
ghost use Rattle.cw_syntax.specs.Names.{text as name_text};
ghost use Rattle.cw_emit.specs.Cut.{part};
ghost use Rattle.cw_emit.specs.Woven.{spelled, spelling};

use cw_io::{Sink, Writer};
use cw_rights::Policy;
use cw_syntax::marks::{MarkKind, SeamMark};
use cw_syntax::program::Name;
use cw_text::descriptor_name;

/// Appends a mark between `/*cw{*/` and `/*}cw*/`.
pub(crate) fn put_mark<S: Sink>(
    mark: &SeamMark,
    source: &[u8],
    policy: &Policy,
    writer: &mut Writer<S>,
    out: &mut S,
)
    requires follows { Follows S.taken S.faults S.refused writer.old out.old }
    ensures text { writer.new.text ≡ writer.old.text ++ part (spelled (policy_of policy.now) source.now (mark_of mark.now)) }
    ensures begun { writer.new.begun ≡ writer.old.begun }
    ensures follows { Follows S.taken S.faults S.refused writer.new out.new }
{
    writer.put(b"/*cw{*/", out);
    put_spelling(mark.seam, mark.kind, source, policy, writer, out);
    writer.put(b"/*}cw*/", out);
}

/// Appends a mark as it is spelled.
pub fn put_spelling<S: Sink>(
    seam: u32,
    kind: MarkKind,
    source: &[u8],
    policy: &Policy,
    writer: &mut Writer<S>,
    out: &mut S,
)
    requires follows { Follows S.taken S.faults S.refused writer.old out.old }
    ensures text { writer.new.text ≡ writer.old.text ++ spelling (policy_of policy.now) source.now seam (kind_of kind) }
    ensures begun { writer.new.begun ≡ writer.old.begun }
    ensures follows { Follows S.taken S.faults S.refused writer.new out.new }
{
    match kind {
        MarkKind::Entry => put_seam(b"CW_ENTRY(", seam, b");", writer, out),
        MarkKind::Label => put_seam(b"CW_LABEL(", seam, b")", writer, out),
        MarkKind::Open(descriptor) => {
            let name = descriptor_name(policy, descriptor);
            put_named(b"CW_OPEN(", seam, name, writer, out)
        }
        MarkKind::Close => put_seam(b"CW_CLOSE(", seam, b")", writer, out),
        MarkKind::Call(None) => put_seam(b"CW_CALL(", seam, b")", writer, out),
        MarkKind::Call(Some(name)) => {
            put_named(b"CW_CALLV(", seam, name_bytes(source, name), writer, out)
        }
    }
}

/// Puts a seam's number between two texts.
fn put_seam<S: Sink>(before: &[u8], seam: u32, after: &[u8], writer: &mut Writer<S>, out: &mut S)
    requires follows { Follows S.taken S.faults S.refused writer.old out.old }
    ensures text { writer.new.text ≡ writer.old.text ++ (before.now ++ (decimal seam ++ after.now)) }
    ensures begun { writer.new.begun ≡ writer.old.begun }
    ensures follows { Follows S.taken S.faults S.refused writer.new out.new }
{
    writer.put(before, out);
    writer.put_number(u64::from(seam), out);
    writer.put(after, out);
}

/// Puts a seam's number and a name, as a mark's arguments.
fn put_named<S: Sink>(before: &[u8], seam: u32, name: &[u8], writer: &mut Writer<S>, out: &mut S)
    requires follows { Follows S.taken S.faults S.refused writer.old out.old }
    ensures text { writer.new.text ≡ writer.old.text ++ (before.now ++ (decimal seam ++ (codes "," ++ (name.now ++ codes ")")))) }
    ensures begun { writer.new.begun ≡ writer.old.begun }
    ensures follows { Follows S.taken S.faults S.refused writer.new out.new }
{
    put_seam(before, seam, b",", writer, out);
    writer.put(name, out);
    writer.put(b")", out);
}

/// The bytes of a name, as far as the source has them.
fn name_bytes(source: &[u8], name: Name) -> &[u8]
    ensures { result.now ≡ name_text source.now name }
{
    let to = source.len().min(name.to as usize);
    let from = to.min(name.from as usize);
    &source[from..to]
}
