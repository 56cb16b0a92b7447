//! Which bytes are spelled as a mark, and as which.

ghost use Rattle.std.specs.Prelude.{◌≡◌, ◌↔◌, ◌++◌, IsTrue, IfSome, IfNone, List, ℕ, ◌≢◌, codes};
ghost use Rattle.std.specs.Fmt.{decimal};
ghost use Rattle.cw_rights.specs.Policies.{policy_of};
ghost use Rattle.cw_syntax.specs.Marks.{mark_of};
ghost use Rattle.cw_emit.specs.Woven.{spelled};
ghost use Rattle.cw_woven.specs.Woven.{IsNumber, IsNumbered, IsNamed, IsNumberedMark, IsNamedMark, IsSpelling};

use cw_rights::{Policy, is_name};
use cw_syntax::marks::{MarkKind, SeamMark};
use cw_syntax::names::text;
use cw_text::{behind, cut, descriptor_name, is_same, number_of};

/// What stands between a front and a back; none where the bytes aren't these with something between them.
fn between<'t>(bytes: &'t [u8], front: &[u8], back: &[u8]) -> Option<&'t [u8]>
    ensures some { IfSome result (λ middle. bytes.now ≡ front.now ++ (middle.now ++ back.now)) }
    ensures none { IfNone result ((middle : List ℕ) → bytes.now ≢ front.now ++ (middle ++ back.now)) }
{
    let rest = behind(bytes, front)?;
    before(rest, back)
}

/// What stands before a back; none where the text has another back.
fn before<'t>(text: &'t [u8], back: &[u8]) -> Option<&'t [u8]>
    ensures some { IfSome result (λ head. text.now ≡ head.now ++ back.now) }
    ensures none { IfNone result ((head : List ℕ) → text.now ≢ head ++ back.now) }
{
    if text.len() < back.len() {
        return None;
    }
    let (head, tail) = text.split_at(text.len() - back.len());
    if !is_same(tail, back) {
        return None;
    }
    Some(head)
}

/// Whether bytes are the decimal of a number of 32 bits.
fn is_number(bytes: &[u8]) -> bool
    ensures { IsTrue result ↔ IsNumber bytes.now }
{
    match number_of(bytes, u64::from(u32::MAX)) {
        Some(_) => true,
        None => false,
    }
}

/// Whether bytes are a front, a number and a back.
fn is_numbered(bytes: &[u8], front: &[u8], back: &[u8]) -> bool
    ensures { IsTrue result ↔ IsNumbered front.now back.now bytes.now }
{
    match between(bytes, front, back) {
        Some(number) => is_number(number),
        None => false,
    }
}

/// Whether bytes are a front, a number, `,`, a name and `)`.
fn is_named(bytes: &[u8], front: &[u8]) -> bool
    ensures { IsTrue result ↔ IsNamed front.now bytes.now }
{
    match between(bytes, front, b")") {
        Some(fields) => match cut(fields, b',') {
            Some((number, name)) => is_number(number) && is_name(name),
            None => false,
        },
        None => false,
    }
}

/// Whether the bytes are a mark with a seam's number alone.
fn is_numbered_mark(bytes: &[u8]) -> bool
    ensures { IsTrue result ↔ IsNumberedMark bytes.now }
{
    is_numbered(bytes, b"CW_ENTRY(", b");")
        || is_numbered(bytes, b"CW_LABEL(", b")")
        || is_numbered(bytes, b"CW_CLOSE(", b")")
        || is_numbered(bytes, b"CW_CALL(", b")")
}

/// Whether the bytes are a mark with a seam's number and a name.
fn is_named_mark(bytes: &[u8]) -> bool
    ensures { IsTrue result ↔ IsNamedMark bytes.now }
{
    is_named(bytes, b"CW_OPEN(") || is_named(bytes, b"CW_CALLV(")
}

/// Whether bytes are spelled as the mark of some seam is.
pub(crate) fn is_spelling(bytes: &[u8]) -> bool
    ensures { IsTrue result ↔ IsSpelling bytes.now }
{
    is_numbered_mark(bytes) || is_named_mark(bytes)
}

/// Whether bytes are the decimal of this number.
fn is_decimal(bytes: &[u8], number: u32) -> bool
    ensures { IsTrue result ↔ (bytes.now ≡ decimal number) }
{
    match number_of(bytes, u64::from(u32::MAX)) {
        Some(found) => found == u64::from(number),
        None => false,
    }
}

/// Whether bytes are a front, this number and a back.
fn is_of_seam(bytes: &[u8], front: &[u8], seam: u32, back: &[u8]) -> bool
    ensures { IsTrue result ↔ (bytes.now ≡ front.now ++ (decimal seam ++ back.now)) }
{
    match between(bytes, front, back) {
        Some(number) => is_decimal(number, seam),
        None => false,
    }
}

/// Whether bytes are a front, this number, `,`, this name and `)`.
fn is_of_name(bytes: &[u8], front: &[u8], seam: u32, name: &[u8]) -> bool
    ensures { IsTrue result ↔ (bytes.now ≡ front.now ++ (decimal seam ++ (codes "," ++ (name.now ++ codes ")")))) }
{
    match between(bytes, front, b")") {
        Some(fields) => match before(fields, name) {
            Some(numbered) => match before(numbered, b",") {
                Some(number) => is_decimal(number, seam),
                None => false,
            },
            None => false,
        },
        None => false,
    }
}

/// Whether bytes are spelled as this mark is.
pub(crate) fn is_spelled(bytes: &[u8], mark: &SeamMark, source: &[u8], policy: &Policy) -> bool
    ensures { IsTrue result ↔ (bytes.now ≡ spelled (policy_of policy.now) source.now (mark_of mark.now)) }
{
    match mark.kind {
        MarkKind::Entry => is_of_seam(bytes, b"CW_ENTRY(", mark.seam, b");"),
        MarkKind::Label => is_of_seam(bytes, b"CW_LABEL(", mark.seam, b")"),
        MarkKind::Open(descriptor) => {
            let name = descriptor_name(policy, descriptor);
            is_of_name(bytes, b"CW_OPEN(", mark.seam, name)
        }
        MarkKind::Close => is_of_seam(bytes, b"CW_CLOSE(", mark.seam, b")"),
        MarkKind::Call(None) => is_of_seam(bytes, b"CW_CALL(", mark.seam, b")"),
        MarkKind::Call(Some(name)) => {
            is_of_name(bytes, b"CW_CALLV(", mark.seam, text(source, name))
        }
    }
}
