//! Texts that are cut at a byte, and behind a front.

ghost use Rattle.std.specs.Prelude.{◌≡◌, ◌≢◌, ◌↔◌, ◌++◌, ◌∷◌, ℕ, List, IfSome, IfNone, IsTrue};
ghost use Rattle.cw_text.specs.Lines.{IsFree};

use memchr::memchr;

/// Whether two texts have the same bytes.
pub fn is_same(text: &[u8], other: &[u8]) -> bool
    ensures { IsTrue result ↔ (text.now ≡ other.now) }
{
    text == other
}

/// What follows a front of a text; none where the text has another front.
pub fn behind<'t>(text: &'t [u8], front: &[u8]) -> Option<&'t [u8]>
    ensures some { IfSome result (λ rest. text.now ≡ front.now ++ rest.now) }
    ensures none { IfNone result ((rest : List ℕ) → text.now ≢ front.now ++ rest) }
{
    if text.len() < front.len() {
        return None;
    }
    let (head, rest) = text.split_at(front.len());
    if !is_same(head, front) {
        return None;
    }
    Some(rest)
}

/// What stands before the first separator of a text, and what stands after it; none where the text has no separator.
pub fn cut(text: &[u8], separator: u8) -> Option<(&[u8], &[u8])>
    ensures parts { IfSome result (λ (front, rest). text.now ≡ front.now ++ (separator ∷ rest.now)) }
    ensures first { IfSome result (λ (front, _). IsFree separator front.now) }
    ensures none { IfNone result (IsFree separator text.now) }
{
    let at = text.iter().position(|byte| *byte == separator)?;
    Some((&text[..at], &text[at + 1..]))
}

/// The first line of a text without its LF, and the text after it; none where the text has no LF.
pub fn next_line(text: &[u8]) -> Option<(&[u8], &[u8])>
    ensures parts { IfSome result (λ (line, rest). text.now ≡ line.now ++ (10 ∷ rest.now)) }
    ensures first { IfSome result (λ (line, _). IsFree 10 line.now) }
    ensures none { IfNone result (IsFree 10 text.now) }
{
    // Lines are long beside fields, so their end is searched many bytes at a time.
    let at = memchr(b'\n', text)?;
    Some((&text[..at], &text[at + 1..]))
}
