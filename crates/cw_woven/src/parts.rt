//! The parts of a text.

ghost use Rattle.std.specs.Prelude.{◌≡◌, IfSome, IfNone, IfOk, map};
ghost use Rattle.cw_syntax.specs.PlainMarks.{HasNone};
ghost use Rattle.cw_woven.specs.Parts.{IsCutAt, without};
ghost use Rattle.cw_woven.specs.Held.{insertion_of};

use cw_core::NoMemory;
use memchr::memmem;
use std::alloc::Global;

/// What opens a part.
pub(crate) const OPENING: &[u8] = b"/*cw{*/";

/// What closes a part.
pub(crate) const CLOSING: &[u8] = b"/*}cw*/";

/// A part of a text: what stands between the part before it and its opening, and what stands in it.
#[derive(Clone, Copy, Drop)]
pub(crate) struct Insertion<'t> {
    pub gap: &'t [u8],
    pub inner: &'t [u8],
}

/// What stands before the first place of a needle in a text, and what stands behind it; none where the needle stands nowhere.
pub(crate) fn cut_at<'t>(text: &'t [u8], needle: &[u8]) -> Option<(&'t [u8], &'t [u8])>
    ensures some { IfSome result (λ (front, rest). IsCutAt needle.now text.now front.now rest.now) }
    ensures none { IfNone result (HasNone needle.now text.now) }
{
    let at = memmem::find(text, needle)?;
    Some((&text[..at], &text[at + needle.len()..]))
}

/// The text without its parts, which are these and have this behind them.
pub(crate) fn without(
    alloc: Global,
    insertions: &[Insertion],
    left: &[u8],
) -> Result<Vec<u8>, NoMemory>
    ensures { IfOk result (λ source. source.items ≡ without (map insertion_of insertions.now) left.now) }
{
    let mut source = Vec::new(alloc);
    for insertion in insertions {
        source.extend_from_slice(insertion.gap)?;
    }
    source.extend_from_slice(left)?;
    Ok(source)
}
