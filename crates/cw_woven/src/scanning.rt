//! The parts of a text, from its front on.

ghost use Rattle.std.specs.Prelude.{◌≡◌, ◌+◌, ◌≤◌, ◌++◌, length, map, option_map, IfOk, IfErr};
ghost use Rattle.cw_rights.specs.Policies.{PlainPolicy};
ghost use Rattle.cw_woven.specs.Held.{insertion_of, IsNext, IsScanned, IsScanFault, IsPrologue};
ghost use Rattle.cw_woven.specs.Reading.{IsMark};

use crate::fault::WovenFault;
use crate::parts::{CLOSING, Insertion, OPENING, cut_at};
use crate::spelling::is_spelling;
use cw_core::limits::FILE_BYTES_IN_FORMAT_2;
use cw_text::behind;
use std::alloc::Global;

/// A text in parts: the lines in its prologue, its marks, and what stands behind the last of them.
#[derive(Drop)]
pub(crate) struct Scanned<'t> {
    pub lines: &'t [u8],
    pub marks: Vec<Insertion<'t>>,
    pub left: &'t [u8],
}

/// The lines in the prologue of a text, and what stands behind it.
fn prologue(text: &[u8]) -> Option<(&[u8], &[u8])>
    ensures { IsPrologue text.now (option_map (λ parts. (parts.0.now, parts.1.now)) result) }
{
    let remainder = behind(text, b"/*cw{*/\n")?;
    cut_at(remainder, CLOSING)
}

/// How many bytes stand before what opens with this many behind it.
fn place_of(whole: usize, remainder: usize) -> u32
    requires within { remainder + 7 ≤ whole }
    requires short { whole ≤ FILE_BYTES_IN_FORMAT_2 }
    ensures { result + (remainder + 7) ≡ whole }
{
    (whole - (remainder + 7)) as u32
}

/// What is next behind a part.
pub(crate) enum Next<'t> {
    /// Nothing opens.
    Done,
    /// A mark, and what stands behind it.
    Mark(Insertion<'t>, &'t [u8]),
    /// Something opens that is no mark, with this behind its opening.
    Bad(&'t [u8]),
}

/// What is next in what is left of a text.
fn next_part(left: &[u8]) -> Next<'_>
    ensures { IsNext left.now result }
{
    let Some((gap, remainder)) = cut_at(left, OPENING) else {
        return Next::Done;
    };
    let Some((inner, after)) = cut_at(remainder, CLOSING) else {
        return Next::Bad(remainder);
    };
    if is_spelling(inner) {
        Next::Mark(Insertion { gap, inner }, after)
    } else {
        Next::Bad(remainder)
    }
}

/// The parts of a text of at most 33,554,432 bytes.
pub(crate) fn scan(alloc: Global, text: &[u8]) -> Result<Scanned<'_>, WovenFault>
    requires short { length text.now ≤ FILE_BYTES_IN_FORMAT_2 }
    ensures parts { IfOk result (λ s. IsScanned text.now s) }
    ensures fault { IfErr result (IsScanFault text.now) }
{
    let Some((lines, mut left)) = prologue(text) else {
        return Err(WovenFault::Mark(0));
    };
    let mut marks = Vec::new(alloc);
    'marks: loop {
        match next_part(left) {
            Next::Done => return Ok(Scanned { lines, marks, left }),
            Next::Bad(remainder) => {
                return Err(WovenFault::Mark(place_of(text.len(), remainder.len())));
            }
            Next::Mark(insertion, after) => {
                marks.push(insertion)?;
                left = after;
            }
        }
    }
}
