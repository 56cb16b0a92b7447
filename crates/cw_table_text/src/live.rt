//! Live rows, read from the text at once: most rows of a table are such, and each has two numbers alone.

ghost use Rattle.std.specs.Prelude.{◌≡◌, ℕ, ◌^◌, ◌<◌, ◌++◌, ◌∷◌, IfSome, codes, length};
ghost use Rattle.std.specs.Fmt.{decimal};
ghost use Rattle.cw_text.specs.Lines.{line};
ghost use Rattle.cw_text.specs.TableText.{live_fields};
ghost use Rattle.cw_table_text.specs.declared.row.Row.TheVariants as Row;
ghost use Rattle.cw_table_text.specs.Grammar.{FitsLive};
ghost use Rattle.cw_table_text.specs.Rows.{called, rows_of};
ghost use Rattle.cw_table_text.specs.Working.{table_of, IsRowLine};

use crate::draft::Draft;
use crate::rows::MOST_ROWS;
use cw_core::{MemId, PosId, read_dec};
use cw_text::behind;

/// The number of 32 bits with which a text begins, before a separator, and what stands behind the separator.
fn number_before(text: &[u8], separator: u8) -> Option<(u32, &[u8])>
    ensures { IfSome result (λ (number, rest). (number < 2 ^ 32) × (text.now ≡ decimal number ++ (separator ∷ rest.now))) }
{
    let (number, end) = read_dec(text, 0)?;
    if number > u64::from(u32::MAX) {
        return None;
    }
    let (first, rest) = text[end..].split_first()?;
    if *first != separator {
        return None;
    }
    Some((number as u32, rest))
}

/// The live row that is the first line of a text, and the text behind this line.
fn live_line(text: &[u8]) -> Option<((PosId, MemId), &[u8])>
    ensures { IfSome result (λ (pair, rest). FitsLive pair × (text.now ≡ line (called (codes "CW_LIVE") (live_fields pair)) ++ rest.now)) }
{
    let fields = behind(text, b"CW_LIVE(")?;
    let (pos, fields) = number_before(fields, b',')?;
    let (mem, end) = number_before(fields, b')')?;
    let rest = behind(end, b"\n")?;
    Some(((PosId(pos), MemId(mem)), rest))
}

/// The live row that comes next behind so many rows, and the text behind its line. Where there is none, the line may still be a row.
pub(crate) fn next_live<'t>(
    text: &'t [u8],
    count: u32,
    draft: &Draft,
) -> Option<((PosId, MemId), &'t [u8])>
    requires count { count ≡ length (rows_of (table_of draft.now)) }
    ensures { IfSome result (λ (pair, rest). (format : ℕ) → IsRowLine format (table_of draft.now) text.now (Row.Live pair) rest.now) }
{
    let (pair, rest) = live_line(text)?;
    if !draft.is_next_live(&pair) {
        return None;
    }
    if count == MOST_ROWS {
        return None;
    }
    Some((pair, rest))
}
