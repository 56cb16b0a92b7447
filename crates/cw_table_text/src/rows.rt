//! The lines of a table's rows.

ghost use Rattle.std.specs.Prelude.{◌≡◌, ℕ, ◌+◌, ◌≤◌, length};
ghost use Rattle.cw_table_text.specs.Rows.{rows_of};
ghost use Rattle.cw_table_text.specs.Working.{table_of, IsGood, IsEmpty, RowsRead, IsNextLine, seen};

use crate::draft::Draft;
use crate::line::read_row;
use crate::live::next_live;
use crate::row::Row;
use cw_core::limits::ROWS;
use cw_text::{TextFault, is_same, next_line};

/// The most rows that a text has.
pub(crate) const MOST_ROWS: u32 = ROWS as u32;

/// What comes next in the text of a table, and what is left behind it.
pub(crate) enum Next<'t> {
    /// The last line.
    Done(&'t [u8]),
    /// A row that may stand behind those before it.
    Row(Row, &'t [u8]),
}

/// The next line behind so many rows.
fn next_row<'t>(
    text: &'t [u8],
    format: u8,
    count: u32,
    draft: &Draft,
) -> Result<Next<'t>, TextFault>
    requires count { count ≡ length (rows_of (table_of draft.now)) }
    requires few { count ≤ ROWS }
    ensures { IsNextLine format (table_of draft.now) text.now result }
{
    let number = count + 4;
    let Some((line, rest)) = next_line(text) else {
        return Err(TextFault::Line(number));
    };
    if is_same(line, b"CW_DONE") {
        return Ok(Next::Done(rest));
    }
    let Some(row) = read_row(line, format) else {
        return Err(TextFault::Line(number));
    };
    if !draft.is_next(&row) {
        return Err(TextFault::Order(number));
    }
    if count == MOST_ROWS {
        return Err(TextFault::Limit(number));
    }
    Ok(Next::Row(row, rest))
}

/// Reads rows up to the last line, into a table without rows. How many they are, and the text behind them.
pub(crate) fn read_rows<'t>(
    text: &'t [u8],
    format: u8,
    draft: &mut Draft,
) -> Result<(u32, &'t [u8]), TextFault>
    requires { IsEmpty (table_of draft.old) }
    ensures { RowsRead format text.now (table_of draft.old) (table_of draft.new) (seen (λ p. (p.0, p.1.now)) result) }
{
    let mut rest = text;
    let mut count = 0;
    'rows: loop {
        if let Some((pair, after)) = next_live(rest, count, draft) {
            draft.push_live(pair)?;
            count += 1;
            rest = after;
        } else {
            match next_row(rest, format, count, draft) {
                Err(fault) => return Err(fault),
                Ok(Next::Done(after)) => return Ok((count, after)),
                Ok(Next::Row(row, after)) => {
                    draft.push(row)?;
                    count += 1;
                    rest = after;
                }
            }
        }
    }
}
