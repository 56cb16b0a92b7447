//! Row after row.

ghost use Rattle.std.specs.Prelude.{◌≡◌, ◌+◌, ◌≤◌, ◌↔◌, codes, IsTrue, IfOk, IfErr, IfSome, IfNone};
ghost use Rattle.cw_certs.specs.Strategies.{how_of, row_of};
ghost use Rattle.cw_text.specs.Lines.{end_line};
ghost use Rattle.cw_strategy_text.specs.StrategyText.{rows_in};
ghost use Rattle.cw_strategy_text.specs.Faults.{HasRow};
ghost use Rattle.cw_strategy_text.specs.Steps.{IsStepFault};

use crate::row::read_row;
use cw_certs::{EnvRow, How};
use cw_core::limits::ROWS;
use cw_text::{TextFault, next_line};
use std::alloc::Global;

/// The next row of a text and the text after it, or none at the end of the text, after so many rows, which are `rows` with their backs.
pub(crate) fn next_row(
    alloc: Global,
    text: &[u8],
    count: usize,
    rows: usize,
    format: u8,
) -> Result<Option<(EnvRow, &[u8])>, TextFault>
    requires few { count ≤ ROWS }
    requires room { rows ≤ ROWS }
    ensures row { IfOk result (λ step. IfSome step (λ (row, rest). HasRow format text.now count (row_of row) rest.now)) }
    ensures within { IfOk result (λ step. IfSome step (λ (row, _). rows + rows_in (how_of row.how) ≤ ROWS)) }
    ensures over { IfOk result (λ step. IfNone step (text.now ≡ end_line)) }
    ensures fault { IfErr result (λ fault. IsStepFault format text.now count rows fault) }
{
    let number = count as u32 + 3;
    let Some((line, rest)) = next_line(text) else {
        return Err(TextFault::Line(number));
    };
    if is_end(line) {
        if !rest.is_empty() {
            return Err(TextFault::Line(number + 1));
        }
        return Ok(None);
    }
    let Some((named, row)) = read_row(alloc, line, format)? else {
        return Err(TextFault::Line(number));
    };
    if named as usize != count {
        return Err(TextFault::Order(number));
    }
    if rows + rows_of(&row.how) > ROWS {
        return Err(TextFault::Limit(number));
    }
    Ok(Some((row, rest)))
}

/// Whether a line is the last one.
fn is_end(line: &[u8]) -> bool
    ensures { IsTrue result ↔ (line.now ≡ codes "end") }
{
    line == b"end".as_slice()
}

/// A row and its backs, as rows are counted.
pub(crate) fn rows_of(how: &How) -> usize
    ensures { result ≡ rows_in (how_of how.now) }
{
    match how {
        How::Into { backs, .. } => 1 + backs.len(),
        _ => 1,
    }
}
