//! The text of the strategy by least heights.

ghost use Rattle.std.specs.Prelude.{◌≡◌, ◌++◌};
ghost use Rattle.cw_io.specs.Written.{Follows};
ghost use Rattle.cw_strategy_text.specs.StrategyText.{row_lines, strategy_text};

use cw_io::{Sink, Writer};
use cw_least_strategy::LeastStrategy;
use cw_strategy_text::{put_end, put_head, put_row};

/// Puts a line a row.
fn put_rows<O: Sink>(strategy: &LeastStrategy, format: u8, writer: &mut Writer<O>, out: &mut O)
    requires follows { Follows O.taken O.faults O.refused writer.old out.old }
    ensures text { writer.new.text ≡ writer.old.text ++ row_lines format 0 strategy.now.rows }
    ensures begun { writer.new.begun ≡ writer.old.begun }
    ensures follows { Follows O.taken O.faults O.refused writer.new out.new }
{
    for number in 0..strategy.count() {
        let row = strategy.row(number);
        put_row(
            number,
            (row.pos, row.state),
            row.aim,
            row.how,
            format,
            writer,
            out,
        );
    }
}

/// Appends the text of a strategy, in a text of this format.
pub(crate) fn put_least<O: Sink>(
    strategy: &LeastStrategy,
    format: u8,
    writer: &mut Writer<O>,
    out: &mut O,
)
    requires follows { Follows O.taken O.faults O.refused writer.old out.old }
    ensures text { writer.new.text ≡ writer.old.text ++ strategy_text format strategy.now }
    ensures begun { writer.new.begun ≡ writer.old.begun }
    ensures follows { Follows O.taken O.faults O.refused writer.new out.new }
{
    put_head(strategy.states(), format, writer, out);
    put_rows(strategy, format, writer, out);
    put_end(writer, out);
}
