//! Strategies written.

ghost use Rattle.std.specs.Prelude.{◌≡◌, ◌++◌, ◌∷◌, [], codes, map};
ghost use Rattle.std.specs.Fmt.{decimal};
ghost use Rattle.std.specs.List.{flat_map};
ghost use Rattle.cw_text.specs.Lines.{end_line, set_text, states_line};
ghost use Rattle.cw_text.specs.Moves.{move_name};
ghost use Rattle.cw_certs.specs.Strategies.{how_of, row_of, strategy_of};
ghost use Rattle.cw_io.specs.Causes.{HasCause};
ghost use Rattle.cw_io.specs.Pieces.{Puts};
ghost use Rattle.cw_io.specs.Written.{Follows};
ghost use Rattle.cw_strategy_text.specs.StrategyText.{back_field, head_line, how_fields, row_line, row_lines, strategy_text};
ghost use Rattle.cw_strategy_text.specs.Fields.{backs_of};

use cw_certs::{EnvCert, EnvRow, How, Move};
use cw_core::{PosId, StateId, StateSet};
use cw_io::{Sink, SinkFault, Writer};
use cw_text::{move_name, put_set};

/// Puts the text of a strategy, in a text of this format, piece by piece. After a fault of the sink a front of it is put, and
/// nothing after the fault.
pub fn print_env<S: Sink>(cert: &EnvCert, format: u8, out: &mut S) -> Result<(), SinkFault>
    ensures bytes { Puts (S.taken out.old) (S.taken out.new) (strategy_text format (strategy_of cert.now)) result }
    ensures failed { HasCause SinkFault.Failed (S.faults out.old) (S.faults out.new) result }
    ensures refused { HasCause SinkFault.NoMemory (S.refused out.old) (S.refused out.new) result }
{
    let mut writer = Writer::begin(out);
    put_strategy(cert, format, &mut writer, out);
    writer.finish(out)
}

/// Appends the text of a strategy, in a text of this format.
pub fn put_strategy<S: Sink>(cert: &EnvCert, format: u8, writer: &mut Writer<S>, out: &mut S)
    requires follows { Follows S.taken S.faults S.refused writer.old out.old }
    ensures text { writer.new.text ≡ writer.old.text ++ strategy_text format (strategy_of cert.now) }
    ensures begun { writer.new.begun ≡ writer.old.begun }
    ensures follows { Follows S.taken S.faults S.refused writer.new out.new }
{
    put_head(cert.states, format, writer, out);
    put_rows(&cert.rows, format, writer, out);
    put_end(writer, out);
}

/// Appends what stands before the rows of a strategy of so many states: the line of the format, and that of the states.
pub fn put_head<S: Sink>(states: u16, format: u8, writer: &mut Writer<S>, out: &mut S)
    requires follows { Follows S.taken S.faults S.refused writer.old out.old }
    ensures text { writer.new.text ≡ writer.old.text ++ (head_line format ++ states_line states) }
    ensures begun { writer.new.begun ≡ writer.old.begun }
    ensures follows { Follows S.taken S.faults S.refused writer.new out.new }
{
    writer.put(b"capweave strategy ", out);
    writer.put_number(u64::from(format), out);
    writer.put(b"\nstates ", out);
    writer.put_number(u64::from(states), out);
    writer.put(b"\n", out);
}

/// Appends the line behind the rows.
pub fn put_end<S: Sink>(writer: &mut Writer<S>, out: &mut S)
    requires follows { Follows S.taken S.faults S.refused writer.old out.old }
    ensures text { writer.new.text ≡ writer.old.text ++ end_line }
    ensures begun { writer.new.begun ≡ writer.old.begun }
    ensures follows { Follows S.taken S.faults S.refused writer.new out.new }
{
    writer.put(b"end\n", out);
}

/// Puts a line a row.
fn put_rows<S: Sink>(rows: &[EnvRow], format: u8, writer: &mut Writer<S>, out: &mut S)
    requires follows { Follows S.taken S.faults S.refused writer.old out.old }
    ensures text { writer.new.text ≡ writer.old.text ++ row_lines format 0 (map row_of rows.now) }
    ensures begun { writer.new.begun ≡ writer.old.begun }
    ensures follows { Follows S.taken S.faults S.refused writer.new out.new }
{
    for number in 0..rows.len() {
        let row = &rows[number];
        put_row(
            number,
            (row.pos, row.state),
            &row.aim,
            &row.how,
            format,
            writer,
            out,
        );
    }
}

/// Appends the line of a row: its number, the position and the state at which it stands, its aim, and what it does.
pub fn put_row<S: Sink>(
    number: usize,
    at: (PosId, StateId),
    aim: &StateSet,
    how: &How,
    format: u8,
    writer: &mut Writer<S>,
    out: &mut S,
)
    requires follows { Follows S.taken S.faults S.refused writer.old out.old }
    ensures text { writer.new.text ≡ writer.old.text ++ row_line format number (record { pos = at.0.0; state = at.1.0; aim = aim.now; how = how_of how.now }) }
    ensures begun { writer.new.begun ≡ writer.old.begun }
    ensures follows { Follows S.taken S.faults S.refused writer.new out.new }
{
    writer.put_number(number as u64, out);
    put_row_head(at, aim, format, writer, out);
    put_how(how, writer, out);
    writer.put(b"\n", out);
}

/// Appends a row's position, state and aim, each after a space.
fn put_row_head<S: Sink>(
    at: (PosId, StateId),
    aim: &StateSet,
    format: u8,
    writer: &mut Writer<S>,
    out: &mut S,
)
    requires follows { Follows S.taken S.faults S.refused writer.old out.old }
    ensures text { writer.new.text ≡ writer.old.text ++ flat_map (λ field. 32 ∷ field) (decimal at.0.0 ∷ decimal at.1.0 ∷ set_text format aim.now ∷ []) }
    ensures begun { writer.new.begun ≡ writer.old.begun }
    ensures follows { Follows S.taken S.faults S.refused writer.new out.new }
{
    writer.put(b" ", out);
    writer.put_number(u64::from(at.0.0), out);
    writer.put(b" ", out);
    writer.put_number(u64::from(at.1.0), out);
    writer.put(b" ", out);
    put_aim(aim, format, writer, out);
}

/// Appends an aim. Most are empty, and no format has ranges for that.
fn put_aim<S: Sink>(aim: &StateSet, format: u8, writer: &mut Writer<S>, out: &mut S)
    requires follows { Follows S.taken S.faults S.refused writer.old out.old }
    ensures text { writer.new.text ≡ writer.old.text ++ set_text format aim.now }
    ensures begun { writer.new.begun ≡ writer.old.begun }
    ensures follows { Follows S.taken S.faults S.refused writer.new out.new }
{
    if *aim == StateSet::empty() {
        writer.put(b"0x0", out);
    } else {
        put_set(aim, format, writer, out);
    }
}

/// Appends what a row does, each field after a space.
fn put_how<S: Sink>(how: &How, writer: &mut Writer<S>, out: &mut S)
    requires follows { Follows S.taken S.faults S.refused writer.old out.old }
    ensures text { writer.new.text ≡ writer.old.text ++ flat_map (λ field. 32 ∷ field) (how_fields (how_of how.now)) }
    ensures begun { writer.new.begun ≡ writer.old.begun }
    ensures follows { Follows S.taken S.faults S.refused writer.new out.new }
{
    match how {
        How::Bad => writer.put(b" bad", out),
        How::Out => writer.put(b" out", out),
        How::Both { skip, tried } => put_both(*skip, *tried, writer, out),
        How::Go { by, row } => put_go(*by, *row, writer, out),
        How::Into { callee, backs } => put_into(*callee, backs, writer, out),
    }
}

/// Appends ` both SKIP TRIED`.
fn put_both<S: Sink>(skip: u32, tried: u32, writer: &mut Writer<S>, out: &mut S)
    requires follows { Follows S.taken S.faults S.refused writer.old out.old }
    ensures text { writer.new.text ≡ writer.old.text ++ flat_map (λ field. 32 ∷ field) (codes "both" ∷ decimal skip ∷ decimal tried ∷ []) }
    ensures begun { writer.new.begun ≡ writer.old.begun }
    ensures follows { Follows S.taken S.faults S.refused writer.new out.new }
{
    writer.put(b" both ", out);
    writer.put_number(u64::from(skip), out);
    writer.put(b" ", out);
    writer.put_number(u64::from(tried), out);
}

/// Appends ` MOVE ROW`.
fn put_go<S: Sink>(by: Move, row: u32, writer: &mut Writer<S>, out: &mut S)
    requires follows { Follows S.taken S.faults S.refused writer.old out.old }
    ensures text { writer.new.text ≡ writer.old.text ++ flat_map (λ field. 32 ∷ field) (move_name by ∷ decimal row ∷ []) }
    ensures begun { writer.new.begun ≡ writer.old.begun }
    ensures follows { Follows S.taken S.faults S.refused writer.new out.new }
{
    writer.put(b" ", out);
    writer.put(move_name(by).as_bytes(), out);
    writer.put(b" ", out);
    writer.put_number(u64::from(row), out);
}

/// Appends ` into CALLEE` and the backs.
fn put_into<S: Sink>(callee: u32, backs: &[(StateId, u32)], writer: &mut Writer<S>, out: &mut S)
    requires follows { Follows S.taken S.faults S.refused writer.old out.old }
    ensures text { writer.new.text ≡ writer.old.text ++ flat_map (λ field. 32 ∷ field) (codes "into" ∷ decimal callee ∷ map back_field (backs_of backs.now)) }
    ensures begun { writer.new.begun ≡ writer.old.begun }
    ensures follows { Follows S.taken S.faults S.refused writer.new out.new }
{
    writer.put(b" into ", out);
    writer.put_number(u64::from(callee), out);
    put_backs(backs, writer, out);
}

/// Appends ` EXIT=ROW` for each exit state.
fn put_backs<S: Sink>(backs: &[(StateId, u32)], writer: &mut Writer<S>, out: &mut S)
    requires follows { Follows S.taken S.faults S.refused writer.old out.old }
    ensures text { writer.new.text ≡ writer.old.text ++ flat_map (λ field. 32 ∷ field) (map back_field (backs_of backs.now)) }
    ensures begun { writer.new.begun ≡ writer.old.begun }
    ensures follows { Follows S.taken S.faults S.refused writer.new out.new }
{
    for back in backs {
        put_back(*back, writer, out);
    }
}

/// Appends ` EXIT=ROW`.
fn put_back<S: Sink>(back: (StateId, u32), writer: &mut Writer<S>, out: &mut S)
    requires follows { Follows S.taken S.faults S.refused writer.old out.old }
    ensures text { writer.new.text ≡ writer.old.text ++ (32 ∷ back_field (back.0.0, back.1)) }
    ensures begun { writer.new.begun ≡ writer.old.begun }
    ensures follows { Follows S.taken S.faults S.refused writer.new out.new }
{
    writer.put(b" ", out);
    writer.put_number(u64::from(back.0.0), out);
    writer.put(b"=", out);
    writer.put_number(u64::from(back.1), out);
}
