//! What a run over values shows, piece by piece.

ghost use Rattle.std.specs.Prelude.{◌≡◌, ◌++◌, map};
ghost use Rattle.std.specs.List.{flat_map};
ghost use Rattle.std.specs.Fmt.{signed_decimal};
ghost use Rattle.cw_io.specs.Written.{Follows};
ghost use Rattle.cw_value.specs.Shown.{made_of, values_of};
ghost use Rattle.cw_value_text.specs.ValuesText.{arg_text, args_text, call_line, place_text, stop_line, stopped, values_text};
ghost use Rattle.cw_value_text.specs.Working.{behind};

use cw_io::{Sink, Writer};
use cw_source::place::{column_of, line_of};
use cw_syntax::names::text;
use cw_value::{Arg, Made, Stop, Values};

/// Appends what a run of a source shows: a line for each external call, `call NAME(ARGS) = ANSWER`, then `tries N`, then how it ended. An
/// argument that is no number is its bytes in the source, and a place is LINE:COLUMN, counted from 1, columns in bytes.
#[tactic(auto, unfolding(crate::specs::ValuesText::values_text, crate::specs::ValuesText::tries_line))]
pub fn put_values<S: Sink>(source: &[u8], values: &Values, writer: &mut Writer<S>, out: &mut S)
    requires follows { Follows S.taken S.faults S.refused writer.old out.old }
    ensures text { writer.new.text ≡ writer.old.text ++ values_text source.now (values_of values.now) }
    ensures begun { writer.new.begun ≡ writer.old.begun }
    ensures follows { Follows S.taken S.faults S.refused writer.new out.new }
{
    put_calls(source, &values.made, writer, out);
    writer.put(b"tries ", out);
    writer.put_number(u64::from(values.tried), out);
    writer.put(b"\n", out);
    put_stop(source, values.stop, writer, out);
}

/// Appends a line for each call.
fn put_calls<S: Sink>(source: &[u8], made: &[Made], writer: &mut Writer<S>, out: &mut S)
    requires follows { Follows S.taken S.faults S.refused writer.old out.old }
    ensures text { writer.new.text ≡ writer.old.text ++ flat_map (call_line source.now) (map made_of made.now) }
    ensures begun { writer.new.begun ≡ writer.old.begun }
    ensures follows { Follows S.taken S.faults S.refused writer.new out.new }
{
    for one in made {
        put_call(source, one, writer, out);
    }
}

/// Appends the line of a call.
#[tactic(auto, unfolding(crate::specs::ValuesText::call_line))]
fn put_call<S: Sink>(source: &[u8], made: &Made, writer: &mut Writer<S>, out: &mut S)
    requires follows { Follows S.taken S.faults S.refused writer.old out.old }
    ensures text { writer.new.text ≡ writer.old.text ++ call_line source.now (made_of made.now) }
    ensures begun { writer.new.begun ≡ writer.old.begun }
    ensures follows { Follows S.taken S.faults S.refused writer.new out.new }
{
    let answer = made.answer;
    writer.put(b"call ", out);
    writer.put(text(source, made.name), out);
    writer.put(b"(", out);
    put_args(source, &made.args, writer, out);
    writer.put(b") = ", out);
    put_signed(answer, writer, out);
    writer.put(b"\n", out);
}

/// Appends arguments with commas between them.
fn put_args<S: Sink>(source: &[u8], args: &[Arg], writer: &mut Writer<S>, out: &mut S)
    requires follows { Follows S.taken S.faults S.refused writer.old out.old }
    ensures text { writer.new.text ≡ writer.old.text ++ args_text source.now args.now }
    ensures begun { writer.new.begun ≡ writer.old.begun }
    ensures follows { Follows S.taken S.faults S.refused writer.new out.new }
{
    if let Some((first, others)) = args.split_first() {
        put_arg(source, *first, writer, out);
        put_others(source, others, writer, out);
    }
}

/// Appends arguments, each behind a comma.
fn put_others<S: Sink>(source: &[u8], args: &[Arg], writer: &mut Writer<S>, out: &mut S)
    requires follows { Follows S.taken S.faults S.refused writer.old out.old }
    ensures text { writer.new.text ≡ writer.old.text ++ flat_map (behind source.now) args.now }
    ensures begun { writer.new.begun ≡ writer.old.begun }
    ensures follows { Follows S.taken S.faults S.refused writer.new out.new }
{
    for arg in args {
        put_behind(source, *arg, writer, out);
    }
}

/// Appends an argument behind a comma.
fn put_behind<S: Sink>(source: &[u8], arg: Arg, writer: &mut Writer<S>, out: &mut S)
    requires follows { Follows S.taken S.faults S.refused writer.old out.old }
    ensures text { writer.new.text ≡ writer.old.text ++ behind source.now arg }
    ensures begun { writer.new.begun ≡ writer.old.begun }
    ensures follows { Follows S.taken S.faults S.refused writer.new out.new }
{
    writer.put(b",", out);
    put_arg(source, arg, writer, out);
}

/// Appends an argument.
fn put_arg<S: Sink>(source: &[u8], arg: Arg, writer: &mut Writer<S>, out: &mut S)
    requires follows { Follows S.taken S.faults S.refused writer.old out.old }
    ensures text { writer.new.text ≡ writer.old.text ++ arg_text source.now arg }
    ensures begun { writer.new.begun ≡ writer.old.begun }
    ensures follows { Follows S.taken S.faults S.refused writer.new out.new }
{
    match arg {
        Arg::Number(value) => put_signed(value, writer, out),
        Arg::Text(place) => writer.put(text(source, place), out),
    }
}

/// Appends the decimal of a number, with `-` before a negative one.
fn put_signed<S: Sink>(value: i64, writer: &mut Writer<S>, out: &mut S)
    requires follows { Follows S.taken S.faults S.refused writer.old out.old }
    ensures text { writer.new.text ≡ writer.old.text ++ signed_decimal value }
    ensures begun { writer.new.begun ≡ writer.old.begun }
    ensures follows { Follows S.taken S.faults S.refused writer.new out.new }
{
    if value < 0 {
        writer.put(b"-", out);
    }
    writer.put_number(value.unsigned_abs(), out);
}

/// Appends how a run ended.
#[tactic(auto, unfolding(crate::specs::ValuesText::stop_line))]
fn put_stop<S: Sink>(source: &[u8], stop: Stop, writer: &mut Writer<S>, out: &mut S)
    requires follows { Follows S.taken S.faults S.refused writer.old out.old }
    ensures text { writer.new.text ≡ writer.old.text ++ stop_line source.now stop }
    ensures begun { writer.new.begun ≡ writer.old.begun }
    ensures follows { Follows S.taken S.faults S.refused writer.new out.new }
{
    match stop {
        Stop::Ended => writer.put(b"ended\n", out),
        Stop::Form(at) => put_stopped(source, b"form", at, writer, out),
        Stop::Unset(at) => put_stopped(source, b"unset", at, writer, out),
        Stop::Unknown(at) => put_stopped(source, b"unknown", at, writer, out),
        Stop::Overflow(at) => put_stopped(source, b"overflow", at, writer, out),
        Stop::Division(at) => put_stopped(source, b"division", at, writer, out),
        Stop::Index(at) => put_stopped(source, b"index", at, writer, out),
        Stop::Answers(at) => put_stopped(source, b"answers", at, writer, out),
        Stop::Steps => writer.put(b"stop steps\n", out),
        Stop::Refused(seam) => {
            writer.put(b"stop refused ", out);
            writer.put_number(u64::from(seam.0), out);
            writer.put(b"\n", out);
        }
    }
}

/// Appends that an expression stopped the run: the reason, and its place.
#[tactic(auto, unfolding(crate::specs::ValuesText::stopped))]
fn put_stopped<S: Sink>(source: &[u8], reason: &[u8], at: u32, writer: &mut Writer<S>, out: &mut S)
    requires follows { Follows S.taken S.faults S.refused writer.old out.old }
    ensures text { writer.new.text ≡ writer.old.text ++ stopped source.now reason.now at }
    ensures begun { writer.new.begun ≡ writer.old.begun }
    ensures follows { Follows S.taken S.faults S.refused writer.new out.new }
{
    writer.put(b"stop ", out);
    writer.put(reason, out);
    writer.put(b" ", out);
    put_place(source, at, writer, out);
    writer.put(b"\n", out);
}

/// Appends a place as people count it.
#[tactic(auto, unfolding(crate::specs::ValuesText::place_text))]
fn put_place<S: Sink>(source: &[u8], at: u32, writer: &mut Writer<S>, out: &mut S)
    requires follows { Follows S.taken S.faults S.refused writer.old out.old }
    ensures text { writer.new.text ≡ writer.old.text ++ place_text source.now at }
    ensures begun { writer.new.begun ≡ writer.old.begun }
    ensures follows { Follows S.taken S.faults S.refused writer.new out.new }
{
    writer.put_number(line_of(source, at) as u64, out);
    writer.put(b":", out);
    writer.put_number(column_of(source, at) as u64, out);
}
