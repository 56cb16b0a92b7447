//! The line that tells why a source is refused.

ghost use Rattle.std.specs.Prelude.{◌≡◌, ◌++◌};
ghost use Rattle.cw_io.specs.Written.{Follows};
ghost use Rattle.cw_source.specs.Lines.{at_place, fault_line, lex_line, scope_line};

use crate::fault::SourceFault;
use crate::place::{column_of, line_of};
use cw_io::{Sink, Writer};
use cw_lex::LexFault;
use cw_scope::ScopeFault;

/// Appends the line `source LINE:COLUMN: WORDS`, without its line feed, for a place that is counted in bytes from the front of the source. Lines and
/// columns are counted from 1, columns in bytes.
pub fn put_place_line<S: Sink>(source: &[u8], at: u32, why: &str, line: &mut Writer<S>, out: &mut S)
    requires follows { Follows S.taken S.faults S.refused line.old out.old }
    ensures text { line.new.text ≡ line.old.text ++ at_place source.now at why.now }
    ensures begun { line.new.begun ≡ line.old.begun }
    ensures follows { Follows S.taken S.faults S.refused line.new out.new }
{
    line.put(b"source ", out);
    line.put_number(line_of(source, at) as u64, out);
    line.put(b":", out);
    line.put_number(column_of(source, at) as u64, out);
    line.put(b": ", out);
    line.put(why.as_bytes(), out);
}

/// Appends the line of a source that has no tokens.
fn put_lex_fault<S: Sink>(source: &[u8], fault: &LexFault, line: &mut Writer<S>, out: &mut S)
    requires follows { Follows S.taken S.faults S.refused line.old out.old }
    ensures text { line.new.text ≡ line.old.text ++ lex_line source.now fault.now }
    ensures begun { line.new.begun ≡ line.old.begun }
    ensures follows { Follows S.taken S.faults S.refused line.new out.new }
{
    match fault {
        LexFault::BadByte(at) => put_place_line(source, *at, "bad byte", line, out),
        LexFault::OpenComment(at) => put_place_line(source, *at, "open comment", line, out),
        LexFault::OpenString(at) => put_place_line(source, *at, "open string", line, out),
        LexFault::Number(at) => put_place_line(source, *at, "number", line, out),
        LexFault::Directive(at) => put_place_line(source, *at, "directive", line, out),
        LexFault::Marker(at) => put_place_line(source, *at, "marker", line, out),
        LexFault::NoMemory => line.put(b"memory", out),
    }
}

/// Appends the line of a program that breaks a scope rule.
fn put_scope_fault<S: Sink>(source: &[u8], fault: &ScopeFault, line: &mut Writer<S>, out: &mut S)
    requires follows { Follows S.taken S.faults S.refused line.old out.old }
    ensures text { line.new.text ≡ line.old.text ++ scope_line source.now fault.now }
    ensures begun { line.new.begun ≡ line.old.begun }
    ensures follows { Follows S.taken S.faults S.refused line.new out.new }
{
    match fault {
        ScopeFault::NoMain => line.put(b"source: no main", out),
        ScopeFault::TwoFunctions(name) => {
            put_place_line(source, name.from, "two functions", line, out)
        }
        ScopeFault::TwoLabels(name) => put_place_line(source, name.from, "two labels", line, out),
        ScopeFault::Arity(at) => put_place_line(source, *at, "arity", line, out),
        ScopeFault::CallForm(at) => put_place_line(source, *at, "call form", line, out),
        ScopeFault::MainCalled(at) => put_place_line(source, *at, "main called", line, out),
        ScopeFault::Reserved(at) => put_place_line(source, *at, "reserved", line, out),
        ScopeFault::Jump(at) => put_place_line(source, *at, "jump", line, out),
        ScopeFault::Limit(quantity) => {
            line.put(b"limit: ", out);
            line.put(quantity.name().as_bytes(), out);
        }
        ScopeFault::NoMemory => line.put(b"memory", out),
    }
}

/// Appends the line that tells why a source is refused, without a line feed: `source LINE:COLUMN: WORDS` where the fault has a place (lines
/// and columns are counted from 1, columns in bytes), `limit: QUANTITY` where something is more than it may be.
pub fn put_fault_line<S: Sink>(
    source: &[u8],
    fault: &SourceFault,
    line: &mut Writer<S>,
    out: &mut S,
)
    requires follows { Follows S.taken S.faults S.refused line.old out.old }
    ensures text { line.new.text ≡ line.old.text ++ fault_line source.now fault.now }
    ensures begun { line.new.begun ≡ line.old.begun }
    ensures follows { Follows S.taken S.faults S.refused line.new out.new }
{
    match fault {
        SourceFault::Lex(fault) => put_lex_fault(source, fault, line, out),
        SourceFault::Syntax(at) => put_place_line(source, *at, "syntax", line, out),
        SourceFault::TooDeep => line.put(b"limit: nesting", out),
        SourceFault::Scope(fault) => put_scope_fault(source, fault, line, out),
        SourceFault::NoMemory => line.put(b"memory", out),
    }
}
