//! The lines of the graph of a program's points.

ghost use Rattle.std.specs.Prelude.{◌≡◌, [], ◌++◌, map, is_some, unwrap_or, slice_get, codes};
ghost use Rattle.std.specs.Fmt.{decimal};
ghost use Rattle.std.specs.List.{list_any};
ghost use Rattle.cw_io.specs.Written.{Follows};
ghost use Rattle.cw_text.specs.RowLines.{numbered};
ghost use Rattle.cw_resolve.specs.Held.{lists, name_in};
ghost use Rattle.cw_listing.specs.Listing.{spaced, headed, successors, point_text, ends, point_line, function_line, graph_text};

use cw_core::PointId;
use cw_io::{Sink, Writer};
use cw_points::{Graph, Node, Part, Point};
use cw_resolve::name_in;

/// The names of functions, labels and descriptors, each by its number.
#[derive(Clone, Copy, Drop)]
pub struct Names<'a> {
    pub functions: &'a [Vec<u8>],
    pub labels: &'a [Vec<u8>],
    pub descriptors: &'a [Vec<u8>],
}

/// Appends names after one space each.
fn put_names<S: Sink>(names: &[Vec<u8>], numbers: &[u16], writer: &mut Writer<S>, out: &mut S)
    requires follows { Follows S.taken S.faults S.refused writer.old out.old }
    ensures text { writer.new.text ≡ writer.old.text ++ spaced (map (name_in (lists names.now)) numbers.now) }
    ensures begun { writer.new.begun ≡ writer.old.begun }
    ensures follows { Follows S.taken S.faults S.refused writer.new out.new }
{
    for number in numbers {
        writer.put(b" ", out);
        writer.put(name_in(names, usize::from(*number)), out);
    }
}

/// The numbers of the functions that a function calls.
fn calls_of(calls: &[Vec<u16>], function: usize) -> &[u16]
    ensures { result.now ≡ unwrap_or (slice_get (lists calls.now) function) [] }
{
    match calls.get(function) {
        Some(callees) => callees.as_slice(),
        None => &[],
    }
}

/// Appends ` calls` and the name of each of these functions, where there are any.
fn put_calls<S: Sink>(names: &[Vec<u8>], callees: &[u16], writer: &mut Writer<S>, out: &mut S)
    requires follows { Follows S.taken S.faults S.refused writer.old out.old }
    ensures text { writer.new.text ≡ writer.old.text ++ headed (codes " calls") (map (name_in (lists names.now)) callees.now) }
    ensures begun { writer.new.begun ≡ writer.old.begun }
    ensures follows { Follows S.taken S.faults S.refused writer.new out.new }
{
    match callees {
        [] => {}
        [_, ..] => {
            writer.put(b" calls", out);
            put_names(names, callees, writer, out);
        }
    }
}

/// Appends the numbers of a function's entry and exit after one space each.
fn put_ends<S: Sink>(part: &Part, writer: &mut Writer<S>, out: &mut S)
    requires follows { Follows S.taken S.faults S.refused writer.old out.old }
    ensures text { writer.new.text ≡ writer.old.text ++ ends part.now }
    ensures begun { writer.new.begun ≡ writer.old.begun }
    ensures follows { Follows S.taken S.faults S.refused writer.new out.new }
{
    writer.put(b" ", out);
    writer.put_number(u64::from(part.entry.0), out);
    writer.put(b" ", out);
    writer.put_number(u64::from(part.exit.0), out);
}

/// Appends `function NAME FIRST LAST`, the functions that it calls, and LF.
fn put_function<S: Sink>(
    names: &[Vec<u8>],
    calls: &[Vec<u16>],
    number: usize,
    part: &Part,
    writer: &mut Writer<S>,
    out: &mut S,
)
    requires follows { Follows S.taken S.faults S.refused writer.old out.old }
    ensures text { writer.new.text ≡ writer.old.text ++ function_line (lists names.now) (lists calls.now) number part.now }
    ensures begun { writer.new.begun ≡ writer.old.begun }
    ensures follows { Follows S.taken S.faults S.refused writer.new out.new }
{
    writer.put(b"function ", out);
    writer.put(name_in(names, number), out);
    put_ends(part, writer, out);
    put_calls(names, calls_of(calls, number), writer, out);
    writer.put(b"\n", out);
}

/// Puts a line a function: its name and what it calls.
fn put_functions<S: Sink>(
    names: &[Vec<u8>],
    calls: &[Vec<u16>],
    parts: &[Part],
    writer: &mut Writer<S>,
    out: &mut S,
)
    requires follows { Follows S.taken S.faults S.refused writer.old out.old }
    ensures text { writer.new.text ≡ writer.old.text ++ numbered (function_line (lists names.now) (lists calls.now)) parts.now }
    ensures begun { writer.new.begun ≡ writer.old.begun }
    ensures follows { Follows S.taken S.faults S.refused writer.new out.new }
{
    for number in 0..parts.len() {
        put_function(names, calls, number, &parts[number], writer, out);
    }
}

/// Appends a name behind a field.
fn put_named<S: Sink>(
    field: &[u8],
    names: &[Vec<u8>],
    number: usize,
    writer: &mut Writer<S>,
    out: &mut S,
)
    requires follows { Follows S.taken S.faults S.refused writer.old out.old }
    ensures text { writer.new.text ≡ writer.old.text ++ (field.now ++ name_in (lists names.now) number) }
    ensures begun { writer.new.begun ≡ writer.old.begun }
    ensures follows { Follows S.taken S.faults S.refused writer.new out.new }
{
    writer.put(field, out);
    writer.put(name_in(names, number), out);
}

/// Appends what stands at a point, with its name.
fn put_point_text<S: Sink>(names: Names, point: Point, writer: &mut Writer<S>, out: &mut S)
    requires follows { Follows S.taken S.faults S.refused writer.old out.old }
    ensures text { writer.new.text ≡ writer.old.text ++ point_text (lists names.entry.functions.now) (lists names.entry.labels.now) (lists names.entry.descriptors.now) point }
    ensures begun { writer.new.begun ≡ writer.old.begun }
    ensures follows { Follows S.taken S.faults S.refused writer.new out.new }
{
    match point {
        Point::Entry => writer.put(b"entry", out),
        Point::Step => writer.put(b"step", out),
        Point::Branch => writer.put(b"branch", out),
        Point::Label(l) => put_named(b"label ", names.labels, usize::from(l), writer, out),
        Point::Open(d) => put_named(b"open ", names.descriptors, usize::from(d), writer, out),
        Point::Close(d) => put_named(b"close ", names.descriptors, usize::from(d), writer, out),
        Point::Call(f) => put_named(b"call ", names.functions, usize::from(f), writer, out),
        Point::Exit => writer.put(b"exit", out),
    }
}

/// Appends the successors of a point after one space each, the left one first.
fn put_successors<S: Sink>(next: &[Option<PointId>], writer: &mut Writer<S>, out: &mut S)
    requires follows { Follows S.taken S.faults S.refused writer.old out.old }
    ensures text { writer.new.text ≡ writer.old.text ++ spaced (map decimal (successors next.now)) }
    ensures begun { writer.new.begun ≡ writer.old.begun }
    ensures follows { Follows S.taken S.faults S.refused writer.new out.new }
{
    for point in next {
        if let Some(successor) = point {
            writer.put(b" ", out);
            writer.put_number(u64::from(successor.0), out);
        }
    }
}

/// Whether a point has successors.
fn leads_on(next: &[Option<PointId>]) -> bool
    ensures { result ≡ list_any is_some next.now }
{
    next.iter().any(|point| point.is_some())
}

/// Appends ` ->` and the successors of a point, where it has any.
fn put_arrow<S: Sink>(next: &[Option<PointId>], writer: &mut Writer<S>, out: &mut S)
    requires follows { Follows S.taken S.faults S.refused writer.old out.old }
    ensures text { writer.new.text ≡ writer.old.text ++ headed (codes " ->") (map decimal (successors next.now)) }
    ensures begun { writer.new.begun ≡ writer.old.begun }
    ensures follows { Follows S.taken S.faults S.refused writer.new out.new }
{
    if leads_on(next) {
        writer.put(b" ->", out);
        put_successors(next, writer, out);
    }
}

/// Appends the number of a point, and the name of its function after one space.
fn put_whose<S: Sink>(
    names: &[Vec<u8>],
    number: usize,
    function: u16,
    writer: &mut Writer<S>,
    out: &mut S,
)
    requires follows { Follows S.taken S.faults S.refused writer.old out.old }
    ensures text { writer.new.text ≡ writer.old.text ++ (decimal number ++ codes " " ++ name_in (lists names.now) function) }
    ensures begun { writer.new.begun ≡ writer.old.begun }
    ensures follows { Follows S.taken S.faults S.refused writer.new out.new }
{
    writer.put_number(number as u64, out);
    writer.put(b" ", out);
    writer.put(name_in(names, usize::from(function)), out);
}

/// Appends `NUMBER FUNCTION KIND`, the point's successors, and LF.
fn put_point<S: Sink>(names: Names, number: usize, node: &Node, writer: &mut Writer<S>, out: &mut S)
    requires follows { Follows S.taken S.faults S.refused writer.old out.old }
    ensures text { writer.new.text ≡ writer.old.text ++ point_line (lists names.entry.functions.now) (lists names.entry.labels.now) (lists names.entry.descriptors.now) number node.now }
    ensures begun { writer.new.begun ≡ writer.old.begun }
    ensures follows { Follows S.taken S.faults S.refused writer.new out.new }
{
    put_whose(names.functions, number, node.function, writer, out);
    writer.put(b" ", out);
    put_point_text(names, node.point, writer, out);
    put_arrow(&node.next, writer, out);
    writer.put(b"\n", out);
}

/// Puts a line a point.
fn put_points<S: Sink>(names: Names, nodes: &[Node], writer: &mut Writer<S>, out: &mut S)
    requires follows { Follows S.taken S.faults S.refused writer.old out.old }
    ensures text { writer.new.text ≡ writer.old.text ++ numbered (point_line (lists names.entry.functions.now) (lists names.entry.labels.now) (lists names.entry.descriptors.now)) nodes.now }
    ensures begun { writer.new.begun ≡ writer.old.begun }
    ensures follows { Follows S.taken S.faults S.refused writer.new out.new }
{
    for number in 0..nodes.len() {
        put_point(names, number, &nodes[number], writer, out);
    }
}

/// Appends the lines of a graph: `points N`; for each function `function NAME FIRST LAST`, and ` calls` with the functions that it
/// calls; for each point `NUMBER FUNCTION KIND`, and ` ->` with its successors, the left one first. Each line ends with LF. `calls` has,
/// for each function by its number, the numbers of the functions that it calls. It takes no memory but the sink's own.
#[tactic(auto, unfolding(crate::specs::Listing::graph_text))]
pub fn put_graph<S: Sink>(
    names: Names,
    calls: &[Vec<u16>],
    graph: &Graph,
    writer: &mut Writer<S>,
    out: &mut S,
)
    requires follows { Follows S.taken S.faults S.refused writer.old out.old }
    ensures text { writer.new.text ≡ writer.old.text
        ++ graph_text (lists names.entry.functions.now) (lists names.entry.labels.now) (lists names.entry.descriptors.now) (lists calls.now) graph.now }
    ensures begun { writer.new.begun ≡ writer.old.begun }
    ensures follows { Follows S.taken S.faults S.refused writer.new out.new }
{
    writer.put(b"points ", out);
    writer.put_number(graph.nodes.len() as u64, out);
    writer.put(b"\n", out);
    put_functions(names.functions, calls, &graph.parts, writer, out);
    put_points(names, &graph.nodes, writer, out);
}
