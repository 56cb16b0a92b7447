//! Texts that are put piece by piece: in which pieces a sink gets them, and what it has of them after a fault.
ghost use Rattle.std.specs.Prelude.{◌<◌};
ghost use Rattle.cw_io.specs.Written.{Follows};

use crate::files::numbers_of;
use cw_core::StateSet;
use cw_io::{FileShelf, MemSink, Shelf, Sink, SinkFault, StreamSink, Writer};
use std::alloc::Global;
use std::fs;
use std::process::Abort;
use std::rt::Files;

/// The number of a put that isn't made.
const NEVER: u32 = 1_000_000;

/// A text of so many bytes in which no stretch of 1,024 looks like another.
fn some_text(rt: &impl Abort, alloc: Global, len: u32) -> Vec<u8> {
    let mut text = Vec::new(alloc);
    for at in 0..len {
        text.push((at % 251) as u8).expect(rt, "memory");
    }
    text
}

/// Puts a text in parts of a size.
fn put_parts<S: Sink>(text: &[u8], size: usize, writer: &mut Writer<S>, out: &mut S)
    requires size { 0 < size }
    requires follows { Follows S.taken S.faults S.refused writer.old out.old }
    ensures follows { Follows S.taken S.faults S.refused writer.new out.new }
{
    let mut at: usize = 0;
    'parts: while at < text.len() {
        let end = text.len().min(at.saturating_add(size));
        writer.put(&text[at..end], out);
        at = end;
    }
}

/// Puts a whole text in parts of a size.
fn put_text<S: Sink>(text: &[u8], size: usize, out: &mut S) -> Result<(), SinkFault>
    requires size { 0 < size }
{
    let mut writer = Writer::begin(out);
    put_parts(text, size, &mut writer, out);
    writer.finish(out)
}

/// Whether a sink has so many bytes of a text, and its longest piece has at least so many bytes, and 1,024 at most.
fn has_front(sink: &MemSink, text: &[u8], taken: usize, longest: usize) -> bool {
    taken <= text.len()
        && sink.bytes() == &text[..taken]
        && longest <= sink.longest()
        && sink.longest() <= 1024
}

/// Asserts what a text put in parts of a size is answered where its put of a number fails, and how much of it the sink has then: the size,
/// the number, how much, and the answer. The longest piece has at least so many bytes.
fn all_put(
    rt: &impl Abort,
    alloc: Global,
    text: &[u8],
    longest: usize,
    rows: &[(usize, u32, usize, Result<(), SinkFault>)],
) {
    for (size, failing, taken, want) in rows {
        assert!(rt; 0 < *size);
        let mut sink = MemSink::make(alloc, numbers_of(rt, alloc, &[*failing]));
        assert!(rt;
            put_text(text, *size, &mut sink) == *want,
            "{size} {failing}"
        );
        assert!(rt; has_front(&sink, text, *taken, longest), "{size} {failing}");
    }
}

#[test]
fn pieces_of_1024_bytes_in_order(rt: HostRuntime) {
    let alloc = rt.alloc();
    all_put(
        &rt,
        alloc,
        &some_text(&rt, alloc, 20_000),
        1024,
        &[
            (1, NEVER, 20_000, Ok(())),
            (7, NEVER, 20_000, Ok(())),
            (1023, NEVER, 20_000, Ok(())),
            (1024, NEVER, 20_000, Ok(())),
            (1025, NEVER, 20_000, Ok(())),
            (9000, NEVER, 20_000, Ok(())),
            (20_000, NEVER, 20_000, Ok(())),
        ],
    );
}

#[test]
fn faults_at_each_put(rt: HostRuntime) {
    let alloc = rt.alloc();
    all_put(
        &rt,
        alloc,
        &some_text(&rt, alloc, 10_000),
        0,
        &[
            (100, 0, 512, Err(SinkFault::Failed)),
            (100, 1, 1536, Err(SinkFault::Failed)),
            (100, 9, 9608, Err(SinkFault::Failed)),
            (100, 10, 10_000, Ok(())),
            (10_000, 0, 512, Err(SinkFault::Failed)),
            (10_000, 1, 1536, Err(SinkFault::Failed)),
            (10_000, 9, 9608, Err(SinkFault::Failed)),
            (10_000, 10, 10_000, Ok(())),
        ],
    );
}

#[test]
fn last_piece_may_be_empty(rt: HostRuntime) {
    let alloc = rt.alloc();
    all_put(
        &rt,
        alloc,
        &some_text(&rt, alloc, 1024),
        0,
        &[
            (1024, 1, 1024, Err(SinkFault::Failed)),
            (1000, 2, 1024, Ok(())),
        ],
    );
    all_put(
        &rt,
        alloc,
        b"",
        0,
        &[(1, 0, 0, Err(SinkFault::Failed)), (1, 1, 0, Ok(()))],
    );
}

/// Puts a number, a set in both spellings, and a line's end.
fn put_values<S: Sink>(number: u64, set: &StateSet, out: &mut S) -> Result<(), SinkFault> {
    let mut writer = Writer::begin(out);
    writer.put_number(number, out);
    writer.put_mask(set, out);
    writer.put_ranges(set, out);
    writer.put(b"\n", out);
    writer.finish(out)
}

/// Asserts how the greatest number and the set of the numbers below each of these are put.
fn all_values(rt: &impl Abort, alloc: Global, rows: &[(u16, &str)]) {
    for (below, text) in rows {
        let set = StateSet::empty().complement_in((*below).min(1024));
        let mut sink = MemSink::make(alloc, Vec::new(alloc));
        assert!(rt; put_values(u64::MAX, &set, &mut sink) == Ok(()), "{text}");
        assert!(rt; sink.bytes() == text.as_bytes(), "{text}");
    }
}

#[test]
fn numbers_and_sets(rt: HostRuntime) {
    all_values(
        &rt,
        rt.alloc(),
        &[
            (1, "184467440737095516150x10\n"),
            (4, "184467440737095516150xf0xf\n"),
            (12, "184467440737095516150xfff0-11\n"),
        ],
    );
}

/// Puts a text in parts of 999 bytes into a new file.
fn write_text<R: Abort + Files>(rt: &R, name: &str, text: &[u8]) {
    let file = fs::create(rt, name).expect(rt, "a file");
    let mut sink = StreamSink::make(file);
    assert!(rt; put_text(text, 999, &mut sink) == Ok(()));
}

#[test]
fn real_file(rt: HostRuntime) {
    let text = some_text(&rt, rt.alloc(), 10_000);
    write_text(&rt, "long_text", &text);
    let read = FileShelf::make(&rt).read(rt.alloc(), "long_text", 10_000);
    assert!(rt; matches!(&read, Ok(bytes) if bytes.as_slice() == text.as_slice()));
}
