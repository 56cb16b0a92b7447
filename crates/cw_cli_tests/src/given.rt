//! What a run is made of, and how a test asks what it ends with. A test that lacks memory ends at once.
use cw_cli::capweave;
use cw_io::{MemShelf, MemSink, PIECE, Shelf, Sink, SureShelf};
use std::alloc::Global;
use std::process::Abort;

/// A shelf's files, each with its name.
type Files = Vec<(Vec<u8>, Vec<u8>)>;

/// Bytes, and those that stand in their place so many times, where a text has them: the first such bytes of each text.
pub(crate) type Edit<'t> = (&'t str, &'t [u8], usize);

/// What edits no text.
pub(crate) const NO_EDIT: Edit<'static> = ("", b"", 0);

/// A run, by its arguments and the texts of its files, and what it ends with: the status, the text on the output, the line on the note.
pub(crate) type Run<'t> = (&'t [&'t str], &'t [&'t str], u8, &'t str, &'t str);

/// A run with an edit of its texts by another text, and what it ends with, as in `Run`.
pub(crate) type EditedRun<'t> = (&'t str, &'t str, usize, u8, &'t str, &'t str);

/// A run, by its arguments and the numbers, from 0, of the read, of the put to the output and of the put to the note that fail; and what it ends
/// with: the status, how many bytes are on the output, and the bytes on the note. Before the number of bytes stands how the text on the output
/// begins where nothing fails and a file that is missing is empty.
pub(crate) type Fault<'t> = (&'t [&'t str], [u32; 3], u8, &'t str, usize, &'t str);

/// What a run left: its status and its sinks.
#[derive(Drop)]
struct Ended {
    status: u8,
    out: MemSink,
    note: MemSink,
}

/// The number of a put that no run comes to.
const NO_PUT: u32 = u32::MAX;

fn arguments(rt: &impl Abort, alloc: Global, line: &[&str]) -> Vec<String> {
    let mut arguments = Vec::new(alloc);
    for argument in line {
        let argument = String::from_str(alloc, argument).expect(rt, "memory");
        arguments.push(argument).expect(rt, "memory");
    }
    arguments
}

/// What stands before the bytes that an edit takes out, how often the bytes of the edit stand there, and what stands behind.
fn parts<'t>(text: &'t str, edit: &Edit) -> (&'t str, usize, &'t str) {
    match text.split_once(edit.0) {
        Some((front, back)) => (front, edit.2, back),
        None => (text, 0, ""),
    }
}

fn append(rt: &impl Abort, whole: &mut Vec<u8>, bytes: &[u8]) {
    whole.extend_from_slice(bytes).expect(rt, "memory");
}

/// A text with this edit.
fn edited(rt: &impl Abort, alloc: Global, text: &str, edit: &Edit) -> Vec<u8> {
    let (front, times, back) = parts(text, edit);
    let mut whole = Vec::new(alloc);
    append(rt, &mut whole, front.as_bytes());
    for _ in 0..times {
        append(rt, &mut whole, edit.1);
    }
    append(rt, &mut whole, back.as_bytes());
    whole
}

/// Files with these texts, of which the first is `p.toml` and the others are `s.c`, `t` and `tape`.
fn files(rt: &impl Abort, alloc: Global, texts: &[&str], edit: &Edit) -> Files {
    let mut files = Vec::new(alloc);
    for (name, text) in ["p.toml", "s.c", "t", "tape"].iter().zip(texts) {
        let name = edited(rt, alloc, name, &NO_EDIT);
        let bytes = edited(rt, alloc, text, edit);
        files.push((name, bytes)).expect(rt, "memory");
    }
    files
}

/// A sink of which the put of this number fails.
fn sink(rt: &impl Abort, alloc: Global, failing: u32) -> MemSink {
    MemSink::make(alloc, vec![in alloc; failing; 1].expect(rt, "memory"))
}

/// The status of a run of these arguments. It promises nothing, so that no proof of a test reads what the command promises.
fn status_of<F: Shelf, O: Sink, N: Sink>(
    rt: &impl Abort,
    alloc: Global,
    line: &[&str],
    shelf: &mut F,
    out: &mut O,
    note: &mut N,
) -> u8 {
    let arguments = arguments(rt, alloc, line);
    capweave(alloc, &arguments, shelf, out, note)
}

/// A run of these arguments over sinks of which the puts of these numbers fail, one to the output and one to the note.
fn ran<F: Shelf>(
    rt: &impl Abort,
    alloc: Global,
    line: &[&str],
    shelf: &mut F,
    failing: (u32, u32),
) -> Ended {
    let mut out = sink(rt, alloc, failing.0);
    let mut note = sink(rt, alloc, failing.1);
    let status = status_of(rt, alloc, line, shelf, &mut out, &mut note);
    Ended { status, out, note }
}

/// A run in which nothing fails. A name that no file has is an empty file.
fn ran_well(rt: &impl Abort, alloc: Global, line: &[&str], texts: &[&str], edit: &Edit) -> Ended {
    let mut shelf = SureShelf::make(files(rt, alloc, texts, edit));
    ran(rt, alloc, line, &mut shelf, (NO_PUT, NO_PUT))
}

/// A run in which the read and the puts of these numbers fail.
fn ran_into(
    rt: &impl Abort,
    alloc: Global,
    line: &[&str],
    texts: &[&str],
    edit: &Edit,
    failing: [u32; 3],
) -> Ended {
    let reads = vec![in alloc; failing[0]; 1].expect(rt, "memory");
    let mut shelf = MemShelf::make(files(rt, alloc, texts, edit), reads);
    ran(rt, alloc, line, &mut shelf, (failing[1], failing[2]))
}

/// Asserts what holds of a run, which is told by its line on the note.
fn holds(rt: &impl Abort, is_so: bool, noted: &str) {
    assert!(rt; is_so, "{noted}");
}

/// Asserts the status and the note of a run.
fn ends_with(rt: &impl Abort, ended: &Ended, status: u8, noted: &str) {
    holds(rt, ended.note.bytes() == noted.as_bytes(), noted);
    holds(rt, ended.status == status, noted);
}

/// Asserts what a run in which nothing fails ends with.
pub(crate) fn ends(
    rt: &impl Abort,
    alloc: Global,
    line: &[&str],
    texts: &[&str],
    edit: &Edit,
    status: u8,
    told: &str,
    noted: &str,
) {
    let told = edited(rt, alloc, told, edit);
    let ended = ran_well(rt, alloc, line, texts, edit);
    ends_with(rt, &ended, status, noted);
    holds(rt, ended.out.bytes() == told.as_slice(), noted);
}

/// Asserts what each of these runs ends with.
pub(crate) fn all_end(rt: &impl Abort, alloc: Global, runs: &[Run]) {
    for (line, texts, status, told, noted) in runs {
        ends(rt, alloc, line, texts, &NO_EDIT, *status, told, noted);
    }
}

/// Asserts what the runs of these arguments over these texts end with, each with an edit.
pub(crate) fn all_end_edited(
    rt: &impl Abort,
    alloc: Global,
    line: &[&str],
    texts: &[&str],
    runs: &[EditedRun],
) {
    for (old, new, times, status, told, noted) in runs {
        let edit = (*old, new.as_bytes(), *times);
        ends(rt, alloc, line, texts, &edit, *status, told, noted);
    }
}

/// Asserts that so many bytes were put, a front of these, in pieces as long as they may be.
fn put_a_front(rt: &impl Abort, out: &MemSink, whole: &[u8], count: usize, noted: &str) {
    let longest = if count == 0 {
        0
    } else {
        whole.len().min(PIECE)
    };
    holds(rt, out.bytes().len() == count, noted);
    holds(rt, whole.starts_with(out.bytes()), noted);
    holds(rt, out.longest() == longest, noted);
}

/// Asserts what a run ends with, and that what it puts is a front of what it puts where nothing fails, in pieces as long as they may be.
fn fails(rt: &impl Abort, alloc: Global, texts: &[&str], edit: &Edit, fault: &Fault) {
    let (line, failing, status, told, count, noted) = *fault;
    let well = ran_well(rt, alloc, line, texts, edit);
    holds(rt, well.out.bytes().starts_with(told.as_bytes()), told);
    let ended = ran_into(rt, alloc, line, texts, edit, failing);
    ends_with(rt, &ended, status, noted);
    put_a_front(rt, &ended.out, well.out.bytes(), count, noted);
}

/// Asserts what each of these runs over these texts with this edit ends with, which reads that fail and puts that fail stop.
pub(crate) fn all_fail(
    rt: &impl Abort,
    alloc: Global,
    texts: &[&str],
    edit: &Edit,
    faults: &[Fault],
) {
    for fault in faults {
        fails(rt, alloc, texts, edit, fault);
    }
}
