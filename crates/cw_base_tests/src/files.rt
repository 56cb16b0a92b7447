//! The objects as a caller sees them: each one through its trait, and the two real ones on real files.

use cw_io::{
    FileShelf, MemShelf, MemSink, ReadFault, Shelf, Sink, SinkFault, StreamSink, SureShelf,
    SureSink,
};
use std::alloc::Global;
use std::process::Abort;
use std::rt::Files;
use std::{fs, io};

/// A vector of these numbers.
pub fn numbers_of(rt: &impl Abort, alloc: Global, numbers: &[u32]) -> Vec<u32> {
    Vec::from_slice(alloc, numbers).expect(rt, "memory")
}

/// Whether a read answers this.
fn is_answer(read: &Result<Vec<u8>, ReadFault>, want: &Result<&str, ReadFault>) -> bool {
    match (read, want) {
        (Ok(bytes), Ok(text)) => bytes.as_slice() == text.as_bytes(),
        (Err(fault), Err(wanted)) => *fault == *wanted,
        _ => false,
    }
}

/// Asserts what each of these reads answers: of a file, up to so many bytes.
fn all_read<S: Shelf>(
    rt: &impl Abort,
    alloc: Global,
    shelf: &mut S,
    reads: &[(&str, usize, Result<&str, ReadFault>)],
) {
    for (name, max, want) in reads {
        let read = shelf.read(alloc, name, *max);
        assert!(rt; is_answer(&read, want), "{name} {max}");
    }
}

fn bytes_of(rt: &impl Abort, alloc: Global, text: &str) -> Vec<u8> {
    Vec::from_slice(alloc, text.as_bytes()).expect(rt, "memory")
}

/// Files with these names and texts.
fn files_of(rt: &impl Abort, alloc: Global, texts: &[(&str, &str)]) -> Vec<(Vec<u8>, Vec<u8>)> {
    let mut files = Vec::new(alloc);
    for (name, text) in texts {
        let file = (bytes_of(rt, alloc, name), bytes_of(rt, alloc, text));
        files.push(file).expect(rt, "memory");
    }
    files
}

/// Two files of one name, an empty one, and one more.
const FILES: [(&str, &str); 4] = [
    ("a", "one"),
    ("a", "other"),
    ("empty", ""),
    ("b.c", "void;"),
];

#[test]
fn reads_in_memory(rt: HostRuntime) {
    let alloc = rt.alloc();
    let failing = numbers_of(&rt, alloc, &[2, 9, 5]);
    let mut shelf = MemShelf::make(files_of(&rt, alloc, &FILES), failing);
    all_read(
        &rt,
        alloc,
        &mut shelf,
        &[
            ("a", 3, Ok("one")),
            ("a", 2, Err(ReadFault::TooLong)),
            ("a", 3, Err(ReadFault::Failed)),
            ("empty", 0, Ok("")),
            ("missing", 9, Err(ReadFault::Failed)),
            ("b.c", 4, Err(ReadFault::Failed)),
            ("b.c", 4, Err(ReadFault::TooLong)),
            ("b.c", 5, Ok("void;")),
            ("b.", 9, Err(ReadFault::Failed)),
            ("missing", 9, Err(ReadFault::Failed)),
            ("b.c", usize::MAX, Ok("void;")),
        ],
    );
}

#[test]
fn reads_in_memory_without_faults(rt: HostRuntime) {
    let alloc = rt.alloc();
    let mut shelf = SureShelf::make(files_of(&rt, alloc, &FILES));
    all_read(
        &rt,
        alloc,
        &mut shelf,
        &[
            ("a", 3, Ok("one")),
            ("a", 2, Err(ReadFault::TooLong)),
            ("missing", 0, Ok("")),
            ("empty", 0, Ok("")),
            ("b.c", 100, Ok("void;")),
        ],
    );
}

/// Puts these pieces, and asserts that each is taken.
fn all_taken<S: Sink>(rt: &impl Abort, sink: &mut S, pieces: &[&str]) {
    for piece in pieces {
        assert!(rt; piece.len() <= 1024);
        assert!(rt; sink.put(piece.as_bytes()) == Ok(()), "{piece}");
    }
}

/// Puts these pieces, and asserts what each is answered, what the sink has then, and how long the longest piece was.
fn all_put(
    rt: &impl Abort,
    sink: &mut MemSink,
    pieces: &[(&str, Result<(), SinkFault>, &str, usize)],
) {
    for (piece, want, bytes, longest) in pieces {
        assert!(rt; sink.put(piece.as_bytes()) == *want, "{piece}");
        assert!(rt; sink.bytes() == bytes.as_bytes(), "{piece}");
        assert!(rt; sink.longest() == *longest, "{piece}");
    }
}

#[test]
fn puts_in_memory(rt: HostRuntime) {
    let failing = numbers_of(&rt, rt.alloc(), &[1, 3]);
    let mut sink = MemSink::make(rt.alloc(), failing);
    assert!(rt; sink.longest() == 0);
    all_put(
        &rt,
        &mut sink,
        &[
            ("abc", Ok(()), "abc", 3),
            ("defgh", Err(SinkFault::Failed), "abcde", 5),
            ("", Ok(()), "abcde", 5),
            ("x", Err(SinkFault::Failed), "abcde", 5),
            ("fg", Ok(()), "abcdefg", 5),
            ("hij", Ok(()), "abcdefghij", 5),
        ],
    );
}

#[test]
fn puts_in_memory_without_faults(rt: HostRuntime) {
    let mut sink = SureSink::make(rt.alloc());
    all_taken(&rt, &mut sink, &["one ", "two"]);
    assert!(rt; sink.bytes() == b"one two".as_slice());
}

/// Puts these pieces into a new file, and asserts that each is taken.
fn write_pieces<R: Abort + Files>(rt: &R, name: &str, pieces: &[&str]) {
    let file = fs::create(rt, name).expect(rt, "a file");
    let mut sink = StreamSink::make(file);
    all_taken(rt, &mut sink, pieces);
}

/// Writes a file of so many bytes.
fn write_long<R: Abort + Files>(rt: &R, alloc: Global, name: &str, count: usize) {
    let bytes = vec![in alloc; b'x'; count].expect(rt, "memory");
    fs::write(rt, name, bytes.as_slice()).expect(rt, "a long file");
}

/// How long a file is.
fn length_of<S: Shelf>(alloc: Global, shelf: &mut S, name: &str, max: usize) -> Option<usize> {
    match shelf.read(alloc, name, max) {
        Ok(bytes) => Some(bytes.len()),
        Err(_) => None,
    }
}

/// Writes a file in pieces, a long one and a folder, and reads them back.
fn expect_files<R: Abort + Files>(rt: &R, alloc: Global) {
    write_pieces(rt, "out.c", &["int main", "", "(void);"]);
    write_long(rt, alloc, "long", 9000);
    fs::create_dir(rt, "folder").expect(rt, "a folder");
    let mut shelf = FileShelf::make(rt);
    all_read(
        rt,
        alloc,
        &mut shelf,
        &[
            ("out.c", 15, Ok("int main(void);")),
            ("out.c", 14, Err(ReadFault::TooLong)),
            ("out.c", usize::MAX, Ok("int main(void);")),
            ("missing", 9, Err(ReadFault::Failed)),
            ("folder", 9, Err(ReadFault::Failed)),
            ("long", 8999, Err(ReadFault::TooLong)),
            ("out.c", 0, Err(ReadFault::TooLong)),
        ],
    );
    assert!(rt; length_of(alloc, &mut shelf, "long", 9000) == Some(9000));
}

#[test]
fn real_files(rt: HostRuntime) {
    expect_files(&rt, rt.alloc());
}

#[test]
fn standard_output(rt: HostRuntime) {
    let mut sink = StreamSink::make(io::writer(&rt));
    all_taken(&rt, &mut sink, &["to standard output\n"]);
}

#[test]
fn standard_error(rt: HostRuntime) {
    let stderr = rt.stderr();
    let mut sink = StreamSink::make(io::writer(&stderr));
    all_taken(&rt, &mut sink, &[""]);
}
