//! The two real objects over writers and files that take or give a few bytes at a time and then fail.

use cw_io::{FileShelf, ReadFault, Shelf, Sink, SinkFault, StreamSink};
use std::alloc::{Allocator, Global};
use std::cell::Cell;
use std::fs::{Metadata, OpenFile, OpenOptions};
use std::io;
use std::io::{Read, Seek, SeekFrom, Write};
use std::process::Abort;
use std::rt::Files;

fn refused() -> io::Error {
    io::Error::from(io::ErrorKind::BrokenPipe)
}

/// A writer that takes at most `step` bytes in a write and at most `room` in all, fails past that where `errs`, and whose flush works or
/// doesn't.
#[derive(Drop)]
struct Narrow {
    taken: Vec<u8>,
    step: usize,
    room: usize,
    errs: bool,
    flushes: bool,
}

impl Write for Narrow {
    fn write(&mut self, piece: &[u8]) -> io::Result<usize> {
        let count = piece.len().min(self.step).min(self.room);
        if count == 0 && self.errs {
            return Err(refused());
        }
        self.taken.extend_from_slice(&piece[..count])?;
        self.room -= count;
        Ok(count)
    }

    fn flush(&mut self) -> io::Result<()> {
        if self.flushes { Ok(()) } else { Err(refused()) }
    }
}

/// Puts six bytes into a sink over this writer.
fn put_six(writer: &mut Narrow) -> Result<(), SinkFault> {
    StreamSink::make(writer).put(b"abcdef")
}

/// Asserts what the put of six bytes is answered over a writer with this step and room, which errs and flushes, and what the writer has then.
fn all_put(
    rt: &impl Abort,
    alloc: Global,
    rows: &[(usize, usize, bool, bool, Result<(), SinkFault>, &str)],
) {
    for (step, room, errs, flushes, want, taken) in rows {
        let mut writer = Narrow {
            taken: Vec::new(alloc),
            step: *step,
            room: *room,
            errs: *errs,
            flushes: *flushes,
        };
        assert!(rt;
            put_six(&mut writer) == *want,
            "{step} {room} {errs} {flushes}"
        );
        assert!(rt;
            writer.taken.as_slice() == taken.as_bytes(),
            "{step} {room}"
        );
    }
}

#[test]
fn a_writer_that_fails(rt: HostRuntime) {
    all_put(
        &rt,
        rt.alloc(),
        &[
            (9, 9, true, true, Ok(()), "abcdef"),
            (1, 6, true, true, Ok(()), "abcdef"),
            (4, 5, true, true, Err(SinkFault::Failed), "abcde"),
            (4, 5, false, true, Err(SinkFault::Failed), "abcde"),
            (9, 0, false, true, Err(SinkFault::Failed), ""),
            (9, 9, true, false, Err(SinkFault::Failed), "abcdef"),
        ],
    );
}

/// Files of any name, each of which gives the bytes that are left, at most `step` of them in a read, and then fails where `errs`. How many
/// are left is told beside it.
#[derive(Drop)]
struct Short<'a> {
    left: &'a Cell<usize>,
    step: usize,
    errs: bool,
}

impl<'a> Short<'a> {
    fn opened(&self) -> Short<'a> {
        Short {
            left: self.left,
            step: self.step,
            errs: self.errs,
        }
    }
}

impl Read for Short<'_> {
    fn read(&mut self, buf: &mut [u8]) -> io::Result<usize> {
        let left = self.left.get();
        let count = buf.len().min(self.step).min(left);
        if count == 0 && self.errs {
            return Err(refused());
        }
        buf[..count].fill(b'x');
        self.left.set(left - count);
        Ok(count)
    }
}

impl Write for Short<'_> {
    fn write(&mut self, _piece: &[u8]) -> io::Result<usize> {
        Err(refused())
    }

    fn flush(&mut self) -> io::Result<()> {
        Err(refused())
    }
}

impl Seek for Short<'_> {
    fn seek(&mut self, _to: SeekFrom) -> io::Result<u64> {
        Err(refused())
    }
}

impl OpenFile for Short<'_> {
    fn metadata(&self) -> io::Result<Metadata> {
        Err(refused())
    }

    fn set_len(&self, _size: u64) -> io::Result<()> {
        Err(refused())
    }

    fn sync_all(&self) -> io::Result<()> {
        Err(refused())
    }

    fn sync_data(&self) -> io::Result<()> {
        Err(refused())
    }
}

impl<'a> Files for Short<'a> {
    type File = Short<'a>;

    type Dir = Short<'a>;

    fn open_file(&self, _how: &OpenOptions, _path: &str) -> io::Result<Short<'a>> {
        Ok(self.opened())
    }

    fn open_dir(&self, _path: &str) -> io::Result<Short<'a>> {
        Err(refused())
    }

    fn metadata(&self, _path: &str) -> io::Result<Metadata> {
        Err(refused())
    }

    fn symlink_metadata(&self, _path: &str) -> io::Result<Metadata> {
        Err(refused())
    }

    fn copy(&self, _from: &str, _to: &str) -> io::Result<u64> {
        Err(refused())
    }

    fn rename(&self, _from: &str, _to: &str) -> io::Result<()> {
        Err(refused())
    }

    fn remove_file(&self, _path: &str) -> io::Result<()> {
        Err(refused())
    }

    fn create_dir(&self, _path: &str) -> io::Result<()> {
        Err(refused())
    }

    fn remove_dir(&self, _path: &str) -> io::Result<()> {
        Err(refused())
    }

    fn remove_dir_all<B: Allocator>(&self, _alloc: B, _path: &str) -> io::Result<()> {
        Err(refused())
    }
}

/// How many bytes a shelf over these files reads, of at most `max`.
fn count_read(alloc: Global, files: Short<'_>, max: usize) -> Result<usize, ReadFault> {
    Ok(FileShelf::make(files).read(alloc, "any", max)?.len())
}

/// Asserts what the read of at most `max` bytes is answered, of a file of so many bytes with this step, which errs, and how many stay unread.
fn all_read(
    rt: &impl Abort,
    alloc: Global,
    rows: &[(usize, usize, bool, usize, Result<usize, ReadFault>, usize)],
) {
    for (bytes, step, errs, max, want, unread) in rows {
        let left = Cell::new(*bytes);
        let files = Short {
            left: &left,
            step: *step,
            errs: *errs,
        };
        assert!(rt;
            count_read(alloc, files, *max) == *want,
            "{bytes} {step} {max}"
        );
        assert!(rt; left.get() == *unread, "{bytes} {step} {max}");
    }
}

#[test]
fn a_reader_that_fails(rt: HostRuntime) {
    all_read(
        &rt,
        rt.alloc(),
        &[
            (10, 3, false, 10, Ok(10), 0),
            (10, 3, true, 10, Err(ReadFault::Failed), 0),
            (10, 3, true, 9, Err(ReadFault::TooLong), 0),
            (10, 3, true, 4, Err(ReadFault::TooLong), 5),
            (9000, 5000, false, 9000, Ok(9000), 0),
            (9000, 5000, false, 5000, Err(ReadFault::TooLong), 3999),
        ],
    );
}
