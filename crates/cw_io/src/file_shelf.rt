//! The shelf over the files of the system.
ghost use Rattle.std.specs.Prelude.{◌≡◌, ◌+◌, ◌≤◌, ◌<◌, ℕ, None, IfOk, IfSome, OnOk, IsErrOf, vec_len, length, take, drop};
ghost use Rattle.std.specs.Io.KnownBytes.{Consumes, IsAtEnd};
ghost use Rattle.cw_io.specs.Answers.{answer_of};
ghost use Rattle.cw_io.specs.Causes.{Rose};
ghost use Rattle.cw_io.specs.Files.{count_after};

use crate::{ReadFault, Shelf};
use cw_core::limits::SOURCE_BYTES;
use std::alloc::Global;
use std::fs;
use std::io::Read;
use std::marker::Model;
use std::rt::Files;

/// The most bytes that are asked of a file in one turn: room that is cleared for each file, in few steps while it is small.
const CHUNK: usize = 2000;

/// The files of the system, by their paths. It doesn't tell what they hold. Each error of opening or reading
/// raises the one count of faults that all names share.
#[derive(Drop)]
pub struct FileShelf<R: Files + Drop> {
    rt: R,
    faults: u64,
}

/// Contracts see it as its count of faults.
impl<R: Files + Drop> Model for FileShelf<R> {
    ghost use Rattle.std.specs.Prelude.{ℕ};

    ghost Value = { ℕ };

    ghost view = { λ s. s.faults };
}

impl<R: Files + Drop> FileShelf<R> {
    /// A shelf over the files that this runtime reaches, without a fault yet.
    pub fn make(rt: R) -> FileShelf<R>
        ensures { result ≡ 0 }
    {
        FileShelf { rt, faults: 0 }
    }
}

/// One read into `chunk`, of at most one byte more than `room`, which is appended to `all`. It answers how many bytes
/// came, and 0 only at the end.
fn read_some<F: Read>(
    file: &mut F,
    chunk: &mut [u8; CHUNK],
    all: &mut Vec<u8>,
    room: usize,
) -> Result<usize, ReadFault>
    ensures bound { IfOk result (λ count. count ≤ room + 1) }
    ensures front { OnOk result (take (vec_len all.old) all.new.items ≡ all.old.items) }
    ensures count { IfOk result (λ count. vec_len all.new ≡ vec_len all.old + count) }
    ensures bytes { OnOk result (Consumes (F.remaining file.old) (F.remaining file.new)
        (drop (vec_len all.old) all.new.items)) }
    ensures end { IfOk result (λ count. count ≡ 0 → IsAtEnd (F.remaining file.new)) }
    ensures any_length { IsErrOf result ReadFault.TooLong → ⊥ }
{
    let asked = &mut chunk[..room.min(CHUNK - 1) + 1];
    let Ok(count) = file.read(asked) else {
        return Err(ReadFault::Failed);
    };
    all.extend_from_slice(&chunk[..count])?;
    Ok(count)
}

/// Reads a file to its end, or to one byte more than `max`. An error of the reader is `Failed`.
fn read_all<F: Read>(alloc: Global, file: &mut F, max: usize) -> Result<Vec<u8>, ReadFault>
    ensures within { IfOk result (λ bytes. vec_len bytes ≤ max) }

    // Where the reader tells what it has left: all of that, or it is too long.
    ensures whole { IfOk result (λ bytes. IfSome (F.remaining file.old) (λ left. bytes.items ≡ left)) }
    ensures too_long { IsErrOf result ReadFault.TooLong
        → IfSome (F.remaining file.old) (λ left. max < length left) }
{
    // A source has room at once: what isn't used of it costs nothing, and a text that grows is copied.
    let mut all = Vec::with_capacity(alloc, max.min(SOURCE_BYTES) + 1)?;
    let mut chunk = [0u8; CHUNK];
    while all.len() <= max {
        let room = max - all.len();
        if read_some(file, &mut chunk, &mut all, room)? == 0 {
            return Ok(all);
        }
    }
    Err(ReadFault::TooLong)
}

impl<R: Files + Drop> Shelf for FileShelf<R> {
    ghost files = { λ _. None };

    ghost faults = { λ s _. s };

    fn read(&mut self, alloc: Global, name: &str, max: usize) -> Result<Vec<u8>, ReadFault>
        ensures within { IfOk result (λ bytes. vec_len bytes ≤ max) }
        ensures later { self.old ≤ self.new }
        ensures failed { IsErrOf result ReadFault.Failed → Rose self.old self.new }

        // The count rises with each error, and with nothing else.
        ensures counted { self.new ≡ count_after self.old (answer_of result) }
    {
        let answer = match fs::open(&self.rt, name) {
            Ok(mut file) => read_all(alloc, &mut file, max),
            Err(_) => Err(ReadFault::Failed),
        };
        if matches!(answer, Err(ReadFault::Failed)) {
            self.faults = self.faults.saturating_add(1);
        }
        answer
    }
}
