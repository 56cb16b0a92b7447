//! The sink over a writer of the system.
ghost use Rattle.std.specs.Prelude.{◌≡◌, ◌<◌, ◌≤◌, [], take, length, Ok, Err, IfOk, OnErr, is_ok, if◌then◌else◌};
ghost use Rattle.cw_io.specs.Causes.{HasCause, raised};
ghost use Rattle.cw_io.specs.Pieces.{Grows, Puts};

use crate::{PIECE, Sink, SinkFault};
use std::io;
use std::io::Write;

/// A writer, as a file or the standard output. It has taken what the writer says that it holds, and the
/// writers of the system don't say. A put writes the whole piece, and flushes unless it has [`PIECE`] bytes: the
/// last piece of a text has fewer, so a buffered writer below writes long texts in few turns and keeps nothing of
/// one that is finished. Each error of the writer, and a write that takes nothing of a piece that isn't empty,
/// raises the count of faults and is `Failed`.
#[derive(Drop)]
pub struct StreamSink<W: Write + Drop> {
    writer: W,
    faults: u64,
}

impl<W: Write + Drop> StreamSink<W> {
    ghost use Rattle.cw_io.specs.Streams.{stream_writer, stream_faults};

    /// A sink over this writer, without a fault yet.
    pub fn make(writer: W) -> StreamSink<W>
        ensures writer { stream_writer result ≡ writer }
        ensures faults { stream_faults result ≡ 0 }
    {
        StreamSink { writer, faults: 0 }
    }
}

/// One write, and how many bytes it took: at least one, or it is an error.
fn write_some<W: Write>(writer: &mut W, piece: &[u8]) -> io::Result<usize>
    requires { 0 < length piece.now }
    ensures count { IfOk result (λ count. 0 < count) }
    ensures bound { IfOk result (λ count. count ≤ length piece.now) }
    ensures taken { IfOk result (λ count.
        Grows (W.contents writer.old) (W.contents writer.new) (take count piece.now)) }
    ensures kept { OnErr result (Grows (W.contents writer.old) (W.contents writer.new) []) }
{
    let count = writer.write(piece)?;
    if count == 0 {
        return Err(io::Error::from(io::ErrorKind::WriteZero));
    }
    Ok(count)
}

/// Writes a whole piece.
fn write_whole<W: Write>(writer: &mut W, piece: &[u8]) -> io::Result<()>
    ensures { Puts (W.contents writer.old) (W.contents writer.new) piece.now result }
{
    let mut done = 0;
    while done < piece.len() {
        done += write_some(writer, &piece[done..])?;
    }
    Ok(())
}

/// Writes a whole piece, and flushes if it is a short one.
fn write_and_flush<W: Write>(writer: &mut W, piece: &[u8]) -> io::Result<()>
    ensures { Puts (W.contents writer.old) (W.contents writer.new) piece.now result }
{
    write_whole(writer, piece)?;
    if piece.len() < PIECE {
        writer.flush()
    } else {
        Ok(())
    }
}

impl<W: Write + Drop> Sink for StreamSink<W> {
    ghost use Rattle.cw_io.specs.Streams.{stream_writer, stream_faults};

    ghost taken = { λ s. W.contents (stream_writer s) };

    ghost faults = { stream_faults };

    ghost refused = { λ _. 0 };

    fn put(&mut self, piece: &[u8]) -> Result<(), SinkFault>
        ensures bytes { Puts (W.contents (stream_writer self.old)) (W.contents (stream_writer self.new))
            piece.now result }
        ensures failed { HasCause SinkFault.Failed (stream_faults self.old) (stream_faults self.new) result }
        ensures refused { HasCause SinkFault.NoMemory 0 0 result }

        // The count of faults rises with each error, and with nothing else.
        ensures counted { stream_faults self.new
            ≡ (if is_ok result then stream_faults self.old else raised (stream_faults self.old)) }
    {
        match write_and_flush(&mut self.writer, piece) {
            Ok(()) => Ok(()),
            Err(_) => {
                self.faults = self.faults.saturating_add(1);
                Err(SinkFault::Failed)
            }
        }
    }
}
