//! What takes bytes.
ghost use Rattle.std.specs.Prelude.{◌≤◌, ℕ, List, Option, length};
ghost use Rattle.cw_io.specs.Causes.{HasCause};
ghost use Rattle.cw_io.specs.Pieces.{Puts};

use crate::SinkFault;

/// The most bytes of a piece that is put.
pub const PIECE: usize = 1024;

/// Takes bytes, piece by piece. It means the bytes that it has taken, where it tells them, and two counts
/// that never fall. A count that stands at its last value, 2^64 - 1, also counts as risen.
pub trait Sink {
    /// The bytes taken so far, or `None` where the sink doesn't tell.
    ghost taken: { Self → Option (List ℕ) };

    /// How many puts have failed.
    ghost faults: { Self → ℕ };

    /// How many puts have been refused for want of memory.
    ghost refused: { Self → ℕ };

    /// Appends a piece of at most [`PIECE`] bytes. After an error a front of the piece, maybe empty or all of it, was appended.
    ///
    /// `Failed`: the bytes can't be written, and the count of faults rose. `NoMemory`: there was no memory for
    /// them, and the count of refused memory rose.
    fn put(&mut self, piece: &[u8]) -> Result<(), SinkFault>
        requires few { length piece.now ≤ 1024 }
        ensures bytes { Puts (taken self.old) (taken self.new) piece.now result }
        ensures failed { HasCause SinkFault.Failed (faults self.old) (faults self.new) result }
        ensures refused { HasCause SinkFault.NoMemory (refused self.old) (refused self.new) result };
}
