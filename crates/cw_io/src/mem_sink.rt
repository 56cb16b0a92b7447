//! A sink in memory that fails where it is told to.
ghost use Rattle.std.specs.Prelude.{◌≡◌, Some, Ok, OnOk, IsErrOf, IsTrue, false};
ghost use Rattle.cw_io.specs.Causes.{HasCause};
ghost use Rattle.cw_io.specs.Pieces.{Puts};
ghost use Rattle.cw_io.specs.Calls.{is_due};
ghost use Rattle.cw_io.specs.Sinks.{new_mem_sink, after_put};

use crate::calls::is_due;
use crate::{Sink, SinkFault};
use std::alloc::Global;
use std::marker::Model;

/// Bytes in memory, and the numbers of the calls of `put` that are to fail.
///
/// A put that is to fail takes the first half of its piece, rounded down, and answers `Failed`. A put that is
/// refused memory takes nothing.
#[derive(Drop)]
pub struct MemSink {
    bytes: Vec<u8>,
    failing: Vec<u32>,
    calls: u64,
    longest: usize,
    faults: u64,
    refused: u64,
}

impl Model for MemSink {
    ghost use Rattle.cw_io.specs.Sinks.{MemSinkState};

    ghost Value = { MemSinkState };

    ghost view = { λ s. record {
      bytes = s.bytes.items;
      failing = s.failing.items;
      calls = s.calls;
      longest = s.longest;
      faults = s.faults;
      refused = s.refused;
    } };
}

impl MemSink {
    /// A sink that has taken nothing. `failing` has the numbers, from 0, of the calls of `put` that are to
    /// fail. The bytes grow later with `alloc`; the maker itself takes no memory.
    pub fn make(alloc: Global, failing: Vec<u32>) -> MemSink
        ensures { result ≡ new_mem_sink failing.items }
    {
        MemSink {
            bytes: Vec::new(alloc),
            failing,
            calls: 0,
            longest: 0,
            faults: 0,
            refused: 0,
        }
    }

    /// The bytes taken so far.
    pub fn bytes(&self) -> &[u8]
        ensures { result.now ≡ self.now.bytes }
    {
        self.bytes.as_slice()
    }

    /// The length in bytes of the longest piece that was put, whatever the answer, and 0 before the first.
    pub fn longest(&self) -> usize
        ensures { result ≡ self.now.longest }
    {
        self.longest
    }
}

impl Sink for MemSink {
    ghost taken = { λ s. Some s.bytes };

    ghost faults = { λ s. s.faults };

    ghost refused = { λ s. s.refused };

    fn put(&mut self, piece: &[u8]) -> Result<(), SinkFault>
        ensures bytes { Puts (Some self.old.bytes) (Some self.new.bytes) piece.now result }
        ensures failed { HasCause SinkFault.Failed self.old.faults self.new.faults result }
        ensures refused { HasCause SinkFault.NoMemory self.old.refused self.new.refused result }

        // Which answer is due, and what the sink is then. Only want of memory comes beside it.
        ensures due { IsErrOf result SinkFault.Failed → IsTrue (is_due self.old.failing self.old.calls) }
        ensures not_due { OnOk result (is_due self.old.failing self.old.calls ≡ false) }
        ensures after { self.new ≡ after_put self.old piece.now result }
    {
        let due = is_due(&self.failing, self.calls);
        self.calls = self.calls.saturating_add(1);
        self.longest = self.longest.max(piece.len());
        let front = if due {
            &piece[..piece.len() / 2]
        } else {
            piece
        };
        if self.bytes.extend_from_slice(front).is_err() {
            self.refused = self.refused.saturating_add(1);
            return Err(SinkFault::NoMemory);
        }
        if due {
            self.faults = self.faults.saturating_add(1);
            return Err(SinkFault::Failed);
        }
        Ok(())
    }
}
