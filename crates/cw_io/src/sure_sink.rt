//! A sink in memory that never fails.
ghost use Rattle.std.specs.Prelude.{◌≡◌, [], Some, Ok};
ghost use Rattle.cw_io.specs.Causes.{HasCause};
ghost use Rattle.cw_io.specs.Pieces.{Puts};
ghost use Rattle.cw_io.specs.Sinks.{after_sure_put};

use crate::{Sink, SinkFault};
use std::alloc::Global;
use std::marker::Model;

/// Bytes in memory. A put never answers `Failed`: it takes its piece, or is refused memory and takes nothing.
#[derive(Drop)]
pub struct SureSink {
    bytes: Vec<u8>,
    refused: u64,
}

impl Model for SureSink {
    ghost use Rattle.cw_io.specs.Sinks.{SureSinkState};

    ghost Value = { SureSinkState };

    ghost view = { λ s. record { bytes = s.bytes.items; refused = s.refused } };
}

impl SureSink {
    /// A sink that has taken nothing. The bytes grow later with `alloc`; the maker itself takes no memory.
    pub fn make(alloc: Global) -> SureSink
        ensures { result ≡ record { bytes = []; refused = 0 } }
    {
        SureSink {
            bytes: Vec::new(alloc),
            refused: 0,
        }
    }

    /// The bytes taken so far.
    pub fn bytes(&self) -> &[u8]
        ensures { result.now ≡ self.now.bytes }
    {
        self.bytes.as_slice()
    }
}

impl Sink for SureSink {
    ghost taken = { λ s. Some s.bytes };

    ghost faults = { λ _. 0 };

    ghost refused = { λ s. s.refused };

    fn put(&mut self, piece: &[u8]) -> Result<(), SinkFault>
        ensures bytes { Puts (Some self.old.bytes) (Some self.new.bytes) piece.now result }
        ensures failed { HasCause SinkFault.Failed 0 0 result }
        ensures refused { HasCause SinkFault.NoMemory self.old.refused self.new.refused result }

        // It takes the piece, or is refused memory.
        ensures sure { result ≡ Err SinkFault.Failed → ⊥ }
        ensures after { self.new ≡ after_sure_put self.old piece.now result }
    {
        match self.bytes.extend_from_slice(piece) {
            Ok(()) => Ok(()),
            Err(_) => {
                self.refused = self.refused.saturating_add(1);
                Err(SinkFault::NoMemory)
            }
        }
    }
}
