//! Why a text is no woven text.

ghost use Rattle.std.specs.Prelude.{◌≡◌};
ghost use Rattle.cw_woven.specs.declared.fault.WovenFault.TheVariants as fault;

use cw_core::NoMemory;
use cw_scope::DescriptorFault;
use cw_source::SourceFault;
use cw_text::TextFault;
use std::alloc::{AllocError, AllocFailed};
use thiserror::Error;

/// Why the source to which a text is cut isn't accepted, in the order in which it is tested.
#[derive(Debug, Drop, Error)]
pub enum CutFault {
    /// It has more than 262,144 bytes.
    #[error("too many bytes")]
    TooLong,
    /// It isn't read as a program.
    #[error("{0}")]
    Read(SourceFault),
    /// A rule for the policy's descriptors is broken.
    #[error("{0}")]
    Descriptors(DescriptorFault),
    /// It has more points than a program may have.
    #[error("too many points")]
    TooManyPoints,
}

/// Why a text is no woven text, in the order in which it is tested.
#[derive(Debug, Drop, Error)]
pub enum WovenFault {
    /// The part that opens at this place, in bytes from the front of the text, isn't closed or is none of the spellings; or the
    /// text doesn't begin as a woven text does, and the place is 0.
    #[error("mark {0}")]
    Mark(u32),
    /// The lines of the prologue are none of a table.
    #[error("{0}")]
    Table(TextFault),
    /// The source isn't accepted.
    #[error("{0}")]
    Source(CutFault),
    /// The mark of this number, counted from 0 behind the prologue, isn't the one of the seam of this number.
    #[error("misplaced {0}")]
    Misplaced(u32),
    /// There was no memory.
    #[error("out of memory")]
    NoMemory,
}

impl From<NoMemory> for WovenFault {
    ghost from_gives = { λ _ refused. refused ≡ fault.NoMemory };

    fn from(_refused: NoMemory) -> WovenFault {
        WovenFault::NoMemory
    }
}

impl From<AllocError> for WovenFault {
    ghost from_gives = { λ _ refused. refused ≡ fault.NoMemory };

    fn from(_refused: AllocError) -> WovenFault {
        WovenFault::NoMemory
    }
}

impl<T: Drop> From<AllocFailed<T>> for WovenFault {
    ghost from_gives = { λ _ refused. refused ≡ fault.NoMemory };

    fn from(_refused: AllocFailed<T>) -> WovenFault {
        WovenFault::NoMemory
    }
}
