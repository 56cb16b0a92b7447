//! Why a command ends before what was asked for.

ghost use Rattle.std.specs.Prelude.{◌≡◌};
ghost use Rattle.cw_stages.specs.declared.stop.Stop.TheVariants as stop;

use cw_callgraph::FitFault;
use cw_core::{NoMemory, Quantity};
use cw_scope::DescriptorFault;
use cw_source::SourceFault;
use cw_text::TextFault;
use cw_woven::WovenFault;
use std::alloc::AllocError;

/// Why a command ends before what was asked for, behind its policy: by the first fault of a file or of a stage, or by want of memory.
#[derive(Drop)]
pub enum Stop {
    /// The source isn't read.
    Source(SourceFault),
    /// The policy's descriptors break a rule in the program.
    Descriptors(DescriptorFault),
    /// The policy doesn't fit the program.
    Fit(FitFault),
    /// The policy detaches functions.
    Detached,
    /// The strategy isn't of its grammar, or has too many rows.
    Strategy(TextFault),
    /// The woven text isn't one.
    Woven(WovenFault),
    /// The line of the tape that has another entry, counted from 1.
    Tape(u32),
    /// The line of the audit that isn't of its form, counted from 1.
    Audit(u32),
    /// The line of the steps that is none, counted from 1.
    Steps(u32),
    /// The line of the answers that doesn't fit, counted from 1.
    Answers(u32),
    /// The place of the name that may not be declared where it is.
    Form(u32),
    /// A quantity is over its limit.
    Over(Quantity),
    /// There was no memory.
    NoMemory,
}

impl From<NoMemory> for Stop {
    ghost from_gives = { λ _ given. given ≡ stop.NoMemory };

    fn from(_refused: NoMemory) -> Stop {
        Stop::NoMemory
    }
}

impl From<AllocError> for Stop {
    ghost from_gives = { λ _ given. given ≡ stop.NoMemory };

    fn from(_refused: AllocError) -> Stop {
        Stop::NoMemory
    }
}
