//! The rows of a table, as lines have them.

use cw_certs::{AtRow, BackRow, IntoRow, OpenRow, TryRow};
use cw_core::{MemId, PosId, StateId, StateSet};

/// A row of a table, as one line of its text has it.
#[derive(Clone, Copy, Drop)]
pub enum Row {
    /// A memory: its number, its state, and the states in which its function may end.
    Memory(u32, (StateId, StateSet)),
    /// A position, and a memory with which a run may come there.
    Live((PosId, MemId)),
    /// What is tried at a seam and a stage.
    Try(TryRow),
    /// The memory after a label.
    At(AtRow),
    /// The memory after an open.
    Opened(OpenRow),
    /// The memory after a close.
    Closed(AtRow),
    /// The memory with which a called function begins.
    Into(IntoRow),
    /// The memory after a call.
    Back(BackRow),
}
