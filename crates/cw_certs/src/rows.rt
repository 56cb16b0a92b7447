//! The rows of a table.

use cw_core::{MemId, SeamId, StateId};

/// At this stage of this seam, with this memory, the primitive is tried; then the memory by the answer, None where
/// that answer never comes.
#[derive(Clone, Copy, Drop, Debug, PartialEq, Eq)]
pub struct TryRow {
    pub seam: SeamId,
    pub stage: u8,
    pub mem: MemId,
    pub granted: Option<MemId>,
    pub refused: Option<MemId>,
}

/// The memory after a label, or after a close, of this seam.
#[derive(Clone, Copy, Drop, Debug, PartialEq, Eq)]
pub struct AtRow {
    pub seam: SeamId,
    pub mem: MemId,
    pub after: MemId,
}

/// The memory after an open that gave a descriptor, and after one that failed.
#[derive(Clone, Copy, Drop, Debug, PartialEq, Eq)]
pub struct OpenRow {
    pub seam: SeamId,
    pub mem: MemId,
    pub opened: MemId,
    pub failed: MemId,
}

/// The memory with which a called function begins. `split` tells whether it runs in a process of its own.
#[derive(Clone, Copy, Drop, Debug, PartialEq, Eq)]
pub struct IntoRow {
    pub seam: SeamId,
    pub split: bool,
    pub mem: MemId,
    pub callee: MemId,
}

/// The memory after a call, by that before it and by the state in which the called function ended.
#[derive(Clone, Copy, Drop, Debug, PartialEq, Eq)]
pub struct BackRow {
    pub seam: SeamId,
    pub split: bool,
    pub mem: MemId,
    pub exit: StateId,
    pub after: MemId,
}
