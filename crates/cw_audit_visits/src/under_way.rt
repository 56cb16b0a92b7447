//! A search under way.

use cw_audit_store::{Frontier, Store};

/// A search: what it has found, and what it visits next.
#[derive(Drop)]
pub struct Search {
    pub store: Store,
    pub frontier: Frontier,
}
