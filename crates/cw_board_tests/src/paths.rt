//! The path that a run keeps.

use cw_boards::{Front, Phase, Seen, erased};
use std::alloc::Global;
use std::process::Abort;

/// Of `int main(void){a:;return 0;}`: enter is skipped at the entry (0), and tried and granted at the label (1); then come its
/// statement (2), the return (3), the end (4).
const STATES: [Seen; 9] = [
    Seen {
        phase: Phase::Visit,
        front: Some(Front(0)),
    },
    Seen {
        phase: Phase::Free,
        front: Some(Front(0)),
    },
    Seen {
        phase: Phase::Visit,
        front: Some(Front(1)),
    },
    Seen {
        phase: Phase::Asked,
        front: Some(Front(1)),
    },
    Seen {
        phase: Phase::Free,
        front: Some(Front(1)),
    },
    Seen {
        phase: Phase::Free,
        front: Some(Front(2)),
    },
    Seen {
        phase: Phase::Free,
        front: Some(Front(3)),
    },
    Seen {
        phase: Phase::Free,
        front: Some(Front(4)),
    },
    Seen {
        phase: Phase::Over,
        front: None,
    },
];

/// Whether these states keep this path.
fn is_path(alloc: Global, states: &[Seen], path: &[Front]) -> bool {
    match erased(alloc, states) {
        Ok(kept) => kept.as_slice() == path,
        Err(_) => false,
    }
}

/// Asserts which paths states keep.
fn are_paths(rt: &impl Abort, alloc: Global, rows: &[(&[Seen], &[Front])]) {
    for (states, path) in rows {
        assert!(rt; is_path(alloc, states, path));
    }
}

#[test]
fn the_path_of_a_label_and_a_return(rt: HostRuntime) {
    are_paths(
        &rt,
        rt.alloc(),
        &[
            (
                STATES.as_slice(),
                &[Front(0), Front(1), Front(2), Front(3), Front(4)],
            ),
            // broken off while enter is asked
            (&STATES.as_slice()[..4], &[Front(0)]),
        ],
    );
}
