//! Tapes by their texts.

use cw_certs::Move;
use cw_text::{TextFault, read_tape};
use std::alloc::Global;
use std::process::Abort;

/// A text, whether it is a play's, and its moves, or the line at fault, 0 where there is none.
type Tape<'t> = (&'t str, bool, &'t [Move], u32);

/// Whether this is read of a text.
fn is_read(alloc: Global, text: &str, play: bool, wanted: &[Move], line: u32) -> bool {
    if text.len() > 16777216 {
        return false;
    }
    match read_tape(alloc, text.as_bytes(), play) {
        Ok(moves) => line == 0 && moves.as_slice() == wanted,
        Err(TextFault::Line(number)) => line == number && wanted.is_empty(),
        Err(_) => false,
    }
}

/// Asserts what is read of texts.
fn are_read(rt: &impl Abort, alloc: Global, tapes: &[Tape]) {
    for (text, play, wanted, line) in tapes {
        assert!(rt; is_read(alloc, text, *play, wanted, *line), "{text}");
    }
}

#[test]
fn tapes_are_read(rt: HostRuntime) {
    are_read(
        &rt,
        rt.alloc(),
        &[
            (
                "on grant\n\n refuse\tleft\r\nright\x0bopened\x0cfailed",
                false,
                &[
                    Move::On,
                    Move::Grant,
                    Move::Refuse,
                    Move::Left,
                    Move::Right,
                    Move::Opened,
                    Move::Failed,
                ],
                0,
            ),
            (" try\nskip \n", true, &[Move::Try, Move::Skip], 0),
            ("", true, &[], 0),
            (" \n\t\n", false, &[], 0),
            ("try skip", true, &[Move::Try, Move::Skip], 0),
        ],
    );
}

#[test]
fn the_first_other_field_is_told(rt: HostRuntime) {
    are_read(
        &rt,
        rt.alloc(),
        &[
            ("on grnat", false, &[], 1),
            ("skip\r\ntry\n\n on stop", true, &[], 4),
            ("skip", false, &[], 1),
            ("try,try", true, &[], 1),
        ],
    );
}
