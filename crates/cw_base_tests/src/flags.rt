//! Flags over three limbs against counts by hand.

use cw_links::Flags;
use std::alloc::Global;
use std::process::Abort;

fn push_flag(rt: &impl Abort, flags: &mut Flags, flag: bool) {
    assert!(rt; flags.len() < 1000);
    flags.push(flag).expect(rt, "memory");
}

fn push_plain(rt: &impl Abort, flags: &mut Flags, many: u32) {
    assert!(rt; flags.len() < 1000 && many < 1000);
    flags.push_plain(many).expect(rt, "memory");
}

/// Flags of the indices of a text: each `#` is a flagged index, and each other byte a plain one.
fn flags_of(rt: &impl Abort, alloc: Global, text: &str) -> Flags {
    let mut flags = Flags::make(alloc);
    for byte in text.as_bytes() {
        push_flag(rt, &mut flags, *byte == b'#');
    }
    flags
}

/// Flags of 135 indices, of which 0, 63 and 134 are flagged, and the others are added at once.
fn flags_apart(rt: &impl Abort, alloc: Global) -> Flags {
    let mut flags = Flags::make(alloc);
    push_flag(rt, &mut flags, true);
    push_plain(rt, &mut flags, 62);
    push_flag(rt, &mut flags, true);
    push_plain(rt, &mut flags, 70);
    push_flag(rt, &mut flags, true);
    flags
}

fn rank_of(flags: &Flags, index: usize) -> Option<u32> {
    if index <= flags.len() {
        Some(flags.rank(index))
    } else {
        None
    }
}

fn flag_of(flags: &Flags, index: usize) -> Option<bool> {
    if index < flags.len() {
        Some(flags.is_flagged(index))
    } else {
        None
    }
}

fn index_of(flags: &Flags, before: u32) -> Option<usize> {
    if before < flags.flagged() {
        Some(flags.index(before))
    } else {
        None
    }
}

/// Asserts how many flags stand before each of these indices.
fn all_ranks(rt: &impl Abort, flags: &Flags, ranks: &[(usize, u32)]) {
    for (index, rank) in ranks {
        assert!(rt; rank_of(flags, *index) == Some(*rank), "rank of {index}");
    }
}

/// Asserts whether each of these indices is flagged.
fn all_flags(rt: &impl Abort, flags: &Flags, indices: &[(usize, bool)]) {
    for (index, is_flagged) in indices {
        assert!(rt;
            flag_of(flags, *index) == Some(*is_flagged),
            "flag of {index}"
        );
    }
}

/// Asserts where the flag stands that so many stand before.
fn all_indices(rt: &impl Abort, flags: &Flags, indices: &[(u32, usize)]) {
    for (before, index) in indices {
        assert!(rt;
            index_of(flags, *before) == Some(*index),
            "index of {before}"
        );
    }
}

#[test]
fn counts_and_finds_flags(rt: HostRuntime) {
    // 130 indices, of which 0, 63, 64 and 128 are flagged
    let text =
        "#..............................................................##...............................................................#.";
    let flags = flags_of(&rt, rt.alloc(), text);
    assert!(rt; flags.len() == 130 && flags.flagged() == 4);
    all_ranks(
        &rt,
        &flags,
        &[
            (0, 0),
            (1, 1),
            (63, 1),
            (64, 2),
            (65, 3),
            (127, 3),
            (128, 3),
            (129, 4),
            (130, 4),
        ],
    );
    all_flags(&rt, &flags, &[(128, true), (129, false)]);
    all_indices(&rt, &flags, &[(0, 0), (1, 63), (2, 64), (3, 128)]);
}

#[test]
fn indices_without_flags_stand_between(rt: HostRuntime) {
    let flags = flags_apart(&rt, rt.alloc());
    assert!(rt; flags.len() == 135 && flags.flagged() == 3);
    all_ranks(
        &rt,
        &flags,
        &[
            (0, 0),
            (1, 1),
            (63, 1),
            (64, 2),
            (65, 2),
            (127, 2),
            (128, 2),
            (134, 2),
            (135, 3),
        ],
    );
    all_flags(&rt, &flags, &[(63, true), (64, false), (133, false)]);
    all_indices(&rt, &flags, &[(0, 0), (1, 63), (2, 134)]);
}
