//! What no clause says: the texts themselves, and that a call succeeds.

use cw_core::{
    Line, NoMemory, Quantity, StateId, StateSet, decimal_is_read_back, put_dec, put_hex,
    put_ranges, read_dec, read_hex, read_ranges, runs_are_maximal, set_is_read_back,
    spelling_is_read_back,
};
use std::alloc::{AllocError, Global};
use std::cmp::Ordering;
use std::process::Abort;

fn decimal_of(rt: &impl Abort, alloc: Global, number: u64) -> Vec<u8> {
    let mut text = Vec::new(alloc);
    put_dec(number, &mut text).expect(rt, "memory");
    text
}

/// The number that is read of a text behind so many bytes, and where it ends.
fn number_in(rt: &impl Abort, text: &[u8], at: usize) -> Option<(u64, usize)> {
    assert!(rt; at <= text.len());
    read_dec(text, at)
}

/// Asserts that each of these numbers is written so, and read back.
fn all_decimal(rt: &impl Abort, alloc: Global, numbers: &[(u64, &str)]) {
    for (number, want) in numbers {
        let text = decimal_of(rt, alloc, *number);
        assert!(rt; text.as_slice() == want.as_bytes(), "at {want}");
        assert!(rt;
            number_in(rt, &text, 0) == Some((*number, text.len())),
            "at {want}"
        );
        decimal_is_read_back(*number, b"a", b",");
    }
}

#[test]
fn numbers_are_written_and_read_back(rt: HostRuntime) {
    all_decimal(
        &rt,
        rt.alloc(),
        &[
            (0, "0"),
            (7, "7"),
            (10, "10"),
            (u64::MAX, "18446744073709551615"),
        ],
    );
}

/// Asserts what number is read of each of these texts behind so many bytes, and where it ends.
fn all_numbers(rt: &impl Abort, texts: &[(&str, usize, Option<(u64, usize)>)]) {
    for (text, at, want) in texts {
        assert!(rt; number_in(rt, text.as_bytes(), *at) == *want, "at {text}");
    }
}

#[test]
fn numbers_are_read_exactly(rt: HostRuntime) {
    all_numbers(
        &rt,
        &[
            ("007", 0, None),
            ("007", 2, Some((7, 3))),
            ("00", 0, None),
            ("0,", 0, Some((0, 1))),
            ("a12,3", 1, Some((12, 3))),
            ("a12,3", 0, None),
            ("+1", 0, None),
            ("12", 2, None),
            ("", 0, None),
            ("18446744073709551616", 0, None),
            ("99999999999999999999", 0, None),
            ("100000000000000000000", 0, None),
        ],
    );
}

/// The numbers from the least to the greatest, none where the least is above it, and further ones.
fn set_of(least: u16, greatest: u16, further: &[u16]) -> StateSet {
    let mut set = StateSet::empty()
        .complement_in(least.min(1024))
        .complement_in(greatest.saturating_add(1).min(1024));
    for number in further {
        if *number < 1024 {
            set.insert(StateId(*number));
        }
    }
    set
}

/// A set as it is written, as a mask or in ranges.
fn text_of(rt: &impl Abort, alloc: Global, in_ranges: bool, set: &StateSet) -> Vec<u8> {
    let mut text = Vec::new(alloc);
    let written = if in_ranges {
        put_ranges(set, &mut text)
    } else {
        put_hex(set, &mut text)
    };
    written.expect(rt, "memory");
    text
}

/// The set that is read of a text behind so many bytes, as a mask or in ranges, and where it ends.
fn set_in(rt: &impl Abort, in_ranges: bool, text: &[u8], at: usize) -> Option<(StateSet, usize)> {
    assert!(rt; at <= text.len());
    if in_ranges {
        read_ranges(text, at)
    } else {
        read_hex(text, at)
    }
}

fn call_laws(set: &StateSet) {
    set_is_read_back(set, b"a", b",");
    spelling_is_read_back(set, b"a", b",");
    runs_are_maximal(set);
}

/// Asserts that a set is written so, as a mask or in ranges, and read back.
fn expect_written(rt: &impl Abort, alloc: Global, in_ranges: bool, set: &StateSet, want: &str) {
    let text = text_of(rt, alloc, in_ranges, set);
    assert!(rt; text.as_slice() == want.as_bytes(), "at {want}");
    assert!(rt;
        set_in(rt, in_ranges, &text, 0) == Some((*set, text.len())),
        "at {want}"
    );
    call_laws(set);
}

/// Asserts that each of these sets, told as [`set_of`] takes them, is written so, and read back.
fn all_written(rt: &impl Abort, alloc: Global, in_ranges: bool, sets: &[(u16, u16, &[u16], &str)]) {
    for (least, greatest, further, want) in sets {
        expect_written(
            rt,
            alloc,
            in_ranges,
            &set_of(*least, *greatest, further),
            want,
        );
    }
}

#[test]
fn sets_are_written_and_read_back(rt: HostRuntime) {
    all_written(
        &rt,
        rt.alloc(),
        false,
        &[
            (1, 0, &[], "0x0"),
            (0, 3, &[], "0xf"),
            (4, 4, &[], "0x10"),
            (64, 64, &[], "0x10000000000000000"),
            (
                1022,
                1022,
                &[],
                "0x4000000000000000000000000000000000000000000000000000000000000000000000000000000000000000000000000000000000000000000000000000000000000000000000000000000000000000000000000000000000000000000000000000000000000000000000000000000000000000000000000000000000000000",
            ),
            (
                1,
                0,
                &[1023],
                "0x8000000000000000000000000000000000000000000000000000000000000000000000000000000000000000000000000000000000000000000000000000000000000000000000000000000000000000000000000000000000000000000000000000000000000000000000000000000000000000000000000000000000000000",
            ),
            (
                0,
                1023,
                &[],
                "0xffffffffffffffffffffffffffffffffffffffffffffffffffffffffffffffffffffffffffffffffffffffffffffffffffffffffffffffffffffffffffffffffffffffffffffffffffffffffffffffffffffffffffffffffffffffffffffffffffffffffffffffffffffffffffffffffffffffffffffffffffffffffffffffff",
            ),
        ],
    );
}

/// Asserts what set is read of each of these texts behind so many bytes, as a mask or in ranges: its least and its greatest number, which is
/// below the least where the set is empty, and where it ends.
fn all_read(rt: &impl Abort, in_ranges: bool, texts: &[(&str, usize, Option<(u16, u16, usize)>)]) {
    for (text, at, want) in texts {
        let read = set_in(rt, in_ranges, text.as_bytes(), *at);
        let wanted = match want {
            None => None,
            Some((least, greatest, end)) => Some((set_of(*least, *greatest, &[]), *end)),
        };
        assert!(rt; read == wanted, "at {text}");
    }
}

#[test]
fn sets_are_read_exactly(rt: HostRuntime) {
    all_read(
        &rt,
        false,
        &[
            ("0x0f", 0, None),
            ("0x00", 0, None),
            ("0x0)", 0, Some((1, 0, 3))),
            ("0xf", 0, Some((0, 3, 3))),
            ("a0x1F", 1, Some((0, 0, 4))),
            ("a0x1F", 0, None),
            ("0xF", 0, None),
            ("0X1", 0, None),
            ("0x", 0, None),
            ("0xg", 0, None),
            ("0", 0, None),
            ("", 0, None),
            (
                "0x10000000000000000000000000000000000000000000000000000000000000000000000000000000000000000000000000000000000000000000000000000000000000000000000000000000000000000000000000000000000000000000000000000000000000000000000000000000000000000000000000000000000000000",
                0,
                None,
            ),
            (
                "0x0fffffffffffffffffffffffffffffffffffffffffffffffffffffffffffffffffffffffffffffffffffffffffffffffffffffffffffffffffffffffffffffffffffffffffffffffffffffffffffffffffffffffffffffffffffffffffffffffffffffffffffffffffffffffffffffffffffffffffffffffffffffffffffffff",
                0,
                None,
            ),
        ],
    );
}

#[test]
fn ranges_are_written_and_read_back(rt: HostRuntime) {
    all_written(
        &rt,
        rt.alloc(),
        true,
        &[
            (1, 0, &[], "0x0"),
            (5, 5, &[], "5"),
            (0, 3, &[], "0xf"),
            (0, 11, &[], "0-11"),
            (0, 639, &[], "0-639"),
            (0, 1023, &[], "0-1023"),
            (7, 12, &[0, 14, 1023], "0+7-12+14+1023"),
        ],
    );
    let mut even = StateSet::empty();
    for half in 0..512 {
        even.insert(StateId(2 * half));
    }
    expect_written(
        &rt,
        rt.alloc(),
        true,
        &even,
        "0x5555555555555555555555555555555555555555555555555555555555555555555555555555555555555555555555555555555555555555555555555555555555555555555555555555555555555555555555555555555555555555555555555555555555555555555555555555555555555555555555555555555555555555",
    );
}

#[test]
fn ranges_are_read_exactly(rt: HostRuntime) {
    all_read(
        &rt,
        true,
        &[
            ("0-3", 0, None),
            ("0xf", 0, Some((0, 3, 3))),
            ("0x10", 0, None),
            ("0x20", 0, None),
            ("5", 0, Some((5, 5, 1))),
            ("5-5", 0, None),
            ("0-11", 0, Some((0, 11, 4))),
            ("(0-11,1)", 1, Some((0, 11, 5))),
            ("0-11+", 0, None),
            ("0-11a", 0, None),
            ("0-5+6-11", 0, None),
            ("6-11+0-4", 0, None),
            ("00-11", 0, None),
            ("1024", 0, None),
            ("+5", 0, None),
            ("0", 0, Some((0, 0, 1))),
            ("0x1", 0, None),
            ("", 0, None),
        ],
    );
}

fn is_line(line: &Line, text: &str) -> bool {
    line.bytes() == text.as_bytes()
}

fn set_number(line: &mut Line, number: u64) {
    line.clear();
    line.put_number(number);
}

fn set_mask(line: &mut Line, set: &StateSet) {
    line.clear();
    line.put_mask(set);
}

fn set_ranges(line: &mut Line, set: &StateSet) {
    line.clear();
    line.put_ranges(set);
}

#[test]
fn lines_are_put_together(rt: HostRuntime) {
    let mut line = Line::new();
    line.put_text(b"CW_MEM(");
    assert!(rt; is_line(&line, "CW_MEM("));
    set_number(&mut line, u64::MAX);
    assert!(rt; is_line(&line, "18446744073709551615"));
    set_mask(&mut line, &set_of(0, 3, &[]));
    assert!(rt; is_line(&line, "0xf"));
    assert!(rt; line.room() == 1021);
    set_ranges(&mut line, &set_of(0, 11, &[]));
    assert!(rt; is_line(&line, "0-11"));
}

/// Whether a set has each of these numbers.
fn has_all(rt: &impl Abort, set: &StateSet, numbers: &[u16]) -> bool {
    for number in numbers {
        assert!(rt; *number < 1024);
        if !set.contains(StateId(*number)) {
            return false;
        }
    }
    true
}

/// Puts each of these numbers into a set that lacks it, and asserts that it is there.
fn insert_all(rt: &impl Abort, set: &mut StateSet, numbers: &[u16]) {
    for number in numbers {
        assert!(rt; *number < 1024 && !set.contains(StateId(*number)));
        set.insert(StateId(*number));
        assert!(rt; set.contains(StateId(*number)));
    }
}

/// Whether the one set is a part of the other and not the whole.
fn is_less(set: &StateSet, whole: &StateSet) -> bool {
    set.is_subset(whole)
        && !whole.is_subset(set)
        && set != whole
        && set.cmp(whole) == Ordering::Less
}

#[test]
fn sets_are_sets(rt: HostRuntime) {
    let mut set = StateSet::empty();
    insert_all(&rt, &mut set, &[0, 63, 64, 1023]);
    let before = set;
    set.remove(StateId(63));
    assert!(rt; !set.contains(StateId(63)) && has_all(&rt, &set, &[64, 1023]));
    assert!(rt; is_less(&set, &before));
    let rest = set.complement_in(1024);
    assert!(rt; rest.contains(StateId(63)) && !rest.contains(StateId(64)));
    let again = rest.complement_in(1024);
    assert!(rt; again == set);
    set.fact_members_are_below_1024();
    set.fact_number_is_sum();
    set.fact_same_members(&again);
}

/// Asserts the name of each of these quantities.
fn all_named(rt: &impl Abort, names: &[(Quantity, &str)]) {
    for (quantity, name) in names {
        assert!(rt; quantity.name() == *name, "{name}");
    }
}

#[test]
fn quantities_have_names_and_limits(rt: HostRuntime) {
    all_named(
        &rt,
        &[
            (Quantity::PolicyBytes, "policy bytes"),
            (Quantity::RulePositions, "rule positions"),
            (Quantity::PositionsTimesStates, "positions times states"),
        ],
    );
    assert!(rt; Quantity::ProductStates.limit() == 512);
    assert!(rt; Quantity::ProductStates.limit_in(2) == 1024);
}

#[test]
fn want_of_memory_is_told(rt: HostRuntime) {
    let refused = NoMemory::from(AllocError);
    let text = refused.to_string(rt.alloc()).expect(&rt, "memory");
    assert!(rt; text.as_str() == "out of memory");
}
