//! Strategies as text: each fault with its line, both formats. A test that lacks memory ends at once.

use crate::given::{put, put_numbered, put_rows};
use cw_certs::{EnvCert, EnvRow, How};
use cw_core::{PosId, StateId, StateSet};
use cw_io::{MemSink, SinkFault, SureSink};
use cw_strategy_text::{print_env, read_again, read_env};
use cw_text::TextFault;
use std::alloc::Global;
use std::mem::forget;
use std::process::Abort;

const FIRST: &str = "capweave strategy 1\nstates 4\n";

const SECOND: &str = "capweave strategy 2\nstates 4\n";

/// Whether a strategy is printed as this text.
fn is_text(alloc: Global, cert: &EnvCert, format: u8, text: &[u8]) -> bool {
    let mut sink = SureSink::make(alloc);
    print_env(cert, format, &mut sink).is_ok() && sink.bytes() == text
}

/// The fault of a text, or none where it is a strategy's, which is then printed as the same text; NoMemory where it isn't.
fn fault_of(alloc: Global, text: &[u8], format: u8) -> Option<TextFault> {
    match read_env(alloc, text, format) {
        Err(fault) => Some(fault),
        Ok(cert) => {
            let same = is_text(alloc, &cert, format, text);
            forget(cert);
            if same {
                None
            } else {
                Some(TextFault::NoMemory)
            }
        }
    }
}

/// Asserts that rows behind this head and before this tail are a strategy's text of this format, or have this fault.
fn is_read(
    rt: &impl Abort,
    alloc: Global,
    format: u8,
    head: &str,
    rows: &str,
    tail: &str,
    want: Option<TextFault>,
) {
    let text = format!(in alloc; "{head}{rows}{tail}").expect(rt, "memory");
    assert!(rt;
        fault_of(alloc, text.as_bytes(), format) == want,
        "format {format}: {rows}"
    );
}

/// Asserts that each of these texts, behind this head and before this tail, is a strategy's of this format, or has this fault.
fn all_read(
    rt: &impl Abort,
    alloc: Global,
    format: u8,
    head: &str,
    tail: &str,
    texts: &[(&str, Option<TextFault>)],
) {
    for (rows, want) in texts {
        is_read(rt, alloc, format, head, rows, tail, *want);
    }
}

#[test]
fn first_lines(rt: HostRuntime) {
    let alloc = rt.alloc();
    all_read(
        &rt,
        alloc,
        1,
        "",
        "",
        &[
            ("", Some(TextFault::Line(1))),
            ("capweave strategy 1", Some(TextFault::Line(1))),
            (
                "capweave strategy 2\nstates 4\nend\n",
                Some(TextFault::Line(1)),
            ),
            (
                "capweave strategy 01\nstates 4\nend\n",
                Some(TextFault::Line(1)),
            ),
            (
                "Capweave strategy 1\nstates 4\nend\n",
                Some(TextFault::Line(1)),
            ),
            (
                " capweave strategy 1\nstates 4\nend\n",
                Some(TextFault::Line(1)),
            ),
            (
                "capweave strategy 1 \nstates 4\nend\n",
                Some(TextFault::Line(1)),
            ),
            (
                "capweave strategy 1\r\nstates 4\nend\n",
                Some(TextFault::Line(1)),
            ),
            ("capweave strategy 1\n", Some(TextFault::Line(2))),
            ("capweave strategy 1\nstates 4", Some(TextFault::Line(2))),
            (
                "capweave strategy 1\nstates 04\nend\n",
                Some(TextFault::Line(2)),
            ),
            (
                "capweave strategy 1\nstates 65536\nend\n",
                Some(TextFault::Line(2)),
            ),
            ("capweave strategy 1\nstates 65535\nend\n", None),
            (
                "capweave strategy 1\nstates  4\nend\n",
                Some(TextFault::Line(2)),
            ),
            (
                "capweave strategy 1\nstates\nend\n",
                Some(TextFault::Line(2)),
            ),
            (
                "capweave strategy 1\nstates 4 4\nend\n",
                Some(TextFault::Line(2)),
            ),
            (
                "capweave strategy 1\nstate 4\nend\n",
                Some(TextFault::Line(2)),
            ),
        ],
    );
    all_read(
        &rt,
        alloc,
        2,
        "",
        "",
        &[(
            "capweave strategy 1\nstates 4\nend\n",
            Some(TextFault::Line(1)),
        )],
    );
}

#[test]
fn rows_of_the_first_format(rt: HostRuntime) {
    all_read(
        &rt,
        rt.alloc(),
        1,
        FIRST,
        "",
        &[
            ("end\n", None),
            ("", Some(TextFault::Line(3))),
            ("end", Some(TextFault::Line(3))),
            ("end\n\n", Some(TextFault::Line(4))),
            ("end\nx", Some(TextFault::Line(4))),
            ("end\nend\n", Some(TextFault::Line(4))),
            ("0 1 2 0x0 bad\n", Some(TextFault::Line(4))),
            ("0 1 2 0x0 bad", Some(TextFault::Line(3))),
            ("0 1 2 0x0 bad\nend\n", None),
            ("00 1 2 0x0 bad\nend\n", Some(TextFault::Line(3))),
            ("0 01 2 0x0 bad\nend\n", Some(TextFault::Line(3))),
            ("0 1 02 0x0 bad\nend\n", Some(TextFault::Line(3))),
            ("0 1 2 0x00 bad\nend\n", Some(TextFault::Line(3))),
            ("0 1 2 0x bad\nend\n", Some(TextFault::Line(3))),
            ("0 1 2 0xA bad\nend\n", Some(TextFault::Line(3))),
            ("0 1 2 0X0 bad\nend\n", Some(TextFault::Line(3))),
            ("0 1 2 0 bad\nend\n", Some(TextFault::Line(3))),
            (
                "0 1 2 0x100000000000000000000000000000000000000000000000000000000000000000000000000000000000000000000000000000000000000000000000000000000 bad\nend\n",
                Some(TextFault::Line(3)),
            ),
            (
                "0 1 2 0x80000000000000000000000000000000000000000000000000000000000000000000000000000000000000000000000000000000000000000000000000000000 out\nend\n",
                None,
            ),
            ("0 1 2 0-11 bad\nend\n", Some(TextFault::Line(3))),
            ("0 4294967295 65535 0x0 bad\nend\n", None),
            ("0 4294967296 2 0x0 bad\nend\n", Some(TextFault::Line(3))),
            ("0 1 65536 0x0 bad\nend\n", Some(TextFault::Line(3))),
            ("1 1 2 0x0 bad\nend\n", Some(TextFault::Order(3))),
            ("4294967295 1 2 0x0 bad\nend\n", Some(TextFault::Order(3))),
            ("4294967296 1 2 0x0 bad\nend\n", Some(TextFault::Line(3))),
            (
                "18446744073709551616 1 2 0x0 bad\nend\n",
                Some(TextFault::Line(3)),
            ),
            (
                "0 1 2 0x0 bad\n0 1 2 0x0 bad\nend\n",
                Some(TextFault::Order(4)),
            ),
            (
                "0 1 2 0x0 bad\n2 1 2 0x0 bad\nend\n",
                Some(TextFault::Order(4)),
            ),
            (
                "0 1 2 0x0 bad\n2 1 2 0x0 Bad\nend\n",
                Some(TextFault::Line(4)),
            ),
            ("0 1 2 0x0 bad\nend\nend\n", Some(TextFault::Line(5))),
            ("0 1 2 0x0 bad\n\nend\n", Some(TextFault::Line(4))),
            ("0 1 2 0x0 bad \nend\n", Some(TextFault::Line(3))),
            ("0 1 2 0x0  bad\nend\n", Some(TextFault::Line(3))),
            ("0 1 2 0x0 bad 1\nend\n", Some(TextFault::Line(3))),
            ("0 1 2 0x0 out 1\nend\n", Some(TextFault::Line(3))),
            ("0 1 2 0x0\nend\n", Some(TextFault::Line(3))),
            ("0 1 2\nend\n", Some(TextFault::Line(3))),
            ("0 1 2 0x0 both 1\nend\n", Some(TextFault::Line(3))),
            ("0 1 2 0x0 both 1 2\nend\n", None),
            ("0 1 2 0x0 both 1 2 3\nend\n", Some(TextFault::Line(3))),
            ("0 1 2 0x0 both 01 2\nend\n", Some(TextFault::Line(3))),
            (
                "0 1 2 0x0 both 1 4294967296\nend\n",
                Some(TextFault::Line(3)),
            ),
            ("0 1 2 0x0 skip 1\nend\n", Some(TextFault::Line(3))),
            ("0 1 2 0x0 try 1\nend\n", Some(TextFault::Line(3))),
            ("0 1 2 0x0 stop 1\nend\n", Some(TextFault::Line(3))),
            ("0 1 2 0x0 grant\nend\n", Some(TextFault::Line(3))),
            ("0 1 2 0x0 grant 1 2\nend\n", Some(TextFault::Line(3))),
            (
                "0 1 2 0x0 left 1\n1 1 2 0x0 right 0\n2 1 2 0x0 opened 0\n3 1 2 0x0 failed 0\n4 1 2 0x0 refuse 0\n5 1 2 0x0 on 0\n6 1 2 0x0 grant 9\nend\n",
                None,
            ),
            ("0 1 2 0x0 into\nend\n", Some(TextFault::Line(3))),
            ("0 1 2 0x0 into 7\nend\n", None),
            ("0 1 2 0x1a into 7 1=5 12=3\nend\n", None),
            ("0 1 2 0x0 into 7 1=5 1=3\nend\n", Some(TextFault::Line(3))),
            ("0 1 2 0x0 into 7 12=5 1=3\nend\n", Some(TextFault::Line(3))),
            ("0 1 2 0x0 into 7 1=5=6\nend\n", Some(TextFault::Line(3))),
            ("0 1 2 0x0 into 7 1\nend\n", Some(TextFault::Line(3))),
            ("0 1 2 0x0 into 7 01=5\nend\n", Some(TextFault::Line(3))),
            ("0 1 2 0x0 into 7 1=05\nend\n", Some(TextFault::Line(3))),
            ("0 1 2 0x0 into 7 65535=4294967295\nend\n", None),
            ("0 1 2 0x0 into 7 65536=5\nend\n", Some(TextFault::Line(3))),
            (
                "0 1 2 0x0 into 7 1=4294967296\nend\n",
                Some(TextFault::Line(3)),
            ),
            ("0 1 2 0x0 into 7 1=5 \nend\n", Some(TextFault::Line(3))),
            ("1 1 2 0x0 into 7 2=5 1=5\nend\n", Some(TextFault::Line(3))),
        ],
    );
}

#[test]
fn rows_of_the_second_format(rt: HostRuntime) {
    all_read(
        &rt,
        rt.alloc(),
        2,
        SECOND,
        "",
        &[
            (
                "0 1 2 0x100000000000000000000000000000000000000000000000000000000000000000000000000000000000000000000000000000000000000000000000000000000 bad\nend\n",
                Some(TextFault::Line(3)),
            ),
            ("0 1 2 512 bad\nend\n", None),
            ("0 1 2 1023 bad\nend\n", None),
            ("0 1 2 1024 bad\nend\n", Some(TextFault::Line(3))),
            (
                "0 1 2 0xf bad\n1 1 2 0-11 bad\n2 1 2 0+2+640-1023 bad\n3 1 2 0x0 out\nend\n",
                None,
            ),
            ("0 1 2 0-3 bad\nend\n", Some(TextFault::Line(3))),
            ("0 1 2 0xfff bad\nend\n", Some(TextFault::Line(3))),
            ("0 1 2 11-0 bad\nend\n", Some(TextFault::Line(3))),
            ("0 1 2 2+0 bad\nend\n", Some(TextFault::Line(3))),
        ],
    );
}

/// A set with the number 511 is one of format 1, a set with the number 512 one of format 2 alone.
#[test]
fn largest_numbers_of_a_set(rt: HostRuntime) {
    let alloc = rt.alloc();
    all_read(
        &rt,
        alloc,
        1,
        FIRST,
        " bad\nend\n",
        &[
            (
                "0 1 2 0x80000000000000000000000000000000000000000000000000000000000000000000000000000000000000000000000000000000000000000000000000000000",
                None,
            ),
            (
                "0 1 2 0x100000000000000000000000000000000000000000000000000000000000000000000000000000000000000000000000000000000000000000000000000000000",
                Some(TextFault::Line(3)),
            ),
        ],
    );
    all_read(
        &rt,
        alloc,
        2,
        SECOND,
        " bad\nend\n",
        &[
            (
                "0 1 2 0x80000000000000000000000000000000000000000000000000000000000000000000000000000000000000000000000000000000000000000000000000000000",
                Some(TextFault::Line(3)),
            ),
            (
                "0 1 2 0xc0000000000000000000000000000000000000000000000000000000000000000000000000000000000000000000000000000000000000000000000000000000",
                Some(TextFault::Line(3)),
            ),
        ],
    );
}

/// Asserts that these rows are a strategy's behind the head of this format, and that they are none under the other format's head, and none
/// without the last LF, whose line has this number.
fn is_whole(
    rt: &impl Abort,
    alloc: Global,
    format: u8,
    head: &str,
    other: &str,
    rows: &str,
    last: u32,
) {
    is_read(rt, alloc, format, head, rows, "end\n", None);
    is_read(
        rt,
        alloc,
        format,
        other,
        rows,
        "end\n",
        Some(TextFault::Line(1)),
    );
    is_read(
        rt,
        alloc,
        format,
        head,
        rows,
        "end",
        Some(TextFault::Line(last)),
    );
}

/// Asserts that these rows are a strategy's in both formats, and that its text in the other format and without its last LF is none.
fn all_whole(rt: &impl Abort, alloc: Global, strategies: &[(&str, u32)]) {
    for (rows, last) in strategies {
        is_whole(rt, alloc, 1, FIRST, SECOND, rows, *last);
        is_whole(rt, alloc, 2, SECOND, FIRST, rows, *last);
    }
}

/// A label must be passed with ambient authority, a later one without, and nothing stands between both; and a refused
/// enter. Without its last LF, and in the other format, neither is a strategy's text.
#[test]
fn whole_strategies(rt: HostRuntime) {
    all_whole(
        &rt,
        rt.alloc(),
        &[
            (
                "0 5 0 0x0 bad\n1 9 3 0x0 bad\n2 8 3 0x0 grant 1\n3 7 3 0x0 both 1 2\n4 6 3 0x0 on 3\n5 5 1 0x0 on 4\n6 4 0 0x0 grant 5\n7 4 1 0x0 grant 5\n8 3 0 0x0 both 0 6\n9 3 1 0x0 both 5 7\n10 2 0 0x0 on 8\n11 2 1 0x0 on 9\n12 1 0 0x0 grant 11\n13 0 0 0x0 both 10 12\n",
                17,
            ),
            (
                "0 5 0 0x0 bad\n1 4 0 0x0 refuse 0\n2 3 0 0x0 both 0 1\n3 2 0 0x0 on 2\n4 1 0 0x0 refuse 3\n5 0 0 0x0 both 3 4\n",
                9,
            ),
        ],
    );
}

/// Asserts that a text of so many rows that are bad, and of one more row with so many backs, is a strategy's, or has this fault.
fn is_long(rt: &impl Abort, alloc: Global, bad: u64, backs: u64, want: Option<TextFault>) {
    let mut text = String::new(alloc);
    put(rt, &mut text, FIRST);
    put_rows(rt, &mut text, "", 0, bad, " 0 0 0x0 bad\n");
    put_numbered(rt, &mut text, "", bad, " 0 0 0x0 into 0");
    put_rows(rt, &mut text, " ", 0, backs, "=0");
    put(rt, &mut text, "\nend\n");
    assert!(rt;
        fault_of(alloc, text.as_bytes(), 1) == want,
        "{bad} {backs}"
    );
}

/// Asserts the same of each of these.
fn all_long(rt: &impl Abort, alloc: Global, rows: &[(u64, u64, Option<TextFault>)]) {
    for (bad, backs, want) in rows {
        is_long(rt, alloc, *bad, *backs, *want);
    }
}

/// Rows and backs together are at most 65,536.
#[test]
fn most_rows(rt: HostRuntime) {
    all_long(
        &rt,
        rt.alloc(),
        &[
            (65535, 0, None),
            (65536, 0, Some(TextFault::Limit(65539))),
            (0, 65535, None),
            (0, 65536, Some(TextFault::Limit(3))),
            (65530, 5, None),
            (65530, 6, Some(TextFault::Limit(65533))),
        ],
    );
}

/// A strategy of so many rows, whose positions are numbered from the first.
fn rows_from(rt: &impl Abort, alloc: Global, first: u32, count: u32) -> EnvCert {
    let mut rows = Vec::new(alloc);
    for number in 0..count {
        let row = EnvRow {
            pos: PosId(first.saturating_add(number)),
            state: StateId(2),
            aim: StateSet::from_bits(0xfff),
            how: How::Both { skip: 3, tried: 4 },
        };
        rows.push(row).expect(rt, "memory");
    }
    EnvCert { states: 5, rows }
}

/// The text of a strategy, in a sink.
fn text_of(rt: &impl Abort, alloc: Global, cert: &EnvCert, format: u8) -> SureSink {
    let mut sink = SureSink::make(alloc);
    assert!(rt; print_env(cert, format, &mut sink) == Ok(()));
    sink
}

/// Asserts what a sink answers whose puts of these numbers fail, what it has then, and that the longest piece has at least so many
/// bytes and at most 1,024.
fn is_printed(
    rt: &impl Abort,
    alloc: Global,
    cert: &EnvCert,
    failing: &[u32],
    want: Result<(), SinkFault>,
    bytes: &[u8],
    least: usize,
) {
    let failing = Vec::from_slice(alloc, failing).expect(rt, "memory");
    let mut sink = MemSink::make(alloc, failing);
    assert!(rt; print_env(cert, 1, &mut sink) == want);
    assert!(rt; sink.bytes() == bytes);
    assert!(rt; least <= sink.longest() && sink.longest() <= 1024);
}

#[test]
fn put_to_sinks(rt: HostRuntime) {
    let alloc = rt.alloc();
    let cert = rows_from(&rt, alloc, 1, 1);
    let sure = text_of(&rt, alloc, &cert, 2);
    let want = "capweave strategy 2\nstates 5\n0 1 2 0-11 both 3 4\nend\n";
    assert!(rt; sure.bytes() == want.as_bytes());
    let half = b"capweave strategy 1\nstates ";
    is_printed(&rt, alloc, &cert, &[0], Err(SinkFault::Failed), half, 0);
    forget(cert);
}

/// So many bytes at the front, or all where there are fewer.
fn front_of(bytes: &[u8], count: usize) -> &[u8] {
    match bytes.get(..count) {
        Some(front) => front,
        None => bytes,
    }
}

/// A long text is put in pieces of 1,024 bytes; after one that fails nothing more is put.
#[test]
fn put_in_pieces(rt: HostRuntime) {
    let alloc = rt.alloc();
    let cert = rows_from(&rt, alloc, 0, 600);
    let whole = text_of(&rt, alloc, &cert, 1);
    let bytes = whole.bytes();
    assert!(rt; bytes.len() > 3 * 1024);
    is_printed(&rt, alloc, &cert, &[], Ok(()), bytes, 1024);
    let half = front_of(bytes, 1024 + 512);
    is_printed(&rt, alloc, &cert, &[1], Err(SinkFault::Failed), half, 0);
    forget(cert);
}

/// What is read of what a strategy that is read is printed as.
fn twice(rt: &impl Abort, alloc: Global, text: &str, format: u8) -> EnvCert {
    let Ok(cert) = read_env(alloc, text.as_bytes(), format) else {
        panic!(rt; "a strategy that isn't read");
    };
    let again = read_again(alloc, &cert, format);
    forget(cert);
    match again {
        Ok(again) => again,
        Err(_) => panic!(rt; "memory"),
    }
}

/// What is read has a text, and that is read again.
#[test]
fn read_twice(rt: HostRuntime) {
    let text = "capweave strategy 2\nstates 5\n0 1 2 0-11 into 3 4=5\nend\n";
    let again = twice(&rt, rt.alloc(), text, 2);
    assert!(rt; is_text(rt.alloc(), &again, 2, text.as_bytes()));
    forget(again);
}
