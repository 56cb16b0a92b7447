//! Tables as text: each fault with its line, both formats. A test that lacks memory ends at once.

use crate::given::{put, put_rows};
use cw_certs::WeaverCert;
use cw_io::{MemSink, SinkFault, SureSink};
use cw_rights::{Descriptor, Limit, Policy, Rights};
use cw_table_text::{print_tables, read_tables};
use cw_text::TextFault;
use std::alloc::Global;
use std::mem::forget;
use std::process::Abort;

/// One descriptor, by its name.
fn descriptors_of(rt: &impl Abort, alloc: Global, name: &str) -> Vec<Descriptor> {
    let descriptor = Descriptor {
        name: Vec::from_slice(alloc, name.as_bytes()).expect(rt, "memory"),
        number: None,
        rights: Rights(0xfff),
    };
    let mut descriptors = Vec::new(alloc);
    descriptors.push(descriptor).expect(rt, "memory");
    descriptors
}

/// Limits of the first descriptor, with these rights kept.
fn limits_of(rt: &impl Abort, alloc: Global, kept: &[u16]) -> Vec<Limit> {
    let mut limits = Vec::new(alloc);
    for keep in kept {
        let limit = Limit {
            descriptor: 0,
            keep: Rights(*keep),
        };
        limits.push(limit).expect(rt, "memory");
    }
    limits
}

/// A policy of one descriptor, by its name, with these rights kept by its limits.
fn policy_of(rt: &impl Abort, alloc: Global, format: u8, name: &str, kept: &[u16]) -> Policy {
    Policy {
        descriptors: descriptors_of(rt, alloc, name),
        limits: limits_of(rt, alloc, kept),
        refuse_limit: false,
        refuse_enter: false,
        refuse_split: false,
        split: Vec::new(alloc),
        labels: Vec::new(alloc),
        rules: Vec::new(alloc),
        stop: false,
        format,
        detached: Vec::new(alloc),
    }
}

/// Whether a table is put as this text.
fn is_text(alloc: Global, cert: &WeaverCert, policy: &Policy, text: &[u8]) -> bool {
    let mut sink = SureSink::make(alloc);
    print_tables(cert, policy, &mut sink).is_ok() && sink.bytes() == text
}

/// The fault of a text, or none where it is a table's, which is then put as the same text; NoMemory where it isn't.
fn fault_of(alloc: Global, text: &[u8], policy: &Policy) -> Option<TextFault> {
    match read_tables(alloc, text, policy) {
        Err(fault) => Some(fault),
        Ok(cert) => {
            let same = is_text(alloc, &cert, policy, text);
            forget(cert);
            if same {
                None
            } else {
                Some(TextFault::NoMemory)
            }
        }
    }
}

/// A table's text with a row of each kind, but for the version in the third line.
const LINES: &str = "#include \"capweave.h\"
#define CW_LIMITS(X) X(0,fd,0x1)
CW_TABLE
CW_MEM(0,0,0xf)
CW_MEM(1,1,0xf)
CW_LIVE(0,0)
CW_LIVE(2,0)
CW_TRY(1,0,0,1,CW_NONE)
CW_AT(1,1,1)
CW_OPENED(2,0,1,0)
CW_CLOSED(3,0,0)
CW_INTO(4,1,0,0)
CW_BACK(4,1,0,3,1)
CW_DONE
";

/// The third line for a format.
fn version_of(format: u8) -> &'static str {
    if format == 1 {
        "CW_TABLE(1,4,0)\n"
    } else {
        "CW_TABLE(2,4,0)\n"
    }
}

/// That table's text for a format, with another text for the line of this number.
fn edited(rt: &impl Abort, alloc: Global, format: u8, at: usize, new: &str) -> String {
    let mut text = String::new(alloc);
    let mut number: usize = 0;
    for line in LINES.split_inclusive("\n") {
        number = number.saturating_add(1);
        let piece = if number == at {
            new
        } else if number == 3 {
            version_of(format)
        } else {
            line
        };
        put(rt, &mut text, piece);
    }
    text
}

/// Asserts that the table's text with this line put in for that of this number is a table's in this format, or has this fault.
fn all_edited(
    rt: &impl Abort,
    alloc: Global,
    format: u8,
    edits: &[(usize, &str, Option<TextFault>)],
) {
    let policy = policy_of(rt, alloc, format, "fd", &[1]);
    for (at, new, want) in edits {
        let text = edited(rt, alloc, format, *at, new);
        assert!(rt;
            fault_of(alloc, text.as_bytes(), &policy) == *want,
            "{format} {at} {new}"
        );
    }
    forget(policy);
}

/// Asserts this in both formats.
fn all_read(rt: &impl Abort, alloc: Global, edits: &[(usize, &str, Option<TextFault>)]) {
    all_edited(rt, alloc, 1, edits);
    all_edited(rt, alloc, 2, edits);
}

/// The lines before the rows.
#[test]
fn lines_of_the_head(rt: HostRuntime) {
    all_read(
        &rt,
        rt.alloc(),
        &[
            (1, "", Some(TextFault::Line(1))),
            (1, "#include \"capweave.h\" \n", Some(TextFault::Line(1))),
            (1, "#include <capweave.h>\n", Some(TextFault::Line(1))),
            (1, "\n#include \"capweave.h\"\n", Some(TextFault::Line(1))),
            (2, "#define CW_LIMITS(X)\n", Some(TextFault::Line(2))),
            (
                2,
                "#define CW_LIMITS(X) X(0,fd,0x2)\n",
                Some(TextFault::Line(2)),
            ),
            (
                2,
                "#define CW_LIMITS(X) X(0,df,0x1)\n",
                Some(TextFault::Line(2)),
            ),
            (
                2,
                "#define CW_LIMITS(X) X(1,fd,0x1)\n",
                Some(TextFault::Line(2)),
            ),
            (
                2,
                "#define CW_LIMITS(X) X(0,fd,0x1) X(1,fd,0x1)\n",
                Some(TextFault::Line(2)),
            ),
            (3, "CW_TABLE(3,4,0)\n", Some(TextFault::Line(3))),
            (3, "CW_TABLE(12,4,0)\n", Some(TextFault::Line(3))),
            (3, "CW_TABLE(0,4,0)\n", Some(TextFault::Line(3))),
        ],
    );
}

/// Memories by number, state and promise, and places.
#[test]
fn lines_of_memories(rt: HostRuntime) {
    all_read(
        &rt,
        rt.alloc(),
        &[
            (4, "CW_MEM(1,0,0xf)\n", Some(TextFault::Order(4))),
            (4, "CW_MEM(0,65536,0xf)\n", Some(TextFault::Line(4))),
            (4, "CW_MEM(4294967296,0,0xf)\n", Some(TextFault::Line(4))),
            (4, "CW_MEM(4294967295,0,0xf)\n", Some(TextFault::Order(4))),
            (4, "CW_MEM(0,0,0xF)\n", Some(TextFault::Line(4))),
            (4, "CW_MEM(0,0,0x0f)\n", Some(TextFault::Line(4))),
            (4, "CW_MEM(0,0,0-3)\n", Some(TextFault::Line(4))),
            (4, "CW_MEM(0,0,1024)\n", Some(TextFault::Line(4))),
            (4, "CW_MEM(00,0,0xf)\n", Some(TextFault::Line(4))),
            (5, "CW_MEM(1,0,0xf)\n", Some(TextFault::Order(5))),
            (5, "CW_MEM(2,1,0xf)\n", Some(TextFault::Order(5))),
            (5, "CW_MEM(1,0,0xe)\n", Some(TextFault::Order(5))),
            (6, "CW_LIVE(2,0)\n", Some(TextFault::Order(7))),
            (6, "CW_LIVE(3,0)\n", Some(TextFault::Order(7))),
            (
                6,
                "CW_LIVE(0,0)\nCW_MEM(2,2,0xf)\n",
                Some(TextFault::Order(7)),
            ),
            (6, "CW_LIVE(4294967296,0)\n", Some(TextFault::Line(6))),
            (6, "CW_LIVE(-1,0)\n", Some(TextFault::Line(6))),
            (6, "CW_LIVE( 0,0)\n", Some(TextFault::Line(6))),
            (6, "CW_LIVE(0,0);\n", Some(TextFault::Line(6))),
            (6, "CW_LIFE(0,0)\n", Some(TextFault::Line(6))),
            (6, "CW_LIVE(0)\n", Some(TextFault::Line(6))),
            (6, "CW_LIVE()\n", Some(TextFault::Line(6))),
            (6, "CW_LIVE\n", Some(TextFault::Line(6))),
            (6, "CW_LIVE(0,0\n", Some(TextFault::Line(6))),
            (6, "CW_LIVE(0,CW_NONE)\n", Some(TextFault::Line(6))),
            (6, "", None),
        ],
    );
}

/// Rows by kind and key, and the end.
#[test]
fn lines_of_rows(rt: HostRuntime) {
    all_read(
        &rt,
        rt.alloc(),
        &[
            (8, "CW_TRY(1,256,0,1,0)\n", Some(TextFault::Line(8))),
            (8, "CW_TRY(1,255,0,CW_NONE,CW_NONE)\n", None),
            (8, "CW_TRY(1,0,0,cw_none,0)\n", Some(TextFault::Line(8))),
            (
                8,
                "CW_TRY(1,0,0,1,CW_NONE)\nCW_TRY(1,0,0,0,CW_NONE)\n",
                Some(TextFault::Order(9)),
            ),
            (
                8,
                "CW_TRY(1,0,0,1,CW_NONE)\nCW_LIVE(1,0)\n",
                Some(TextFault::Order(9)),
            ),
            (
                8,
                "CW_TRY(1,0,0,1,CW_NONE)\nCW_TRY(0,1,2,1,0)\n",
                Some(TextFault::Order(9)),
            ),
            (
                9,
                "CW_AT(1,1,1)\nCW_AT(1,1,2)\n",
                Some(TextFault::Order(10)),
            ),
            (9, "CW_CLOSED(1,1,1)\n", Some(TextFault::Order(10))),
            (12, "CW_INTO(4,2,0,0)\n", Some(TextFault::Line(12))),
            (12, "CW_INTO(4,01,0,0)\n", Some(TextFault::Line(12))),
            (
                12,
                "CW_INTO(4,1,0,0)\nCW_INTO(4,0,0,0)\n",
                Some(TextFault::Order(13)),
            ),
            (12, "CW_INTO(4,0,0,0)\nCW_INTO(4,1,0,0)\n", None),
            (13, "CW_BACK(4,1,0,65536,1)\n", Some(TextFault::Line(13))),
            (
                13,
                "CW_BACK(4,1,0,3,1)\nCW_BACK(4,1,0,3,2)\n",
                Some(TextFault::Order(14)),
            ),
            (13, "CW_BACK(4,1,0,3,1)\nCW_BACK(4,1,0,4,2)\n", None),
            (
                13,
                "CW_BACK(4,1,0,3,1)\nCW_MEM(02,2,0xf)\n",
                Some(TextFault::Line(14)),
            ),
            (14, "", Some(TextFault::Line(14))),
            (14, "CW_DONE", Some(TextFault::Line(14))),
            (14, "CW_DONE\n\n", Some(TextFault::Line(15))),
            (14, "CW_DONE\nx", Some(TextFault::Line(15))),
            (14, "CW_DONE\nCW_DONE\n", Some(TextFault::Line(15))),
            (14, "CW_DONE()\n", Some(TextFault::Line(14))),
            (14, "cw_done\n", Some(TextFault::Line(14))),
        ],
    );
}

/// Versions, and sets as each format spells them.
#[test]
fn lines_of_one_format(rt: HostRuntime) {
    let alloc = rt.alloc();
    all_edited(
        &rt,
        alloc,
        1,
        &[
            (3, "CW_TABLE(1,65536,0)\n", Some(TextFault::Line(3))),
            (3, "CW_TABLE(1,04,0)\n", Some(TextFault::Line(3))),
            (3, "CW_TABLE(1,4,4294967296)\n", Some(TextFault::Line(3))),
            (3, "CW_TABLE(1,4)\n", Some(TextFault::Line(3))),
            (3, "CW_TABLE(1,4,0,0)\n", Some(TextFault::Line(3))),
            (3, "CW_TABLE(1,4,0) \n", Some(TextFault::Line(3))),
            (4, "CW_MEM(0,0,15)\n", Some(TextFault::Line(4))),
            (4, "CW_MEM(0,0,512)\n", Some(TextFault::Line(4))),
            (4, "CW_MEM(0,0,0-11)\n", Some(TextFault::Line(4))),
            (4, "CW_MEM(0,0,0xfff)\n", None),
            (5, "CW_MEM(1,0,0x10)\n", None),
        ],
    );
    all_edited(
        &rt,
        alloc,
        2,
        &[
            (4, "CW_MEM(0,0,15)\n", None),
            (4, "CW_MEM(0,0,512)\n", None),
            (4, "CW_MEM(0,0,0-11)\n", None),
            (4, "CW_MEM(0,0,0xfff)\n", Some(TextFault::Line(4))),
            (5, "CW_MEM(1,0,0x10)\n", Some(TextFault::Line(5))),
            (3, "CW_TABLE(2,65536,0)\n", Some(TextFault::Line(3))),
            (3, "CW_TABLE(2,04,0)\n", Some(TextFault::Line(3))),
            (3, "CW_TABLE(2,4,4294967296)\n", Some(TextFault::Line(3))),
        ],
    );
}

/// Asserts that a text of so many rows, the last three of returns, is a table's, or has this fault.
fn is_long(rt: &impl Abort, alloc: Global, policy: &Policy, count: u64, want: Option<TextFault>) {
    let mut text = String::new(alloc);
    put(
        rt,
        &mut text,
        "#include \"capweave.h\"\n#define CW_LIMITS(X) X(0,fd,0x1)\nCW_TABLE(1,4,0)\n",
    );
    let returns = count.saturating_sub(3);
    put_rows(rt, &mut text, "CW_LIVE(", 0, returns, ",0)\n");
    put_rows(rt, &mut text, "CW_BACK(", returns, count, ",0,0,0,0)\n");
    put(rt, &mut text, "CW_DONE\n");
    assert!(rt; fault_of(alloc, text.as_bytes(), policy) == want, "{count}");
}

/// 65,536 rows and one more.
#[test]
fn too_many_rows(rt: HostRuntime) {
    let policy = policy_of(&rt, rt.alloc(), 1, "fd", &[1]);
    let over = Some(TextFault::Limit(65_540));
    is_long(&rt, rt.alloc(), &policy, 65_536, None);
    is_long(&rt, rt.alloc(), &policy, 65_537, over);
    is_long(&rt, rt.alloc(), &policy, 65_538, over);
    forget(policy);
}

const ENTERED: &str =
    "#include \"capweave.h\"\n#define CW_LIMITS(X)\nCW_TABLE(1,4,0)\nCW_MEM(0,0,0xf)\nCW_MEM(1,1,0xf)\nCW_MEM(2,3,0xf)\nCW_LIVE(0,0)\nCW_LIVE(2,0)\nCW_LIVE(3,0)\nCW_LIVE(4,0)\nCW_LIVE(5,1)\nCW_LIVE(6,2)\nCW_LIVE(7,2)\nCW_LIVE(8,2)\nCW_TRY(1,0,0,1,CW_NONE)\nCW_AT(1,1,2)\nCW_DONE\n";

const SPLIT: &str =
    "#include \"capweave.h\"\n#define CW_LIMITS(X)\nCW_TABLE(1,4,0)\nCW_MEM(0,0,0xf)\nCW_MEM(1,1,0xf)\nCW_MEM(2,2,0xf)\nCW_MEM(3,3,0xf)\nCW_LIVE(0,0)\nCW_LIVE(2,0)\nCW_LIVE(3,0)\nCW_LIVE(4,0)\nCW_LIVE(5,1)\nCW_LIVE(6,3)\nCW_LIVE(7,3)\nCW_LIVE(8,3)\nCW_LIVE(9,0)\nCW_LIVE(11,0)\nCW_LIVE(12,0)\nCW_LIVE(13,0)\nCW_LIVE(15,0)\nCW_LIVE(16,0)\nCW_LIVE(18,0)\nCW_LIVE(19,2)\nCW_LIVE(21,2)\nCW_LIVE(22,2)\nCW_LIVE(23,2)\nCW_LIVE(24,2)\nCW_TRY(1,0,0,1,CW_NONE)\nCW_TRY(3,1,0,0,CW_NONE)\nCW_AT(1,1,3)\nCW_AT(4,2,2)\nCW_INTO(3,1,0,0)\nCW_BACK(3,1,0,3,2)\nCW_DONE\n";

const PROMISED: &str =
    "#include \"capweave.h\"\n#define CW_LIMITS(X)\nCW_TABLE(1,4,1)\nCW_MEM(0,0,0x5)\nCW_MEM(1,0,0xf)\nCW_MEM(2,2,0x5)\nCW_MEM(3,2,0xf)\nCW_MEM(4,3,0xf)\nCW_LIVE(0,0)\nCW_LIVE(0,4)\nCW_LIVE(2,0)\nCW_LIVE(2,4)\nCW_LIVE(3,0)\nCW_LIVE(3,4)\nCW_LIVE(5,0)\nCW_LIVE(5,4)\nCW_LIVE(6,2)\nCW_LIVE(6,4)\nCW_LIVE(7,2)\nCW_LIVE(7,4)\nCW_LIVE(8,1)\nCW_LIVE(10,1)\nCW_LIVE(11,1)\nCW_LIVE(13,1)\nCW_LIVE(14,3)\nCW_LIVE(16,3)\nCW_LIVE(17,3)\nCW_LIVE(18,3)\nCW_LIVE(19,3)\nCW_LIVE(20,4)\nCW_LIVE(21,4)\nCW_LIVE(22,4)\nCW_LIVE(24,4)\nCW_LIVE(25,4)\nCW_LIVE(26,4)\nCW_TRY(5,0,3,4,CW_NONE)\nCW_AT(1,0,2)\nCW_AT(1,4,4)\nCW_AT(4,3,3)\nCW_AT(5,4,4)\nCW_INTO(3,0,1,0)\nCW_INTO(6,0,4,4)\nCW_BACK(3,0,1,2,3)\nCW_BACK(6,0,4,3,4)\nCW_DONE\n";

const WIDE: &str =
    "#include \"capweave.h\"\n#define CW_LIMITS(X) X(0,0,0x1) X(1,0,0x2) X(2,0,0x0) X(3,0,0x3)\nCW_TABLE(2,640,1)\nCW_MEM(0,4,0-639)\nCW_MEM(1,14,0-639)\nCW_MEM(2,24,0-639)\nCW_LIVE(0,1)\nCW_LIVE(2,1)\nCW_LIVE(4,1)\nCW_LIVE(6,1)\nCW_LIVE(8,1)\nCW_LIVE(10,1)\nCW_LIVE(11,1)\nCW_LIVE(13,1)\nCW_LIVE(15,1)\nCW_LIVE(17,1)\nCW_LIVE(19,1)\nCW_LIVE(21,1)\nCW_LIVE(22,2)\nCW_LIVE(23,2)\nCW_LIVE(25,2)\nCW_LIVE(27,2)\nCW_LIVE(29,2)\nCW_LIVE(31,2)\nCW_LIVE(33,2)\nCW_LIVE(34,0)\nCW_LIVE(35,0)\nCW_LIVE(36,0)\nCW_AT(1,1,2)\nCW_AT(2,2,0)\nCW_DONE\n";

const KEPT: &str =
    "#include \"capweave.h\"\n#define CW_LIMITS(X) X(0,0,0x5) X(1,0,0x6)\nCW_TABLE(2,12,1)\nCW_MEM(0,1,0-11)\nCW_MEM(1,2,0-11)\nCW_MEM(2,7,0-11)\nCW_LIVE(0,1)\nCW_LIVE(2,1)\nCW_LIVE(4,1)\nCW_LIVE(6,1)\nCW_LIVE(7,1)\nCW_LIVE(9,1)\nCW_LIVE(10,1)\nCW_LIVE(11,0)\nCW_LIVE(13,0)\nCW_LIVE(14,2)\nCW_LIVE(15,2)\nCW_LIVE(16,2)\nCW_TRY(1,1,1,0,CW_NONE)\nCW_AT(1,0,2)\nCW_DONE\n";

/// A text, the format of its policy, the name of the descriptor, what its limits keep of it, and the fault.
type Row<'t> = (&'t str, u8, &'t str, &'t [u16], Option<TextFault>);

/// Asserts that each of these texts is a table's under its policy, or has this fault.
fn all_tables(rt: &impl Abort, alloc: Global, rows: &[Row]) {
    for (text, format, name, kept, want) in rows {
        let policy = policy_of(rt, alloc, *format, name, kept);
        assert!(rt;
            fault_of(alloc, text.as_bytes(), &policy) == *want,
            "{text}"
        );
        forget(policy);
    }
}

/// Tables of woven programs, in both formats.
#[test]
fn tables_of_programs(rt: HostRuntime) {
    all_tables(
        &rt,
        rt.alloc(),
        &[
            (ENTERED, 1, "fd", &[], None),
            (SPLIT, 1, "fd", &[], None),
            (PROMISED, 1, "fd", &[], None),
            (WIDE, 2, "0", &[1, 2, 0, 3], None),
            (KEPT, 2, "0", &[5, 6], None),
            (KEPT, 2, "0", &[1, 2, 0, 3], Some(TextFault::Line(2))),
        ],
    );
}

/// What a sink answers whose first put fails.
fn failing_put(
    rt: &impl Abort,
    alloc: Global,
    cert: &WeaverCert,
    policy: &Policy,
) -> Result<(), SinkFault> {
    let failing = Vec::from_slice(alloc, &[0]).expect(rt, "memory");
    let mut sink = MemSink::make(alloc, failing);
    print_tables(cert, policy, &mut sink)
}

/// A sink gets the whole of a short text in one piece, or half of it where it fails.
#[test]
fn printed_tables(rt: HostRuntime) {
    let alloc = rt.alloc();
    let policy = policy_of(&rt, alloc, 1, "fd", &[]);
    let Ok(cert) = read_tables(alloc, SPLIT.as_bytes(), &policy) else {
        panic!(rt; "a table that isn't read");
    };
    assert!(rt; is_text(alloc, &cert, &policy, SPLIT.as_bytes()));
    assert!(rt; failing_put(&rt, alloc, &cert, &policy) == Err(SinkFault::Failed));
    forget(cert);
    forget(policy);
}
