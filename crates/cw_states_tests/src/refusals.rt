//! Why texts spell no policy, by the lines of their refusals. A test that lacks memory ends at once.

use crate::texts::joined;
use cw_io::{SureSink, Writer};
use cw_policy::{PolicyFault, put_fault, read_policy};
use std::alloc::Global;
use std::mem::forget;
use std::process::Abort;

/// Asserts the line of a fault.
fn has_line(rt: &impl Abort, alloc: Global, fault: &PolicyFault, want: &str) {
    let mut sink = SureSink::make(alloc);
    let mut line = Writer::begin(&sink);
    put_fault(fault, &mut line, &mut sink);
    assert!(rt; line.finish(&mut sink).is_ok(), "memory");
    assert!(rt; sink.bytes() == want.as_bytes(), "{want}");
}

/// Asserts the line of a text's refusal, or `ok`.
fn tells(rt: &impl Abort, alloc: Global, text: &[u8], want: &str) {
    match read_policy(alloc, text) {
        Ok(policy) => {
            forget(policy);
            assert!(rt; want == "ok", "{want}");
        }
        Err(fault) => has_line(rt, alloc, &fault, want),
    }
}

/// Asserts the lines of the refusals of these texts, or `ok`.
fn all_tell(rt: &impl Abort, alloc: Global, rows: &[(&str, &str)]) {
    for (text, want) in rows {
        tells(rt, alloc, text.as_bytes(), want);
    }
}

/// Texts, each so many times, that make one.
type Parts<'t> = &'t [(&'t str, usize)];

/// Asserts the lines of the refusals of texts that are made of parts, or `ok`.
fn all_joined_tell(rt: &impl Abort, alloc: Global, rows: &[(Parts, &str)]) {
    for (parts, want) in rows {
        let text = joined(rt, alloc, parts);
        tells(rt, alloc, text.as_bytes(), want);
    }
}

#[test]
fn the_first_fault_is_told(rt: HostRuntime) {
    let alloc = rt.alloc();
    all_tell(
        &rt,
        alloc,
        &[
            ("format = 1\n", "ok"),
            ("format = \n", "policy: toml"),
            ("", "policy: missing format"),
            ("strange = 1\n", "policy: missing format"),
            ("format = 2\nstrange = 1\n", "policy: unknown root"),
            ("format = 2\n", "ok"),
            ("format = 3\n", "policy: kind format"),
            ("format = 3\ndetached = []\n", "policy: unknown root"),
            ("format = 1\ndetached = []\n", "policy: unknown root"),
            (
                "format = 1\non_refusal = \"halt\"\n",
                "policy: kind on_refusal",
            ),
            (
                "format = 1\non_refusal = [\"stop\"]\n",
                "policy: kind on_refusal",
            ),
            (
                "format = 2\non_refusal = \"\"\ndetached = [\"9\"]\n",
                "policy: kind on_refusal",
            ),
            (
                "format = 2\nsplit = [\"f\"]\ndetached = [\"f\", \"9\"]\n",
                "policy: kind detached[1]",
            ),
            (
                "format = 2\ndetached = [\"f\", \"g\", \"f\"]\nrule = [{ name = \"r\", bad = \"\" }, { name = \"r\", bad = \"\" }]\n",
                "policy: twice detached[2]",
            ),
            (
                "format = 2\nsplit = [\"f\", \"f\"]\ndetached = [\"f\", \"f\"]\n",
                "policy: twice split[1]",
            ),
            (
                "format = 1\ndescriptor = [{ name = \"0\" }]\nlimit = [{ descriptor = \"0\", keep = [\"CAP_PREAD\"] }]\n",
                "policy: unknown limit[0].keep[0]",
            ),
            (
                "format = 2\ndescriptor = [{ name = \"0\", rights = [\"CAP_PREAD\"] }]\nat = [{ label = \"a\", never = [\"0:CAP_PWRITE\"] }]\n",
                "ok",
            ),
            (
                "format = 1\ndescriptor = [{ name = \"0\" }]\nat = [{ label = \"a\", never = [\"0:CAP_PWRITE\"] }]\n",
                "policy: kind at[0].never[0]",
            ),
            (
                "format = 1\ndescriptor = [{ name = \"0\" }]\nrule = [{ name = \"r\", bad = \"a[0:CAP_PREAD]\" }]\n",
                "policy: regex rule[0] right 4",
            ),
            ("format = \"1\"\n", "policy: kind format"),
            (
                "format = 1\nrefusable = [\"enter\", \"leave\"]\n",
                "policy: kind refusable[1]",
            ),
            ("format = 1\nsplit = \"f\"\n", "policy: kind split"),
            (
                "format = 1\nsplit = [\"f\", \"9\"]\n",
                "policy: kind split[1]",
            ),
            (
                "format = 1\ndescriptor = [1, {}]\n",
                "policy: kind descriptor[0]",
            ),
            (
                "format = 1\ndescriptor = [{}, 1]\n",
                "policy: kind descriptor[1]",
            ),
            (
                "format = 1\ndescriptor = [{}]\nlimit = [{}]\n",
                "policy: missing descriptor[0].name",
            ),
            (
                "format = 1\nlimit = [{ keep = 1 }]\n",
                "policy: missing limit[0].descriptor",
            ),
            (
                "format = 1\nlimit = [{ descriptor = 1, keep = 1, other = 1 }]\n",
                "policy: unknown limit[0]",
            ),
            (
                "format = 1\nlimit = [{ descriptor = \"a\", keep = [\"x\", 1] }]\n",
                "policy: kind limit[0].keep[1]",
            ),
            (
                "format = 1\nlimit = [{ descriptor = \"9x\", keep = [\"x\"] }]\n",
                "policy: unknown limit[0].descriptor",
            ),
            (
                "format = 1\ndescriptor = [{ name = \"3\" }]\n",
                "policy: kind descriptor[0].name",
            ),
            (
                "format = 1\ndescriptor = [{ name = \"0\", rights = [\"CAP_READ\", \"cap read\"] }]\n",
                "policy: unknown descriptor[0].rights[1]",
            ),
            (
                "format = 1\nat = [{ label = \"a\", must = [\"amb\"], never = [1] }]\n",
                "policy: kind at[0].never[0]",
            ),
            (
                "format = 1\nat = [{ label = \"a\", must = [\"amb\", \" amb\"] }]\n",
                "policy: kind at[0].must[1]",
            ),
            (
                "format = 1\nat = [{ label = \"a\", must = [\"fd:CAP_READ\"] }]\n",
                "policy: kind at[0].must[0]",
            ),
            (
                "format = 1\nrule = [{ name = \"a b\", bad = \".\" }]\n",
                "policy: kind rule[0].name",
            ),
            (
                "format = 1\nrule = [{ name = \"r\", bad = \"a[\" }]\n",
                "policy: regex rule[0] at 2",
            ),
            (
                "format = 1\nrule = [{ name = \"r\", bad = \"a\" }, { name = \"s\", bad = \"a[fd:CAP_READ]\" }]\n",
                "policy: regex rule[1] descriptor 2",
            ),
            (
                "format = 1\ndescriptor = [{ name = \"fd\" }]\nrule = [{ name = \"r\", bad = \"a[fd:CAP]\" }]\n",
                "policy: regex rule[0] right 5",
            ),
            (
                "format = 1\ndescriptor = [{ name = \"a\" }, { name = \"a\" }]\nsplit = [\"f\", \"f\"]\n",
                "policy: twice descriptor[1].name",
            ),
            (
                "format = 1\nsplit = [\"f\", \"g\", \"f\"]\nrule = [{ name = \"r\", bad = \"\" }, { name = \"r\", bad = \"\" }]\n",
                "policy: twice split[2]",
            ),
            (
                "format = 1\nrule = [{ name = \"r\", bad = \"\" }, { name = \"r\", bad = \"\" }]\n",
                "policy: twice rule[1].name",
            ),
            (
                "format = 1\nat = [{ label = \"a\", never = [\"x\"] }]\nrule = [{ name = \"r\", bad = \"(\" }]\n",
                "policy: kind at[0].never[0]",
            ),
            (
                "format = 1\nat = [{ label = \"a b\" }]\ndescriptor = [{ name = \"a\", rights = [\"x\"] }]\n",
                "policy: kind at[0].label",
            ),
        ],
    );
    tells(&rt, alloc, b"format = 1 # \xff\n", "policy: toml");
}

/// Eight descriptors.
const DESCRIPTORS: &str =
    "format = 1\ndescriptor = [{ name = \"a\" }, { name = \"b\" }, { name = \"c\" }, { name = \"d\" }, { name = \"e\" }, { name = \"f\" }, { name = \"g\" }, { name = \"h\" }";

/// Where limits, tests and an expression begin.
const LIMITS: &str = "format = 1\ndescriptor = [{ name = \"a\" }]\nlimit = [";

const TESTS: &str = "format = 1\nat = [{ label = \"a\", must = [\"amb\"";

const DEEP: &str = "format = 1\nrule = [{ name = \"r\", bad = \"";

const LIMIT: &str = "{ descriptor = \"a\", keep = [] },";

#[test]
fn quantities_are_limited(rt: HostRuntime) {
    all_joined_tell(
        &rt,
        rt.alloc(),
        &[
            (&[(DESCRIPTORS, 1), ("]\n", 1)], "ok"),
            (
                &[
                    (DESCRIPTORS, 1),
                    (", { name = \"i\" }", 1),
                    ("]\nrule = [{ name = \"r\", bad = \"(\" }]\n", 1),
                ],
                "limit: descriptors",
            ),
            (&[(LIMITS, 1), (LIMIT, 12), ("]\n", 1)], "ok"),
            (&[(LIMITS, 1), (LIMIT, 13), ("]\n", 1)], "limit: limits"),
            (&[(TESTS, 1), (", \"amb\"", 30), ("] }]\n", 1)], "ok"),
            (
                &[(TESTS, 1), (", \"amb\"", 31), ("] }]\n", 1)],
                "limit: rule positions",
            ),
            (
                &[(TESTS, 1), (", \"amb\"", 32), ("] }]\n", 1)],
                "limit: rules",
            ),
            (
                &[(DEEP, 1), ("(", 64), ("a\" }]\n", 1)],
                "policy: regex rule[0] at 65",
            ),
            (
                &[(DEEP, 1), ("(", 65), ("a", 1), (")", 65), ("\" }]\n", 1)],
                "limit: nesting",
            ),
            (&[(DEEP, 1), ("a\" }]\n", 1)], "ok"),
            (&[(DEEP, 1), ("a ", 62), ("a\" }]\n", 1)], "ok"),
            (
                &[(DEEP, 1), ("a ", 63), ("a\" }]\n", 1)],
                "limit: rule positions",
            ),
        ],
    );
}

#[test]
fn want_of_memory_has_a_line(rt: HostRuntime) {
    has_line(&rt, rt.alloc(), &PolicyFault::NoMemory, "memory");
}
