//! The limits of forms, on both sides.

use crate::ground::{F, told};
use std::alloc::Global;
use std::process::Abort;

/// Appends a text so many times.
fn put(rt: &impl Abort, text: &mut String, piece: &str, times: usize) {
    for _ in 0..times {
        text.push_str(piece).expect(rt, "memory");
    }
}

/// A source whose `main` has these texts before and behind a call, each so many times.
fn around(rt: &impl Abort, alloc: Global, before: &str, behind: &str, times: usize) -> String {
    let mut source = String::new(alloc);
    put(rt, &mut source, "void f(int x){}int main(void){", 1);
    put(rt, &mut source, before, times);
    put(rt, &mut source, "f(1);", 1);
    put(rt, &mut source, behind, times);
    put(rt, &mut source, "return 0;}", 1);
    source
}

/// Asserts the length of the form of each of these sources around a call, or why there is none. A source has 45 bytes beside these texts, and its form
/// 32 more.
fn all_around(rt: &impl Abort, alloc: Global, rows: &[(&str, &str, usize, Result<usize, &str>)]) {
    for (before, behind, times, wanted) in rows {
        let source = around(rt, alloc, before, behind, *times);
        let told = told(rt, alloc, F, source.as_bytes());
        match wanted {
            Ok(length) => assert!(rt; told.len() == *length, "{before} {times}"),
            Err(fault) => assert!(rt; told.as_slice() == fault.as_bytes(), "{before} {times}"),
        }
    }
}

#[test]
fn a_call_stands_in_59_statements(rt: HostRuntime) {
    all_around(
        &rt,
        rt.alloc(),
        &[
            ("{", "}", 59, Ok(195)),
            ("{", "}", 60, Err("over its limit: Nesting")),
            ("while(c)", "", 59, Ok(549)),
            ("while(c)", "", 60, Err("over its limit: Nesting")),
        ],
    );
}

#[test]
fn a_form_has_262144_bytes(rt: HostRuntime) {
    all_around(
        &rt,
        rt.alloc(),
        &[
            (" ", "", 262067, Ok(262144)),
            (" ", "", 262068, Err("over its limit: SourceBytes")),
        ],
    );
}
