//! Long texts, row by row. A test that lacks memory ends at once.

use std::process::Abort;

pub(crate) fn put(rt: &impl Abort, text: &mut String, piece: &str) {
    text.push_str(piece).expect(rt, "memory");
}

/// Appends a number between two texts.
pub(crate) fn put_numbered(
    rt: &impl Abort,
    text: &mut String,
    before: &str,
    number: u64,
    behind: &str,
) {
    write!(text, "{before}{number}{behind}").expect(rt, "memory");
}

/// Appends each number from the first to the one before `end`, between two texts.
pub(crate) fn put_rows(
    rt: &impl Abort,
    text: &mut String,
    before: &str,
    first: u64,
    end: u64,
    behind: &str,
) {
    for number in first..end {
        put_numbered(rt, text, before, number, behind);
    }
}
