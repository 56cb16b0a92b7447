//! Texts that are made of parts.

use std::alloc::Global;
use std::process::Abort;

/// Appends a text so many times.
fn put(rt: &impl Abort, text: &mut String, piece: &str, times: usize) {
    for _ in 0..times {
        text.push_str(piece).expect(rt, "memory");
    }
}

/// A text of these parts, each so many times.
pub fn joined(rt: &impl Abort, alloc: Global, parts: &[(&str, usize)]) -> String {
    let mut text = String::new(alloc);
    for (piece, times) in parts {
        put(rt, &mut text, piece, *times);
    }
    text
}
