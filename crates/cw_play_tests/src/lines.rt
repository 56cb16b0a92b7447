//! Lists of tapes, a line each: the tape, how it ends, and the trace with `;` for each line feed.

/// A line of a list: the tape, how it ends, and the trace.
pub fn parts_of(line: &str) -> Option<(&str, &str, &str)> {
    let Some((tape, told)) = line.split_once(":") else {
        return None;
    };
    match told.split_once(":") {
        None => None,
        Some((end, trace)) => Some((tape, end, trace)),
    }
}

/// Whether a trace is the one of a line.
pub fn is_trace(trace: &[u8], wanted: &str) -> bool {
    let wanted = wanted.as_bytes();
    if trace.len() != wanted.len() {
        return false;
    }
    for (i, byte) in trace.iter().enumerate() {
        let byte = if *byte == b'\n' { b';' } else { *byte };
        if wanted.get(i).copied() != Some(byte) {
            return false;
        }
    }
    true
}
