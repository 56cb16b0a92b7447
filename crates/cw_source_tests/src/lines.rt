//! Lines of refusals.

use cw_core::Quantity;
use cw_io::{SureSink, Writer};
use cw_lex::LexFault;
use cw_scope::ScopeFault;
use cw_source::{SourceFault, put_fault_line};
use cw_syntax::program::Name;
use std::alloc::Global;
use std::process::Abort;

/// Asserts the line of each of these faults in a source of three lines.
fn all_told(rt: &impl Abort, alloc: Global, rows: &[(SourceFault, &str)]) {
    for (fault, line) in rows {
        let mut sink = SureSink::make(alloc);
        let mut writer = Writer::begin(&sink);
        put_fault_line(b"int a;\n\nint main(void){", fault, &mut writer, &mut sink);
        assert!(rt; writer.finish(&mut sink).is_ok());
        assert_eq!(rt; sink.bytes(), line.as_bytes());
    }
}

#[test]
fn lines_tell_the_place(rt: HostRuntime) {
    let name = Name { from: 4, to: 5 };
    all_told(
        &rt,
        rt.alloc(),
        &[
            (
                SourceFault::Lex(LexFault::BadByte(0)),
                "source 1:1: bad byte",
            ),
            (
                SourceFault::Lex(LexFault::OpenComment(6)),
                "source 1:7: open comment",
            ),
            (
                SourceFault::Lex(LexFault::OpenString(7)),
                "source 2:1: open string",
            ),
            (SourceFault::Lex(LexFault::Number(8)), "source 3:1: number"),
            (
                SourceFault::Lex(LexFault::Directive(12)),
                "source 3:5: directive",
            ),
            (SourceFault::Lex(LexFault::Marker(2)), "source 1:3: marker"),
            (SourceFault::Syntax(23), "source 3:16: syntax"),
            (SourceFault::TooDeep, "limit: nesting"),
            (SourceFault::Scope(ScopeFault::NoMain), "source: no main"),
            (
                SourceFault::Scope(ScopeFault::TwoLabels(name)),
                "source 1:5: two labels",
            ),
            (
                SourceFault::Scope(ScopeFault::Limit(Quantity::Functions)),
                "limit: functions",
            ),
        ],
    );
}
