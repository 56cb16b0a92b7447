//! What no clause says: that a call succeeds, and that 100,000 open constructs are no trouble.

use crate::calls::{Call, all_joined_tell, all_tell, terminals_of, terminals_told};
use std::alloc::Global;
use std::process::Abort;

#[test]
fn texts_have_these_faults(rt: HostRuntime) {
    all_tell(
        &rt,
        rt.alloc(),
        Call::Fault,
        &[
            ("", "none"),
            ("int a ;", "none"),
            ("static const unsigned long int * * a , a ;", "none"),
            ("int a [ ] = { 1 , } ;", "none"),
            ("int a ( void , int ) ;", "none"),
            ("int a ( void ) { return 0 ; }", "none"),
            ("int a = sizeof ( int ) - ( char ) - a ;", "none"),
            ("char * a = \"t\" \"t\" [ 0 ] ;", "none"),
            ("int a = - ( int ) a = 3 ;", "none"),
            ("int a", "at 2"),
            ("int * * * a ;", "at 3"),
            ("unsigned unsigned", "at 1"),
            ("int a ( int ) { }", "at 5"),
            ("int a ( void , int a ) {", "at 8"),
            ("int a = a + a = a ;", "at 6"),
            ("int a = ( int ) a = a ;", "at 7"),
            ("int a = sizeof ( int ) [", "at 7"),
            ("int a = ++ ( int ) a", "at 5"),
            ("int a = { }", "at 4"),
            ("int a = a ( a , )", "at 7"),
            ("void a ( ) { else", "at 5"),
            ("void a ( ) { if ( a ) int", "at 9"),
            ("void a ( ) { do ; ;", "at 7"),
            ("void a ( ) { a : }", "at 7"),
            ("struct", "at 0"),
        ],
    );
}

/// Asserts that no fault is in the terminals of the middle text so many times, behind those of the front and before those of the back.
fn none_within(
    rt: &impl Abort,
    alloc: Global,
    front: &[u8],
    middle: &[u8],
    count: usize,
    back: &[u8],
) {
    let mut terminals = terminals_of(alloc, front);
    let repeated = terminals_of(alloc, middle);
    for _ in 0..count {
        terminals.extend_from_slice(&repeated).expect(rt, "words");
    }
    let behind = terminals_of(alloc, back);
    terminals.extend_from_slice(&behind).expect(rt, "words");
    let told = terminals_told(alloc, Call::Fault, &terminals).expect(rt, "a fault");
    assert_eq!(rt; told.as_str(), "none");
}

#[test]
fn deep_nesting_is_no_trouble(rt: HostRuntime) {
    let alloc = rt.alloc();
    all_joined_tell(
        &rt,
        alloc,
        Call::Fault,
        &[
            (&[("int a=", 1, ""), ("(", 100000, "")], "at 100003"),
            (
                &[
                    ("int a=", 1, ""),
                    ("(", 100000, ""),
                    ("a", 1, ""),
                    (")", 100000, ""),
                    (";", 1, ""),
                ],
                "none",
            ),
        ],
    );
    none_within(&rt, alloc, b"void f(){", b"if(a)", 100000, b";}");
}
