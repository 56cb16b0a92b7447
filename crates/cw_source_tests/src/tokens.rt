//! Sources with their tokens and faults, written out by hand. The values of numbers and characters stand in `terminals`.

use crate::calls::{Call, all_tell, tells};
use cw_lex::LexFault;

#[test]
fn sources_have_these_tokens(rt: HostRuntime) {
    let alloc = rt.alloc();
    tells(
        &rt,
        alloc,
        Call::Tokens,
        "no text",
        &[b'"', 0xff, 0, b'"'],
        "t0-4 ",
    );
    all_tell(
        &rt,
        alloc,
        Call::Tokens,
        &[
            ("", ""),
            (" \t\n\x0b\x0c\r", ""),
            ("int x;", "k0-3 n4-5 p5-6 "),
            ("a+++b", "n0-1 p1-3 p3-4 n4-5 "),
            ("a>>=b>>c>=d", "n0-1 p1-4 n4-5 p5-7 n7-8 p8-10 n10-11 "),
            ("<<=<<<=<", "p0-3 p3-5 p5-7 p7-8 "),
            ("->", "p0-1 p1-2 "),
            ("x==-1", "n0-1 p1-3 p3-4 04-5 "),
            ("_a1 A_", "n0-3 n4-6 "),
            ("intx sizeof _Bool _bool", "n0-4 k5-11 k12-17 n18-23 "),
            ("a/**/b", "n0-1 n5-6 "),
            ("a/*/ */b", "n0-1 n7-8 "),
            ("a/***/b", "n0-1 n6-7 "),
            ("a// b\nc", "n0-1 n6-7 "),
            ("a//", "n0-1 "),
            ("\"a//b/*\"", "t0-8 "),
            ("#include <x>\nint", "k13-16 "),
            ("  #\tinclude <x> ' \" $\nint", "k22-25 "),
            ("a;\n /* */ #include \"y\"", "n0-1 p1-2 "),
            ("a /*\n*/ #include <x>", "n0-1 "),
            ("#include", ""),
            ("\"\" \"a\\n\\\"\\\\\" '\\''", "t0-2 t3-12 c13-17 "),
            ("'a' '\"' \"'\"", "c0-3 c4-7 t8-11 "),
            ("'\\377' '\\0' '\\x1' '\\xfF'", "c0-6 c7-11 c12-17 c18-24 "),
            ("\"\\1234\\x123\"", "t0-12 "),
            ("0", "00-1 "),
            ("00", "00-2 "),
            ("07", "00-2 "),
            ("0377u", "00-5 "),
            ("10", "00-2 "),
            ("10uL", "00-4 "),
            ("10LLu", "00-5 "),
            ("1ULL", "00-4 "),
            ("1l", "00-2 "),
            ("0x1F", "00-4 "),
            ("0xabcdefl", "00-9 "),
            ("18446744073709551615", "00-20 "),
            ("01777777777777777777777", "00-23 "),
            ("0xffffffffffffffffUll", "00-21 "),
            ("000000000000000000000000000000001", "00-33 "),
        ],
    );
}

#[test]
fn sources_have_these_faults(rt: HostRuntime) {
    let alloc = rt.alloc();
    let fault = LexFault::NoMemory;
    let line = format!(in alloc; "{fault}").expect(&rt, "a line");
    assert_eq!(rt; line.as_str(), "no memory is left");
    tells(
        &rt,
        alloc,
        Call::Tokens,
        "no text",
        &[0xff],
        "bad byte at 0",
    );
    all_tell(
        &rt,
        alloc,
        Call::Tokens,
        &[
            ("a $", "bad byte at 2"),
            ("a.b", "bad byte at 1"),
            ("a ? b : c", "bad byte at 2"),
            ("\\", "bad byte at 0"),
            ("a #", "bad byte at 2"),
            ("a #include <x>", "bad byte at 2"),
            ("/**/a #include <x>", "bad byte at 6"),
            ("a /*", "open comment at 2"),
            ("/*/", "open comment at 0"),
            ("/* *", "open comment at 0"),
            ("a '", "open string at 2"),
            ("''", "open string at 0"),
            ("'ab'", "open string at 0"),
            ("'\n'", "open string at 0"),
            ("'\\400'", "open string at 0"),
            ("'\\1234'", "open string at 0"),
            ("'\\x'", "open string at 0"),
            ("'\\x123'", "open string at 0"),
            ("'\\q'", "open string at 0"),
            ("\"a\nb\"", "open string at 0"),
            ("\"a\\\n\"", "open string at 0"),
            ("\"a\\", "open string at 0"),
            ("\"\\777\"", "open string at 0"),
            (" 09", "number at 1"),
            ("1.5", "number at 0"),
            ("0x", "number at 0"),
            ("0xg", "number at 0"),
            ("0X1F", "number at 0"),
            ("1a", "number at 0"),
            ("1lL", "number at 0"),
            ("1lul", "number at 0"),
            ("1uu", "number at 0"),
            ("18446744073709551616", "number at 0"),
            ("02000000000000000000000", "number at 0"),
            ("0x10000000000000000", "number at 0"),
            ("# define", "directive at 0"),
            ("#include_next <a>", "directive at 0"),
            ("#includex", "directive at 0"),
            ("#", "directive at 0"),
            ("a\n#\ninclude", "directive at 2"),
            ("$ cw{*", "marker at 2"),
            ("$ \"*}cw\"", "marker at 3"),
            ("/*cw{*/", "marker at 2"),
            ("#include *}cw cw{*", "marker at 9"),
            ("$ '", "bad byte at 0"),
        ],
    );
}
