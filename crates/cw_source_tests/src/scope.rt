//! Programs that break the rules, one at a time and two at a time, each read from its source.

use crate::calls::{Call, all_joined_tell, all_tell, put, tells};
use std::alloc::{AllocError, Global};
use std::process::Abort;

#[test]
fn forms_of_calls(rt: HostRuntime) {
    all_tell(
        &rt,
        rt.alloc(),
        Call::Source,
        &[
            ("", "Scope(NoMain)"),
            ("int main(void){main();return 0;}", "Scope(MainCalled(15))"),
            (
                "int f(void){}int main(void){x=1+f();}",
                "Scope(CallForm(32))",
            ),
            ("int main(void){g(1)+h(2);}", "Scope(CallForm(20))"),
            (
                "int f(int p){}int main(void){x=f(g());}",
                "Scope(CallForm(31))",
            ),
            ("int f(int p){}int main(void){x=f(1);}", "read"),
            (
                "int g(int f);int f(void){}int main(void){}",
                "Scope(CallForm(10))",
            ),
            (
                "int f(void){}int main(void){for(;;f());}",
                "Scope(CallForm(34))",
            ),
        ],
    );
}

/// A part of a source: its rule, the text where that is kept, the text where it is broken, and how often this stands there, more than once with its number.
type Part<'t> = (usize, &'t str, &'t str, usize, &'t str);

/// Appends a source that breaks these two rules.
fn put_broken(
    source: &mut String,
    parts: &[Part],
    one: usize,
    other: usize,
) -> Result<(), AllocError> {
    for (rule, kept, breaking, count, behind) in parts {
        if *rule == one || *rule == other {
            put(source, breaking, *count, behind)?;
        } else {
            put(source, kept, 1, "")?;
        }
    }
    Ok(())
}

/// Asserts what is told where each rule is broken, alone and with each later one.
fn first_is_told(rt: &impl Abort, alloc: Global, parts: &[Part], wants: &[&str]) {
    for (rule, want) in wants.iter().enumerate() {
        for other in rule..9 {
            let mut source = String::new(alloc);
            put_broken(&mut source, parts, rule, other).expect(rt, want);
            tells(rt, alloc, Call::Source, &source, source.as_bytes(), want);
        }
    }
}

/// The rules in their order: no `main`; `f` twice; `a` twice; `f` with an argument; the name `f`; a call of `main`; the name `cw_x`; a `break` alone; 257 labels
/// beside `a`. Blanks stand in the place of what breaks the others. A part of no rule has the number 9.
#[test]
fn of_two_broken_rules_the_first_is_told(rt: HostRuntime) {
    first_is_told(
        &rt,
        rt.alloc(),
        &[
            (0, "int main(void){}", "                ", 1, ""),
            (9, "int f(void){}", "", 1, ""),
            (1, "             ", "int f(void){}", 1, ""),
            (9, "int g(void){a:;", "", 1, ""),
            (2, "   ", "a:;", 1, ""),
            (3, "     ", "f(1);", 1, ""),
            (4, "  ", "f;", 1, ""),
            (5, "       ", "main();", 1, ""),
            (6, "     ", "cw_x;", 1, ""),
            (7, "      ", "break;", 1, ""),
            (8, "", "b", 257, ":;"),
            (9, "}", "", 1, ""),
        ],
        &[
            "Scope(NoMain)",
            "Scope(TwoFunctions(Name { from: 33, to: 34 }))",
            "Scope(TwoLabels(Name { from: 57, to: 58 }))",
            "Scope(Arity(60))",
            "Scope(CallForm(65))",
            "Scope(MainCalled(67))",
            "Scope(Reserved(74))",
            "Scope(Jump(79))",
            "Scope(Limit(Labels))",
        ],
    );
}

#[test]
fn more_functions_than_there_may_be(rt: HostRuntime) {
    all_joined_tell(
        &rt,
        rt.alloc(),
        Call::Source,
        &[
            (
                &[
                    ("int main(void){}int f(void){}", 1, ""),
                    ("int g", 510, "(void){}"),
                ],
                "read",
            ),
            (
                &[
                    ("int main(void){}int f(void){}", 1, ""),
                    ("int g", 511, "(void){}"),
                ],
                "Scope(Limit(Functions))",
            ),
        ],
    );
}

#[test]
fn uses_of_a_descriptor(rt: HostRuntime) {
    all_tell(
        &rt,
        rt.alloc(),
        Call::Descriptors,
        &[
            ("int main(void){int fd;}", "NoVariable(0)"),
            ("int fd;int main(void){int fd;}", "Shadowed(0)"),
            ("int fd;int main(void){fd=g();}", "kept"),
            ("int fd;int main(void){++fd;}", "Misuse(22)"),
            ("int fd;int main(void){x=close(fd);}", "Misuse(24)"),
        ],
    );
}
