//! Whole runs of `weave` over files and sinks in memory.
use crate::given::{all_end, all_end_edited, ends};
use crate::texts::{
    BOTH, DESCRIPTOR, FORMAT_TWO, LOOP, NEVER, NEVER_AMBIENT, NO_LABEL, NO_RULES, ONE_LABEL,
    OPENED_AND_TAKEN, OVER_A_CALL, REFUSABLE, REFUSED_ENTER, SECOND_OF_TWO, STOPPABLE, STOPS,
    TWO_LABELS, TWO_LABELS_IN_A_LOOP,
};

const WEAVE: [&str; 3] = ["weave", "p.toml", "s.c"];

const ELSEWHERE: &str = "format = 1\n[[at]]\nlabel = \"z\"\nnever = [\"amb\"]\n";

const LOOPS: &str =
    "format = 1\n[[at]]\nlabel = \"o\"\nmust = [\"amb\"]\n[[at]]\nlabel = \"p\"\nnever = [\"amb\"]\n";

const OPENED: &str =
    "format = 2\n[[descriptor]]\nname = \"fd\"\nrights = [\"CAP_READ\"]\n[[limit]]\ndescriptor = \"fd\"\nkeep = []\n[[at]]\nlabel = \"a\"\nnever = [\"fd:CAP_READ\"]\n";

/// A policy of so many limits as stand at its mark.
const LIMITS: &str = "format = 1\n[[descriptor]]\nname = \"0\"\nrights = [\"CAP_READ\"]\n@";

/// A line of a comment behind another line.
const LINE: &str =
    "\n/* a line of a comment, so that the source is long and its program is short: a hundred bytes at all */";

/// `NO_RULES`, with a mark and the end of a line behind it.
const NO_RULES_AND_LINES: &str = "/*cw{*/
#include \"capweave.h\"
#define CW_LIMITS(X)
CW_TABLE(1,2,0)
CW_MEM(0,0,0x3)
CW_LIVE(0,0)
CW_LIVE(2,0)
CW_LIVE(3,0)
CW_LIVE(4,0)
CW_DONE
/*}cw*/int main(void){/*cw{*/CW_ENTRY(0);/*}cw*/return 0;}@
";

#[test]
fn weaves_refutes_or_tells_why_not(rt: HostRuntime) {
    all_end(
        &rt,
        rt.alloc(),
        &[
            (&WEAVE, &["format = 1\n", NO_LABEL], 0, NO_RULES, ""),
            (&WEAVE, &[NEVER, ONE_LABEL], 0, NEVER_AMBIENT, ""),
            (
                &WEAVE,
                &["format = 1\n", "int main(void){while(c){o:;p:;}return 0;}"],
                0,
                LOOP,
                "",
            ),
            (
                &WEAVE,
                &[ELSEWHERE, ONE_LABEL],
                4,
                "",
                "policy: no label z\n",
            ),
            (
                &WEAVE,
                &[BOTH, "int main(void){a:;b:;return 0;}"],
                1,
                TWO_LABELS,
                "",
            ),
            (
                &WEAVE,
                &[LOOPS, "int main(void){while(c){o:;p:;}return 0;}"],
                1,
                TWO_LABELS_IN_A_LOOP,
                "",
            ),
            (&WEAVE, &["format = 2\n", ONE_LABEL], 0, FORMAT_TWO, ""),
            (
                &WEAVE,
                &["format = 3\n", ONE_LABEL],
                4,
                "",
                "policy: kind format\n",
            ),
            (
                &WEAVE,
                &["format = 3\n", ""],
                4,
                "",
                "policy: kind format\n",
            ),
        ],
    );
}

#[test]
fn weaves_refusals_calls_and_opens(rt: HostRuntime) {
    all_end(
        &rt,
        rt.alloc(),
        &[
            (&WEAVE, &["format = 1\n", ""], 3, "", "source: no main\n"),
            (
                &WEAVE,
                &["format = 1\n", "/*cw{*/int main(void){return 0;}"],
                3,
                "",
                "source 1:3: marker\n",
            ),
            (
                &WEAVE,
                &["format = 1\n", "int main(void){"],
                3,
                "",
                "source 1:16: syntax\n",
            ),
            (
                &WEAVE,
                &["format = 1\n", "int main(void)\n{\n    return 0x;\n}\n"],
                3,
                "",
                "source 3:12: number\n",
            ),
            (
                &WEAVE,
                &[
                    "format = 1\n",
                    "int f(int x){return x;}int main(void){return f(1);}",
                ],
                3,
                "",
                "source 1:46: call form\n",
            ),
            (&WEAVE, &[REFUSABLE, ONE_LABEL], 1, REFUSED_ENTER, ""),
            (&WEAVE, &[STOPPABLE, ONE_LABEL], 0, STOPS, ""),
            (
                &WEAVE,
                &[NEVER, "void f(void){}int main(void){f();a:;return 0;}"],
                0,
                OVER_A_CALL,
                "",
            ),
            (
                &WEAVE,
                &[
                    OPENED,
                    "int fd;int f(void){return 0;}int main(void){int x;fd=open(0);x=f();a:;close(fd);return 0;}",
                ],
                0,
                OPENED_AND_TAKEN,
                "",
            ),
        ],
    );
}

#[test]
fn tells_why_nothing_is_woven(rt: HostRuntime) {
    all_end(
        &rt,
        rt.alloc(),
        &[
            (
                &WEAVE,
                &[
                    "format = 2\nsplit = [\"f\"]\ndetached = [\"f\"]\n",
                    "void f(void){}int main(void){f();return 0;}",
                ],
                4,
                "",
                "policy: detached\n",
            ),
            (
                &WEAVE,
                &[DESCRIPTOR, ONE_LABEL],
                3,
                "",
                "source: no variable fd\n",
            ),
            (
                &WEAVE,
                &[DESCRIPTOR, "int fd;int main(void){fd=1;return 0;}"],
                3,
                "",
                "source 1:23: misuse\n",
            ),
            (
                &WEAVE,
                &[
                    NEVER,
                    "int g(int x){do{x--;}while(x);return x;}\nint main(void){int i;for(i=0;i<3;i++){if(i==2)break;a:g2(i);}return 0;}\n",
                ],
                0,
                SECOND_OF_TWO,
                "",
            ),
            (
                &WEAVE,
                &["format = 1\n", "int main(void){main();return 0;}"],
                3,
                "",
                "source 1:16: main called\n",
            ),
            (
                &WEAVE,
                &[
                    "format = 1\n[[rule]]\nname = \"r\"\nbad = \"a[\"\n",
                    ONE_LABEL,
                ],
                4,
                "",
                "policy: regex rule[0] at 2\n",
            ),
            (
                &WEAVE,
                &[
                    "format = 1\n[[rule]]\nname = \"r\"\nbad = \"z\"\n",
                    ONE_LABEL,
                ],
                4,
                "",
                "policy: no label z\n",
            ),
        ],
    );
}

#[test]
fn tells_that_points_or_limits_are_too_many(rt: HostRuntime) {
    all_end_edited(
        &rt,
        rt.alloc(),
        &WEAVE,
        &["format = 1\n", "int main(void){@return 0;}"],
        &[("@", ";", 8_190, 5, "", "limit: points\n")],
    );
    all_end_edited(
        &rt,
        rt.alloc(),
        &WEAVE,
        &[LIMITS, ONE_LABEL],
        &[(
            "@",
            "[[limit]]\ndescriptor = \"0\"\nkeep = []\n",
            13,
            5,
            "",
            "limit: limits\n",
        )],
    );
}

/// The source has over 200,000 bytes.
#[test]
fn a_source_of_two_hundred_thousand_bytes_is_woven(rt: HostRuntime) {
    all_end_edited(
        &rt,
        rt.alloc(),
        &WEAVE,
        &["format = 1\n", "int main(void){return 0;}@\n"],
        &[("@", LINE, 2_000, 0, NO_RULES_AND_LINES, "")],
    );
}

#[test]
fn policies_are_refused_with_their_first_fault(rt: HostRuntime) {
    all_end_edited(
        &rt,
        rt.alloc(),
        &WEAVE,
        &["@", ONE_LABEL],
        &[
            (
                "@",
                "[[at]]\nlabel = \"a\"\nnever = [\"amb\"]\n",
                1,
                4,
                "",
                "policy: missing format\n",
            ),
            (
                "@",
                "format = 1\n[[limit]]\ndescriptor = \"0\"\nkeep = [\"CAP_READ\"]\n",
                1,
                4,
                "",
                "policy: unknown limit[0].descriptor\n",
            ),
            (
                "@",
                "format = 1\n[[rule]]\nname = \"n\"\nbad = \"(((((((((((((((((((((((((((((((((((((((((((((((((((((((((((((((((a)))))))))))))))))))))))))))))))))))))))))))))))))))))))))))))))))\"\n",
                1,
                5,
                "",
                "limit: nesting\n",
            ),
            ("@", " ", 65_537, 5, "", "limit: policy bytes\n"),
        ],
    );
    ends(
        &rt,
        rt.alloc(),
        &WEAVE,
        &["format = 1\n@\n", ONE_LABEL],
        &("@", b"\xff", 1),
        4,
        "",
        "policy: toml\n",
    );
}
