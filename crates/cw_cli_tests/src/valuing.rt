//! Whole runs of `values` over files and sinks in memory.
use crate::given::{all_end, all_end_edited};
use crate::texts::{NEVER, ONE_LABEL};

const VALUES: [&str; 4] = ["values", "p.toml", "s.c", "t"];

/// A policy without rules.
const NOTHING: &str = "format = 1\n";

/// That `a` is never ambient and `b` always, where `f` may run in a process of its own.
const SPLITS: &str = "format = 1
split = [\"f\"]
[[at]]
label = \"a\"
never = [\"amb\"]
[[at]]
label = \"b\"
must = [\"amb\"]
";

/// A program whose call runs in a process of its own, woven under `SPLITS`.
const CALLED: &str = "/*cw{*/
#include \"capweave.h\"
#define CW_LIMITS(X)
CW_TABLE(1,4,0)
CW_MEM(0,0,0xf)
CW_MEM(1,1,0xf)
CW_MEM(2,2,0xf)
CW_MEM(3,3,0xf)
CW_LIVE(0,0)
CW_LIVE(2,0)
CW_LIVE(3,0)
CW_LIVE(4,0)
CW_LIVE(5,1)
CW_LIVE(6,3)
CW_LIVE(7,3)
CW_LIVE(8,3)
CW_LIVE(9,0)
CW_LIVE(11,0)
CW_LIVE(12,0)
CW_LIVE(13,0)
CW_LIVE(15,0)
CW_LIVE(16,0)
CW_LIVE(18,0)
CW_LIVE(19,2)
CW_LIVE(21,2)
CW_LIVE(22,2)
CW_LIVE(23,2)
CW_LIVE(24,2)
CW_LIVE(25,2)
CW_TRY(1,0,0,1,CW_NONE)
CW_TRY(3,1,0,0,CW_NONE)
CW_AT(1,1,3)
CW_AT(4,2,2)
CW_INTO(3,1,0,0)
CW_BACK(3,1,0,3,2)
CW_DONE
/*}cw*/int f(int x){/*cw{*/CW_ENTRY(0);/*}cw*/a:/*cw{*/CW_LABEL(1)/*}cw*/;return x+1;}
int main(void){/*cw{*/CW_ENTRY(2);/*}cw*/int y;/*cw{*/CW_CALLV(3,y)/*}cw*/y=f(1);b:/*cw{*/CW_LABEL(4)/*}cw*/;put(y);return 0;}
";

/// A program that divides by 0, woven under `NOTHING`.
const DIVIDES: &str = "/*cw{*/
#include \"capweave.h\"
#define CW_LIMITS(X)
CW_TABLE(1,2,0)
CW_MEM(0,0,0x3)
CW_LIVE(0,0)
CW_LIVE(2,0)
CW_LIVE(3,0)
CW_LIVE(4,0)
CW_LIVE(5,0)
CW_DONE
/*}cw*/int main(void){/*cw{*/CW_ENTRY(0);/*}cw*/put(1/0);return 0;}";

const NO_ANSWERS: &str = "capweave answers 1\nend\n";

const SEVEN: &str = "capweave answers 1\ncall 7\nend\n";

#[test]
fn woven_texts_are_run_over_values(rt: HostRuntime) {
    all_end(
        &rt,
        rt.alloc(),
        &[
            (
                &VALUES,
                &[SPLITS, CALLED, SEVEN],
                0,
                "call put(2) = 7\ntries 2\nended\n",
                "",
            ),
            (
                &VALUES,
                &[SPLITS, CALLED, NO_ANSWERS],
                1,
                "tries 2\nstop answers 2:32\n",
                "",
            ),
            (
                &VALUES,
                &[NOTHING, DIVIDES, NO_ANSWERS],
                1,
                "tries 0\nstop division 1:20\n",
                "",
            ),
            (
                &VALUES,
                &[NOTHING, DIVIDES, "capweave answers 1\n"],
                9,
                "",
                "answers: line 2\n",
            ),
            (
                &VALUES,
                &[NEVER, DIVIDES, NO_ANSWERS],
                4,
                "",
                "policy: no label a\n",
            ),
            (
                &VALUES,
                &[NEVER, ONE_LABEL, NO_ANSWERS],
                9,
                "",
                "woven: mark 0\n",
            ),
            (
                &["values", "p.toml", "s.c"],
                &[NOTHING, DIVIDES],
                2,
                "",
                "usage: capweave values POLICY WOVEN ANSWERS\n",
            ),
        ],
    );
}

#[test]
fn changed_woven_texts_are_run_or_refused(rt: HostRuntime) {
    all_end_edited(
        &rt,
        rt.alloc(),
        &VALUES,
        &[NOTHING, DIVIDES, SEVEN],
        &[
            (
                "put(1/0)",
                "put(6/4)",
                1,
                0,
                "call put(1) = 7\ntries 0\nended\n",
                "",
            ),
            ("put(1/0)", "int x", 1, 0, "tries 0\nended\n", ""),
            (
                "put(1/0)",
                "int x,x",
                1,
                9,
                "",
                "woven: source 1:22: value form\n",
            ),
            (
                "put(1/0)",
                "static int x",
                1,
                9,
                "",
                "woven: source 1:27: value form\n",
            ),
            ("CW_LIVE(5,0)\n", "", 0, 1, "live 3 condition 6\n", ""),
            ("call 7", "call 07", 1, 9, "", "answers: line 2\n"),
        ],
    );
}
