//! Whole runs of `check` over files and sinks in memory.
use crate::given::{all_end, all_end_edited};
use crate::texts::{DESCRIPTOR, NEVER, NEVER_AMBIENT, STOPPABLE, TWO_CALLS_WOVEN, TWO_PROMISES};

const CHECK: [&str; 3] = ["check", "p.toml", "s.c"];

const SPLITS: &str = "format = 1\nsplit = [\"f\"]\n[[at]]\nlabel = \"m\"\nmust = [\"amb\"]\n";

/// The front of `NEVER_AMBIENT`.
const CUT_OFF: &str = "/*cw{*/
#include \"capweave.h\"
#define CW_LIMITS(X)
CW_TABLE(1,4,0)
CW_MEM(0,0,0xf)
CW_MEM(1,1,0xf)
CW_MEM(2,3,0xf)
CW_LIVE(0,0)
CW_LIVE(2,0)
CW_LIVE(3,0)
CW_LIV";

/// `NEVER_AMBIENT`, with a mark at its last statement.
const MARKED: &str = "/*cw{*/
#include \"capweave.h\"
#define CW_LIMITS(X)
CW_TABLE(1,4,0)
CW_MEM(0,0,0xf)
CW_MEM(1,1,0xf)
CW_MEM(2,3,0xf)
CW_LIVE(0,0)
CW_LIVE(2,0)
CW_LIVE(3,0)
CW_LIVE(4,0)
CW_LIVE(5,1)
CW_LIVE(6,2)
CW_LIVE(7,2)
CW_LIVE(8,2)
CW_TRY(1,0,0,1,CW_NONE)
CW_AT(1,1,2)
CW_DONE
/*}cw*/int main(void){/*cw{*/CW_ENTRY(0);/*}cw*/a:/*cw{*/CW_LABEL(1)/*}cw*/;@return 0;}";

#[test]
fn checks_tables_or_tells_why_not(rt: HostRuntime) {
    all_end(
        &rt,
        rt.alloc(),
        &[
            (&CHECK, &[TWO_PROMISES, TWO_CALLS_WOVEN], 0, "yes\n", ""),
            (
                &CHECK,
                &[SPLITS, TWO_CALLS_WOVEN],
                1,
                "live 15 condition 4\n",
                "",
            ),
            (&CHECK, &[STOPPABLE, NEVER_AMBIENT], 0, "yes\n", ""),
            (&CHECK, &[NEVER, NEVER_AMBIENT], 0, "yes\n", ""),
            (
                &CHECK,
                &["format = 3\n", ""],
                4,
                "",
                "policy: kind format\n",
            ),
            (
                &CHECK,
                &["format = 1\n[[at]]\nlabel = \"z\"\n", NEVER_AMBIENT],
                4,
                "",
                "policy: no label z\n",
            ),
            (
                &CHECK,
                &[DESCRIPTOR, NEVER_AMBIENT],
                9,
                "",
                "woven: source: no variable fd\n",
            ),
            (&CHECK, &[NEVER, CUT_OFF], 9, "", "woven: mark 0\n"),
        ],
    );
}

#[test]
fn tables_that_are_wrong_are_told_by_row_and_condition(rt: HostRuntime) {
    all_end_edited(
        &rt,
        rt.alloc(),
        &CHECK,
        &[NEVER, NEVER_AMBIENT],
        &[
            (
                "CW_TABLE(1,4,0)",
                "CW_TABLE(1,5,0)",
                1,
                1,
                "mems 0 condition 1\n",
                "",
            ),
            (
                "CW_AT(1,1,2)",
                "CW_AT(1,1,3)",
                1,
                1,
                "ats 0 condition 1\n",
                "",
            ),
            (
                "CW_TRY(1,0,0,1,CW_NONE)\n",
                "",
                1,
                1,
                "live 2 condition 4\n",
                "",
            ),
            (
                "CW_TRY(1,0,0,1,CW_NONE)",
                "CW_TRY(1,0,0,CW_NONE,1)",
                1,
                1,
                "live 3 condition 5\n",
                "",
            ),
            (
                "CW_AT(1,1,2)",
                "CW_AT(1,1,1)",
                1,
                1,
                "live 4 condition 6\n",
                "",
            ),
            ("CW_LIVE(8,2)\n", "", 1, 1, "live 6 condition 6\n", ""),
        ],
    );
    all_end_edited(
        &rt,
        rt.alloc(),
        &CHECK,
        &[TWO_PROMISES, TWO_CALLS_WOVEN],
        &[
            (
                "CW_MEM(2,2,0x5)",
                "CW_MEM(2,2,0x1)",
                1,
                1,
                "live 6 condition 6\n",
                "",
            ),
            (
                "CW_ENTRY(0);",
                "CW_ENTRX(0);",
                1,
                9,
                "",
                "woven: mark 689\n",
            ),
        ],
    );
    all_end_edited(
        &rt,
        rt.alloc(),
        &CHECK,
        &[STOPPABLE, NEVER_AMBIENT],
        &[("1,CW_NONE)", "1,0)", 1, 1, "live 3 condition 5\n", "")],
    );
}

#[test]
fn tells_what_is_wrong_with_woven_texts(rt: HostRuntime) {
    all_end_edited(
        &rt,
        rt.alloc(),
        &CHECK,
        &[NEVER, NEVER_AMBIENT],
        &[
            (
                "0xf)\nCW_MEM(2",
                "0x0f)\nCW_MEM(2",
                1,
                9,
                "",
                "woven: line 5\n",
            ),
            (
                "CW_LIVE(0,0)\nCW_LIVE(2,0)",
                "CW_LIVE(2,0)\nCW_LIVE(0,0)",
                1,
                9,
                "",
                "woven: order 8\n",
            ),
            (
                "CW_LIMITS(X)",
                "CW_LIMITS(X) X(0,0,0x1)",
                1,
                9,
                "",
                "woven: line 2\n",
            ),
            ("/*cw{*/\n", "", 1, 9, "", "woven: mark 0\n"),
            (NEVER_AMBIENT, "", 1, 9, "", "woven: mark 0\n"),
            (
                "/*cw{*/CW_LABEL(1)/*}cw*/;",
                ";/*cw{*/CW_LABEL(1)/*}cw*/",
                1,
                9,
                "",
                "woven: misplaced 1\n",
            ),
            (
                "CW_LABEL(1)",
                "CW_LABEL(2)",
                1,
                9,
                "",
                "woven: misplaced 1\n",
            ),
            ("0;}", "0;", 1, 9, "", "woven: source 1:28: syntax\n"),
            (
                "return 0",
                "return @",
                1,
                9,
                "",
                "woven: source 1:26: bad byte\n",
            ),
            (
                "0;}",
                "0;}/*}cw*/",
                1,
                9,
                "",
                "woven: source 1:30: marker\n",
            ),
            ("main", "mainy", 1, 9, "", "woven: source: no main\n"),
            (
                "0;}",
                "((((((((((((((((((((((((((((((((((((((((((((((((((((((((((((((((((((((0))))))))))))))))))))))))))))))))))))))))))))))))))))))))))))))))))))));}",
                1,
                5,
                "",
                "limit: nesting\n",
            ),
            ("0;}", " ", 262_144, 5, "", "limit: source bytes\n"),
        ],
    );
    all_end_edited(
        &rt,
        rt.alloc(),
        &CHECK,
        &[NEVER, MARKED],
        &[("@", ";", 8_192, 5, "", "limit: points\n")],
    );
}
