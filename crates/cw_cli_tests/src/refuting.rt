//! Whole runs of `refute` over files and sinks in memory.
use crate::given::{all_end, all_end_edited};
use crate::texts::{BOTH, NO_LABEL, ONE_LABEL, REFUSABLE, REFUSED_ENTER, STOPPABLE, TWO_LABELS};

const REFUTE: [&str; 4] = ["refute", "p.toml", "s.c", "t"];

const BOTH_IN_2: &str =
    "format = 2\n[[at]]\nlabel = \"a\"\nnever = [\"amb\"]\n[[at]]\nlabel = \"b\"\nmust = [\"amb\"]\n";

const SPLITS: &str = "format = 1\nsplit = [\"f\"]\n[[at]]\nlabel = \"a\"\nnever = [\"amb\"]\n";

const TWO: &str = "int main(void){a:;b:;return 0;}";

const CALLS: &str = "void f(int x){;}int main(void){a:;f(1);return 0;}";

/// A policy of four limits, with a mark behind the first letter of its rule.
const FOUR_LIMITS: &str = r#"format = 1
[[descriptor]]
name = "0"
rights = ["CAP_READ", "CAP_WRITE", "CAP_SEEK"]
[[limit]]
descriptor = "0"
keep = ["CAP_READ"]
[[limit]]
descriptor = "0"
keep = ["CAP_WRITE"]
[[limit]]
descriptor = "0"
keep = []
[[limit]]
descriptor = "0"
keep = ["CAP_READ", "CAP_WRITE"]
[[rule]]
name = "r"
bad = "a@"
"#;

/// Sixty-four digits.
const DIGITS: &str = "0000000000000000000000000000000000000000000000000000000000000000";

#[test]
fn judges_strategies_or_tells_why_not(rt: HostRuntime) {
    all_end(
        &rt,
        rt.alloc(),
        &[
            (&REFUTE, &[BOTH, TWO, TWO_LABELS], 0, "yes\n", ""),
            (
                &REFUTE,
                &[REFUSABLE, ONE_LABEL, REFUSED_ENTER],
                0,
                "yes\n",
                "",
            ),
            (
                &REFUTE,
                &[STOPPABLE, ONE_LABEL, REFUSED_ENTER],
                1,
                "row 1 condition 5\n",
                "",
            ),
            (
                &REFUTE,
                &[BOTH, TWO, "capweave strategy 1\nstates 4\nend\n"],
                1,
                "row 0 condition 8\n",
                "",
            ),
            (
                &REFUTE,
                &[BOTH_IN_2, TWO, TWO_LABELS],
                9,
                "",
                "strategy: line 1\n",
            ),
            (
                &REFUTE,
                &[
                    BOTH,
                    ONE_LABEL,
                    "capweave strategy 1\nstates 4\n1 5 0 0x0 bad\nend\n",
                ],
                9,
                "",
                "strategy: order 3\n",
            ),
            (
                &REFUTE,
                &[BOTH, ONE_LABEL, TWO_LABELS],
                4,
                "",
                "policy: no label b\n",
            ),
            (
                &REFUTE,
                &[SPLITS, CALLS, REFUSED_ENTER],
                1,
                "row 0 condition 2\n",
                "",
            ),
            (
                &REFUTE,
                &[BOTH, "int main(void){", ""],
                3,
                "",
                "source 1:16: syntax\n",
            ),
            (
                &REFUTE,
                &["format = 3\n", "", ""],
                4,
                "",
                "policy: kind format\n",
            ),
        ],
    );
}

#[test]
fn judges_edits_of_a_strategy_of_two_promises(rt: HostRuntime) {
    all_end_edited(
        &rt,
        rt.alloc(),
        &REFUTE,
        &[BOTH, TWO, TWO_LABELS],
        &[
            ("12\nend\n", "13\nend\n", 1, 1, "row 13 condition 1\n", ""),
            ("end\n", "", 1, 9, "", "strategy: line 17\n"),
        ],
    );
    all_end_edited(
        &rt,
        rt.alloc(),
        &REFUTE,
        &[BOTH_IN_2, TWO, TWO_LABELS],
        &[("strategy 1", "strategy 2", 1, 0, "yes\n", "")],
    );
    all_end_edited(
        &rt,
        rt.alloc(),
        &REFUTE,
        &[FOUR_LIMITS, TWO, REFUSED_ENTER],
        &[("@", " a", 62, 5, "", "limit: product states\n")],
    );
}

#[test]
fn strategies_are_refused_or_told_by_row_and_condition(rt: HostRuntime) {
    all_end_edited(
        &rt,
        rt.alloc(),
        &REFUTE,
        &[REFUSABLE, ONE_LABEL, REFUSED_ENTER],
        &[
            (
                "0 5 0 0x0 bad",
                "0 5 0 0x00 bad",
                1,
                9,
                "",
                "strategy: line 3\n",
            ),
            ("1 4 0", "2 4 0", 1, 9, "", "strategy: order 4\n"),
            (
                "0 5 0 0x0 bad",
                "0 5 1 0x0 bad",
                1,
                1,
                "row 0 condition 2\n",
                "",
            ),
            (
                "0 5 0 0x0 bad",
                "0 5 0 0x0 out",
                1,
                1,
                "row 0 condition 3\n",
                "",
            ),
            ("refuse 0", "grant 0", 1, 1, "row 1 condition 5\n", ""),
            ("both 0 1", "both 1 0", 1, 1, "row 2 condition 4\n", ""),
        ],
    );
}

/// Files of 16,777,216 bytes, one more, and one more than 33,554,432.
#[test]
fn files_of_a_strategy_have_the_limit_of_the_policys_format(rt: HostRuntime) {
    all_end_edited(
        &rt,
        rt.alloc(),
        &REFUTE,
        &["format = 1\n", NO_LABEL, "@"],
        &[("@", DIGITS, 262_144, 9, "", "strategy: line 1\n")],
    );
    all_end_edited(
        &rt,
        rt.alloc(),
        &REFUTE,
        &["format = 1\n", NO_LABEL, "@0"],
        &[("@", DIGITS, 262_144, 5, "", "limit: file bytes\n")],
    );
    all_end_edited(
        &rt,
        rt.alloc(),
        &REFUTE,
        &["format = 2\n", NO_LABEL, "@0"],
        &[
            ("@", DIGITS, 262_144, 9, "", "strategy: line 1\n"),
            ("@", DIGITS, 524_288, 5, "", "limit: file bytes\n"),
        ],
    );
    all_end_edited(
        &rt,
        rt.alloc(),
        &REFUTE,
        &["format = 3\n", NO_LABEL, "@0"],
        &[("@", DIGITS, 262_144, 5, "", "limit: file bytes\n")],
    );
}
