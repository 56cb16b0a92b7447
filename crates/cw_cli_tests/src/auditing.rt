//! Whole runs of `audit` and `reaudit` over files and sinks in memory.
use crate::given::{all_end, all_end_edited};
use crate::texts::{NEVER, ONE_LABEL};

const AUDIT: [&str; 3] = ["audit", "p.toml", "s.c"];

const REAUDIT: [&str; 4] = ["reaudit", "p.toml", "s.c", "t"];

/// That `a` is always ambient.
const MUST: &str = "format = 1\n[[at]]\nlabel = \"a\"\nmust = [\"amb\"]\n";

/// A policy that leaves a call running.
const DETACHES: &str = "format = 2\ndetached = [\"f\"]\n[[at]]\nlabel = \"a\"\nnever = [\"amb\"]\n";

const CALL: &str = "void f(int x){a:;}int main(void){f(1);b:;return 0;}";

/// `ONE_LABEL` under `NEVER`.
const VIOLATES: &str = "capweave audit 1
states 4
violates 1
on
in 0 0 0
at 2 0 0
end
";

/// `ONE_LABEL` under `MUST`.
const MEETS: &str = "capweave audit 1
states 4
meets
in 0 0 0
at 2 0 0
at 5 0 1
at 6 2 2
at 7 2 3
at 8 2 4
end
";

/// `CALL` under `DETACHES`.
const CALLED: &str = "capweave audit 1
states 4
violates 3
on
on
on
in 0 0 2
at 2 0 0
in 1 0 0
at 10 0 0
at 13 0 1
end
";

#[test]
fn sources_are_audited_or_refused(rt: HostRuntime) {
    all_end(
        &rt,
        rt.alloc(),
        &[
            (&AUDIT, &[NEVER, ONE_LABEL], 1, VIOLATES, ""),
            (&AUDIT, &[MUST, ONE_LABEL], 0, MEETS, ""),
            (&AUDIT, &[DETACHES, CALL], 1, CALLED, ""),
            (
                &AUDIT,
                &[MUST, "int main(void){return 0;}"],
                4,
                "",
                "policy: no label a\n",
            ),
            (
                &AUDIT,
                &[MUST, "int main(void){"],
                3,
                "",
                "source 1:16: syntax\n",
            ),
            (
                &["audit", "p.toml"],
                &[MUST],
                2,
                "",
                "usage: capweave audit POLICY SOURCE\n",
            ),
        ],
    );
}

#[test]
fn audits_are_judged_or_refused(rt: HostRuntime) {
    all_end(
        &rt,
        rt.alloc(),
        &[
            (&REAUDIT, &[NEVER, ONE_LABEL, VIOLATES], 0, "yes\n", ""),
            (&REAUDIT, &[MUST, ONE_LABEL, MEETS], 0, "yes\n", ""),
            (&REAUDIT, &[DETACHES, CALL, CALLED], 0, "yes\n", ""),
            (
                &REAUDIT,
                &[NEVER, ONE_LABEL, MEETS],
                1,
                "group 0 row 1 condition 3\n",
                "",
            ),
            (
                &REAUDIT,
                &[MUST, CALL, MEETS],
                1,
                "group 0 row 4 condition 1\n",
                "",
            ),
            (&REAUDIT, &[MUST, ONE_LABEL, ""], 9, "", "audit: line 1\n"),
            (
                &REAUDIT,
                &[MUST, "int main(void){", "q"],
                3,
                "",
                "source 1:16: syntax\n",
            ),
            (
                &REAUDIT,
                &[MUST, "int main(void){return 0;}", "q"],
                9,
                "",
                "audit: line 1\n",
            ),
            (
                &REAUDIT,
                &[MUST, "int main(void){return 0;}", MEETS],
                4,
                "",
                "policy: no label a\n",
            ),
            (
                &["reaudit", "p.toml", "s.c"],
                &[MUST, ONE_LABEL],
                2,
                "",
                "usage: capweave reaudit POLICY SOURCE AUDIT\n",
            ),
        ],
    );
}

#[test]
fn the_first_condition_or_line_is_told(rt: HostRuntime) {
    let alloc = rt.alloc();
    all_end_edited(
        &rt,
        alloc,
        &REAUDIT,
        &[NEVER, ONE_LABEL, VIOLATES],
        &[
            (
                "1\non\n",
                "1\nleft\n",
                1,
                1,
                "group 1 row 0 condition 6\n",
                "",
            ),
            (
                "states 4",
                "states 5",
                1,
                1,
                "group 0 row 0 condition 1\n",
                "",
            ),
            ("states 4", "states 04", 1, 9, "", "audit: line 2\n"),
            ("1\non\n", "1\n\n", 1, 9, "", "audit: line 4\n"),
        ],
    );
    all_end_edited(
        &rt,
        alloc,
        &REAUDIT,
        &[MUST, ONE_LABEL, MEETS],
        &[
            ("at 8 2 4\n", "", 0, 1, "group 0 row 3 condition 4\n", ""),
            (
                "meets",
                "violates 3",
                1,
                1,
                "group 1 row 0 condition 6\n",
                "",
            ),
            (
                "in 0 0 0",
                "in 0 0 1",
                1,
                1,
                "group 0 row 0 condition 2\n",
                "",
            ),
            ("end\n", "", 0, 9, "", "audit: line 10\n"),
            ("end\n", "end\n\n", 1, 9, "", "audit: line 11\n"),
        ],
    );
}
