//! Whole runs of `play` and `run` over files and sinks in memory. The traces are those of a second program in another language.
use crate::given::all_end;
use crate::texts::{NEVER, NEVER_AMBIENT, ONE_LABEL, REFUSABLE, REFUSED_ENTER};

const PLAY: [&str; 5] = ["play", "p.toml", "s.c", "t", "tape"];

const RUN: [&str; 4] = ["run", "p.toml", "s.c", "tape"];

#[test]
fn plays_strategies_or_tells_why_not(rt: HostRuntime) {
    all_end(
        &rt,
        rt.alloc(),
        &[
            (
                &PLAY,
                &[REFUSABLE, ONE_LABEL, REFUSED_ENTER, "try try"],
                0,
                "try 0 enter refused\ntry 1 enter refused\nlabel a amb\nviolation a never amb\n",
                "",
            ),
            (
                &PLAY,
                &[REFUSABLE, ONE_LABEL, REFUSED_ENTER, "skip"],
                1,
                "tape spent\n",
                "",
            ),
            (
                &PLAY,
                &[NEVER, ONE_LABEL, REFUSED_ENTER, "try"],
                1,
                "row 1 condition 5\n",
                "",
            ),
            (
                &PLAY,
                &[REFUSABLE, ONE_LABEL, REFUSED_ENTER, "skip\ngrant\n"],
                9,
                "",
                "tape: line 2\n",
            ),
            (
                &PLAY,
                &[REFUSABLE, ONE_LABEL, "", "grant"],
                9,
                "",
                "strategy: line 1\n",
            ),
        ],
    );
}

#[test]
fn runs_woven_texts_or_tells_why_not(rt: HostRuntime) {
    all_end(
        &rt,
        rt.alloc(),
        &[
            (
                &RUN,
                &[NEVER, NEVER_AMBIENT, "", "on grant on on on on"],
                0,
                "try 1 enter granted\nlabel a cap\nended\n",
                "",
            ),
            (
                &RUN,
                &[NEVER, NEVER_AMBIENT, "", "on grant"],
                1,
                "try 1 enter granted\nlabel a cap\ntape spent\n",
                "",
            ),
            (
                &RUN,
                &[NEVER, NEVER_AMBIENT, "", "on refuse"],
                1,
                "bad move 1\n",
                "",
            ),
            (
                &RUN,
                &[REFUSABLE, NEVER_AMBIENT, "", "on"],
                1,
                "live 3 condition 5\n",
                "",
            ),
            (
                &RUN,
                &[NEVER, NEVER_AMBIENT, "", "on\ntry"],
                9,
                "",
                "tape: line 2\n",
            ),
            (
                &RUN,
                &[NEVER, NEVER_AMBIENT, "", "on grnat"],
                9,
                "",
                "tape: line 1\n",
            ),
            (
                &RUN,
                &[NEVER, ONE_LABEL, "", "try"],
                9,
                "",
                "woven: mark 0\n",
            ),
        ],
    );
}
