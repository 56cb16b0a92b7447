//! Plays of sources, written out by hand.

use crate::played::are_played;
use crate::policies::{LABELS, ONE, ONE_GRANTING, ONE_REFUSABLE, ONE_STOPPING, TWO};

const SPLIT: &str = "int g(void){close(x);}int main(void){x=open();g();a:;}";

const TWO_LABELS: &str = "int main(void){a:;b:;return 0;}";

const BELOW: &str = "int g(void){a:;}int main(void){x=open();g();}";

#[test]
fn loops_are_left_and_gone_on_with(rt: HostRuntime) {
    are_played(
        &rt,
        rt.alloc(),
        &[(
            ONE,
            "int main(void){while(x)if(x)break;else continue;do;while(x);for(;x;x)continue;}",
            "st.s st.s o.o <>.< <>.> o.o <>.< <>.< o.o o.o <>.< o.o <>.> <>.< o.o o.o <>.> o.o ",
        )],
    );
}

#[test]
fn a_split_call_gives_back_what_its_caller_held(rt: HostRuntime) {
    are_played(
        &rt,
        rt.alloc(),
        &[
            // what is limited at the label is open again after a call in a process of its own, and closed after a plain one
            (
                ONE_REFUSABLE,
                SPLIT,
                "st.t r.r st.s o.o +-.+ st.t gr.g st.s st.t g.g o.o st.s st.t gr.g o.o o.o o.o st.t gr.g st.s o.o o.o o.o ",
            ),
            (
                ONE_REFUSABLE,
                SPLIT,
                "st.s st.s o.o +-.+ st.s st.s st.s o.o st.s st.s o.o o.o o.o st.t r.r st.s o.o o.o o.o ",
            ),
            // an open that fails
            (
                ONE_REFUSABLE,
                SPLIT,
                "st.s st.s o.o +-.- st.t r.r st.s st.s o.o st.s st.s o.o o.o o.o st.s st.s o.o o.o o.o ",
            ),
        ],
    );
}

#[test]
fn a_recursion_unwinds(rt: HostRuntime) {
    are_played(
        &rt,
        rt.alloc(),
        &[(
            ONE,
            "int g(void){if(x)g();}int main(void){g();}",
            "st.s st.s o.o st.s st.s st.s o.o st.s st.s o.o <>.< st.s st.s st.s o.o st.s st.s o.o <>.> o.o o.o o.o ",
        )],
    );
}

#[test]
fn a_limit_past_the_rights_held_is_refused(rt: HostRuntime) {
    are_played(
        &rt,
        rt.alloc(),
        &[(
            TWO,
            "int main(void){a:;return 0;}",
            "st.t g.g st.t r.r st.s o.o st.t g.g st.s st.s o.o o.o o.o o.o ",
        )],
    );
}

#[test]
fn a_word_of_two_labels_is_judged(rt: HostRuntime) {
    are_played(
        &rt,
        rt.alloc(),
        &[
            // with ambient authority at the second label
            (LABELS, TWO_LABELS, "st.s o.o st.s o.o o.o st.t gr.r "),
            // without it
            (
                LABELS,
                TWO_LABELS,
                "st.s o.o st.s o.o o.o st.t gr.g o.o o.o o.o o.o ",
            ),
        ],
    );
}

#[test]
fn a_refusal_is_gone_on_from_or_stopped_at(rt: HostRuntime) {
    are_played(
        &rt,
        rt.alloc(),
        &[
            // a limit that can't be granted is refused without a stop; a refused enter is gone on from
            (
                ONE_STOPPING,
                BELOW,
                "st.t r.r st.t gr.r sx.s o.o +-.- st.s st.s st.s o.o st.s st.s o.o st.s st.s o.o o.o o.o o.o ",
            ),
            // a stop ends the program, with all that wait for a return
            (ONE_STOPPING, BELOW, "st.s st.t gr.r sx.x "),
            (
                ONE_STOPPING,
                BELOW,
                "st.s st.s o.o +-.+ st.t gr.r sx.s st.s st.t g.g o.o st.s st.s o.o st.t gr.r sx.x ",
            ),
            // where nothing is refusable there is no stop
            (
                ONE_GRANTING,
                BELOW,
                "st.t r.r st.t g.g o.o +-.+ st.t g.g st.s st.t g.g o.o st.s st.s o.o st.s st.s o.o o.o o.o o.o ",
            ),
        ],
    );
}
