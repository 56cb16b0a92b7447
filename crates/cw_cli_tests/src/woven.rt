//! Runs of woven programs over values: the weaver's tries, what is answered to them, and calls in processes of their own.
use crate::given::all_end_edited;
use crate::weaves::{
    ARRAYS, ASKED, DEEP, NESTED, OPENED, PARTS, RESULTS, SPLITS, STOPS, TURNS, WITHIN,
};

const VALUES: [&str; 4] = ["values", "p.toml", "s.c", "t"];

/// A text of answers, with a mark in the place of its lines.
const ANSWERS: &str = "capweave answers 1\n@end\n";

#[test]
fn calls_within_calls_in_processes_of_their_own(rt: HostRuntime) {
    all_end_edited(
        &rt,
        rt.alloc(),
        &VALUES,
        &[NESTED, WITHIN, ANSWERS],
        &[
            (
                "@",
                "call 1\ncall 2\ncall 3\ncall 4\ncall 5\n",
                1,
                0,
                "call put(2,5) = 1\ncall put(10) = 2\ncall put(10,9) = 3\ncall put(90) = 4\ncall put(89,9) = 5\ntries 7\nended\n",
                "",
            ),
            (
                "@",
                "call 1\ncall 2\ncall 3\n",
                1,
                1,
                "call put(2,5) = 1\ncall put(10) = 2\ncall put(10,9) = 3\ntries 7\nstop answers 3:32\n",
                "",
            ),
            (
                "@",
                "call 1\ncall 2\n",
                1,
                1,
                "call put(2,5) = 1\ncall put(10) = 2\ntries 6\nstop answers 2:17\n",
                "",
            ),
            (
                "@",
                "call 1\n",
                1,
                1,
                "call put(2,5) = 1\ntries 4\nstop answers 3:32\n",
                "",
            ),
            (
                "@",
                "try refuse\ntry refuse\ncall 1\ncall 2\ncall 3\ncall 4\ncall 5\n",
                1,
                0,
                "call put(2,5) = 1\ncall put(10) = 2\ncall put(10,9) = 3\ncall put(90) = 4\ncall put(89,9) = 5\ntries 7\nended\n",
                "",
            ),
        ],
    );
}

#[test]
fn arrays_of_the_file_are_seen_as_they_are_at_the_call(rt: HostRuntime) {
    all_end_edited(
        &rt,
        rt.alloc(),
        &VALUES,
        &[NESTED, ARRAYS, ANSWERS],
        &[
            (
                "@",
                "call 0\ncall 0\ncall 0\ncall 0\n",
                1,
                1,
                "call put(1401,1,4,0) = 0\ncall put(3303,3,3,1) = 0\ncall put(5105,5,1,2) = 0\ntries 12\nstop index 3:34\n",
                "",
            ),
            (
                "@",
                "call 0\n",
                1,
                1,
                "call put(1401,1,4,0) = 0\ntries 8\nstop answers 4:71\n",
                "",
            ),
        ],
    );
}

#[test]
fn results_of_calls_in_processes_of_their_own(rt: HostRuntime) {
    all_end_edited(
        &rt,
        rt.alloc(),
        &VALUES,
        &[SPLITS, RESULTS, ANSWERS],
        &[
            (
                "@",
                "name n 0\ncall 4\ncall 5\n",
                1,
                0,
                "call put(21,147) = 4\ncall put(28) = 5\ntries 8\nended\n",
                "",
            ),
            (
                "@",
                "name n 1\ncall 4\ncall 5\n",
                1,
                1,
                "call put(28,196) = 4\ntries 8\nstop form 3:65\n",
                "",
            ),
            (
                "@",
                "name n 2\ncall 4\ncall 5\n",
                1,
                1,
                "call put(35,245) = 4\ntries 8\nstop form 3:85\n",
                "",
            ),
            (
                "@",
                "name n 3\ncall 4\ncall 5\n",
                1,
                1,
                "call put(42,294) = 4\ntries 8\nstop form 3:99\n",
                "",
            ),
            (
                "@",
                "name n 4\ncall 4\ncall 5\n",
                1,
                1,
                "call put(49,343) = 4\ntries 8\nstop division 2:54\n",
                "",
            ),
            (
                "@",
                "name n 5\ncall 4\ncall 5\n",
                1,
                1,
                "call put(56,392) = 4\ncall put(-1) = 5\ntries 8\nstop form 3:99\n",
                "",
            ),
            (
                "@",
                "name n 5\ncall 4\n",
                1,
                1,
                "call put(56,392) = 4\ntries 8\nstop answers 2:50\n",
                "",
            ),
        ],
    );
}

#[test]
fn tries_take_the_answers_that_are_told(rt: HostRuntime) {
    all_end_edited(
        &rt,
        rt.alloc(),
        &VALUES,
        &[STOPS, OPENED, ANSWERS],
        &[
            (
                "@",
                "name n 3\ntry grant\ntry grant\ntry refuse\ncall 7\ncall 0\ncall 8\ncall 0\ncall 9\n",
                1,
                1,
                "call open_it(3) = 7\ncall put(3) = 0\ncall open_it(2) = 8\ncall put(2) = 0\ncall open_it(1) = 9\ntries 3\nstop refused 2\n",
                "",
            ),
            (
                "@",
                "name n 3\ntry grant\ntry refuse\ntry grant\ntry refuse\ncall 7\ncall 0\ncall 8\ncall 0\ncall 9\n",
                1,
                1,
                "call open_it(3) = 7\ncall put(3) = 0\ncall open_it(2) = 8\ntries 2\nstop refused 2\n",
                "",
            ),
            (
                "@",
                "name n 3\ntry refuse\ncall 7\n",
                1,
                1,
                "call open_it(3) = 7\ntries 1\nstop refused 2\n",
                "",
            ),
            (
                "@",
                "name n 3\ntry refuse\ncall -7\ncall 1\ncall -1\n",
                1,
                1,
                "call open_it(3) = -7\ncall put(3) = 1\ncall open_it(2) = -1\ntries 0\nstop answers 2:45\n",
                "",
            ),
            (
                "@",
                "name n 3\ncall 7\ncall 0\ncall 8\ncall 0\ncall 9\ncall 0\ncall 0\n",
                1,
                0,
                "call open_it(3) = 7\ncall put(3) = 0\ncall open_it(2) = 8\ncall put(2) = 0\ncall open_it(1) = 9\ncall put(1) = 0\ncall put(9) = 0\ntries 3\nended\n",
                "",
            ),
        ],
    );
}

#[test]
fn a_refusal_ends_the_run_wherever_it_comes(rt: HostRuntime) {
    all_end_edited(
        &rt,
        rt.alloc(),
        &VALUES,
        &[PARTS, ASKED, ANSWERS],
        &[
            (
                "@",
                "call 1\ncall 2\ncall 3\ncall 4\ncall 5\ncall 6\ncall 7\ncall 8\ncall 9\n",
                1,
                0,
                "call put(0) = 1\ncall get() = 2\ncall put(1) = 3\ncall put(1) = 4\ncall get() = 5\ncall put(2) = 6\ncall put(2) = 7\ncall get() = 8\ncall put(3) = 9\ntries 6\nended\n",
                "",
            ),
            (
                "@",
                "try grant\ntry grant\ntry grant\ntry refuse\ncall 1\ncall 2\ncall 3\ncall 4\n",
                1,
                1,
                "call put(0) = 1\ncall get() = 2\ncall put(1) = 3\ncall put(1) = 4\ntries 4\nstop refused 1\n",
                "",
            ),
            (
                "@",
                "try grant\ntry refuse\ntry grant\ncall 1\ncall 2\n",
                1,
                1,
                "call put(0) = 1\ntries 2\nstop refused 1\n",
                "",
            ),
            (
                "@",
                "try refuse\ncall 1\n",
                1,
                1,
                "tries 1\nstop refused 3\n",
                "",
            ),
            (
                "@",
                "try grant\ntry grant\ntry refuse\ntry grant\ncall 1\ncall 2\ncall 3\ncall 4\n",
                1,
                1,
                "call put(0) = 1\ncall get() = 2\ncall put(1) = 3\ntries 3\nstop refused 3\n",
                "",
            ),
            (
                "@",
                "try grant\ntry grant\ntry grant\ntry grant\ntry grant\ntry refuse\ncall 1\ncall 2\ncall 3\ncall 4\ncall 5\ncall 6\ncall 7\ncall 8\n",
                1,
                1,
                "call put(0) = 1\ncall get() = 2\ncall put(1) = 3\ncall put(1) = 4\ncall get() = 5\ncall put(2) = 6\ncall put(2) = 7\ntries 6\nstop refused 1\n",
                "",
            ),
            (
                "@",
                "try grant\ntry grant\ntry refuse\ncall 1\ncall 2\n",
                1,
                1,
                "call put(0) = 1\ncall get() = 2\ntries 2\nstop answers 2:45\n",
                "",
            ),
            ("@", "", 1, 1, "tries 1\nstop answers 1:14\n", ""),
        ],
    );
}

#[test]
fn calls_as_deep_as_is_told(rt: HostRuntime) {
    all_end_edited(
        &rt,
        rt.alloc(),
        &VALUES,
        &[SPLITS, DEEP, ANSWERS],
        &[
            (
                "@",
                "name n 0\ncall 1\n",
                1,
                0,
                "call put(2) = 1\ntries 1\nended\n",
                "",
            ),
            (
                "@",
                "name n 1\ncall 1\n",
                1,
                0,
                "call put(3) = 1\ntries 2\nended\n",
                "",
            ),
            (
                "@",
                "name n 5\ncall 1\n",
                1,
                0,
                "call put(33) = 1\ntries 6\nended\n",
                "",
            ),
            ("@", "name n 5\n", 1, 1, "tries 6\nstop answers 3:30\n", ""),
            (
                "@",
                "name n 70\ncall 1\n",
                1,
                1,
                "tries 71\nstop overflow 2:60\n",
                "",
            ),
            (
                "@",
                "name n 90000\ncall 1\n",
                1,
                1,
                "tries 90001\nstop overflow 2:60\n",
                "",
            ),
        ],
    );
}

#[test]
fn calls_one_after_the_other(rt: HostRuntime) {
    all_end_edited(
        &rt,
        rt.alloc(),
        &VALUES,
        &[SPLITS, TURNS, ANSWERS],
        &[
            (
                "@",
                "name n 3\ncall 1\n",
                1,
                0,
                "call put(3) = 1\ntries 6\nended\n",
                "",
            ),
            (
                "@",
                "name n 200000\ncall 1\n",
                1,
                1,
                "tries 222222\nstop steps\n",
                "",
            ),
            ("@", "name n 3\n", 1, 1, "tries 6\nstop answers 2:47\n", ""),
        ],
    );
}
