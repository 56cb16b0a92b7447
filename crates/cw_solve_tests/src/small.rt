//! Small programs, each with what its game needs: of each context the function, the promise, how many pairs are lost, and the sum of their heights, first
//! `main` with all states; and how many contexts and cells there are.

use crate::told::{Question, all_told};

const SAMPLE_POLICY: &str = "format = 1
split = [\"f1\"]
[[at]]
label = \"w\"
never = [\"amb\"]
[[at]]
label = \"done\"
must = [\"amb\"]
";

// The smallest programs that show a solver wrong which promises late, early or the caller's own promise, which begins a late context late, or which asks
// for contexts of cells without a height alone.
#[test]
fn contexts_are_found_late(rt: HostRuntime) {
    all_told(
        &rt,
        rt.alloc(),
        &[
            (
                "a late context has all rounds",
                "format = 1\n[[rule]]\nname = \"r\"\nbad = \"a\"\n",
                "void f(void){c:;}int main(void){f();a:;return 0;}",
                Question::Small(&[[1, 0xf, 6, 12], [0, 0x3, 4, 6], [0, 0xf, 0, 0]]),
                ("solved", 3, 112),
            ),
            (
                "a late promise has all rounds",
                "format = 1\n[[rule]]\nname = \"r\"\nbad = \".* b\"\n",
                "void f(void){while(c){b:;while(c){f();a:;}};}int main(void){d:;c:;f();return 0;}",
                Question::Small(&[[1, 0xf, 56, 812], [0, 0x0, 72, 356], [0, 0xf, 64, 384]]),
                ("solved", 3, 208),
            ),
            (
                "calls stand in loops",
                "format = 1\n[[rule]]\nname = \"r\"\nbad = \"b* b b\"\n",
                "void f(void){while(c){b:;if(c){f();}}}int main(void){f();return 0;}",
                Question::Small(&[
                    [1, 0xf, 24, 324],
                    [0, 0x0, 52, 220],
                    [0, 0x3, 50, 308],
                    [0, 0xf, 48, 378],
                ]),
                ("solved", 4, 188),
            ),
            (
                "a call waits in two loops",
                "format = 1\n[[rule]]\nname = \"r\"\nbad = \".* b .* b\"\n",
                "void f(void){b:;}int main(void){while(c){while(c){f();}if(c){f();}}return 0;}",
                Question::Small(&[
                    [1, 0xf, 48, 576],
                    [0, 0x0, 32, 120],
                    [0, 0x3, 28, 114],
                    [0, 0xf, 12, 42],
                ]),
                ("solved", 4, 152),
            ),
            (
                "a call follows a call",
                "format = 1\n[[rule]]\nname = \"r\"\nbad = \"d* d d\"\n",
                "void f(void){d:;}int main(void){f();;f();return 0;}",
                Question::Small(&[[1, 0xf, 32, 344], [0, 0x3, 28, 114], [0, 0xf, 12, 42]]),
                ("solved", 3, 112),
            ),
            (
                "a promise is empty",
                "format = 1\n[[rule]]\nname = \"r\"\nbad = \".* a\"\n",
                "void f(void){b:;}int main(void){f();f();c:;a:;return 0;}",
                Question::Small(&[[1, 0xf, 64, 580], [0, 0x0, 32, 144], [0, 0xf, 0, 0]]),
                ("solved", 3, 140),
            ),
            (
                "the last contexts are asked for",
                "format = 1\n[[rule]]\nname = \"r\"\nbad = \"d\"\n",
                "void f(void){d:;}int main(void){d:;f();f();f();return 0;}",
                Question::Small(&[[1, 0x3, 32, 206], [0, 0x0, 16, 48], [0, 0x3, 12, 42]]),
                ("solved", 3, 68),
            ),
        ],
    );
}

#[test]
fn calls_are_split_or_never_reached(rt: HostRuntime) {
    all_told(
        &rt,
        rt.alloc(),
        &[
            (
                "a function is never called",
                "format = 1\n[[rule]]\nname = \"r\"\nbad = \".* a\"\n",
                "void g(void){c:;}int main(void){a:;return 0;}",
                Question::Small(&[[1, 0xf, 24, 84]]),
                ("solved", 1, 36),
            ),
            (
                "a call is never reached",
                "format = 1\n[[rule]]\nname = \"r\"\nbad = \".* a\"\n",
                "void f(void){c:;}int main(void){a:;return 0;f();}",
                Question::Small(&[[1, 0xf, 24, 84], [0, 0xf, 0, 0]]),
                ("solved", 2, 80),
            ),
            (
                "a program has no call",
                "format = 1\n[[rule]]\nname = \"r\"\nbad = \"a b[amb]\"\n",
                "int main(void){a:;b:;return 0;}",
                Question::Small(&[[0, 0x3f, 1, 1]]),
                ("solved", 1, 78),
            ),
            (
                "a call is split",
                "format = 1\nsplit = [\"f\"]\n[[rule]]\nname = \"r\"\nbad = \"a b[amb]\"\n",
                "void f(void){a:;}int main(void){f();b:;return 0;}",
                Question::Small(&[[1, 0x3f, 1, 1], [0, 0x3f, 0, 0]]),
                ("solved", 2, 138),
            ),
            (
                "a split call stands in a function",
                "format = 1\nsplit = [\"f\"]\n[[rule]]\nname = \"r\"\nbad = \".* a[!amb] .* b\"\n",
                "void f(void){a:;}void g(void){f();b:;}int main(void){g();f();return 0;}",
                Question::Small(&[
                    [2, 0x3ff, 52, 1014],
                    [0, 0xf, 64, 304],
                    [0, 0x3ff, 0, 0],
                    [1, 0x3ff, 94, 962],
                ]),
                ("solved", 4, 440),
            ),
        ],
    );
}

#[test]
fn samples_are_solved(rt: HostRuntime) {
    all_told(
        &rt,
        rt.alloc(),
        &[
            (
                "sample of one",
                SAMPLE_POLICY,
                "void f1(int x);\nvoid f1(int x){if(x){w:;f1(x);}}\nint main(void){f1(9);done:;return 0;}\n",
                Question::Small(&[
                    [1, 0xf, 32, 258],
                    [0, 0x0, 60, 422],
                    [0, 0x5, 48, 436],
                    [0, 0xf, 2, 2],
                ]),
                ("solved", 4, 240),
            ),
            (
                "sample of two",
                SAMPLE_POLICY,
                "void f1(int x);\nvoid f2(int x);\nvoid f1(int x){if(x){w:;f2(x);}}\nvoid f2(int x){if(x){w:;f1(x);}}\nint main(void){f1(9);done:;return 0;}\n",
                Question::Small(&[
                    [2, 0xf, 32, 254],
                    [0, 0x0, 48, 294],
                    [0, 0x5, 46, 424],
                    [0, 0xf, 2, 2],
                    [1, 0x0, 60, 422],
                    [1, 0x5, 48, 432],
                    [1, 0xf, 2, 2],
                ]),
                ("solved", 7, 384),
            ),
        ],
    );
}
