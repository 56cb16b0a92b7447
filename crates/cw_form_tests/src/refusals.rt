//! Why sources have no form.

use crate::ground::{F, all_told, tells};
use std::alloc::Global;
use std::process::Abort;

const SOURCE: &str = "void f(int x){}void g(void){}int main(void){f(1);return 0;}";

/// Asserts why the source has no form under each of these policies of format 2.
fn all_under(rt: &impl Abort, alloc: Global, rows: &[(&str, &str)]) {
    for (lines, wanted) in rows {
        let policy = format!(in alloc; "format = 2\n{lines}").expect(rt, "memory");
        tells(rt, alloc, &policy, SOURCE, wanted);
    }
}

#[test]
fn a_detached_name_is_that_of_a_function(rt: HostRuntime) {
    all_under(
        &rt,
        rt.alloc(),
        &[
            ("detached = [\"main\"]\n", "no function 0"),
            ("detached = [\"h\"]\n", "no function 0"),
            ("detached = [\"int\"]\n", "no function 0"),
            ("detached = [\"f\", \"g\", \"x\"]\n", "no function 2"),
            (
                "split = [\"f\"]\ndetached = [\"f\", \"h\"]\n",
                "no function 1",
            ),
            ("split = [\"g\"]\ndetached = [\"f\", \"g\"]\n", "detached 1"),
            (
                "split = [\"f\", \"g\"]\ndetached = [\"g\", \"f\"]\n",
                "detached 0",
            ),
        ],
    );
}

#[test]
fn a_prototype_alone_defines_no_function(rt: HostRuntime) {
    all_told(
        &rt,
        rt.alloc(),
        F,
        &[(
            "void f(int x);int main(void){f(1);return 0;}",
            "no function 0",
        )],
    );
}

#[test]
fn names_of_the_form_are_taken(rt: HostRuntime) {
    all_told(
        &rt,
        rt.alloc(),
        F,
        &[
            (
                "void f(int x){}int main(void){fork:f(1);return 0;}",
                "fork name at 30",
            ),
            (
                "void f(int x){}int main(void){f(1);_exit(1);return 0;}",
                "fork name at 35",
            ),
            (
                "int fork;void f(int x){}int main(void){f(1);return 0;}",
                "fork name at 4",
            ),
            (
                "int fork(void);void f(int x){}int main(void){f(1);return 0;}",
                "fork name at 4",
            ),
            (
                "int f(int x){return x;}int main(void){int y;y=f(1);fork();return 0;}",
                "fork name at 51",
            ),
        ],
    );
    all_told(
        &rt,
        rt.alloc(),
        "format = 1\n",
        &[("int main(void){fork();return 0;}", "fork name at 15")],
    );
}

#[test]
fn the_result_of_a_call_is_not_taken(rt: HostRuntime) {
    all_told(
        &rt,
        rt.alloc(),
        F,
        &[
            (
                "int f(int x){return x;}int main(void){int y;y=f(1);return 0;}",
                "detached result at 46",
            ),
            (
                "int f(int x){return x;}int main(void){int y;(y)=(f(1));return 0;}",
                "detached result at 49",
            ),
            (
                "int f(int x){return x;}int main(void){int y;f(0);return 0;y=f(1);y=f(2);}",
                "detached result at 60",
            ),
        ],
    );
}
