//! Whole runs of `graph` over files and sinks in memory.
use crate::given::{all_end, all_end_edited, all_fail};

const GRAPH: [&str; 2] = ["graph", "s.c"];

/// A source of so many statements as stand at its mark, and one.
const STATEMENTS: &str = "int main(void){@return 0;}";

#[test]
fn lists_the_points_or_tells_why_not(rt: HostRuntime) {
    all_end(
        &rt,
        rt.alloc(),
        &[
            (
                &GRAPH,
                &["", "int main(void){a:;return 0;}"],
                0,
                "points 5\nfunction main 0 4\n0 main entry -> 1\n1 main label a -> 2\n2 main step -> 3\n3 main step -> 4\n4 main exit\n",
                "",
            ),
            (
                &GRAPH,
                &[
                    "",
                    "int main(void){for(;c;n=n+1){if(d)continue;x:;}return 0;}",
                ],
                0,
                "points 9\nfunction main 0 8\n0 main entry -> 1\n1 main branch -> 3 7\n2 main step -> 1\n3 main branch -> 4 5\n4 main step -> 2\n5 main label x -> 6\n6 main step -> 2\n7 main step -> 8\n8 main exit\n",
                "",
            ),
            (
                &GRAPH,
                &[
                    "",
                    "void g(void);void f(void){g();}void g(void){f();g();}int main(void){return 0;}",
                ],
                0,
                "points 10\nfunction f 0 2 calls g\nfunction g 3 6 calls f g\nfunction main 7 9\n0 f entry -> 1\n1 f call g -> 2\n2 f exit\n3 g entry -> 4\n4 g call f -> 5\n5 g call g -> 6\n6 g exit\n7 main entry -> 8\n8 main step -> 9\n9 main exit\n",
                "",
            ),
            (
                &GRAPH,
                &["", "int main(void){break;}"],
                3,
                "",
                "source 1:16: jump\n",
            ),
        ],
    );
}

#[test]
fn lists_as_many_points_as_there_may_be(rt: HostRuntime) {
    all_fail(
        &rt,
        rt.alloc(),
        &["", STATEMENTS],
        &("@", b";", 8_189),
        &[(&GRAPH, [9, 999, 9], 0, "points 8192\n", 186_225, "")],
    );
    all_end_edited(
        &rt,
        rt.alloc(),
        &GRAPH,
        &["", STATEMENTS],
        &[("@", ";", 8_190, 5, "", "limit: points\n")],
    );
}
