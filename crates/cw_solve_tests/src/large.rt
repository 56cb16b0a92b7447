//! Games of many cells: the limit of 4,194,304 cells, from both sides, and one context of many cells with heights one after the other.

use crate::told::{Question, all_joined_told};

/// Six descriptors, each open or closed, and a wish for four of them: 256 states.
const POLICY: &str = "format = 1
[[descriptor]]
name = \"d1\"
[[descriptor]]
name = \"d2\"
[[descriptor]]
name = \"d3\"
[[descriptor]]
name = \"d4\"
[[descriptor]]
name = \"d5\"
[[descriptor]]
name = \"d6\"
[[at]]
label = \"b1\"
never = [\"d1:CAP_READ\"]
[[at]]
label = \"b2\"
never = [\"d2:CAP_READ\"]
[[at]]
label = \"b3\"
never = [\"d3:CAP_READ\"]
[[at]]
label = \"b4\"
never = [\"d4:CAP_READ\"]
";

/// A rule of 63 labels.
const LONG: &str = "format = 1
[[rule]]
name = \"r\"
bad = \"a a a a a a a a a a a a a a a a a a a a a a a a a a a a a a a a a a a a a a a a a a a a a a a a a a a a a a a a a a a a a a a\"
";

/// `f` has 3,264 positions. `main` has 40 and one for each return behind this, promises `f` all states, and after each call those in which a descriptor
/// isn't open.
const FRONT: &str = "int d1;int d2;int d3;int d4;int d5;int d6;void f(void){";

const MAIN: &str =
    "}int main(void){if(c){f();b1:;return 0;}if(c){f();b2:;return 0;}if(c){f();b3:;return 0;}if(c){f();b4:;return 0;}";

/// 256 * (40 + 24 + 5 * (4 + 3,260)) cells are 4,194,304.
#[test]
fn so_many_cells_are_solved(rt: HostRuntime) {
    all_joined_told(
        &rt,
        rt.alloc(),
        &[(
            "4,194,304 cells",
            &[(POLICY, 1)],
            &[
                (FRONT, 1),
                ("return;", 3260),
                (MAIN, 1),
                ("return 0;", 24),
                ("}", 1),
            ],
            Question::Size,
            ("solved", 6, 4194304),
        )],
    );
}

/// One position of `main` more is 256 cells more.
#[test]
fn a_position_more_is_too_many(rt: HostRuntime) {
    all_joined_told(
        &rt,
        rt.alloc(),
        &[(
            "256 cells more",
            &[(POLICY, 1)],
            &[
                (FRONT, 1),
                ("return;", 3260),
                (MAIN, 1),
                ("return 0;", 25),
                ("}", 1),
            ],
            Question::Size,
            ("too many cells", 6, 0),
        )],
    );
}

#[test]
fn a_loop_of_many_points(rt: HostRuntime) {
    all_joined_told(
        &rt,
        rt.alloc(),
        &[(
            "8,000 points",
            &[(LONG, 1)],
            &[
                ("int main(void){while(c){", 1),
                (";", 8000),
                ("a:;}return 0;}", 1),
            ],
            Question::Linked,
            ("linked", 1009260, 504317),
        )],
    );
}
