//! The texts of policies.

/// The descriptor `x`, which is a variable, and a limit of it; calls of `g` may be split off. No label, no rule.
pub const ONE: &str = "format = 1
split = [\"g\"]
[[descriptor]]
name = \"x\"
rights = [\"CAP_READ\", \"CAP_WRITE\"]
[[limit]]
descriptor = \"x\"
keep = [\"CAP_READ\"]
";

/// The same, where the limit and enter may be refused.
pub const ONE_REFUSABLE: &str = "format = 1
refusable = [\"limit\", \"enter\"]
split = [\"g\"]
[[descriptor]]
name = \"x\"
rights = [\"CAP_READ\", \"CAP_WRITE\"]
[[limit]]
descriptor = \"x\"
keep = [\"CAP_READ\"]
";

/// The same, where the program may stop after that.
pub const ONE_STOPPING: &str = "format = 1
refusable = [\"limit\", \"enter\"]
on_refusal = \"stop\"
split = [\"g\"]
[[descriptor]]
name = \"x\"
rights = [\"CAP_READ\", \"CAP_WRITE\"]
[[limit]]
descriptor = \"x\"
keep = [\"CAP_READ\"]
";

/// The same with stop, where nothing may be refused.
pub const ONE_GRANTING: &str = "format = 1
on_refusal = \"stop\"
split = [\"g\"]
[[descriptor]]
name = \"x\"
rights = [\"CAP_READ\", \"CAP_WRITE\"]
[[limit]]
descriptor = \"x\"
keep = [\"CAP_READ\"]
";

/// The descriptor `0`, which is open for reading and writing, and two limits of it: one keeps reading, one writing.
pub const TWO: &str = "format = 1
[[descriptor]]
name = \"0\"
rights = [\"CAP_READ\", \"CAP_WRITE\"]
[[limit]]
descriptor = \"0\"
keep = [\"CAP_READ\"]
[[limit]]
descriptor = \"0\"
keep = [\"CAP_WRITE\"]
";

/// The labels `a` and `b`, and the rule that `b` behind `a` has no ambient authority; enter may be refused.
pub const LABELS: &str = "format = 1
refusable = [\"enter\"]
[[rule]]
name = \"order\"
bad = \"a b[amb]\"
";
