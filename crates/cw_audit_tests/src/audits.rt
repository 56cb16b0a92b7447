//! Programs with their policies, and the texts of their audits.

pub(crate) const LABEL_SOURCE: &str = "int main(void){a:;return 0;}";

pub(crate) const NEVER_POLICY: &str = "format = 1\n[[at]]\nlabel = \"a\"\nnever = [\"amb\"]\n";

/// Ambient authority at a label where there must be none.
pub(crate) const NEVER: &str = "capweave audit 1
states 4
violates 1
on
in 0 0 0
at 2 0 0
end
";

pub(crate) const MUST_POLICY: &str = "format = 1\n[[at]]\nlabel = \"a\"\nmust = [\"amb\"]\n";

/// Ambient authority at a label where there must be some.
pub(crate) const MUST: &str = "capweave audit 1
states 4
meets
in 0 0 0
at 2 0 0
at 5 0 1
at 6 2 2
at 7 2 3
at 8 2 4
end
";

pub(crate) const CALLS_SOURCE: &str =
    "void f(int n){if(n){f(n-1);u:;}else{d:;}}int main(void){f(9);return 0;}";

pub(crate) const UP_POLICY: &str =
    "format = 1\n[[at]]\nlabel = \"u\"\nnever = [\"amb\"]\n[[at]]\nlabel = \"d\"\nmust = [\"amb\"]\n";

/// A function that calls itself, and a label behind its call at which there must be no ambient authority.
pub(crate) const UP: &str = "capweave audit 1
states 4
violates 10
on
on
on
left
on
on
right
on
on
on
in 0 0 2
at 2 0 0
at 3 0 1
at 6 0 2
at 13 0 2
at 14 2 3
at 15 2 4
in 1 0 0
at 18 0 0
at 21 0 1
at 22 2 7
at 23 2 8
end
";

pub(crate) const DOWN_POLICY: &str = "format = 1\n[[at]]\nlabel = \"d\"\nmust = [\"amb\"]\n";

/// The same function, with nothing asked behind its call.
pub(crate) const DOWN: &str = "capweave audit 1
states 4
meets
in 0 0 2
at 2 0 0
at 3 0 1
at 6 0 2
at 9 2 8
at 10 2 9
at 13 0 2
at 14 2 3
at 15 2 4
in 1 0 0
at 18 0 0
at 21 0 1
at 22 2 7
at 23 2 8
end
";
