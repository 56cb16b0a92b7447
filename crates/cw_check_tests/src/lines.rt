//! Programs with their policies, and the texts of their tables.

/// A source, a policy, and the text of a table.
#[derive(Clone, Copy)]
pub(crate) struct Texts<'t> {
    pub(crate) source: &'t str,
    pub(crate) policy: &'t str,
    pub(crate) table: &'t str,
}

/// One function is called with two promises.
pub(crate) const TWO_PROMISES: Texts = Texts {
    source: "void f(int x){l:;}int main(void){f(1);m:;k:;f(2);return 0;}",
    policy: "format = 1\n[[at]]\nlabel = \"m\"\nmust = [\"amb\"]\n[[at]]\nlabel = \"k\"\nnever = [\"amb\"]\n",
    table: "#include \"capweave.h\"
#define CW_LIMITS(X)
CW_TABLE(1,4,1)
CW_MEM(0,0,0x5)
CW_MEM(1,0,0xf)
CW_MEM(2,2,0x5)
CW_MEM(3,2,0xf)
CW_MEM(4,3,0xf)
CW_LIVE(0,0)
CW_LIVE(0,4)
CW_LIVE(2,0)
CW_LIVE(2,4)
CW_LIVE(3,0)
CW_LIVE(3,4)
CW_LIVE(5,0)
CW_LIVE(5,4)
CW_LIVE(6,2)
CW_LIVE(6,4)
CW_LIVE(7,2)
CW_LIVE(7,4)
CW_LIVE(8,1)
CW_LIVE(10,1)
CW_LIVE(11,1)
CW_LIVE(13,1)
CW_LIVE(14,3)
CW_LIVE(16,3)
CW_LIVE(17,3)
CW_LIVE(18,3)
CW_LIVE(19,3)
CW_LIVE(20,4)
CW_LIVE(21,4)
CW_LIVE(22,4)
CW_LIVE(24,4)
CW_LIVE(25,4)
CW_LIVE(26,4)
CW_TRY(5,0,3,4,CW_NONE)
CW_AT(1,0,2)
CW_AT(1,4,4)
CW_AT(4,3,3)
CW_AT(5,4,4)
CW_INTO(3,0,1,0)
CW_INTO(6,0,4,4)
CW_BACK(3,0,1,2,3)
CW_BACK(6,0,4,3,4)
CW_DONE
",
};

/// A file is opened, used and closed.
pub(crate) const FILE: Texts = Texts {
    source: "int fd;int main(void){fd=open_it();a:;close(fd);b:;return 0;}",
    policy: "format = 1\n[[descriptor]]\nname = \"fd\"\n[[limit]]\ndescriptor = \"fd\"\nkeep = [\"CAP_READ\"]\n[[at]]\nlabel = \"a\"\nnever = [\"fd:CAP_WRITE\"]\n",
    table: "#include \"capweave.h\"
#define CW_LIMITS(X) X(0,fd,0x1)
CW_TABLE(1,12,0)
CW_MEM(0,0,0xfff)
CW_MEM(1,1,0xfff)
CW_MEM(2,2,0xfff)
CW_MEM(3,6,0xfff)
CW_MEM(4,7,0xfff)
CW_LIVE(0,0)
CW_LIVE(2,0)
CW_LIVE(4,0)
CW_LIVE(5,0)
CW_LIVE(6,0)
CW_LIVE(6,2)
CW_LIVE(7,2)
CW_LIVE(8,0)
CW_LIVE(8,1)
CW_LIVE(10,0)
CW_LIVE(10,1)
CW_LIVE(11,3)
CW_LIVE(11,4)
CW_LIVE(12,3)
CW_LIVE(12,4)
CW_LIVE(13,3)
CW_LIVE(15,3)
CW_LIVE(17,3)
CW_LIVE(18,3)
CW_LIVE(19,3)
CW_LIVE(20,3)
CW_TRY(2,0,2,1,CW_NONE)
CW_AT(2,0,3)
CW_AT(2,1,4)
CW_AT(4,3,3)
CW_OPENED(1,0,2,0)
CW_CLOSED(3,3,3)
CW_CLOSED(3,4,3)
CW_DONE
",
};

/// A function that calls itself ends in two states.
pub(crate) const RECURSION: Texts = Texts {
    source: "void f(int n){if(n){f(n-1);u:;}else{d:;}}int main(void){f(9);return 0;}",
    policy: "format = 1\n[[at]]\nlabel = \"u\"\nnever = [\"amb\"]\n[[at]]\nlabel = \"d\"\nmust = [\"amb\"]\n",
    table: "#include \"capweave.h\"
#define CW_LIMITS(X)
CW_TABLE(1,4,0)
CW_MEM(0,0,0xf)
CW_MEM(1,2,0xf)
CW_MEM(2,3,0xf)
CW_LIVE(0,0)
CW_LIVE(2,0)
CW_LIVE(3,0)
CW_LIVE(4,0)
CW_LIVE(6,0)
CW_LIVE(7,1)
CW_LIVE(7,2)
CW_LIVE(8,1)
CW_LIVE(9,2)
CW_LIVE(10,2)
CW_LIVE(11,0)
CW_LIVE(13,0)
CW_LIVE(14,1)
CW_LIVE(15,1)
CW_LIVE(15,2)
CW_LIVE(16,0)
CW_LIVE(18,0)
CW_LIVE(19,0)
CW_LIVE(21,0)
CW_LIVE(22,1)
CW_LIVE(22,2)
CW_LIVE(23,1)
CW_LIVE(23,2)
CW_TRY(2,0,1,2,CW_NONE)
CW_AT(2,2,2)
CW_AT(3,0,1)
CW_INTO(1,0,0,0)
CW_INTO(5,0,0,0)
CW_BACK(1,0,0,2,1)
CW_BACK(1,0,0,3,2)
CW_BACK(5,0,0,2,1)
CW_BACK(5,0,0,3,2)
CW_DONE
",
};

/// A call runs in a process of its own.
pub(crate) const SPLIT: Texts = Texts {
    source: "int f(int x){a:;return x;}\nint main(void){int y;y=f(1);b:;return 0;}\n",
    policy: "format = 1\nsplit = [\"f\"]\n[[at]]\nlabel = \"a\"\nnever = [\"amb\"]\n[[at]]\nlabel = \"b\"\nmust = [\"amb\"]\n",
    table: "#include \"capweave.h\"
#define CW_LIMITS(X)
CW_TABLE(1,4,0)
CW_MEM(0,0,0xf)
CW_MEM(1,1,0xf)
CW_MEM(2,2,0xf)
CW_MEM(3,3,0xf)
CW_LIVE(0,0)
CW_LIVE(2,0)
CW_LIVE(3,0)
CW_LIVE(4,0)
CW_LIVE(5,1)
CW_LIVE(6,3)
CW_LIVE(7,3)
CW_LIVE(8,3)
CW_LIVE(9,0)
CW_LIVE(11,0)
CW_LIVE(12,0)
CW_LIVE(13,0)
CW_LIVE(15,0)
CW_LIVE(16,0)
CW_LIVE(18,0)
CW_LIVE(19,2)
CW_LIVE(21,2)
CW_LIVE(22,2)
CW_LIVE(23,2)
CW_LIVE(24,2)
CW_TRY(1,0,0,1,CW_NONE)
CW_TRY(3,1,0,0,CW_NONE)
CW_AT(1,1,3)
CW_AT(4,2,2)
CW_INTO(3,1,0,0)
CW_BACK(3,1,0,3,2)
CW_DONE
",
};

/// The program stops where the try at its label is refused.
pub(crate) const STOP: Texts = Texts {
    source: "int main(void){a:;return 0;}",
    policy: "format = 1\nrefusable = [\"enter\"]\non_refusal = \"stop\"\n[[at]]\nlabel = \"a\"\nnever = [\"amb\"]\n",
    table: "#include \"capweave.h\"
#define CW_LIMITS(X)
CW_TABLE(1,4,0)
CW_MEM(0,0,0xf)
CW_MEM(1,1,0xf)
CW_MEM(2,3,0xf)
CW_LIVE(0,0)
CW_LIVE(2,0)
CW_LIVE(3,0)
CW_LIVE(4,0)
CW_LIVE(5,1)
CW_LIVE(6,2)
CW_LIVE(7,2)
CW_LIVE(8,2)
CW_TRY(1,0,0,1,CW_NONE)
CW_AT(1,1,2)
CW_DONE
",
};
