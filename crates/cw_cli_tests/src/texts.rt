//! Policies, sources, woven texts and strategies, for the tests of several commands.

/// That `a` is never ambient.
pub(crate) const NEVER: &str = "format = 1\n[[at]]\nlabel = \"a\"\nnever = [\"amb\"]\n";

/// The same, where the environment may refuse to enter.
pub(crate) const REFUSABLE: &str =
    "format = 1\nrefusable = [\"enter\"]\n[[at]]\nlabel = \"a\"\nnever = [\"amb\"]\n";

/// The same, where a program that is refused may stop.
pub(crate) const STOPPABLE: &str =
    "format = 1\nrefusable = [\"enter\"]\non_refusal = \"stop\"\n[[at]]\nlabel = \"a\"\nnever = [\"amb\"]\n";

/// That `a` is never ambient, and `b` always.
pub(crate) const BOTH: &str =
    "format = 1\n[[at]]\nlabel = \"a\"\nnever = [\"amb\"]\n[[at]]\nlabel = \"b\"\nmust = [\"amb\"]\n";

/// That `m` is always ambient, and `k` never.
pub(crate) const TWO_PROMISES: &str =
    "format = 1\n[[at]]\nlabel = \"m\"\nmust = [\"amb\"]\n[[at]]\nlabel = \"k\"\nnever = [\"amb\"]\n";

/// That a descriptor is held whose variable no source here has.
pub(crate) const DESCRIPTOR: &str = "format = 1\n[[descriptor]]\nname = \"fd\"\n";

/// A source without labels.
pub(crate) const NO_LABEL: &str = "int main(void){return 0;}";

/// A source with one label, `a`.
pub(crate) const ONE_LABEL: &str = "int main(void){a:;return 0;}";

/// A function that is called twice.
pub(crate) const TWO_CALLS: &str = "void f(int x){l:;}int main(void){f(1);m:;k:;f(2);return 0;}";

/// `NO_LABEL`, woven for no promise.
pub(crate) const NO_RULES: &str = "/*cw{*/
#include \"capweave.h\"
#define CW_LIMITS(X)
CW_TABLE(1,2,0)
CW_MEM(0,0,0x3)
CW_LIVE(0,0)
CW_LIVE(2,0)
CW_LIVE(3,0)
CW_LIVE(4,0)
CW_DONE
/*}cw*/int main(void){/*cw{*/CW_ENTRY(0);/*}cw*/return 0;}";

/// `ONE_LABEL`, woven for `NEVER`.
pub(crate) const NEVER_AMBIENT: &str = "/*cw{*/
#include \"capweave.h\"
#define CW_LIMITS(X)
CW_TABLE(1,4,0)
CW_MEM(0,0,0xf)
CW_MEM(1,1,0xf)
CW_MEM(2,3,0xf)
CW_LIVE(0,0)
CW_LIVE(2,0)
CW_LIVE(3,0)
CW_LIVE(4,0)
CW_LIVE(5,1)
CW_LIVE(6,2)
CW_LIVE(7,2)
CW_LIVE(8,2)
CW_TRY(1,0,0,1,CW_NONE)
CW_AT(1,1,2)
CW_DONE
/*}cw*/int main(void){/*cw{*/CW_ENTRY(0);/*}cw*/a:/*cw{*/CW_LABEL(1)/*}cw*/;return 0;}";

/// A loop with two labels, woven where no call is tried.
pub(crate) const LOOP: &str = "/*cw{*/
#include \"capweave.h\"
#define CW_LIMITS(X)
CW_TABLE(1,4,1)
CW_MEM(0,0,0xf)
CW_MEM(1,2,0xf)
CW_LIVE(0,1)
CW_LIVE(2,1)
CW_LIVE(3,0)
CW_LIVE(3,1)
CW_LIVE(4,0)
CW_LIVE(4,1)
CW_LIVE(6,0)
CW_LIVE(6,1)
CW_LIVE(7,0)
CW_LIVE(8,0)
CW_LIVE(10,0)
CW_LIVE(11,0)
CW_LIVE(12,0)
CW_LIVE(12,1)
CW_LIVE(13,0)
CW_LIVE(13,1)
CW_AT(1,0,0)
CW_AT(1,1,0)
CW_AT(2,0,0)
CW_DONE
/*}cw*/int main(void){/*cw{*/CW_ENTRY(0);/*}cw*/while(c){o:/*cw{*/CW_LABEL(1)/*}cw*/;p:/*cw{*/CW_LABEL(2)/*}cw*/;}return 0;}";

/// A source woven so that a call is tried at its second seam.
pub(crate) const SECOND_OF_TWO: &str = "/*cw{*/
#include \"capweave.h\"
#define CW_LIMITS(X)
CW_TABLE(1,4,0)
CW_MEM(0,0,0xf)
CW_MEM(1,1,0xf)
CW_MEM(2,3,0xf)
CW_LIVE(7,0)
CW_LIVE(9,0)
CW_LIVE(10,0)
CW_LIVE(11,0)
CW_LIVE(12,0)
CW_LIVE(12,2)
CW_LIVE(13,2)
CW_LIVE(14,0)
CW_LIVE(14,2)
CW_LIVE(15,0)
CW_LIVE(15,2)
CW_LIVE(16,0)
CW_LIVE(16,2)
CW_LIVE(17,0)
CW_LIVE(18,1)
CW_LIVE(18,2)
CW_LIVE(19,2)
CW_LIVE(20,0)
CW_LIVE(20,2)
CW_LIVE(21,0)
CW_LIVE(21,2)
CW_TRY(2,0,0,1,CW_NONE)
CW_AT(2,1,2)
CW_AT(2,2,2)
CW_DONE
/*}cw*/int g(int x){/*cw{*/CW_ENTRY(0);/*}cw*/do{x--;}while(x);return x;}
int main(void){/*cw{*/CW_ENTRY(1);/*}cw*/int i;for(i=0;i<3;i++){if(i==2)break;a:/*cw{*/CW_LABEL(2)/*}cw*/g2(i);}return 0;}
";

/// The strategy for two labels under `BOTH`.
pub(crate) const TWO_LABELS: &str = "capweave strategy 1
states 4
0 5 0 0x0 bad
1 9 3 0x0 bad
2 8 3 0x0 grant 1
3 7 3 0x0 both 1 2
4 6 3 0x0 on 3
5 5 1 0x0 on 4
6 4 0 0x0 grant 5
7 4 1 0x0 grant 5
8 3 0 0x0 both 0 6
9 3 1 0x0 both 5 7
10 2 0 0x0 on 8
11 2 1 0x0 on 9
12 1 0 0x0 grant 11
13 0 0 0x0 both 10 12
end
";

/// The strategy for two labels in a loop.
pub(crate) const TWO_LABELS_IN_A_LOOP: &str = "capweave strategy 1
states 4
0 6 1 0x0 bad
1 6 3 0x0 bad
2 10 2 0x0 bad
3 5 0 0x0 grant 0
4 5 1 0x0 grant 0
5 5 3 0x0 grant 1
6 4 1 0x0 both 0 4
7 4 3 0x0 both 1 5
8 3 1 0x0 left 6
9 3 3 0x0 left 7
10 2 1 0x0 on 8
11 11 3 0x0 on 9
12 1 0 0x0 grant 10
13 10 3 0x0 on 11
14 9 2 0x0 grant 13
15 8 2 0x0 both 2 14
16 7 2 0x0 on 15
17 6 0 0x0 on 16
18 4 0 0x0 both 17 3
19 3 0 0x0 left 18
20 2 0 0x0 on 19
21 0 0 0x0 both 20 12
end
";

/// `ONE_LABEL`, woven for a policy of format 2 without rules.
pub(crate) const FORMAT_TWO: &str = "/*cw{*/
#include \"capweave.h\"
#define CW_LIMITS(X)
CW_TABLE(2,4,1)
CW_MEM(0,0,0xf)
CW_MEM(1,2,0xf)
CW_LIVE(0,1)
CW_LIVE(2,1)
CW_LIVE(3,1)
CW_LIVE(5,1)
CW_LIVE(6,0)
CW_LIVE(7,0)
CW_LIVE(8,0)
CW_AT(1,1,0)
CW_DONE
/*}cw*/int main(void){/*cw{*/CW_ENTRY(0);/*}cw*/a:/*cw{*/CW_LABEL(1)/*}cw*/;return 0;}";

/// A source with a call before its label, woven.
pub(crate) const OVER_A_CALL: &str = "/*cw{*/
#include \"capweave.h\"
#define CW_LIMITS(X)
CW_TABLE(1,4,0)
CW_MEM(0,0,0xf)
CW_MEM(1,1,0xf)
CW_MEM(2,3,0xf)
CW_LIVE(0,0)
CW_LIVE(2,0)
CW_LIVE(3,0)
CW_LIVE(4,0)
CW_LIVE(6,0)
CW_LIVE(7,0)
CW_LIVE(9,0)
CW_LIVE(10,0)
CW_LIVE(11,0)
CW_LIVE(12,1)
CW_LIVE(13,2)
CW_LIVE(14,2)
CW_LIVE(15,2)
CW_TRY(3,0,0,1,CW_NONE)
CW_AT(3,1,2)
CW_INTO(2,0,0,0)
CW_BACK(2,0,0,0,0)
CW_DONE
/*}cw*/void f(void){/*cw{*/CW_ENTRY(0);/*}cw*/}int main(void){/*cw{*/CW_ENTRY(1);/*}cw*//*cw{*/CW_CALL(2)/*}cw*/f();a:/*cw{*/CW_LABEL(3)/*}cw*/;return 0;}";

/// `ONE_LABEL`, woven for `STOPPABLE`: it stops where it is refused.
pub(crate) const STOPS: &str = "/*cw{*/
#include \"capweave.h\"
#define CW_LIMITS(X)
CW_TABLE(1,4,0)
CW_MEM(0,0,0xf)
CW_MEM(1,1,0xf)
CW_MEM(2,3,0xf)
CW_LIVE(0,0)
CW_LIVE(2,0)
CW_LIVE(3,0)
CW_LIVE(4,0)
CW_LIVE(5,1)
CW_LIVE(6,2)
CW_LIVE(7,2)
CW_LIVE(8,2)
CW_TRY(1,0,0,1,CW_NONE)
CW_AT(1,1,2)
CW_DONE
/*}cw*/int main(void){/*cw{*/CW_ENTRY(0);/*}cw*/a:/*cw{*/CW_LABEL(1)/*}cw*/;return 0;}";

/// A source that opens, takes a result and closes, woven under a limit.
pub(crate) const OPENED_AND_TAKEN: &str = "/*cw{*/
#include \"capweave.h\"
#define CW_LIMITS(X) X(0,fd,0x0)
CW_TABLE(2,12,0)
CW_MEM(0,0,0-11)
CW_MEM(1,1,0-11)
CW_MEM(2,2,0-11)
CW_MEM(3,6,0-11)
CW_MEM(4,7,0-11)
CW_LIVE(0,0)
CW_LIVE(0,2)
CW_LIVE(2,0)
CW_LIVE(2,2)
CW_LIVE(4,0)
CW_LIVE(4,2)
CW_LIVE(5,0)
CW_LIVE(5,2)
CW_LIVE(6,0)
CW_LIVE(6,2)
CW_LIVE(7,0)
CW_LIVE(9,0)
CW_LIVE(11,0)
CW_LIVE(12,0)
CW_LIVE(13,0)
CW_LIVE(14,0)
CW_LIVE(14,2)
CW_LIVE(16,0)
CW_LIVE(16,2)
CW_LIVE(18,0)
CW_LIVE(18,2)
CW_LIVE(19,0)
CW_LIVE(19,2)
CW_LIVE(20,2)
CW_LIVE(21,0)
CW_LIVE(21,1)
CW_LIVE(23,0)
CW_LIVE(23,1)
CW_LIVE(24,3)
CW_LIVE(24,4)
CW_LIVE(25,3)
CW_LIVE(25,4)
CW_LIVE(26,3)
CW_LIVE(27,3)
CW_TRY(4,0,2,1,CW_NONE)
CW_AT(4,0,3)
CW_AT(4,1,4)
CW_OPENED(2,0,2,0)
CW_CLOSED(5,3,3)
CW_CLOSED(5,4,3)
CW_INTO(3,0,0,0)
CW_INTO(3,0,2,2)
CW_BACK(3,0,0,0,0)
CW_BACK(3,0,0,2,2)
CW_BACK(3,0,2,0,0)
CW_BACK(3,0,2,2,2)
CW_DONE
/*}cw*/int fd;int f(void){/*cw{*/CW_ENTRY(0);/*}cw*/return 0;}int main(void){/*cw{*/CW_ENTRY(1);/*}cw*/int x;/*cw{*/CW_OPEN(2,fd)/*}cw*/fd=open(0);/*cw{*/CW_CALLV(3,x)/*}cw*/x=f();a:/*cw{*/CW_LABEL(4)/*}cw*/;/*cw{*/CW_CLOSE(5)/*}cw*/close(fd);return 0;}";

/// The strategy for `ONE_LABEL` under `REFUSABLE`.
pub(crate) const REFUSED_ENTER: &str = "capweave strategy 1
states 4
0 5 0 0x0 bad
1 4 0 0x0 refuse 0
2 3 0 0x0 both 0 1
3 2 0 0x0 on 2
4 1 0 0x0 refuse 3
5 0 0 0x0 both 3 4
end
";

/// `TWO_CALLS`, woven for `TWO_PROMISES`.
pub(crate) const TWO_CALLS_WOVEN: &str = "/*cw{*/
#include \"capweave.h\"
#define CW_LIMITS(X)
CW_TABLE(1,4,1)
CW_MEM(0,0,0x5)
CW_MEM(1,0,0xf)
CW_MEM(2,2,0x5)
CW_MEM(3,2,0xf)
CW_MEM(4,3,0xf)
CW_LIVE(0,0)
CW_LIVE(0,4)
CW_LIVE(2,0)
CW_LIVE(2,4)
CW_LIVE(3,0)
CW_LIVE(3,4)
CW_LIVE(5,0)
CW_LIVE(5,4)
CW_LIVE(6,2)
CW_LIVE(6,4)
CW_LIVE(7,2)
CW_LIVE(7,4)
CW_LIVE(8,1)
CW_LIVE(10,1)
CW_LIVE(11,1)
CW_LIVE(13,1)
CW_LIVE(14,3)
CW_LIVE(16,3)
CW_LIVE(17,3)
CW_LIVE(18,3)
CW_LIVE(19,3)
CW_LIVE(20,4)
CW_LIVE(21,4)
CW_LIVE(22,4)
CW_LIVE(24,4)
CW_LIVE(25,4)
CW_LIVE(26,4)
CW_TRY(5,0,3,4,CW_NONE)
CW_AT(1,0,2)
CW_AT(1,4,4)
CW_AT(4,3,3)
CW_AT(5,4,4)
CW_INTO(3,0,1,0)
CW_INTO(6,0,4,4)
CW_BACK(3,0,1,2,3)
CW_BACK(6,0,4,3,4)
CW_DONE
/*}cw*/void f(int x){/*cw{*/CW_ENTRY(0);/*}cw*/l:/*cw{*/CW_LABEL(1)/*}cw*/;}int main(void){/*cw{*/CW_ENTRY(2);/*}cw*//*cw{*/CW_CALL(3)/*}cw*/f(1);m:/*cw{*/CW_LABEL(4)/*}cw*/;k:/*cw{*/CW_LABEL(5)/*}cw*/;/*cw{*/CW_CALL(6)/*}cw*/f(2);return 0;}";
