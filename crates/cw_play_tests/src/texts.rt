//! The texts of programs, policies, strategies and woven programs.

/// A function that may run in a process of its own.
pub const CALL: &str = "int f(int x){a:;return x;}
int main(void){int y;y=f(1);b:;return 0;}
";

/// Ambient authority never at `a` and always at `b`; a split may be refused.
pub const CALL_POLICY: &str = "format = 1
split = [\"f\"]
refusable = [\"split\"]
[[at]]
label = \"a\"
never = [\"amb\"]
[[at]]
label = \"b\"
must = [\"amb\"]
";

/// The environment's strategy for it.
pub const CALL_STRATEGY: &str = "capweave strategy 1
states 4
0 5 0 0xa bad
1 8 3 0xa out
2 8 3 0xf out
3 21 1 0x0 bad
4 21 3 0x0 bad
5 7 3 0xa on 1
6 7 3 0xf on 2
7 20 1 0x0 grant 3
8 20 3 0x0 grant 4
9 6 3 0xa on 5
10 6 3 0xf on 6
11 19 1 0x0 both 3 7
12 19 3 0x0 both 4 8
13 5 1 0xa on 9
14 5 1 0xf on 10
15 4 0 0xa grant 13
16 4 1 0xa grant 13
17 4 1 0xf grant 14
18 3 0 0xa both 0 15
19 3 1 0xa both 13 16
20 3 1 0xf both 14 17
21 2 0 0xa on 18
22 2 1 0xa on 19
23 2 1 0xf on 20
24 1 0 0xa grant 22
25 1 1 0xa grant 22
26 1 1 0xf grant 23
27 0 0 0xa both 21 24
28 0 1 0xa both 22 25
29 0 1 0xf both 23 26
30 17 0 0x0 into 27 1=11 3=12
31 17 1 0x0 into 28 1=11 3=12
32 18 1 0x0 into 29 0=11 1=11 2=12 3=12
33 16 0 0x0 refuse 30
34 16 1 0x0 grant 32
35 15 0 0x0 both 30 33
36 15 1 0x0 both 31 34
37 14 0 0x0 grant 36
38 14 1 0x0 grant 36
39 13 0 0x0 both 35 37
40 13 1 0x0 both 36 38
41 12 0 0x0 on 39
42 12 1 0x0 on 40
43 11 0 0x0 on 41
44 11 1 0x0 on 42
45 10 0 0x0 grant 44
46 9 0 0x0 both 43 45
end
";

/// One label.
pub const ONE: &str = "int main(void){a:;return 0;}";

/// Ambient authority never at `a`; an enter may be refused.
pub const ONE_POLICY: &str = "format = 1
refusable = [\"enter\"]
[[at]]
label = \"a\"
never = [\"amb\"]
";

pub const ONE_STRATEGY: &str = "capweave strategy 1
states 4
0 5 0 0x0 bad
1 4 0 0x0 refuse 0
2 3 0 0x0 both 0 1
3 2 0 0x0 on 2
4 1 0 0x0 refuse 3
5 0 0 0x0 both 3 4
end
";

/// A function that calls itself behind a branch, and a label after its return, before which to enter.
pub const RETURN: &str = "/*cw{*/
#include \"capweave.h\"
#define CW_LIMITS(X)
CW_TABLE(1,4,0)
CW_MEM(0,0,0xf)
CW_MEM(1,1,0xf)
CW_MEM(2,3,0xf)
CW_LIVE(0,0)
CW_LIVE(2,0)
CW_LIVE(3,0)
CW_LIVE(4,0)
CW_LIVE(6,0)
CW_LIVE(7,0)
CW_LIVE(8,0)
CW_LIVE(10,0)
CW_LIVE(11,0)
CW_LIVE(13,0)
CW_LIVE(14,0)
CW_LIVE(15,0)
CW_LIVE(16,1)
CW_LIVE(17,2)
CW_LIVE(18,2)
CW_TRY(4,0,0,1,CW_NONE)
CW_AT(4,1,2)
CW_INTO(1,0,0,0)
CW_INTO(3,0,0,0)
CW_BACK(1,0,0,0,0)
CW_BACK(3,0,0,0,0)
CW_DONE
/*}cw*/void f(int x){/*cw{*/CW_ENTRY(0);/*}cw*/if(x)/*cw{*/CW_CALL(1)/*}cw*/f(x-1);}int main(void){/*cw{*/CW_ENTRY(2);/*}cw*//*cw{*/CW_CALL(3)/*}cw*/f(9);a:/*cw{*/CW_LABEL(4)/*}cw*/;}";

/// A descriptor's limit before a label, behind a branch and an open; what refuses it is answered by a stop.
pub const STOP: &str = "/*cw{*/
#include \"capweave.h\"
#define CW_LIMITS(X) X(0,fd,0x1)
CW_TABLE(1,12,0)
CW_MEM(0,0,0xfff)
CW_MEM(1,1,0xfff)
CW_MEM(2,2,0xfff)
CW_MEM(3,6,0xfff)
CW_MEM(4,7,0xfff)
CW_LIVE(0,0)
CW_LIVE(2,0)
CW_LIVE(4,0)
CW_LIVE(5,0)
CW_LIVE(6,0)
CW_LIVE(7,0)
CW_LIVE(7,2)
CW_LIVE(8,2)
CW_LIVE(9,0)
CW_LIVE(9,1)
CW_LIVE(11,0)
CW_LIVE(11,1)
CW_LIVE(12,3)
CW_LIVE(12,4)
CW_LIVE(13,0)
CW_LIVE(13,3)
CW_LIVE(13,4)
CW_LIVE(14,0)
CW_LIVE(14,3)
CW_LIVE(14,4)
CW_TRY(2,0,2,1,CW_NONE)
CW_AT(2,0,3)
CW_AT(2,1,4)
CW_OPENED(1,0,2,0)
CW_DONE
/*}cw*/int fd;int main(void){/*cw{*/CW_ENTRY(0);/*}cw*/if(c){/*cw{*/CW_OPEN(1,fd)/*}cw*/fd=g();a:/*cw{*/CW_LABEL(2)/*}cw*/;}return 0;}";

/// The descriptor `fd` never writes at `a`; a limit may be refused, and then the program may stop.
pub const STOP_POLICY: &str = "format = 1
refusable = [\"limit\"]
on_refusal = \"stop\"
[[descriptor]]
name = \"fd\"
[[limit]]
descriptor = \"fd\"
keep = [\"CAP_READ\"]
[[at]]
label = \"a\"
never = [\"fd:CAP_WRITE\"]
";

/// The woven text that the program's own run prints.
pub const STORED: &str = "/*cw{*/
#include \"capweave.h\"
#define CW_LIMITS(X)
CW_TABLE(1,4,0)
CW_MEM(0,0,0xf)
CW_MEM(1,1,0xf)
CW_MEM(2,3,0xf)
CW_LIVE(0,0)
CW_LIVE(2,0)
CW_LIVE(3,0)
CW_LIVE(4,0)
CW_LIVE(5,1)
CW_LIVE(6,2)
CW_LIVE(7,2)
CW_LIVE(8,2)
CW_TRY(1,0,0,1,CW_NONE)
CW_AT(1,1,2)
CW_DONE
/*}cw*/int main(void){/*cw{*/CW_ENTRY(0);/*}cw*/a:/*cw{*/CW_LABEL(1)/*}cw*/;return 0;}";

/// Ambient authority never at `a`; that of `RETURN` too.
pub const STORED_POLICY: &str = "format = 1
[[at]]
label = \"a\"
never = [\"amb\"]
";

/// Two labels.
pub const TWO: &str = "int main(void){a:;b:;return 0;}";

/// Ambient authority never at `a` and always at `b`.
pub const TWO_POLICY: &str = "format = 1
[[at]]
label = \"a\"
never = [\"amb\"]
[[at]]
label = \"b\"
must = [\"amb\"]
";

pub const TWO_STRATEGY: &str = "capweave strategy 1
states 4
0 5 0 0x0 bad
1 9 3 0x0 bad
2 8 3 0x0 grant 1
3 7 3 0x0 both 1 2
4 6 3 0x0 on 3
5 5 1 0x0 on 4
6 4 0 0x0 grant 5
7 4 1 0x0 grant 5
8 3 0 0x0 both 0 6
9 3 1 0x0 both 5 7
10 2 0 0x0 on 8
11 2 1 0x0 on 9
12 1 0 0x0 grant 11
13 0 0 0x0 both 10 12
end
";
