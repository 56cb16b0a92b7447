//! Runs of the command line under policies that split functions off. The texts are another implementation's.
use crate::given::all_end;

const WEAVE: [&str; 3] = ["weave", "p.toml", "s.c"];

const CHECK: [&str; 3] = ["check", "p.toml", "s.c"];

const SOURCE: &str = "int f(int x){a:;return x;}\nint main(void){int y;y=f(1);b:;return 0;}\n";

const WOVEN: &str = "/*cw{*/
#include \"capweave.h\"
#define CW_LIMITS(X)
CW_TABLE(1,4,0)
CW_MEM(0,0,0xf)
CW_MEM(1,1,0xf)
CW_MEM(2,2,0xf)
CW_MEM(3,3,0xf)
CW_LIVE(0,0)
CW_LIVE(2,0)
CW_LIVE(3,0)
CW_LIVE(4,0)
CW_LIVE(5,1)
CW_LIVE(6,3)
CW_LIVE(7,3)
CW_LIVE(8,3)
CW_LIVE(9,0)
CW_LIVE(11,0)
CW_LIVE(12,0)
CW_LIVE(13,0)
CW_LIVE(15,0)
CW_LIVE(16,0)
CW_LIVE(18,0)
CW_LIVE(19,2)
CW_LIVE(21,2)
CW_LIVE(22,2)
CW_LIVE(23,2)
CW_LIVE(24,2)
CW_TRY(1,0,0,1,CW_NONE)
CW_TRY(3,1,0,0,CW_NONE)
CW_AT(1,1,3)
CW_AT(4,2,2)
CW_INTO(3,1,0,0)
CW_BACK(3,1,0,3,2)
CW_DONE
/*}cw*/int f(int x){/*cw{*/CW_ENTRY(0);/*}cw*/a:/*cw{*/CW_LABEL(1)/*}cw*/;return x;}
int main(void){/*cw{*/CW_ENTRY(2);/*}cw*/int y;/*cw{*/CW_CALLV(3,y)/*}cw*/y=f(1);b:/*cw{*/CW_LABEL(4)/*}cw*/;return 0;}
";

const STRATEGY: &str = "capweave strategy 1
states 4
0 5 0 0xa bad
1 8 3 0xa out
2 8 3 0xf out
3 21 1 0x0 bad
4 21 3 0x0 bad
5 7 3 0xa on 1
6 7 3 0xf on 2
7 20 1 0x0 grant 3
8 20 3 0x0 grant 4
9 6 3 0xa on 5
10 6 3 0xf on 6
11 19 1 0x0 both 3 7
12 19 3 0x0 both 4 8
13 5 1 0xa on 9
14 5 1 0xf on 10
15 4 0 0xa grant 13
16 4 1 0xa grant 13
17 4 1 0xf grant 14
18 3 0 0xa both 0 15
19 3 1 0xa both 13 16
20 3 1 0xf both 14 17
21 2 0 0xa on 18
22 2 1 0xa on 19
23 2 1 0xf on 20
24 1 0 0xa grant 22
25 1 1 0xa grant 22
26 1 1 0xf grant 23
27 0 0 0xa both 21 24
28 0 1 0xa both 22 25
29 0 1 0xf both 23 26
30 17 0 0x0 into 27 1=11 3=12
31 17 1 0x0 into 28 1=11 3=12
32 18 1 0x0 into 29 0=11 1=11 2=12 3=12
33 16 0 0x0 refuse 30
34 16 1 0x0 grant 32
35 15 0 0x0 both 30 33
36 15 1 0x0 both 31 34
37 14 0 0x0 grant 36
38 14 1 0x0 grant 36
39 13 0 0x0 both 35 37
40 13 1 0x0 both 36 38
41 12 0 0x0 on 39
42 12 1 0x0 on 40
43 11 0 0x0 on 41
44 11 1 0x0 on 42
45 10 0 0x0 grant 44
46 9 0 0x0 both 43 45
end
";

const SPLITS: &str =
    "format = 1\nsplit = [\"f\"]\n[[at]]\nlabel = \"a\"\nnever = [\"amb\"]\n[[at]]\nlabel = \"b\"\nmust = [\"amb\"]\n";

const REFUSABLE: &str =
    "format = 1\nrefusable = [\"split\"]\nsplit = [\"f\"]\n[[at]]\nlabel = \"a\"\nnever = [\"amb\"]\n[[at]]\nlabel = \"b\"\nmust = [\"amb\"]\n";

const TWO: &str = "format = 1\nsplit = [\"f\", \"h\"]\n";

const WRITES: &str = "int g;void f(int x){g=x;}int main(void){f(1);return 0;}";

#[test]
fn functions_are_split_or_told_why_not(rt: HostRuntime) {
    all_end(
        &rt,
        rt.alloc(),
        &[
            (&WEAVE, &[SPLITS, SOURCE], 0, WOVEN, ""),
            (&WEAVE, &[REFUSABLE, SOURCE], 1, STRATEGY, ""),
            (
                &WEAVE,
                &["format = 1\nsplit = [\"f\"]\n", WRITES],
                4,
                "",
                "policy: not splittable f 1:21\n",
            ),
            (&WEAVE, &[TWO, WRITES], 4, "", "policy: no function h\n"),
            (
                &WEAVE,
                &["format = 2\nsplit = [\"f\"]\ndetached = [\"f\"]\n", WRITES],
                4,
                "",
                "policy: not splittable f 1:21\n",
            ),
            (&CHECK, &[SPLITS, WOVEN], 0, "yes\n", ""),
            (&CHECK, &[TWO, WOVEN], 4, "", "policy: no function h\n"),
        ],
    );
}
