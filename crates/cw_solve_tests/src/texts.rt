//! The texts of programs, policies and strategies.

use std::alloc::{AllocError, Global};

/// Appends a text so many times.
fn put(text: &mut String, part: &str, times: u32) -> Result<(), AllocError> {
    for _ in 0..times {
        text.push_str(part)?;
    }
    Ok(())
}

/// The text of these parts, each so many times.
pub fn joined(alloc: Global, parts: &[(&str, u32)]) -> Result<String, AllocError> {
    let mut text = String::new(alloc);
    for (part, times) in parts {
        put(&mut text, part, *times)?;
    }
    Ok(text)
}

/// A tool that reads a file and writes a log.
pub const TOOL: &str = "#include <stdio.h>
#include <fcntl.h>
#include <unistd.h>
int in = -1;
int logfd = -1;
static char buf[4096];
static long pos, len;
static int expr(void);
/* one byte to the log */
static void note(int c) { char b[1]; b[0] = c; write(logfd, b, 1); }
static int peek(void) {
    if (pos < len)
        return buf[pos];
    return 0;
}
static int number(void) {
    int n = 0;
    int c;
    c = peek();
    while (c >= '0' && c <= '9') {
        n = n * 10 + (c - '0');
        pos++;
        c = peek();
    }
    return n;
}
static int term(void) {
    int v, c;
    c = peek();
    if (c == '(') { pos++; v = expr(); pos++; }
    else v = number();
    return v;
}
static int expr(void) {
    int v, w, c;
    v = term();
    c = peek();
    while (c == '+') { pos++; w = term(); v = v + w; c = peek(); }
    return v;
}
int main(int argc, char **argv) {
    int v;
    long n;
    if (argc < 2) { fprintf(stderr, \"usage: sum FILE\\n\"); return 2; }
start:
    logfd = open(\"sum.log\", O_WRONLY | O_CREAT | O_APPEND, 0644);
    if (logfd < 0)
        return 1;
    in = open(argv[1], O_RDONLY);
    if (in < 0) { note('!'); return 1; }
ready:
    n = read(in, buf, sizeof buf);
    while (n > 0) {
    parse:
        pos = 0;
        len = n;
        v = expr();
        printf(\"%d\\n\", v);
        note('.');
        n = read(in, buf, sizeof buf);
    }
    close(in);
done:
    printf(\"end\\n\");
    close(logfd);
    return 0;
}
";

/// Its policy: limits of two variables and a number, and where ambient authority and rights are to be had.
pub const TOOL_POLICY: &str = "format = 1
[[descriptor]]
name = \"in\"
[[descriptor]]
name = \"logfd\"
[[descriptor]]
name = \"1\"
[[limit]]
descriptor = \"in\"
keep = [\"CAP_READ\", \"CAP_FSTAT\"]
[[limit]]
descriptor = \"logfd\"
keep = [\"CAP_WRITE\"]
[[limit]]
descriptor = \"1\"
keep = [\"CAP_WRITE\", \"CAP_FSTAT\"]
[[at]]
label = \"start\"
must = [\"amb\"]
[[at]]
label = \"parse\"
never = [\"amb\", \"in:CAP_WRITE\", \"logfd:CAP_READ\", \"1:CAP_READ\"]
[[at]]
label = \"done\"
never = [\"in:CAP_READ\"]
";

/// A function that may run in a process of its own.
pub const CALL: &str = "int f(int x){a:;return x;}
int main(void){int y;y=f(1);b:;return 0;}
";

/// Ambient authority never at `a` and always at `b`; a split may be refused.
pub const CALL_POLICY: &str = "format = 1
split = [\"f\"]
refusable = [\"split\"]
[[at]]
label = \"a\"
never = [\"amb\"]
[[at]]
label = \"b\"
must = [\"amb\"]
";

/// The environment's strategy for it.
pub const CALL_STRATEGY: &str = "capweave strategy 1
states 4
0 5 0 0xa bad
1 8 3 0xa out
2 8 3 0xf out
3 21 1 0x0 bad
4 21 3 0x0 bad
5 7 3 0xa on 1
6 7 3 0xf on 2
7 20 1 0x0 grant 3
8 20 3 0x0 grant 4
9 6 3 0xa on 5
10 6 3 0xf on 6
11 19 1 0x0 both 3 7
12 19 3 0x0 both 4 8
13 5 1 0xa on 9
14 5 1 0xf on 10
15 4 0 0xa grant 13
16 4 1 0xa grant 13
17 4 1 0xf grant 14
18 3 0 0xa both 0 15
19 3 1 0xa both 13 16
20 3 1 0xf both 14 17
21 2 0 0xa on 18
22 2 1 0xa on 19
23 2 1 0xf on 20
24 1 0 0xa grant 22
25 1 1 0xa grant 22
26 1 1 0xf grant 23
27 0 0 0xa both 21 24
28 0 1 0xa both 22 25
29 0 1 0xf both 23 26
30 17 0 0x0 into 27 1=11 3=12
31 17 1 0x0 into 28 1=11 3=12
32 18 1 0x0 into 29 0=11 1=11 2=12 3=12
33 16 0 0x0 refuse 30
34 16 1 0x0 grant 32
35 15 0 0x0 both 30 33
36 15 1 0x0 both 31 34
37 14 0 0x0 grant 36
38 14 1 0x0 grant 36
39 13 0 0x0 both 35 37
40 13 1 0x0 both 36 38
41 12 0 0x0 on 39
42 12 1 0x0 on 40
43 11 0 0x0 on 41
44 11 1 0x0 on 42
45 10 0 0x0 grant 44
46 9 0 0x0 both 43 45
end
";

/// Two labels.
pub const TWO: &str = "int main(void){a:;b:;return 0;}";

/// Ambient authority never at `a` and always at `b`.
pub const TWO_POLICY: &str = "format = 1
[[at]]
label = \"a\"
never = [\"amb\"]
[[at]]
label = \"b\"
must = [\"amb\"]
";

pub const TWO_STRATEGY: &str = "capweave strategy 1
states 4
0 5 0 0x0 bad
1 9 3 0x0 bad
2 8 3 0x0 grant 1
3 7 3 0x0 both 1 2
4 6 3 0x0 on 3
5 5 1 0x0 on 4
6 4 0 0x0 grant 5
7 4 1 0x0 grant 5
8 3 0 0x0 both 0 6
9 3 1 0x0 both 5 7
10 2 0 0x0 on 8
11 2 1 0x0 on 9
12 1 0 0x0 grant 11
13 0 0 0x0 both 10 12
end
";

/// One label.
pub const ONE: &str = "int main(void){a:;return 0;}";

/// Ambient authority never at `a`; an enter may be refused.
pub const ONE_POLICY: &str = "format = 1
refusable = [\"enter\"]
[[at]]
label = \"a\"
never = [\"amb\"]
";

pub const ONE_STRATEGY: &str = "capweave strategy 1
states 4
0 5 0 0x0 bad
1 4 0 0x0 refuse 0
2 3 0 0x0 both 0 1
3 2 0 0x0 on 2
4 1 0 0x0 refuse 3
5 0 0 0x0 both 3 4
end
";
