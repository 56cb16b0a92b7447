//! A long text goes out in pieces, of which each fails in turn.
use crate::given::{NO_EDIT, all_fail};

/// A tool that sums numbers, with a log.
const SUMS: &str = r#"#include <stdio.h>
#include <fcntl.h>
#include <unistd.h>
int in = -1;
int logfd = -1;
static char buf[4096];
static long pos, len;
static int expr(void);
/* one byte to the log */
static void note(int c) { char b[1]; b[0] = c; write(logfd, b, 1); }
static int peek(void) {
    if (pos < len)
        return buf[pos];
    return 0;
}
static int number(void) {
    int n = 0;
    int c;
    c = peek();
    while (c >= '0' && c <= '9') {
        n = n * 10 + (c - '0');
        pos++;
        c = peek();
    }
    return n;
}
static int term(void) {
    int v, c;
    c = peek();
    if (c == '(') { pos++; v = expr(); pos++; }
    else v = number();
    return v;
}
static int expr(void) {
    int v, w, c;
    v = term();
    c = peek();
    while (c == '+') { pos++; w = term(); v = v + w; c = peek(); }
    return v;
}
int main(int argc, char **argv) {
    int v;
    long n;
    if (argc < 2) { fprintf(stderr, "usage: sum FILE\n"); return 2; }
start:
    logfd = open("sum.log", O_WRONLY | O_CREAT | O_APPEND, 0644);
    if (logfd < 0)
        return 1;
    in = open(argv[1], O_RDONLY);
    if (in < 0) { note('!'); return 1; }
ready:
    n = read(in, buf, sizeof buf);
    while (n > 0) {
    parse:
        pos = 0;
        len = n;
        v = expr();
        printf("%d\n", v);
        note('.');
        n = read(in, buf, sizeof buf);
    }
    close(in);
done:
    printf("end\n");
    close(logfd);
    return 0;
}
"#;

/// That it opens its log while it may, and reads its input without further authority.
const SUMS_POLICY: &str = r#"format = 1

[[descriptor]]
name = "in"

[[descriptor]]
name = "logfd"

[[descriptor]]
name = "1"

[[limit]]
descriptor = "in"
keep = ["CAP_READ", "CAP_FSTAT"]

[[limit]]
descriptor = "logfd"
keep = ["CAP_WRITE"]

[[limit]]
descriptor = "1"
keep = ["CAP_WRITE", "CAP_FSTAT"]

[[at]]
label = "start"
must = ["amb"]

[[at]]
label = "parse"
never = ["amb", "in:CAP_WRITE", "logfd:CAP_READ", "1:CAP_READ"]

[[at]]
label = "done"
never = ["in:CAP_READ"]
"#;

const WEAVE: [&str; 3] = ["weave", "p.toml", "s.c"];

/// How a woven text begins.
const FRONT: &str = "/*cw{*/\n#include \"capweave.h\"\n";

/// The text has 19,793 bytes, which are nineteen pieces of 1,024 and one of 337: of a piece that fails the first half is put.
#[test]
fn a_long_text_goes_out_in_pieces_each_of_which_may_fail(rt: HostRuntime) {
    all_fail(
        &rt,
        rt.alloc(),
        &[SUMS_POLICY, SUMS],
        &NO_EDIT,
        &[
            (&WEAVE, [9, 0, 9], 7, FRONT, 512, "write\n"),
            (&WEAVE, [9, 1, 9], 7, FRONT, 1_536, "write\n"),
            (&WEAVE, [9, 10, 9], 7, FRONT, 10_752, "write\n"),
            (&WEAVE, [9, 18, 9], 7, FRONT, 18_944, "write\n"),
            (&WEAVE, [9, 19, 9], 7, FRONT, 19_624, "write\n"),
            (&WEAVE, [9, 20, 9], 0, FRONT, 19_793, ""),
        ],
    );
}
