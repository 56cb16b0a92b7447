//! What forbids splitting the function `f` of each of these programs.

use crate::ground::{FD, Question, all_told};
use cw_callgraph::effects;
use cw_resolve::function_named;
use cw_rights::Policy;
use cw_syntax::checked::Checked;
use std::alloc::Global;
use std::mem::forget;
use std::process::Abort;

/// A program without its `main`, and the least place that forbids splitting its `f`.
const CASES: [(&str, Option<u32>); 31] = [
    ("int f(int x){return x+1;}", None),
    ("int g;void f(int x){g=x;}", Some(20)),
    ("int g;void f(int x){int y;y=x;++g;}", Some(30)),
    ("int a[2];void f(int x){a[x]=1;}", Some(23)),
    ("int a[2];int f(int x){return a[x];}", None),
    ("int a[2];int f(int x){return sizeof a;}", Some(36)),
    ("int a[2];int f(int x){return x+put(a);}", Some(35)),
    ("int a[2];int f(int x){return 0[a];}", Some(31)),
    ("int *a[2];void f(int x){a[0][1]=x;}", None),
    ("int g;void f(int x){int *p;p=&g;}", Some(29)),
    ("int a[2];void f(int x){put(&a[0]);}", Some(28)),
    ("void f(int x){put(&x);}", Some(18)),
    ("void f(long x){put(*x);}", Some(19)),
    ("void f(int x){static int y=1;}", Some(14)),
    ("int fd;void f(int x){fd=open_it();}", Some(21)),
    ("int fd;void f(int x){if(x){;}else close(fd);}", Some(34)),
    (
        "int fd;void h(void){fd=open_it();}void f(int x){h();}",
        Some(20),
    ),
    ("int g;void f(int x){int g;g=x;}", None),
    ("int g;void f(int g){g=1;}", None),
    ("int g;void f(int x){{int g;g=1;}g=x;}", Some(32)),
    ("int g;void f(int x){for(int g=0;g<x;g++);g--;}", Some(41)),
    ("int g;void f(int x){extern int g;g=x;}", Some(33)),
    ("int g;void f(int x){int y=g=1,g=2;g=3;}", Some(26)),
    ("unsigned f(int x){return x;}", Some(9)),
    ("int *f(int x){return 0;}", Some(5)),
    ("long f(int x){return x;}", Some(5)),
    ("int f(char *x){return 0;}", Some(4)),
    ("int f(int x[]){return 0;}", Some(4)),
    ("char *h(void){return 0;}int f(int x){h();return x;}", None),
    ("int f(int x){return g2;}int g2;int a;", None),
    ("void f(int x){late=x;}int late;", Some(14)),
];

/// What forbids splitting the function `f`.
pub(crate) fn bar_told(
    rt: &impl Abort,
    alloc: Global,
    policy: &Policy,
    checked: &Checked,
) -> String {
    assert!(rt;
        checked.program.functions.len() <= 65535,
        "too many functions"
    );
    let table = effects(alloc, checked, policy).expect(rt, "memory");
    let function = function_named(checked, b"f").expect(rt, "a program without `f`");
    let effect = table
        .of
        .get(function)
        .expect(rt, "a function without effects");
    let bar = effect.forbids;
    forget(table);
    format!(in alloc; "{bar:?}").expect(rt, "memory")
}

/// Asserts what forbids splitting the function `f` of each of these programs.
fn all_forbid(rt: &impl Abort, alloc: Global, cases: &[(&str, Option<u32>)]) {
    for (source, bar) in cases {
        let whole = format!(in alloc; "{source}int main(void){{return 0;}}").expect(rt, "memory");
        let wanted = format!(in alloc; "{bar:?}").expect(rt, "memory");
        all_told(rt, alloc, FD, Question::Bar, &[(&whole, &wanted)]);
    }
}

#[test]
fn each_program_is_forbidden_at_its_least_place(rt: HostRuntime) {
    all_forbid(&rt, rt.alloc(), &CASES);
}
