//! What the functions of a program call, and what they reach.

use crate::ground::{FD, Question, all_told};
use cw_callgraph::{call_table, effects};
use cw_rights::Policy;
use cw_syntax::checked::Checked;
use std::alloc::Global;
use std::mem::forget;
use std::process::Abort;

/// What each function calls by the table of calls alone, a line each.
pub(crate) fn calls_told(
    rt: &impl Abort,
    alloc: Global,
    policy: &Policy,
    checked: &Checked,
) -> String {
    assert!(rt;
        checked.program.functions.len() <= 65535,
        "too many functions"
    );
    let table = call_table(alloc, checked, policy).expect(rt, "memory");
    let mut text = String::new(alloc);
    for calls in &table {
        write!(text, "{calls:?}\n").expect(rt, "memory");
    }
    forget(table);
    text
}

/// What each function calls by the table of effects, and what it reaches, a line each.
pub(crate) fn effects_told(
    rt: &impl Abort,
    alloc: Global,
    policy: &Policy,
    checked: &Checked,
) -> String {
    assert!(rt;
        checked.program.functions.len() <= 65535,
        "too many functions"
    );
    let table = effects(alloc, checked, policy).expect(rt, "memory");
    let mut text = String::new(alloc);
    for effect in &table.of {
        write!(text, "{:?} {:?}\n", effect.calls, effect.reaches).expect(rt, "memory");
    }
    forget(table);
    text
}

/// Asserts what each function of a program calls, and the same with what it reaches.
fn calls(rt: &impl Abort, alloc: Global, source: &str, calls: &str, effects: &str) {
    all_told(rt, alloc, FD, Question::Calls, &[(source, calls)]);
    all_told(rt, alloc, FD, Question::Effects, &[(source, effects)]);
}

#[test]
fn a_recursion_of_two_functions_reaches_both(rt: HostRuntime) {
    calls(
        &rt,
        rt.alloc(),
        "int main(void){f();}void f(void){g();}void g(void){f();}",
        "[1]\n[2]\n[1]\n",
        "[1] [1, 2]\n[2] [1, 2]\n[1] [1, 2]\n",
    );
}

#[test]
fn a_function_called_twice_is_listed_once(rt: HostRuntime) {
    calls(
        &rt,
        rt.alloc(),
        "int x;int main(void){x=g();open();f();g();}void f(void){}int g(void){}",
        "[2, 1]\n[]\n[]\n",
        "[2, 1] [1, 2]\n[] []\n[] []\n",
    );
}

/// The else arm stands before the `do`.
#[test]
fn calls_stand_in_loops_labels_and_arms(rt: HostRuntime) {
    calls(
        &rt,
        rt.alloc(),
        "int x;void h(void){for(;;){if(x);else f();}a:do g();while(x);}void f(void){h();}void g(void){}int main(void){}",
        "[1, 2]\n[0]\n[]\n[]\n",
        "[1, 2] [0, 1, 2]\n[0] [0, 1, 2]\n[] []\n[] []\n",
    );
}

#[test]
fn calls_stand_in_the_order_of_the_text_each_once(rt: HostRuntime) {
    calls(
        &rt,
        rt.alloc(),
        "int h(int x){return x;}void f(int x){h(x);put(x);h(x);}int main(void){f(0);h(1);return 0;}",
        "[]\n[0]\n[1, 0]\n",
        "[] []\n[0] [0]\n[1, 0] [0, 1]\n",
    );
}

/// More functions than are walked over.
#[test]
fn calls_among_many_functions(rt: HostRuntime) {
    calls(
        &rt,
        rt.alloc(),
        "void a(void){h();}void b(void){}void c(void){b();}void d(void){}void e(void){}void f(void){}void g(void){}void h(void){i();}int main(void){h();c();a();}",
        "[7]\n[]\n[1]\n[]\n[]\n[]\n[]\n[]\n[7, 2, 0]\n",
        "[7] [7]\n[] []\n[1] [1]\n[] []\n[] []\n[] []\n[] []\n[] []\n[7, 2, 0] [0, 1, 2, 7]\n",
    );
}
