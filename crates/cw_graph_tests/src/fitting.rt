//! Whether policies fit a program of three functions.

use crate::ground::{Named, Question, all_told};
use cw_callgraph::{effects, fit_fault, fits};
use cw_rights::Policy;
use cw_syntax::checked::Checked;
use std::alloc::Global;
use std::mem::forget;
use std::process::Abort;

const SOURCE: &str =
    "int g;void f(int x){g=x;}int h(int x){a:return x;}int main(void){b:;return 0;}";

/// What of a policy a program doesn't fit first, by its effects.
pub(crate) fn fits_told(
    rt: &impl Abort,
    alloc: Global,
    policy: &Policy,
    checked: &Checked,
) -> String {
    assert!(rt; policy.labels.len() <= 65535, "too many labels");
    assert!(rt; policy.split.len() <= 65535, "too many names");
    assert!(rt;
        checked.program.functions.len() <= 65535,
        "too many functions"
    );
    let table = effects(alloc, checked, policy).expect(rt, "memory");
    let found = fits(policy, checked, &table).err();
    forget(table);
    format!(in alloc; "{found:?}").expect(rt, "memory")
}

/// What of a policy a program doesn't fit first.
pub(crate) fn fault_told(
    rt: &impl Abort,
    alloc: Global,
    policy: &Policy,
    checked: &Checked,
) -> String {
    assert!(rt; policy.labels.len() <= 65535, "too many labels");
    assert!(rt; policy.split.len() <= 65535, "too many names");
    assert!(rt;
        checked.program.functions.len() <= 65535,
        "too many functions"
    );
    let found = fit_fault(alloc, policy, checked).expect(rt, "memory");
    format!(in alloc; "{found:?}").expect(rt, "memory")
}

/// Asserts what the source doesn't fit first of a policy with these labels that splits these functions.
fn fitted(rt: &impl Abort, alloc: Global, labels: &[&str], split: &[&str], wanted: &str) {
    let named = Named {
        descriptor: "fd",
        labels,
        split,
    };
    all_told(rt, alloc, named, Question::Fits, &[(SOURCE, wanted)]);
    all_told(rt, alloc, named, Question::FitFault, &[(SOURCE, wanted)]);
}

#[test]
fn a_policy_of_what_is_there_fits(rt: HostRuntime) {
    fitted(&rt, rt.alloc(), &["a", "b"], &["h", "main"], "None");
}

#[test]
fn labels_come_before_functions(rt: HostRuntime) {
    fitted(
        &rt,
        rt.alloc(),
        &["b", "c", "d"],
        &["f", "k"],
        "Some(NoLabel(1))",
    );
}

#[test]
fn functions_that_are_not_there_come_before_those_that_may_not_be_split(rt: HostRuntime) {
    fitted(
        &rt,
        rt.alloc(),
        &["b"],
        &["f", "h", "k"],
        "Some(NoFunction(2))",
    );
}

#[test]
fn a_function_that_writes_a_variable_of_the_file_is_not_split(rt: HostRuntime) {
    fitted(
        &rt,
        rt.alloc(),
        &["b"],
        &["h", "f"],
        "Some(NotSplittable(1, 20))",
    );
}

#[test]
fn a_policy_that_splits_nothing_needs_its_labels_alone(rt: HostRuntime) {
    fitted(&rt, rt.alloc(), &["b", "a"], &[], "None");
    fitted(&rt, rt.alloc(), &["b", "c"], &[], "Some(NoLabel(1))");
}
