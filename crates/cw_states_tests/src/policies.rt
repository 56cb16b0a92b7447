//! What texts spell, told as lines. A test that lacks memory ends at once.

use cw_policy::read_policy;
use cw_rights::{Descriptor, Limit, Lit, Policy, Regex, Rule, Test};
use std::alloc::Global;
use std::fmt::Display;
use std::mem::forget;
use std::process::Abort;

/// Appends to a text what is told.
fn add<D: Display + Drop>(rt: &impl Abort, text: &mut String, told: D) {
    write!(text, "{told}").expect(rt, "memory");
}

/// A name, as a text.
fn named<'n>(rt: &impl Abort, name: &'n [u8]) -> &'n str {
    let Ok(name) = str::from_utf8(name) else {
        panic!(rt; "a name of other bytes");
    };
    name
}

fn add_names(rt: &impl Abort, text: &mut String, word: &str, names: &[Vec<u8>]) {
    for name in names {
        let name = named(rt, name);
        add(rt, text, format_args!("{word} {name}\n"));
    }
}

fn add_descriptors(rt: &impl Abort, text: &mut String, descriptors: &[Descriptor]) {
    for descriptor in descriptors {
        let name = named(rt, &descriptor.name);
        let number = descriptor.number;
        let rights = descriptor.rights.0;
        add(
            rt,
            text,
            format_args!("descriptor {name} {number:?} {rights}\n"),
        );
    }
}

fn add_limits(rt: &impl Abort, text: &mut String, limits: &[Limit]) {
    for limit in limits {
        let keep = limit.keep.0;
        add(
            rt,
            text,
            format_args!("limit {} {keep}\n", limit.descriptor),
        );
    }
}

/// Appends a literal with one label and one test: the label, the wanted truth and the test.
fn add_literal(rt: &impl Abort, text: &mut String, literal: &Lit) {
    if let (Some(label), [(truth, test)]) = (literal.label, literal.tests.as_slice()) {
        match *test {
            Test::Amb => add(rt, text, format_args!(", {label} {truth} amb")),
            Test::Holds { descriptor, need } => {
                add(
                    rt,
                    text,
                    format_args!(", {label} {truth} {descriptor}:{}", need.0),
                );
            }
        }
    }
}

/// Appends what an expression is if it is that of a test of a table `at`, as `.* 0[!amb]`, and nothing else.
fn add_bad(rt: &impl Abort, text: &mut String, bad: &Regex) {
    if let Regex::Cat(parts) = bad {
        if let [Regex::Star(_), Regex::Lit(literal), ..] = parts.as_slice() {
            add_literal(rt, text, literal);
        }
    }
}

fn add_rules(rt: &impl Abort, text: &mut String, rules: &[Rule]) {
    for rule in rules {
        let name = named(rt, &rule.name);
        add(rt, text, format_args!("rule {name}"));
        add_bad(rt, text, &rule.bad);
        add(rt, text, "\n");
    }
}

/// What is told of a policy, a line each: its format; whether the program may stop; whether a limit, an enter and a split may be refused; the
/// functions that are split and detached; the descriptors with their numbers and rights; the limits with what they keep; the labels; and the
/// rules by their names, with the label and the test of those of a table `at`.
fn told(rt: &impl Abort, alloc: Global, policy: &Policy) -> String {
    let mut text = String::new(alloc);
    add(rt, &mut text, format_args!("format {}\n", policy.format));
    add(rt, &mut text, format_args!("stop {}\n", policy.stop));
    add(
        rt,
        &mut text,
        format_args!("limit may be refused {}\n", policy.refuse_limit),
    );
    add(
        rt,
        &mut text,
        format_args!("enter may be refused {}\n", policy.refuse_enter),
    );
    add(
        rt,
        &mut text,
        format_args!("split may be refused {}\n", policy.refuse_split),
    );
    add_names(rt, &mut text, "split", &policy.split);
    add_names(rt, &mut text, "detached", &policy.detached);
    add_descriptors(rt, &mut text, &policy.descriptors);
    add_limits(rt, &mut text, &policy.limits);
    add_names(rt, &mut text, "label", &policy.labels);
    add_rules(rt, &mut text, &policy.rules);
    text
}

/// Asserts what a text spells.
fn spells(rt: &impl Abort, alloc: Global, text: &str, wanted: &str) {
    let Ok(policy) = read_policy(alloc, text.as_bytes()) else {
        panic!(rt; "a policy that isn't read");
    };
    let told = told(rt, alloc, &policy);
    forget(policy);
    assert!(rt; told.as_str() == wanted, "{text}");
}

#[test]
fn a_realistic_policy_is_read(rt: HostRuntime) {
    spells(
        &rt,
        rt.alloc(),
        "format = 1
descriptor = [{ name = \"in\" }, { name = \"logfd\" }, { name = \"1\" }]
limit = [
    { descriptor = \"in\", keep = [\"CAP_READ\", \"CAP_FSTAT\"] },
    { descriptor = \"logfd\", keep = [\"CAP_WRITE\"] },
    { descriptor = \"1\", keep = [\"CAP_WRITE\", \"CAP_FSTAT\"] },
]
at = [
    { label = \"start\", must = [\"amb\"] },
    { label = \"parse\", never = [\"amb\", \"in:CAP_WRITE\", \"logfd:CAP_READ\", \"1:CAP_READ\"] },
    { label = \"done\", never = [\"in:CAP_READ\"] },
]
",
        "format 1
stop false
limit may be refused false
enter may be refused false
split may be refused false
descriptor in None 4095
descriptor logfd None 4095
descriptor 1 Some(1) 4095
limit 0 9
limit 1 2
limit 2 10
label start
label parse
label done
rule start must amb, 0 false amb
rule parse never amb, 1 true amb
rule parse never in:CAP_WRITE, 1 true 0:2
rule parse never logfd:CAP_READ, 1 true 1:1
rule parse never 1:CAP_READ, 1 true 2:1
rule done never in:CAP_READ, 2 true 0:1
",
    );
}

#[test]
fn format_2_has_further_rights(rt: HostRuntime) {
    spells(
        &rt,
        rt.alloc(),
        "format = 2
on_refusal = \"stop\"
detached = [\"f\", \"g\"]
descriptor = [{ name = \"0\", rights = [\"CAP_PREAD\", \"CAP_WRITE\"] }]
limit = [{ descriptor = \"0\", keep = [\"CAP_PREAD\"] }, { descriptor = \"0\", keep = [\"CAP_PWRITE\"] }]
at = [{ label = \"a\", never = [\"0:CAP_PREAD\"] }]
",
        "format 2
stop true
limit may be refused false
enter may be refused false
split may be refused false
detached f
detached g
descriptor 0 Some(0) 7
limit 0 5
limit 0 6
label a
rule a never 0:CAP_PREAD, 0 true 0:5
",
    );
}

#[test]
fn labels_of_expressions_come_last(rt: HostRuntime) {
    spells(
        &rt,
        rt.alloc(),
        "format = 1
refusable = [\"split\", \"limit\"]
split = [\"f\", \"g\"]
at = [{ label = \"c\" }, { label = \"a\", never = [\"!amb\"], must = [\"! amb\"] }, { label = \"c\" }]
rule = [{ name = \"one\", bad = \"b a (d | c)\" }, { name = \"two\", bad = \".\" }]
",
        "format 1
stop false
limit may be refused true
enter may be refused false
split may be refused true
split f
split g
label c
label a
label b
label d
rule a must ! amb, 1 true amb
rule a never !amb, 1 false amb
rule one
rule two
",
    );
}
