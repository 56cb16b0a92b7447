//! Texts of answers. A test that lacks memory ends at once.

use cw_answers::read_answers;
use cw_certs::Move;
use cw_value::Answers;
use std::alloc::Global;
use std::fmt::Display;
use std::mem::forget;
use std::process::Abort;

/// The first line.
const HEAD: &str = "capweave answers 1\n";

/// Appends to a text what is told.
fn add<D: Display + Drop>(rt: &impl Abort, text: &mut String, told: D) {
    write!(text, "{told}").expect(rt, "memory");
}

fn add_names(rt: &impl Abort, text: &mut String, names: &[(Vec<u8>, i64)]) {
    for (name, value) in names {
        let Ok(name) = str::from_utf8(name) else {
            panic!(rt; "a name of other bytes");
        };
        add(rt, text, format_args!("name {name} {value}\n"));
    }
}

fn add_tries(rt: &impl Abort, text: &mut String, tries: &[Move]) {
    for answer in tries {
        let word = if *answer == Move::Grant {
            "grant"
        } else {
            "refuse"
        };
        add(rt, text, format_args!("try {word}\n"));
    }
}

fn add_calls(rt: &impl Abort, text: &mut String, calls: &[i64]) {
    for value in calls {
        add(rt, text, format_args!("call {value}\n"));
    }
}

/// Answers, written again.
fn written(rt: &impl Abort, alloc: Global, answers: &Answers) -> String {
    let mut text = String::new(alloc);
    add(rt, &mut text, HEAD);
    add_names(rt, &mut text, &answers.names);
    add_tries(rt, &mut text, &answers.tries);
    add_calls(rt, &mut text, &answers.calls);
    add(rt, &mut text, "end\n");
    text
}

/// Asserts what a text's answers are, written again, or the line at which it is no answers'.
fn tells(rt: &impl Abort, alloc: Global, text: &str, wanted: &str) {
    assert!(rt; text.len() <= 33554432, "a text that is too long");
    let told = match read_answers(alloc, text.as_bytes()) {
        Ok(answers) => {
            let text = written(rt, alloc, &answers);
            forget(answers);
            text
        }
        Err(fault) => format!(in alloc; "{fault}").expect(rt, "memory"),
    };
    assert!(rt; told.as_str() == wanted, "{text}");
}

/// Asserts that each text of these lines between the first and the last is read, and is that of what is read.
fn all_read(rt: &impl Abort, alloc: Global, texts: &[&str]) {
    for lines in texts {
        let text = format!(in alloc; "{HEAD}{lines}end\n").expect(rt, "memory");
        tells(rt, alloc, &text, &text);
    }
}

/// Asserts the first line of each text with this front that doesn't fit.
fn all_stop(rt: &impl Abort, alloc: Global, front: &str, rows: &[(&str, u32)]) {
    for (lines, line) in rows {
        let text = format!(in alloc; "{front}{lines}").expect(rt, "memory");
        let wanted = format!(in alloc; "line {line}").expect(rt, "memory");
        tells(rt, alloc, &text, &wanted);
    }
}

#[test]
fn answers_are_read(rt: HostRuntime) {
    all_read(
        &rt,
        rt.alloc(),
        &[
            "",
            "name B 0\nname _x -9223372036854775808\nname int 9223372036854775807\ntry grant\ntry refuse\ncall -1\ncall 7\n",
            "name A 1\nname A0 1\nname A_ 1\nname Aa 1\nname B -1\nname _ 10\nname __ 100\nname a 1\nname a1 -10\nname aa 7\nname z9 0\n",
            "try refuse\n",
            "try grant\ntry grant\ntry refuse\ntry refuse\ntry grant\n",
            "call 0\ncall 0\ncall -9223372036854775808\ncall 9223372036854775807\ncall -9223372036854775807\ncall 1000000000000000000\n",
            "name end 1\ncall 3\n",
            "try refuse\ncall 3\n",
        ],
    );
}

#[test]
fn the_head_and_the_end(rt: HostRuntime) {
    all_stop(
        &rt,
        rt.alloc(),
        "",
        &[
            ("", 1),
            ("\n", 1),
            ("capweave answers 1", 1),
            ("capweave answers 2\nend\n", 1),
            ("capweave answers 1 \nend\n", 1),
            (" capweave answers 1\nend\n", 1),
            ("capweave  answers 1\nend\n", 1),
            ("capweave answers 01\nend\n", 1),
            ("Capweave answers 1\nend\n", 1),
            ("capweave answers 1\r\nend\n", 1),
            ("end\n", 1),
        ],
    );
    all_stop(
        &rt,
        rt.alloc(),
        HEAD,
        &[
            ("", 2),
            ("end", 2),
            ("End\n", 2),
            ("end \n", 2),
            ("end\r\n", 2),
            ("\nend\n", 2),
            ("capweave answers 1\nend\n", 2),
            ("end\nend\n", 3),
            ("end\n\n", 3),
            ("end\ncall 1", 3),
            ("call 1\n", 3),
            ("call 1\ncall 2", 3),
            ("call 1\n\nend\n", 3),
            ("name a 1\ntry grant\ncall 2\nend", 5),
        ],
    );
}

#[test]
fn names_ascend_and_are_names(rt: HostRuntime) {
    all_stop(
        &rt,
        rt.alloc(),
        HEAD,
        &[
            ("name a 1\nname a 2\nend\n", 3),
            ("name b 1\nname a 2\nend\n", 3),
            ("name aa 1\nname a 2\nend\n", 3),
            ("name a 1\nname B 2\nend\n", 3),
            ("name _ 1\nname A 2\nend\n", 3),
            ("name a 1\nname b 1\nname ab 2\nend\n", 4),
            ("name 1a 1\nend\n", 2),
            ("name a-b 1\nend\n", 2),
            ("name a.b 1\nend\n", 2),
            ("name \u{e9} 1\nend\n", 2),
            ("name  1\nend\n", 2),
            ("name 1\nend\n", 2),
            ("name a\nend\n", 2),
            ("name a \nend\n", 2),
            ("name a 1 \nend\n", 2),
            ("name a  1\nend\n", 2),
            ("name a 1 2\nend\n", 2),
            ("name\ta 1\nend\n", 2),
            ("names a 1\nend\n", 2),
            (" name a 1\nend\n", 2),
            ("name a x\nend\n", 2),
            ("name a 9223372036854775808\nend\n", 2),
            ("name a -9223372036854775809\nend\n", 2),
            ("name a +1\nend\n", 2),
            ("name a -0\nend\n", 2),
            ("name a 00\nend\n", 2),
        ],
    );
}

#[test]
fn values_are_of_64_bits(rt: HostRuntime) {
    all_stop(
        &rt,
        rt.alloc(),
        HEAD,
        &[
            ("call 01\nend\n", 2),
            ("call 00\nend\n", 2),
            ("call -0\nend\n", 2),
            ("call -01\nend\n", 2),
            ("call +1\nend\n", 2),
            ("call +0\nend\n", 2),
            ("call -\nend\n", 2),
            ("call --1\nend\n", 2),
            ("call - 1\nend\n", 2),
            ("call 1-\nend\n", 2),
            ("call 0x1\nend\n", 2),
            ("call 1.\nend\n", 2),
            ("call 1 \nend\n", 2),
            ("call  1\nend\n", 2),
            ("call\t1\nend\n", 2),
            ("call \nend\n", 2),
            ("call\nend\n", 2),
            ("calls 1\nend\n", 2),
            ("call 1 2\nend\n", 2),
            ("call 9223372036854775808\nend\n", 2),
            ("call -9223372036854775809\nend\n", 2),
            ("call 18446744073709551615\nend\n", 2),
            ("call 18446744073709551616\nend\n", 2),
            ("call -18446744073709551616\nend\n", 2),
            ("call 18446744073709551617\nend\n", 2),
            ("call 36893488147419103233\nend\n", 2),
            ("call 99999999999999999999999999999999999999999\nend\n", 2),
            ("call 1\ncall 2\ncall 9223372036854775808\nend\n", 4),
        ],
    );
}

#[test]
fn kinds_stand_in_order(rt: HostRuntime) {
    all_stop(
        &rt,
        rt.alloc(),
        HEAD,
        &[
            ("try grant\nname a 1\nend\n", 3),
            ("call 1\ntry grant\nend\n", 3),
            ("call 1\nname a 1\nend\n", 3),
            ("name a 1\ncall 1\ntry refuse\nend\n", 4),
            ("try on\nend\n", 2),
            ("try Grant\nend\n", 2),
            ("try  grant\nend\n", 2),
            ("try grant \nend\n", 2),
            ("try\nend\n", 2),
            ("try grant\ntry skip\nend\n", 3),
            ("try grant\ntry refused\nend\n", 3),
            ("try grant\ntry stop\nend\n", 3),
            ("grant\nend\n", 2),
        ],
    );
}
