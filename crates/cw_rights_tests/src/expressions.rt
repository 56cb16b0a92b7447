//! What expressions and tests are read as, and where they are refused.
ghost use Rattle.std.specs.Prelude.{◌≡◌, ◌⊎◌};

use crate::given::{descriptors_of, lone_expression_of, tree_of};
use cw_regex::{RegexFault, read_test};
use cw_rights::{Regex, Rights, Test};
use indexmap::IndexSet;
use std::alloc::Global;
use std::process::Abort;

/// Why a text is refused, in words, and where.
fn refused(fault: RegexFault) -> (&'static str, u32) {
    match fault {
        RegexFault::At(at) => ("at", at),
        RegexFault::UnknownDescriptor(at) => ("unknown descriptor", at),
        RegexFault::UnknownRight(at) => ("unknown right", at),
        RegexFault::TooDeep => ("too deep", 0),
        RegexFault::NoMemory => ("no memory", 0),
    }
}

/// What reading an expression of the first format comes to, in words, and where.
fn outcome(rt: &impl Abort, alloc: Global, text: &str) -> (&'static str, u32) {
    match lone_expression_of(rt, alloc, text, 1) {
        Ok(_) => ("read", 0),
        Err(fault) => refused(fault),
    }
}

/// Asserts what reading each of these expressions comes to.
fn all_read(rt: &impl Abort, alloc: Global, texts: &[(&str, &str, u32)]) {
    for (text, wanted, place) in texts {
        let (found, at) = outcome(rt, alloc, text);
        assert!(rt; found == *wanted && at == *place, "{text}");
    }
}

#[test]
fn offsets_of_faults(rt: HostRuntime) {
    all_read(
        &rt,
        rt.alloc(),
        &[
            ("", "at", 0),
            (" a", "at", 0),
            ("a ", "at", 2),
            ("a\n", "at", 1),
            ("3a", "at", 0),
            ("a[", "at", 2),
            ("a[]", "at", 2),
            ("a[3:CAP_READ]", "at", 2),
            ("a[00:CAP_READ]", "at", 3),
            ("a[0:0]", "at", 4),
            ("a[0 CAP_READ]", "at", 4),
            ("a[ambx]", "at", 6),
            ("a[amb,]", "at", 6),
            ("a[!!amb]", "at", 3),
            ("a[nil:CAP_NONE", "at", 14),
            (".[amb][amb]", "at", 6),
            ("a**", "at", 2),
            ("a||b", "at", 2),
            ("(a", "at", 2),
            ("()", "at", 1),
            ("a)", "at", 1),
            ("a[nil:CAP_NONE]", "unknown descriptor", 2),
            ("a[0:CAP_NONE, nil:CAP_READ]", "unknown right", 4),
            ("a[0:CAP_READ, log:CAP_PWRITE]", "unknown right", 18),
            (
                "(((((((((((((((((((((((((((((((((((((((((((((((((((((((((((((((((a)))))))))))))))))))))))))))))))))))))))))))))))))))))))))))))))))",
                "too deep",
                0,
            ),
            (
                "((((((((((((((((((((((((((((((((((((((((((((((((((((((((((((((((a))))))))))))))))))))))))))))))))))))))))))))))))))))))))))))))))",
                "read",
                0,
            ),
            ("a\t| amb ( 0x [ ! amb , log : CAP_SEEK ] ) ?", "at", 10),
            ("a\t| amb ( x0 [ ! amb , log : CAP_SEEK ] ) ?", "read", 0),
        ],
    );
}

/// The test `log:CAP_LOOKUP`.
const LOOKUP: Test = Test::Holds {
    descriptor: 1,
    need: Rights(0x800),
};

/// The test `log:CAP_FSYNC`.
const FSYNC: Test = Test::Holds {
    descriptor: 1,
    need: Rights(0x20),
};

/// The test `0:CAP_PREAD`.
const PREAD: Test = Test::Holds {
    descriptor: 0,
    need: Rights(0x5),
};

/// The test `log:CAP_PWRITE`.
const PWRITE: Test = Test::Holds {
    descriptor: 1,
    need: Rights(0x6),
};

fn sequence_of(regex: &Regex) -> &[Regex] {
    match regex {
        Regex::Cat(parts) => parts,
        _ => &[],
    }
}

/// Whether a tree is a literal of this label with these tests.
fn is_literal(tree: &Regex, label: Option<u16>, tests: &[(bool, Test)]) -> bool {
    match tree {
        Regex::Lit(lit) => lit.label == label && lit.tests.as_slice() == tests,
        _ => false,
    }
}

/// Whether a tree is that of `go next[!amb, log:CAP_LOOKUP]`, where the labels are 1 and 2.
fn goes_next(tree: &Regex) -> bool {
    match sequence_of(tree) {
        [first, second] => {
            is_literal(first, Some(1), &[])
                && is_literal(second, Some(2), &[(false, Test::Amb), (true, LOOKUP)])
        }
        _ => false,
    }
}

/// Whether a tree is a part one or more times, and then any letter.
fn is_repeated(tree: &Regex) -> bool {
    match sequence_of(tree) {
        [Regex::Plus(body), last] => goes_next(body) && is_literal(last, None, &[]),
        _ => false,
    }
}

/// Whether a tree is a choice of two.
fn is_choice(tree: &Regex) -> bool {
    match tree {
        Regex::Or(parts) => parts.len() == 2,
        _ => false,
    }
}

fn number_of(labels: &IndexSet<Vec<u8>>, name: &str) -> Option<usize> {
    labels.get_index_of(name.as_bytes())
}

/// Asserts that `done | go` is a choice of two, whose labels are the first ones.
fn expect_choice(rt: &impl Abort, alloc: Global, labels: &mut IndexSet<Vec<u8>>) {
    let tree = tree_of(rt, alloc, "done | go", labels, 1);
    assert!(rt; is_choice(&tree) && labels.len() == 2);
}

/// Asserts that the labels of `(go next[!amb, log:CAP_LOOKUP])+ .` have the next numbers.
fn expect_repeated(rt: &impl Abort, alloc: Global, labels: &mut IndexSet<Vec<u8>>) {
    let tree = tree_of(rt, alloc, "(go next[!amb, log:CAP_LOOKUP])+ .", labels, 1);
    assert!(rt; is_repeated(&tree) && labels.len() == 3);
}

#[test]
fn labels_are_numbered_in_their_order(rt: HostRuntime) {
    let mut labels = IndexSet::new(rt.alloc());
    expect_choice(&rt, rt.alloc(), &mut labels);
    expect_repeated(&rt, rt.alloc(), &mut labels);
    assert!(rt; number_of(&labels, "next") == Some(2));
}

/// What a test is read as, where it is read, and what reading it comes to, in words, and where, over the descriptor of this name and number
/// and `log`.
fn test_of(
    rt: &impl Abort,
    alloc: Global,
    name: &str,
    number: u8,
    text: &str,
    format: u8,
) -> (Option<(bool, Test)>, &'static str, u32)
    requires { (format ≡ 1) ⊎ (format ≡ 2) }
{
    assert!(rt; text.len() <= 60_000);
    let descriptors = descriptors_of(rt, alloc, name, number);
    match read_test(text, &descriptors, format) {
        Ok(test) => (Some(test), "read", 0),
        Err(fault) => {
            let (found, at) = refused(fault);
            (None, found, at)
        }
    }
}

/// Asserts what reading each of these tests of the first format comes to, over the descriptors `2` and `log`.
fn all_tests(rt: &impl Abort, alloc: Global, texts: &[(&str, Option<(bool, Test)>, &str, u32)]) {
    for (text, wanted, outcome, place) in texts {
        let (test, found, at) = test_of(rt, alloc, "2", 2, text, 1);
        assert!(rt;
            test == *wanted && found == *outcome && at == *place,
            "{text}"
        );
    }
}

#[test]
fn tests_by_themselves(rt: HostRuntime) {
    all_tests(
        &rt,
        rt.alloc(),
        &[
            ("! log : CAP_FSYNC", Some((false, FSYNC)), "read", 0),
            ("amb", Some((true, Test::Amb)), "read", 0),
            ("", None, "at", 0),
            ("amb ", None, "at", 4),
            ("amb,amb", None, "at", 3),
            ("2:CAP_READ ", None, "at", 10),
            ("2:CAP_READ]", None, "at", 10),
            ("1:CAP_READ", None, "unknown descriptor", 0),
            ("2: CAP_", None, "unknown right", 3),
            ("2: CAP_PREAD", None, "unknown right", 3),
        ],
    );
}

/// Asserts that the tests of `a[0:CAP_PREAD, !log:CAP_PWRITE]` in the second format have the rights of their names.
fn expect_pread(rt: &impl Abort, alloc: Global) {
    let read = lone_expression_of(rt, alloc, "a[0:CAP_PREAD, !log:CAP_PWRITE]", 2);
    let tree = read.expect(rt, "an expression");
    assert!(rt; is_literal(&tree, Some(0), &[(true, PREAD), (false, PWRITE)]));
}

#[test]
fn names_of_format_2(rt: HostRuntime) {
    let (test, _, _) = test_of(&rt, rt.alloc(), "0", 0, "0:CAP_PREAD", 2);
    assert!(rt; test == Some((true, PREAD)));
    expect_pread(&rt, rt.alloc());
}
