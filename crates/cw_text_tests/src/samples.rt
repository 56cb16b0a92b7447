//! The smallest sample, by its text, and the numbers that have none.

use cw_sample::{SampleFault, make_sample, sample_number};
use std::alloc::Global;
use std::process::Abort;

/// Asserts the policy and the source of a sample.
fn is_made(rt: &impl Abort, alloc: Global, number: u32, policy: &str, source: &str) {
    let Ok(texts) = make_sample(alloc, number) else {
        panic!(rt; "a number without a sample");
    };
    assert!(rt; texts.0.as_slice() == policy.as_bytes(), "the policy");
    assert!(rt; texts.1.as_slice() == source.as_bytes(), "the source");
}

#[test]
fn a_sample_of_two_functions(rt: HostRuntime) {
    is_made(
        &rt,
        rt.alloc(),
        2,
        "format = 1\nsplit = [\"f1\"]\n[[at]]\nlabel = \"w\"\nnever = [\"amb\"]\n[[at]]\nlabel = \"done\"\nmust = [\"amb\"]\n",
        "void f1(int x);\nvoid f2(int x);\nvoid f1(int x){if(x){w:;f2(x);}}\nvoid f2(int x){if(x){w:;f1(x);}}\nint main(void){f1(9);done:;return 0;}\n",
    );
}

/// Asserts that there is no sample of this number.
fn is_out_of_range(rt: &impl Abort, alloc: Global, number: u32) {
    assert!(rt;
        matches!(make_sample(alloc, number), Err(SampleFault::OutOfRange)),
        "{number}"
    );
}

#[test]
fn there_is_no_sample_of_none_or_of_more_than_400(rt: HostRuntime) {
    is_out_of_range(&rt, rt.alloc(), 0);
    is_out_of_range(&rt, rt.alloc(), 401);
}

/// Asserts which number of a sample each of these arguments is, if any.
fn all_arguments(rt: &impl Abort, arguments: &[(&str, Option<u32>)]) {
    for (argument, number) in arguments {
        assert!(rt; sample_number(argument.as_bytes()) == *number, "{argument}");
    }
}

#[test]
fn arguments_that_are_numbers_of_samples(rt: HostRuntime) {
    all_arguments(
        &rt,
        &[
            ("1", Some(1)),
            ("400", Some(400)),
            ("", None),
            ("0", None),
            ("401", None),
            ("01", None),
            ("-1", None),
            ("2 ", None),
            ("x", None),
        ],
    );
}
