//! Whole runs of `sample`, and arguments that are no number of a sample.
use crate::given::all_end;

const USAGE: &str = "usage: capweave sample N\n";

#[test]
fn weaves_a_sample_and_tells_its_numbers(rt: HostRuntime) {
    all_end(
        &rt,
        rt.alloc(),
        &[
            (
                &["sample", "1"],
                &[],
                0,
                "sample 1\npoints 12\npositions 30\nstates 4\ncontexts 4\ncells 240\nrows 46\nwoven\n",
                "",
            ),
            (
                &["sample", "20"],
                &[],
                0,
                "sample 20\npoints 126\npositions 258\nstates 4\ncontexts 61\ncells 2976\nrows 312\nwoven\n",
                "",
            ),
        ],
    );
}

#[test]
fn arguments_that_are_no_number_of_a_sample(rt: HostRuntime) {
    all_end(
        &rt,
        rt.alloc(),
        &[
            (&["sample", "0"], &[], 2, "", USAGE),
            (&["sample", "401"], &[], 2, "", USAGE),
            (&["sample", "01"], &[], 2, "", USAGE),
            (&["sample", "+1"], &[], 2, "", USAGE),
            (&["sample", "-1"], &[], 2, "", USAGE),
            (&["sample", "1 2"], &[], 2, "", USAGE),
            (&["sample", "x"], &[], 2, "", USAGE),
            (&["sample", ""], &[], 2, "", USAGE),
            (&["sample"], &[], 2, "", USAGE),
            (&["sample", "1", "2"], &[], 2, "", USAGE),
        ],
    );
}
