// Runs over made stamps.
use crate::tests::{OUTSIDE, Outside, ends, played};
use std::test::Fail;

// The first pull would fail.
const UNREAD: Outside = Outside { pull: 0, ..OUTSIDE };

// Words, how what they write begins and ends, and how many lines it has. The last estimate is at the last
// reply of the file that `make` makes of the same numbers. Four ticks stand between two estimates, and two
// in front. That tick 6 is the farthest is worked out beside the program, over the journal of `ticks`.
const SUMMARIES: [(&str, &str, &str, usize); 6] = [
    (
        "run 7 3",
        "report run number 7 count 3\nsummary accepted 3 refused 0 shifts 0 predicted 0 local 0\nestimate 2 115202720165 ",
        "\nend accepted 3 refused 0 ticks 13 entries 4000\n",
        5,
    ),
    (
        "run 7 3 --ideal",
        "report run number 7 count 3 ideal\nsummary accepted 3 refused 0 shifts 0 predicted 0 local 0\nideal 6 4989548753087090 122955594687817625\nestimate 2 115202720165 ",
        "\nend accepted 3 refused 0 ticks 13 entries 4000\n",
        6,
    ),
    (
        "run 0 1",
        "report run number 0 count 1\nsummary accepted 1 refused 0 shifts 0 predicted 0 local 0\nestimate 0 ",
        "\nend accepted 1 refused 0 ticks 3 entries 4000\n",
        5,
    ),
    (
        "run 4294967295 2",
        "report run number 4294967295 count 2\nsummary accepted 2 refused 0 shifts 0 ",
        "\nend accepted 2 refused 0 ticks 8 entries 4000\n",
        5,
    ),
    (
        "run 7 4096",
        "report run number 7 count 4096\nsummary accepted 4096 refused 0 shifts 1 ",
        "\nend accepted 4096 refused 0 ticks 20478 entries 4000\n",
        5,
    ),
    (
        "run 7 4096 --ideal",
        "report run number 7 count 4096 ideal\nsummary accepted 4096 refused 0 shifts 1 predicted 24 local 4033\nideal 6 4989548753087090 122955594687817625\nestimate 4095 ",
        "\nend accepted 4096 refused 0 ticks 20478 entries 4000\n",
        6,
    ),
];

const NO_RUNS: [&str; 8] = [
    "run",
    "run 7",
    "run 7 0",
    "run 7 4097",
    "run 4294967296 3",
    "run 07 3",
    "run 7 3 3",
    "run 7 --ideal 3",
];

#[test]
fn a_run_tells_the_same_each_time(rt: HostRuntime) -> Result<(), Fail> {
    for (words, start, end, lines) in &SUMMARIES {
        let (status, told) = played(&rt, rt.alloc(), words, "", UNREAD)?;
        assert_eq!(rt; status.code(), 0, "at {words}");
        assert!(rt; told.starts_with(*start), "at {words}");
        assert!(rt; told.ends_with(*end), "at {words}");
        assert_eq!(rt; told.lines().count(), *lines, "at {words}");
        ends(&rt, rt.alloc(), words, "", UNREAD, 0, &told)?;
    }
    Ok(())
}

#[test]
fn other_words_are_no_run(rt: HostRuntime) -> Result<(), Fail> {
    for words in &NO_RUNS {
        ends(&rt, rt.alloc(), words, "", UNREAD, 2, "fault usage\n")?;
    }
    let push = Outside { push: 0, ..UNREAD };
    ends(&rt, rt.alloc(), "run 7 3", "", push, 4, "report run num")
}
