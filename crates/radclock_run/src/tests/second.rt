// Files of version 2: what is told of them, which items are refused, their limits, and each pull and push that fails.
use crate::tests::rows::{HEAD, READING};
use crate::tests::{OUTSIDE, Outside, ends, ends_large, played};
use std::test::Fail;

const SECOND_HEAD: &str = "radclock-stamps 2\nfreq 1000000000\n";

/// A file of version 2: a leap second that is announced and taken, and a set.
pub const SETS: &str = "radclock-stamps 2
freq 1000000000
1000000000 1700000000 1700000000 1000100000 1 1
leap 20000000000 1
17000000000 1700000016 1700000016 17000100000 1 0
set 18000000000 1800000000
";

const SETS_REPORT: &str = "report stamps freq 1000000000 version 2
stamp 0 1000000000 1700000000+0 1700000000+0 1000100000 100000 1 1
leap 20000000000 1
stamp 1 17000000000 1700000016+0 1700000016+0 17000100000 100000 1 0
set 18000000000 1800000000+0
end accepted 2 refused 0
";

const SETS_BASES: &str = "report rtt freq 1000000000 version 2
base 0 100000 100000 0 0
leap 20000000000 1
base 1 100000 100000 0 0
set 18000000000 1800000000+0
end accepted 2 refused 0
";

const SETS_ESTIMATES: &str = "report estimate freq 1000000000 version 2
estimate 0 1000100000 1700000000+922337203600000 18446744072 50050 499999999 W 923259540800001 18437520700 18455967444 --- 0 0 0
leap 20000000000 1
estimate 1 17000100000 1700000016+922331527237072 18446744073 100002 6250101 W 1844700733050001 18446628782 18446859367 --- 20000000000 0 1
set 18000000000 1800000000+0
end accepted 2 refused 0
";

// The set resets the clock behind the last estimate, and nothing is claimed of its time.
const SETS_TICKS: &str = "report ticks freq 1000000000 ticks 0 version 2
tick 0 cold 0 0+0 0+0 0 0+0 U 0+0 0 0 0 0 U 0 0 0
tick 1 reset 0 0+0 0+0 18446744072 0+0 U 0+0 0 18446744072 0 0 U 0 0 0
tick 2 jump 1000100000 1700000000+922337203600000 1700000000+922337203600000 18446744072 1699999998+18445821738215503232 W 1700000000+922337203600000 1000100000 18446744072 50050 499999999 W 0 0 0
tick 3 take 17000100000 1700000016+922331527237072 1700000016+922309850774144 18446744074 1699999998+18445821738215503232 W 1700000016+922331527237072 17000100000 18446744073 100002 6250101 W 20000000000 0 1
tick 4 reset 18000000000 1800000000+0 1800000000+0 18446744072 1800000000+0 U 1800000000+0 18000000000 18446744072 0 0 U 0 0 0
end accepted 2 refused 0 ticks 5
";

const UNANNOUNCED: &str = "report stamps freq 1000000000 version 2
stamp 0 1000000000 1700000000+0 1700000000+0 1000100000 100000 1 1
refused 4 leap-unannounced
end accepted 1 refused 1
";

/// The words, two parts of an input, the exit status and what is written.
static ROWS: [(&str, &str, &str, u8, &str); 22] = [
    ("stamps", SETS, "", 0, SETS_REPORT),
    ("rtt", SETS, "", 0, SETS_BASES),
    ("estimate", SETS, "", 0, SETS_ESTIMATES),
    ("ticks --ticks 0", SETS, "", 0, SETS_TICKS),
    (
        "stamps",
        SECOND_HEAD,
        "1000000000 1700000000 1700000000 1000100000 1 1\nleap 20000000000 -1",
        0,
        UNANNOUNCED,
    ),
    (
        "stamps",
        SECOND_HEAD,
        "set 5\n",
        1,
        "fault input 3 columns\n",
    ),
    (
        "stamps",
        SECOND_HEAD,
        "set 5 5 5\n",
        1,
        "fault input 3 columns\n",
    ),
    (
        "stamps",
        SECOND_HEAD,
        "leap 5\n",
        1,
        "fault input 3 columns\n",
    ),
    (
        "stamps",
        SECOND_HEAD,
        "1000000000 1700000000 1700000000 1000100000\n",
        1,
        "fault input 3 columns\n",
    ),
    (
        "stamps",
        SECOND_HEAD,
        "set  5\n",
        1,
        "fault input 3 columns\n",
    ),
    (
        "stamps",
        SECOND_HEAD,
        "set x 5\n",
        1,
        "fault input 3 digits\n",
    ),
    (
        "stamps",
        SECOND_HEAD,
        "set 5 .5\n",
        1,
        "fault input 3 digits\n",
    ),
    (
        "stamps",
        SECOND_HEAD,
        "leap 5 2\n",
        1,
        "fault input 3 digits\n",
    ),
    (
        "stamps",
        SECOND_HEAD,
        "leap 5 +1\n",
        1,
        "fault input 3 digits\n",
    ),
    (
        "stamps",
        SECOND_HEAD,
        "1 5 5 9 x 0\n",
        1,
        "fault input 3 digits\n",
    ),
    (
        "stamps",
        SECOND_HEAD,
        "Set 5 5\n",
        1,
        "fault input 3 columns\n",
    ),
    (
        "stamps",
        SECOND_HEAD,
        "set 4611686018427387904 5\n",
        1,
        "fault input 3 range\n",
    ),
    (
        "stamps",
        SECOND_HEAD,
        "set 5 4294967296\n",
        1,
        "fault input 3 range\n",
    ),
    (
        "stamps",
        SECOND_HEAD,
        "leap 4611686018427387904 1\n",
        1,
        "fault input 3 range\n",
    ),
    (
        "stamps",
        SECOND_HEAD,
        "1 5 5 9 256 0\n",
        1,
        "fault input 3 range\n",
    ),
    (
        "stamps",
        SECOND_HEAD,
        "1 5 5 9 1 4\n",
        1,
        "fault input 3 range\n",
    ),
    ("stamps", HEAD, "set 5 5\n", 1, "fault input 3 columns\n"),
];

#[test]
fn files_of_version_2_end_as_their_rows_say(rt: HostRuntime) -> Result<(), Fail> {
    for (words, start, rest, code, text) in &ROWS {
        let input = format!(in rt.alloc(); "{start}{rest}")?;
        ends(&rt, rt.alloc(), words, &input, OUTSIDE, *code, text)?;
        let bytes = Outside { step: 1, ..OUTSIDE };
        ends(&rt, rt.alloc(), words, &input, bytes, *code, text)?;
        if *code == 1 {
            for words in &READING {
                ends(&rt, rt.alloc(), words, &input, OUTSIDE, 1, text)?;
            }
        }
    }
    Ok(())
}

/// A seventh line of the file, and why its item is refused.
static REFUSED: [(&str, &str); 9] = [
    (
        "17500000000 1700000017 1700000017 18500000000 1 0",
        "before-set",
    ),
    (
        "18000000000 1700000017 1700000017 18500000000 1 0",
        "before-set",
    ),
    ("set 18000000000 5", "set-old"),
    ("leap 17000100000 1", "leap-old"),
    ("leap 21000000000 1", "leap-pending"),
    (
        "19000000000 1700000018 1700000018 19000100000 16 0",
        "unsynchronised",
    ),
    (
        "19000000000 1700000018 1700000018 19000100000 0 0",
        "unsynchronised",
    ),
    (
        "19000000000 1700000018 1700000018 19000100000 1 3",
        "unsynchronised",
    ),
    // The older tests come first: the request is not behind the last reply, nor behind the set.
    (
        "17000100000 1700000016 1700000016 17000099999 16 3",
        "backward",
    ),
];

#[test]
fn items_are_refused_by_the_first_test(rt: HostRuntime) -> Result<(), Fail> {
    for (line, name) in &REFUSED {
        let input = format!(in rt.alloc(); "{SETS}{line}\n")?;
        let end = format!(in rt.alloc(); "refused 7 {name}\nend accepted 2 refused 1\n")?;
        for words in ["stamps", "rtt", "estimate"] {
            let (status, told) = played(&rt, rt.alloc(), words, &input, OUTSIDE)?;
            assert_eq!(rt; status.code(), 0, "at {words}: {line}");
            assert!(rt; told.ends_with(end.as_str()), "at {words}: {line}");
        }
    }
    Ok(())
}

/// The words, what stands behind 16,384 sets that are accepted, the exit status, and how what is written ends.
static FULL: [(&str, &str, u8, &str); 4] = [
    (
        "ticks --ticks 0",
        "set 0 5\nleap 5 1\n",
        0,
        "end accepted 0 refused 2 ticks 16386\n",
    ),
    (
        "ticks --ticks 0",
        "set 16384 5\n",
        6,
        "fault large accepted\n",
    ),
    (
        "replay --readers 0",
        "16384000000000 16384 16384 16384000100000 1 0\n",
        6,
        "fault large accepted\n",
    ),
    (
        "stamps",
        "set 16384 5\n",
        0,
        "set 16384 5+0\nend accepted 0 refused 0\n",
    ),
];

#[test]
fn sets_fill_both_limits(rt: HostRuntime) -> Result<(), Fail> {
    let mut full = format!(in rt.alloc(); "{SECOND_HEAD}")?;
    for i in 0..16384_u64 {
        let line = format!(in rt.alloc(); "set {i} 5\n")?;
        full.push_str(&line)?;
    }
    for (words, last, code, end) in &FULL {
        let input = format!(in rt.alloc(); "{full}{last}")?;
        ends_large(&rt, rt.alloc(), words, &input, *code, end)?;
    }
    let refused = "leap 5 1\n".repeat(rt.alloc(), 49152)?;
    let input = format!(in rt.alloc(); "{full}{refused}")?;
    ends_large(
        &rt,
        rt.alloc(),
        "ticks --ticks 0",
        &input,
        0,
        "end accepted 0 refused 49152 ticks 16386\n",
    )?;
    let input = format!(in rt.alloc(); "{full}{refused}set 16384 5\n")?;
    ends_large(
        &rt,
        rt.alloc(),
        "ticks --ticks 0",
        &input,
        6,
        "fault large stamps\n",
    )
}

/// Command lines that read, and print the same at each run.
static COMMANDS: [&str; 5] = [
    "stamps",
    "rtt",
    "estimate",
    "ticks --ticks 1",
    "replay --ticks 1 --readers 0",
];

#[test]
fn each_pull_and_push_of_a_file_with_sets_fails_in_turn(rt: HostRuntime) -> Result<(), Fail> {
    for words in &COMMANDS {
        let (status, due) = played(&rt, rt.alloc(), words, SETS, OUTSIDE)?;
        assert_eq!(rt; status.code(), 0, "at {words}");
        // The file has 178 bytes: six pulls give them.
        for pull in 0..7_u64 {
            let outside = Outside {
                step: 32,
                pull,
                ..OUTSIDE
            };
            let taken = pull.saturating_mul(32).min(SETS.len() as u64);
            let text = format!(in rt.alloc(); "fault read {taken}\n")?;
            ends(&rt, rt.alloc(), words, SETS, outside, 3, &text)?;
        }
        for (k, _) in due.lines().enumerate() {
            let outside = Outside {
                push: k as u64,
                ..OUTSIDE
            };
            let (status, told) = played(&rt, rt.alloc(), words, SETS, outside)?;
            assert_eq!(rt; status.code(), 4, "at {words}: {k}");
            assert!(rt; due.starts_with(told.as_str()), "at {words}: {k}");
            assert!(rt; told.len() < due.len(), "at {words}: {k}");
        }
    }
    Ok(())
}
