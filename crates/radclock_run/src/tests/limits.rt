// The limits of the words and of an input, at their edges and one past them.
use crate::tests::rows::{HEAD, INPUT};
use crate::tests::{OUTSIDE, ends_large, played};
use std::test::Fail;

/// Words at the edges of their ranges, the first line that is printed for two stamps, and how many lines.
static EDGES: [(&str, &str, usize); 20] = [
    (
        "ticks --ticks 0",
        "report ticks freq 1000000000 ticks 0\n",
        6,
    ),
    (
        "ticks --ticks=0",
        "report ticks freq 1000000000 ticks 0\n",
        6,
    ),
    (
        "ticks --ticks 15",
        "report ticks freq 1000000000 ticks 15\n",
        21,
    ),
    (
        "ticks --ticks=15",
        "report ticks freq 1000000000 ticks 15\n",
        21,
    ),
    (
        "replay",
        "report replay freq 1000000000 ticks 4 readers 2 reads 100\n",
        212,
    ),
    (
        "replay --ticks 0",
        "report replay freq 1000000000 ticks 0 readers 2 reads 100\n",
        208,
    ),
    (
        "replay --ticks=15",
        "report replay freq 1000000000 ticks 15 readers 2 reads 100\n",
        223,
    ),
    (
        "replay --readers 0",
        "report replay freq 1000000000 ticks 4 readers 0 reads 100\n",
        12,
    ),
    (
        "replay --readers=0",
        "report replay freq 1000000000 ticks 4 readers 0 reads 100\n",
        12,
    ),
    (
        "replay --readers 16",
        "report replay freq 1000000000 ticks 4 readers 16 reads 100\n",
        1612,
    ),
    (
        "replay --readers=16",
        "report replay freq 1000000000 ticks 4 readers 16 reads 100\n",
        1612,
    ),
    (
        "replay --reads 0",
        "report replay freq 1000000000 ticks 4 readers 2 reads 0\n",
        12,
    ),
    (
        "replay --reads=0",
        "report replay freq 1000000000 ticks 4 readers 2 reads 0\n",
        12,
    ),
    (
        "replay --reads 16384",
        "report replay freq 1000000000 ticks 4 readers 2 reads 16384\n",
        32780,
    ),
    (
        "replay --back",
        "report replay freq 1000000000 ticks 4 readers 2 reads 100 back\n",
        212,
    ),
    (
        "replay --crank",
        "report replay freq 1000000000 ticks 4 readers 2 reads 100 crank\n",
        212,
    ),
    (
        "replay --crank --reads=16384 --back --readers 16 --ticks=15",
        "report replay freq 1000000000 ticks 15 readers 16 reads 16384 back crank\n",
        262167,
    ),
    ("make 0 1", "radclock-stamps 1\n", 3),
    ("make 4294967295 1", "radclock-stamps 1\n", 3),
    ("make 7 16384", "radclock-stamps 1\n", 16386),
];

#[test]
fn words_at_the_edges_are_lines(rt: HostRuntime) -> Result<(), Fail> {
    for (words, head, lines) in &EDGES {
        let (status, told) = played(&rt, rt.alloc(), words, INPUT, OUTSIDE)?;
        assert_eq!(rt; status.code(), 0, "at {words}");
        assert!(rt; told.starts_with(*head), "at {words}");
        assert_eq!(rt; told.lines().count(), *lines, "at {words}");
    }
    Ok(())
}

/// The words, the last line of a file whose stamps fill both limits before it, the exit status and how what
/// is written ends.
static FULL: [(&str, &str, u8, &str); 4] = [
    (
        "ticks",
        "",
        0,
        "end accepted 16384 refused 49152 ticks 81918\n",
    ),
    (
        "replay --readers 0",
        "",
        0,
        "end accepted 16384 refused 49152 ticks 81918 entries 0\n",
    ),
    (
        "ticks",
        "16384000000000 16384 16384 16384000100000\n",
        6,
        "fault large stamps\n",
    ),
    (
        "replay --readers 0",
        "16384000000000 16384 16384 16384000100000\n",
        6,
        "fault large stamps\n",
    ),
];

#[test]
fn both_limits_on_stamps_are_filled(rt: HostRuntime) -> Result<(), Fail> {
    let mut full = format!(in rt.alloc(); "{HEAD}")?;
    for i in 0..16384_u64 {
        let ta = i * 1_000_000_000;
        let tf = ta + 100_000;
        let line = format!(in rt.alloc(); "{ta} {i} {i} {tf}\n")?;
        full.push_str(&line)?;
    }
    let refused = "1 5 5 9\n".repeat(rt.alloc(), 49152)?;
    full.push_str(&refused)?;
    for (words, last, code, end) in &FULL {
        let input = format!(in rt.alloc(); "{full}{last}")?;
        ends_large(&rt, rt.alloc(), words, &input, *code, end)?;
    }
    Ok(())
}
