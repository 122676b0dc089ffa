// Replays whose reports are judged line by line.
use crate::tests::judge::{Wrong, first_wrong, is_true_attempt, is_true_tick};
use crate::tests::logs::{Attempt, Came, report_of};
use crate::tests::rows::{HEAD, INPUT, REPLAYS};
use crate::tests::second::SETS;
use crate::tests::{OUTSIDE, PATIENCE, played, played_past};
use rad_io::Gate;
use std::alloc::Global;
use std::process::Abort;
use std::sync::atomic::{AtomicU64, Ordering};
use std::test::Fail;
use std::thread;
use std::thread::Threads;

// What is wrong with a report, by its lines alone.
fn judged(alloc: Global, text: &str) -> Result<Option<Wrong>, Fail> {
    let report = report_of(alloc, text, usize::MAX)?;
    Ok(first_wrong(&report))
}

// A replay is done, with this last line, and what it printed is legal.
fn is_legal<R: Abort + Threads + Sync>(
    rt: &R,
    alloc: Global,
    words: &'static str,
    input: &str,
    end: &str,
) -> Result<(), Fail> {
    let (status, told) = played(rt, alloc, words, input, OUTSIDE)?;
    assert_eq!(rt; status.code(), 0, "at {words}");
    assert!(rt; told.ends_with(end), "at {words}");
    assert_eq!(rt; judged(alloc, &told)?, None, "at {words}: {told}");
    Ok(())
}

#[test]
fn replays_are_legal(rt: HostRuntime) -> Result<(), Fail> {
    for (words, head, end) in &REPLAYS {
        let (_, told) = played(&rt, rt.alloc(), words, INPUT, OUTSIDE)?;
        assert!(rt; told.starts_with(*head), "at {words}");
        is_legal(&rt, rt.alloc(), words, INPUT, end)?;
    }
    Ok(())
}

/// A file of version 2 whose leap second is at a count between its last two estimates.
const LEAPS: &str = "radclock-stamps 2
freq 1000000000
1000000000 1700000000 1700000000 1000100000 1 1
leap 20000000000 1
17000000000 1700000016 1700000016 17000100000 1 0
33000000000 1700000032 1700000032 33000100000 1 0
";

/// The words of a replay of a file of version 2, that file, and the first and the last line that are written.
static SECOND: [(&str, &str, &str, &str); 6] = [
    (
        "replay --utc --lane --readers 2 --reads 600",
        SETS,
        "report replay freq 1000000000 ticks 4 readers 2 reads 600 utc lane version 2\n",
        "\nend accepted 2 refused 0 ticks 13 entries 1200\n",
    ),
    (
        "replay --lane --utc --back --reads 210",
        LEAPS,
        "report replay freq 1000000000 ticks 4 readers 2 reads 210 back utc lane version 2\n",
        "\nend accepted 3 refused 0 ticks 13 entries 420\n",
    ),
    (
        "replay --utc --readers 2 --reads 600",
        SETS,
        "report replay freq 1000000000 ticks 4 readers 2 reads 600 utc version 2\n",
        "\nend accepted 2 refused 0 ticks 13 entries 1200\n",
    ),
    (
        "replay --utc --readers 2 --reads 600",
        LEAPS,
        "report replay freq 1000000000 ticks 4 readers 2 reads 600 utc version 2\n",
        "\nend accepted 3 refused 0 ticks 13 entries 1200\n",
    ),
    (
        "replay --crank --utc --back --reads 210",
        LEAPS,
        "report replay freq 1000000000 ticks 4 readers 2 reads 210 back crank utc version 2\n",
        "\nend accepted 3 refused 0 ticks 13 entries 420\n",
    ),
    (
        "replay --reads 30",
        SETS,
        "report replay freq 1000000000 ticks 4 readers 2 reads 30 version 2\n",
        "\nend accepted 2 refused 0 ticks 13 entries 60\n",
    ),
];

#[test]
fn replays_of_version_2_are_legal(rt: HostRuntime) -> Result<(), Fail> {
    for (words, input, head, end) in &SECOND {
        let (_, told) = played(&rt, rt.alloc(), words, input, OUTSIDE)?;
        assert!(rt; told.starts_with(*head), "at {words}");
        is_legal(&rt, rt.alloc(), words, input, end)?;
    }
    Ok(())
}

/// Command lines for a file of forty stamps, and how often each is run.
static FORTY: [(&str, u32); 4] = [
    (
        "replay --ticks 15 --readers 4 --reads 400 --back --lane",
        20,
    ),
    ("replay --ticks 15 --readers 4 --reads 400 --crank", 20),
    ("replay --ticks 15 --readers 4 --reads 400 --back", 5),
    (
        "replay --ticks 15 --readers 4 --reads 400 --back --crank",
        5,
    ),
];

#[test]
fn replays_of_forty_stamps_are_legal(rt: HostRuntime) -> Result<(), Fail> {
    let (_, forty) = played(&rt, rt.alloc(), "make 7 40", "", OUTSIDE)?;
    let end = "\nend accepted 40 refused 0 ticks 627 entries 1600\n";
    for (words, times) in &FORTY {
        for _ in 0..*times {
            is_legal(&rt, rt.alloc(), words, &forty, end)?;
        }
    }
    Ok(())
}

/// Words without a lane, the same with one, a file, and the first line of the report over the lane.
static LANES: [(&str, &str, &str, &str); 5] = [
    (
        "replay --ticks 1 --readers 0",
        "replay --ticks 1 --readers 0 --lane",
        INPUT,
        "report replay freq 1000000000 ticks 1 readers 0 reads 100 lane\n",
    ),
    (
        "replay --readers 0 --utc",
        "replay --lane --readers 0 --utc",
        SETS,
        "report replay freq 1000000000 ticks 4 readers 0 reads 100 utc lane version 2\n",
    ),
    (
        "replay --ticks 0 --readers 0",
        "replay --ticks 0 --readers 0 --lane",
        LEAPS,
        "report replay freq 1000000000 ticks 0 readers 0 reads 100 lane version 2\n",
    ),
    // With refused stamps, and with no event.
    (
        "replay --readers 0",
        "replay --readers 0 --lane",
        REFUSED,
        "report replay freq 1000000000 ticks 4 readers 0 reads 100 lane\n",
    ),
    (
        "replay --readers 0",
        "replay --readers 0 --lane",
        HEAD,
        "report replay freq 1000000000 ticks 4 readers 0 reads 100 lane\n",
    ),
];

/// A file whose second and fourth stamps are refused.
const REFUSED: &str = "radclock-stamps 1
freq 1000000000
1000000000 1700000000 1700000000 1000100000
1000100000 1700000001 1700000001 1000200000
17000000000 1700000016 1700000016 17000100000
17000000000 1700000017 1700000017 17000200000
";

#[test]
fn a_lane_changes_the_first_line_alone(rt: HostRuntime) -> Result<(), Fail> {
    for (plain, laned, input, head) in &LANES {
        let (_, without) = played(&rt, rt.alloc(), plain, input, OUTSIDE)?;
        let (status, told) = played(&rt, rt.alloc(), laned, input, OUTSIDE)?;
        assert_eq!(rt; status.code(), 0, "at {laned}");
        assert!(rt; told.starts_with(*head), "at {laned}: {told}");
        let same = told.lines().skip(1).eq(without.lines().skip(1));
        assert!(rt; same, "at {laned}: {told}");
    }
    Ok(())
}

// A day of stamps is replayed, and what is printed of it is legal and true.
fn is_replayed<R: Abort + Threads + Sync>(
    rt: &R,
    alloc: Global,
    words: &'static str,
) -> Result<(), Fail> {
    let (_, day) = played(rt, alloc, "make 7 5400", "", OUTSIDE)?;
    let (status, told) = played(rt, alloc, words, &day, OUTSIDE)?;
    assert_eq!(rt; status.code(), 0);
    assert_eq!(rt; told.lines().count(), 36400);
    assert!(rt; told.ends_with("\nend accepted 5400 refused 0 ticks 26998 entries 4000\n"));
    let report = report_of(alloc, &told, usize::MAX)?;
    assert_eq!(rt; report.events.len(), 5400);
    assert_eq!(rt; report.ticks.len(), 26998);
    assert_eq!(rt; first_wrong(&report), None);
    assert!(rt; report.ticks.iter().all(is_true_tick));
    assert!(rt; report.attempts.iter().all(is_true_attempt));
    Ok(())
}

#[test]
fn a_day_is_replayed(rt: HostRuntime) -> Result<(), Fail> {
    is_replayed(&rt, rt.alloc(), "replay --readers 4 --reads 1000")
}

#[test]
fn a_day_is_replayed_over_a_lane(rt: HostRuntime) -> Result<(), Fail> {
    is_replayed(&rt, rt.alloc(), "replay --lane --readers 4 --reads 1000")
}

// Holds the driver before tick 2 until two readers are before their first attempts, these until it is before
// tick 6, and the driver there until each of them has made a hundred attempts.
#[derive(Drop)]
struct Holding {
    // The tick that the driver is before, and how many calls each reader made.
    driver: AtomicU64,
    readers: [AtomicU64; 2],
    missed: AtomicU64,
}

impl Holding {
    fn wait_for(&self, word: &AtomicU64, least: u64) {
        for _ in 0..PATIENCE {
            if word.load(Ordering::SeqCst) >= least {
                return;
            }
            thread::yield_now();
        }
        self.missed.store(1, Ordering::SeqCst);
    }
}

impl Gate for Holding {
    fn between_reads(&self, reader: u32, done: u32) {
        if let Some(calls) = self.readers.get(reader as usize) {
            calls.fetch_add(1, Ordering::SeqCst);
        }
        if done == 0 {
            self.wait_for(&self.driver, 6);
        }
    }

    fn between_ticks(&self, next: u64) {
        self.driver.store(next, Ordering::SeqCst);
        let least = match next {
            2 => 1,
            6 => 101,
            _ => return,
        };
        for calls in &self.readers {
            self.wait_for(calls, least);
        }
    }
}

// Whether an attempt was made while the driver was held, and then is a reading by tick 5.
fn is_held(attempt: &Attempt) -> bool {
    match attempt.came {
        Came::Read { tick, .. } => attempt.number >= 100 || tick == 5,
        Came::Again { .. } | Came::Old { .. } | Came::Ahead { .. } => attempt.number >= 100,
    }
}

#[test]
fn a_cranked_driver_waits_for_its_readers(rt: HostRuntime) -> Result<(), Fail> {
    let gate = Holding {
        driver: AtomicU64::new(0),
        readers: [AtomicU64::new(0), AtomicU64::new(0)],
        missed: AtomicU64::new(0),
    };
    let words = "replay --ticks 4 --readers 2 --reads 400 --crank";
    let (status, told) = played_past(&rt, rt.alloc(), words, INPUT, OUTSIDE, &gate)?;
    assert_eq!(rt; status.code(), 0);
    assert_eq!(rt; gate.missed.load(Ordering::SeqCst), 0);
    assert!(rt; told.ends_with("\nend accepted 2 refused 0 ticks 8 entries 800\n"));
    let report = report_of(rt.alloc(), &told, usize::MAX)?;
    assert_eq!(rt; first_wrong(&report), None, "at {told}");
    assert!(rt; report.attempts.iter().all(is_held), "at {told}");
    Ok(())
}

/// How the log of a reader begins and ends that comes last, by the journal of two stamps with fifteen ticks
/// between them.
const FIRST: &str = "read 0 0 abs 18 17000100000 1700000016+922331527237072 1844711300888148";

const LAST: &str = "read 0 5 back 17 17000100000 1700000016+922309850774144 148497211821755795";

const LOG: [&str; 6] = [
    FIRST,
    "read 0 1 mono 18 17000100000 1700000016+922309850774144 1844711300888148",
    "read 0 2 uptime 18 17000100000 17+1844645344822528 1844711300888148",
    "read 0 3 fast 18 17000100000 1700000016+922331527237072 1844711300888148",
    "read 0 4 diff 18 1000000000 0+18446744073000000000 115294013577402",
    LAST,
];

/// A first line that says nothing of the absolute clock.
const BUSY: &str = "again 0 0 abs 35 35";

/// A first line of the log, another line with its place, and the first attempt that is wrong then.
static CHANGED: [(&str, usize, &str, Option<usize>); 46] = [
    (FIRST, 0, FIRST, None),
    // Another tick, count, time, bound, reader, number or kind.
    (
        FIRST,
        0,
        "read 0 0 abs 17 17000100000 1700000016+922331527237072 1844711300888148",
        Some(0),
    ),
    (
        FIRST,
        0,
        "read 0 0 abs 19 17000100000 1700000016+922331527237072 1844711300888148",
        Some(0),
    ),
    (
        FIRST,
        0,
        "read 0 0 abs 18 17000099999 1700000016+922331527237072 1844711300888148",
        Some(0),
    ),
    (
        FIRST,
        0,
        "read 0 0 abs 18 17000100000 1700000016+922331527237073 1844711300888148",
        Some(0),
    ),
    (
        FIRST,
        0,
        "read 0 0 abs 18 17000100000 1700000016+922331527237072 1844711300888147",
        Some(0),
    ),
    (
        FIRST,
        0,
        "read 1 0 abs 18 17000100000 1700000016+922331527237072 1844711300888148",
        Some(0),
    ),
    (
        FIRST,
        0,
        "read 0 1 abs 18 17000100000 1700000016+922331527237072 1844711300888148",
        Some(0),
    ),
    (
        FIRST,
        0,
        "read 0 0 mono 18 17000100000 1700000016+922309850774144 1844711300888148",
        Some(0),
    ),
    // By the rule, but past the last count.
    (
        FIRST,
        0,
        "read 0 0 abs 18 18000100000 1700000017+922330817685456 1960005314465550",
        Some(0),
    ),
    // At the count of the next tick, and behind it.
    (
        FIRST,
        0,
        "read 0 0 abs 16 16000100000 1700000015+922311560325760 139273839804202539",
        Some(5),
    ),
    (
        FIRST,
        0,
        "read 0 0 abs 15 16000100000 1700000015+922311560325760 139273839804202539",
        Some(0),
    ),
    // Ticks and counts fall.
    (
        FIRST,
        1,
        "read 0 1 mono 17 16000100000 1700000015+922311560325760 139273839804202539",
        Some(1),
    ),
    (
        FIRST,
        1,
        "read 0 1 mono 17 17000100000 1700000016+922309850774144 148497211821755795",
        Some(1),
    ),
    (
        BUSY,
        1,
        "read 0 1 mono 17 16000100000 1700000015+922311560325760 139273839804202539",
        Some(5),
    ),
    (
        FIRST,
        1,
        "read 0 1 mono 18 17000100000 1700000016+922331527237072 1844711300888148",
        Some(1),
    ),
    (
        FIRST,
        2,
        "read 0 2 uptime 18 17000100000 17+1844645344822527 1844711300888148",
        Some(2),
    ),
    (
        FIRST,
        3,
        "read 0 3 fast 18 17000100001 1700000016+922331527237072 1844711300888148",
        Some(3),
    ),
    (
        FIRST,
        3,
        "read 0 3 fast 18 17000100000 1700000016+922309850774144 1844711300888148",
        Some(3),
    ),
    (
        FIRST,
        4,
        "read 0 4 diff 18 1000000001 1+17737192457 115294013692696",
        Some(4),
    ),
    (
        FIRST,
        4,
        "read 0 4 diff 17 1000000000 0+18446744072000000000 9223372017553628",
        Some(4),
    ),
    // A past count is read by the last tick before it, and is that of the latest absolute reading.
    (
        FIRST,
        5,
        "read 0 5 back 18 17000100000 1700000016+922309850774144 1844711300888148",
        Some(5),
    ),
    (FIRST, 5, "read 0 5 back 0 0 0+0 0", Some(5)),
    (BUSY, 5, "read 0 5 back 0 0 0+0 0", None),
    (BUSY, 5, "read 0 5 back 1 0 0+0 0", Some(5)),
    (BUSY, 5, LAST, Some(5)),
    // A turn word that is odd, or rose, up to that of the last tick.
    (BUSY, 5, "again 0 5 back 35 35", None),
    (FIRST, 0, "again 0 0 abs 34 36", Some(5)),
    (FIRST, 0, "again 0 0 abs 34 34", Some(0)),
    (FIRST, 0, "again 0 0 abs 34 33", Some(0)),
    (FIRST, 0, "again 0 0 abs 33 35", Some(0)),
    (FIRST, 0, "again 0 0 abs 37 37", Some(0)),
    (FIRST, 0, "again 0 0 abs 2 22", Some(5)),
    // The mark of a tick, and that of one ten later, or of its writing.
    (FIRST, 3, "again 0 3 fast 2 22", None),
    (FIRST, 3, "again 0 3 fast 18 37", None),
    (FIRST, 3, "again 0 3 fast 2 20", Some(3)),
    (FIRST, 3, "again 0 3 fast 3 23", Some(3)),
    (FIRST, 3, "again 0 3 fast 20 40", Some(3)),
    (FIRST, 3, "again 0 3 fast 0 20", Some(3)),
    (FIRST, 4, "again 0 4 diff 35 35", Some(4)),
    (FIRST, 5, "again 0 5 back 18 38", None),
    // The count of the ninth tick before another, not before the count that was asked for.
    (BUSY, 5, "old 0 5 0 0", None),
    (BUSY, 5, "old 0 5 0 8000100000", None),
    (BUSY, 5, "old 0 5 0 9000100000", Some(5)),
    (FIRST, 5, "old 0 5 17000100000 8000100000", Some(5)),
    (FIRST, 5, "ahead 0 5 17000100000 17000099999", Some(5)),
];

// The front of a report on two stamps, with the log of one reader in which a line is another.
fn with_log(
    alloc: Global,
    front: &str,
    first: &str,
    place: usize,
    line: &str,
) -> Result<String, Fail> {
    let mut text = format!(in alloc;
        "report replay freq 1000000000 ticks 15 readers 1 reads 6 back\n"
    )?;
    for told in front.lines().skip(1) {
        text.push_str(told)?;
        text.push_str("\n")?;
    }
    for (k, good) in LOG.iter().enumerate() {
        let first = if k == 0 { first } else { good };
        text.push_str(if k == place { line } else { first })?;
        text.push_str("\n")?;
    }
    Ok(text)
}

#[test]
fn the_judge_refuses_what_no_reader_may_be_told(rt: HostRuntime) -> Result<(), Fail> {
    let words = "replay --ticks 15 --readers 0";
    let (_, front) = played(&rt, rt.alloc(), words, INPUT, OUTSIDE)?;
    for (first, place, line, wrong) in &CHANGED {
        let text = with_log(rt.alloc(), &front, first, *place, line)?;
        let wrong = wrong.map(Wrong::Attempt);
        assert_eq!(rt; judged(rt.alloc(), &text)?, wrong, "at {first}: {line}");
    }
    Ok(())
}

#[test]
fn the_judge_refuses_other_ticks_and_too_few_lines(rt: HostRuntime) -> Result<(), Fail> {
    let words = "replay --ticks 1 --readers 0";
    let (_, told) = played(&rt, rt.alloc(), words, INPUT, OUTSIDE)?;
    let rows = [
        ("ticks 1 readers 0 reads 100", None),
        ("ticks 1 readers 0 reads 100 crank", None),
        ("ticks 0 readers 0 reads 100", Some(Wrong::Ticks)),
        ("ticks 2 readers 0 reads 100", Some(Wrong::Ticks)),
        ("ticks 1 readers 1 reads 1", Some(Wrong::Many)),
    ];
    for (head, wrong) in rows {
        let mut text = format!(in rt.alloc(); "report replay freq 1000000000 {head}\n")?;
        for line in told.lines().skip(1) {
            text.push_str(line)?;
            text.push_str("\n")?;
        }
        assert_eq!(rt; judged(rt.alloc(), &text)?, wrong, "at {head}");
    }
    Ok(())
}
