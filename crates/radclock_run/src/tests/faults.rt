// Each pull and each push of a run fails in turn.
use crate::tests::judge::wrong_attempt;
use crate::tests::logs::report_of;
use crate::tests::rows::{HEAD, INPUT};
use crate::tests::{OUTSIDE, Outside, ends, played};
use std::alloc::Global;
use std::process::Abort;
use std::test::Fail;
use std::thread::Threads;

/// Command lines that print the same at each run, and whether they read the input.
static COMMANDS: [(&str, bool); 11] = [
    ("stamps", true),
    ("rtt", true),
    ("estimate", true),
    ("ticks --ticks 1", true),
    ("ticks --ticks 1 --timers 3", true),
    ("replay --ticks 1 --readers 0", true),
    ("replay --ticks 1 --readers 0 --lane", true),
    ("replay --readers 16 --reads 0 --back", true),
    ("make 7 3", false),
    ("run 7 3", false),
    ("run 7 3 --ideal", false),
];

// A run whose pulls give 32 bytes, of which one fails.
fn fails_at_pull<R: Abort + Threads + Sync>(
    rt: &R,
    alloc: Global,
    words: &'static str,
    pull: u64,
) -> Result<(), Fail> {
    let outside = Outside {
        step: 32,
        pull,
        ..OUTSIDE
    };
    let taken = pull.saturating_mul(32).min(124);
    let text = format!(in alloc; "fault read {taken}\n")?;
    ends(rt, alloc, words, INPUT, outside, 3, &text)?;
    // The fault's own push fails.
    let outside = Outside { push: 0, ..outside };
    let (status, told) = played(rt, alloc, words, INPUT, outside)?;
    assert_eq!(rt; status.code(), 4, "at {words}: {pull}");
    assert!(rt; text.starts_with(told.as_str()), "at {words}: {pull}");
    assert_eq!(rt; told.len(), text.len() / 2, "at {words}: {pull}");
    Ok(())
}

#[test]
fn each_pull_fails_in_turn(rt: HostRuntime) -> Result<(), Fail> {
    for (words, reads) in &COMMANDS {
        // The input has 124 bytes: four pulls give them, and the next one finds the end.
        for pull in 0..5 {
            if *reads {
                fails_at_pull(&rt, rt.alloc(), words, pull)?;
            }
        }
        let (_, due) = played(&rt, rt.alloc(), words, INPUT, OUTSIDE)?;
        let outside = Outside {
            step: 32,
            pull: if *reads { 5 } else { 0 },
            ..OUTSIDE
        };
        ends(&rt, rt.alloc(), words, INPUT, outside, 0, &due)?;
    }
    Ok(())
}

#[test]
fn an_input_comes_in_pieces_of_4096_bytes(rt: HostRuntime) -> Result<(), Fail> {
    let comments = "#\n".repeat(rt.alloc(), 3000)?;
    let input = format!(in rt.alloc(); "{HEAD}{comments}")?;
    let outside = Outside {
        step: 100_000,
        pull: 1,
        ..OUTSIDE
    };
    ends(
        &rt,
        rt.alloc(),
        "stamps",
        &input,
        outside,
        3,
        "fault read 4096\n",
    )
}

#[test]
fn each_push_fails_in_turn(rt: HostRuntime) -> Result<(), Fail> {
    for (words, _) in &COMMANDS {
        let (status, due) = played(&rt, rt.alloc(), words, INPUT, OUTSIDE)?;
        assert_eq!(rt; status.code(), 0, "at {words}");
        let mut before = 0_usize;
        for (k, line) in due.lines().enumerate() {
            let push = k as u64;
            let outside = Outside { push, ..OUTSIDE };
            let (status, told) = played(&rt, rt.alloc(), words, INPUT, outside)?;
            assert_eq!(rt; status.code(), 4, "at {words}: {push}");
            // The lines before, and half of this one with its line feed: nothing came after it.
            let bytes = line.len().saturating_add(1);
            assert_eq!(rt;
                told.len(),
                before.saturating_add(bytes / 2),
                "at {words}: {push}"
            );
            assert!(rt; due.starts_with(told.as_str()), "at {words}: {push}");
            before = before.saturating_add(bytes);
        }
        assert_eq!(rt; before, due.len(), "at {words}");
    }
    Ok(())
}

// So many lines from the front of a text.
fn front_of(alloc: Global, text: &str, lines: usize) -> Result<String, Fail> {
    let mut front = format!(in alloc; "")?;
    for line in text.lines().take(lines) {
        front.push_str(line)?;
        front.push_str("\n")?;
    }
    Ok(front)
}

#[test]
fn each_push_of_a_replay_with_readers_fails_in_turn(rt: HostRuntime) -> Result<(), Fail> {
    let words = "replay --ticks 1 --readers 2 --reads 6 --back";
    let (_, due) = played(&rt, rt.alloc(), words, INPUT, OUTSIDE)?;
    // A first line, two estimates, five ticks, twelve attempts and a last line.
    assert_eq!(rt; due.lines().count(), 21);
    for lines in 1..21_usize {
        let outside = Outside {
            push: lines as u64,
            ..OUTSIDE
        };
        let (status, told) = played(&rt, rt.alloc(), words, INPUT, outside)?;
        assert_eq!(rt; status.code(), 4, "at {lines}");
        let front = front_of(rt.alloc(), &due, lines.min(8))?;
        assert!(rt; told.starts_with(front.as_str()), "at {lines}");
        // Behind the whole lines there is half of one.
        assert_eq!(rt; told.lines().count(), lines.saturating_add(1), "at {lines}");
        assert!(rt; !told.ends_with("\n"), "at {lines}");
        let report = report_of(rt.alloc(), &told, lines)?;
        assert_eq!(rt;
            report.attempts.len(),
            lines.saturating_sub(8),
            "at {lines}"
        );
        assert!(rt; lines < 8 || wrong_attempt(&report).is_none(), "at {told}");
    }
    Ok(())
}
