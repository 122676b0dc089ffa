// Examples of whole runs, with answers from the rules of the stamp file and of the report.
mod captured;
mod faults;
mod judge;
mod large;
mod limits;
mod logs;
mod meetings;
mod ran;
mod replays;
mod rows;
mod second;
mod timers;

use crate::program::program;
use crate::run::run;
use crate::tests::judge::first_wrong;
use crate::tests::large::{NUMBERED, REPEATED};
use crate::tests::logs::{Attempt, Came, report_of};
use crate::tests::rows::{
    HEAD, INPUT, LONG_LINES, NEVER, OTHER_WORDS, PULLS, PUSHES, READING, ROOM, RUNS,
};
use crate::{Status, run_in_blocks};
use rad_io::{Gate, MemSink, MemSource, OpenGate, StdSink, StdSource};
use std::alloc::Global;
use std::io::Write;
use std::process::{Abort, ExitCode};
use std::sync::atomic::{AtomicU64, Ordering};
use std::test::Fail;
use std::thread::Threads;
use std::{io, thread};
use tick_desk::Desk;

// How the input comes and the output goes: the most bytes of a pull and the number of the pull that
// fails, the room for the output and the number of the push that fails.
#[derive(Clone, Copy)]
struct Outside {
    step: usize,
    pull: u64,
    room: usize,
    push: u64,
}

// Where nothing fails.
const OUTSIDE: Outside = Outside {
    step: 4096,
    pull: NEVER,
    room: ROOM,
    push: NEVER,
};

// The words of a line, each parted from the next by one space. An empty line has none.
fn words_of(alloc: Global, line: &'static str) -> Result<Vec<&'static str>, Fail> {
    let mut words = Vec::new(alloc);
    let mut rest = line;
    for _ in 0..line.len() {
        match rest.split_once(' ') {
            Some((word, more)) => {
                words.push(word)?;
                rest = more;
            }
            None => break,
        }
    }
    if !line.is_empty() {
        words.push(rest)?;
    }
    Ok(words)
}

// Runs the words on bytes, with a new desk and a gate. Answers the status and what is written.
fn played_on<R: Threads + Sync, G: Gate>(
    rt: &R,
    alloc: Global,
    words: &'static str,
    input: &[u8],
    outside: Outside,
    gate: &G,
) -> Result<(Status, String), Fail> {
    let bytes = Vec::from_slice(alloc, input)?;
    let pulls = Vec::from_slice(alloc, &[outside.pull])?;
    let pushes = Vec::from_slice(alloc, &[outside.push])?;
    let mut source = MemSource::new(bytes, outside.step.max(1), pulls);
    let mut sink = MemSink::new(alloc, outside.room, pushes)?;
    let words = words_of(alloc, words)?;
    let mut desk = Desk::start(alloc)?;
    let status = run(rt, alloc, &words, &mut source, &mut sink, &mut desk, gate);
    Ok((status, String::from_utf8_lossy(alloc, sink.written())?))
}

// The same on a text.
fn played_past<R: Threads + Sync, G: Gate>(
    rt: &R,
    alloc: Global,
    words: &'static str,
    input: &str,
    outside: Outside,
    gate: &G,
) -> Result<(Status, String), Fail> {
    played_on(rt, alloc, words, input.as_bytes(), outside, gate)
}

// The same with a gate that holds nobody.
fn played<R: Threads + Sync>(
    rt: &R,
    alloc: Global,
    words: &'static str,
    input: &str,
    outside: Outside,
) -> Result<(Status, String), Fail> {
    played_past(rt, alloc, words, input, outside, &OpenGate)
}

// The exit status of a run and what it is to write.
fn ends<R: Abort + Threads + Sync>(
    rt: &R,
    alloc: Global,
    words: &'static str,
    input: &str,
    outside: Outside,
    code: u8,
    text: &str,
) -> Result<(), Fail> {
    let (status, told) = played(rt, alloc, words, input, outside)?;
    assert_eq!(rt; status.code(), code, "at {words}: {input}");
    assert_eq!(rt; told.as_str(), text, "at {words}: {input}");
    Ok(())
}

#[test]
fn runs_end_as_their_rows_say(rt: HostRuntime) -> Result<(), Fail> {
    for (words, start, rest, code, text) in &RUNS {
        let input = format!(in rt.alloc(); "{start}{rest}")?;
        for step in [1, 32, 4096] {
            ends(
                &rt,
                rt.alloc(),
                words,
                &input,
                Outside { step, ..OUTSIDE },
                *code,
                text,
            )?;
        }
        if *code == 1 {
            for words in &READING {
                ends(&rt, rt.alloc(), words, &input, OUTSIDE, 1, text)?;
            }
        }
    }
    for (start, letter, count, rest, text) in &LONG_LINES {
        let letters = letter.repeat(rt.alloc(), *count)?;
        let input = format!(in rt.alloc(); "{start}{letters}{rest}")?;
        for words in &READING {
            ends(&rt, rt.alloc(), words, &input, OUTSIDE, 1, text)?;
        }
    }
    Ok(())
}

#[test]
fn faults_end_a_run(rt: HostRuntime) -> Result<(), Fail> {
    for (words, input, step, pull, code, text) in &PULLS {
        let outside = Outside {
            step: *step,
            pull: *pull,
            ..OUTSIDE
        };
        ends(&rt, rt.alloc(), words, input, outside, *code, text)?;
    }
    for (words, input, room, push, code, text) in &PUSHES {
        let outside = Outside {
            room: *room,
            push: *push,
            ..OUTSIDE
        };
        ends(&rt, rt.alloc(), words, input, outside, *code, text)?;
    }
    for words in &OTHER_WORDS {
        // No pull is made, else the first one would fail.
        let pull = Outside { pull: 0, ..OUTSIDE };
        ends(&rt, rt.alloc(), words, "", pull, 2, "fault usage\n")?;
        ends(
            &rt,
            rt.alloc(),
            words,
            "",
            Outside { push: 0, ..pull },
            4,
            "fault ",
        )?;
    }
    Ok(())
}

// A run on a large input, and how what it writes ends.
fn ends_large<R: Abort + Threads + Sync>(
    rt: &R,
    alloc: Global,
    words: &'static str,
    input: &str,
    code: u8,
    end: &str,
) -> Result<(), Fail> {
    let (status, told) = played(rt, alloc, words, input, OUTSIDE)?;
    assert_eq!(rt; status.code(), code, "at {words}: {end}");
    assert!(rt; told.ends_with(end), "at {words}: {end}");
    assert_eq!(rt; told.len() == end.len(), code != 0, "at {words}: {end}");
    Ok(())
}

#[test]
fn lines_and_bytes_have_limits(rt: HostRuntime) -> Result<(), Fail> {
    for (line, times, rest, code, end, many) in &REPEATED {
        let lines = line.repeat(rt.alloc(), *times)?;
        let input = format!(in rt.alloc(); "{HEAD}{lines}{rest}")?;
        for words in READING.iter().take(*many) {
            ends_large(&rt, rt.alloc(), words, &input, *code, end)?;
        }
    }
    Ok(())
}

#[test]
fn many_stamps_are_told(rt: HostRuntime) -> Result<(), Fail> {
    for (words, parts, rest, code, end) in &NUMBERED {
        let mut input = format!(in rt.alloc(); "{HEAD}")?;
        let mut from = 0;
        for (to, trip, more) in parts {
            for i in from..*to {
                let ta = u64::from(i) * 1_000_000_000;
                let longer = u64::from(*more) * u64::from(i);
                let tf = (ta + u64::from(*trip)).saturating_add(longer);
                let line = format!(in rt.alloc(); "{ta} {i} {i} {tf}\n")?;
                input.push_str(&line)?;
            }
            from = *to;
        }
        input.push_str(rest)?;
        ends_large(&rt, rt.alloc(), words, &input, *code, end)?;
    }
    Ok(())
}

// A writer that takes so many writes whole and fails each other one. It counts all.
#[derive(Drop)]
struct Halting {
    left: u32,
    writes: u32,
}

impl Write for Halting {
    fn write(&mut self, buf: &[u8]) -> io::Result<usize> {
        self.writes = self.writes.saturating_add(1);
        if self.left == 0 {
            return Err(io::Error::from(io::ErrorKind::BrokenPipe));
        }
        self.left -= 1;
        Ok(buf.len())
    }

    fn flush(&mut self) -> io::Result<()> {
        Ok(())
    }
}

#[test]
fn no_write_follows_one_that_failed(rt: HostRuntime) -> Result<(), Fail> {
    // 1,500 lines of 60 to 80 bytes make two blocks.
    let rows = [
        ("make 7 3", 9, 0, 1),
        ("make 7 3", 0, 4, 1),
        ("make 7 1500", 9, 0, 2),
        ("make 7 1500", 1, 4, 2),
        ("make 7 1500", 0, 4, 1),
    ];
    for (line, left, code, writes) in rows {
        let words = words_of(rt.alloc(), line)?;
        let mut source = StdSource::new(b"".as_slice());
        let mut writer = Halting { left, writes: 0 };
        let sink = StdSink::new(&mut writer);
        let mut desk = Desk::start(rt.alloc())?;
        let (status, _) = run_in_blocks(
            &rt,
            rt.alloc(),
            &words,
            &mut source,
            sink,
            &mut desk,
            &OpenGate,
        );
        assert_eq!(rt; status?.code(), code, "at {line}: {left}");
        assert_eq!(rt; writer.writes, writes, "at {line}: {left}");
    }
    Ok(())
}

/// How long a thread waits at most, in turns.
const PATIENCE: u64 = 100_000_000;

// Holds reader 1 before its first attempt until the driver is about to publish some tick, and the driver there
// until that reader has come. Each notes 1 where it came, and 2 where the other one did too.
#[derive(Drop)]
struct Meeting {
    tick: u64,
    reader: AtomicU64,
    driver: AtomicU64,
}

impl Meeting {
    fn new(tick: u64) -> Meeting {
        Meeting {
            tick,
            reader: AtomicU64::new(0),
            driver: AtomicU64::new(0),
        }
    }
}

fn meet(own: &AtomicU64, other: &AtomicU64) {
    own.store(1, Ordering::SeqCst);
    for _ in 0..PATIENCE {
        if other.load(Ordering::SeqCst) != 0 {
            own.store(2, Ordering::SeqCst);
            return;
        }
        thread::yield_now();
    }
}

impl Gate for Meeting {
    fn between_reads(&self, reader: u32, done: u32) {
        if reader == 1 && done == 0 {
            meet(&self.reader, &self.driver);
        }
    }

    fn between_ticks(&self, next: u64) {
        if next == self.tick {
            meet(&self.driver, &self.reader);
        }
    }
}

// Whether an attempt is one of reader 0, or was made when the driver had published tick 3.
fn is_met(attempt: &Attempt) -> bool {
    match attempt.came {
        Came::Read { tick, .. } => attempt.reader == 0 || tick >= 3,
        Came::Again { .. } | Came::Old { .. } | Came::Ahead { .. } => true,
    }
}

#[test]
fn a_reader_and_the_driver_of_a_replay_meet(rt: HostRuntime) -> Result<(), Fail> {
    let gate = Meeting::new(4);
    let words = "replay --ticks 4 --readers 2 --reads 4";
    let (status, told) = played_past(&rt, rt.alloc(), words, INPUT, OUTSIDE, &gate)?;
    assert_eq!(rt; status.code(), 0);
    assert_eq!(rt; gate.reader.load(Ordering::SeqCst), 2);
    assert_eq!(rt; gate.driver.load(Ordering::SeqCst), 2);
    assert!(rt; told.ends_with("\nend accepted 2 refused 0 ticks 8 entries 8\n"));
    let report = report_of(rt.alloc(), &told, usize::MAX)?;
    assert_eq!(rt; first_wrong(&report), None, "at {told}");
    assert!(rt; report.attempts.iter().all(is_met), "at {told}");
    Ok(())
}

#[test]
fn a_reader_and_the_driver_of_a_replay_over_a_lane_meet(rt: HostRuntime) -> Result<(), Fail> {
    // No event has to have come for tick 1.
    let gate = Meeting::new(1);
    let words = "replay --ticks 4 --readers 2 --reads 4 --lane";
    let (status, told) = played_past(&rt, rt.alloc(), words, INPUT, OUTSIDE, &gate)?;
    assert_eq!(rt; status.code(), 0);
    assert_eq!(rt; gate.reader.load(Ordering::SeqCst), 2);
    assert_eq!(rt; gate.driver.load(Ordering::SeqCst), 2);
    let report = report_of(rt.alloc(), &told, usize::MAX)?;
    assert!(rt; report.asked.lane);
    assert_eq!(rt; first_wrong(&report), None, "at {told}");
    Ok(())
}

#[test]
fn a_reader_and_the_driver_of_a_run_over_made_stamps_meet(rt: HostRuntime) -> Result<(), Fail> {
    let gate = Meeting::new(4);
    let (status, _) = played_past(&rt, rt.alloc(), "run 7 3", "", OUTSIDE, &gate)?;
    assert_eq!(rt; status.code(), 0);
    assert_eq!(rt; gate.reader.load(Ordering::SeqCst), 2);
    assert_eq!(rt; gate.driver.load(Ordering::SeqCst), 2);
    Ok(())
}

#[test]
fn words_that_are_not_text_are_no_line(rt: HostRuntime) -> Result<(), Fail> {
    let mut source = MemSource::new(Vec::new(rt.alloc()), 1, Vec::new(rt.alloc()));
    let sink = MemSink::new(rt.alloc(), ROOM, Vec::new(rt.alloc()))?;
    let args = Err(io::Error::from(io::ErrorKind::InvalidData));
    let (code, sink) = program(&rt, rt.alloc(), args, &mut source, sink);
    assert!(rt; code == ExitCode::from(2));
    assert!(rt; sink.written() == b"fault usage\n".as_slice());
    Ok(())
}
