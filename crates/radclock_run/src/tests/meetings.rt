// Replays whose threads wait for one another.
use crate::tests::logs::{Attempt, Came, report_of};
use crate::tests::rows::INPUT;
use crate::tests::{OUTSIDE, PATIENCE, played_past};
use clock_lines::Kind;
use rad_io::Gate;
use std::alloc::Global;
use std::process::Abort;
use std::sync::atomic::{AtomicU64, Ordering};
use std::test::Fail;
use std::thread;
use std::thread::Threads;

// Holds each reader before its first attempt until all sixteen have come.
#[derive(Drop)]
struct Sixteen {
    come: AtomicU64,
    missed: AtomicU64,
}

impl Gate for Sixteen {
    fn between_reads(&self, _reader: u32, done: u32) {
        if done == 0 {
            self.come.fetch_add(1, Ordering::SeqCst);
            for _ in 0..PATIENCE {
                if self.come.load(Ordering::SeqCst) >= 16 {
                    return;
                }
                thread::yield_now();
            }
            self.missed.store(1, Ordering::SeqCst);
        }
    }

    fn between_ticks(&self, _next: u64) {}
}

#[test]
fn sixteen_readers_run_at_the_same_time(rt: HostRuntime) -> Result<(), Fail> {
    let gate = Sixteen {
        come: AtomicU64::new(0),
        missed: AtomicU64::new(0),
    };
    let words = "replay --ticks 1 --readers 16 --reads 2";
    let (status, told) = played_past(&rt, rt.alloc(), words, INPUT, OUTSIDE, &gate)?;
    assert_eq!(rt; status.code(), 0);
    assert_eq!(rt; gate.come.load(Ordering::SeqCst), 16);
    assert_eq!(rt; gate.missed.load(Ordering::SeqCst), 0);
    assert!(rt; told.ends_with(" entries 32\n"), "at {told}");
    Ok(())
}

/// How many turns a reader leaves to the crank.
const TURNS: u64 = 10_000;

// Holds the driver before tick 3 until the reader has made seven attempts, and the reader before its second
// one, so that the crank can turn.
#[derive(Drop)]
struct Held {
    made: AtomicU64,
}

impl Gate for Held {
    fn between_reads(&self, _reader: u32, done: u32) {
        if done == 1 {
            for _ in 0..TURNS {
                thread::yield_now();
            }
        }
        self.made.store(u64::from(done), Ordering::SeqCst);
    }

    fn between_ticks(&self, next: u64) {
        if next == 3 {
            for _ in 0..PATIENCE {
                if self.made.load(Ordering::SeqCst) >= 7 {
                    return;
                }
                thread::yield_now();
            }
        }
    }
}

// Whether an attempt is a reading of the absolute clock by tick 2 or before, at the plan's greatest count.
fn is_ahead_of_the_driver(attempt: &Attempt) -> bool {
    match attempt.came {
        Came::Read {
            kind,
            tick,
            count,
            ..
        } => kind == Kind::Abs && tick <= 2 && count == 17_000_100_000,
        Came::Again { .. } | Came::Old { .. } | Came::Ahead { .. } => false,
    }
}

// Whether the crank ran ahead of the held driver, as a reader saw it.
fn runs_ahead<R: Abort + Threads + Sync>(rt: &R, alloc: Global) -> Result<bool, Fail> {
    let gate = Held {
        made: AtomicU64::new(0),
    };
    let words = "replay --ticks 4 --readers 1 --reads 8 --crank";
    let (status, told) = played_past(rt, alloc, words, INPUT, OUTSIDE, &gate)?;
    assert_eq!(rt; status.code(), 0);
    let report = report_of(alloc, &told, usize::MAX)?;
    Ok(report.attempts.iter().any(is_ahead_of_the_driver))
}

#[test]
fn a_crank_runs_ahead_of_a_held_driver(rt: HostRuntime) -> Result<(), Fail> {
    let mut ahead = false;
    for _ in 0..100 {
        ahead = ahead || runs_ahead(&rt, rt.alloc())?;
    }
    assert!(rt; ahead);
    Ok(())
}
