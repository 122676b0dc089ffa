// A reader.
ghost use Rattle.std.specs.Prelude.{◌≡◌, ◌<◌, ◌^◌};
ghost use Rattle.clock_logs.specs.Attempts.{kind_at, latest_with};
ghost use Rattle.tick_desk.specs.Answers.{Adds, IsReadable, entry_by, entry_from};
ghost use Rattle.tick_laws.specs.Goes.{ask_of};
ghost use Rattle.replay_run.specs.Logs.{IsReady, HasRun, ask_for, tried_by};

use crate::log::ReadLog;
use crate::plan::Options;
use clock_lines::{Entry, Kind};
use rad_io::Gate;
use std::mem;
use tick_desk::{Answer, Converted, Pass};

// The kind of an attempt.
#[inline(always)]
fn kind_at(options: Options, k: u32) -> Kind
    ensures { result ≡ kind_at (tried_by options) k }
{
    let turn = match (options.back, options.utc) {
        (false, false) => k % 5,
        (true, false) | (false, true) => k % 6,
        (true, true) => k % 7,
    };
    match turn {
        0 => Kind::Abs,
        1 => Kind::Mono,
        2 => Kind::Uptime,
        3 => Kind::Fast,
        4 => Kind::Diff,
        5 if options.back => Kind::Back,
        _ => Kind::Utc,
    }
}

// The count of the latest reading of the absolute clock, with one entry more.
#[inline(always)]
fn latest_with(latest: u64, e: &Entry) -> u64
    ensures { result ≡ latest_with latest e.now }
{
    match e {
        Entry::Read(r) => match r.kind {
            Kind::Abs => r.count,
            Kind::Mono | Kind::Uptime | Kind::Utc | Kind::Fast | Kind::Diff | Kind::Back => latest,
        },
        Entry::Again { .. } | Entry::TooOld { .. } | Entry::Ahead { .. } => latest,
    }
}

// The entry of a read.
#[inline(always)]
fn entry_by(kind: Kind, answer: Answer) -> Entry
    ensures { result ≡ entry_by kind answer }
{
    match answer {
        Answer::Read(r) => Entry::Read(r),
        Answer::Again { first, last } => Entry::Again { kind, first, last },
    }
}

// The entry of a conversion of a past count.
#[inline(always)]
fn entry_from(count: u64, converted: Converted) -> Entry
    ensures { result ≡ entry_from count converted }
{
    match converted {
        Converted::Read(r) => Entry::Read(r),
        Converted::TooOld { oldest } => Entry::TooOld { count, oldest },
        Converted::Ahead { count: at } => Entry::Ahead { count, at },
        Converted::Again { first, last } => Entry::Again {
            kind: Kind::Back,
            first,
            last,
        },
    }
}

// A read, begun and finished here: the code of `read` has a copy for each kind, which is too much to stand
// at each of its calls.
#[inline(always)]
fn read_kind(pass: &mut Pass, kind: Kind) -> Entry
    requires { IsReadable kind }
    ensures { Adds pass.old pass.new (ask_of kind) result }
{
    let begun = pass.begin(kind);
    entry_by(kind, pass.finish(begun))
}

// Makes one attempt. Each kind has a copy of the code of its own.
#[inline(always)]
fn attempt(pass: &mut Pass, kind: Kind, freq: u64, latest: u64) -> Entry
    requires freq { freq < 2 ^ 62 }
    requires latest { latest < 2 ^ 62 }
    ensures { Adds pass.old pass.new (ask_for freq latest kind) result }
{
    match kind {
        Kind::Abs => read_kind(pass, Kind::Abs),
        Kind::Mono => read_kind(pass, Kind::Mono),
        Kind::Uptime => read_kind(pass, Kind::Uptime),
        Kind::Utc => read_kind(pass, Kind::Utc),
        Kind::Fast => read_kind(pass, Kind::Fast),
        Kind::Diff => entry_by(Kind::Diff, pass.diff(freq)),
        Kind::Back => entry_from(latest, pass.convert(latest)),
    }
}

// Makes all attempts of a reader, one after the other.
//
// The pass and the entries are the function's own while it runs: the logs of all readers lie side by side, and
// threads that wrote in them at each attempt would take the same cache lines from each other.
pub(crate) fn read_all<G: Gate>(gate: &G, log: &mut ReadLog, freq: u64, options: Options)
    requires freq { freq < 2 ^ 62 }
    requires ready { IsReady options.reads log.old }
    ensures { HasRun freq options log.old log.new }
{
    let reader = log.reader;
    let Some(mut pass) = log.pass.take() else {
        unreachable!()
    };
    let alloc = *log.entries.allocator();
    let mut entries = mem::replace(&mut log.entries, Vec::new(alloc));
    let mut latest = 0;
    for k in 0..options.reads {
        gate.between_reads(reader, k);
        let entry = attempt(&mut pass, kind_at(options, k), freq, latest);
        latest = latest_with(latest, &entry);
        entries.push_reserved(entry);
    }
    log.entries = entries;
    log.pass = Some(pass);
}
