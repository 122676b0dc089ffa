// Plans of what a daemon said of stamps, and their plays.
ghost use Rattle.std.specs.Prelude.{◌≡◌, ◌<◌, ◌≤◌, ◌^◌, List, [], ◌∷◌, ◌++◌, false, length, IfOk};
ghost use Rattle.std.specs.Option.{option_to_list};
ghost use Rattle.ff_grain.specs.Grains.{IsTime};
ghost use Rattle.stamp_text.specs.Accepted.{IsInRange};
ghost use Rattle.stamp_text.specs.declared.lines.Item.{Item};
ghost use Rattle.ff_estimator.specs.Daemons.{StandsFor};
ghost use Rattle.ff_estimator.specs.Events.{AreOf};
ghost use Rattle.ff_hands.specs.Windups.{cold};
ghost use Rattle.replay_run.specs.Fitting.{PlanFits};
ghost use Rattle.replay_run.specs.Logs.{AreReady};
ghost use Rattle.replay_run.specs.Plans.{AreOptionsInRange};

use crate::{Options, Plan, ReadLog, play};
use clock_lines::{Entry, Kind, Reading};
use ff_estimator::{Daemon, Event, Fed};
use ff_grain::{Bintime, NoMemory, from_nanos};
use ff_hands::{Hands, Order};
use rad_io::{Gate, OpenGate};
use stamp_text::Stamp;
use std::alloc::Global;
use std::marker::Brand;
use std::sync::atomic::{AtomicU64, Ordering};
use std::sync::ledger::{Blank, Ledger};
use std::test::Fail;
use std::thread;
use std::thread::Threads;
use step_count::Steps;
use tick_desk::Desk;

const FREQ: u64 = 1_000_000_000;

/// The greatest count of a stamp.
const MOST: u64 = (1 << 62) - 1;

// What a row of a test says: a stamp's counters, with the second of both of the server's times between
// them, or the count at which the clock is set, and to which second.
#[derive(Clone, Copy)]
enum Row {
    Stamp(u64, u32, u64),
    Set(u64, u32),
}

fn count_of(count: u64) -> u64
    ensures { result < 2 ^ 62 }
{
    count.min(MOST)
}

fn time_of(second: u32) -> Bintime
    ensures { IsTime result }
{
    from_nanos(u64::from(second), 0)
}

fn stamp_of(ta: u64, second: u32, tf: u64) -> Stamp
    ensures { IsInRange result }
{
    let time = time_of(second);
    Stamp {
        ta: count_of(ta),
        tb: time,
        te: time,
        tf: count_of(tf),
        stratum: 1,
        leap: 0,
    }
}

// What a row says behind the accepted ones, if it is accepted.
fn told<L: Ledger>(daemon: &mut Daemon, row: Row, steps: &mut Steps<L>) -> Option<Event>
    ensures { (items : List Item) → StandsFor daemon.old 1000000000 items →
        (more : List Item) × StandsFor daemon.new 1000000000 more ×
        ((events : List Event) → AreOf events 1000000000 items →
        AreOf (events ++ option_to_list result) 1000000000 more) }
{
    match row {
        Row::Stamp(ta, second, tf) => match daemon.feed(stamp_of(ta, second, tf), steps) {
            Fed::Estimate(full) => Some(Event::Estimate(full)),
            Fed::Refused(_) => None,
        },
        Row::Set(count, second) => {
            let count = count_of(count);
            let at = time_of(second);
            match daemon.set(count) {
                Ok(()) => Some(Event::Set { count, at }),
                Err(_) => None,
            }
        }
    }
}

// What a daemon says of the rows that it accepts, under a blank.
fn events_under<L: Ledger>(
    alloc: Global,
    rows: &[Row],
    blank: Blank,
) -> Result<Vec<Event>, NoMemory>
    requires name { blank.name ≡ L.name }
    requires parts { blank.parts ≡ L.parts }
    requires some { 0 < blank.parts }
    ensures { IfOk result (λ events. (items : List Item) × AreOf events.items 1000000000 items) }
{
    let mut steps = Steps::<L>::new(blank);
    let mut daemon = Daemon::new(alloc, FREQ)?;
    let mut events = Vec::new(alloc);
    for row in rows {
        if let Some(event) = told(&mut daemon, *row, &mut steps) {
            events.push(event)?;
        }
    }
    Ok(events)
}

// The plan to replay it.
fn plan_of(alloc: Global, rows: &[Row], options: &Options) -> Result<Plan, NoMemory>
    requires { AreOptionsInRange options.now }
    ensures freq { IfOk result (λ p. p.freq ≡ 1000000000) }
    ensures options { IfOk result (λ p. p.options ≡ options.now) }
    ensures fits { IfOk result (λ p. PlanFits 0 0 p.steps.items) }
{
    let events = events_under::<Brand>(alloc, rows, Blank::new(1))?;
    Plan::of(alloc, FREQ, &events, options)
}

// Which flags are given.
#[derive(Clone, Copy)]
struct Flags {
    back: bool,
    crank: bool,
    utc: bool,
}

const PLAIN: Flags = Flags {
    back: false,
    crank: false,
    utc: false,
};

const BACK: Flags = Flags {
    back: true,
    crank: false,
    utc: false,
};

const ALL: Flags = Flags {
    back: true,
    crank: true,
    utc: true,
};

// Two readers.
fn options_of(ticks: u32, reads: u32, flags: Flags) -> Options
    ensures { AreOptionsInRange result }
{
    Options {
        ticks: ticks.min(15),
        readers: 2,
        reads: reads.min(16384),
        back: flags.back,
        crank: flags.crank,
        utc: flags.utc,
    }
}

// What a step does, in a word.
fn word_of(order: Order) -> &'static str {
    match order {
        Order::Plain => "plain",
        Order::Take(_) => "take",
        Order::Reset(_) => "reset",
    }
}

#[test]
fn plans_have_their_steps(rt: HostRuntime) -> Result<(), Fail> {
    // Fifths of 13 counts are 2.6 counts.
    let rows: [(&[Row], u32, &[(u64, &str)]); 4] = [
        (&[], 4, &[(0, "reset")]),
        (
            &[
                Row::Stamp(1_000_000_000, 1_700_000_000, 1_000_100_000),
                Row::Stamp(17_000_000_000, 1_700_000_016, 17_000_100_000),
            ],
            1,
            &[
                (0, "reset"),
                (1_000_100_000, "take"),
                (9_000_100_000, "plain"),
                (17_000_100_000, "take"),
            ],
        ),
        (
            &[Row::Stamp(5, 1, 10), Row::Stamp(15, 1, 23)],
            4,
            &[
                (0, "reset"),
                (10, "take"),
                (12, "plain"),
                (15, "plain"),
                (17, "plain"),
                (20, "plain"),
                (23, "take"),
            ],
        ),
        // A set at the start, a refused one, and one between two stamps.
        (
            &[
                Row::Set(0, 9),
                Row::Stamp(5, 1, 10),
                Row::Set(10, 9),
                Row::Set(13, 9),
                Row::Stamp(15, 1, 23),
            ],
            1,
            &[
                (0, "reset"),
                (0, "reset"),
                (5, "plain"),
                (10, "take"),
                (11, "plain"),
                (13, "reset"),
                (18, "plain"),
                (23, "take"),
            ],
        ),
    ];
    for (told, ticks, wanted) in rows {
        let plan = plan_of(rt.alloc(), told, &options_of(ticks, 3, BACK))?;
        assert_eq!(rt; plan.steps.len(), wanted.len());
        for (step, (to, word)) in plan.steps.iter().zip(wanted) {
            assert_eq!(rt; step.to, *to);
            assert_eq!(rt; word_of(step.order), *word);
        }
    }
    Ok(())
}

/// Two stamps, the second 16 s behind the first.
const TWO: [Row; 2] = [
    Row::Stamp(1_000_000_000, 1_700_000_000, 1_000_100_000),
    Row::Stamp(17_000_000_000, 1_700_000_016, 17_000_100_000),
];

// A desk that nothing was done with, with room for the ticks of a plan, and the logs of its readers.
fn opened(alloc: Global, plan: &Plan) -> Result<(Desk, Vec<ReadLog>), NoMemory>
    requires { plan.now.options.readers ≤ 16 }
    ensures journal { IfOk result (λ r. r.0.pen.journal ≡ cold ∷ []) }
    ensures top { IfOk result (λ r. r.0.pen.top ≡ 0) }
    ensures still { IfOk result (λ r. r.0.pen.out ≡ false) }
    ensures spare { IfOk result (λ r. length plan.now.steps.items ≤ r.0.pen.spare) }
    ensures logs { IfOk result (λ r. AreReady r.0.pen.table plan.now.options.reads r.1.items) }
{
    let mut desk = Desk::start(alloc)?;
    desk.pen.reserve(plan.steps.len())?;
    desk.passes(alloc, plan.options.readers)?;
    let logs = ReadLog::all(alloc, &mut desk, plan)?;
    Ok((desk, logs))
}

#[test]
fn logs_are_opened(rt: HostRuntime) -> Result<(), Fail> {
    let plan = plan_of(rt.alloc(), &TWO, &options_of(1, 40, BACK))?;
    let (desk, logs) = opened(rt.alloc(), &plan)?;
    assert_eq!(rt; desk.passes.len(), 0);
    assert_eq!(rt; logs.len(), 2);
    for (i, log) in logs.iter().enumerate() {
        assert_eq!(rt; log.reader, i as u32);
        assert!(rt; log.entries.is_empty());
        assert!(rt; log.entries.capacity() >= 40);
        assert!(rt; log.pass.is_some());
    }
    Ok(())
}

// The desk and the logs behind a play of two stamps.
fn played<R: Threads + Sync, G: Gate>(
    rt: &R,
    alloc: Global,
    options: &Options,
    gate: &G,
) -> Result<(Desk, Vec<ReadLog>), NoMemory>
    requires { AreOptionsInRange options.now }
{
    let plan = plan_of(alloc, &TWO, options)?;
    let (mut desk, mut logs) = opened(alloc, &plan)?;
    play(rt, &mut desk, &plan, &mut logs, gate);
    Ok((desk, logs))
}

// The kind of an attempt, by what came of it.
fn kind_of(entry: &Entry) -> Kind {
    match entry {
        Entry::Read(r) => r.kind,
        Entry::Again { kind, .. } => *kind,
        Entry::TooOld { .. } | Entry::Ahead { .. } => Kind::Back,
    }
}

// Whether a reading is by the tick that it names.
fn is_by_its_tick(journal: &[Hands], r: &Reading) -> bool {
    let tick = r.tick as usize;
    let Some(hands) = journal.get(tick) else {
        return false;
    };
    match r.kind {
        Kind::Fast => r.count == hands.count && r.time == hands.time,
        Kind::Diff => r.count == FREQ,
        Kind::Abs | Kind::Mono | Kind::Uptime | Kind::Utc => {
            let next = tick.saturating_add(1);
            hands.count <= r.count && journal.get(next).is_none_or(|h| r.count <= h.count)
        }
        Kind::Back => hands.count < r.count || tick == 0,
    }
}

#[test]
fn plays_leave_journals_and_logs(rt: HostRuntime) -> Result<(), Fail> {
    let wanted = [0, 0, 1_000_100_000, 9_000_100_000, 17_000_100_000];
    // The kinds of seven attempts, for each choice of the two that are asked for, and after how many they come again.
    let five = [Kind::Abs, Kind::Mono, Kind::Uptime, Kind::Fast, Kind::Diff];
    let rows: [(bool, bool, &[Kind]); 4] = [
        (false, false, &[]),
        (true, false, &[Kind::Back]),
        (false, true, &[Kind::Utc]),
        (true, true, &[Kind::Back, Kind::Utc]),
    ];
    for (row, crank) in rows.iter().flat_map(|row| [(row, false), (row, true)]) {
        let (back, utc, more) = *row;
        let options = options_of(1, 25, Flags { back, crank, utc });
        let (desk, logs) = played(&rt, rt.alloc(), &options, &OpenGate)?;
        let journal = desk.pen.journal();
        assert_eq!(rt; journal.len(), wanted.len());
        for (hands, to) in journal.iter().zip(wanted) {
            assert!(rt; to <= hands.count && hands.count <= 17_000_100_000);
            assert!(rt; crank || hands.count == to);
        }
        assert_eq!(rt; logs.len(), 2);
        for log in &logs {
            assert!(rt; log.pass.is_none());
            assert_eq!(rt; log.entries.len(), 25);
            for (k, entry) in log.entries.iter().enumerate() {
                let place = k % (5 + more.len());
                let kind = five.get(place).or(more.get(place.saturating_sub(5)));
                assert!(rt; kind == Some(&kind_of(entry)));
                if let Entry::Read(r) = entry {
                    assert!(rt; is_by_its_tick(journal, r));
                }
            }
        }
    }
    Ok(())
}

/// How long a thread waits at most, in turns.
const PATIENCE: u64 = 100_000_000;

// Holds reader 1 before its first attempt until the driver is about to publish tick 4, and the driver there
// until that reader has come. Each notes whether the other came.
#[derive(Drop)]
struct Meeting {
    reader: AtomicU64,
    driver: AtomicU64,
    missed: AtomicU64,
}

impl Meeting {
    fn wait_for(&self, other: &AtomicU64) {
        for _ in 0..PATIENCE {
            if other.load(Ordering::SeqCst) == 1 {
                return;
            }
            thread::yield_now();
        }
        self.missed.store(1, Ordering::SeqCst);
    }
}

impl Gate for Meeting {
    fn between_reads(&self, reader: u32, done: u32) {
        if reader == 1 && done == 0 {
            self.reader.store(1, Ordering::SeqCst);
            self.wait_for(&self.driver);
        }
    }

    fn between_ticks(&self, next: u64) {
        if next == 4 {
            self.driver.store(1, Ordering::SeqCst);
            self.wait_for(&self.reader);
        }
    }
}

#[test]
fn readers_and_driver_run_at_the_same_time(rt: HostRuntime) -> Result<(), Fail> {
    let gate = Meeting {
        reader: AtomicU64::new(0),
        driver: AtomicU64::new(0),
        missed: AtomicU64::new(0),
    };
    let (desk, logs) = played(&rt, rt.alloc(), &options_of(4, 4, PLAIN), &gate)?;
    assert_eq!(rt; gate.missed.load(Ordering::SeqCst), 0);
    assert_eq!(rt; desk.pen.journal().len(), 8);
    for log in &logs {
        assert_eq!(rt; log.entries.len(), 4);
        for entry in &log.entries {
            if let Entry::Read(r) = entry {
                assert!(rt; log.reader != 1 || r.tick >= 3);
            }
        }
    }
    Ok(())
}

// Notes whether the driver and two readers come with the numbers that are next, each in its own row.
#[derive(Drop)]
struct Counting {
    step: AtomicU64,
    done: [AtomicU64; 2],
    wrong: AtomicU64,
}

impl Counting {
    fn note(&self, next: &AtomicU64, number: u64) {
        if next.load(Ordering::SeqCst) != number {
            self.wrong.store(1, Ordering::SeqCst);
        }
        next.store(number.saturating_add(1), Ordering::SeqCst);
    }
}

impl Gate for Counting {
    fn between_reads(&self, reader: u32, done: u32) {
        match self.done.get(reader as usize) {
            Some(next) => self.note(next, u64::from(done)),
            None => self.wrong.store(1, Ordering::SeqCst),
        }
    }

    fn between_ticks(&self, next: u64) {
        self.note(&self.step, next);
    }
}

#[test]
fn the_gate_is_called_once_before_each_step_and_attempt(rt: HostRuntime) -> Result<(), Fail> {
    let gate = Counting {
        step: AtomicU64::new(1),
        done: [AtomicU64::new(0), AtomicU64::new(0)],
        wrong: AtomicU64::new(0),
    };
    let (desk, _) = played(&rt, rt.alloc(), &options_of(4, 25, ALL), &gate)?;
    assert_eq!(rt; desk.pen.journal().len(), 8);
    assert_eq!(rt; gate.wrong.load(Ordering::SeqCst), 0);
    assert_eq!(rt; gate.step.load(Ordering::SeqCst), 8);
    for done in &gate.done {
        assert_eq!(rt; done.load(Ordering::SeqCst), 25);
    }
    Ok(())
}
