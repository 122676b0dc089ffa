// A clock that is wound, driven and read in threads, and each answer by the journal.
ghost use Rattle.std.specs.Prelude.{◌≡◌, ◌≤◌, ◌<◌, ◌^◌, IfOk};

use crate::tests::judge::first_fault;
use crate::tests::{grains, reset, take, taken_out};
use crate::{Answer, Converted, Crank, Desk, Pass, Pen};
use clock_lines::{Entry, Kind, Reading};
use ff_hands::Order;
use std::alloc::Global;
use std::sync::atomic::{AtomicU64, Ordering};
use std::test::Fail;
use std::thread::{Threads, join_mut, yield_now};

const WINDUPS: u64 = 300;

const READS: u64 = 420;

/// Where the clock is set again.
const AGAIN: u64 = 150;

/// More than any count of these threads.
const FAR: u64 = 1 << 40;

/// How often a thread looks for the others before it goes on without them.
const TURNS: u32 = 1_000_000;

// How far the threads are. Nothing rests on it but that they run beside each other where they
// can.
#[derive(Drop)]
struct Meeting {
    reading: AtomicU64,
    wound: AtomicU64,
}

#[derive(Drop)]
struct Reader {
    pass: Pass,
    entries: Vec<Entry>,
}

fn wait_for(word: &AtomicU64, least: u64) {
    for _ in 0..TURNS {
        if word.load(Ordering::SeqCst) >= least {
            return;
        }
        yield_now();
    }
}

fn answered(kind: Kind, a: Answer) -> Entry {
    match a {
        Answer::Read(r) => Entry::Read(r),
        Answer::Again { first, last } => Entry::Again { kind, first, last },
    }
}

fn converted(count: u64, c: Converted) -> Entry {
    match c {
        Converted::Read(r) => Entry::Read(r),
        Converted::TooOld { oldest } => Entry::TooOld { count, oldest },
        Converted::Ahead { count: at } => Entry::Ahead { count, at },
        Converted::Again { first, last } => Entry::Again {
            kind: Kind::Back,
            first,
            last,
        },
    }
}

// The read number `k`, of each kind in turn. The count is for differences and conversions.
fn ask(pass: &mut Pass, k: u64, count: u64) -> Entry
    requires { count < 2 ^ 62 }
    ensures { pass.new.table ≡ pass.old.table }
{
    match k % 7 {
        0 => answered(Kind::Mono, pass.read(Kind::Mono)),
        1 => answered(Kind::Fast, pass.read(Kind::Fast)),
        2 => answered(Kind::Uptime, pass.read(Kind::Uptime)),
        3 => answered(Kind::Diff, pass.diff(count)),
        4 => answered(Kind::Abs, pass.read(Kind::Abs)),
        5 => answered(Kind::Utc, pass.read(Kind::Utc)),
        _ => converted(count, pass.convert(count)),
    }
}

// A count that lies some ticks back, or past the counter.
fn count_to_ask(newest: u64, k: u64) -> u64
    ensures { result < 2 ^ 62 }
{
    let back = k / 7 % 16;
    if back == 15 {
        return newest.saturating_add(50_000).min(FAR);
    }
    newest.saturating_sub(700 * back).min(FAR)
}

fn read_all(reader: &mut Reader, meeting: &Meeting)
    ensures { reader.new.pass.table ≡ reader.old.pass.table }
{
    let mut newest = 0;
    for k in 0..READS {
        let entry = ask(&mut reader.pass, k, count_to_ask(newest, k));
        if let Entry::Read(
            Reading {
                kind: Kind::Mono,
                count,
                tick: _,
                time: _,
                bound: _,
            },
        ) = entry
        {
            newest = count;
        }
        if reader.entries.push(entry).is_err() {
            return;
        }
        if k == 0 {
            meeting.reading.fetch_add(1, Ordering::SeqCst);
        }
        if k == READS / 4 {
            wait_for(&meeting.wound, WINDUPS / 4);
        }
    }
}

// The order of windup `k`. Between two resets the estimates run a little faster than the clock.
fn order_at(k: u64) -> Order
    requires { k < 300 }
{
    if k % AGAIN == 0 {
        return reset((1_000 * k).min(FAR));
    }
    if k % 20 != 10 {
        return Order::Plain;
    }
    let since = k % AGAIN;
    let time = grains(18_446_744_073_000 * since + 2_000_000 * since);
    take(time, (1_000 * k).min(FAR), 5, 1_000)
}

// The answer is how many windups were made.
fn drive(pen: &mut Pen, meeting: &Meeting) -> u64
    ensures { pen.new.table ≡ pen.old.table }
{
    for k in 0..WINDUPS {
        let order = order_at(k);
        if k == WINDUPS / 10 {
            wait_for(&meeting.reading, 3);
        }
        pen.advance(1_000 * k);
        if pen.reserve(1).is_err() || !order.sane() || pen.wind(order).is_err() {
            return k;
        }
        meeting.wound.fetch_add(1, Ordering::SeqCst);
        yield_now();
    }
    WINDUPS
}

fn turn(crank: &mut Crank)
    ensures { crank.new.table ≡ crank.old.table }
{
    for k in 0..WINDUPS {
        crank.raise(1_001 * k);
        yield_now();
    }
}

fn read_in_three(
    rt: &(impl Threads + Sync),
    meeting: &Meeting,
    one: &mut Reader,
    two: &mut Reader,
    three: &mut Reader,
)
    ensures one { one.new.pass.table ≡ one.old.pass.table }
    ensures two { two.new.pass.table ≡ two.old.pass.table }
    ensures three { three.new.pass.table ≡ three.old.pass.table }
{
    join_mut(
        rt,
        &mut ||
            ensures { one.exit.now.pass.table ≡ one.entry.now.pass.table }
        { read_all(one, meeting) },
        &mut ||
            ensures two { two.exit.now.pass.table ≡ two.entry.now.pass.table }
            ensures three { three.exit.now.pass.table ≡ three.entry.now.pass.table }
        {
            join_mut(
                rt,
                &mut ||
                    ensures { two.exit.now.pass.table ≡ two.entry.now.pass.table }
                { read_all(two, meeting) },
                &mut ||
                    ensures { three.exit.now.pass.table ≡ three.entry.now.pass.table }
                { read_all(three, meeting) },
            );
        },
    );
}

// The pen and the crank, each in a thread of its own.
fn wind_in_two(
    rt: &(impl Threads + Sync),
    meeting: &Meeting,
    pen: &mut Pen,
    crank: &mut Crank,
) -> u64
    ensures pen { pen.new.table ≡ pen.old.table }
    ensures crank { crank.new.table ≡ crank.old.table }
{
    let (made, ()) = join_mut(
        rt,
        &mut ||
            ensures { pen.exit.now.table ≡ pen.entry.now.table }
        { drive(pen, meeting) },
        &mut ||
            ensures { crank.exit.now.table ≡ crank.entry.now.table }
        { turn(crank) },
    );
    made
}

fn reader_of(desk: &mut Desk, alloc: Global) -> Result<Reader, Fail>
    ensures pen { desk.new.pen ≡ desk.old.pen }
    ensures table { IfOk result (λ r. r.pass.table ≡ desk.new.pen.table) }
{
    let pass = taken_out(desk)?;
    let entries = Vec::with_capacity(alloc, READS as usize)?;
    Ok(Reader { pass, entries })
}

// How many windups were made, what each reader was answered, and the pen that took all in again.
#[derive(Drop)]
struct Run {
    made: u64,
    pen: Pen,
    logs: [Vec<Entry>; 3],
}

fn run_in_five(rt: &(impl Threads + Sync), alloc: Global) -> Result<Run, Fail> {
    let mut desk = Desk::start(alloc)?;
    desk.passes(alloc, 3)?;
    let mut one = reader_of(&mut desk, alloc)?;
    let mut two = reader_of(&mut desk, alloc)?;
    let mut three = reader_of(&mut desk, alloc)?;
    let Desk { mut pen, passes: _ } = desk;
    let Some(mut crank) = pen.lend() else {
        return Err(Fail::new("the crank is out"));
    };
    let meeting = Meeting {
        reading: AtomicU64::new(0),
        wound: AtomicU64::new(0),
    };
    let (made, ()) = join_mut(
        rt,
        &mut ||
            ensures pen { pen.exit.table ≡ pen.entry.table }
            ensures crank { crank.exit.table ≡ crank.entry.table }
        { wind_in_two(rt, &meeting, &mut pen, &mut crank) },
        &mut ||
            ensures one { one.exit.pass.table ≡ one.entry.pass.table }
            ensures two { two.exit.pass.table ≡ two.entry.pass.table }
            ensures three { three.exit.pass.table ≡ three.entry.pass.table }
        { read_in_three(rt, &meeting, &mut one, &mut two, &mut three) },
    );
    pen.take_back(crank);
    pen.take_in(one.pass);
    pen.take_in(two.pass);
    pen.take_in(three.pass);
    let logs = [one.entries, two.entries, three.entries];
    Ok(Run { made, pen, logs })
}

#[test]
fn answers_in_threads_are_those_of_the_journal(rt: HostRuntime) -> Result<(), Fail> {
    let Run { made, pen, logs } = run_in_five(&rt, rt.alloc())?;
    assert_eq!(rt; made, WINDUPS);
    assert_eq!(rt; pen.journal().len() as u64, WINDUPS + 1);
    for log in &logs {
        assert_eq!(rt; log.len() as u64, READS);
        assert_eq!(rt; first_fault(pen.journal(), log), None);
    }
    Ok(())
}
