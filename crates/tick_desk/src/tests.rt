// What no clause says: worked values, answers beside plain walks through the journal, a clock
// that is wound and read in threads, and every call that takes memory with ample memory.
ghost use Rattle.std.specs.Prelude.{◌≡◌, ◌≤◌, ◌<◌, ◌^◌, true, IfOk};
ghost use Rattle.clock_lines.specs.Values.{MayRead};
ghost use Rattle.ff_hands.specs.Journals.{IsJournal};

mod judge;
mod looks;
mod many;
mod program;
mod rows;
mod threads;

use crate::{Desk, Pass, Pen};
use clock_core::Refuse;
use clock_lines::{Kind, Reading, bound, value};
use ff_grain::Bintime;
use ff_hands::{Estimate, Hands, Marks, Order, reset_estimate, ticks_are_sound};
use std::test::Fail;

const MOST: u64 = 1 << 62;

// So many grains of 2^-64 s. All times of these tests are within a second of the start.
fn grains(frac: u64) -> Bintime {
    Bintime { sec: 0, frac }
}

// Sets a clock at a count to the time 0. Its counter has 1 GHz.
fn reset(count: u64) -> Order {
    Order::Reset(reset_estimate(grains(0), count, 1_000_000_000))
}

// An estimate of such a counter, with these bounds.
fn take(time: Bintime, count: u64, errb_abs: u32, errb_rate: u32) -> Order {
    Order::Take(Estimate {
        update_time: time,
        update_ffcount: count,
        leapsec_next: 0,
        period: 18_446_744_073,
        errb_abs,
        errb_rate,
        status: Marks {
            unsync: false,
            warmup: false,
        },
        leapsec_total: 0,
        leapsec: 0,
    })
}

// Winds once, with room for it.
fn wound(pen: &mut Pen, o: Order) -> Result<Result<u64, Refuse>, Fail>
    ensures { pen.new.table ≡ pen.old.table }
{
    pen.reserve(1)?;
    if !o.sane() {
        return Err(Fail::new("the order is not sane"));
    }
    Ok(pen.wind(o))
}

// The last pass of a desk, which is of its table.
fn taken_out(desk: &mut Desk) -> Result<Pass, Fail>
    ensures pen { desk.new.pen ≡ desk.old.pen }
    ensures table { IfOk result (λ p. p.table ≡ desk.new.pen.table) }
{
    match desk.passes.pop() {
        Some(pass) => Ok(pass),
        None => Err(Fail::new("there is no pass")),
    }
}

fn may_read(kind: Kind, at: u64, count: u64) -> bool
    ensures { result ≡ true → MayRead kind at count }
{
    match kind {
        Kind::Abs | Kind::Mono | Kind::Uptime | Kind::Back | Kind::Utc => at <= count,
        Kind::Fast => at == count,
        Kind::Diff => true,
    }
}

// What a tick of a journal reads at a count, where it may be read there.
fn reading_of(ticks: &[Hands], kind: Kind, tick: u64, count: u64) -> Option<Reading>
    requires { IsJournal ticks.now }
{
    let h = ticks.get(tick as usize)?;
    if count >= MOST || !may_read(kind, h.count, count) {
        return None;
    }
    ticks_are_sound();
    Some(Reading {
        kind,
        tick,
        count,
        time: value(h, kind, count),
        bound: bound(h, kind, count),
    })
}
