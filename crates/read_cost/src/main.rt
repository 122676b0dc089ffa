//! Calls one kind of read, or of windup, of a shared clock a number of times, so that its instructions can
//! be counted. Each read is called from two places, as a program that reads a clock calls it.
//!
//! The words are what to call, and how often, up to a million. The clock stands at tick 14, 1 s behind its
//! estimate; `back1` and `back8` are conversions that look one tick and eight ticks down.
#![tactic(auto)]

ghost use Rattle.std.specs.Prelude.{◌≡◌, ◌<◌, ◌≤◌, ◌^◌};
ghost use Rattle.tick_desk.specs.Answers.{IsReadable};

use clock_lines::{Kind, Reading};
use ff_grain::{Bintime, NoMemory};
use ff_hands::{Estimate, Marks, Order, reset_estimate};
use std::env;
use std::process::ExitCode;
use std::rt::Env;
use tick_desk::{Answer, Converted, Desk, Pass, Pen};

/// The counts of a second.
const FREQUENCY: u64 = 1_000_000_000;

/// The most calls.
const MOST: u32 = 1_000_000;

/// What the calls answered, put together, so that no call is left out.
type Digest = u64;

fn digest(r: &Reading) -> Digest {
    let high = (r.bound >> 64) as u64;
    let low = (r.bound % (1 << 64)) as u64;
    r.tick ^ r.count ^ r.time.sec.cast_unsigned() ^ r.time.frac ^ high ^ low
}

fn digest_of_answer(answer: &Answer) -> Digest {
    match answer {
        Answer::Read(r) => digest(r),
        Answer::Again { first, last } => first ^ last,
    }
}

fn digest_of_conversion(converted: &Converted) -> Digest {
    match converted {
        Converted::Read(r) => digest(r),
        Converted::Again { first, last } => first ^ last,
        Converted::TooOld { oldest } => *oldest,
        Converted::Ahead { count } => *count,
    }
}

#[inline(never)]
fn reads(pass: &mut Pass, kind: Kind, times: u32) -> Digest
    requires { IsReadable kind }
{
    let mut sum = 0;
    for _ in 0..times {
        sum = sum ^ digest_of_answer(&pass.read(kind));
    }
    sum
}

#[inline(never)]
fn intervals(pass: &mut Pass, delta: u64, times: u32) -> Digest
    requires { delta < 2 ^ 62 }
{
    let mut sum = 0;
    for _ in 0..times {
        sum = sum ^ digest_of_answer(&pass.diff(delta));
    }
    sum
}

#[inline(never)]
fn conversions(pass: &mut Pass, count: u64, times: u32) -> Digest
    requires { count < 2 ^ 62 }
{
    let mut sum = 0;
    for _ in 0..times {
        sum = sum ^ digest_of_conversion(&pass.convert(count));
    }
    sum
}

// Raises the counter by a 16th of a second each time, and winds the clock where that is asked for.
#[inline(never)]
fn windups(pen: &mut Pen, from: u64, times: u32, winds: bool)
    requires from { from < 2 ^ 61 }
{
    for k in 0..times {
        pen.advance(from + FREQUENCY / 16 * u64::from(k));
        if pen.reserve(1).is_err() {
            return;
        }
        if winds && pen.wind(Order::Plain).is_err() {
            return;
        }
    }
}

fn settled() -> Estimate {
    Estimate {
        update_time: Bintime {
            sec: 1_700_000_016,
            frac: 922_331_527_237_072,
        },
        update_ffcount: 17_000_100_000,
        leapsec_next: 0,
        period: 18_446_744_073,
        errb_abs: 100_002,
        errb_rate: 6_250_101,
        status: Marks {
            unsync: false,
            warmup: false,
        },
        leapsec_total: 0,
        leapsec: 0,
    }
}

fn wind_sane(pen: &mut Pen, order: Order) -> Result<(), NoMemory> {
    pen.reserve(1)?;
    if order.sane() {
        let _ = pen.wind(order);
    }
    Ok(())
}

// A clock at tick 14: reset, set by an estimate, and wound twelve times.
fn settle(pen: &mut Pen) -> Result<(), NoMemory> {
    let start = Bintime { sec: 0, frac: 0 };
    wind_sane(pen, Order::Reset(reset_estimate(start, 0, FREQUENCY)))?;
    pen.advance(17_000_100_000);
    wind_sane(pen, Order::Take(settled()))?;
    windups(pen, 17_062_600_000, 12, true);
    pen.advance(18_000_100_000);
    Ok(())
}

fn call(pen: &mut Pen, pass: &mut Pass, what: &str, times: u32) -> Option<Digest> {
    let sum = match what {
        "abs" => reads(pass, Kind::Abs, times) ^ reads(pass, Kind::Abs, 1),
        "mono" => reads(pass, Kind::Mono, times),
        "uptime" => reads(pass, Kind::Uptime, times),
        "utc" => reads(pass, Kind::Utc, times),
        "fast" => reads(pass, Kind::Fast, times),
        "diff" => intervals(pass, FREQUENCY, times) ^ intervals(pass, FREQUENCY / 2, 1),
        "back0" => conversions(pass, 17_900_000_000, times),
        "back1" => conversions(pass, 17_740_000_000, times),
        "back8" => conversions(pass, 17_260_000_000, times),
        "advance" => {
            windups(pen, 18_062_600_000, times, false);
            0
        }
        "wind" => {
            windups(pen, 18_062_600_000, times, true);
            0
        }
        _ => return None,
    };
    Some(sum)
}

fn run<R: Env + AllocGlobal>(rt: &R) -> Result<Option<Digest>, NoMemory> {
    let mut desk = Desk::start(rt.alloc())?;
    desk.passes(rt.alloc(), 1)?;
    let Ok(args) = env::args(rt) else {
        return Ok(None);
    };
    let mut words = Vec::new(rt.alloc());
    for word in args {
        words.push(word)?;
    }
    let Desk {
        mut pen,
        mut passes,
    } = desk;
    let Some(mut pass) = passes.pop() else {
        return Ok(None);
    };
    let [_, what, times] = words.as_slice() else {
        return Ok(None);
    };
    let Ok(times) = times.as_str().parse::<u32>() else {
        return Ok(None);
    };
    let times = times.min(MOST);
    pen.reserve(times as usize + 20)?;
    settle(&mut pen)?;
    Ok(call(&mut pen, &mut pass, what.as_str(), times))
}

fn main(rt: HostRuntime) -> ExitCode {
    match run(&rt) {
        Ok(Some(_)) => ExitCode::from(0),
        Ok(None) => ExitCode::from(2),
        Err(NoMemory) => ExitCode::from(5),
    }
}
