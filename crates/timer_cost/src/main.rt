//! Calls one kind of step of a timing wheel a number of times, so that its instructions can be counted.
//!
//! The words are what to call, how many timers live meanwhile, up to 65,535, and how often, up to a million. The timers
//! are due within a round of the wheel.
#![tactic(auto)]

ghost use Rattle.std.specs.Prelude.{◌≡◌, ◌+◌, ◌<◌, ◌≤◌, ◌^◌};
ghost use Rattle.callouts.specs.Timers.{IsDue};

use callouts::Wheel;
use ff_grain::{Bintime, NoMemory};
use std::env;
use std::process::ExitCode;
use std::rt::Env;

/// The most calls.
const MOST: u32 = 1_000_000;

/// What the calls answered, put together, so that no call is left out.
type Digest = u64;

// So many whole seconds.
fn seconds(sec: u32) -> Bintime
    ensures { IsDue result }
{
    Bintime {
        sec: i64::from(sec),
        frac: 0,
    }
}

// From 1 to 256 s, spread by a number.
fn spread(number: u32) -> u32 {
    (number.wrapping_mul(2_654_435_761) >> 24) + 1
}

// Adds a timer that is due at a time, where there is room.
fn add(wheel: &mut Wheel, sec: u32) -> Digest
    requires { wheel.old.added < 2 ^ 62 }
    ensures { wheel.new.added ≤ wheel.old.added + 1 }
{
    match wheel.add(seconds(sec)) {
        Ok(t) => t.id,
        Err(_) => 0,
    }
}

// The same, and cancels it.
fn add_and_cancel(wheel: &mut Wheel, sec: u32) -> Digest
    requires { wheel.old.added < 2 ^ 62 }
    ensures { wheel.new.added ≤ wheel.old.added + 1 }
{
    match wheel.add(seconds(sec)) {
        Ok(t) => u64::from(wheel.cancel(t)),
        Err(_) => 0,
    }
}

// Fires what is due first by a time, if it is due.
fn fire(wheel: &mut Wheel, sec: u32) -> Digest
    ensures { wheel.new.added ≡ wheel.old.added }
{
    match wheel.fire(seconds(sec)) {
        Some(f) => f.id,
        None => 0,
    }
}

#[inline(never)]
fn adds(wheel: &mut Wheel, times: u32) -> Digest
    requires { wheel.old.added < 2 ^ 40 }
    ensures { wheel.new.added ≤ wheel.old.added + times }
{
    let mut sum = 0;
    for i in 0..times {
        sum = sum ^ add(wheel, spread(i));
    }
    sum
}

#[inline(never)]
fn cancels(wheel: &mut Wheel, times: u32) -> Digest
    requires { wheel.old.added < 2 ^ 40 }
{
    let mut sum = 0;
    for i in 0..times {
        sum = sum ^ add_and_cancel(wheel, spread(i));
    }
    sum
}

#[inline(never)]
fn fires(wheel: &mut Wheel, times: u32) -> Digest
    requires { wheel.old.added < 2 ^ 40 }
{
    let mut sum = 0;
    for i in 0..times {
        sum = sum ^ fire(wheel, 256) ^ add(wheel, spread(i));
    }
    sum
}

// Fires the first timer and adds one that is due from 1 to 256 s later, as time goes on: a second passes while so many
// fire.
#[inline(never)]
fn holds(wheel: &mut Wheel, times: u32, pace: u32) -> Digest
    requires added { wheel.old.added < 2 ^ 40 }
    requires pace { 1 ≤ pace }
{
    let mut sum = 0;
    for i in 0..times {
        let due = (i / pace).saturating_add(spread(i));
        sum = sum ^ fire(wheel, u32::MAX) ^ add(wheel, due);
    }
    sum
}

#[inline(never)]
fn nones(wheel: &mut Wheel, times: u32) -> Digest {
    let mut sum = 0;
    for _ in 0..times {
        sum = sum ^ fire(wheel, 0);
    }
    sum
}

// Makes the calls that the word names, on a wheel with so many timers and room for one more.
fn call(wheel: &mut Wheel, what: &str, live: u32, times: u32) -> Option<Digest>
    requires few { live < 2 ^ 16 }
    requires new { wheel.old.added ≡ 0 }
{
    let sum = adds(wheel, live);
    let more = match what {
        "cancel" => cancels(wheel, times),
        "fire" => fires(wheel, times),
        "hold" => holds(wheel, times, live / 128 + 1),
        "none" => nones(wheel, times),
        _ => return None,
    };
    Some(sum ^ more)
}

fn run<R: Env + AllocGlobal>(rt: &R) -> Result<Option<Digest>, NoMemory> {
    let Ok(args) = env::args(rt) else {
        return Ok(None);
    };
    let mut words = Vec::new(rt.alloc());
    for word in args {
        words.push(word)?;
    }
    let [_, what, live, times] = words.as_slice() else {
        return Ok(None);
    };
    let Ok(live) = live.as_str().parse::<u32>() else {
        return Ok(None);
    };
    let Ok(times) = times.as_str().parse::<u32>() else {
        return Ok(None);
    };
    let live = live.min(65_535);
    let mut wheel = Wheel::new(rt.alloc(), live + 1)?;
    Ok(call(&mut wheel, what.as_str(), live, times.min(MOST)))
}

fn main(rt: HostRuntime) -> ExitCode {
    match run(&rt) {
        Ok(Some(_)) => ExitCode::from(0),
        Ok(None) => ExitCode::from(2),
        Err(NoMemory) => ExitCode::from(5),
    }
}
