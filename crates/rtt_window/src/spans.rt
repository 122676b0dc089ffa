// How the six windows over the round trips move with each stamp.
ghost use Rattle.std.specs.Prelude.{◌≡◌, ◌+◌, ◌-◌, ◌<◌, ◌≤◌, ◌^◌, [], ◌∷◌, ◌++◌};
ghost use Rattle.min_lists.specs.Lists.{window, with_start, last_trips, credit};
ghost use Rattle.rtt_window.specs.Pairs.{quarter};
ghost use Rattle.rtt_window.specs.Spans.{first_quarter, span_of, listed, with_end};

use crate::bases::RECENT;
use min_lists::{Lists, Which};
use std::sync::ledger::Ledger;
use step_count::Steps;

/// How many of the last stamps the far pair is taken from, and the most that are kept.
pub const WIDE: u64 = 1024;

/// How many of the last stamps the near pair is taken from.
pub const NEAR: u64 = 64;

/// A quarter of so many, rounded down, and at least one.
#[inline(always)]
pub fn quarter(n: u64) -> u64
    ensures { result ≡ quarter n }
{
    (n / 4).max(1)
}

// Where the first quarter of the last `most` of so many ends.
#[inline(always)]
fn first_end(count: u64, most: u64) -> u64
    requires { count < 2 ^ 62 }
    ensures { result ≡ (first_quarter most count).to }
{
    count.min(count.saturating_sub(most) + quarter(most.min(count)))
}

/// Where a window begins once so many stamps were added, whose level began at `start`.
#[inline(always)]
pub fn left_end(which: Which, count: u64, start: u64) -> u64
    ensures { result ≡ (span_of count start which).from }
{
    match which {
        Which::Base => start.max(count.saturating_sub(WIDE)),
        Which::Recent => count.saturating_sub(RECENT),
        Which::WideOld => count.saturating_sub(WIDE),
        Which::WideNew => count.saturating_sub(quarter(WIDE.min(count))),
        Which::NearOld => count.saturating_sub(NEAR),
        Which::NearNew => count.saturating_sub(quarter(NEAR.min(count))),
    }
}

// Where it ends.
#[inline(always)]
fn right_end(which: Which, count: u64) -> u64
    requires { count < 2 ^ 62 }
    ensures { result ≡ (span_of count 0 which).to }
{
    match which {
        Which::WideOld => first_end(count, WIDE),
        Which::NearOld => first_end(count, NEAR),
        _ => count,
    }
}

// Takes out of a window what it does not have once there is one stamp more than `count`.
#[inline(always)]
fn leave(lists: &mut Lists, which: Which, count: u64, start: u64)
    requires few { count < 2 ^ 62 }
    requires started { start ≤ count }
    requires at { window lists.old which ≡ span_of count start which }
    ensures kept { lists.new ≡ with_start lists.old which (span_of (count + 1) start which).from }
    ensures credit { credit lists.new ≤ credit lists.old }
{
    lists.cut(which, left_end(which, count + 1, start));
}

// Lets the next round trip into a window, where it goes on by one with the newest of `count` stamps.
#[inline(always)]
fn enter<L: Ledger>(lists: &mut Lists, which: Which, count: u64, steps: &mut Steps<L>)
    requires some { 0 < count }
    requires few { count < 2 ^ 62 }
    requires added { lists.old.count ≡ count }
    requires at { (window lists.old which).to ≡ (span_of (count - 1) 0 which).to }
    ensures kept { lists.new ≡ with_end lists.old which (span_of count 0 which).to }
    ensures steps { steps.old ≤ steps.new }
    ensures credit { steps.new + credit lists.new ≤ steps.old + credit lists.old + 2 }
{
    if right_end(which, count - 1) < right_end(which, count) {
        lists.enter(which, steps);
    }
}

/// Adds the round trip of one more stamp than `count`, in counts, and moves the six windows on to it.
/// The level began at `start`.
///
/// Each window takes two steps at most, and the credit.
#[inline(always)]
pub fn slide<L: Ledger>(lists: &mut Lists, count: u64, start: u64, rtt: u64, steps: &mut Steps<L>)
    requires few { count + 1 < 2 ^ 62 }
    requires started { start ≤ count }
    requires at { lists.old ≡ listed lists.old.trips count start }
    ensures kept { lists.new ≡ listed (last_trips (lists.old.trips ++ rtt ∷ [])) (count + 1) start }
    ensures steps { steps.old ≤ steps.new }
    ensures credit { steps.new + credit lists.new ≤ steps.old + credit lists.old + 12 }
{
    leave(lists, Which::Base, count, start);
    leave(lists, Which::Recent, count, start);
    leave(lists, Which::WideOld, count, start);
    leave(lists, Which::WideNew, count, start);
    leave(lists, Which::NearOld, count, start);
    leave(lists, Which::NearNew, count, start);
    lists.add(rtt);
    enter(lists, Which::Base, count + 1, steps);
    enter(lists, Which::Recent, count + 1, steps);
    enter(lists, Which::WideOld, count + 1, steps);
    enter(lists, Which::WideNew, count + 1, steps);
    enter(lists, Which::NearOld, count + 1, steps);
    enter(lists, Which::NearNew, count + 1, steps);
}
