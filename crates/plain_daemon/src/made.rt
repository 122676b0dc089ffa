// A long run of stamps, made by a small generator.
ghost use Rattle.std.specs.Prelude.{◌<◌, ◌^◌};
ghost use Rattle.ff_grain.specs.Grains.{IsTime};
ghost use Rattle.stamp_text.specs.Accepted.{IsInRange};

use crate::rules::{FREQ, MILLISECOND, Row, Whole, highest};
use ff_grain::Bintime;
use stamp_text::Stamp;
use std::num::Saturating;

/// The counter and the server, and the stamp before.
#[derive(Clone, Copy)]
pub struct Maker {
    seed: u64,
    count: Whole,
    time: Whole,
    last: Row,
}

// How much longer than usual the way to the server is, in counts.
fn longer_way(n: u32) -> i128 {
    match n {
        15 | 16 => 9_000,
        // The level shifts at two stamps one behind the other, and falls again.
        300 => 400_000,
        301..=399 => 800_000,
        // A level that is just high enough for a shift.
        500..=559 => 270_000,
        // Stamps without weight, but below a shift.
        1500..=1539 => 200_000,
        2500 => 0,
        _ => i128::from(n / 64) * 1000,
    }
}

// How far the server's time is off, in grains.
fn jump(n: u32) -> i128 {
    match n {
        // A rate close to the highest one that is believed.
        0 => MILLISECOND / 5 * -37,
        // Far means at the last stamp that is not checked, and at the first that is.
        15 => 30 * MILLISECOND,
        16 => 60 * MILLISECOND,
        700..=719 => 9 * MILLISECOND,
        0..=899 => 0,
        900..=1489 => 9 * MILLISECOND,
        // The server's time goes back behind this one, and the rate is past the highest.
        2500 => 40 << 64,
        _ => 18 * MILLISECOND,
    }
}

impl Maker {
    pub fn new() -> Maker {
        Maker {
            seed: 1,
            count: Saturating(1_000_000_000),
            time: Saturating(1_700_000_000 << 64),
            last: Row::default(),
        }
    }

    // A number below `steps`.
    fn draw(&mut self, steps: u64) -> Whole {
        self.seed = self
            .seed
            .wrapping_mul(6_364_136_223_846_793_005)
            .wrapping_add(1_442_695_040_888_963_407);
        Saturating(i128::from((self.seed >> 33) % steps.max(1)))
    }

    // One of so many delays, in counts.
    fn delay(&mut self, steps: u64) -> Whole {
        let step = self.draw(steps);
        Saturating(30_000) + Saturating(3_000) * step * step
    }

    /// The stamp with this number, of which the next one is asked for each time.
    pub fn next(&mut self, n: u32) -> Row {
        let gap = self.draw(1_000_000)
            + Saturating(if n == 1500 { 2_016 } else { 16 } * 1_000_000_000);
        let period = Saturating(18_447_297_474 + i128::from(n / 400 % 2) * 6_000);
        self.count += gap;
        self.time += gap * period;
        let steps = match n {
            15 | 16 | 300 | 2500 => 1,
            1500..=1539 => 2,
            _ => 10,
        };
        let forward = self.delay(steps) + Saturating(longer_way(n));
        let back = self.delay(steps);
        let hold = Saturating(20_000);
        let tb = self.time + forward * period + Saturating(jump(n));
        let row = Row {
            ta: self.count,
            tb,
            te: tb + hold * period,
            tf: self.count + forward + hold + back,
        };
        let edge = self.draw(2);
        self.last = if n % 50 == 17 {
            self.edged(n / 50 % 6, edge, row)
        } else {
            row
        };
        self.last
    }

    // A stamp that is refused for one of the six reasons, or not where `edge` is on the other side.
    fn edged(&self, reason: u32, edge: Whole, row: Row) -> Row {
        let mut row = row;
        match reason {
            0 => row.tf = row.ta + edge,
            1 => row.te = row.tb - edge,
            2 => {
                row.ta = self.last.tf + edge;
                row.tf = row.ta + Saturating(600_000);
            }
            3 => {
                row.tb = self.last.te - edge;
                row.te = row.tb;
                row.tf = row.ta + Saturating(600_000);
            }
            4 => row.tf = row.ta + Saturating(i128::from(FREQ)) + edge,
            _ => row.te = row.tb + row.trip() * highest() + edge,
        }
        row
    }
}

fn count_of(x: Whole) -> u64
    ensures { result < 2 ^ 62 }
{
    u64::try_from(x.0).unwrap_or(0).min((1 << 62) - 1)
}

fn time_of(x: Whole) -> Bintime
    ensures { IsTime result }
{
    let time = Bintime::of_grains(x.0);
    Bintime {
        sec: time.sec.clamp(0, (1 << 32) - 1),
        frac: time.frac,
    }
}

/// The stamp with these numbers, which all are in their ranges, of a server that is synchronised and tells
/// of no leap second.
pub fn stamp_of(row: &Row) -> Stamp
    ensures { IsInRange result }
{
    Stamp {
        ta: count_of(row.ta),
        tb: time_of(row.tb),
        te: time_of(row.te),
        tf: count_of(row.tf),
        stratum: 1,
        leap: 0,
    }
}
