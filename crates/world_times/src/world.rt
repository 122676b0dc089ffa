// A world in which a counter runs at one rate.
ghost use Rattle.std.specs.Prelude.{◌≡◌, ◌↔◌, ◌<◌, ◌≤◌, ◌^◌, IsTrue};
ghost use Rattle.ff_grain.specs.Grains.{number_of};
ghost use Rattle.world_times.specs.Worlds.{IsFit, IsWorld, LiesIn, truth, distance};

use ff_grain::{Bintime, highest_period, lowest_period};
use stamp_text::Stamp;

/// A world in which a counter runs at one rate.
#[derive(Clone, Copy, Debug, PartialEq, Eq)]
pub struct World {
    /// The true period, in grains of 2^-64 s per count.
    pub period: u64,
    /// The true time at count 0, in grains.
    pub start: i128,
}

/// The first time that a stamp cannot have, 2^32 s, in grains.
const END: i128 = 1 << 96;

impl World {
    /// Whether its period is one that is believed of the nominal frequency `freq` in Hz, from 10^6 to
    /// 16*10^9, and its start from 0 to below 2^32 s.
    pub fn fits(&self, freq: u64) -> bool
        requires low { 1000000 ≤ freq }
        requires high { freq ≤ 16000000000 }
        ensures fits { IsTrue result ↔ IsFit freq self.now }
        ensures world { IsTrue result → IsWorld self.now }
    {
        lowest_period(freq) <= self.period
            && self.period <= highest_period(freq)
            && 0 <= self.start
            && self.start < END
    }

    // The true time at a count, in grains.
    fn grains_at(&self, count: u64) -> i128
        requires world { IsWorld self.now }
        requires count { count < 2 ^ 62 }
        ensures { result ≡ truth self.now count }
    {
        let since = u128::from(self.period) * u128::from(count);
        self.start + since as i128
    }

    /// The true time at a count below 2^62.
    pub fn truth(&self, count: u64) -> Bintime
        requires world { IsWorld self.now }
        requires count { count < 2 ^ 62 }
        ensures { number_of result ≡ truth self.now count }
    {
        Bintime::of_grains(self.grains_at(count))
    }

    /// Whether neither way of an exchange took less than no time: the request did not reach the server
    /// before it left, nor did the reply come before it was sent. Counters are below 2^62.
    pub fn holds(&self, s: &Stamp) -> bool
        requires world { IsWorld self.now }
        requires ta { s.now.ta < 2 ^ 62 }
        requires tf { s.now.tf < 2 ^ 62 }
        ensures { IsTrue result ↔ LiesIn self.now s.now }
    {
        self.grains_at(s.ta) <= s.tb.grains() && s.te.grains() <= self.grains_at(s.tf)
    }

    /// By how much a time is off at a count below 2^62, in grains.
    pub fn distance(&self, time: Bintime, count: u64) -> u128
        requires world { IsWorld self.now }
        requires count { count < 2 ^ 62 }
        ensures { result ≡ distance self.now (number_of time) count }
    {
        time.grains().abs_diff(self.grains_at(count))
    }
}
