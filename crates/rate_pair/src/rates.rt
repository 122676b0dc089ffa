// The rates of a counter.
ghost use Rattle.std.specs.Prelude.{◌≡◌, ◌^◌, ◌≤◌, ◌<◌};
ghost use Rattle.stamp_text.specs.Accepted.{IsInRange, IsPlausible, Follows};
ghost use Rattle.stamp_text.specs.declared.lines.Stamp.{Stamp};
ghost use Rattle.rate_pair.specs.Rates.{IsRate, nominal_rate, nearest_period, rate_of};
ghost use Rattle.rate_pair.specs.Intervals.{IsBetween};

use ff_grain::{grains_of, highest_period, lowest_period, nominal_period};
use stamp_text::Stamp;

/// How fast a counter runs, in grains of 2^-64 s per count.
#[derive(Clone, Copy, Debug, PartialEq, Eq)]
pub struct Rate {
    /// The period that is estimated.
    pub period: u64,
    /// The lower bound of the period.
    pub low: u64,
    /// The upper bound of the period.
    pub high: u64,
}

impl Rate {
    ghost use Rattle.std.specs.Prelude.{◌≡◌};
    ghost use Rattle.rate_pair.specs.Rates.{rate_error};

    /// By how much the period may be wrong, in grains per count: its distance from the bound that is
    /// farther away.
    #[inline(always)]
    pub fn error(&self) -> u64
        ensures { result ≡ rate_error self.now }
    {
        let above = self.high.saturating_sub(self.period);
        let below = self.period.saturating_sub(self.low);
        above.max(below)
    }
}

/// The rate of a counter of which only the nominal frequency is known: the nominal period, and the
/// lowest and the highest that are believed.
///
/// `freq` is that frequency in Hz, from 10^6 to 16*10^9.
pub fn nominal(freq: u64) -> Rate
    requires low { 1000000 ≤ freq }
    requires high { freq ≤ 16000000000 }
    ensures value { result ≡ nominal_rate freq }
    ensures order { IsRate freq result }
    ensures above { 0 < result.low }
    ensures bound { result.high < 2 ^ 45 }
{
    Rate {
        period: nominal_period(freq),
        low: lowest_period(freq),
        high: highest_period(freq),
    }
}

// The believed period that is nearest to a number.
fn nearest_period(freq: u64, x: u128) -> u64
    requires low { 1000000 ≤ freq }
    requires high { freq ≤ 16000000000 }
    ensures value { result ≡ nearest_period freq x }
    ensures above { 0 < result }
    ensures bound { result < 2 ^ 45 }
{
    let lowest = u128::from(lowest_period(freq));
    let highest = u128::from(highest_period(freq));
    x.clamp(lowest, highest) as u64
}

/// What lies between two exchanges with the server, the first before the second. Their rate depends on
/// nothing else.
#[derive(Clone, Copy, Debug, PartialEq, Eq)]
pub struct Interval {
    /// The grains from one to the other, summed over both ways of the exchange.
    pub grains: u128,
    /// The counts from one to the other, summed likewise.
    pub counts: u64,
    /// Both round trips together, in counts.
    pub trips: u64,
}

/// What lies between two exchanges, `j` before `k`.
///
/// Both are accepted stamps of one list, of a counter with the nominal frequency `freq` in Hz.
#[inline(always)]
pub fn between(j: &Stamp, k: &Stamp, freq: u64) -> Interval
    requires first { IsInRange j.now }
    requires second { IsInRange k.now }
    requires first_sound { IsPlausible freq j.now }
    requires second_sound { IsPlausible freq k.now }
    requires follows { Follows j.now k.now }
    ensures value { IsBetween result j.now k.now }
    ensures order { result.trips < result.counts }
    ensures most { result.counts < 2 ^ 63 }
{
    let forward = grains_of(k.tb) - grains_of(j.tb);
    let backward = grains_of(k.te) - grains_of(j.te);
    Interval {
        grains: forward + backward,
        counts: (k.ta - j.ta) + (k.tf - j.tf),
        trips: (j.tf - j.ta) + (k.tf - k.ta),
    }
}

/// The rate of a counter by what lies between two exchanges, whose counts are more than both round
/// trips: that of `of_pair`.
///
/// `freq` is the counter's nominal frequency in Hz, from 10^6 to 16*10^9.
#[tactic(auto, using(crate::proofs::RateLaws::nearest_is_rate, crate::proofs::RateLaws::rate_by_interval))]
pub fn of_interval(between: &Interval, freq: u64) -> Rate
    requires low { 1000000 ≤ freq }
    requires high { freq ≤ 16000000000 }
    requires order { between.now.trips < between.now.counts }
    requires most { between.now.counts < 2 ^ 63 }
    ensures value { (j k : Stamp) → IsBetween between.now j k → result ≡ rate_of j k freq }
    ensures order { IsRate freq result }
    ensures above { 0 < result.low }
    ensures bound { result.high < 2 ^ 45 }
{
    let grains = between.grains;
    let counts = u128::from(between.counts);
    let trips = u128::from(between.trips);
    Rate {
        period: nearest_period(freq, grains / counts),
        low: nearest_period(freq, grains / (counts + trips)),
        high: nearest_period(freq, grains.div_ceil(counts - trips)),
    }
}

/// The rate of a counter by two exchanges with the server, `j` before `k`.
///
/// The period is the grains from one to the other over the counts from one to the other, each summed
/// over both ways of the exchange, and rounded down. The server may have read its clock anywhere in
/// the two round trips. So the lower bound divides by the counts and both round trips, rounded down,
/// and the upper bound by the counts without both round trips, rounded up. Each of the three is then
/// the number nearest to this among the periods that are believed. After the forward and backward
/// rates of Veitch, Ridoux and Korada (2009), joined into one fraction.
///
/// `freq` is the counter's nominal frequency in Hz, from 10^6 to 16*10^9. Both are accepted stamps of
/// one list. These do not overlap, so the counts are more than both round trips.
pub fn of_pair(j: &Stamp, k: &Stamp, freq: u64) -> Rate
    requires low { 1000000 ≤ freq }
    requires high { freq ≤ 16000000000 }
    requires first { IsInRange j.now }
    requires second { IsInRange k.now }
    requires first_sound { IsPlausible freq j.now }
    requires second_sound { IsPlausible freq k.now }
    requires follows { Follows j.now k.now }
    ensures value { result ≡ rate_of j.now k.now freq }
    ensures order { IsRate freq result }
    ensures above { 0 < result.low }
    ensures bound { result.high < 2 ^ 45 }
{
    of_interval(&between(j, k, freq), freq)
}
