// The rates at the newest stamp.
ghost use Rattle.std.specs.Prelude.{◌≡◌, ◌<◌, ◌≤◌, ◌^◌, true};
ghost use Rattle.rtt_window.specs.Pairs.{pair_of, ArePair};
ghost use Rattle.stamp_text.specs.declared.lines.Stamp.{Stamp};
ghost use Rattle.rate_pair.specs.Rates.{IsRate, rate_of};
ghost use Rattle.rate_pair.specs.Intervals.{IsBetween};
ghost use Rattle.ff_estimator.specs.Rates.{rate_by, uses_local};
ghost use Rattle.ff_estimator.specs.Daemons.{AreRates};

use rate_pair::{Interval, Rate, between, nominal, of_interval};
use rtt_window::Window;
use stamp_text::Stamp;

// Whether two intervals have the same grains, counts and round trips.
#[inline(always)]
fn is_same(a: &Interval, b: &Interval) -> bool
    ensures { result ≡ true → a.now ≡ b.now }
{
    a.counts == b.counts && a.trips == b.trips && a.grains == b.grains
}

/// The rate of a pair of stamps by what lies between them, kept as long as that stays.
#[derive(Clone, Copy)]
pub struct PairRate {
    between: Interval,
    freq: u64,
    rate: Rate,
    ghost is_rate: { (j k : Stamp) → IsBetween between j k → rate ≡ rate_of j k freq },
    ghost order: { IsRate freq rate },
    ghost bound: { rate.high < 2 ^ 45 },
}

// The rate of a pair: the kept one, or where something else lies between, its own, which is then kept.
#[inline(always)]
fn pair_rate(last: &mut Option<PairRate>, j: &Stamp, k: &Stamp, freq: u64) -> Rate
    requires low { 1000000 ≤ freq }
    requires high { freq ≤ 16000000000 }
    requires pair { ArePair freq j.now k.now }
    ensures value { result ≡ rate_of j.now k.now freq }
    ensures order { IsRate freq result }
    ensures bound { result.high < 2 ^ 45 }
{
    let between = between(j, k, freq);
    if let Some(kept) = last.as_ref() {
        if kept.freq == freq && is_same(&kept.between, &between) {
            return kept.rate;
        }
    }
    let rate = of_interval(&between, freq);
    *last = Some(PairRate {
        between,
        freq,
        rate,
    });
    rate
}

// The rate by the pair among the last stamps, as many as `reach`. With one stamp it is the nominal
// one. `last` keeps the rate of the last such pair.
#[inline(always)]
fn rate_over(window: &Window, reach: u32, freq: u64, last: &mut Option<PairRate>) -> Rate
    requires reach { (2 ≤ reach) × (reach ≤ 1024) }
    requires low { 1000000 ≤ freq }
    requires high { freq ≤ 16000000000 }
    requires at { window.now.freq ≡ freq }
    ensures value { result ≡ rate_by freq (pair_of reach window.now.stamps) }
    ensures order { IsRate freq result }
    ensures bound { result.high < 2 ^ 45 }
{
    match window.pair(reach) {
        Some((j, k)) => pair_rate(last, &j, &k, freq),
        None => nominal(freq),
    }
}

/// The rates at a stamp.
#[derive(Clone, Copy, Debug, PartialEq, Eq)]
pub struct Rates {
    /// By the last 1,024 stamps.
    pub global: Rate,
    /// That by which the mean is taken.
    pub in_use: Rate,
    /// It is the rate by the last 64 stamps.
    pub local: bool,
}

/// The first stamp at which the local rate may be used.
const FULL: u64 = 63;

// Whether the local rate is used at stamp `i`: from stamp 63 on, where it is near to the global one.
#[inline(always)]
fn uses_local(i: u64, local: &Rate, global: &Rate) -> bool
    ensures { result ≡ uses_local i local.now global.now }
{
    let apart = u128::from(local.period.abs_diff(global.period));
    i >= FULL && apart * 10_000_000 <= 3 * u128::from(global.period)
}

/// The rates at the newest stamp. `far` and `near` keep the rates of the last pairs.
#[inline(always)]
pub fn rates_at(
    window: &Window,
    freq: u64,
    far: &mut Option<PairRate>,
    near: &mut Option<PairRate>,
) -> Rates
    requires low { 1000000 ≤ freq }
    requires high { freq ≤ 16000000000 }
    requires at { window.now.freq ≡ freq }
    requires some { 0 < window.now.count }
    ensures value { AreRates window.now result }
    ensures order { IsRate freq result.global × IsRate freq result.in_use }
    ensures bound { result.global.high < 2 ^ 45 }
{
    let global = rate_over(window, 1024, freq, far);
    let near = rate_over(window, 64, freq, near);
    let local = uses_local(window.count() - 1, &near, &global);
    Rates {
        global,
        in_use: if local { near } else { global },
        local,
    }
}
