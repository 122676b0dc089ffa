// All that is said at a stamp.
ghost use Rattle.std.specs.Prelude.{◌≡◌, ◌<◌, ◌≤◌, ◌^◌, ℕ, pos, ◌≤ℤ◌, ◌<ℤ◌, List, ◌++◌, length};
ghost use Rattle.stamp_text.specs.declared.lines.Stamp.{Stamp};
ghost use Rattle.rate_pair.specs.Rates.{IsRate};
ghost use Rattle.ff_estimator.specs.Events.{with_leaps};
ghost use Rattle.ff_estimator.specs.Estimates.{nanos_of, rate_parts, estimate_of, full_of, full_at};

use crate::choices::Taken;
use crate::leaps::LeapFields;
use crate::rates::Rates;
use ff_grain::Bintime;
use ff_hands::{Estimate, Marks};
use rate_pair::Rate;
use stamp_text::Refused;

/// An estimate, and what stands behind it.
#[derive(Clone, Copy, Debug, PartialEq, Eq)]
pub struct Full {
    pub est: Estimate,
    /// How far the time may be off, in grains, as it is before it is rounded to nanoseconds.
    pub spread: u128,
    /// The global rate.
    pub rate: Rate,
    /// The level of the round trips shifted at this stamp.
    pub shifted: bool,
    /// The mean was taken at the local rate.
    pub local: bool,
    /// The prediction was taken in the place of a mean.
    pub predicted: bool,
}

/// What the daemon answers to a stamp.
#[derive(Clone, Copy, Debug, PartialEq, Eq)]
pub enum Fed {
    /// The stamp is not accepted: the first test that holds.
    Refused(Refused),
    /// The estimate at the stamp.
    Estimate(Full),
}

/// What an accepted item says to a clock.
#[derive(Clone, Copy, Debug, PartialEq, Eq)]
pub enum Event {
    /// The estimate at a stamp.
    Estimate(Full),
    /// The clock is set to a time at a count.
    Set { count: u64, at: Bintime },
}

/// The grains of a second.
const SECOND: u128 = 1 << 64;

/// The nanoseconds of a second.
const NANOS: u128 = 1_000_000_000;

/// The parts of a whole, for errors of a rate.
const PARTS: u128 = 1_000_000_000_000;

/// How many stamps the daemon warms up for.
const WARM: u64 = 16;

// A spread in nanoseconds, rounded up. The product may not fit, so the seconds are taken apart.
#[inline(always)]
#[tactic(auto, using(ff_grain::proofs::Parts::ceil_by_parts))]
fn nanos_of(spread: u128) -> u128
    requires { spread < 2 ^ 126 }
    ensures { result ≡ nanos_of spread }
{
    spread / SECOND * NANOS + (spread % SECOND * NANOS).div_ceil(SECOND)
}

// The error of a rate in parts in 10^12, rounded up.
#[inline(always)]
fn rate_error(rate: &Rate, freq: u64) -> u32
    requires low { 1000000 ≤ freq }
    requires high { freq ≤ 16000000000 }
    requires order { IsRate freq rate.now }
    ensures { result ≡ rate_parts rate.now }
{
    (PARTS * u128::from(rate.error())).div_ceil(u128::from(rate.period)) as u32
}

// The estimate at stamp `i`, whose reply came at `count`, by the global rate and what was taken.
#[inline(always)]
fn estimate_of(i: u64, count: u64, rate: &Rate, t: &Taken, freq: u64) -> Estimate
    requires low { 1000000 ≤ freq }
    requires high { freq ≤ 16000000000 }
    requires order { IsRate freq rate.now }
    requires spread { t.now.spread < 2 ^ 126 }
    ensures { result ≡ estimate_of i count rate.now t.now }
{
    let nanos = nanos_of(t.spread);
    let most = u128::from(u32::MAX);
    Estimate {
        update_time: Bintime::of_grains(t.time),
        update_ffcount: count,
        leapsec_next: 0,
        period: rate.period,
        errb_abs: nanos.min(most) as u32,
        errb_rate: rate_error(rate, freq),
        status: Marks {
            unsync: nanos > most,
            warmup: i < WARM,
        },
        leapsec_total: 0,
        leapsec: 0,
    }
}

/// All that is said at stamp `i`, whose reply came at `count`.
#[inline(always)]
pub fn full_of(i: u64, count: u64, rates: &Rates, shifted: bool, t: &Taken, freq: u64) -> Full
    requires low { 1000000 ≤ freq }
    requires high { freq ≤ 16000000000 }
    requires order { IsRate freq rates.now.global }
    requires spread { t.now.spread < 2 ^ 126 }
    ensures { result ≡ full_of i count rates.now.global shifted rates.now.local t.now }
{
    Full {
        est: estimate_of(i, count, &rates.global, t, freq),
        spread: t.spread,
        rate: rates.global,
        shifted,
        local: rates.local,
        predicted: t.predicted,
    }
}

/// The same with what is told of leap seconds.
#[inline(always)]
pub fn with_leaps(fields: LeapFields, full: Full) -> Full
    ensures { result ≡ with_leaps fields full }
{
    Full {
        est: Estimate {
            leapsec_next: fields.next,
            leapsec_total: fields.total,
            leapsec: fields.sign,
            ..full.est
        },
        ..full
    }
}

/// The law that what is said at a stamp depends on it and on the stamps before it alone: it stays,
/// whatever stamps come behind.
pub fn estimates_stay()
    ensures { (freq : ℕ) (all more : List Stamp) (i : ℕ) → i < length all → full_at freq (all ++ more) i ≡ full_at freq all i }
{}
