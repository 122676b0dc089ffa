// The periods that are believed of a counter.
ghost use Rattle.std.specs.Prelude.{◌≡◌, ◌^◌, ◌≤◌, ◌<◌};
ghost use Rattle.ff_grain.specs.Periods.{nominal_period, lowest_period, highest_period};

/// The bounds of the range lie this part of the nominal period away from it.
const PART: u64 = 2000;

/// The nominal period of a counter of `freq` Hz, in grains of 2^-64 s per count: the greatest even
/// number that is not above `2^64 / freq`.
///
/// Frequencies are from 10^6 to 16*10^9, which have the periods 18446744073708 and 1152921504.
/// FreeBSD's `ffclock_reset_clock` starts from this period.
#[tactic(auto, unfolding(crate::specs::Periods::nominal_period))]
pub fn nominal_period(freq: u64) -> u64
    requires low { 1000000 ≤ freq }
    requires high { freq ≤ 16000000000 }
    ensures value { result ≡ nominal_period freq }
    ensures least { 1152921504 ≤ result }
    ensures most { result ≤ 18446744073708 }
{
    (1u64 << 63) / freq * 2
}

/// The least period that is believed of a counter of `freq` Hz, in grains of 2^-64 s per count: 500
/// parts in a million below the nominal one.
///
/// Frequencies are from 10^6 to 16*10^9.
#[tactic(auto, unfolding(crate::specs::Periods::lowest_period))]
pub fn lowest_period(freq: u64) -> u64
    requires low { 1000000 ≤ freq }
    requires high { freq ≤ 16000000000 }
    ensures value { result ≡ lowest_period freq }
    ensures above { 0 < result }
    ensures order { result ≤ nominal_period freq }
{
    let nominal = nominal_period(freq);
    nominal - nominal / PART
}

/// The greatest period that is believed of a counter of `freq` Hz, in grains of 2^-64 s per count:
/// 500 parts in a million above the nominal one.
///
/// Frequencies are from 10^6 to 16*10^9.
#[tactic(auto, unfolding(crate::specs::Periods::highest_period))]
pub fn highest_period(freq: u64) -> u64
    requires low { 1000000 ≤ freq }
    requires high { freq ≤ 16000000000 }
    ensures value { result ≡ highest_period freq }
    ensures bound { result < 2 ^ 45 }
    ensures order { nominal_period freq ≤ result }
{
    let nominal = nominal_period(freq);
    nominal + nominal / PART
}
