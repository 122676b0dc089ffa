// Sums over stamps by their weights.
ghost use Rattle.std.specs.Prelude.{◌≡◌, ℕ, ◌+◌, ◌-◌, ◌^◌, ◌<◌, ◌≤◌, List, [], ◌∷◌, ◌++◌, length};
ghost use Rattle.std.specs.List.{All};
ghost use Rattle.offset_weights.specs.Weights.{weight_of};
ghost use Rattle.stamp_text.specs.Accepted.{IsInRange, IsPlausible, trip};
ghost use Rattle.stamp_text.specs.declared.lines.Stamp.{Stamp};
ghost use Rattle.ff_estimator.specs.Terms.{counts_since};
ghost use Rattle.ff_estimator.specs.Weighings.{AreSums, IsBounded};

use ff_grain::grains_of;
use offset_weights::{Sums, weight, weightless_from};
use rate_pair::Rate;
use stamp_text::Stamp;

/// How many stamps have a weight, their weights, and sums that each of them goes into by its weight:
/// both of the server's times in grains, the counts since both readings of the counter, and the round
/// trip in counts. The rate is the same for all of them, so it is no part of the sums.
#[derive(Clone, Copy)]
pub struct Weighed {
    pub added: u32,
    pub weight: u32,
    pub times: u128,
    pub counts: u128,
    pub trips: u128,
}

// The counts from both of a stamp's readings of the counter to a later count.
#[inline(always)]
fn counts_since(now: u64, s: &Stamp) -> u64
    requires now { now < 2 ^ 62 }
    ensures value { result ≡ counts_since now s.now }
    ensures bound { result < 2 ^ 63 }
{
    now.saturating_sub(s.ta) + now.saturating_sub(s.tf)
}

// How much a stamp counts for the time of now: by its round trip above the base, and by the counts
// since its reply.
#[inline(always)]
fn weight_of(s: &Stamp, freq: u64, base: u64, now: u64) -> u32
    requires freq { freq ≤ 16000000000 }
    requires sound { IsPlausible freq s.now }
    ensures value { result ≡ weight_of (trip s.now - base) (now - s.now.tf) freq }
    ensures most { result ≤ 65536 }
{
    let excess = (s.tf - s.ta).saturating_sub(base);
    let age = now.saturating_sub(s.tf);
    weight(excess, age, freq)
}

impl Weighed {
    ghost use Rattle.std.specs.Prelude.{◌≡◌, ℕ, []};
    ghost use Rattle.ff_estimator.specs.Weighings.{AreSums, IsBounded, AreAtRate, at_rate};

    /// No stamp.
    #[inline(always)]
    pub fn new() -> Weighed
        ensures none { (freq base now : ℕ) → AreSums freq base now result [] }
        ensures bounded { IsBounded result }
        ensures added { result.added ≡ 0 }
    {
        Weighed {
            added: 0,
            weight: 0,
            times: 0,
            counts: 0,
            trips: 0,
        }
    }

    /// The sums over what these stamps say at a rate: twice a time is both of the server's times and
    /// what the counts take, twice its spread the round trip at the highest period and what the period
    /// may be wrong over the counts.
    #[inline(always)]
    pub fn at_rate(&self, rate: &Rate) -> Sums
        requires { AreAtRate self.now rate.now }
        ensures { result ≡ at_rate self.now rate.now }
    {
        let times = self.times + u128::from(rate.period) * self.counts;
        let spreads = self.trips * u128::from(rate.high) + u128::from(rate.error()) * self.counts;
        Sums::of(self.added, self.weight, times, spreads)
    }
}

// Adds a stamp. One of weight 0 changes nothing.
#[inline(always)]
fn weigh(sums: &mut Weighed, s: &Stamp, freq: u64, base: u64, now: u64)
    requires few { sums.old.added < 32 }
    requires bounded { IsBounded sums.old }
    requires high { freq ≤ 16000000000 }
    requires now { now < 2 ^ 62 }
    requires timed { IsInRange s.now }
    requires sound { IsPlausible freq s.now }
    ensures stands { (stamps : List Stamp) → AreSums freq base now sums.old stamps →
        AreSums freq base now sums.new (stamps ++ s.now ∷ []) }
    ensures bounded { IsBounded sums.new }
    ensures added { sums.new.added ≤ sums.old.added + 1 }
{
    let weight = weight_of(s, freq, base, now);
    if weight == 0 {
        return;
    }
    let by = u128::from(weight);
    sums.added += 1;
    sums.weight += weight;
    sums.times += by * (grains_of(s.tb) + grains_of(s.te));
    sums.counts += by * u128::from(counts_since(now, s));
    sums.trips += by * u128::from(s.tf - s.ta);
}

/// Adds these stamps.
#[inline(always)]
pub fn weigh_all(sums: &mut Weighed, stamps: &[Stamp], freq: u64, base: u64, now: u64)
    requires few { sums.old.added + length stamps.now ≤ 32 }
    requires bounded { IsBounded sums.old }
    requires high { freq ≤ 16000000000 }
    requires now { now < 2 ^ 62 }
    requires timed { All IsInRange stamps.now }
    requires sound { All (IsPlausible freq) stamps.now }
    ensures stands { (before : List Stamp) → AreSums freq base now sums.old before →
        AreSums freq base now sums.new (before ++ stamps.now) }
    ensures bounded { IsBounded sums.new }
    ensures added { sums.new.added ≤ sums.old.added + length stamps.now }
{
    let longest = base.saturating_add(weightless_from(freq));
    for s in stamps {
        // Most stamps without a weight have none for their round trip alone.
        if s.tf - s.ta >= longest {
            continue;
        }
        weigh(sums, s, freq, base, now);
    }
}
