// Which time is taken at a stamp: the mean, or the prediction from the stamp before it.
ghost use Rattle.std.specs.Prelude.{◌≡◌, ◌+◌, ◌*◌, ◌<◌, ◌≤◌, ◌^◌, ℕ, pos, ◌≤ℤ◌, ◌<ℤ◌, false, List, ◌∷◌, IfSome, IsSome};
ghost use Rattle.stamp_text.specs.declared.lines.Stamp.{Stamp};
ghost use Rattle.ff_estimator.specs.Means.{mean_at};
ghost use Rattle.ff_estimator.specs.Choices.{is_doubted, chosen, predicted_by, taken_at};
ghost use Rattle.ff_estimator.specs.Daemons.{IsTakenBounded};

use rate_pair::Rate;

/// What is taken for the time at a stamp.
#[derive(Clone, Copy, Debug, PartialEq, Eq)]
pub struct Taken {
    /// The time, in grains.
    pub time: i128,
    /// How far the time may be off, in grains.
    pub spread: u128,
    /// It is the prediction from the stamp before.
    pub predicted: bool,
    /// How many times in a row the sanity check took the prediction.
    pub run: u32,
}

/// The first stamp at which a mean may be doubted.
const WARM: u64 = 16;

/// How many times in a row a mean may be doubted.
const MOST_DOUBTS: u32 = 32;

/// The grains of a millisecond, rounded down.
const MILLISECOND: u128 = 18_446_744_073_709_551;

// The sanity check.
#[inline(always)]
fn is_doubted(i: u64, run: u32, predicted: i128, mean: i128) -> bool
    requires predicted { (pos 0 ≤ℤ predicted) × (predicted <ℤ pos (2 ^ 110)) }
    requires mean { (pos 0 ≤ℤ mean) × (mean <ℤ pos (2 ^ 110)) }
    ensures { result ≡ is_doubted i run predicted mean }
{
    i >= WARM && mean.abs_diff(predicted) > MILLISECOND && run < MOST_DOUBTS
}

/// What is taken at stamp `i`, by how many times in a row its prediction was taken for a doubted
/// mean, by its prediction and by its mean, each a time and its spread in grains.
#[inline(always)]
pub fn chosen(i: u64, run: u32, predicted: (i128, u128), mean: Option<(i128, u128)>) -> Taken
    requires predicted { (pos 0 ≤ℤ predicted.0) × (predicted.0 <ℤ pos (2 ^ 110)) }
    requires mean { IfSome mean (λ m. (pos 0 ≤ℤ m.0) × (m.0 <ℤ pos (2 ^ 110))) }
    ensures { result ≡ chosen i run predicted mean }
{
    match mean {
        Some((time, spread)) if !is_doubted(i, run, predicted.0, time) => Taken {
            time,
            spread,
            predicted: false,
            run: 0,
        },
        Some(_) => Taken {
            time: predicted.0,
            spread: predicted.1,
            predicted: true,
            run: run + 1,
        },
        None => Taken {
            time: predicted.0,
            spread: predicted.1,
            predicted: true,
            run,
        },
    }
}

/// What was taken, carried over `counts` at a rate: the time and its spread in grains.
#[inline(always)]
pub fn predicted_by(rate: &Rate, counts: u64, t: &Taken) -> (i128, u128)
    requires counts { counts < 2 ^ 62 }
    requires period { rate.now.period < 2 ^ 45 }
    requires high { rate.now.high < 2 ^ 45 }
    requires low { pos 0 ≤ℤ t.now.time }
    requires most { t.now.time <ℤ pos (2 ^ 109) }
    requires spread { t.now.spread < 2 ^ 109 }
    ensures { result ≡ predicted_by rate.now counts t.now }
{
    let time = u128::from(rate.period) * u128::from(counts);
    let spread = u128::from(rate.error()) * u128::from(counts);
    (t.time + time as i128, t.spread + spread)
}

/// The law that stamp 0 always has a mean, since its own round trip is the base: nothing is ever
/// predicted for it, and no run of the sanity check begins there.
pub fn first_has_mean()
    ensures mean { (freq : ℕ) (s : Stamp) (more : List Stamp) → IsSome (mean_at freq (s ∷ more) 0) }
    ensures predicted { (freq : ℕ) (s : Stamp) (more : List Stamp) → (taken_at freq (s ∷ more) 0).predicted ≡ false }
    ensures run { (freq : ℕ) (s : Stamp) (more : List Stamp) → (taken_at freq (s ∷ more) 0).run ≡ 0 }
{}
