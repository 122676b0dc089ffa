// What the clocks of an estimate, and of hands, come to at a count.
ghost use Rattle.std.specs.Prelude.{◌≡◌, ◌^◌, ◌<◌, ◌≤◌, pos, ◌≤ℤ◌, ◌<ℤ◌};
ghost use Rattle.ff_grain.specs.Grains.{number_of};
ghost use Rattle.ff_hands.specs.Bounds.{IsBounded, IsSane};
ghost use Rattle.ff_hands.specs.Windups.{after, time_of, moved_time, moved_lerp};

use crate::estimates::Estimate;
use crate::hands::Hands;
use ff_grain::Bintime;

// The grains of a time after so many counts of a period in grains. The product is exact.
fn after(t: Bintime, counts: u64, period: u64) -> i128
    requires low { pos 0 ≤ℤ number_of t }
    requires high { number_of t <ℤ pos (2 ^ 111) }
    requires counts { counts < 2 ^ 62 }
    requires period { period < 2 ^ 46 }
    ensures value { result ≡ after t counts period }
    ensures low { pos 0 ≤ℤ result }
    ensures high { result <ℤ pos (2 ^ 112) }
{
    let grains = u128::from(counts) * u128::from(period);
    t.grains() + grains as i128
}

impl Estimate {
    // The time at a count that is not before the estimate's own, in grains of 2^-64 s.
    #[inline(always)]
    pub(crate) fn time_at(&self, count: u64) -> i128
        requires sane { IsSane self.now }
        requires update { self.now.update_ffcount ≤ count }
        requires count { count < 2 ^ 62 }
        ensures value { result ≡ time_of self.now count }
        ensures low { pos 0 ≤ℤ result }
        ensures high { result <ℤ pos (2 ^ 112) }
    {
        after(self.update_time, count - self.update_ffcount, self.period)
    }
}

impl Hands {
    /// The absolute clock at a count, in grains of 2^-64 s.
    ///
    /// The count is below 2^62, and not before that of the hands, which stand in a journal of ticks.
    #[inline(always)]
    pub fn time_at(&self, count: u64) -> i128
        requires bounded { IsBounded self.now }
        requires later { self.now.count ≤ count }
        requires count { count < 2 ^ 62 }
        ensures value { result ≡ moved_time self.now count }
        ensures low { pos 0 ≤ℤ result }
        ensures high { result <ℤ pos (2 ^ 112) }
    {
        after(self.time, count - self.count, self.est.period)
    }

    /// The uninterrupted clock at a count, in grains of 2^-64 s. Counts and hands are as for
    /// [`Hands::time_at`].
    pub fn lerp_at(&self, count: u64) -> i128
        requires bounded { IsBounded self.now }
        requires later { self.now.count ≤ count }
        requires count { count < 2 ^ 62 }
        ensures value { result ≡ moved_lerp self.now count }
        ensures low { pos 0 ≤ℤ result }
        ensures high { result <ℤ pos (2 ^ 112) }
    {
        after(self.lerp, count - self.count, self.period_lerp)
    }
}
