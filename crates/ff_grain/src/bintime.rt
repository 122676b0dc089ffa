// Seconds, and grains below one second.
ghost use Rattle.std.specs.Prelude.{◌≡◌, refl, ◌*◌, ◌^◌, ◌<◌, pos, ◌+ℤ◌, ◌-ℤ◌, FitsSigned};
ghost use Rattle.std.specs.Int.{w128};
ghost use Rattle.std.specs.Cmp.{partial_equiv_from_equiv, int_eq_equiv, int_cmp_total, signed_po, on_equiv, on_total, on_po};
ghost use Rattle.std.specs.Ordering.{on, int_cmp, int_eq, as_partial_cmp};
ghost use Rattle.ff_grain.specs.Grains.{number_of, grains_of, IsTime, of_grains, of_nanos, nanos_floor, nanos_ceil};

use std::cmp::Ordering;

/// A time, or a distance of two times: whole seconds, and `frac` grains of 2^-64 s above them.
///
/// Each `i128` is the number of grains of exactly one `Bintime`: `sec * 2^64 + frac`. So -1 grain
/// has the second -1 and the greatest fraction. Times compare as their numbers of grains do. After
/// FreeBSD's `struct bintime`.
#[derive(Clone, Copy, Debug)]
pub struct Bintime {
    pub sec: i64,
    pub frac: u64,
}

/// The grains of a second.
const SECOND: i128 = 1 << 64;

/// The nanoseconds of a second.
const NANOS: u128 = 1_000_000_000;

impl Bintime {
    /// The number of grains.
    pub fn grains(self) -> i128
        ensures { result ≡ number_of self }
    {
        i128::from(self.sec) * SECOND + i128::from(self.frac)
    }

    /// The time of so many grains, of which there is one.
    pub fn of_grains(g: i128) -> Bintime
        ensures value { result ≡ of_grains g }
        ensures number { number_of result ≡ g }
    {
        Bintime {
            sec: g.div_euclid(SECOND) as i64,
            frac: g.rem_euclid(SECOND) as u64,
        }
    }

    /// The sum. Its number of grains has to fit in an `i128`.
    pub fn add(self, o: Bintime) -> Bintime
        requires { FitsSigned w128 (number_of self +ℤ number_of o) }
        ensures { number_of result ≡ number_of self +ℤ number_of o }
    {
        Bintime::of_grains(self.grains() + o.grains())
    }

    /// The difference. Its number of grains has to fit in an `i128`.
    pub fn sub(self, o: Bintime) -> Bintime
        requires { FitsSigned w128 (number_of self -ℤ number_of o) }
        ensures { number_of result ≡ number_of self -ℤ number_of o }
    {
        Bintime::of_grains(self.grains() - o.grains())
    }

    /// The nanoseconds, rounded down to a whole one: the last whole nanosecond that is not after
    /// this time.
    pub fn nanos_floor(self) -> i128
        ensures { result ≡ nanos_floor self }
    {
        let part = (u128::from(self.frac) * NANOS) >> 64;
        i128::from(self.sec) * NANOS as i128 + part as i128
    }

    /// The nanoseconds, rounded up to a whole one: the first whole nanosecond that is not before
    /// this time.
    pub fn nanos_ceil(self) -> i128
        ensures { result ≡ nanos_ceil self }
    {
        let part = (u128::from(self.frac) * NANOS).div_ceil(SECOND as u128);
        i128::from(self.sec) * NANOS as i128 + part as i128
    }
}

impl PartialEq for Bintime {
    ghost eq = { on number_of int_eq };

    ghost laws = { partial_equiv_from_equiv (on_equiv number_of int_eq_equiv) };

    fn eq(&self, other: &Bintime) -> bool {
        self.grains() == other.grains()
    }
}

impl Eq for Bintime {
    ghost laws = { on_equiv number_of int_eq_equiv };
}

impl Ord for Bintime {
    ghost cmp = { on number_of int_cmp };

    ghost total = { on_total number_of int_cmp_total };

    ghost matches_partial_cmp = { λ s t. refl };

    ghost matches_eq = { λ s t. refl };

    fn cmp(&self, other: &Bintime) -> Ordering {
        self.grains().cmp(&other.grains())
    }
}

impl PartialOrd for Bintime {
    ghost partial_cmp = { as_partial_cmp (on number_of int_cmp) };

    ghost laws = { on_po number_of signed_po };

    fn partial_cmp(&self, other: &Bintime) -> Option<Ordering> {
        Some(self.cmp(other))
    }
}

/// The number of grains of a time that is not negative and below 2^32 s.
pub fn grains_of(t: Bintime) -> u128
    requires { IsTime t }
    ensures value { result ≡ grains_of t }
    ensures bound { result < 2 ^ 96 }
{
    u128::from(t.sec as u64) * SECOND as u128 + u128::from(t.frac)
}

/// The time that `delta` counts take at a period of `period` grains per count, exactly.
///
/// Counts are below 2^62 and a period below 2^55. After FreeBSD's `ffclock_convert_delta`, which
/// multiplies in pieces.
pub fn convert_delta(delta: u64, period: u64) -> Bintime
    requires delta { delta < 2 ^ 62 }
    requires period { period < 2 ^ 55 }
    ensures { number_of result ≡ pos (delta * period) }
{
    let grains = u128::from(delta) * u128::from(period);
    Bintime::of_grains(grains as i128)
}

/// The whole grains of a nanosecond.
const GRAINS_OF_NANO: u64 = 18_446_744_073;

/// What a nanosecond has above its whole grains, in parts of 10^9 of a grain.
const PART_OF_NANO: u64 = 709_551_616;

/// So many seconds and nanoseconds, rounded down to a whole grain.
///
/// Seconds are below 2^63 and nanoseconds below 10^9.
// It is a call of its own: in place it would take registers from the readers of lines.
#[inline(never)]
#[tactic(auto, using(crate::proofs::Parts::grains_by_nanos))]
pub fn from_nanos(sec: u64, nanos: u32) -> Bintime
    requires sec { sec < 2 ^ 63 }
    requires nanos { nanos < 1000000000 }
    ensures { result ≡ of_nanos sec nanos }
{
    let nanos = u64::from(nanos);
    let part = nanos * PART_OF_NANO / 1_000_000_000;
    Bintime {
        sec: sec as i64,
        frac: nanos * GRAINS_OF_NANO + part,
    }
}

#[cfg(test)]
mod tests {
    use super::*;

    #[test]
    fn conversions_are_exact(rt: HostRuntime) {
        let second = convert_delta(1_000_000_000, 18_446_744_073);
        let wanted = Bintime {
            sec: 0,
            frac: 18_446_744_073_000_000_000,
        };
        assert_eq!(rt; second, wanted);
        assert_eq!(rt; from_nanos(0, 1).grains(), 18_446_744_073);
        let below = Bintime {
            sec: -1,
            frac: 18_446_744_073_709_551_615,
        };
        assert_eq!(rt; Bintime::of_grains(-1), below);
    }

    #[test]
    fn nanoseconds_are_rounded_both_ways(rt: HostRuntime) {
        for (grains, floor, ceil) in [
            (from_nanos(0, 1).grains(), 0, 1),
            (-1, -1, 0),
            (-18_446_744_074, -2, -1),
            (-SECOND, -1_000_000_000, -1_000_000_000),
            (1 << 55, 1_953_125, 1_953_125),
        ] {
            let time = Bintime::of_grains(grains);
            assert_eq!(rt; time.nanos_floor(), floor, "at {grains}");
            assert_eq!(rt; time.nanos_ceil(), ceil, "at {grains}");
        }
    }
}
