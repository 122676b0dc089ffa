// What follows for times, and worked numbers.
ghost use Rattle.std.specs.Prelude.{◌≡◌, int_lt, pos, neg_ℤ};
ghost use Rattle.ff_grain.specs.Grains.{nanos_ceil, nanos_floor, number_of, of_grains, of_nanos};
ghost use Rattle.ff_grain.specs.Periods.{highest_period, lowest_period, nominal_period};
ghost use Rattle.ff_grain.specs.Scales.{trip_scale};

use crate::bintime::Bintime;

/// A time is before another exactly where its number of grains is the smaller one.
pub fn times_compare_as_numbers(s: Bintime, t: Bintime) -> bool
    ensures { result ≡ int_lt (number_of s) (number_of t) }
{
    s < t
}

/// The law of the periods of a counter of 3 GHz: 2^64 / (3*10^9) is 6148914691.2, and the greatest even
/// number below is the nominal one.
#[tactic(auto, unfolding(crate::specs::Periods::nominal_period, crate::specs::Periods::lowest_period, crate::specs::Periods::highest_period))]
pub fn periods_are_worked()
    ensures nominal { nominal_period 3000000000 ≡ 6148914690 }
    ensures lowest { lowest_period 3000000000 ≡ 6145840233 }
    ensures highest { highest_period 3000000000 ≡ 6151989147 }
{}

/// The law of the counts of 60 microseconds: none is below 1, and parts of a count are left out.
pub fn scales_are_worked()
    ensures whole { trip_scale 1000000000 ≡ 60000 }
    ensures part { trip_scale 1016666 ≡ 60 }
    ensures least { trip_scale 1000 ≡ 1 }
{}

/// The law that nanoseconds of a time are rounded down and up to whole ones, also below 0, and grains of
/// nanoseconds down.
pub fn nanoseconds_are_worked()
    ensures down { nanos_floor (of_grains (pos 1)) ≡ pos 0 }
    ensures up { nanos_ceil (of_grains (pos 1)) ≡ pos 1 }
    ensures down_below { nanos_floor (of_grains (neg_ℤ (pos 1))) ≡ neg_ℤ (pos 1) }
    ensures up_below { nanos_ceil (of_grains (neg_ℤ (pos 1))) ≡ pos 0 }
    ensures grains { (of_nanos 0 1).frac ≡ 18446744073 }
{}
