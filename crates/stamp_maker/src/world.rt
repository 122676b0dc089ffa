// The made world.
ghost use Rattle.std.specs.Prelude.{◌≡◌, ◌^◌, ◌<◌};
ghost use Rattle.world_times.specs.Worlds.{IsFit};
ghost use Rattle.stamp_maker.specs.Worlds.{true_time, made_world};

use ff_grain::{Bintime, convert_delta};
use world_times::World;

/// The nominal frequency of the made counter, in Hz.
pub const FREQ: u64 = 2_400_000_000;

/// The true period of that counter, in grains of 2^-64 s per count.
const PERIOD: u64 = 7_686_343_364;

/// The true time at count 0.
const START: Bintime = Bintime {
    sec: 1_700_000_000,
    frac: 0,
};

/// The true time at a count below 2^62.
pub fn true_time(count: u64) -> Bintime
    requires { count < 2 ^ 62 }
    ensures { result ≡ true_time count }
{
    START.add(convert_delta(count, PERIOD))
}

/// The made world: the true period of the counter, and the true time at count 0.
#[tactic(auto, unfolding(ff_grain::specs::Periods::nominal_period, ff_grain::specs::Periods::lowest_period, ff_grain::specs::Periods::highest_period))]
pub fn made_world() -> World
    ensures value { result ≡ made_world }
    ensures fits { IsFit FREQ result }
{
    World {
        period: PERIOD,
        start: START.grains(),
    }
}
