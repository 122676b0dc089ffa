// Two stamps in a world that just holds them, and one grain later. What is expected was worked out by
// hand from the rules of the daemon and of the clock.
ghost use Rattle.std.specs.Prelude.{◌≡◌, ◌<◌, ◌^◌};
ghost use Rattle.stamp_text.specs.Accepted.{IsInRange};

use crate::{Deviation, Judged, Watched, World, farthest};
use clock_core::Core;
use clock_lines::Kind;
use ff_grain::{Bintime, from_nanos};
use ff_hands::{Order, reset_estimate};
use stamp_maker::{Maker, made_world};
use stamp_text::{Refused, Stamp};
use std::marker::Brand;
use std::sync::ledger::{Blank, Ledger};
use std::test::Fail;
use step_count::Steps;

const FREQ: u64 = 1_000_000_000;

/// The greatest count of a stamp.
const MOST: u64 = (1 << 62) - 1;

/// The true time at count 0.
const START: i128 = 1_699_999_999 * (1 << 64) + 709_551_616;

fn world_of(start: i128) -> World {
    World {
        period: 18_446_744_073,
        start,
    }
}

// An exchange that the server answers at once, at a whole second.
fn stamp_of(ta: u64, sec: u32, tf: u64) -> Stamp
    ensures { IsInRange result }
{
    Stamp {
        ta: ta.min(MOST),
        tb: from_nanos(u64::from(sec), 0),
        te: from_nanos(u64::from(sec), 0),
        tf: tf.min(MOST),
        stratum: 1,
        leap: 0,
    }
}

fn feed_under<L: Ledger>(watched: &mut Watched, s: Stamp, blank: Blank) -> Judged
    requires timed { IsInRange s }
    requires name { blank.name ≡ L.name }
    requires parts { blank.parts ≡ L.parts }
    requires some { 0 < blank.parts }
{
    watched.feed(s, &mut Steps::<L>::new(blank))
}

// Feeds a stamp, for who counts nothing.
fn feed(watched: &mut Watched, s: Stamp) -> Judged
    requires { IsInRange s }
{
    feed_under::<Brand>(watched, s, Blank::new(1))
}

// The example input.
fn first() -> Stamp
    ensures { IsInRange result }
{
    stamp_of(1_000_000_000, 1_700_000_000, 1_000_100_000)
}

fn second() -> Stamp
    ensures { IsInRange result }
{
    stamp_of(17_000_000_000, 1_700_000_016, 17_000_100_000)
}

// By how much the estimate's time is off, and its spread.
fn distance_of(judged: Judged) -> Option<(u128, u128)> {
    match judged {
        Judged::Estimate { full, distance } => Some((distance, full.spread)),
        Judged::Outside | Judged::Refused(_) => None,
    }
}

#[test]
fn estimates_are_off_by_their_distances(rt: HostRuntime) -> Result<(), Fail> {
    let world = world_of(START);
    assert!(rt; world.fits(FREQ));
    let mut watched = Watched::new(rt.alloc(), world, FREQ)?;
    let judged = feed(&mut watched, first());
    assert_eq!(rt;
        distance_of(judged),
        Some((922_337_203_700_000, 923_259_540_800_001))
    );
    assert_eq!(rt;
        feed(&mut watched, first()),
        Judged::Refused(Refused::Overlap)
    );
    let judged = feed(&mut watched, second());
    assert_eq!(rt;
        distance_of(judged),
        Some((922_331_527_237_072, 1_844_700_733_050_001))
    );
    Ok(())
}

/// How many grains pass in a hundred thousand counts of that world.
const TRIP: i128 = 1_844_674_407_300_000;

// A world that is a grain later than the request allows, or a grain earlier than the reply does.
#[test]
fn a_grain_more_and_a_stamp_is_outside(rt: HostRuntime) -> Result<(), Fail> {
    for (start, outside) in [
        (START, false),
        (START + 1, true),
        (START - TRIP, false),
        (START - TRIP - 1, true),
    ] {
        let world = world_of(start);
        assert!(rt; world.fits(FREQ));
        let mut watched = Watched::new(rt.alloc(), world, FREQ)?;
        assert_eq!(rt; feed(&mut watched, first()) == Judged::Outside, outside);
    }
    Ok(())
}

// Winds a clock at a count, where the order is sane.
fn wind(clock: &mut Core, count: u64, o: Order) -> Result<(), Fail>
    requires { count < 2 ^ 62 }
{
    clock.reserve(1)?;
    clock.advance(count);
    if o.sane() {
        let _told = clock.wind(o);
    }
    Ok(())
}

// Takes the estimate at a stamp.
fn take(clock: &mut Core, judged: Judged) -> Result<(), Fail> {
    match judged {
        Judged::Estimate { full, .. } => {
            wind(
                clock,
                full.est.update_ffcount.min(MOST),
                Order::Take(full.est),
            )
        }
        Judged::Outside | Judged::Refused(_) => Ok(()),
    }
}

// The first of the farthest ticks is told, also where the one behind it is off by as much.
#[test]
fn the_farthest_tick_is_found(rt: HostRuntime) -> Result<(), Fail> {
    let world = world_of(START);
    assert!(rt; world.fits(FREQ));
    let mut watched = Watched::new(rt.alloc(), world, FREQ)?;
    let mut clock = Core::new(rt.alloc())?;
    let start = reset_estimate(Bintime { sec: 0, frac: 0 }, 0, FREQ);
    wind(&mut clock, 0, Order::Reset(start))?;
    assert_eq!(rt; farthest(&world, clock.ticks()), None);
    take(&mut clock, feed(&mut watched, first()))?;
    wind(&mut clock, 1_000_100_000, Order::Plain)?;
    take(&mut clock, feed(&mut watched, second()))?;
    assert_eq!(rt; clock.ticks().len(), 5);
    let found = Deviation {
        tick: 2,
        distance: 922_337_203_700_000,
        bound: 923_259_540_903_700,
    };
    assert_eq!(rt; farthest(&world, clock.ticks()), Some(found));
    clock.advance(18_000_100_000);
    let read = clock.read(Kind::Abs);
    assert_eq!(rt;
        world.distance(read.time, 18_000_100_000),
        922_331_527_237_072
    );
    assert_eq!(rt; read.bound, 1_960_005_314_465_550);
    Ok(())
}

// Each made stamp lies in the made world, and its estimate is within its spread.
#[test]
fn made_stamps_are_judged(rt: HostRuntime) -> Result<(), Fail> {
    let mut watched = Watched::new(rt.alloc(), made_world(), stamp_maker::FREQ)?;
    let mut maker = Maker::new(7, 40);
    for _ in 0..40 {
        if let Some(made) = maker.next() {
            let told = distance_of(feed(&mut watched, made.stamp()));
            assert!(rt; matches!(told, Some((distance, spread)) if distance <= spread));
        }
    }
    assert_eq!(rt; maker.next(), None);
    Ok(())
}

#[test]
fn worlds_fit_their_frequencies(rt: HostRuntime) {
    for (period, start, fits) in [
        (18_446_744_073, 0, true),
        (18_437_520_700, (1 << 96) - 1, true),
        (18_455_967_444, 0, true),
        (18_437_520_699, 0, false),
        (18_455_967_445, 0, false),
        (18_446_744_073, -1, false),
        (18_446_744_073, 1 << 96, false),
    ] {
        let world = World { period, start };
        assert_eq!(rt; world.fits(FREQ), fits);
    }
}

#[test]
fn the_truth_goes_on(rt: HostRuntime) {
    let world = world_of(START);
    assert!(rt; world.fits(FREQ));
    let wanted = Bintime {
        sec: 1_700_000_000,
        frac: 0,
    };
    assert_eq!(rt; world.truth(1_000_000_000), wanted);
    assert_eq!(rt; world.distance(wanted, 1_000_000_001), 18_446_744_073);
}
