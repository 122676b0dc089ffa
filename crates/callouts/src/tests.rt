// A wheel in use: timers that fire in turn, that are cancelled, and that are due in other rounds.
ghost use Rattle.std.specs.Prelude.{◌≡◌, ◌+◌, ◌<◌, ◌≤◌, ◌^◌};
ghost use Rattle.callouts.specs.Timers.{IsDue};

use crate::{Fired, Wheel, WheelFull};
use ff_grain::Bintime;
use std::test::Fail;

// So many whole seconds.
fn seconds(sec: u32) -> Bintime
    ensures { IsDue result }
{
    Bintime {
        sec: i64::from(sec),
        frac: 0,
    }
}

#[test]
#[tactic(auto, using(crate::proofs::Changing::of_fired, crate::proofs::Changing::of_less))]
fn equal_ones_fire_by_id(rt: HostRuntime) -> Result<(), Fail> {
    let mut wheel = Wheel::new(rt.alloc(), 2)?;
    let first = wheel.add(seconds(5));
    assert_eq!(rt; first.map(|t| t.id), Ok(0));
    let Ok(second) = wheel.add(seconds(5)) else {
        return Ok(());
    };
    assert_eq!(rt; second.id, 1);
    assert_eq!(rt; wheel.add(seconds(5)), Err(WheelFull { live: 2 }));
    assert_eq!(rt; wheel.fire(seconds(4)), None);
    assert_eq!(rt; wheel.fire(seconds(5)).map(|f| f.id), Some(0));
    assert!(rt; wheel.cancel(second));
    assert!(rt; !wheel.cancel(second));
    assert_eq!(rt; wheel.fire(seconds(5)), None);
    Ok(())
}

// Adds a timer, and answers its id.
fn added(wheel: &mut Wheel, sec: u32) -> Option<u64>
    requires { wheel.old.added < 2 ^ 62 }
    ensures { wheel.new.added ≤ wheel.old.added + 1 }
{
    match wheel.add(seconds(sec)) {
        Ok(timer) => Some(timer.id),
        Err(_) => None,
    }
}

// Timers of one slot, a round and more apart, fire by due time, and so do those that a long tick passed. The
// uptime may fall.
#[test]
fn rounds_are_no_hindrance(rt: HostRuntime) -> Result<(), Fail> {
    let mut wheel = Wheel::new(rt.alloc(), 8)?;
    assert_eq!(rt; added(&mut wheel, 1000), Some(0));
    assert_eq!(rt; added(&mut wheel, 232), Some(1));
    assert_eq!(rt; added(&mut wheel, 488), Some(2));
    assert_eq!(rt; wheel.fire(seconds(231)), None);
    assert_eq!(rt; wheel.fire(seconds(900)).map(|f| f.id), Some(1));
    assert_eq!(rt; wheel.fire(seconds(400)), None);
    assert_eq!(rt; wheel.fire(seconds(900)).map(|f| f.id), Some(2));
    assert_eq!(rt; wheel.fire(seconds(900)), None);
    assert_eq!(rt; wheel.fire(seconds(1000)).map(|f| f.id), Some(0));
    Ok(())
}

// So many seconds, less than 2^46, and grains.
fn at(sec: u64, frac: u64) -> Bintime
    ensures { IsDue result }
{
    Bintime {
        sec: sec.min(70_368_744_177_663) as i64,
        frac,
    }
}

// When timers of slot 0 are due, from the last to the first: up to the last round that a timer may be due in, and some of
// them a grain apart.
const ROUNDS: [(u64, u64); 10] = [
    (70_368_744_177_408, u64::MAX),
    (70_368_744_177_408, 1),
    (70_368_744_177_408, 0),
    (4_294_967_296, 0),
    (65_536, u64::MAX),
    (65_536, 0),
    (512, 0),
    (256, 1),
    (256, 0),
    (0, 1),
];

// Adds all of them.
fn add_rounds(wheel: &mut Wheel)
    requires { wheel.old.added ≡ 0 }
{
    for i in 0..10 {
        let (sec, frac) = ROUNDS[i];
        let _ = wheel.add(at(sec, frac));
    }
}

#[test]
fn a_slot_fires_round_by_round(rt: HostRuntime) -> Result<(), Fail> {
    let mut wheel = Wheel::new(rt.alloc(), 10)?;
    add_rounds(&mut wheel);
    for k in 0..10 {
        let i = 9 - k;
        let (sec, frac) = ROUNDS[i];
        let due = at(sec, frac);
        // At the due time of the one before it is not due yet.
        let (sec, frac) = if i == 9 { (0, 0) } else { ROUNDS[i + 1] };
        assert_eq!(rt; wheel.fire(at(sec, frac)), None, "at {i}");
        let fired = Fired { id: i as u64, due };
        assert_eq!(rt; wheel.fire(due), Some(fired), "at {i}");
    }
    assert_eq!(rt; wheel.fire(at(u64::MAX, u64::MAX)), None);
    Ok(())
}
