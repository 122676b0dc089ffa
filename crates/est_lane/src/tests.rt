// That an event comes at all before the ends meet, and that nothing comes behind the last, no clause says.
use super::*;
use ff_estimator::Event;
use ff_grain::Bintime;
use std::test::Fail;

// The clock is set to a whole second at a count.
fn set_at(count: u64, sec: i64) -> Event {
    Event::Set {
        count,
        at: Bintime { sec, frac: 0 },
    }
}

#[test]
fn nothing_comes_behind_the_last(rt: HostRuntime) -> Result<(), Fail> {
    let Lane {
        mut input,
        mut output,
    } = Lane::new(rt.alloc(), 2)?;
    assert!(rt; output.take().is_none());
    input.send(set_at(4, 9));
    input.send(set_at(7, -2));
    output.meet(&mut input);
    assert_eq!(rt; output.take(), Some(set_at(4, 9)));
    assert_eq!(rt; output.take(), Some(set_at(7, -2)));
    assert!(rt; output.take().is_none());
    Ok(())
}

#[test]
fn events_come_before_the_ends_meet(rt: HostRuntime) -> Result<(), Fail> {
    let Lane {
        mut input,
        mut output,
    } = Lane::new(rt.alloc(), 3)?;
    input.send(set_at(4, 9));
    assert_eq!(rt; output.take(), Some(set_at(4, 9)));
    assert!(rt; output.take().is_none());
    input.send(set_at(7, -2));
    input.send(set_at(8, 0));
    assert_eq!(rt; output.take(), Some(set_at(7, -2)));
    assert_eq!(rt; output.take(), Some(set_at(8, 0)));
    assert!(rt; output.take().is_none());
    Ok(())
}
