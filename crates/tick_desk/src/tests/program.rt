// The program of docs/PUBLICATION.md.
use crate::{Answer, Desk, Pass};
use clock_lines::{Kind, Reading};
use ff_grain::Bintime;
use ff_hands::{Order, reset_estimate};
use std::test::Fail;
use std::thread::join_mut;

/// Asks until the clock answers, but not forever.
fn now(pass: &mut Pass) -> Option<Reading> {
    for _ in 0..1_000_000 {
        if let Answer::Read(reading) = pass.read(Kind::Abs) {
            return Some(reading);
        }
    }
    None
}

#[test]
fn two_threads_read_a_clock(rt: HostRuntime) -> Result<(), Fail> {
    let mut desk = Desk::start(rt.alloc())?;
    desk.passes(rt.alloc(), 2)?;
    desk.pen.reserve(1)?;
    let Desk {
        mut pen,
        mut passes,
    } = desk;
    let mut first = passes.pop().ok_or("no pass")?;
    let mut second = passes.pop().ok_or("no pass")?;
    let noon = Bintime {
        sec: 1_700_000_000,
        frac: 0,
    };
    let set = Order::Reset(reset_estimate(noon, 0, 1_000_000_000));
    if !set.sane() {
        return Err(Fail::new("not an estimate that can be taken"));
    }
    let (wound, (one, two)) = join_mut(
        &rt,
        &mut || pen.wind(set),
        &mut || join_mut(&rt, &mut || now(&mut first), &mut || now(&mut second)),
    );
    assert_eq!(rt; wound, Ok(1));
    assert!(rt; one.is_some_and(|r| r.tick <= 1));
    assert!(rt; two.is_some_and(|r| r.tick <= 1));
    pen.advance(2_000_000_000);
    let later = now(&mut first).ok_or("no answer")?;
    assert_eq!(rt; (later.tick, later.time.sec), (1, 1_700_000_001));
    Ok(())
}
