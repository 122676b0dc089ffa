// Worked values, from outside the program.
ghost use Rattle.std.specs.Prelude.{◌≡◌};

use crate::tests::{grains, reset, take, taken_out, wound};
use crate::{Answer, Converted, Desk, Pass, Pen};
use clock_core::Refuse;
use clock_lines::{Kind, Reading};
use ff_grain::Bintime;
use ff_hands::{Hands, Order};
use std::alloc::Global;
use std::process::Abort;
use std::test::Fail;

// The absolute clock of the worked desk at the count 20, 11 counts after its estimate.
fn at_20(kind: Kind, tick: u64) -> Reading {
    Reading {
        kind,
        tick,
        count: 20,
        time: Bintime {
            sec: 100,
            frac: 202_914_184_803,
        },
        bound: 0,
    }
}

fn tick_of(pen: &Pen, n: usize) -> Result<Hands, Fail> {
    Ok(*pen.journal().get(n).ok_or("there is no such tick")?)
}

fn wound_plainly(pen: &mut Pen, times: u32) -> Result<(), Fail> {
    for _ in 0..times {
        wound(pen, Order::Plain)??;
    }
    Ok(())
}

// Lends the crank of a pen that has it, and takes it back. The answers to a second wish for it,
// and to two raises.
fn cranked(pen: &mut Pen) -> Result<(bool, [u64; 3]), Fail>
    ensures { pen.new.table ≡ pen.old.table }
{
    let Some(mut crank) = pen.lend() else {
        return Err(Fail::new("the crank is out"));
    };
    let second = pen.lend().is_some();
    let below = crank.raise(7);
    let to_20 = crank.raise(20);
    let to_7 = crank.raise(7);
    pen.take_back(crank);
    Ok((second, [below, to_20, to_7]))
}

// Two windups with an order that is refused before and after the second one.
fn wind_to_2(rt: &impl Abort, pen: &mut Pen) -> Result<(), Fail>
    ensures { pen.new.table ≡ pen.old.table }
{
    let hundred = Bintime { sec: 100, frac: 0 };
    let estimate = take(hundred, 9, 0, 0);
    let ahead = Refuse::Ahead { count: 5 };
    let stale = Refuse::Stale { last: 9 };
    assert_eq!(rt; pen.advance(5), 5);
    assert_eq!(rt; wound(pen, reset(0))?, Ok(1));
    assert_eq!(rt; wound(pen, estimate)?, Err(ahead));
    assert_eq!(rt; pen.advance(9), 9);
    assert_eq!(rt; wound(pen, estimate)?, Ok(2));
    assert_eq!(rt; wound(pen, estimate)?, Err(stale));
    Ok(())
}

// A read that a windup crosses, the next one, and an interval.
fn read_across(rt: &impl Abort, pen: &mut Pen, reader: &mut Pass) -> Result<(), Fail> {
    let begun = reader.begin(Kind::Abs);
    assert_eq!(rt; wound(pen, Order::Plain)?, Ok(3));
    let crossed = Answer::Again { first: 4, last: 6 };
    assert_eq!(rt; reader.finish(begun), crossed);
    assert_eq!(rt; reader.read(Kind::Abs), Answer::Read(at_20(Kind::Abs, 3)));
    let interval = Reading {
        kind: Kind::Diff,
        tick: 3,
        count: 5,
        time: grains(92_233_720_365),
        bound: 0,
    };
    assert_eq!(rt; reader.diff(5), Answer::Read(interval));
    Ok(())
}

// A fast read that so many windups cross.
fn fast_across(pen: &mut Pen, reader: &mut Pass, windups: u32) -> Result<Answer, Fail> {
    let begun = reader.begin(Kind::Fast);
    wound_plainly(pen, windups)?;
    Ok(reader.finish(begun))
}

// What ticks 1 and 2 are, and what the pen reads by tick 2.
fn read_at_2(rt: &impl Abort, pen: &mut Pen) -> Result<(), Fail> {
    let first = tick_of(pen, 1)?;
    assert_eq!(rt; (first.count, first.time), (5, grains(92_233_720_360)));
    let second = tick_of(pen, 2)?;
    assert_eq!(rt; second.lerp, grains(166_020_696_648));
    assert_eq!(rt; second.period_lerp, 18_446_744_073);
    assert_eq!(rt; pen.read(Kind::Abs), at_20(Kind::Abs, 2));
    assert_eq!(rt; pen.read(Kind::Mono).time, grains(368_934_881_451));
    assert_eq!(rt; pen.read(Kind::Fast).count, 9);
    Ok(())
}

// The desk of the worked values at tick 2 and the count 20: its pen, and a pass that has learned
// nothing. What another one reads that has learned all.
fn at_2(rt: &impl Abort, alloc: Global) -> Result<(Pen, Pass, Answer), Fail> {
    let mut desk = Desk::start(alloc)?;
    desk.passes(alloc, 2)?;
    let reader = taken_out(&mut desk)?;
    let mut learner = taken_out(&mut desk)?;
    let Desk { mut pen, passes: _ } = desk;
    pen.reserve(40)?;
    wind_to_2(rt, &mut pen)?;
    assert_eq!(rt; cranked(&mut pen)?, (false, [9, 20, 20]));
    learner.learn(pen.note());
    Ok((pen, reader, learner.read(Kind::Abs)))
}

#[test]
fn a_crank_and_its_pen_answer_the_counter(rt: HostRuntime) -> Result<(), Fail> {
    let mut desk = Desk::start(rt.alloc())?;
    let Some(mut crank) = desk.pen.lend() else {
        return Err(Fail::new("the crank is out"));
    };
    assert_eq!(rt; crank.raise(5), 5);
    assert_eq!(rt; desk.pen.advance(9), 9);
    assert_eq!(rt; crank.raise(5), 9);
    assert_eq!(rt; crank.raise(20), 20);
    assert_eq!(rt; desk.pen.advance(7), 20);
    desk.pen.take_back(crank);
    Ok(())
}

#[test]
fn a_desk_is_wound_and_read(rt: HostRuntime) -> Result<(), Fail> {
    let (mut pen, mut reader, learned) = at_2(&rt, rt.alloc())?;
    assert_eq!(rt; learned, Answer::Read(at_20(Kind::Abs, 2)));
    read_at_2(&rt, &mut pen)?;
    read_across(&rt, &mut pen, &mut reader)?;
    let whole = Answer::Read(at_20(Kind::Fast, 3));
    assert_eq!(rt; fast_across(&mut pen, &mut reader, 9)?, whole);
    let overtaken = Answer::Again {
        first: 26,
        last: 46,
    };
    assert_eq!(rt; fast_across(&mut pen, &mut reader, 10)?, overtaken);
    Ok(())
}

// A conversion to a line of the journal, without its bound: that tick, and the grains behind the
// start.
fn line(converted: Converted) -> Result<(u64, Bintime), Converted> {
    match converted {
        Converted::Read(r) => Ok((r.tick, r.time)),
        Converted::TooOld { oldest: _ }
        | Converted::Ahead { count: _ }
        | Converted::Again { first: _, last: _ } => Err(converted),
    }
}

#[test]
fn past_counts_have_their_lines(rt: HostRuntime) -> Result<(), Fail> {
    let mut desk = Desk::start(rt.alloc())?;
    desk.passes(rt.alloc(), 1)?;
    let mut reader = taken_out(&mut desk)?;
    let Desk { mut pen, passes: _ } = desk;
    wound(&mut pen, reset(0))??;
    for k in 1..13 {
        pen.advance(1_000 * k);
        wound(&mut pen, Order::Plain)??;
    }
    assert_eq!(rt; pen.advance(12_001), 12_001);
    let lines = [
        (12_001, Ok((13, grains(221_379_375_608_072)))),
        (12_000, Ok((12, grains(221_360_928_864_000)))),
        (3_001, Ok((4, grains(55_358_678_960_072)))),
        (3_000, Err(Converted::TooOld { oldest: 3_000 })),
        (12_002, Err(Converted::Ahead { count: 12_001 })),
    ];
    for (count, answer) in lines {
        assert_eq!(rt; line(reader.convert(count)), answer, "at {count}");
    }
    Ok(())
}
