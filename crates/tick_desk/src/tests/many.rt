// Sixteen passes, notes, and when a desk is fresh.
use crate::tests::{taken_out, wound};
use crate::{Answer, Desk};
use clock_lines::Kind;
use ff_grain::NoMemory;
use ff_hands::Order;
use std::test::Fail;

/// Journal and room are never more.
const MOST_TICKS: usize = 1 << 62;

// Takes the last pass of a desk out, lets it learn a note of the pen, winds once more, lets it
// read once, and takes it in. The answer is the tick by which it read.
fn learned_and_taken_in(desk: &mut Desk) -> Result<u64, Fail> {
    let mut pass = taken_out(desk)?;
    pass.learn(desk.pen.note());
    wound(&mut desk.pen, Order::Plain)??;
    let answer = pass.read(Kind::Mono);
    desk.pen.take_in(pass);
    match answer {
        Answer::Read(reading) => Ok(reading.tick),
        Answer::Again { first: _, last: _ } => Err(Fail::new("nothing came between")),
    }
}

#[test]
fn sixteen_passes_learn_read_and_are_taken_in(rt: HostRuntime) -> Result<(), Fail> {
    let mut desk = Desk::start(rt.alloc())?;
    assert!(rt; desk.is_fresh());
    desk.passes(rt.alloc(), 16)?;
    assert!(rt; !desk.is_fresh());
    assert_eq!(rt; desk.passes.len(), 16);
    for n in 0..16 {
        assert_eq!(rt; learned_and_taken_in(&mut desk)?, n + 1);
    }
    assert!(rt; desk.passes.is_empty());
    assert!(rt; !desk.is_fresh());
    Ok(())
}

#[test]
fn a_desk_is_fresh_until_it_is_used(rt: HostRuntime) -> Result<(), Fail> {
    let mut advanced = Desk::start(rt.alloc())?;
    assert_eq!(rt; advanced.pen.advance(0), 0);
    assert!(rt; advanced.is_fresh());
    assert_eq!(rt; advanced.pen.reserve(MOST_TICKS), Err(NoMemory));
    assert_eq!(rt; advanced.pen.reserve(MOST_TICKS + 1), Err(NoMemory));
    assert_eq!(rt; advanced.pen.reserve(3), Ok(()));
    assert!(rt; advanced.is_fresh());
    assert_eq!(rt; advanced.pen.advance(1), 1);
    assert!(rt; !advanced.is_fresh());
    let mut lent = Desk::start(rt.alloc())?;
    let Some(crank) = lent.pen.lend() else {
        return Err(Fail::new("the crank is out"));
    };
    assert!(rt; !lent.is_fresh());
    assert!(rt; lent.pen.lend().is_none());
    lent.pen.take_back(crank);
    assert!(rt; lent.is_fresh());
    wound(&mut lent.pen, Order::Plain)??;
    assert!(rt; !lent.is_fresh());
    Ok(())
}
