// Conversions beside a plain look through the journal.
ghost use Rattle.std.specs.Prelude.{◌≡◌, ◌<◌, ◌^◌};
ghost use Rattle.ff_hands.specs.Journals.{IsJournal};

use crate::tests::{grains, reading_of, reset, take, taken_out, wound};
use crate::{Converted, Desk, Pen};
use clock_lines::Kind;
use ff_hands::{Hands, Order};
use std::test::Fail;

/// The counts of the ticks behind the first, and the order of each. Some stand at one count.
const COUNTS: [u64; 14] = [
    500, 500, 700, 1_000, 1_001, 1_001, 1_001, 2_000, 3_000, 3_100, 5_000, 5_000, 8_000, 9_999,
];

/// The counts that are asked for: around ticks, between them, and past the counter.
const ASKED: [u64; 31] = [
    0, 1, 2, 499, 500, 501, 502, 699, 700, 701, 999, 1_000, 1_001, 1_002, 1_500, 1_999, 2_000,
    2_001, 2_999, 3_000, 3_001, 3_100, 3_101, 4_999, 5_000, 5_001, 8_000, 8_001, 9_999, 10_000,
    100_000,
];

// What a count converts to by the definition: it is by the newest tick whose count is below it,
// or by tick 0, if that is one of the last ten, and the counter has reached it.
fn looked_up(ticks: &[Hands], counter: u64, count: u64) -> Option<Converted>
    requires { IsJournal ticks.now }
{
    if count > counter {
        return Some(Converted::Ahead { count: counter });
    }
    let mut line = 0;
    for (n, h) in ticks.iter().enumerate() {
        if h.count < count {
            line = n;
        }
    }
    let oldest = ticks.len().saturating_sub(10);
    if line < oldest {
        let oldest = ticks.get(oldest)?.count;
        return Some(Converted::TooOld { oldest });
    }
    let reading = reading_of(ticks, Kind::Back, line as u64, count)?;
    Some(Converted::Read(reading))
}

// The order of the windup to a tick at a count.
fn order_at(n: usize, count: u64) -> Order {
    match n {
        1 => reset(400),
        4 => take(grains(19_000_000_000_000), 900, 7, 1_000),
        9 => reset(2_500),
        12 => take(grains(70_000_000_000_000), count, 3, 2_000_000),
        _ => Order::Plain,
    }
}

#[test]
fn conversions_are_those_of_a_plain_look(rt: HostRuntime) -> Result<(), Fail> {
    let mut desk = Desk::start(rt.alloc())?;
    desk.passes(rt.alloc(), 1)?;
    let mut reader = taken_out(&mut desk)?;
    let Desk { mut pen, passes: _ } = desk;
    for (n, count) in COUNTS.into_iter().enumerate() {
        let to = count.min(100_000);
        pen.advance(to);
        wound(&mut pen, order_at(n, count))??;
        let counter = pen.advance(to + n as u64 % 2);
        for count in ASKED {
            let converted = reader.convert(count.min(200_000));
            let looked_up = looked_up(pen.journal(), counter, count);
            assert_eq!(rt; Some(converted), looked_up, "at {count} with {n} ticks");
        }
    }
    Ok(())
}
