// The daemon beside the plain program.
ghost use Rattle.std.specs.Prelude.{◌≡◌, ◌<◌};

use crate::made::{Maker, stamp_of};
use crate::rules::{FREQ, Plain};
use ff_estimator::{Daemon, Fed};
use ff_grain::NoMemory;
use std::alloc::Global;
use std::marker::Brand;
use std::sync::ledger::{Blank, Ledger};
use std::test::Fail;
use step_count::Steps;

// How many stamps are refused, shift the level, use the local rate and take the prediction.
type Tally = [u32; 4];

// Feeds both the same stamps. Answers what happened, or the first stamp at which they differ.
fn compared<L: Ledger>(alloc: Global, blank: Blank) -> Result<Result<Tally, u32>, NoMemory>
    requires name { blank.name ≡ L.name }
    requires parts { blank.parts ≡ L.parts }
    requires some { 0 < blank.parts }
{
    let mut steps = Steps::<L>::new(blank);
    let mut maker = Maker::new();
    let mut daemon = Daemon::new(alloc, FREQ)?;
    let mut plain = Plain::new(alloc);
    let mut tally = [0u32; 4];
    for n in 0..2600 {
        let row = maker.next(n);
        let fed = daemon.feed(stamp_of(&row), &mut steps);
        if fed != plain.feed(row)? {
            return Ok(Err(n));
        }
        let happened = match fed {
            Fed::Refused(_) => [true, false, false, false],
            Fed::Estimate(full) => [false, full.shifted, full.local, full.predicted],
        };
        for (count, holds) in tally.iter_mut().zip(happened) {
            *count = count.saturating_add(u32::from(holds));
        }
    }
    Ok(Ok(tally))
}

#[test]
fn the_daemon_answers_as_its_rules_say(rt: HostRuntime) -> Result<(), Fail> {
    // Of 2,600 stamps so many, as a program in another language counts them by the same rules.
    assert_eq!(rt;
        compared::<Brand>(rt.alloc(), Blank::new(1))?,
        Ok([33, 3, 627, 433])
    );
    Ok(())
}
