// Estimates at two stamps, by the rules of the daemon, and refusals between them.
ghost use Rattle.std.specs.Prelude.{◌≡◌, ◌<◌};
ghost use Rattle.std.specs.List.{All};
ghost use Rattle.stamp_text.specs.Accepted.{IsInRange};

use crate::{Daemon, Fed, Full};
use ff_grain::{Bintime, from_nanos};
use ff_hands::{Estimate, Marks};
use rate_pair::Rate;
use stamp_text::{Refused, Stamp};
use std::marker::Brand;
use std::sync::ledger::{Blank, Ledger};
use std::test::Fail;
use step_count::Steps;

const FREQ: u64 = 1_000_000_000;

/// The greatest count of a stamp.
const MOST: u64 = (1 << 62) - 1;

// A stamp's four columns: the server's times in seconds, and the second with nanoseconds.
type Columns = (u64, u32, (u32, u32), u64);

const FIRST: Columns = (
    1_000_000_000,
    1_700_000_000,
    (1_700_000_000, 0),
    1_000_100_000,
);

const SECOND: Columns = (
    17_000_000_000,
    1_700_000_016,
    (1_700_000_016, 0),
    17_000_100_000,
);

fn stamp_of(columns: Columns) -> Stamp
    ensures { IsInRange result }
{
    let (ta, tb, te, tf) = columns;
    Stamp {
        ta: ta.min(MOST),
        tb: from_nanos(u64::from(tb), 0),
        te: from_nanos(u64::from(te.0), te.1.min(999_999_999)),
        tf: tf.min(MOST),
        stratum: 1,
        leap: 0,
    }
}

// Feeds some stamps for what is kept of them, and then one more, under a blank.
fn feed_under<L: Ledger>(daemon: &mut Daemon, before: &[Stamp], s: Stamp, blank: Blank) -> Fed
    requires before { All IsInRange before.now }
    requires timed { IsInRange s }
    requires name { blank.name ≡ L.name }
    requires parts { blank.parts ≡ L.parts }
    requires some { 0 < blank.parts }
{
    let mut steps = Steps::<L>::new(blank);
    for one in before {
        daemon.feed(*one, &mut steps);
    }
    daemon.feed(s, &mut steps)
}

// The same, for who counts nothing.
fn feed_behind(daemon: &mut Daemon, before: &[Stamp], s: Stamp) -> Fed
    requires before { All IsInRange before.now }
    requires timed { IsInRange s }
{
    feed_under::<Brand>(daemon, before, s, Blank::new(1))
}

// What is said while the daemon warms up, without a flag.
fn warm(time: Bintime, count: u64, rate: Rate, spread: u128, errors: (u32, u32)) -> Fed {
    Fed::Estimate(Full {
        est: Estimate {
            update_time: time,
            update_ffcount: count,
            leapsec_next: 0,
            period: rate.period,
            errb_abs: errors.0,
            errb_rate: errors.1,
            status: Marks {
                unsync: false,
                warmup: true,
            },
            leapsec_total: 0,
            leapsec: 0,
        },
        spread,
        rate,
        shifted: false,
        local: false,
        predicted: false,
    })
}

// What is said at the first stamp.
fn first() -> Fed {
    let time = Bintime {
        sec: 1_700_000_000,
        frac: 922_337_203_600_000,
    };
    let rate = Rate {
        period: 18_446_744_072,
        low: 18_437_520_700,
        high: 18_455_967_444,
    };
    warm(
        time,
        1_000_100_000,
        rate,
        923_259_540_800_001,
        (50_050, 499_999_999),
    )
}

// What is said at the second stamp behind the first.
fn second() -> Fed {
    let time = Bintime {
        sec: 1_700_000_016,
        frac: 922_331_527_237_072,
    };
    let rate = Rate {
        period: 18_446_744_073,
        low: 18_446_628_782,
        high: 18_446_859_367,
    };
    warm(
        time,
        17_000_100_000,
        rate,
        1_844_700_733_050_001,
        (100_002, 6_250_101),
    )
}

#[test]
fn refused_stamps_leave_no_trace(rt: HostRuntime) -> Result<(), Fail> {
    // Stamps that are refused on a new daemon, and why.
    let early = [
        ((5, 9, (8, 0), 5), Refused::Backward),
        ((5, 9, (8, 0), 6), Refused::ServerBackward),
        ((1, 5, (5, 0), 1_000_000_002), Refused::LongTrip),
        (
            (
                1_000_000_000,
                1_700_000_000,
                (1_700_000_000, 100_050),
                1_000_100_000,
            ),
            Refused::Acausal,
        ),
    ];
    // The same behind the first stamp.
    let late = [
        (FIRST, Refused::Overlap),
        (
            (
                17_000_000_000,
                1_699_999_999,
                (1_700_000_016, 0),
                17_000_100_000,
            ),
            Refused::ServerOld,
        ),
    ];
    let mut daemon = Daemon::new(rt.alloc(), FREQ)?;
    for (columns, why) in early {
        assert_eq!(rt;
            feed_behind(&mut daemon, &[], stamp_of(columns)),
            Fed::Refused(why)
        );
    }
    assert_eq!(rt; feed_behind(&mut daemon, &[], stamp_of(FIRST)), first());
    for (columns, why) in late {
        assert_eq!(rt;
            feed_behind(&mut daemon, &[], stamp_of(columns)),
            Fed::Refused(why)
        );
    }
    // The first of these two is refused again.
    assert_eq!(rt;
        feed_behind(&mut daemon, &[stamp_of(FIRST)], stamp_of(SECOND)),
        second()
    );
    Ok(())
}

#[test]
fn stamps_at_the_limits_are_accepted(rt: HostRuntime) -> Result<(), Fail> {
    let rows = [
        (1, 5, (5, 0), 1_000_000_001),
        (
            1_000_000_000,
            1_700_000_000,
            (1_700_000_000, 100_049),
            1_000_100_000,
        ),
    ];
    for columns in rows {
        let mut daemon = Daemon::new(rt.alloc(), FREQ)?;
        let accepted = matches!(
            feed_behind(&mut daemon, &[], stamp_of(columns)),
            Fed::Estimate(_)
        );
        assert_eq!(rt; accepted, true);
    }
    Ok(())
}

const THIRD: Columns = (
    33_000_000_000,
    1_700_000_032,
    (1_700_000_032, 0),
    33_000_100_000,
);

// A stamp of a server that says of a leap second what `leap` is.
fn stamp_with(columns: Columns, leap: u32) -> Stamp
    ensures { IsInRange result }
{
    Stamp {
        leap,
        ..stamp_of(columns)
    }
}

// What an estimate tells of leap seconds.
fn told(fed: Fed) -> Option<(u64, i16, i8)> {
    match fed {
        Fed::Estimate(full) => Some((
            full.est.leapsec_next,
            full.est.leapsec_total,
            full.est.leapsec,
        )),
        Fed::Refused(_) => None,
    }
}

#[test]
fn leap_seconds_are_told_until_they_came(rt: HostRuntime) -> Result<(), Fail> {
    let mut daemon = Daemon::new(rt.alloc(), FREQ)?;
    assert_eq!(rt; daemon.leap(20_000_000_000, 1), Err(Refused::LeapOld));
    let first = feed_behind(&mut daemon, &[], stamp_with(FIRST, 1));
    assert_eq!(rt; told(first), Some((0, 0, 0)));
    assert_eq!(rt; daemon.leap(20_000_000_000, 1), Ok(()));
    let second = feed_behind(&mut daemon, &[], stamp_with(SECOND, 0));
    assert_eq!(rt; told(second), Some((20_000_000_000, 0, 1)));
    assert_eq!(rt; daemon.leap(21_000_000_000, 1), Err(Refused::LeapPending));
    assert_eq!(rt; daemon.set(18_000_000_000), Ok(()));
    assert_eq!(rt; daemon.set(18_000_000_000), Err(Refused::SetOld));
    let third = feed_behind(&mut daemon, &[], stamp_with(THIRD, 0));
    assert_eq!(rt; told(third), Some((0, 1, 0)));
    Ok(())
}
