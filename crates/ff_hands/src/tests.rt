// Slopes, jumps and old estimates, by hand from the rules.
ghost use Rattle.ff_hands.specs.Journals.{IsSound};

use crate::{Estimate, Hands, How, Marks, Order, cold, fits, reset_estimate, wind};
use ff_grain::Bintime;

// The next hands, where the order fits; else the same.
fn wound(h: &Hands, count: u64, o: Order) -> Hands
    requires { IsSound h.now }
    ensures { IsSound result }
{
    if fits(h, count, &o) {
        wind(h, count, &o)
    } else {
        *h
    }
}

const NONE: Marks = Marks {
    unsync: false,
    warmup: false,
};

fn estimate(sec: i64, frac: u64, count: u64, status: Marks) -> Estimate {
    Estimate {
        update_time: Bintime { sec, frac },
        update_ffcount: count,
        leapsec_next: 0,
        period: 18_446_744_073,
        errb_abs: 0,
        errb_rate: 0,
        status,
        leapsec_total: 0,
        leapsec: 0,
    }
}

// A clock that was set to 100 s at the count 10^9, with no marks.
fn set() -> Hands
    ensures { IsSound result }
{
    let e = estimate(100, 0, 1_000_000_000, NONE);
    wound(&cold(), 1_000_000_000, Order::Reset(e))
}

#[test]
fn slopes_make_up_for_gaps(rt: HostRuntime) {
    // The estimate's time and count, the uninterrupted clock there, and its slope.
    let rows = [
        (
            116,
            7_093_918_217,
            17_000_000_001,
            116,
            7_093_918_217,
            18_446_744_073,
        ),
        (
            117,
            7_093_918_217,
            17_000_000_001,
            116,
            7_093_918_217,
            18_538_977_793,
        ),
        (
            115,
            7_093_918_217,
            17_000_000_001,
            116,
            7_093_918_217,
            18_354_510_353,
        ),
        (
            200,
            0,
            1_500_000_000,
            100,
            9_223_372_036_500_000_000,
            18_446_744_073,
        ),
    ];
    for (sec, frac, count, lerp_sec, lerp_frac, slope) in rows {
        let e = estimate(sec, frac, count, NONE);
        let hands = wound(&set(), count, Order::Take(e));
        let lerp = Bintime {
            sec: lerp_sec,
            frac: lerp_frac,
        };
        assert_eq!(rt; hands.how, How::Take, "at {sec}");
        assert_eq!(rt; hands.lerp, lerp, "at {sec}");
        assert_eq!(rt; hands.period_lerp, slope, "at {sec}");
    }
}

#[test]
fn estimates_get_old(rt: HostRuntime) {
    let young = wound(&set(), 2_050_000_000_078, Order::Plain);
    assert_eq!(rt; young.kstatus, NONE);
    assert_eq!(rt; young.how, How::Plain);
    let old = wound(&set(), 2_050_000_000_079, Order::Plain);
    assert_eq!(rt; old.kstatus.unsync, true);
}

#[test]
fn a_clock_that_warms_up_jumps(rt: HostRuntime) {
    let start = Bintime { sec: 0, frac: 0 };
    let warm = Marks {
        unsync: false,
        warmup: true,
    };
    let reset = reset_estimate(start, 0, 1_000_000_000);
    let cold_set = wound(&cold(), 0, Order::Reset(reset));
    assert_eq!(rt; cold_set.how, How::Reset);
    let e = estimate(50, 0, 1_000_000_000, warm);
    let hands = wound(&cold_set, 1_000_000_000, Order::Take(e));
    // The clock stood at 10^9 counts of 18446744072 grains, which is 1 - 1709551616/2^64 s.
    assert_eq!(rt; hands.how, How::Jump);
    assert_eq!(rt; hands.lerp, Bintime { sec: 50, frac: 0 });
    assert_eq!(rt;
        hands.boot,
        Bintime {
            sec: 49,
            frac: 1_709_551_616
        }
    );
    assert_eq!(rt; hands.kstatus, warm);
}
