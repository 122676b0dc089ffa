// The hands of a clock, and the orders that move them.
ghost use Rattle.std.specs.Prelude.{◌≡◌, ◌≤◌};
ghost use Rattle.ff_hands.specs.Journals.{IsSound};
ghost use Rattle.ff_hands.specs.Orders.{fits, is_sane_estimate};
ghost use Rattle.ff_hands.specs.Windups.{cold, reset_estimate};

use crate::estimates::{Estimate, Marks};
use ff_grain::{Bintime, nominal_period};

/// How hands came about.
#[derive(Clone, Copy, Debug, PartialEq, Eq)]
pub enum How {
    /// The clock was never set.
    Cold,
    /// The clocks went on.
    Plain,
    /// An estimate was taken, and the uninterrupted clock went on.
    Take,
    /// An estimate was taken, and the uninterrupted clock jumped to its time.
    Jump,
    /// All clocks began anew.
    Reset,
}

/// Where the clocks stand at a count, and how they go on from there. After FreeBSD's
/// `struct fftimehands`.
#[derive(Clone, Copy, Debug, PartialEq, Eq)]
pub struct Hands {
    /// The count at which they stand so, in counts below 2^62.
    pub count: u64,
    /// The absolute clock.
    pub time: Bintime,
    /// The uninterrupted clock.
    pub lerp: Bintime,
    /// The slope of the uninterrupted clock, in grains of 2^-64 s per count.
    pub period_lerp: u64,
    /// The uninterrupted clock at the last reset, had it made all jumps since then before.
    pub boot: Bintime,
    /// The marks of the clock, which are not always those of its estimate.
    pub kstatus: Marks,
    pub how: How,
    /// The estimate by which the absolute clock goes.
    pub est: Estimate,
}

/// What a windup is to do.
#[derive(Clone, Copy, Debug, PartialEq, Eq)]
pub enum Order {
    /// Let the clocks go on.
    Plain,
    /// Take an estimate.
    Take(Estimate),
    /// Begin all clocks anew with an estimate.
    Reset(Estimate),
}

/// The count and time of no clock.
const START: Bintime = Bintime { sec: 0, frac: 0 };

/// The marks of a clock that was never set.
const UNSYNCED: Marks = Marks {
    unsync: true,
    warmup: false,
};

/// The hands of a clock that was never set. All is 0, and it is not synchronised.
pub fn cold() -> Hands
    ensures value { result ≡ cold }
    ensures sound { IsSound result }
{
    Hands {
        count: 0,
        time: START,
        lerp: START,
        period_lerp: 0,
        boot: START,
        kstatus: UNSYNCED,
        how: How::Cold,
        est: Estimate {
            update_time: START,
            update_ffcount: 0,
            leapsec_next: 0,
            period: 0,
            errb_abs: 0,
            errb_rate: 0,
            status: UNSYNCED,
            leapsec_total: 0,
            leapsec: 0,
        },
    }
}

/// The estimate that sets a clock to the time `at` at the count `count`: the nominal period of a
/// counter of `freq` Hz, no bounds, and not synchronised. After FreeBSD's `ffclock_reset_clock`.
///
/// Frequencies are from 10^6 to 16*10^9.
pub fn reset_estimate(at: Bintime, count: u64, freq: u64) -> Estimate
    requires low { 1000000 ≤ freq }
    requires high { freq ≤ 16000000000 }
    ensures { result ≡ reset_estimate at count freq }
{
    Estimate {
        update_time: at,
        update_ffcount: count,
        leapsec_next: 0,
        period: nominal_period(freq),
        errb_abs: 0,
        errb_rate: 0,
        status: UNSYNCED,
        leapsec_total: 0,
        leapsec: 0,
    }
}

/// The counts, and the periods, of an estimate are below these.
const LIMIT_COUNTS: u64 = 1 << 62;

const LIMIT_PERIOD: u64 = 1 << 45;

/// The grains of an estimate's time are below this.
const LIMIT_TIME: i128 = 1 << 109;

impl Order {
    ghost use Rattle.std.specs.Prelude.{◌≡◌};
    ghost use Rattle.ff_hands.specs.Orders.{is_sane};

    /// Whether the order may be given to a clock at all: it is plain, or its estimate has counts below
    /// 2^62, a period below 2^45, at most one leap second, and a time from 0 to below 2^109 grains.
    pub fn sane(&self) -> bool
        ensures { result ≡ is_sane self.now }
    {
        match self {
            Order::Plain => true,
            Order::Take(e) | Order::Reset(e) => is_sane_estimate(e),
        }
    }
}

fn is_sane_estimate(e: &Estimate) -> bool
    ensures { result ≡ is_sane_estimate e.now }
{
    let time = e.update_time.grains();
    e.update_ffcount < LIMIT_COUNTS
        && e.leapsec_next < LIMIT_COUNTS
        && e.period < LIMIT_PERIOD
        && -1 <= e.leapsec
        && e.leapsec <= 1
        && 0 <= time
        && time < LIMIT_TIME
}

/// Whether a clock with these hands may be wound at a count by an order: the order is sane, the count
/// is below 2^62 and does not go back, the estimate is not of a later count, and one to take is of a
/// later count than the clock's.
pub fn fits(h: &Hands, count: u64, o: &Order) -> bool
    ensures { result ≡ fits h.now count o.now }
{
    let in_time = match o {
        Order::Plain => true,
        Order::Take(e) => e.update_ffcount <= count && h.est.update_ffcount < e.update_ffcount,
        Order::Reset(e) => e.update_ffcount <= count,
    };
    o.sane() && h.count <= count && count < LIMIT_COUNTS && in_time
}
