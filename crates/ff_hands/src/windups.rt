// Windups: one function a rule.
ghost use Rattle.std.specs.Prelude.{◌≡◌, ◌≢◌, ◌+◌, ◌-◌, ◌*◌, ◌^◌, ◌<◌, ◌≤◌, true, pos, neg_ℤ, ◌+ℤ◌, ◌-ℤ◌, ◌≤ℤ◌, ◌<ℤ◌};
ghost use Rattle.ff_grain.specs.Grains.{number_of};
ghost use Rattle.ff_hands.specs.Bounds.{IsBounded, IsSane};
ghost use Rattle.ff_hands.specs.Journals.{IsSound};
ghost use Rattle.ff_hands.specs.Orders.{fits};
ghost use Rattle.ff_hands.specs.Windups.{after, time_of, moved_lerp, is_old, corrected, jumps, plain, take_jump, take_on, reset, wind_of};

use crate::estimates::{Estimate, Marks};
use crate::hands::{Hands, How, Order};
use ff_grain::Bintime;

/// The whole seconds after which an estimate is too old.
const MOST_AGE: u128 = 2048;

/// The nanoseconds that the uninterrupted clock makes up for in a second, at most.
const MOST_MADE_UP: u128 = 5_000_000;

/// The grains of a nanosecond, rounded down.
const NANOSECOND: u128 = 18_446_744_073;

// Whether the estimate is more than 2048 whole seconds old.
#[inline(always)]
fn is_old(h: &Hands, count: u64) -> bool
    requires update { h.now.est.update_ffcount ≤ count }
    ensures { result ≡ is_old h.now count }
{
    let age = u128::from(count - h.est.update_ffcount) * u128::from(h.est.period);
    (age >> 64) > MOST_AGE
}

// The clocks go on. After FreeBSD's `ffclock_windup` without a new estimate.
#[inline(always)]
fn plain(h: &Hands, count: u64) -> Hands
    requires bounded { IsBounded h.now }
    requires later { h.now.count ≤ count }
    requires count { count < 2 ^ 62 }
    ensures { result ≡ plain h.now count }
{
    Hands {
        count,
        time: Bintime::of_grains(h.time_at(count)),
        lerp: Bintime::of_grains(h.lerp_at(count)),
        period_lerp: h.period_lerp,
        boot: h.boot,
        kstatus: Marks {
            unsync: h.kstatus.unsync || is_old(h, count),
            warmup: h.kstatus.warmup,
        },
        how: How::Plain,
        est: h.est,
    }
}

// The slope that makes up for a gap over as many counts as lie between two estimates: the period, and
// a correction of at most 5 ms in a whole second of these counts.
fn corrected(gap: u128, forward: bool, counts: u64, period: u64) -> u64
    requires some { 0 < counts }
    requires counts { counts < 2 ^ 62 }
    requires period { period < 2 ^ 45 }
    ensures { result ≡ corrected forward gap counts period }
{
    let seconds = (u128::from(counts) * u128::from(period)) >> 64;
    let capped = gap.min(seconds * MOST_MADE_UP * NANOSECOND);
    let correction = (capped / u128::from(counts)) as u64;
    if forward {
        period + correction
    } else {
        period - correction
    }
}

// The uninterrupted clock goes on, at a slope that brings it to the new time. After FreeBSD's
// `ffclock_windup`, which divides approximately.
fn take_on(h: &Hands, count: u64, e: &Estimate) -> Hands
    requires bounded { IsBounded h.now }
    requires later { h.now.count ≤ count }
    requires count { count < 2 ^ 62 }
    requires sane { IsSane e.now }
    requires update { e.now.update_ffcount ≤ count }
    requires newer { h.now.est.update_ffcount < e.now.update_ffcount }
    ensures { result ≡ take_on h.now count e.now }
{
    let time = e.time_at(count);
    let lerp = h.lerp_at(count);
    let counts = e.update_ffcount - h.est.update_ffcount;
    Hands {
        count,
        time: Bintime::of_grains(time),
        lerp: Bintime::of_grains(lerp),
        period_lerp: corrected(time.abs_diff(lerp), lerp < time, counts, e.period),
        boot: h.boot,
        kstatus: e.status,
        how: How::Take,
        est: *e,
    }
}

// A boot time moved as a clock is from one time to another. A function of its own for the prover, which
// needs the bounds of the three numbers.
fn moved(boot: i128, from: i128, to: i128) -> i128
    requires boot { (neg_ℤ (pos (2 ^ 112)) ≤ℤ boot) × (boot <ℤ pos (2 ^ 112)) }
    requires from { (pos 0 ≤ℤ from) × (from <ℤ pos (2 ^ 112)) }
    requires to { (pos 0 ≤ℤ to) × (to <ℤ pos (2 ^ 112)) }
    ensures { result ≡ boot +ℤ (to -ℤ from) }
{
    boot + (to - from)
}

// The uninterrupted clock jumps to the new time, and the boot time with it, so that the uptime
// stays. After the warm-up of FreeBSD's `ffclock_windup`.
fn take_jump(h: &Hands, count: u64, e: &Estimate) -> Hands
    requires bounded { IsBounded h.now }
    requires later { h.now.count ≤ count }
    requires count { count < 2 ^ 62 }
    requires sane { IsSane e.now }
    requires update { e.now.update_ffcount ≤ count }
    ensures { result ≡ take_jump h.now count e.now }
{
    let time = e.time_at(count);
    let lerp = h.lerp_at(count);
    Hands {
        count,
        time: Bintime::of_grains(time),
        lerp: Bintime::of_grains(time),
        period_lerp: e.period,
        boot: Bintime::of_grains(moved(h.boot.grains(), lerp, time)),
        kstatus: e.status,
        how: How::Jump,
        est: *e,
    }
}

// Whether a new estimate moves the uninterrupted clock at once.
fn jumps(h: &Hands, e: &Estimate) -> bool
    ensures { result ≡ jumps h.now e.now }
{
    h.kstatus.unsync && e.status.warmup && !e.status.unsync
}

// All clocks begin anew. After FreeBSD's `ffclock_reset_clock`.
fn reset(count: u64, e: &Estimate) -> Hands
    requires count { count < 2 ^ 62 }
    requires sane { IsSane e.now }
    requires update { e.now.update_ffcount ≤ count }
    ensures { result ≡ reset count e.now }
{
    let time = Bintime::of_grains(e.time_at(count));
    Hands {
        count,
        time,
        lerp: time,
        period_lerp: e.period,
        boot: e.update_time,
        kstatus: e.status,
        how: How::Reset,
        est: *e,
    }
}

#[tactic(auto, unfolding(crate::specs::Windups::wind_of))]
#[inline(always)]
fn wound(h: &Hands, count: u64, o: &Order) -> Hands
    requires bounded { IsBounded h.now }
    requires fits { fits h.now count o.now ≡ true }
    ensures { result ≡ wind_of h.now count o.now }
{
    match o {
        Order::Plain => plain(h, count),
        Order::Take(e) => {
            if jumps(h, e) {
                take_jump(h, count, e)
            } else {
                take_on(h, count, e)
            }
        }
        Order::Reset(e) => reset(count, e),
    }
}

/// The next hands of a clock at a count, by an order that fits.
///
/// The hands have to stand in a journal of ticks, and the new ones then do. The absolute clock goes by
/// the estimate. The uninterrupted clock goes on where it is, but for resets and the jumps of a
/// warm-up; its slope is within a two-hundredth of the period.
#[inline(always)]
pub fn wind(h: &Hands, count: u64, o: &Order) -> Hands
    requires sound { IsSound h.now }
    requires fits { fits h.now count o.now ≡ true }
    ensures value { result ≡ wind_of h.now count o.now }
    ensures sound { IsSound result }
    ensures slope { (199 * result.est.period ≤ 200 * result.period_lerp) × (200 * result.period_lerp ≤ 201 * result.est.period) }
    ensures line { result.how ≢ How.Reset → result.how ≢ How.Jump → number_of result.lerp ≡ moved_lerp h.now count }
    ensures uptime { result.how ≢ How.Reset → number_of result.lerp -ℤ number_of result.boot ≡ moved_lerp h.now count -ℤ number_of h.now.boot }
{
    wound(h, count, o)
}
