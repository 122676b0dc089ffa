// What a report of `replay` may say, judged by functions of the tests' own. They know the rules of readings
// and plans, and no code of the program. All sums are of grains of 2^-64 s, far below 2^127.
use crate::tests::logs::{Asked, Attempt, Came, Report, Tick};
use clock_lines::Kind;

/// What is wrong with a report.
#[derive(Clone, Copy, Debug, PartialEq, Eq)]
pub enum Wrong {
    /// The ticks are not those of the plan.
    Ticks,
    /// The readers did not make as many attempts as they were to.
    Many,
    /// This attempt, counted from 0 over all readers.
    Attempt(usize),
}

// A step of the plan: the count that it is due at, and whether its order is a plain one.
#[derive(Clone, Copy, PartialEq, Eq)]
struct Step {
    to: u64,
    plain: bool,
}

// The step of a tick. The first two ticks are the cold one and the reset; then comes each estimate and each
// set, with plain ticks up to the next.
fn step_of(report: &Report, n: u64) -> Option<Step> {
    let Some(k) = n.checked_sub(2) else {
        return Some(Step {
            to: 0,
            plain: false,
        });
    };
    let turn = report.asked.ticks.checked_add(1)?;
    let i = k.checked_div(turn)? as usize;
    let m = k.checked_rem(turn)?;
    let from = *report.events.get(i)?;
    if m == 0 {
        return Some(Step {
            to: from,
            plain: false,
        });
    }
    let all = report.events.get(i.checked_add(1)?)?.checked_sub(from)?;
    let part = m.checked_mul(all)?.checked_div(turn)?;
    Some(Step {
        to: from.checked_add(part)?,
        plain: true,
    })
}

// The count of the last event, which no tick and no reading is past.
fn greatest(report: &Report) -> u64 {
    report.events.last().copied().unwrap_or(0)
}

// Beside a crank a tick may come late.
fn is_tick(report: &Report, n: u64, tick: &Tick) -> bool {
    let Some(step) = step_of(report, n) else {
        return false;
    };
    let late = report.asked.crank && tick.count <= greatest(report);
    let due = step.to == tick.count || (late && step.to <= tick.count);
    tick.number == n && step.plain == tick.plain && due
}

fn are_ticks(report: &Report) -> bool {
    for (n, tick) in report.ticks.iter().enumerate() {
        if !is_tick(report, n as u64, tick) {
            return false;
        }
    }
    // Behind the last event there is no step.
    report.ticks.len() >= 2 && step_of(report, report.ticks.len() as u64).is_none()
}

fn times(counts: u64, period: u64) -> i128 {
    i128::from(counts).wrapping_mul(i128::from(period))
}

// What a clock reads at a count by a tick.
fn time_by(tick: &Tick, kind: Kind, count: u64) -> i128 {
    let since = count.wrapping_sub(tick.count);
    let line = tick.lerp.wrapping_add(times(since, tick.slope));
    match kind {
        Kind::Abs => tick.time.wrapping_add(times(since, tick.period)),
        Kind::Utc => {
            let due = if tick.next < count { tick.due } else { 0 };
            let leaps = i128::from(tick.leaps.wrapping_add(due));
            let abs = tick.time.wrapping_add(times(since, tick.period));
            abs.wrapping_sub(leaps.wrapping_mul(1 << 64))
        }
        Kind::Mono | Kind::Back => line,
        Kind::Uptime => line.wrapping_sub(tick.boot),
        Kind::Fast => tick.time,
        Kind::Diff => times(count, tick.period),
    }
}

// So many parts in 10^12 of a length, rounded up.
fn parts(length: i128, rate: u64) -> i128 {
    let whole = (length / 1_000_000_000_000).wrapping_mul(i128::from(rate));
    let rest = (length % 1_000_000_000_000).wrapping_mul(i128::from(rate));
    whole.wrapping_add(rest.wrapping_add(999_999_999_999) / 1_000_000_000_000)
}

fn bound_by(tick: &Tick, kind: Kind, count: u64) -> i128 {
    if kind == Kind::Diff {
        return parts(times(count, tick.period), tick.rate);
    }
    let since = times(count.wrapping_sub(tick.update), tick.period);
    i128::from(tick.abs)
        .wrapping_mul(18_446_744_074)
        .wrapping_add(parts(since, tick.rate))
}

// The true time at a count in the world that made stamps are of.
fn truth(count: u64) -> i128 {
    times(count, 7_686_343_364).wrapping_add(1_700_000_000 << 64)
}

/// Whether the time of a tick is off by at most its bound in that world. The first two ticks know no time yet.
pub fn is_true_tick(tick: &Tick) -> bool {
    let bound = bound_by(tick, Kind::Fast, tick.count);
    tick.number < 2 || truth(tick.count).abs_diff(tick.time) <= bound.unsigned_abs()
}

/// Whether a reading of the absolute clock is, by another tick than these two.
pub fn is_true_attempt(attempt: &Attempt) -> bool {
    match attempt.came {
        Came::Read {
            kind: Kind::Abs | Kind::Fast,
            tick,
            count,
            time,
            bound,
        } => tick < 2 || truth(count).abs_diff(time) <= bound.unsigned_abs(),
        Came::Read { .. } | Came::Again { .. } | Came::Old { .. } | Came::Ahead { .. } => true,
    }
}

// Whether a count may be read at by a tick, with the next one after it.
fn is_place(asked: &Asked, kind: Kind, tick: &Tick, next: Option<&Tick>, count: u64) -> bool {
    let before_next = next.is_none_or(|t| count <= t.count);
    match kind {
        Kind::Abs | Kind::Mono | Kind::Uptime | Kind::Utc => tick.count <= count && before_next,
        Kind::Fast => count == tick.count,
        Kind::Diff => count == asked.freq,
        Kind::Back => (tick.count < count || tick.number == 0) && before_next,
    }
}

// The turn word was odd, or rose.
fn is_crossed(newest: u64, first: u64, last: u64) -> bool {
    let moved = if first % 2 == 0 {
        first < last
    } else {
        first == last
    };
    moved && last.div_ceil(2) <= newest
}

// The first is the mark of a tick, and the last that of a later one in its slot, or of the writing of that.
fn is_overtaken(newest: u64, first: u64, last: u64) -> bool {
    let later = last.saturating_sub(1) / 2;
    let tick = (first / 2).saturating_sub(1);
    let past = later.saturating_sub(tick);
    first >= 2 && first % 2 == 0 && past >= 10 && past % 10 == 0 && later <= newest
}

fn is_again(newest: u64, kind: Kind, first: u64, last: u64) -> bool {
    match kind {
        Kind::Abs | Kind::Mono | Kind::Uptime | Kind::Utc => is_crossed(newest, first, last),
        Kind::Fast | Kind::Diff => is_overtaken(newest, first, last),
        Kind::Back => is_crossed(newest, first, last) || is_overtaken(newest, first, last),
    }
}

// The oldest tick that was looked at is the ninth before some tick, and not the first.
fn is_too_old(ticks: &[Tick], count: u64, oldest: u64) -> bool {
    let ninths = ticks.len().saturating_sub(9) as u64;
    let mut known = ticks.iter().take(ninths as usize).skip(1);
    count <= oldest && known.any(|t| t.count == oldest)
}

// What a reader was answered so far: the tick and the count of its last readings, and the count of the
// last one of the absolute clock.
#[derive(Clone, Copy)]
struct Before {
    tick: u64,
    count: u64,
    latest: u64,
}

const NOTHING: Before = Before {
    tick: 0,
    count: 0,
    latest: 0,
};

// Takes a reading behind the earlier ones, where it may stand there.
fn after_reading(before: Before, kind: Kind, tick: u64, count: u64) -> Option<Before> {
    let mut after = before;
    match kind {
        Kind::Back => return (count == before.latest).then_some(before),
        Kind::Fast | Kind::Diff => {}
        Kind::Abs | Kind::Mono | Kind::Uptime | Kind::Utc => after.count = count,
    }
    if kind == Kind::Abs {
        after.latest = count;
    }
    after.tick = tick;
    (before.tick <= tick && before.count <= after.count).then_some(after)
}

// A reading is by the tick that it names.
fn is_reading(report: &Report, kind: Kind, n: u64, count: u64, time: i128, bound: i128) -> bool {
    let Some(tick) = report.ticks.get(n as usize) else {
        return false;
    };
    let next = report.ticks.get((n as usize).saturating_add(1));
    is_place(&report.asked, kind, tick, next, count)
        && (count <= greatest(report) || kind == Kind::Diff)
        && time == time_by(tick, kind, count)
        && bound == bound_by(tick, kind, count)
}

fn kind_of(came: &Came) -> Kind {
    match came {
        Came::Read { kind, .. } | Came::Again { kind, .. } => *kind,
        Came::Old { .. } | Came::Ahead { .. } => Kind::Back,
    }
}

// Takes an answer behind the earlier ones, where the journal allows it there.
fn after_answer(report: &Report, before: Before, came: &Came) -> Option<Before> {
    let newest = report.ticks.len().saturating_sub(1) as u64;
    match *came {
        Came::Read {
            kind,
            tick,
            count,
            time,
            bound,
        } => {
            if !is_reading(report, kind, tick, count, time, bound) {
                return None;
            }
            after_reading(before, kind, tick, count)
        }
        Came::Again { kind, first, last } => {
            is_again(newest, kind, first, last).then_some(before)
        }
        Came::Old { count, oldest } => {
            let old = is_too_old(&report.ticks, count, oldest);
            (old && count == before.latest).then_some(before)
        }
        // The counter has been where the latest reading was, so this never comes.
        Came::Ahead { .. } => None,
    }
}

// The kind of an attempt, by its place in a turn.
fn kind_in_turn(asked: &Asked, place: u64) -> Kind {
    match place {
        0 => Kind::Abs,
        1 => Kind::Mono,
        2 => Kind::Uptime,
        3 => Kind::Fast,
        4 => Kind::Diff,
        _ if place == 5 && asked.back => Kind::Back,
        _ => Kind::Utc,
    }
}

// Whether an attempt is the one that comes behind so many of all readers, of the kind that is its turn.
fn is_next(asked: &Asked, i: u64, attempt: &Attempt) -> bool {
    let reader = i.checked_div(asked.reads);
    let number = i.checked_rem(asked.reads).unwrap_or(0);
    let turn = 5 + u64::from(asked.back) + u64::from(asked.utc);
    let kind = kind_in_turn(asked, number % turn);
    reader == Some(attempt.reader) && attempt.number == number && kind == kind_of(&attempt.came)
}

/// The first attempt that may not stand where it does.
pub fn wrong_attempt(report: &Report) -> Option<Wrong> {
    let mut before = NOTHING;
    for (i, attempt) in report.attempts.iter().enumerate() {
        if attempt.number == 0 {
            before = NOTHING;
        }
        if !is_next(&report.asked, i as u64, attempt) {
            return Some(Wrong::Attempt(i));
        }
        match after_answer(report, before, &attempt.came) {
            Some(after) => before = after,
            None => return Some(Wrong::Attempt(i)),
        }
    }
    None
}

/// The first thing that is wrong with a whole report.
pub fn first_wrong(report: &Report) -> Option<Wrong> {
    let asked = &report.asked;
    if !are_ticks(report) {
        return Some(Wrong::Ticks);
    }
    if asked.readers.checked_mul(asked.reads) != Some(report.attempts.len() as u64) {
        return Some(Wrong::Many);
    }
    wrong_attempt(report)
}
