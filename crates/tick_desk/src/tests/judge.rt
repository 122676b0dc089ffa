// What a journal allows of a reader's answers, point by point.
ghost use Rattle.std.specs.Prelude.{◌≡◌};
ghost use Rattle.ff_hands.specs.Journals.{IsJournal};

use crate::tests::reading_of;
use clock_lines::{Entry, Kind, Reading};
use ff_hands::{Hands, How};

// What a reader was answered so far: the newest tick that was met, the last counter, and the last
// readings of the uninterrupted clocks.
#[derive(Clone, Copy)]
struct Before {
    tick: u64,
    count: u64,
    mono: Option<Reading>,
    uptime: Option<Reading>,
}

// Time and bound are those of the tick's hands at the count, which is not before the tick, nor
// past the next one. A past count is behind its tick's, unless that is the first.
fn is_reading(ticks: &[Hands], r: &Reading) -> bool
    requires { IsJournal ticks.now }
{
    let Some(h) = ticks.get(r.tick as usize) else {
        return false;
    };
    let place = match ticks.get((r.tick as usize).saturating_add(1)) {
        Some(next) => r.kind == Kind::Diff || r.count <= next.count,
        None => true,
    };
    let line = r.kind != Kind::Back || r.tick == 0 || h.count < r.count;
    place && line && reading_of(ticks, r.kind, r.tick, r.count) == Some(*r)
}

// The turn word was odd, or was another the second time.
fn is_crossed(newest: u64, first: u64, last: u64) -> bool {
    let moved = if first % 2 == 0 {
        first < last
    } else {
        first == last
    };
    moved && last.div_ceil(2) <= newest
}

// The first is the mark of a tick, and the last that of a later one in its slot, or of the
// writing of that.
fn is_overtaken(newest: u64, first: u64, last: u64) -> bool {
    let Some(later) = last.checked_sub(first) else {
        return false;
    };
    let slot = later % 20 == 19 || later % 20 == 0;
    let late = later >= 19 && slot;
    first >= 2 && first % 2 == 0 && late && last.div_ceil(2) <= newest.saturating_add(1)
}

fn is_again(newest: u64, kind: Kind, first: u64, last: u64) -> bool {
    match kind {
        Kind::Fast | Kind::Diff => is_overtaken(newest, first, last),
        Kind::Back => is_crossed(newest, first, last) || is_overtaken(newest, first, last),
        Kind::Abs | Kind::Mono | Kind::Uptime | Kind::Utc => is_crossed(newest, first, last),
    }
}

// The oldest tick that was looked at is the ninth before some tick, not the first, and not before
// the count.
fn is_too_old(ticks: &[Hands], count: u64, oldest: u64) -> bool {
    let ninths = ticks.len().saturating_sub(9);
    for (n, h) in ticks.iter().enumerate() {
        if 0 < n && n < ninths && h.count == oldest {
            return count <= oldest;
        }
    }
    false
}

fn is_entry(ticks: &[Hands], e: &Entry) -> bool
    requires { IsJournal ticks.now }
{
    let newest = ticks.len().saturating_sub(1) as u64;
    match *e {
        Entry::Read(r) => is_reading(ticks, &r),
        Entry::Again { kind, first, last } => is_again(newest, kind, first, last),
        Entry::TooOld { count, oldest } => is_too_old(ticks, count, oldest),
        Entry::Ahead { count, at } => at < count,
    }
}

// Whether the ticks behind one tick, up to another, begin no uninterrupted clock anew.
fn goes_on(ticks: &[Hands], from: u64, to: u64, kind: Kind) -> bool {
    for (n, h) in ticks.iter().enumerate() {
        let anew = h.how == How::Reset || (h.how == How::Jump && kind == Kind::Mono);
        if from < n as u64 && n as u64 <= to && anew {
            return false;
        }
    }
    true
}

// An uninterrupted clock does not fall from one reading to a later one.
fn rises(ticks: &[Hands], last: Option<Reading>, r: &Reading) -> bool {
    match last {
        Some(l) => !goes_on(ticks, l.tick, r.tick, r.kind) || l.time <= r.time,
        None => true,
    }
}

// The newest tick when the call began, as its answer tells it. Past counts tell none.
fn tick_met(e: &Entry) -> Option<u64> {
    match *e {
        Entry::Read(r) if r.kind != Kind::Back => Some(r.tick),
        Entry::Again {
            kind: Kind::Fast | Kind::Diff,
            first,
            last: _,
        } => (first / 2).checked_sub(1),
        Entry::Again {
            kind: Kind::Abs | Kind::Mono | Kind::Uptime | Kind::Utc,
            first,
            last: _,
        } => Some(first / 2),
        Entry::Read(_)
        | Entry::Again {
            kind: Kind::Back,
            first: _,
            last: _,
        }
        | Entry::TooOld {
            count: _,
            oldest: _,
        }
        | Entry::Ahead { count: _, at: _ } => None,
    }
}

// Takes a reading behind the earlier ones, where it may stand there.
fn after_reading(ticks: &[Hands], before: Before, r: &Reading) -> Option<Before> {
    let mut after = before;
    match r.kind {
        Kind::Mono if rises(ticks, before.mono, r) => after.mono = Some(*r),
        Kind::Uptime if rises(ticks, before.uptime, r) => after.uptime = Some(*r),
        Kind::Mono | Kind::Uptime => return None,
        Kind::Abs | Kind::Utc => {}
        Kind::Fast | Kind::Diff | Kind::Back => return Some(after),
    }
    after.count = r.count;
    (before.count <= r.count).then_some(after)
}

fn after_entry(ticks: &[Hands], before: Before, e: &Entry) -> Option<Before> {
    let mut after = before;
    if let Some(tick) = tick_met(e) {
        if tick < before.tick {
            return None;
        }
        after.tick = tick;
    }
    match e {
        Entry::Read(r) => after_reading(ticks, after, r),
        Entry::Ahead { count: _, at } => {
            after.count = *at;
            (before.count <= *at).then_some(after)
        }
        Entry::Again {
            kind: _,
            first: _,
            last: _,
        }
        | Entry::TooOld {
            count: _,
            oldest: _,
        } => Some(after),
    }
}

/// The first of a reader's answers that its journal does not allow. Besides each for itself, the
/// ticks that the reader met do not fall, nor the counters, nor the uninterrupted clocks between
/// two resets.
pub(crate) fn first_fault(ticks: &[Hands], entries: &[Entry]) -> Option<Entry>
    requires { IsJournal ticks.now }
{
    let mut before = Before {
        tick: 0,
        count: 0,
        mono: None,
        uptime: None,
    };
    for e in entries {
        match after_entry(ticks, before, e) {
            Some(after) if is_entry(ticks, e) => before = after,
            Some(_) | None => return Some(*e),
        }
    }
    None
}
