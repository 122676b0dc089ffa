// The rules of the daemon, over the list of all accepted stamps.
use ff_estimator::{Fed, Full};
use ff_grain::Bintime;
use ff_hands::{Estimate, Marks};
use rate_pair::Rate;
use stamp_text::Refused;
use std::alloc::{AllocError, Global};
use std::num::Saturating;

/// A whole number of counts or of grains. All that occur are far from the ends of the type.
pub type Whole = Saturating<i128>;

/// The nominal frequency of the counter, in Hz.
pub const FREQ: u64 = 1_000_000_000;

const ZERO: Whole = Saturating(0);

const ONE: Whole = Saturating(1);

/// The grains of a second.
const SECOND: Whole = Saturating(1 << 64);

/// The grains of a millisecond.
pub const MILLISECOND: i128 = 18_446_744_073_709_551;

/// What 60 microseconds are in counts: the scale of round trips.
const SCALE: Whole = Saturating(60_000);

/// The period of the nominal frequency, in grains.
const NOMINAL: Whole = Saturating((1 << 63) / (FREQ as i128) * 2);

/// By how much a period that is believed is at most off, in grains.
const OFF: Whole = Saturating((1 << 63) / (FREQ as i128) * 2 / 2000);

/// The weights of an excess of 0, 1, 2 and more eighths of the scale.
const WEIGHTS: [i128; 25] = [
    65536, 64520, 61565, 56939, 51039, 44344, 37341, 30477, 24109, 18485, 13737, 9894, 6907, 4674,
    3065, 1948, 1200, 717, 415, 233, 127, 67, 34, 17, 8,
];

/// A stamp: two counts, and between them two times in grains.
#[derive(Clone, Copy, Default)]
pub struct Row {
    pub ta: Whole,
    pub tb: Whole,
    pub te: Whole,
    pub tf: Whole,
}

impl Row {
    pub fn trip(&self) -> Whole {
        self.tf - self.ta
    }
}

// A period and its bounds.
#[derive(Clone, Copy)]
struct Band {
    period: Whole,
    low: Whole,
    high: Whole,
}

impl Band {
    fn error(&self) -> Whole {
        (self.high - self.period).max(self.period - self.low)
    }
}

fn floor(a: Whole, b: Whole) -> Whole {
    Saturating(a.0.div_euclid(b.0.max(1)))
}

fn ceil(a: Whole, b: Whole) -> Whole {
    floor(a + b - ONE, b)
}

fn word(x: Whole) -> u64 {
    u64::try_from(x.0).unwrap_or(0)
}

/// The greatest period that is believed.
pub fn highest() -> Whole {
    NOMINAL + OFF
}

fn believed(x: Whole) -> Whole {
    x.max(NOMINAL - OFF).min(highest())
}

// The first test that a stamp does not pass.
fn refusal(before: Option<Row>, row: &Row) -> Option<Refused> {
    let (last_tf, last_te) = match before {
        Some(last) => (last.tf, last.te),
        None => (Saturating(-1), ZERO),
    };
    let tests = [
        (row.ta >= row.tf, Refused::Backward),
        (row.te < row.tb, Refused::ServerBackward),
        (row.ta <= last_tf, Refused::Overlap),
        (row.tb < last_te, Refused::ServerOld),
        (row.trip().0 > i128::from(FREQ), Refused::LongTrip),
        (row.te - row.tb > row.trip() * highest(), Refused::Acausal),
    ];
    for (holds, why) in tests {
        if holds {
            return Some(why);
        }
    }
    None
}

fn weight_of(excess: Whole) -> Whole {
    let row = word(floor(Saturating(8) * excess, SCALE));
    match WEIGHTS.get(row.min(25) as usize) {
        Some(weight) => Saturating(*weight),
        None => ZERO,
    }
}

fn rate_of(j: &Row, k: &Row) -> Band {
    let grains = (k.tb - j.tb) + (k.te - j.te);
    let counts = (k.ta - j.ta) + (k.tf - j.tf);
    let trips = j.trip() + k.trip();
    Band {
        period: believed(floor(grains, counts)),
        low: believed(floor(grains, counts + trips)),
        high: believed(ceil(grains, counts - trips)),
    }
}

/// The accepted stamps, and what the rules carry from one to the next: the start of the level, the
/// run of replaced means, and the time and the spread that were taken.
#[derive(Drop)]
pub struct Plain {
    all: Vec<Row>,
    start: usize,
    run: u32,
    time: Whole,
    spread: Whole,
}

impl Plain {
    pub fn new(alloc: Global) -> Plain {
        Plain {
            all: Vec::new(alloc),
            start: 0,
            run: 0,
            time: ZERO,
            spread: ZERO,
        }
    }

    // The index of the newest stamp.
    fn index(&self) -> usize {
        self.all.len().saturating_sub(1)
    }

    // The least round trip from this index on.
    fn least(&self, from: usize) -> Whole {
        match self.best(from, usize::MAX) {
            Some(row) => row.trip(),
            None => ZERO,
        }
    }

    // The base, and whether the level shifts. Where it does, it starts anew.
    fn base(&mut self) -> (Whole, bool) {
        let i = self.index();
        let base = self.least(self.start.max(i.saturating_sub(1023)));
        let recent = self.least(i.saturating_sub(31));
        let shifted = i.saturating_sub(self.start) >= 32 && recent > base + Saturating(4) * SCALE;
        if shifted {
            self.start = i.saturating_sub(31);
            return (recent, true);
        }
        (base, false)
    }

    // The first of least round trip of so many stamps from this index on.
    fn best(&self, from: usize, count: usize) -> Option<Row> {
        let mut best: Option<Row> = None;
        for row in self.all.iter().skip(from).take(count) {
            match best {
                Some(least) if least.trip() <= row.trip() => {}
                _ => best = Some(*row),
            }
        }
        best
    }

    // The rate over so many of the last stamps.
    fn rate(&self, reach: usize) -> Band {
        let len = self.all.len();
        let here = len.min(reach);
        let quarter = (here / 4).max(1);
        let first = self.best(len.saturating_sub(here), quarter);
        let last = self.best(len.saturating_sub(quarter), quarter);
        match (first, last) {
            (Some(j), Some(k)) if here >= 2 => rate_of(&j, &k),
            _ => Band {
                period: NOMINAL,
                low: believed(ZERO),
                high: highest(),
            },
        }
    }

    // The weighted mean of what the last stamps of the level say, and its spread.
    fn mean(&self, base: Whole, rate: &Band, now: Whole) -> Option<(Whole, Whole)> {
        let mut weights = ZERO;
        let mut times = ZERO;
        let mut spreads = ZERO;
        let first = self.start.max(self.index().saturating_sub(31));
        for row in self.all.iter().skip(first) {
            let aged = floor(now - row.tf, Saturating(1 << 23));
            let weight = weight_of(row.trip() - base + aged);
            let counts = (now - row.ta) + (now - row.tf);
            weights += weight;
            times += weight * (row.tb + row.te + rate.period * counts);
            spreads += weight * (row.trip() * rate.high + rate.error() * counts);
        }
        if weights == ZERO {
            return None;
        }
        let twice = weights + weights;
        Some((floor(times, twice), ceil(spreads, twice) + ONE))
    }

    // Takes the mean or the prediction, and answers whether it is the prediction.
    fn take(&mut self, mean: Option<(Whole, Whole)>, predicted: (Whole, Whole)) -> bool {
        let far = match mean {
            Some((time, _)) => (time - predicted.0).abs().0 > MILLISECOND,
            None => false,
        };
        let replaced = far && self.index() >= 16 && self.run < 32;
        (self.time, self.spread) = match mean {
            Some(mean) if !replaced => mean,
            _ => predicted,
        };
        if replaced {
            self.run = self.run.saturating_add(1);
        } else if mean.is_some() {
            self.run = 0;
        }
        replaced || mean.is_none()
    }

    /// Takes the next stamp, if it is accepted.
    pub fn feed(&mut self, row: Row) -> Result<Fed, AllocError> {
        let before = self.all.last().copied();
        if let Some(why) = refusal(before, &row) {
            return Ok(Fed::Refused(why));
        }
        self.all.push(row)?;
        let (base, shifted) = self.base();
        let global = self.rate(1024);
        let near = self.rate(64);
        let apart = (near.period - global.period).abs();
        let local = self.index() >= 63
            && apart * Saturating(10_000_000) <= Saturating(3) * global.period;
        let mean = self.mean(base, if local { &near } else { &global }, row.tf);
        let since = match before {
            Some(last) => row.tf - last.tf,
            None => ZERO,
        };
        let time = self.time + global.period * since;
        let predicted = self.take(mean, (time, self.spread + global.error() * since));
        Ok(Fed::Estimate(Full {
            est: self.estimate(row.tf, &global),
            spread: u128::try_from(self.spread.0).unwrap_or(0),
            rate: Rate {
                period: word(global.period),
                low: word(global.low),
                high: word(global.high),
            },
            shifted,
            local,
            predicted,
        }))
    }

    fn estimate(&self, now: Whole, rate: &Band) -> Estimate {
        let nanos = u32::try_from(ceil(self.spread * Saturating(1_000_000_000), SECOND).0);
        let parts = ceil(rate.error() * Saturating(1_000_000_000_000), rate.period);
        Estimate {
            update_time: Bintime::of_grains(self.time.0),
            update_ffcount: word(now),
            leapsec_next: 0,
            period: word(rate.period),
            errb_abs: nanos.unwrap_or(u32::MAX),
            errb_rate: u32::try_from(parts.0).unwrap_or(0),
            status: Marks {
                unsync: nanos.is_err(),
                warmup: self.index() < 16,
            },
            leapsec_total: 0,
            leapsec: 0,
        }
    }
}
