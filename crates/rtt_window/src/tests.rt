// What is said of worked lists, and the window beside a plain computation over all round trips.
ghost use Rattle.std.specs.Prelude.{◌≡◌, ◌<◌, ◌^◌, IfSome};
ghost use Rattle.stamp_text.specs.Accepted.{IsInRange, last_of};

use crate::{Base, Window};
use ff_grain::{Bintime, NoMemory};
use stamp_text::{Stamp, accept};
use std::alloc::Global;
use std::marker::Brand;
use std::sync::ledger::{Blank, Ledger};
use std::test::Fail;
use step_count::Steps;

const FREQ: u64 = 1_000_000_000;

// One stamp a second: that with this index and this round trip.
fn stamp_of(i: u32, trip: u32) -> Stamp
    ensures { IsInRange result }
{
    let ta = u64::from(i) * FREQ;
    let time = Bintime {
        sec: i64::from(i),
        frac: 0,
    };
    Stamp {
        ta,
        tb: time,
        te: time,
        tf: ta + u64::from(trip),
        stratum: 1,
        leap: 0,
    }
}

// A window at that frequency.
#[derive(Drop)]
struct Trial {
    window: Window,
    ghost freq: { window.freq ≡ 1000000000 },
}

impl Trial {
    fn new(alloc: Global) -> Result<Trial, NoMemory> {
        Ok(Trial {
            window: Window::new(alloc, FREQ)?,
        })
    }

    fn newest(&self) -> Option<Stamp>
        ensures value { result ≡ last_of self.now.window.stamps }
        ensures timed { IfSome result IsInRange }
    {
        if self.window.is_empty() {
            return None;
        }
        Some(self.window.stamp(self.window.len() - 1))
    }

    // Adds a stamp, if it is accepted.
    fn add<L: Ledger>(&mut self, s: Stamp, steps: &mut Steps<L>) -> Option<Base>
        requires { IsInRange s }
    {
        let newest = self.newest();
        accept(newest.as_ref(), &s, FREQ).ok()?;
        Some(self.window.add(s, steps))
    }

    // The indices of the pair among the last stamps, as many as `reach`.
    fn pair(&self, reach: u32) -> Option<(u64, u64)> {
        let (j, k) = self.window.pair(reach.clamp(2, 1024))?;
        Some((j.ta / FREQ, k.ta / FREQ))
    }
}

// All round trips so far, and where the level began.
#[derive(Drop)]
struct Plain {
    trips: Vec<u32>,
    start: usize,
}

impl Plain {
    fn least_from(&self, from: usize) -> u32 {
        self.trips.iter().skip(from).copied().min().unwrap_or(0)
    }

    // Four scales are 240,000 counts.
    fn add(&mut self, trip: u32) -> Result<Base, NoMemory> {
        self.trips.push(trip)?;
        let last = self.trips.len() - 1;
        let least = self.least_from(last.saturating_sub(1023).max(self.start));
        let recent = self.least_from(last.saturating_sub(31));
        let shifted = last.saturating_sub(self.start) >= 32
            && u64::from(recent) > u64::from(least) + 240_000;
        if shifted {
            self.start = last.saturating_sub(31);
        }
        Ok(Base {
            base: u64::from(if shifted { recent } else { least }),
            start: self.start as u64,
            shifted,
        })
    }

    // The first index of least round trip among so many from one on.
    fn first_least(&self, from: usize, many: usize) -> Option<u64> {
        let least = self.trips.iter().skip(from).take(many).min()?;
        let behind = self
            .trips
            .iter()
            .skip(from)
            .take(many)
            .position(|trip| trip == least)?;
        Some(from.saturating_add(behind) as u64)
    }

    // The indices of the pair among the last stamps, as many as `reach`.
    fn pair(&self, reach: u32) -> Option<(u64, u64)> {
        let all = self.trips.len();
        let near = all.min(reach as usize);
        let quarter = (near / 4).max(1);
        if all < 2 {
            return None;
        }
        let first = self.first_least(all - near, quarter)?;
        let last = self.first_least(all.saturating_sub(quarter), quarter)?;
        Some((first, last))
    }
}

// What is said of the last of these round trips, and the pair there, if the window said at each of
// them what a plain computation says.
fn told_under<L: Ledger>(
    alloc: Global,
    trips: &[u32],
    reach: u32,
    blank: Blank,
) -> Result<(Option<Base>, Option<(u64, u64)>), NoMemory>
    requires name { blank.name ≡ L.name }
    requires parts { blank.parts ≡ L.parts }
    requires some { 0 < blank.parts }
{
    let mut steps = Steps::<L>::new(blank);
    let mut trial = Trial::new(alloc)?;
    let mut plain = Plain {
        trips: Vec::new(alloc),
        start: 0,
    };
    let mut told = None;
    for (i, trip) in (0..4096).zip(trips) {
        told = trial.add(stamp_of(i, *trip), &mut steps);
        let wanted = plain.add(*trip)?;
        let same_pairs = [reach, 63]
            .iter()
            .all(|&reach| trial.pair(reach) == plain.pair(reach));
        if told != Some(wanted) || !same_pairs {
            return Ok((None, None));
        }
    }
    Ok((told, trial.pair(reach)))
}

// A round trip of a long list: one that is least and leaves the window, levels that rise and fall,
// also by less than a shift, and many ties.
fn trip_of(i: u32) -> u32
    ensures { result < 2 ^ 24 }
{
    let level = match i / 150 {
        0 => 150_000,
        1..=8 => 300_000,
        9 => 900_000,
        10 => 500_000,
        11 => 740_000,
        12 => 741_000,
        _ => 250_000,
    };
    level + i % 7 * 1000
}

#[test]
fn bases_and_pairs_are_told(rt: HostRuntime) -> Result<(), Fail> {
    let mut shifts = vec![in rt.alloc(); 100_000; 33]?;
    let mut stays = vec![in rt.alloc(); 100_000; 33]?;
    for _ in 0..32 {
        shifts.push(340_001)?;
        stays.push(340_000)?;
    }
    let mut many = Vec::new(rt.alloc());
    for i in 0..2100 {
        many.push(trip_of(i))?;
    }
    let ties = [1, 1, 1, 1, 9, 7, 7, 1, 1, 1, 1, 1, 1, 8, 6, 6];
    // The round trips, how many stamps are looked at, the base, its start and whether the level
    // shifts, and the indices of the pair.
    let rows: [(&[u32], u32, (u64, u64, bool), Option<(u64, u64)>); 8] = [
        (&[5], 1024, (5, 0, false), None),
        (&[5; 8], 1024, (5, 0, false), Some((0, 6))),
        (&ties, 1024, (1, 0, false), Some((0, 12))),
        (&ties, 64, (1, 0, false), Some((0, 12))),
        (&ties, 12, (1, 0, false), Some((5, 14))),
        (&shifts, 64, (340_001, 33, true), Some((1, 49))),
        (&stays, 64, (100_000, 0, false), Some((1, 49))),
        (&many, 1024, (250_000, 1800, false), Some((1078, 1953))),
    ];
    for (trips, reach, (base, start, shifted), pair) in rows {
        let told = told_under::<Brand>(rt.alloc(), trips, reach, Blank::new(1))?;
        let wanted = Base {
            base,
            start,
            shifted,
        };
        assert_eq!(rt; told, (Some(wanted), pair));
    }
    Ok(())
}
