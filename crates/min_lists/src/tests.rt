// The first among equal ones, and two windows beside a plain computation over all round trips.
ghost use Rattle.std.specs.Prelude.{◌≡◌, ◌+◌, ◌-◌, ◌<◌, ◌^◌, IfOk};

use crate::{Lists, Which};
use ff_grain::NoMemory;
use std::alloc::Global;
use std::marker::Brand;
use std::sync::ledger::{Blank, Ledger};
use std::test::Fail;
use step_count::Steps;

// Windows over the last 1,024 round trips and over the last 32. The others stay empty.
#[derive(Drop)]
struct Trial {
    lists: Lists,
    count: u64,
    ghost counted: { lists.count ≡ count },
    ghost base: { lists.base ≡ record { from = count - 1024; to = count } },
    ghost recent: { lists.recent ≡ record { from = count - 32; to = count } },
    ghost wide_old: { lists.wide_old ≡ record { from = 0; to = 0 } },
    ghost wide_new: { lists.wide_new ≡ record { from = 0; to = 0 } },
    ghost near_old: { lists.near_old ≡ record { from = 0; to = 0 } },
    ghost near_new: { lists.near_new ≡ record { from = 0; to = 0 } },
}

impl Trial {
    fn new(alloc: Global) -> Result<Trial, NoMemory>
        ensures { IfOk result (λ t. t.count ≡ 0) }
    {
        Ok(Trial {
            lists: Lists::new(alloc)?,
            count: 0,
        })
    }

    // Adds a round trip, and moves both windows up to it.
    fn step<L: Ledger>(&mut self, rtt: u64, steps: &mut Steps<L>)
        requires { self.old.count < 2 ^ 62 }
        ensures { self.new.count ≡ self.old.count + 1 }
    {
        let next = self.count + 1;
        self.lists.cut(Which::Base, next.saturating_sub(1024));
        self.lists.add(rtt);
        self.lists.enter(Which::Base, steps);
        self.lists.enter(Which::Recent, steps);
        self.lists.cut(Which::Recent, next.saturating_sub(32));
        self.count = next;
    }

    // Each window's least is what a plain computation says.
    fn agrees(&self, trips: &[u64]) -> bool {
        self.lists.least(Which::Base) == plain_least(trips, 1024)
            && self.lists.least(Which::Recent) == plain_least(trips, 32)
    }
}

// The first index of least round trip among the last `most`.
fn plain_least(trips: &[u64], most: usize) -> Option<u64> {
    let from = trips.len().saturating_sub(most);
    let least = trips.iter().skip(from).min()?;
    let behind = trips.iter().skip(from).position(|trip| trip == least)?;
    Some(from.saturating_add(behind) as u64)
}

// A round trip of a long list: levels that rise and fall, and many ties.
fn trip_of(i: u64) -> u64
    requires { i < 2 ^ 32 }
{
    let level = match i / 300 {
        0 => 150,
        1..=4 => 300,
        5 => 900,
        _ => 100,
    };
    level + i * i % 7
}

// The least of the last 32 of these, if each window had the least that a plain computation says.
fn least_under<L: Ledger>(
    alloc: Global,
    trips: &[u64],
    blank: Blank,
) -> Result<Option<u64>, NoMemory>
    requires name { blank.name ≡ L.name }
    requires parts { blank.parts ≡ L.parts }
    requires some { 0 < blank.parts }
{
    let mut steps = Steps::<L>::new(blank);
    let mut trial = Trial::new(alloc)?;
    for i in 0..trips.len().min(4096) {
        trial.step(trips[i], &mut steps);
        if !trial.agrees(&trips[..=i]) {
            return Ok(None);
        }
    }
    Ok(trial.lists.least(Which::Recent))
}

#[test]
fn the_first_of_least_is_known(rt: HostRuntime) -> Result<(), Fail> {
    let mut many = Vec::new(rt.alloc());
    for i in 0..2100 {
        many.push(trip_of(i))?;
    }
    let rows: [(&[u64], Option<u64>); 5] = [
        (&[], None),
        (&[7], Some(0)),
        (&[7, 5, 5], Some(1)),
        (&[5, 7, 5], Some(0)),
        (&many, Some(2072)),
    ];
    for (trips, wanted) in rows {
        let least = least_under::<Brand>(rt.alloc(), trips, Blank::new(1))?;
        assert_eq!(rt; least, wanted);
    }
    Ok(())
}
