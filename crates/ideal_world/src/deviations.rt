// The tick whose time is farthest from the truth.
ghost use Rattle.std.specs.Prelude.{◌+◌, ◌<◌, ◌≤◌, length, MatchOption};
ghost use Rattle.ff_hands.specs.Journals.{IsJournal};
ghost use Rattle.world_times.specs.Worlds.{IsWorld};
ghost use Rattle.ideal_world.specs.Deviations.{IsFarthest, IsFarthestBefore, IsFoundBefore};

use clock_lines::{Kind, bound};
use ff_hands::Hands;
use world_times::World;

/// The tick whose time is farthest from the truth at its count.
#[derive(Clone, Copy, Debug, PartialEq, Eq)]
pub struct Deviation {
    /// Its place in the journal.
    pub tick: u64,
    /// By how much its time is off, in grains of 2^-64 s.
    pub distance: u128,
    /// The bound of the absolute clock there, in grains.
    pub bound: u128,
}

/// Behind the cold tick and the one that sets the clock, neither of which tells the time.
const FIRST: usize = 2;

// The farthest of the ticks up to tick n, where that of those before it was found.
fn farther(world: &World, ticks: &[Hands], before: Option<Deviation>, n: usize) -> Deviation
    requires world { IsWorld world.now }
    requires journal { IsJournal ticks.now }
    requires behind { 2 ≤ n }
    requires there { n < length ticks.now }
    requires before { IsFoundBefore world.now ticks.now n before }
    ensures { IsFarthestBefore world.now ticks.now (n + 1) result }
{
    let h = &ticks[n];
    let found = Deviation {
        tick: n as u64,
        distance: world.distance(h.time, h.count),
        bound: bound(h, Kind::Abs, h.count),
    };
    match before {
        Some(f) if found.distance <= f.distance => f,
        _ => found,
    }
}

/// The first tick, from tick 2 on, whose time is farthest from the truth at its count, or `None` where
/// a journal has no such ticks.
pub fn farthest(world: &World, ticks: &[Hands]) -> Option<Deviation>
    requires world { IsWorld world.now }
    requires journal { IsJournal ticks.now }
    ensures { MatchOption result (length ticks.now ≤ 2) (IsFarthest world.now ticks.now) }
{
    let mut found = None;
    for n in FIRST..ticks.len() {
        found = Some(farther(world, ticks, found, n));
    }
    found
}
