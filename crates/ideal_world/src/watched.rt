// A daemon that is watched.
ghost use Rattle.std.specs.Prelude.{◌≡◌, ◌↔◌, ℕ, ◌≤◌, List, [], Ok, IfOk};
ghost use Rattle.stamp_text.specs.Accepted.{IsInRange, accepted_with};
ghost use Rattle.stamp_text.specs.declared.accepts.Refused.{Refused};
ghost use Rattle.stamp_text.specs.Past.{accept_item};
ghost use Rattle.stamp_text.specs.declared.lines.Item.{Item};
ghost use Rattle.stamp_text.specs.declared.lines.Item.TheVariants as item;
ghost use Rattle.ff_estimator.specs.Events.{fed_of};
ghost use Rattle.ff_estimator.specs.Daemons.{StandsFor, credit};
ghost use Rattle.ff_estimator.specs.Runs.{IsPaid};
ghost use Rattle.ff_estimator.specs.declared.fulls.Full.{Full};
ghost use Rattle.world_times.specs.Worlds.{IsFit, LiesIn};
ghost use Rattle.ideal_world.specs.Watching.{judged_by};

use ff_estimator::{Daemon, Fed, Full};
use ff_grain::NoMemory;
use stamp_text::{Refused, Stamp};
use std::alloc::Global;
use std::marker::Model;
use std::sync::ledger::Ledger;
use step_count::Steps;
use world_times::World;

/// What a watched daemon answers to a stamp.
#[derive(Clone, Copy, Debug, PartialEq, Eq)]
pub enum Judged {
    /// The stamp does not lie in the world.
    Outside,
    /// The stamp is not accepted: the first test that it fails.
    Refused(Refused),
    /// The estimate at the stamp, and by how much its time is off there, in grains.
    Estimate { full: Full, distance: u128 },
}

/// A daemon that is fed stamps of one world alone.
#[derive(Drop)]
pub struct Watched {
    daemon: Daemon,
    world: World,
    freq: u64,
}

impl Model for Watched {
    ghost use Rattle.ideal_world.specs.Watching.{Kept, Holds};

    ghost Value = { Kept };

    ghost view = { λ w. record { daemon = w.daemon; world = w.world } };

    ghost invariant = { λ w. Holds w.daemon w.world w.freq };
}

impl Watched {
    /// A daemon without stamps, for a counter with the nominal frequency `freq` in Hz, from 10^6 to
    /// 16*10^9, in a world that fits it.
    ///
    /// It takes all its memory here, and want of it is the only error.
    pub fn new(alloc: Global, world: World, freq: u64) -> Result<Watched, NoMemory>
        requires low { 1000000 ≤ freq }
        requires high { freq ≤ 16000000000 }
        requires fits { IsFit freq world }
        ensures world { IfOk result (λ w. w.world ≡ world) }
        ensures stands { IfOk result (λ w. StandsFor w.daemon freq []) }
        ensures credit { IfOk result (λ w. credit w.daemon ≡ 0) }
    {
        let daemon = Daemon::new(alloc, freq)?;
        Ok(Watched {
            daemon,
            world,
            freq,
        })
    }

    /// Takes the next stamp, as [`Daemon::feed`] does, if it lies in the world, and tells by how much
    /// the estimate's time is off: by at most its spread.
    ///
    /// Its counters are below 2^62, and its times from 0 to below 2^32 s. Where it does not lie in the
    /// world nothing changes, and the steps stay too.
    pub fn feed<L: Ledger>(&mut self, s: Stamp, steps: &mut Steps<L>) -> Judged
        requires { IsInRange s }
        ensures outside { result ≡ Judged.Outside ↔ (LiesIn self.old.world s → ⊥) }
        ensures unchanged { result ≡ Judged.Outside → self.new ≡ self.old }
        ensures untouched { result ≡ Judged.Outside → steps.new ≡ steps.old }
        ensures answer { (freq : ℕ) (items : List Item) → StandsFor self.old.daemon freq items →
            LiesIn self.old.world s → result ≡ judged_by self.old.world s.tf (fed_of freq items s) }
        ensures stands { (freq : ℕ) (items : List Item) → StandsFor self.old.daemon freq items →
            LiesIn self.old.world s → StandsFor self.new.daemon freq
            (accepted_with items (item.Stamp s) (accept_item freq items (item.Stamp s))) }
        ensures refused { (why : Refused) → result ≡ Judged.Refused why → self.new ≡ self.old }
        ensures uncounted { (why : Refused) → result ≡ Judged.Refused why → steps.new ≡ steps.old }
        ensures world { self.new.world ≡ self.old.world }
        ensures truth { (full : Full) (distance : ℕ) → result ≡ Judged.Estimate full distance →
            distance ≤ full.spread }
        ensures paid { IsPaid self.old.daemon (record { before = steps.old; after = steps.new })
            self.new.daemon }
    {
        if !self.world.holds(&s) {
            return Judged::Outside;
        }
        match self.daemon.feed(s, steps) {
            Fed::Refused(why) => Judged::Refused(why),
            Fed::Estimate(full) => Judged::Estimate {
                full,
                distance: self.world.distance(full.est.update_time, s.tf),
            },
        }
    }
}
