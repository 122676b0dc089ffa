// Round trips that are compared only where it counts.
ghost use Rattle.std.specs.Prelude.{◌≡◌, ◌+◌, ◌≤◌, ◌↔◌, IsTrue};

use std::marker::Model;
use std::sync::ledger::Ledger;
use step_count::Steps;

/// A round trip in counts. Its one comparison takes a step, so no two are compared uncounted.
#[derive(Clone, Copy)]
pub struct Trip {
    counts: u64,
}

impl Model for Trip {
    ghost use Rattle.std.specs.Prelude.{ℕ};

    ghost Value = { ℕ };

    ghost view = { λ t. t.counts };

    ghost inverse = { λ n. record { counts = n } };
}

impl Trip {
    /// The round trip of so many counts.
    #[inline(always)]
    pub fn new(counts: u64) -> Trip
        ensures { result ≡ counts }
    {
        Trip { counts }
    }

    /// Compares two round trips, in one step.
    #[inline(always)]
    pub fn is_at_most<L: Ledger>(self, other: Trip, steps: &mut Steps<L>) -> bool
        ensures value { IsTrue result ↔ (self ≤ other) }
        ensures step { steps.new ≡ steps.old + 1 }
    {
        steps.count_one();
        self.counts <= other.counts
    }
}
