// The command `estimate`.
ghost use Rattle.std.specs.Prelude.{◌≡◌};
ghost use Rattle.ff_estimator.specs.Daemons.{StandsFor};
ghost use Rattle.radclock_run.specs.Tellings.{estimate_says};

use crate::reports::Telling;
use ff_estimator::{Daemon, Fed};
use rad_io::{Failed, Sink};
use report_text::LineText;
use report_text::lines::estimate_line;
use stamp_text::Stamp;
use std::sync::ledger::Ledger;
use step_count::Steps;

/// Tells the daemon's estimate at each accepted stamp.
#[derive(Drop)]
pub struct Estimates<L: Ledger> {
    /// The version of the file, 1 or 2.
    pub version: u32,
    pub daemon: Daemon,
    /// The comparisons of round trips.
    pub steps: Steps<L>,
}

impl<L: Ledger> Telling for Estimates<L> {
    ghost stands = { λ it head items. (it.version ≡ head.version) × StandsFor it.daemon head.freq items };

    ghost says = { estimate_says };

    // The stamp was accepted before, so the daemon does not refuse it.
    fn tell<K: Sink>(
        &mut self,
        sink: &mut K,
        line: &mut LineText,
        index: u64,
        stamp: &Stamp,
    ) -> Result<(), Failed> {
        match self.daemon.feed(*stamp, &mut self.steps) {
            Fed::Estimate(full) => estimate_line(sink, line, index, &full, self.version),
            Fed::Refused(_) => unreachable!(),
        }
    }
    // So was each of these.
    fn set(&mut self, count: u64) {
        let _ = self.daemon.set(count);
    }

    fn leap(&mut self, count: u64, leap: i8) {
        let _ = self.daemon.leap(count, leap);
    }
}
