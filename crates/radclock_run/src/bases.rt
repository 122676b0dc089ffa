// The command `rtt`.
ghost use Rattle.std.specs.Prelude.{◌≡◌};
ghost use Rattle.stamp_text.specs.Past.{stamps_of};
ghost use Rattle.rtt_window.specs.Windows.{StandsFor};
ghost use Rattle.radclock_run.specs.Tellings.{rtt_says};

use crate::reports::Telling;
use rad_io::{Failed, Sink};
use report_text::LineText;
use report_text::lines::base_line;
use rtt_window::Window;
use stamp_text::Stamp;
use std::sync::ledger::Ledger;
use step_count::Steps;

/// Tells each accepted stamp's round trip, and the base that it has.
#[derive(Drop)]
pub struct Bases<L: Ledger> {
    pub window: Window,
    /// The comparisons of round trips.
    pub steps: Steps<L>,
}

impl<L: Ledger> Telling for Bases<L> {
    ghost stands = { λ it head items. StandsFor it.window head.freq (stamps_of items) };

    ghost says = { rtt_says };

    fn tell<K: Sink>(
        &mut self,
        sink: &mut K,
        line: &mut LineText,
        index: u64,
        stamp: &Stamp,
    ) -> Result<(), Failed> {
        let base = self.window.add(*stamp, &mut self.steps);
        base_line(sink, line, index, stamp.tf - stamp.ta, &base)
    }
    // Of these the bases say nothing.
    fn set(&mut self, _count: u64) {}

    fn leap(&mut self, _count: u64, _leap: i8) {}
}
