// The command `stamps`.
ghost use Rattle.std.specs.Prelude.{◌≡◌};
ghost use Rattle.radclock_run.specs.Tellings.{stamps_says};

use crate::reports::Telling;
use rad_io::{Failed, Sink};
use report_text::LineText;
use report_text::lines::stamp_line;
use stamp_text::Stamp;

/// Tells each accepted stamp as it is, with its round trip.
#[derive(Clone, Copy, Debug, PartialEq, Eq)]
pub struct Stamps {
    /// The version of the file, 1 or 2.
    pub version: u32,
}

impl Telling for Stamps {
    ghost stands = { λ it head items. it.version ≡ head.version };

    ghost says = { stamps_says };

    fn tell<K: Sink>(
        &mut self,
        sink: &mut K,
        line: &mut LineText,
        index: u64,
        stamp: &Stamp,
    ) -> Result<(), Failed> {
        stamp_line(sink, line, index, stamp, self.version)
    }

    fn set(&mut self, _count: u64) {}

    fn leap(&mut self, _count: u64, _leap: i8) {}
}
