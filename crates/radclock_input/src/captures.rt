// Captures of packets.
ghost use Rattle.std.specs.Prelude.{◌≡◌, IfOk, IfErr};
ghost use Rattle.capture_text.specs.Inputs.{IsFileOf};
ghost use Rattle.radclock_input.specs.Captured.{stop_of, capture_so_far, stop_of_packets};
ghost use Rattle.radclock_input.specs.Pulled.{ReadsAll, ReadsUpTo};

use crate::files::MOST_BYTES;
use crate::pulls::{Intake, read_all};
use crate::stops::Stop;
use capture_text::{CaptureFile, CaptureStop, end_capture, take_piece};
use ntp_capture::{Capture, Matcher};
use rad_io::Source;
use report_text::Limit;
use std::alloc::Global;

// A stop of a capture among all stops.
fn stop_of(stop: CaptureStop) -> Stop
    ensures { result ≡ stop_of stop }
{
    match stop {
        CaptureStop::Memory => Stop::Memory,
        CaptureStop::ManyExchanges => Stop::Large(Limit::Stamps),
        CaptureStop::Fault(fault) => Stop::Capture(fault),
    }
}

// The reader of a capture, what matches its replies, and what these have become so far.
#[derive(Drop)]
struct CaptureReader {
    capture: Capture,
    matcher: Matcher,
    file: CaptureFile,
}

impl CaptureReader {
    ghost use Rattle.std.specs.Prelude.{[]};
    ghost use Rattle.capture_text.specs.Readings.{Reads};

    // A reader that has read nothing.
    fn new(alloc: Global) -> CaptureReader
        ensures { Reads result.capture result.matcher result.file [] }
    {
        CaptureReader {
            capture: Capture::new(),
            matcher: Matcher::new(),
            file: CaptureFile::new(alloc),
        }
    }
}

impl Intake for CaptureReader {
    ghost use Rattle.capture_text.specs.Inputs.{IsFileOf};
    ghost use Rattle.capture_text.specs.Readings.{Reads};
    ghost use Rattle.radclock_input.specs.Captured.{capture_within, capture_whole};

    type Whole = CaptureFile;

    ghost Rules = { Unit {0} };

    ghost within = { λ rules. capture_within };

    ghost whole = { λ rules. capture_whole };

    ghost reads = { λ rules r text. Reads r.capture r.matcher r.file text };

    ghost gives = { λ rules text file. IsFileOf file text };

    fn take(&mut self, piece: &[u8]) -> Result<(), Stop> {
        match take_piece(&mut self.capture, &mut self.matcher, &mut self.file, piece) {
            Ok(()) => Ok(()),
            Err(stop) => Err(stop_of(stop)),
        }
    }

    fn end(self) -> Result<CaptureFile, Stop> {
        let CaptureReader {
            capture,
            matcher,
            file,
        } = self;
        match end_capture(capture, matcher, file) {
            Ok(file) => Ok(file),
            Err(stop) => Err(stop_of(stop)),
        }
    }
}

/// Reads a whole capture of NTP packets.
pub fn read_capture<S: Source>(alloc: Global, source: &mut S) -> Result<CaptureFile, Stop>
    ensures ok { IfOk result (λ file. ReadsAll S.pull_gives capture_so_far stop_of_packets
        (λ text file. IsFileOf file text) source.old file source.new) }
    ensures err { IfErr result (λ stop. ReadsUpTo S.pull_gives capture_so_far stop_of_packets
        source.old stop source.new) }
{
    read_all(source, CaptureReader::new(alloc), MOST_BYTES)
}
