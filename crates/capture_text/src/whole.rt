// A whole capture that lies in memory.
ghost use Rattle.std.specs.Prelude.{◌≡◌, ◌<◌, ◌^◌, length, IfOk, IfErr, Some};
ghost use Rattle.capture_text.specs.Inputs.{stop_of_capture, IsFileOf};
ghost use Rattle.capture_text.specs.Readings.{IsInputStop};

use crate::inputs::{CaptureFile, CaptureStop};
use crate::keeps::{end_capture, take_piece};
use ntp_capture::{Capture, Matcher};
use std::alloc::Global;

/// Reads a whole capture.
pub fn read_capture(alloc: Global, text: &[u8]) -> Result<CaptureFile, CaptureStop>
    ensures ok { IfOk result (λ file. length text.now < 2 ^ 62 → IsFileOf file text.now) }
    ensures err { IfErr result (λ stop. IsInputStop stop
        (length text.now < 2 ^ 62 → stop_of_capture text.now ≡ Some stop)) }
{
    let mut capture = Capture::new();
    let mut matcher = Matcher::new();
    let mut file = CaptureFile::new(alloc);
    match take_piece(&mut capture, &mut matcher, &mut file, text) {
        Ok(()) => end_capture(capture, matcher, file),
        Err(stop) => Err(stop),
    }
}
