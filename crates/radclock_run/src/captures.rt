// The command `capture`.
ghost use Rattle.std.specs.Prelude.{Some};
ghost use Rattle.std.specs.List.{All};
ghost use Rattle.capture_text.specs.Files.{stamp_lines};
ghost use Rattle.capture_text.specs.Inputs.{IsAnswerTimed};
ghost use Rattle.clock_words.specs.declared.commands.Command.TheVariants as command;
ghost use Rattle.radclock_run.specs.Endings.{EndsWith};
ghost use Rattle.radclock_run.specs.Runs.{ByLines, Ran};
ghost use Rattle.tick_desk.specs.declared.desk.Desk.{Desk};

use crate::faults::refuse;
use crate::status::{Status, fault_of, status_of};
use capture_text::{CaptureFile, push_stamps};
use rad_io::{Failed, Sink, Source};
use radclock_input::read_capture;
use std::alloc::Global;

// Pushes the stamp file of a capture, and ends.
fn push_file<K: Sink>(sink: &mut K, file: &CaptureFile) -> Status
    requires { All IsAnswerTimed file.now.answers.items }
    ensures { EndsWith K.written K.faults K.push_gives sink.old
        (stamp_lines file.now.freq file.now.answers.items) Status.Done result sink.new }
{
    match push_stamps(sink, file.freq, &file.answers) {
        Ok(()) => Status::Done,
        Err(Failed) => Status::WriteFault,
    }
}

/// Reads a capture of packets, pushes the stamp file that it becomes, and ends. No line is pushed before the capture
/// is read whole, since a fault at its end refuses all of it.
pub fn convert<S: Source, K: Sink>(alloc: Global, source: &mut S, sink: &mut K) -> Status
    ensures { (desk : Desk) → Ran S.pull_gives (ByLines K.push_gives) (Some command.Capture) source.old
        source.new sink.old sink.new desk desk result }
{
    match read_capture(alloc, source) {
        Ok(file) => push_file(sink, &file),
        Err(stop) => refuse(sink, fault_of(stop), status_of(stop)),
    }
}
