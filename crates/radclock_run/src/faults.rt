// The end of a run that writes no report.
ghost use Rattle.std.specs.Prelude.{[], ◌∷◌};
ghost use Rattle.report_text.specs.Text.{fault_text};
ghost use Rattle.radclock_run.specs.Endings.{EndsWith};

use crate::status::Status;
use rad_io::{Failed, Sink};
use report_text::{FaultText, fault_line};

/// Pushes a fault line, and ends.
pub fn refuse<K: Sink>(sink: &mut K, fault: FaultText, due: Status) -> Status
    ensures { EndsWith K.written K.faults K.push_gives sink.old (fault_text fault ∷ []) due result
        sink.new }
{
    match fault_line(sink, &fault) {
        Ok(()) => due,
        Err(Failed) => Status::WriteFault,
    }
}
