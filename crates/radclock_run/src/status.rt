// How a run ends.
ghost use Rattle.std.specs.Prelude.{◌≡◌};
ghost use Rattle.radclock_run.specs.Statuses.{status_of, fault_of};

use ntp_capture::CapFault;
use radclock_input::Stop;
use report_text::{FaultText, Limit};
use stamp_text::LineFault;

/// How a run ended.
#[derive(Clone, Copy, Debug, PartialEq, Eq)]
pub enum Status {
    /// The whole report was written.
    Done,
    /// The input is not in the grammar: the line and the cause of its first fault.
    BadInput(LineFault),
    /// The words are no line of the command.
    Usage,
    /// A pull failed.
    ReadFault,
    /// A push failed.
    WriteFault,
    /// Memory was wanting.
    NoMemory,
    /// The input passes a limit.
    TooLarge(Limit),
    /// The input is no capture: the place and the cause of its first fault.
    BadCapture(CapFault),
}

impl Status {
    ghost use Rattle.std.specs.Prelude.{◌≡◌};
    ghost use Rattle.radclock_run.specs.Statuses.{code_of};

    /// The exit status of the program.
    pub fn code(&self) -> u8
        ensures { result ≡ code_of self.now }
    {
        match self {
            Status::Done => 0,
            Status::BadInput(_) => 1,
            Status::Usage => 2,
            Status::ReadFault => 3,
            Status::WriteFault => 4,
            Status::NoMemory => 5,
            Status::TooLarge(_) => 6,
            Status::BadCapture(_) => 7,
        }
    }
}

/// The status of a run that was stopped while it read.
pub fn status_of(stop: Stop) -> Status
    ensures { result ≡ status_of stop }
{
    match stop {
        Stop::Memory => Status::NoMemory,
        Stop::Read { .. } => Status::ReadFault,
        Stop::Fault(fault) => Status::BadInput(fault),
        Stop::Large(limit) => Status::TooLarge(limit),
        Stop::Capture(fault) => Status::BadCapture(fault),
    }
}

/// The fault that such a run tells.
pub fn fault_of(stop: Stop) -> FaultText
    ensures { result ≡ fault_of stop }
{
    match stop {
        Stop::Memory => FaultText::Memory,
        Stop::Read { taken } => FaultText::Read { taken },
        Stop::Fault(fault) => FaultText::Input(fault),
        Stop::Large(limit) => FaultText::Large(limit),
        Stop::Capture(fault) => FaultText::Capture(fault),
    }
}
