// Why an input is not read to its end.
use ntp_capture::CapFault;
use report_text::Limit;
use stamp_text::LineFault;

/// Why an input is not read to its end, or not taken.
#[derive(Clone, Copy, Debug, PartialEq, Eq)]
pub enum Stop {
    /// Memory was wanting.
    Memory,
    /// A pull failed after so many bytes were taken.
    Read { taken: u64 },
    /// The input is not in the grammar of stamp files: its first fault.
    Fault(LineFault),
    /// The input passes a limit.
    Large(Limit),
    /// The input is no capture: its first fault.
    Capture(CapFault),
}
