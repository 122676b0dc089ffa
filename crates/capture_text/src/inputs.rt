// What a capture gives to a stamp file.
ghost use Rattle.std.specs.Prelude.{[], List};

use ntp_capture::{CapFault, Exchange};
use std::alloc::Global;

/// The most exchanges of a capture: as many as a stamp file may have stamps.
pub const MOST_EXCHANGES: usize = 65_536;

/// What a reply becomes.
#[derive(Clone, Copy, Debug, PartialEq, Eq)]
pub enum Answer {
    /// A comment, since the reply takes no request. Its record has this index among all records, from 0.
    Unused { record: u64 },
    /// A stamp: the exchange with the request that the reply takes.
    Exchange(Exchange),
}

/// What the bytes of a capture have given so far.
#[derive(Drop)]
pub struct CaptureFile {
    /// The counter's nominal frequency in Hz; 0 before the head.
    pub freq: u64,
    /// The replies in the order of their records.
    pub answers: Vec<Answer>,
    /// How many records there were.
    pub records: u64,
    /// How many replies gave a stamp.
    pub exchanges: usize,
}

impl CaptureFile {
    ghost use Rattle.ntp_capture.specs.Kept.{Kept};
    ghost use Rattle.ntp_capture.specs.Kept.{StandsFor as ReaderStandsFor};
    ghost use Rattle.ntp_capture.specs.Matches.{StandsFor as MatcherStandsFor};
    ghost use Rattle.ntp_capture.specs.declared.matches.Request.{Request};
    ghost use Rattle.capture_text.specs.Readings.{Reads};

    /// Nothing yet. A reader and a matcher that were given nothing have read no bytes with it.
    pub fn new(alloc: Global) -> CaptureFile
        ensures { (k : Kept) (requests : List Request) → ReaderStandsFor k [] →
            MatcherStandsFor requests [] → Reads k requests result [] }
    {
        CaptureFile {
            freq: 0,
            answers: Vec::new(alloc),
            records: 0,
            exchanges: 0,
        }
    }
}

/// Why a capture is not read to its end, or not taken.
#[derive(Clone, Copy, Debug, PartialEq, Eq)]
pub enum CaptureStop {
    /// Memory was wanting.
    Memory,
    /// There are more than 65,536 exchanges.
    ManyExchanges,
    /// The bytes are no capture: their first fault.
    Fault(CapFault),
}
