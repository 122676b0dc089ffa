// What the lines of a stamp file say.
use ff_grain::Bintime;

/// One exchange with the time server.
#[derive(Clone, Copy, Debug, PartialEq, Eq)]
pub struct Stamp {
    /// The counter when the request left, in counts below 2^62.
    pub ta: u64,
    /// The server's time when the request came, from 0 to below 2^32 s.
    pub tb: Bintime,
    /// The server's time when the reply left, from 0 to below 2^32 s.
    pub te: Bintime,
    /// The counter when the reply came, in counts below 2^62.
    pub tf: u64,
    /// How far the server is from a reference clock, below 256. In version 1 it is 1.
    pub stratum: u32,
    /// What the server says of a leap second, below 4: 1 that one is put in, 2 that one is left out,
    /// 3 that it is not synchronised. In version 1 it is 0.
    pub leap: u32,
}

/// What a line from 3 on says that is not skipped.
#[derive(Clone, Copy, Debug, PartialEq, Eq)]
pub enum Item {
    Stamp(Stamp),
    /// The clock is set to a time at a count.
    Set { count: u64, at: Bintime },
    /// A leap second comes behind a count: it is put in, where `leap` is 1, or left out, where it is -1.
    Leap { count: u64, leap: i8 },
}

/// What the first two lines say.
#[derive(Clone, Copy, Debug, PartialEq, Eq)]
pub struct Head {
    /// The version of the format, 1 or 2.
    pub version: u32,
    /// The counter's nominal frequency in Hz, from 10^6 to 16*10^9.
    pub freq: u64,
}

/// What a line gives that is not skipped. The first two lines give one head, at the end of the
/// second.
#[derive(Clone, Copy, Debug, PartialEq, Eq)]
pub enum Line {
    Head(Head),
    /// A stamp and the number of its line, from 1.
    Stamp { line: u64, stamp: Stamp },
    /// A set and the number of its line.
    Set { line: u64, count: u64, at: Bintime },
    /// A leap second and the number of its line.
    Leap { line: u64, count: u64, leap: i8 },
}

/// Why a line is refused. A line that is too long is refused as that alone, and otherwise the cause
/// is the first of the others that holds, in this order.
#[derive(Clone, Copy, Debug, PartialEq, Eq)]
pub enum Why {
    /// Line 1 is neither `radclock-stamps 1` nor `radclock-stamps 2`, or there is no line.
    Head,
    /// Line 2 is not `freq ` and a frequency in range, or there is no line 2.
    Freq,
    /// A line does not have as many pieces between spaces as its kind has, or has an empty one.
    Columns,
    /// A piece is not written as a number, as a time with one to nine digits behind a point, or as
    /// a sign.
    Digits,
    /// A counter is 2^62 or more, a time is 2^32 s or more, a stratum is 256 or more, or what is said
    /// of leap seconds is 4 or more.
    Range,
    /// A line has more than 255 bytes without its line feed.
    LongLine,
}

/// The first fault of a file.
#[derive(Clone, Copy, Debug, PartialEq, Eq)]
pub struct LineFault {
    /// The number of the line, from 1.
    pub line: u64,
    pub why: Why,
}
