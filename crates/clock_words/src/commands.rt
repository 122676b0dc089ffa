// The commands of the program.

/// A report on a stamp file.
#[derive(Clone, Copy, Debug, PartialEq, Eq)]
pub enum Report {
    /// The accepted stamps with their round trips, and the refused ones.
    Stamps,
    /// The base of the round trips at each accepted stamp, and the refused stamps.
    Rtt,
    /// The daemon's estimate at each accepted stamp, and the refused stamps.
    Estimate,
    /// The journal of ticks that the daemon's estimates make on a kernel clock, with so many plain
    /// steps between two of them, at most 15.
    Ticks {
        ticks: u32,
        /// How many timers are added before the first tick, at most 1,000, if they are asked for.
        timers: Option<u32>,
    },
    /// The daemon's estimates, the refused stamps, the journal of ticks that they make, and what
    /// readers of the clock read while it was made.
    Replay {
        /// How many plain steps stand between two estimates, at most 15.
        ticks: u32,
        /// How many readers read the clock beside its driver, at most 16.
        readers: u32,
        /// How often each reader reads, at most 16,384 times.
        reads: u32,
        /// The readers also convert a count of their own past.
        back: bool,
        /// The counter is raised beside the driver too.
        crank: bool,
        /// The readers also read `Utc`.
        utc: bool,
        /// The daemon runs in a thread of its own. A replay with a crank has no lane.
        lane: bool,
    },
}

/// A command of the program.
#[derive(Clone, Copy, Debug, PartialEq, Eq)]
pub enum Command {
    /// A report on the stamp file that is the input.
    Report(Report),
    /// The stamp file that the capture of NTP packets becomes that is the input.
    Capture,
    /// A file of so many made stamps, from 1 to 16,384, that are drawn from a number below 2^32.
    Make {
        number: u64,
        count: u32,
    },
    /// A replay of so many made stamps, from 1 to 4,096, that are drawn from a number below 2^32, and
    /// a summary of it.
    Run {
        number: u64,
        count: u32,
        /// The summary also says how far the clock was from the truth.
        ideal: bool,
    },
}
