// Estimates of the time at a count.
use ff_grain::Bintime;

/// What is to be known of a clock's state. Without a mark it runs normally.
#[derive(Clone, Copy, Debug, PartialEq, Eq)]
pub struct Marks {
    /// It is not synchronised: its error has no bound.
    pub unsync: bool,
    /// The daemon has seen too few exchanges yet.
    pub warmup: bool,
}

/// The time at a count, and how fast the counter runs. After FreeBSD's `struct ffclock_estimate`.
#[derive(Clone, Copy, Debug, PartialEq, Eq)]
pub struct Estimate {
    /// The time at `update_ffcount`.
    pub update_time: Bintime,
    /// The count at which the time is estimated, in counts below 2^62.
    pub update_ffcount: u64,
    /// The count at which a leap second is due, or 0.
    pub leapsec_next: u64,
    /// The counter's period, in grains of 2^-64 s per count.
    pub period: u64,
    /// The bound of the error of the time, in ns; the greatest number where it is above all.
    pub errb_abs: u32,
    /// The bound of the error of the period, in ps per s.
    pub errb_rate: u32,
    pub status: Marks,
    /// The leap seconds so far.
    pub leapsec_total: i16,
    /// The leap second that is due: 1, -1, or 0 where none is.
    pub leapsec: i8,
}
