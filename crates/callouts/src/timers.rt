// Timers, and what is told of them.
use ff_grain::Bintime;

/// A timer that was added, to cancel it by. It may have fired or been cancelled since.
#[derive(Clone, Copy, Debug, PartialEq, Eq)]
pub struct Timer {
    /// How many were added before it.
    pub id: u64,
    /// Its place in the wheel, below the room. A later timer may have it.
    pub place: u32,
}

/// A timer that fired.
#[derive(Clone, Copy, Debug, PartialEq, Eq)]
pub struct Fired {
    pub id: u64,
    /// The uptime that it was due at.
    pub due: Bintime,
}

/// As many timers live as the wheel has room for.
#[derive(Clone, Copy, Debug, PartialEq, Eq)]
pub struct WheelFull {
    /// How many live.
    pub live: u32,
}

/// A live timer: its id, and the grains of its due time, below 2^110.
#[derive(Clone, Copy, Debug, PartialEq, Eq)]
pub struct Entry {
    pub id: u64,
    pub due: u128,
}
