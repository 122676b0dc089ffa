// What a call asks for, and what it loads.
use clock_lines::Kind;

/// What a call asks for.
#[derive(Clone, Copy, Debug, PartialEq, Eq)]
pub struct Ask {
    pub kind: Kind,
    /// The interval of a difference, or the past count of a conversion, in counts below 2^62; 0 for any
    /// other kind.
    pub given: u64,
}

/// One load of a word, as a call makes them one after the other. Ticks are counted from 0.
#[derive(Clone, Copy, Debug, PartialEq, Eq)]
pub enum Load {
    /// Of the turn word: `2n` where tick `n` is the newest and no windup stands open, `2n + 1` where
    /// the windup to tick `n + 1` does.
    Turn(u64),
    /// Of a field of a tick, from 0 to 14, in the slot where that tick would stand.
    Field { tick: u64, field: u64, word: u64 },
    /// Of the mark of that slot: `2m + 1` while tick `m` is written there, `2m + 2` while its fields
    /// stand.
    Mark { tick: u64, mark: u64 },
    /// Of the counter.
    Counter(u64),
}
