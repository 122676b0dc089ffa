// What is said of a stamp's round trip.
ghost use Rattle.std.specs.Prelude.{◌≡◌, ◌≤◌};
ghost use Rattle.rtt_window.specs.Bases.{judged};

use ff_grain::trip_scale;

/// What is said of the round trips at a stamp.
#[derive(Clone, Copy, Debug, PartialEq, Eq)]
pub struct Base {
    /// The least round trip that is trusted, in counts.
    pub base: u64,
    /// The index, from 0, of the accepted stamp from which on it holds.
    pub start: u64,
    /// The level shifted at this stamp.
    pub shifted: bool,
}

/// How many stamps show a new level. As many stand behind the start of a level that shifts.
pub const RECENT: u64 = 32;

/// Judges the stamp with the index `i`, where the level began at `start`, by the least round trip
/// since then and the least of the last 32 stamps, in counts.
#[inline(always)]
#[tactic(auto, unfolding(crate::specs::Bases::judged))]
pub fn judged(freq: u64, start: u64, i: u64, least: u64, recent: u64) -> Base
    requires freq { freq ≤ 16000000000 }
    requires start { start ≤ i }
    ensures value { result ≡ judged freq start i least recent }
    ensures later { start ≤ result.start }
    ensures started { result.start ≤ i }
{
    if i - start >= RECENT && recent.saturating_sub(least) > 4 * trip_scale(freq) {
        Base {
            base: recent,
            start: i - (RECENT - 1),
            shifted: true,
        }
    } else {
        Base {
            base: least,
            start,
            shifted: false,
        }
    }
}
