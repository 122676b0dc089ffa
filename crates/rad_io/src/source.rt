// Where bytes come from.
ghost use Rattle.std.specs.Prelude.{ℕ, ◌<◌, List, length, Option, Result};
ghost use Rattle.std.specs.Io.{ReadsAtMost};
ghost use Rattle.std.specs.Io.KnownBytes.{ReadConsumes};
ghost use Rattle.rad_io.specs.Calls.{EachRead};
ghost use Rattle.rad_io.specs.Causes.{HasCause};
ghost use Rattle.rad_io.specs.declared.Failed.{Failed};

use crate::Failed;

/// Where bytes come from.
pub trait Source {
    /// The bytes that are left, where the source tells them.
    ghost left: { Self → Option (List ℕ) };

    /// How many pulls have failed. The count stops at its last value, 2^64-1.
    ghost faults: { Self → ℕ };

    /// What one pull does: from this source and room, this answer, room and source.
    ghost pull_gives: { Self → List ℕ → Result ℕ Failed → List ℕ → Self → Type 0 };

    /// Takes the next bytes into the front of the room, and answers how many. `Ok(0)` is the end
    /// of the input, and comes only where nothing is left. `Failed` comes only where the count of
    /// faults rose in this call or stands at its last value; nothing is then taken.
    fn pull(&mut self, room: &mut [u8]) -> Result<usize, Failed>
        requires { 0 < length room.old }
        ensures once { pull_gives self.old room.old result room.new self.new };

    /// The count of bytes fits in the room.
    ghost within: { EachRead pull_gives (λ old new r room. ReadsAtMost r room) };

    /// The bytes come from the front of what is left.
    ghost consumes: { EachRead pull_gives (λ old new r room.
        ReadConsumes (left old) (left new) r room) };

    /// A failing pull has its cause.
    ghost cause: { EachRead pull_gives (λ old new r room. HasCause (faults old) (faults new) r) };
}
