// Where bytes go.
ghost use Rattle.std.specs.Prelude.{ℕ, List, Option, Result};
ghost use Rattle.rad_io.specs.Calls.{EachWrite};
ghost use Rattle.rad_io.specs.Causes.{HasCause};
ghost use Rattle.rad_io.specs.Bytes.{PushAppends};
ghost use Rattle.rad_io.specs.declared.Failed.{Failed};

use crate::Failed;

/// Where bytes go.
pub trait Sink {
    /// The bytes that are written, where the sink tells them.
    ghost written: { Self → Option (List ℕ) };

    /// How many pushes have failed. The count stops at its last value, 2^64-1.
    ghost faults: { Self → ℕ };

    /// What one push does: from this sink and piece, this answer and sink.
    ghost push_gives: { Self → List ℕ → Result (Unit {0}) Failed → Self → Type 0 };

    /// Appends the piece to what is written. `Failed` comes only where the count of faults rose in
    /// this call or stands at its last value; a front of the piece is then appended.
    fn push(&mut self, piece: &[u8]) -> Result<(), Failed>
        ensures once { push_gives self.old piece.now result self.new };

    /// The whole piece is appended, or a front of it.
    ghost appends: { EachWrite push_gives (λ old new piece r.
        PushAppends (written old) (written new) r piece) };

    /// A failing push has its cause.
    ghost cause: { EachWrite push_gives (λ old new piece r. HasCause (faults old) (faults new) r) };
}
