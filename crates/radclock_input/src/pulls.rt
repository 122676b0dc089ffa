// The one loop that pulls, for all inputs.
ghost use Rattle.std.specs.Prelude.{◌≡◌, ◌+◌, ◌^◌, ◌<◌, ℕ, List, [], ◌++◌, length, None, Some, Option, IfOk, IfErr, OnOk};
ghost use Rattle.radclock_input.specs.Pulled.{front_stop, input_stop, ReadsAll, ReadsUpTo, IsInputStop, HasRead, CanRead, OfAllRead};
ghost use Rattle.radclock_input.specs.declared.stops.Stop.{Stop};

use crate::stops::Stop;
use rad_io::{Failed, Source};
use report_text::Limit;

/// The most bytes of a pull.
const PIECE: usize = 4096;

/// What takes an input in, piece by piece, and keeps what it gives.
pub trait Intake: Drop {
    /// What a whole input gives.
    type Whole;

    /// What a reading goes by from its start to its end, beside the bytes.
    ghost Rules: { Type 0 };

    /// What stops a text that may go on, as far as its bytes tell.
    ghost within: { Rules → List ℕ → Option Stop };

    /// What stops a whole text.
    ghost whole: { Rules → List ℕ → Option Stop };

    /// The value has read this text.
    ghost reads: { Rules → Self → List ℕ → Type 0 };

    /// What a whole text gives.
    ghost gives: { Rules → List ℕ → Self.Whole → Type 0 };

    /// Reads a piece, up to the byte that stops the input, if there is one.
    fn take(&mut self, piece: &[u8]) -> Result<(), Stop>
        requires { CanRead reads self.old (length piece.now) }
        ensures ok { OnOk result (OfAllRead reads self.old (length piece.now) (λ rules text.
            HasRead within reads rules self.new (text ++ piece.now))) }
        ensures err { IfErr result (λ stop. IsInputStop stop
            (OfAllRead reads self.old (length piece.now) (λ rules text.
            within rules (text ++ piece.now) ≡ Some stop))) };

    /// Ends the input.
    fn end(self) -> Result<Self::Whole, Stop>
        requires { CanRead reads self 0 }
        ensures ok { IfOk result (λ given. OfAllRead reads self 0 (λ rules text.
            (whole rules text ≡ None) × gives rules text given)) }
        ensures err { IfErr result (λ stop. IsInputStop stop
            (OfAllRead reads self 0 (λ rules text. whole rules text ≡ Some stop))) };
}

/// Reads the whole input, or up to what stops it, by a value that has read nothing yet. At most so many bytes are
/// read. All bytes of a piece are worked through before the next pull, and after a stop nothing more is pulled.
pub fn read_all<S: Source, I: Intake>(
    source: &mut S,
    mut intake: I,
    most: u64,
) -> Result<I::Whole, Stop>
    requires most { most < 2 ^ 61 }
    requires fresh { (rules : I.Rules) × HasRead I.within I.reads rules intake [] }
    ensures ok { IfOk result (λ given. (rules : I.Rules) → HasRead I.within I.reads rules intake [] →
        ReadsAll S.pull_gives (front_stop most (I.within rules))
        (input_stop most (I.within rules) (I.whole rules)) (I.gives rules) source.old given
        source.new) }
    ensures err { IfErr result (λ stop. (rules : I.Rules) →
        HasRead I.within I.reads rules intake [] → ReadsUpTo S.pull_gives
        (front_stop most (I.within rules)) (input_stop most (I.within rules) (I.whole rules))
        source.old stop source.new) }
{
    let mut room = [0u8; PIECE];
    let mut taken = 0u64;
    loop {
        let count = match source.pull(&mut room) {
            Ok(count) => count,
            Err(Failed) => return Err(Stop::Read { taken }),
        };
        if count == 0 {
            return intake.end();
        }
        let within = count.min((most - taken) as usize);
        match intake.take(&room[..within]) {
            Ok(()) => {}
            Err(stop) => return Err(stop),
        }
        if within < count {
            return Err(Stop::Large(Limit::Bytes));
        }
        taken += count as u64;
    }
}
