// A reader of captures that takes one byte at a time, or those up to the end of a record.
ghost use Rattle.std.specs.Prelude.{◌≡◌, IfOk, IfErr, IfSome, OnOk, ℕ, ◌+◌, ◌^◌, ◌<◌, ◌≤◌, List, [], ◌∷◌, ◌++◌, length, take, Some, Err};

mod steps;

use crate::pieces::{CapFault, CapWhy, Piece};
use crate::units::KEPT;
use arrayvec::ArrayVec;
use std::marker::Model;

/// A reader at some place in a capture. It keeps where the head or the record begins that has not
/// ended, how many of its bytes were read, the first 59 of them, and the fault that it found.
#[derive(Drop)]
pub struct Capture {
    place: u64,
    is_head: bool,
    seen: usize,
    front: ArrayVec<u8, KEPT>,
    fault: Option<CapFault>,
}

impl Model for Capture {
    ghost use Rattle.std.specs.Prelude.{◌≡◌, length, min};
    ghost use Rattle.ntp_capture.specs.Kept.{Kept};

    ghost Value = { Kept };

    ghost view = { λ c. record { place = c.place; is_head = c.is_head; seen = c.seen; front = c.front.items; fault = c.fault } };

    ghost invariant = { λ c. length c.front.items ≡ min c.seen 59 };
}

impl Default for Capture {
    fn default() -> Capture {
        Capture::new()
    }
}

impl Capture {
    ghost use Rattle.ntp_capture.specs.Kept.{StandsFor, AnswersBytes, AreSilent, AnswersEnd, IsFaultOfAll, IsPieceInRange};

    /// A reader at the start of a capture.
    pub fn new() -> Capture
        ensures { StandsFor result [] }
    {
        Capture {
            place: 0,
            is_head: true,
            seen: 0,
            front: ArrayVec::new(),
            fault: None,
        }
    }

    /// Takes the next byte, and answers what it ends: the head or a record. A fault is answered at the
    /// last byte of its field, and again at each later byte. It is then the first fault of each
    /// capture that begins with the bytes so far.
    pub fn byte(&mut self, b: u8) -> Result<Option<Piece>, CapFault>
        ensures answer { (text : List ℕ) → length text < 2 ^ 62 → StandsFor self.old text →
            AnswersBytes text (b ∷ []) result }
        ensures after { (text : List ℕ) → length text < 2 ^ 62 → StandsFor self.old text →
            StandsFor self.new (text ++ b ∷ []) }
        ensures refused { IfErr result (λ fault. (text : List ℕ) →
            length text < 2 ^ 62 → StandsFor self.old text → IsFaultOfAll (text ++ b ∷ []) fault) }
        ensures ranges { IfOk result (λ piece. IfSome piece IsPieceInRange) }
        ensures kept { IfErr result (λ fault. self.new.fault ≡ Some fault) }
        ensures again { (fault : CapFault) → self.old.fault ≡ Some fault →
            (result ≡ Err fault) × (self.new ≡ self.old) }
    {
        self.take(&[b]).1
    }

    /// Takes the next bytes, at most up to and with the first that ends the head or a record or at
    /// which there is a fault, and answers how many it took and what they give. It is as if each had
    /// been given to `byte` in turn, and `byte` had answered nothing to each but the last. A fault that
    /// was found before is answered again, and then no byte is taken.
    pub fn bytes(&mut self, more: &[u8]) -> (usize, Result<Option<Piece>, CapFault>)
        ensures within { result.0 ≤ length more.now }
        ensures goes_on { OnOk result.1 (0 < length more.now → 0 < result.0) }
        ensures answer { (text : List ℕ) → length text + length more.now < 2 ^ 62 →
            StandsFor self.old text → AnswersBytes text (take result.0 more.now) result.1 }
        ensures in_turn { (text : List ℕ) → length text + length more.now < 2 ^ 62 →
            StandsFor self.old text → (n : ℕ) → n < result.0 → AreSilent text (take n more.now) }
        ensures after { (text : List ℕ) → length text + length more.now < 2 ^ 62 →
            StandsFor self.old text → StandsFor self.new (text ++ take result.0 more.now) }
        ensures refused { IfErr result.1 (λ fault. (text : List ℕ) →
            length text + length more.now < 2 ^ 62 → StandsFor self.old text →
            IsFaultOfAll (text ++ take result.0 more.now) fault) }
        ensures ranges { IfOk result.1 (λ piece. IfSome piece IsPieceInRange) }
        ensures kept { IfErr result.1 (λ fault. self.new.fault ≡ Some fault) }
        ensures again { (fault : CapFault) → self.old.fault ≡ Some fault →
            (result.1 ≡ Err fault) × (self.new ≡ self.old) }
    {
        self.take(more)
    }

    /// Ends the capture. The answer is a fault exactly where the capture is not in the format.
    pub fn end(self) -> Result<(), CapFault>
        ensures answer { (text : List ℕ) → length text < 2 ^ 62 → StandsFor self text → AnswersEnd text result }
        ensures again { (fault : CapFault) → self.fault ≡ Some fault → result ≡ Err fault }
    {
        if let Some(fault) = self.fault {
            return Err(fault);
        }
        if self.is_head || self.seen > 0 {
            return Err(CapFault {
                at: self.place,
                why: CapWhy::Cut,
            });
        }
        Ok(())
    }
}
