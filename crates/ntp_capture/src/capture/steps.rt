// What a reader does with the bytes of one field, or of a whole record.
ghost use Rattle.std.specs.Prelude.{◌≡◌, IfOk, IfErr, IfSome, IfNone, OnOk, ℕ, ◌+◌, ◌^◌, ◌<◌, ◌≤◌, List, ◌++◌, length, take, None, Some, Ok, Err};

use crate::capture::Capture;
use crate::pieces::{CapFault, Piece};
use crate::units::{FRONT, field_end, piece_in, refusal_in, size_of};

impl Capture {
    ghost use Rattle.ntp_capture.specs.Kept.{StandsFor, IsTurn, IsPieceInRange};
    ghost use Rattle.ntp_capture.specs.Steps.{with_bytes, answer_of, kept_behind, field_end};
    ghost use Rattle.ntp_capture.specs.Cut.{size_of};

    // Takes bytes up to the end of a field at most, or one whole record.
    pub(super) fn take(&mut self, more: &[u8]) -> (usize, Result<Option<Piece>, CapFault>)
        ensures within { result.0 ≤ length more.now }
        ensures goes_on { OnOk result.1 (0 < length more.now → 0 < result.0) }
        ensures turn { (text : List ℕ) → length text + length more.now < 2 ^ 63 → StandsFor self.old text →
            IsTurn text (take result.0 more.now) result.1 self.new }
        ensures sound { self.old.fault ≡ None → 0 < length more.now → 0 < result.0 }
        ensures ranges { IfOk result.1 (λ piece. IfSome piece IsPieceInRange) }
        ensures kept { IfErr result.1 (λ fault. self.new.fault ≡ Some fault) }
        ensures again { (fault : CapFault) → self.old.fault ≡ Some fault →
            (result.1 ≡ Err fault) × (self.new ≡ self.old) }
    {
        if let Some(fault) = self.fault {
            return (0, Err(fault));
        }
        match self.record_ahead(more) {
            Some((size, piece)) => (size, Ok(Some(piece))),
            None => self.part(more),
        }
    }

    // Takes a record that is there as a whole, where no unit is open. Others are left to `part`.
    fn record_ahead(&mut self, more: &[u8]) -> Option<(usize, Piece)>
        requires sound { self.old.fault ≡ None }
        ensures none { IfNone result (self.new ≡ self.old) }
        ensures within { IfSome result (λ p. p.0 ≤ length more.now) }
        ensures goes_on { IfSome result (λ p. 0 < p.0) }
        ensures turn { IfSome result (λ p. (text : List ℕ) → length text + length more.now < 2 ^ 63 →
            StandsFor self.old text → IsTurn text (take p.0 more.now) (Ok (Some p.1)) self.new) }
        ensures ranges { IfSome result (λ p. IsPieceInRange p.1) }
    {
        if self.is_head || self.seen != 0 || more.len() < FRONT {
            return None;
        }
        let size = size_of(false, more);
        if more.len() < size || refusal_in(false, more).is_some() {
            return None;
        }
        let piece = piece_in(false, more);
        self.place = self.place.saturating_add(size as u64);
        Some((size, piece))
    }

    // Takes the bytes of the field that is next, or as many of them as there are.
    fn part(&mut self, more: &[u8]) -> (usize, Result<Option<Piece>, CapFault>)
        requires sound { self.old.fault ≡ None }
        ensures within { result.0 ≤ length more.now }
        ensures goes_on { 0 < length more.now → 0 < result.0 }
        ensures turn { (text : List ℕ) → length text + length more.now < 2 ^ 63 → StandsFor self.old text →
            IsTurn text (take result.0 more.now) result.1 self.new }
        ensures ranges { IfOk result.1 (λ piece. IfSome piece IsPieceInRange) }
        ensures kept { IfErr result.1 (λ fault. self.new.fault ≡ Some fault) }
    {
        let count = self.wanted().min(more.len());
        self.add(&more[..count]);
        (count, self.judge())
    }

    // How many bytes there are up to the end of the field that is next.
    fn wanted(&self) -> usize
        ensures some { 0 < result }
        ensures field { self.now.seen < size_of self.now.is_head self.now.front →
            self.now.seen + result ≤ field_end self.now.is_head self.now.seen (size_of self.now.is_head self.now.front) }
    {
        let size = size_of(self.is_head, self.front.as_slice());
        let end = field_end(self.is_head, self.seen, size);
        end.saturating_sub(self.seen).max(1)
    }

    // Adds bytes to the unit, of which the first 59 are kept.
    fn add(&mut self, more: &[u8])
        ensures fault { self.new.fault ≡ self.old.fault }
        ensures bytes { self.old.seen + length more.now < 2 ^ 64 → self.new ≡ with_bytes self.old more.now }
    {
        let room = self.front.remaining_capacity().min(more.len());
        let _fits = self.front.try_extend_from_slice(&more[..room]);
        self.seen = self.seen.saturating_add(more.len());
    }

    // What is said behind the bytes of the unit.
    fn judge(&mut self) -> Result<Option<Piece>, CapFault>
        requires { self.old.fault ≡ None }
        ensures answer { self.old.place < 2 ^ 63 → result ≡ answer_of self.old }
        ensures after { self.old.place + self.old.seen < 2 ^ 63 → self.new ≡ kept_behind self.old result }
        ensures ranges { IfOk result (λ piece. IfSome piece IsPieceInRange) }
        ensures kept { IfErr result (λ fault. self.new.fault ≡ Some fault) }
    {
        if let Some((begins, why)) = refusal_in(self.is_head, self.front.as_slice()) {
            let at = self.place.saturating_add(begins as u64);
            let fault = CapFault { at, why };
            self.fault = Some(fault);
            return Err(fault);
        }
        if self.seen < size_of(self.is_head, self.front.as_slice()) {
            return Ok(None);
        }
        let piece = piece_in(self.is_head, self.front.as_slice());
        self.place = self.place.saturating_add(self.seen as u64);
        self.is_head = false;
        self.seen = 0;
        self.front.clear();
        Ok(Some(piece))
    }
}
