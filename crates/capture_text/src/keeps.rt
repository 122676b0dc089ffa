// What the units of a capture give, up to the limit on stamps.
ghost use Rattle.std.specs.Prelude.{◌≡◌, ◌+◌, ◌^◌, ◌<◌, ◌≤◌, ℕ, List, [], ◌∷◌, ◌++◌, length, take, IfOk, IfErr, OnOk, Some, None};
ghost use Rattle.ntp_capture.specs.declared.pieces.Piece.{Piece};
ghost use Rattle.capture_text.specs.Inputs.{answers_of, stop_within, stop_of_capture, IsFileOf};
ghost use Rattle.capture_text.specs.Readings.{Gathers, Reads, IsInputStop, PassesLimit};

use crate::inputs::{Answer, CaptureFile, CaptureStop, MOST_EXCHANGES};
use ntp_capture::{Capture, Got, Matcher, Piece};

// Keeps what a reply becomes.
fn push_answer(file: &mut CaptureFile, answer: Answer) -> Result<(), CaptureStop>
    ensures ok { OnOk result (file.new.answers.items ≡ file.old.answers.items ++ answer ∷ []) }
    ensures freq { OnOk result (file.new.freq ≡ file.old.freq) }
    ensures records { OnOk result (file.new.records ≡ file.old.records) }
    ensures exchanges { OnOk result (file.new.exchanges ≡ file.old.exchanges) }
    ensures err { IfErr result (λ stop. stop ≡ CaptureStop.Memory) }
{
    match file.answers.push(answer) {
        Ok(()) => Ok(()),
        Err(_) => Err(CaptureStop::Memory),
    }
}

// Keeps what a unit gives.
fn keep(file: &mut CaptureFile, matcher: &mut Matcher, piece: &Piece) -> Result<(), CaptureStop>
    ensures ok { OnOk result ((pieces : List Piece) → length pieces < 2 ^ 62 →
        Gathers file.old matcher.old pieces → Gathers file.new matcher.new (pieces ++ piece.now ∷ [])) }
    ensures err { IfErr result (λ stop. IsInputStop stop ((pieces : List Piece) →
        length pieces < 2 ^ 62 → Gathers file.old matcher.old pieces →
        PassesLimit stop (pieces ++ piece.now ∷ []))) }
{
    match piece {
        Piece::Freq(freq) => {
            file.freq = *freq;
            Ok(())
        }
        Piece::Record(record) => {
            let got = matcher.give(record);
            let index = file.records;
            file.records = file.records.saturating_add(1);
            match got {
                Got::Nothing => Ok(()),
                Got::Unused => push_answer(file, Answer::Unused { record: index }),
                Got::Exchange(exchange) => {
                    if file.exchanges >= MOST_EXCHANGES {
                        return Err(CaptureStop::ManyExchanges);
                    }
                    file.exchanges += 1;
                    push_answer(file, Answer::Exchange(exchange))
                }
            }
        }
    }
}

// Reads bytes up to the end of a unit, and keeps what that gives. It answers how many it read.
fn take_unit(
    capture: &mut Capture,
    matcher: &mut Matcher,
    file: &mut CaptureFile,
    more: &[u8],
) -> Result<usize, CaptureStop>
    requires { 0 < length more.now }
    ensures within { IfOk result (λ count. count ≤ length more.now) }
    ensures goes_on { IfOk result (λ count. 0 < count) }
    ensures ok { IfOk result (λ count. (text : List ℕ) → length text + length more.now < 2 ^ 62 →
        Reads capture.old matcher.old file.old text →
        Reads capture.new matcher.new file.new (text ++ take count more.now)) }
    ensures err { IfErr result (λ stop. IsInputStop stop ((text : List ℕ) →
        length text + length more.now < 2 ^ 62 → Reads capture.old matcher.old file.old text →
        stop_within (text ++ more.now) ≡ Some stop)) }
{
    let (count, answer) = capture.bytes(more);
    match answer {
        Ok(None) => Ok(count),
        Ok(Some(piece)) => match keep(file, matcher, &piece) {
            Ok(()) => Ok(count),
            Err(stop) => Err(stop),
        },
        Err(fault) => Err(CaptureStop::Fault(fault)),
    }
}

/// Reads a piece of the input, up to the byte that stops it, if there is one.
pub fn take_piece(
    capture: &mut Capture,
    matcher: &mut Matcher,
    file: &mut CaptureFile,
    piece: &[u8],
) -> Result<(), CaptureStop>
    ensures ok { OnOk result ((text : List ℕ) → length text + length piece.now < 2 ^ 62 →
        Reads capture.old matcher.old file.old text →
        Reads capture.new matcher.new file.new (text ++ piece.now)) }
    ensures err { IfErr result (λ stop. IsInputStop stop ((text : List ℕ) →
        length text + length piece.now < 2 ^ 62 → Reads capture.old matcher.old file.old text →
        stop_within (text ++ piece.now) ≡ Some stop)) }
{
    let mut read = 0;
    while read < piece.len() {
        match take_unit(capture, matcher, file, &piece[read..]) {
            Ok(count) => read += count,
            Err(stop) => return Err(stop),
        }
    }
    Ok(())
}

/// Ends the input.
pub fn end_capture(
    capture: Capture,
    matcher: Matcher,
    file: CaptureFile,
) -> Result<CaptureFile, CaptureStop>
    ensures ok { IfOk result (λ whole. (text : List ℕ) → length text < 2 ^ 62 →
        Reads capture matcher file text → IsFileOf whole text) }
    ensures err { IfErr result (λ stop. IsInputStop stop ((text : List ℕ) → length text < 2 ^ 62 →
        Reads capture matcher file text → stop_of_capture text ≡ Some stop)) }
{
    let _done = matcher;
    match capture.end() {
        Ok(()) => Ok(file),
        Err(first) => Err(CaptureStop::Fault(first)),
    }
}
