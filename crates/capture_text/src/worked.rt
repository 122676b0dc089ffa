// Worked lines, and what the replies of a small capture become.
ghost use Rattle.std.specs.Prelude.{◌≡◌, [], ◌∷◌, codes, None, Some};
ghost use Rattle.ntp_capture.specs.Samples.{exchange as taken};
ghost use Rattle.ntp_capture.specs.declared.pieces.CapWhy.TheVariants as why;
ghost use Rattle.capture_text.specs.Files.{stamp_lines};
ghost use Rattle.capture_text.specs.Inputs.{answers_of, freq_after, stop_by};
ghost use Rattle.capture_text.specs.Samples.{exchange, pieces};
ghost use Rattle.capture_text.specs.Text.{exchange_text, unused_text};
ghost use Rattle.capture_text.specs.declared.inputs.Answer.TheVariants as answer;
ghost use Rattle.capture_text.specs.declared.inputs.CaptureStop.TheVariants as stop;

/// The law of worked lines.
pub fn capture_lines_are_worked()
    ensures exchange { exchange_text exchange ≡ codes "10 20.000030000 21.031000000 40 5 3\n" }
    ensures unused { unused_text 2 ≡ codes "# unused 2\n" }
    ensures file { stamp_lines 2000000 (answer.Unused 7 ∷ answer.Exchange exchange ∷ []) ≡ codes "radclock-stamps 2\n"
        ∷ codes "freq 2000000\n" ∷ codes "# unused 7\n" ∷ codes "10 20.000030000 21.031000000 40 5 3\n" ∷ [] }
{}

/// The law of what a small capture becomes: an unused reply is told with the index of its record, from 0, and no
/// fault behind whole records hides them.
pub fn capture_answers_are_worked()
    ensures freq { freq_after 0 pieces ≡ 2000000 }
    ensures answers { answers_of pieces ≡ answer.Exchange (taken 1 3) ∷ answer.Unused 2 ∷ answer.Exchange (taken 5 6) ∷ [] }
    ensures sound { stop_by pieces None ≡ None }
    ensures fault { stop_by pieces (Some (record { at = 75; why = why.Cut })) ≡ Some (stop.Fault (record { at = 75; why = why.Cut })) }
{}
