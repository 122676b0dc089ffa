// The file that a capture becomes is read back.
ghost use Rattle.std.specs.Prelude.{◌≡◌, ℕ, ◌≤◌, ◌<◌, ◌^◌, List, length, None};
ghost use Rattle.std.specs.List.{All, concat};
ghost use Rattle.stamp_text.specs.Format.{least_freq, greatest_freq};
ghost use Rattle.stamp_text.specs.Grammar.{fault_of_file, given_of_file};
ghost use Rattle.ntp_capture.specs.Grammar.{given, fault_of_capture};
ghost use Rattle.capture_text.specs.Files.{stamp_lines, lines_of_capture};
ghost use Rattle.capture_text.specs.Inputs.{freq_after, answers_of};
ghost use Rattle.capture_text.specs.ReadBack.{IsByte, IsAnswerInRange, stamp_file_gives};
ghost use Rattle.capture_text.specs.declared.inputs.Answer.{Answer};

/// The law that the file of answers in range is in the grammar of stamp files, and gives its head and the stamp of
/// each exchange, at its line. Comments on unused replies count as lines, and say nothing.
pub fn capture_files_are_read()
    ensures sound { (freq : ℕ) (answers : List Answer) → least_freq ≤ freq → freq ≤ greatest_freq →
        All IsAnswerInRange answers → fault_of_file (concat (stamp_lines freq answers)) ≡ None }
    ensures given { (freq : ℕ) (answers : List Answer) → least_freq ≤ freq → freq ≤ greatest_freq →
        All IsAnswerInRange answers →
        given_of_file (concat (stamp_lines freq answers)) ≡ stamp_file_gives freq answers }
{}

/// The law that what bytes of a capture without a fault become is a stamp file in the grammar, and gives the capture's
/// frequency and the stamp of each exchange, at its line.
pub fn captures_become_stamp_files()
    ensures sound { (text : List ℕ) → All IsByte text → length text < 2 ^ 62 → fault_of_capture text ≡ None →
        fault_of_file (concat (lines_of_capture text)) ≡ None }
    ensures given { (text : List ℕ) → All IsByte text → length text < 2 ^ 62 → fault_of_capture text ≡ None →
        given_of_file (concat (lines_of_capture text)) ≡
        stamp_file_gives (freq_after 0 (given text)) (answers_of (given text)) }
{}
