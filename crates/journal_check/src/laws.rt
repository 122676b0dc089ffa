// Laws on readers.
ghost use Rattle.journal_check.specs.Reports.{Report, IsShaped, AreLines, lines_of, text_of};
ghost use Rattle.journal_check.specs.declared.lines.Line.{Line};
ghost use Rattle.journal_check.specs.Lines.{Says, line_in, line_text, FitsLine};
ghost use Rattle.std.specs.Prelude.{List, Some, ◌≡◌, ◌≤◌, ◌^◌, ◌<◌, decimal, ℕ};
ghost use Rattle.journal_check.specs.Parts.{reading_text, FitsReading, reading_at};
ghost use Rattle.journal_check.specs.Reading.{Reads};
ghost use Rattle.journal_check.specs.Numbers.{number_at, time_at, time_text, FitsTime};

/// The law that a number is read back.
pub fn numbers_are_read()
    ensures { (most : ℕ) → most < 10 ^ 64 → Reads decimal (λ n. n ≤ most) (number_at most) }
{}

/// The law that a time is read back.
pub fn times_are_read()
    ensures { Reads time_text FitsTime time_at }
{}

/// The law that a reading is read back.
pub fn readings_are_read()
    ensures { Reads reading_text FitsReading reading_at }
{}

/// The law that a line that is read says what was read of it.
pub fn lines_say()
    ensures { (bytes : List ℕ) (l : Line) → line_in bytes ≡ Some l → Says bytes l }
{}

/// The law that the text of a line is read as this line. So a text is that of at most one line.
pub fn lines_are_read()
    ensures { (l : Line) → FitsLine l → line_in (line_text l) ≡ Some l }
{}

/// The law that the text of a report determines it.
pub fn reports_are_determined()
    ensures { (r s : Report) → IsShaped r → IsShaped s → AreLines (lines_of r) → AreLines (lines_of s) → text_of (lines_of r) ≡ text_of (lines_of s) → r ≡ s }
{}
