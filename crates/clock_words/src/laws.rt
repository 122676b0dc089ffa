// Laws of the definitions of a line.
ghost use Rattle.std.specs.Prelude.{◌≡◌, List, true};
ghost use Rattle.clock_words.specs.Rows.{Text, Row};
ghost use Rattle.clock_words.specs.Lines.{IsCommandOf, command_in};
ghost use Rattle.clock_words.specs.Parts.{IsReadByParts, is_clear};

/// The items that words are for a row are those of the parts that they are written as, and words
/// that are not written so are none.
pub fn items_are_written()
    ensures { (row : Row) → is_clear row ≡ true → IsReadByParts row }
{}

/// Words are a command exactly where they are a line of it.
pub fn commands_are_lines()
    ensures { (words : List Text) → IsCommandOf words (command_in words) }
{}
