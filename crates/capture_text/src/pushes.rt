// The stamp file of a capture.
ghost use Rattle.std.specs.Prelude.{map};
ghost use Rattle.std.specs.List.{All};
ghost use Rattle.rad_io.specs.Pushes.{Writes};
ghost use Rattle.capture_text.specs.Inputs.{IsAnswerTimed};
ghost use Rattle.capture_text.specs.Files.{answer_text, stamp_lines};

use crate::inputs::Answer;
use crate::lines::{exchange_line, freq_line, unused_line, version_line};
use rad_io::{Failed, Sink};
use report_text::LineText;

// Pushes the line of a reply.
fn answer_line<K: Sink>(sink: &mut K, line: &mut LineText, answer: &Answer) -> Result<(), Failed>
    requires { IsAnswerTimed answer.now }
    ensures { K.push_gives sink.old (answer_text answer.now) result sink.new }
{
    match answer {
        Answer::Unused { record } => unused_line(sink, line, *record),
        Answer::Exchange(exchange) => exchange_line(sink, line, exchange),
    }
}

// Pushes a line for each reply.
fn push_answers<K: Sink>(
    sink: &mut K,
    line: &mut LineText,
    answers: &[Answer],
) -> Result<(), Failed>
    requires { All IsAnswerTimed answers.now }
    ensures { Writes K.written K.faults K.push_gives sink.old (map answer_text answers.now) result
        sink.new }
{
    for answer in answers {
        answer_line(sink, line, answer)?;
    }
    Ok(())
}

/// Pushes the stamp file of version 2 for a counter of this frequency in Hz and for these replies, each line by one
/// push, up to one that fails. It takes no memory.
pub fn push_stamps<K: Sink>(sink: &mut K, freq: u64, answers: &[Answer]) -> Result<(), Failed>
    // The nanoseconds of each time are less than a second.
    requires { All IsAnswerTimed answers.now }
    ensures { Writes K.written K.faults K.push_gives sink.old (stamp_lines freq answers.now) result
        sink.new }
{
    let mut line = LineText::new();
    version_line(sink)?;
    freq_line(sink, &mut line, freq)?;
    push_answers(sink, &mut line, answers)
}
