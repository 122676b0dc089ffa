// The lines of the stamp file that a capture becomes. Each call makes one whole line with its line end, in a text
// that is lent to it, and pushes it at once.
ghost use Rattle.std.specs.Prelude.{◌<◌};
ghost use Rattle.capture_text.specs.Text.{version_text, freq_text, exchange_text, unused_text};

use ntp_capture::Exchange;
use rad_io::{Failed, Sink};
use report_text::LineText;

/// Pushes the first line of a stamp file of version 2.
#[tactic(auto, unfolding(crate::specs::Text::version_text))]
pub fn version_line<K: Sink>(sink: &mut K) -> Result<(), Failed>
    ensures { K.push_gives sink.old version_text result sink.new }
{
    sink.push(b"radclock-stamps 2\n")
}

/// Pushes the line of the counter's nominal frequency in Hz.
#[tactic(auto, unfolding(crate::specs::Text::freq_text))]
pub fn freq_line<K: Sink>(sink: &mut K, line: &mut LineText, freq: u64) -> Result<(), Failed>
    ensures { K.push_gives sink.old (freq_text freq) result sink.new }
{
    line.clear();
    line.word(b"\n");
    line.number(freq);
    line.word(b"freq ");
    sink.push(line.bytes())
}

/// Pushes the line that a stamp file of version 2 has for an exchange: the counts and times of request and reply,
/// the stratum, and the leap indicator. Nanoseconds are below 10^9.
#[tactic(auto, unfolding(crate::specs::Text::exchange_row, crate::specs::Text::exchange_text))]
pub fn exchange_line<K: Sink>(sink: &mut K, line: &mut LineText, e: &Exchange) -> Result<(), Failed>
    requires tb { e.now.tb.1 < 1000000000 }
    requires te { e.now.te.1 < 1000000000 }
    ensures { K.push_gives sink.old (exchange_text e.now) result sink.new }
{
    line.clear();
    line.word(b"\n");
    line.column(u64::from(e.leap));
    line.column(u64::from(e.stratum));
    line.column(e.tf);
    line.written(e.te);
    line.word(b" ");
    line.written(e.tb);
    line.word(b" ");
    line.number(e.ta);
    sink.push(line.bytes())
}

/// Pushes the comment on a reply that takes no request, with the index of its record, from 0.
#[tactic(auto, unfolding(crate::specs::Text::unused_text))]
pub fn unused_line<K: Sink>(sink: &mut K, line: &mut LineText, index: u64) -> Result<(), Failed>
    ensures { K.push_gives sink.old (unused_text index) result sink.new }
{
    line.clear();
    line.word(b"\n");
    line.number(index);
    line.word(b"# unused ");
    sink.push(line.bytes())
}
