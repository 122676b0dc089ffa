// The lines that a report has many of, each made in a text of its own. Who pushes many lends one text to all
// of them: `lines`, `entries` and `made` have the calls for that.
ghost use Rattle.std.specs.Prelude.{◌≤◌, ◌<◌};
ghost use Rattle.report_text.specs.Text.{stamp_text, base_text, estimate_text, set_text, leap_text, tick_text, fire_text, refused_text, entry_text, made_text};

use crate::line::LineText;
use crate::{entries, lines, made};
use callouts::Fired;
use clock_lines::Entry;
use ff_estimator::Full;
use ff_grain::Bintime;
use ff_hands::Hands;
use rad_io::{Failed, Sink};
use rtt_window::Base;
use stamp_maker::Made;
use stamp_text::{Refused, Stamp};

/// Pushes the line of an accepted stamp, at line `i` of its file, of this version. Its reply came no earlier than
/// its request left.
pub fn stamp_line<K: Sink>(sink: &mut K, i: u64, s: &Stamp, version: u32) -> Result<(), Failed>
    requires { s.now.ta ≤ s.now.tf }
    ensures { K.push_gives sink.old (stamp_text i s.now version) result sink.new }
{
    lines::stamp_line(sink, &mut LineText::new(), i, s, version)
}

/// Pushes the line of the base of the round trips at the stamp of line `i`, whose own is `rtt` counts.
pub fn base_line<K: Sink>(sink: &mut K, i: u64, rtt: u64, b: &Base) -> Result<(), Failed>
    ensures { K.push_gives sink.old (base_text i rtt b.now) result sink.new }
{
    lines::base_line(sink, &mut LineText::new(), i, rtt, b)
}

/// Pushes the line of the estimate at the stamp of line `i` of a file of this version.
pub fn estimate_line<K: Sink>(sink: &mut K, i: u64, f: &Full, version: u32) -> Result<(), Failed>
    ensures { K.push_gives sink.old (estimate_text i f.now version) result sink.new }
{
    lines::estimate_line(sink, &mut LineText::new(), i, f, version)
}

/// Pushes the line of a set of the clock to a time at a count.
pub fn set_line<K: Sink>(sink: &mut K, count: u64, at: Bintime) -> Result<(), Failed>
    ensures { K.push_gives sink.old (set_text count at) result sink.new }
{
    lines::set_line(sink, &mut LineText::new(), count, at)
}

/// Pushes the line of a leap second behind a count, 1 where it is inserted and -1 where it is deleted.
pub fn leap_line<K: Sink>(sink: &mut K, count: u64, leap: i8) -> Result<(), Failed>
    ensures { K.push_gives sink.old (leap_text count leap) result sink.new }
{
    lines::leap_line(sink, &mut LineText::new(), count, leap)
}

/// Pushes the line of tick `n` of a journal.
pub fn tick_line<K: Sink>(sink: &mut K, n: u64, h: &Hands) -> Result<(), Failed>
    ensures { K.push_gives sink.old (tick_text n h.now) result sink.new }
{
    lines::tick_line(sink, &mut LineText::new(), n, h)
}

/// Pushes the line of a timer that fires at the tick with the number `tick`, from 0.
pub fn fire_line<K: Sink>(sink: &mut K, tick: u64, f: &Fired) -> Result<(), Failed>
    ensures { K.push_gives sink.old (fire_text tick f.now) result sink.new }
{
    lines::fire_line(sink, &mut LineText::new(), tick, f)
}

/// Pushes the line of an item that was refused, at this line of its file.
pub fn refused_line<K: Sink>(sink: &mut K, line: u64, why: Refused) -> Result<(), Failed>
    ensures { K.push_gives sink.old (refused_text line why) result sink.new }
{
    lines::refused_line(sink, &mut LineText::new(), line, why)
}

/// Pushes the line of the attempt `k` of a reader, both counted from 0.
pub fn entry_line<K: Sink>(sink: &mut K, reader: u32, k: u32, e: &Entry) -> Result<(), Failed>
    ensures { K.push_gives sink.old (entry_text reader k e.now) result sink.new }
{
    entries::entry_line(sink, &mut LineText::new(), reader, k, e)
}

/// Pushes the line that a stamp file has for a made stamp. Nanoseconds are below 10^9.
pub fn made_line<K: Sink>(sink: &mut K, m: &Made) -> Result<(), Failed>
    requires tb { m.now.tb.1 < 1000000000 }
    requires te { m.now.te.1 < 1000000000 }
    ensures { K.push_gives sink.old (made_text m.now) result sink.new }
{
    made::made_line(sink, &mut LineText::new(), m)
}
