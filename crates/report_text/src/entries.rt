// The lines of what readers came to, each made from its end.
ghost use Rattle.std.specs.Prelude.{◌≡◌, ◌≤◌, ◌+◌, [], ◌++◌, length};
ghost use Rattle.report_text.specs.Text.{attempt_part, reading_part, entry_text};

use crate::line::LineText;
use crate::names::kind_name;
use clock_lines::{Entry, Kind, Reading};
use rad_io::{Failed, Sink};

// Adds the reader and the number of an attempt.
#[inline(always)]
#[tactic(auto, unfolding(crate::specs::Text::attempt_part))]
fn add_attempt_part(line: &mut LineText, reader: u32, k: u32)
    requires { length line.old + 82 ≤ 640 }
    ensures text { line.new ≡ attempt_part reader k ++ line.old }
    ensures short { length line.new ≤ length line.old + 42 }
{
    line.word(b" ");
    line.number(u64::from(k));
    line.word(b" ");
    line.number(u64::from(reader));
}

// Adds a reading.
#[inline(always)]
#[tactic(auto, unfolding(crate::specs::Text::reading_part))]
fn add_reading_part(line: &mut LineText, r: &Reading)
    requires { length line.old + 240 ≤ 640 }
    ensures text { line.new ≡ reading_part r.now ++ line.old }
    ensures short { length line.new ≤ length line.old + 200 }
{
    line.wide(r.bound);
    line.word(b" ");
    line.time_column(r.time);
    line.column(r.count);
    line.column(r.tick);
    line.word(kind_name(r.kind));
}

#[inline(always)]
#[tactic(auto, unfolding(crate::specs::Text::entry_text))]
fn add_whole_reading(line: &mut LineText, reader: u32, k: u32, r: &Reading)
    requires { line.old ≡ [] }
    ensures { line.new ≡ entry_text reader k (Entry.Read r.now) }
{
    line.word(b"\n");
    add_reading_part(line, r);
    add_attempt_part(line, reader, k);
    line.word(b"read ");
}

#[tactic(auto, unfolding(crate::specs::Text::entry_text))]
fn add_again(line: &mut LineText, reader: u32, k: u32, kind: Kind, first: u64, last: u64)
    requires { line.old ≡ [] }
    ensures { line.new ≡ entry_text reader k (Entry.Again kind first last) }
{
    line.word(b"\n");
    line.column(last);
    line.column(first);
    line.word(kind_name(kind));
    add_attempt_part(line, reader, k);
    line.word(b"again ");
}

#[tactic(auto, unfolding(crate::specs::Text::entry_text))]
fn add_too_old(line: &mut LineText, reader: u32, k: u32, count: u64, oldest: u64)
    requires { line.old ≡ [] }
    ensures { line.new ≡ entry_text reader k (Entry.TooOld count oldest) }
{
    line.word(b"\n");
    line.column(oldest);
    line.number(count);
    add_attempt_part(line, reader, k);
    line.word(b"old ");
}

#[tactic(auto, unfolding(crate::specs::Text::entry_text))]
fn add_ahead(line: &mut LineText, reader: u32, k: u32, count: u64, at: u64)
    requires { line.old ≡ [] }
    ensures { line.new ≡ entry_text reader k (Entry.Ahead count at) }
{
    line.word(b"\n");
    line.column(at);
    line.number(count);
    add_attempt_part(line, reader, k);
    line.word(b"ahead ");
}

#[inline(always)]
fn add_entry(line: &mut LineText, reader: u32, k: u32, e: &Entry)
    requires { line.old ≡ [] }
    ensures { line.new ≡ entry_text reader k e.now }
{
    match e {
        Entry::Read(r) => add_whole_reading(line, reader, k, r),
        Entry::Again { kind, first, last } => add_again(line, reader, k, *kind, *first, *last),
        Entry::TooOld { count, oldest } => add_too_old(line, reader, k, *count, *oldest),
        Entry::Ahead { count, at } => add_ahead(line, reader, k, *count, *at),
    }
}

/// Pushes the line of the attempt `k` of a reader, both counted from 0. Counts and bounds stand as
/// the reader noted them.
pub fn entry_line<K: Sink>(
    sink: &mut K,
    line: &mut LineText,
    reader: u32,
    k: u32,
    e: &Entry,
) -> Result<(), Failed>
    ensures { K.push_gives sink.old (entry_text reader k e.now) result sink.new }
{
    line.clear();
    add_entry(line, reader, k, e);
    sink.push(line.bytes())
}
