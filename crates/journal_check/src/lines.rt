// The lines of a report on a replay.
ghost use Rattle.std.specs.Prelude.{◌≡◌, Some, IfSome};
ghost use Rattle.journal_check.specs.Reading.{told, choice_at};
ghost use Rattle.journal_check.specs.Lines.{all_of, ended, freq_at, first_tails, second_tails, tail_at, ways_at, head_at, estimate_at, told_estimate_at, set_at, leap_at, refusal_at, tick_at, read_at, again_at, old_at, ahead_at, end_at, made_head, made_estimate, made_told_estimate, made_set, made_leap, made_refusal, made_tick, made_read, made_again, made_old, made_ahead, made_end, entry_in, item_in, line_in, FitsLine};
ghost use Rattle.journal_check.specs.declared.lines.Line.{Line};

use crate::names::{kind, refused};
use crate::numbers::{behind, number, word};
use crate::parts::{full, hands, leap_column, reading, time_column, told_full, word_column};
use clock_lines::Entry;
use ff_estimator::Full;
use ff_grain::Bintime;
use ff_hands::Hands;
use stamp_text::Refused;

/// How a replay goes.
#[derive(Clone, Copy, Debug, PartialEq, Eq)]
pub struct Options {
    /// How many plain ticks stand between two estimates, at most 15.
    pub ticks: u32,
    /// How many readers there are, at most 16.
    pub readers: u32,
    /// How many attempts each reader makes, at most 16384.
    pub reads: u32,
    /// Attempts also convert a count of the past.
    pub back: bool,
    /// A crank raises the counter too.
    pub crank: bool,
    /// Attempts also read `Utc`.
    pub utc: bool,
    /// The daemon ran in a thread of its own.
    pub lane: bool,
    /// The stamp file is of version 2.
    pub second: bool,
}

/// What a line says.
#[derive(Clone, Copy, Debug, PartialEq, Eq)]
pub enum Line {
    /// The first line: the counter's nominal frequency in Hz, and how the replay went.
    Head {
        freq: u64,
        options: Options,
    },
    /// The estimate at an accepted stamp.
    Estimate {
        index: u64,
        full: Full,
    },
    /// The same of version 2, with its leap seconds.
    ToldEstimate {
        index: u64,
        full: Full,
    },
    /// An accepted set of the clock, of version 2.
    Set {
        count: u64,
        at: Bintime,
    },
    /// An accepted leap second, of version 2.
    Leap {
        count: u64,
        leap: i8,
    },
    /// A refused item.
    Refusal {
        line: u64,
        why: Refused,
    },
    /// A tick of the journal.
    Tick {
        number: u64,
        hands: Hands,
    },
    /// An attempt of a reader.
    Entry {
        reader: u64,
        attempt: u64,
        entry: Entry,
    },
    /// The last line, which counts the others.
    End {
        accepted: u64,
        refused: u64,
        ticks: u64,
        entries: u64,
    },
}

/// The flags of a replay: back, crank, utc, lane, and whether the stamp file is of version 2.
type Tail = (bool, bool, bool, bool, bool);

// The flags of a replay of version 1.
fn first_tails(text: &[u8]) -> Option<(Tail, &[u8])>
    ensures { told result ≡ choice_at first_tails text.now }
{
    if let Some(rest) = behind(b"\n", text) {
        return Some(((false, false, false, false, false), rest));
    }
    if let Some(rest) = behind(b" back\n", text) {
        return Some(((true, false, false, false, false), rest));
    }
    if let Some(rest) = behind(b" crank\n", text) {
        return Some(((false, true, false, false, false), rest));
    }
    if let Some(rest) = behind(b" back crank\n", text) {
        return Some(((true, true, false, false, false), rest));
    }
    if let Some(rest) = behind(b" lane\n", text) {
        return Some(((false, false, false, true, false), rest));
    }
    if let Some(rest) = behind(b" back lane\n", text) {
        return Some(((true, false, false, true, false), rest));
    }
    if let Some(rest) = behind(b" utc\n", text) {
        return Some(((false, false, true, false, false), rest));
    }
    if let Some(rest) = behind(b" back utc\n", text) {
        return Some(((true, false, true, false, false), rest));
    }
    if let Some(rest) = behind(b" crank utc\n", text) {
        return Some(((false, true, true, false, false), rest));
    }
    if let Some(rest) = behind(b" back crank utc\n", text) {
        return Some(((true, true, true, false, false), rest));
    }
    if let Some(rest) = behind(b" utc lane\n", text) {
        return Some(((false, false, true, true, false), rest));
    }
    Some((
        (true, false, true, true, false),
        behind(b" back utc lane\n", text)?,
    ))
}

// Those of version 2.
fn second_tails(text: &[u8]) -> Option<(Tail, &[u8])>
    ensures { told result ≡ choice_at second_tails text.now }
{
    if let Some(rest) = behind(b" version 2\n", text) {
        return Some(((false, false, false, false, true), rest));
    }
    if let Some(rest) = behind(b" back version 2\n", text) {
        return Some(((true, false, false, false, true), rest));
    }
    if let Some(rest) = behind(b" crank version 2\n", text) {
        return Some(((false, true, false, false, true), rest));
    }
    if let Some(rest) = behind(b" back crank version 2\n", text) {
        return Some(((true, true, false, false, true), rest));
    }
    if let Some(rest) = behind(b" lane version 2\n", text) {
        return Some(((false, false, false, true, true), rest));
    }
    if let Some(rest) = behind(b" back lane version 2\n", text) {
        return Some(((true, false, false, true, true), rest));
    }
    if let Some(rest) = behind(b" utc version 2\n", text) {
        return Some(((false, false, true, false, true), rest));
    }
    if let Some(rest) = behind(b" back utc version 2\n", text) {
        return Some(((true, false, true, false, true), rest));
    }
    if let Some(rest) = behind(b" crank utc version 2\n", text) {
        return Some(((false, true, true, false, true), rest));
    }
    if let Some(rest) = behind(b" back crank utc version 2\n", text) {
        return Some(((true, true, true, false, true), rest));
    }
    if let Some(rest) = behind(b" utc lane version 2\n", text) {
        return Some(((false, false, true, true, true), rest));
    }
    Some((
        (true, false, true, true, true),
        behind(b" back utc lane version 2\n", text)?,
    ))
}

fn tail(text: &[u8]) -> Option<(Tail, &[u8])>
    ensures { told result ≡ tail_at text.now }
{
    if let Some(found) = first_tails(text) {
        return Some(found);
    }
    second_tails(text)
}

fn freq(text: &[u8]) -> Option<(u64, &[u8])>
    ensures { told result ≡ freq_at text.now }
{
    let (freq, text) = number(text, GREATEST_FREQ)?;
    if LEAST_FREQ <= freq {
        Some((freq, text))
    } else {
        None
    }
}

/// The least nominal frequency, in Hz.
const LEAST_FREQ: u64 = 1_000_000;

/// The greatest nominal frequency, in Hz.
const GREATEST_FREQ: u64 = 16_000_000_000;

// The value of a line, with nothing behind it.
fn whole(line: Line, rest: &[u8]) -> Option<Line>
    ensures { result ≡ ended line rest.now }
{
    match rest {
        [b'\n'] => Some(line),
        _ => None,
    }
}

// The same, where the line feed is no part of what is behind.
fn alone(line: Line, rest: &[u8]) -> Option<Line>
    ensures { result ≡ all_of (λ (x : Line). x) (Some (line, rest.now)) }
{
    match rest {
        [] => Some(line),
        _ => None,
    }
}

fn options_of(
    ticks: u32,
    readers: u32,
    reads: u32,
    back: bool,
    crank: bool,
    utc: bool,
    lane: bool,
    second: bool,
) -> Options
    ensures { result ≡ record { ticks = ticks; readers = readers; reads = reads; back = back; crank = crank; utc = utc; lane = lane; second = second } }
{
    Options {
        ticks,
        readers,
        reads,
        back,
        crank,
        utc,
        lane,
        second,
    }
}

// How many readers there are, how often each reads, and the flags.
fn ways(text: &[u8]) -> Option<((u32, (u32, Tail)), &[u8])>
    ensures { told result ≡ ways_at text.now }
{
    let (readers, text) = number(behind(b" readers ", text)?, 16)?;
    let (reads, text) = number(behind(b" reads ", text)?, 16384)?;
    let (flags, text) = tail(text)?;
    Some(((readers as u32, (reads as u32, flags)), text))
}

#[tactic(auto, unfolding(crate::specs::Lines::head_at))]
fn head(text: &[u8]) -> Option<Line>
    ensures { result ≡ all_of made_head (head_at text.now) }
{
    let (freq, text) = freq(behind(b"report replay freq ", text)?)?;
    let (ticks, text) = number(behind(b" ticks ", text)?, 15)?;
    let ((readers, (reads, (back, crank, utc, lane, second))), rest) = ways(text)?;
    let options = options_of(ticks as u32, readers, reads, back, crank, utc, lane, second);
    alone(Line::Head { freq, options }, rest)
}

#[tactic(auto, unfolding(crate::specs::Lines::estimate_at))]
fn estimate(text: &[u8]) -> Option<Line>
    ensures { result ≡ all_of made_estimate (estimate_at text.now) }
{
    let (index, text) = word(behind(b"estimate ", text)?)?;
    let (full, text) = full(behind(b" ", text)?)?;
    whole(Line::Estimate { index, full }, text)
}

#[tactic(auto, unfolding(crate::specs::Lines::told_estimate_at))]
fn told_estimate(text: &[u8]) -> Option<Line>
    ensures { result ≡ all_of made_told_estimate (told_estimate_at text.now) }
{
    let (index, text) = word(behind(b"estimate ", text)?)?;
    let (full, text) = told_full(behind(b" ", text)?)?;
    whole(Line::ToldEstimate { index, full }, text)
}

#[tactic(auto, unfolding(crate::specs::Lines::set_at))]
fn set(text: &[u8]) -> Option<Line>
    ensures { result ≡ all_of made_set (set_at text.now) }
{
    let (count, text) = word(behind(b"set ", text)?)?;
    let (at, text) = time_column(text)?;
    whole(Line::Set { count, at }, text)
}

#[tactic(auto, using(crate::proofs::SignLaws::passed_on), unfolding(crate::specs::Lines::leap_at))]
fn leap(text: &[u8]) -> Option<Line>
    ensures { result ≡ all_of made_leap (leap_at text.now) }
{
    let (count, text) = word(behind(b"leap ", text)?)?;
    let (leap, text) = leap_column(text)?;
    whole(Line::Leap { count, leap }, text)
}

#[tactic(auto, unfolding(crate::specs::Lines::refusal_at))]
fn refusal(text: &[u8]) -> Option<Line>
    ensures { result ≡ all_of made_refusal (refusal_at text.now) }
{
    let (line, text) = word(behind(b"refused ", text)?)?;
    let (why, text) = refused(behind(b" ", text)?)?;
    whole(Line::Refusal { line, why }, text)
}

#[tactic(auto, unfolding(crate::specs::Lines::tick_at))]
fn tick(text: &[u8]) -> Option<Line>
    ensures { result ≡ all_of made_tick (tick_at text.now) }
{
    let (number, text) = word(behind(b"tick ", text)?)?;
    let (hands, text) = hands(behind(b" ", text)?)?;
    whole(Line::Tick { number, hands }, text)
}

#[tactic(auto, unfolding(crate::specs::Lines::read_at))]
fn read(text: &[u8]) -> Option<Line>
    ensures { result ≡ all_of made_read (read_at text.now) }
{
    let (reader, text) = word(behind(b"read ", text)?)?;
    let (attempt, text) = word_column(text)?;
    let (r, text) = reading(behind(b" ", text)?)?;
    let entry = Entry::Read(r);
    whole(
        Line::Entry {
            reader,
            attempt,
            entry,
        },
        text,
    )
}

#[tactic(auto, unfolding(crate::specs::Lines::again_at))]
fn again(text: &[u8]) -> Option<Line>
    ensures { result ≡ all_of made_again (again_at text.now) }
{
    let (reader, text) = word(behind(b"again ", text)?)?;
    let (attempt, text) = word_column(text)?;
    let (kind, text) = kind(behind(b" ", text)?)?;
    let (first, text) = word_column(text)?;
    let (last, text) = word_column(text)?;
    let entry = Entry::Again { kind, first, last };
    whole(
        Line::Entry {
            reader,
            attempt,
            entry,
        },
        text,
    )
}

#[tactic(auto, unfolding(crate::specs::Lines::old_at))]
fn old(text: &[u8]) -> Option<Line>
    ensures { result ≡ all_of made_old (old_at text.now) }
{
    let (reader, text) = word(behind(b"old ", text)?)?;
    let (attempt, text) = word_column(text)?;
    let (count, text) = word_column(text)?;
    let (oldest, text) = word_column(text)?;
    let entry = Entry::TooOld { count, oldest };
    whole(
        Line::Entry {
            reader,
            attempt,
            entry,
        },
        text,
    )
}

#[tactic(auto, unfolding(crate::specs::Lines::ahead_at))]
fn ahead(text: &[u8]) -> Option<Line>
    ensures { result ≡ all_of made_ahead (ahead_at text.now) }
{
    let (reader, text) = word(behind(b"ahead ", text)?)?;
    let (attempt, text) = word_column(text)?;
    let (count, text) = word_column(text)?;
    let (at, text) = word_column(text)?;
    let entry = Entry::Ahead { count, at };
    whole(
        Line::Entry {
            reader,
            attempt,
            entry,
        },
        text,
    )
}

#[tactic(auto, unfolding(crate::specs::Lines::end_at))]
fn end(text: &[u8]) -> Option<Line>
    ensures { result ≡ all_of made_end (end_at text.now) }
{
    let (accepted, text) = word(behind(b"end accepted ", text)?)?;
    let (refused, text) = word(behind(b" refused ", text)?)?;
    let (ticks, text) = word(behind(b" ticks ", text)?)?;
    let (entries, text) = word(behind(b" entries ", text)?)?;
    whole(
        Line::End {
            accepted,
            refused,
            ticks,
            entries,
        },
        text,
    )
}

// What a line of an attempt says.
#[tactic(auto, unfolding(crate::specs::Lines::entry_in))]
fn entry_of(text: &[u8]) -> Option<Line>
    ensures { result ≡ entry_in text.now }
{
    if let Some(line) = read(text) {
        return Some(line);
    }
    if let Some(line) = again(text) {
        return Some(line);
    }
    if let Some(line) = old(text) {
        return Some(line);
    }
    ahead(text)
}

// What a line of an item says.
#[tactic(auto, unfolding(crate::specs::Lines::item_in))]
fn item_of(text: &[u8]) -> Option<Line>
    ensures { result ≡ item_in text.now }
{
    if let Some(line) = estimate(text) {
        return Some(line);
    }
    if let Some(line) = told_estimate(text) {
        return Some(line);
    }
    if let Some(line) = set(text) {
        return Some(line);
    }
    if let Some(line) = leap(text) {
        return Some(line);
    }
    refusal(text)
}

/// What a line with its line feed says, if it is one of a report on a replay.
#[tactic(auto, using(crate::proofs::LineLaws::line_fits))]
pub fn line_of(text: &[u8]) -> Option<Line>
    ensures line { result ≡ line_in text.now }
    ensures fits { IfSome result FitsLine }
{
    line_said(text)
}

#[tactic(auto, unfolding(crate::specs::Lines::line_in))]
fn line_said(text: &[u8]) -> Option<Line>
    ensures { result ≡ line_in text.now }
{
    if let Some(line) = tick(text) {
        return Some(line);
    }
    if let Some(line) = entry_of(text) {
        return Some(line);
    }
    if let Some(line) = item_of(text) {
        return Some(line);
    }
    if let Some(line) = head(text) {
        return Some(line);
    }
    end(text)
}
