// The reports on a file that tell of each item.
ghost use Rattle.std.specs.Prelude.{◌≡◌, ◌+◌, ◌≤◌, ◌<◌, ◌^◌, ℕ, ℤ, List, [], ◌∷◌, ◌++◌, length, All, IfOk, OnOk, MatchResult, Ok, Err, if◌then◌else◌};
ghost use Rattle.rad_io.specs.Pushes.{Writes};
ghost use Rattle.ff_grain.specs.declared.bintime.Bintime.{Bintime};
ghost use Rattle.stamp_text.specs.Accepted.{IsInRange, IsItemInRange, IsLeapInRange, accepted_with};
ghost use Rattle.stamp_text.specs.Format.{least_freq, greatest_freq};
ghost use Rattle.stamp_text.specs.Past.{accept_item, stamps_of, test_of};
ghost use Rattle.stamp_text.specs.declared.lines.Head.{Head};
ghost use Rattle.stamp_text.specs.declared.lines.Item.{Item};
ghost use Rattle.stamp_text.specs.declared.lines.Item.TheVariants as item;
ghost use Rattle.stamp_text.specs.declared.lines.Stamp.{Stamp};
ghost use Rattle.radclock_input.specs.Inputs.{IsRanged};
ghost use Rattle.radclock_run.specs.Plays.{entries_in, entries_of};
ghost use Rattle.radclock_run.specs.Reports.{outcomes, is_stamp};
ghost use Rattle.radclock_run.specs.Tellings.{report, replay_told, told_item, told_of, told_text, IsNext};
ghost use Rattle.radclock_run.specs.Tallies.{StandsAt, Counts, CountsAll};

use crate::listings::{push_journal, push_logs};
use ff_hands::Hands;
use rad_io::{Failed, Sink};
use radclock_input::{ItemLine, StampFile, accept_item};
use replay_run::ReadLog;
use report_text::lines::{leap_line, refused_line, set_line};
use report_text::{EndCounts, LineText, ReportHead, end_line, head_line};
use stamp_text::{Head, Item, Past, Stamp};

/// What a command tells of each accepted stamp.
pub trait Telling {
    /// The value stands for these accepted items of a file with this head.
    ghost stands: { Self → Head → List Item → Type 0 };

    /// The line of a stamp that is accepted behind these, under this head.
    ghost says: { Head → List Item → Stamp → List ℕ };

    /// Pushes the line of the accepted stamp with this index, from 0, which it makes in `line`. It takes no memory.
    fn tell<K: Sink>(
        &mut self,
        sink: &mut K,
        line: &mut LineText,
        index: u64,
        stamp: &Stamp,
    ) -> Result<(), Failed>
        requires timed { IsInRange stamp.now }
        requires forward { stamp.now.ta ≤ stamp.now.tf }
        requires next { IsNext stands self.old index (item.Stamp stamp.now) }
        ensures line { (head : Head) (accepted : List Item) →
            length (stamps_of accepted) ≡ index → stands self.old head accepted →
            K.push_gives sink.old (says head accepted stamp.now) result sink.new }
        ensures stands { OnOk result ((head : Head) (accepted : List Item) →
            length (stamps_of accepted) ≡ index → stands self.old head accepted →
            accept_item head.freq accepted (item.Stamp stamp.now) ≡ Ok tt →
            stands self.new head (accepted ++ item.Stamp stamp.now ∷ [])) };

    /// Takes a set of the clock that is accepted. It pushes nothing, since its line is the same in each report.
    fn set(&mut self, count: u64)
        ensures { (head : Head) (accepted : List Item) (at : Bintime) → stands self.old head accepted →
            accept_item head.freq accepted (item.Set count at) ≡ Ok tt →
            stands self.new head (accepted ++ item.Set count at ∷ []) };

    /// Takes a leap second that is accepted. It pushes nothing either.
    fn leap(&mut self, count: u64, leap: i8)
        requires { IsLeapInRange count leap }
        ensures { (head : Head) (accepted : List Item) → stands self.old head accepted →
            accept_item head.freq accepted (item.Leap count leap) ≡ Ok tt →
            stands self.new head (accepted ++ item.Leap count leap ∷ []) };
}

/// How far a report has come.
#[derive(Drop)]
pub struct Tally {
    /// The accepted items, as far as tests ask for them.
    pub past: Past,
    /// How many stamps there are among them.
    pub accepted: u64,
    /// How many items were refused.
    pub refused: u64,
}

// Pushes the line of an item that is accepted, where so many stamps are accepted before it.
#[inline(always)]
fn push_accepted<K: Sink, T: Telling>(
    sink: &mut K,
    line: &mut LineText,
    telling: &mut T,
    index: u64,
    x: &Item,
) -> Result<(), Failed>
    requires range { IsItemInRange x.now }
    requires next { IsNext T.stands telling.old index x.now }
    ensures line { (head : Head) (items : List Item) → length (stamps_of items) ≡ index →
        T.stands telling.old head items →
        MatchResult result
        (λ _. K.push_gives sink.old (told_item (T.says head) items x.now) (Ok tt) sink.new)
        (λ e. K.push_gives sink.old (told_item (T.says head) items x.now) (Err e) sink.new) }
    ensures stands { OnOk result ((head : Head) (items : List Item) →
        length (stamps_of items) ≡ index → T.stands telling.old head items →
        accept_item head.freq items x.now ≡ Ok tt → T.stands telling.new head (items ++ x.now ∷ [])) }
{
    match x {
        Item::Stamp(stamp) => telling.tell(sink, line, index, stamp),
        Item::Set { count, at } => {
            telling.set(*count);
            set_line(sink, line, *count, *at)
        }
        Item::Leap { count, leap } => {
            telling.leap(*count, *leap);
            leap_line(sink, line, *count, *leap)
        }
    }
}

// How many stamps an item is.
#[inline(always)]
fn stamps_in(x: &Item) -> u64
    ensures { result ≡ (if is_stamp x.now then 1 else 0) }
{
    match x {
        Item::Stamp(_) => 1,
        Item::Set { .. } | Item::Leap { .. } => 0,
    }
}

// Pushes the line of an item.
#[inline(always)]
fn push_item<K: Sink, T: Telling>(
    sink: &mut K,
    line: &mut LineText,
    telling: &mut T,
    head: &Head,
    tally: &mut Tally,
    x: &ItemLine,
) -> Result<(), Failed>
    requires low { least_freq ≤ head.now.freq }
    requires high { head.now.freq ≤ greatest_freq }
    requires range { IsItemInRange x.now.item }
    requires few { tally.old.accepted + tally.old.refused < 2 ^ 63 }
    requires at { (items : List Item) × StandsAt T.stands telling.old head.now tally.old items }
    ensures line { (items : List Item) → StandsAt T.stands telling.old head.now tally.old items →
        MatchResult result (λ _. K.push_gives sink.old (told_of (T.says head.now) items x.now.line
        x.now.item (accept_item head.now.freq items x.now.item)) (Ok tt) sink.new)
        (λ e. K.push_gives sink.old (told_of (T.says head.now) items x.now.line x.now.item
        (accept_item head.now.freq items x.now.item)) (Err e) sink.new) }
    ensures next { OnOk result ((items : List Item) →
        StandsAt T.stands telling.old head.now tally.old items →
        StandsAt T.stands telling.new head.now tally.new
        (accepted_with items x.now.item (accept_item head.now.freq items x.now.item))) }
    ensures counts { OnOk result (Counts tally.old tally.new x.now.item
        (test_of head.now.freq tally.old.past x.now.item)) }
{
    match accept_item(&mut tally.past, &x.item, head.freq) {
        Ok(()) => {
            push_accepted(sink, line, telling, tally.accepted, &x.item)?;
            tally.accepted += stamps_in(&x.item);
        }
        Err(why) => {
            refused_line(sink, line, x.line, why)?;
            tally.refused += 1;
        }
    }
    Ok(())
}

/// Pushes a report as far as the lines of the items, and counts them. It takes no memory.
pub fn push_told<K: Sink, T: Telling>(
    sink: &mut K,
    telling: &mut T,
    head: &ReportHead,
    file: &StampFile,
) -> Result<Tally, Failed>
    requires ranged { IsRanged file.now.head.freq file.now.items.items }
    requires fresh { T.stands telling.old file.now.head [] }
    ensures lines { Writes K.written K.faults K.push_gives sink.old
        (told_text head.now (T.says file.now.head)
        (outcomes file.now.head.freq [] file.now.items.items)) result sink.new }
    ensures counts { IfOk result (λ t. CountsAll t
        (outcomes file.now.head.freq [] file.now.items.items)) }
{
    head_line(sink, head)?;
    let mut tally = Tally {
        past: Past::new(),
        accepted: 0,
        refused: 0,
    };
    let mut line = LineText::new();
    for x in &file.items {
        push_item(sink, &mut line, telling, &file.head, &mut tally, x)?;
    }
    Ok(tally)
}

/// Pushes the report on a file: its head, a line for each item, and its end. It takes no memory.
pub fn push_report<K: Sink, T: Telling>(
    sink: &mut K,
    telling: &mut T,
    head: &ReportHead,
    file: &StampFile,
) -> Result<(), Failed>
    requires ranged { IsRanged file.now.head.freq file.now.items.items }
    requires fresh { T.stands telling.old file.now.head [] }
    ensures { Writes K.written K.faults K.push_gives sink.old
        (report head.now (T.says file.now.head) (outcomes file.now.head.freq [] file.now.items.items))
        result sink.new }
{
    let tally = push_told(sink, telling, head, file)?;
    let counts = EndCounts {
        accepted: tally.accepted,
        refused: tally.refused,
        ticks: None,
        entries: None,
        fired: None,
    };
    end_line(sink, &counts)
}

/// Pushes the report on a replay: the lines of the items, a line for each tick, the logs of the
/// readers, which have so many entries, and its end. It takes no memory.
pub fn push_replay<K: Sink, T: Telling>(
    sink: &mut K,
    telling: &mut T,
    head: &ReportHead,
    file: &StampFile,
    ticks: &[Hands],
    logs: &[ReadLog],
    entries: u64,
) -> Result<(), Failed>
    requires ranged { IsRanged file.now.head.freq file.now.items.items }
    requires fresh { T.stands telling.old file.now.head [] }
    requires few { length logs.now < 2 ^ 32 }
    requires short { All (λ l. length l.entries.items < 2 ^ 32) logs.now }
    requires entries { entries ≡ entries_in (entries_of logs.now) }
    ensures { Writes K.written K.faults K.push_gives sink.old
        (replay_told head.now (T.says file.now.head)
        (outcomes file.now.head.freq [] file.now.items.items) ticks.now (entries_of logs.now))
        result sink.new }
{
    let tally = push_told(sink, telling, head, file)?;
    push_journal(sink, ticks)?;
    push_logs(sink, logs)?;
    let counts = EndCounts {
        accepted: tally.accepted,
        refused: tally.refused,
        ticks: Some(ticks.len() as u64),
        entries: Some(entries),
        fired: None,
    };
    end_line(sink, &counts)
}
