// Stamp files.
ghost use Rattle.std.specs.Prelude.{◌≡◌, ◌⊎◌, ◌+◌, ◌^◌, ◌<◌, ◌≤◌, ℕ, Bool, List, ◌++◌, length, take, IfOk, IfErr, OnOk, None, Some};
ghost use Rattle.radclock_input.specs.Inputs.{stop_within, stop_whole, stop_so_far, stop_of_file, IsFileOf};
ghost use Rattle.radclock_input.specs.Pulled.{IsInputStop, ReadsAll, ReadsUpTo};
ghost use Rattle.radclock_input.specs.Readings.{Reads, IsReading, Keeps, KeepsItem, CanTest, CanTestItem, IsFull, HasNoQuota, HasNoRoom, HasRoomAlone};

use crate::files::{ItemLine, MOST_BYTES, MOST_ITEMS, StampFile};
use crate::pulls::{Intake, read_all};
use crate::quota::Quota;
use crate::stops::Stop;
use rad_io::Source;
use report_text::Limit;
use stamp_text::{Feed, Head, Item, Line, Past};
use std::alloc::Global;

// Keeps an item, up to the limits on items and on accepted stamps and sets. The item that passes the limit
// on all items is not tested.
#[inline(always)]
fn keep_item(file: &mut StampFile, quota: &mut Quota, line: u64, item: Item) -> Result<(), Stop>
    requires tests { CanTestItem file.old.head.freq item }
    ensures ok { OnOk result (KeepsItem file.old file.new quota.old quota.new (record { line = line; item = item })) }
    ensures err { IfErr result (λ stop. IsInputStop stop
        (HasNoRoom stop file.old ⊎ HasRoomAlone stop file.old quota.old item)) }
{
    if file.items.len() >= MOST_ITEMS {
        return Err(Stop::Large(Limit::Stamps));
    }
    quota.admit(file.head.freq, &item)?;
    if file.items.push(ItemLine { line, item }).is_err() {
        return Err(Stop::Memory);
    }
    Ok(())
}

// Keeps what a line gives.
#[inline(always)]
fn keep(file: &mut StampFile, quota: &mut Quota, line: Line) -> Result<(), Stop>
    requires tests { CanTest file.old.head.freq line }
    ensures ok { OnOk result (Keeps file.old file.new quota.old quota.new line) }
    ensures err { IfErr result (λ stop. IsInputStop stop
        (IsFull stop file.old line ⊎ HasNoQuota stop file.old quota.old line)) }
{
    match line {
        Line::Head(head) => {
            file.head = head;
            Ok(())
        }
        Line::Stamp { line, stamp } => keep_item(file, quota, line, Item::Stamp(stamp)),
        Line::Set { line, count, at } => keep_item(file, quota, line, Item::Set { count, at }),
        Line::Leap { line, count, leap } => keep_item(
            file,
            quota,
            line,
            Item::Leap { count, leap },
        ),
    }
}

// Reads bytes up to the end of a line, and keeps the line that they end. It answers how many it
// read.
#[inline(always)]
fn take_line(
    feed: &mut Feed,
    file: &mut StampFile,
    quota: &mut Quota,
    more: &[u8],
) -> Result<usize, Stop>
    requires { IsReading feed.old file.old quota.old (length more.now) }
    ensures within { IfOk result (λ count. count ≤ length more.now) }
    ensures goes_on { IfOk result (λ count. 0 < length more.now → 0 < count) }
    ensures ok { IfOk result (λ count. (limited : Bool) (text : List ℕ) →
        length text + length more.now < 2 ^ 62 → Reads limited feed.old file.old quota.old text →
        Reads limited feed.new file.new quota.new (text ++ take count more.now)) }
    ensures err { IfErr result (λ stop. IsInputStop stop
        ((limited : Bool) (text : List ℕ) → length text + length more.now < 2 ^ 62 →
        Reads limited feed.old file.old quota.old text →
        stop_within limited (text ++ more.now) ≡ Some stop)) }
{
    let (count, answer) = feed.bytes(more);
    match answer {
        Ok(None) => Ok(count),
        Ok(Some(line)) => match keep(file, quota, line) {
            Ok(()) => Ok(count),
            Err(stop) => Err(stop),
        },
        Err(fault) => Err(Stop::Fault(fault)),
    }
}

// Reads a piece, up to the byte that stops the input, if there is one.
fn take_piece(
    feed: &mut Feed,
    file: &mut StampFile,
    quota: &mut Quota,
    piece: &[u8],
) -> Result<(), Stop>
    requires { IsReading feed.old file.old quota.old (length piece.now) }
    ensures ok { OnOk result ((limited : Bool) (text : List ℕ) →
        length text + length piece.now < 2 ^ 62 → Reads limited feed.old file.old quota.old text →
        Reads limited feed.new file.new quota.new (text ++ piece.now)) }
    ensures err { IfErr result (λ stop. IsInputStop stop
        ((limited : Bool) (text : List ℕ) → length text + length piece.now < 2 ^ 62 →
        Reads limited feed.old file.old quota.old text →
        stop_within limited (text ++ piece.now) ≡ Some stop)) }
{
    let mut read = 0;
    while read < piece.len() {
        match take_line(feed, file, quota, &piece[read..]) {
            Ok(count) => read += count,
            Err(stop) => return Err(stop),
        }
    }
    Ok(())
}

// Ends the input, and keeps its last line.
fn end_file(feed: Feed, mut file: StampFile, mut quota: Quota) -> Result<StampFile, Stop>
    requires { IsReading feed file quota 0 }
    ensures ok { IfOk result (λ whole. (limited : Bool) (text : List ℕ) → length text < 2 ^ 62 →
        Reads limited feed file quota text → (stop_whole limited text ≡ None) × IsFileOf limited whole text) }
    ensures err { IfErr result (λ stop. IsInputStop stop
        ((limited : Bool) (text : List ℕ) → length text < 2 ^ 62 →
        Reads limited feed file quota text → stop_whole limited text ≡ Some stop)) }
{
    match feed.end() {
        Ok(None) => Ok(file),
        Ok(Some(line)) => match keep(&mut file, &mut quota, line) {
            Ok(()) => Ok(file),
            Err(stop) => Err(stop),
        },
        Err(fault) => Err(Stop::Fault(fault)),
    }
}

// The reader of a stamp file, and what its lines have given so far.
#[derive(Drop)]
struct StampReader {
    feed: Feed,
    file: StampFile,
    quota: Quota,
}

impl StampReader {
    ghost use Rattle.std.specs.Prelude.{[]};
    ghost use Rattle.radclock_input.specs.Readings.{Reads};

    // A reader that has read nothing, with a limit on accepted stamps and sets or without.
    fn new(alloc: Global, limited: bool) -> StampReader
        ensures { Reads limited result.feed result.file result.quota [] }
    {
        StampReader {
            feed: Feed::new(),
            file: StampFile {
                head: Head {
                    version: 0,
                    freq: 0,
                },
                items: Vec::new(alloc),
            },
            quota: Quota {
                limited,
                past: Past::new(),
                accepted: 0,
            },
        }
    }
}

impl Intake for StampReader {
    ghost use Rattle.std.specs.Prelude.{Bool};
    ghost use Rattle.radclock_input.specs.Inputs.{stop_within, stop_whole, IsFileOf};
    ghost use Rattle.radclock_input.specs.Readings.{Reads};

    type Whole = StampFile;

    // Whether accepted stamps and sets are limited.
    ghost Rules = { Bool };

    ghost within = { stop_within };

    ghost whole = { stop_whole };

    ghost reads = { λ limited r text. Reads limited r.feed r.file r.quota text };

    ghost gives = { λ limited text file. IsFileOf limited file text };

    fn take(&mut self, piece: &[u8]) -> Result<(), Stop> {
        take_piece(&mut self.feed, &mut self.file, &mut self.quota, piece)
    }

    fn end(self) -> Result<StampFile, Stop> {
        let StampReader { feed, file, quota } = self;
        end_file(feed, file, quota)
    }
}

/// Reads a whole stamp file, with a limit on accepted stamps and sets or without.
pub fn read_file<S: Source>(alloc: Global, source: &mut S, limited: bool) -> Result<StampFile, Stop>
    ensures ok { IfOk result (λ file. ReadsAll S.pull_gives (stop_so_far limited)
        (stop_of_file limited) (λ text file. IsFileOf limited file text) source.old file source.new) }
    ensures err { IfErr result (λ stop. ReadsUpTo S.pull_gives (stop_so_far limited)
        (stop_of_file limited) source.old stop source.new) }
{
    read_all(source, StampReader::new(alloc, limited), MOST_BYTES)
}
