// The adapters over std's readers and writers: the edge of what is proved. A real stream tells
// nothing of its bytes, and where a reader or a writer tells them, so do these.
ghost use Rattle.std.specs.Prelude.{◌≡◌, ◌≤◌, IsErr};
ghost use Rattle.rad_io.specs.Causes.{counted_on};
ghost use Rattle.rad_io.specs.Streams.{Settles, TakesNothing, ReaderGives, WriterGives};

use crate::{Failed, Reader, Sink, Source, Writer};
use std::io;

// One fault more.
fn count_fault(faults: &mut u64) -> Failed
    ensures rose { faults.new ≡ counted_on faults.old }
    ensures later { faults.old ≤ faults.new }
{
    *faults = faults.saturating_add(1);
    Failed
}

// What one read answered: its count is handed on, and its error is a fault. No bytes are the end of
// the input, and no fault.
fn settle_read(answer: io::Result<usize>, faults: &mut u64) -> Result<usize, Failed>
    ensures { Settles IsErr answer faults.old faults.new result }
{
    match answer {
        Ok(count) => Ok(count),
        Err(_) => Err(count_fault(faults)),
    }
}

// What one write of some bytes answered: its count is handed on, and its error is a fault, as is a
// write that takes nothing. One that takes a part is none.
fn settle_write(answer: io::Result<usize>, faults: &mut u64) -> Result<usize, Failed>
    ensures { Settles TakesNothing answer faults.old faults.new result }
{
    match answer {
        Ok(count) if count > 0 => Ok(count),
        _ => Err(count_fault(faults)),
    }
}

/// A source over a reader. Each error of the reader fails the pull and counts as a fault.
#[derive(Drop)]
pub struct StdSource<R: Reader> {
    reader: R,
    faults: u64,
}

impl<R: Reader> StdSource<R> {
    /// A source over this reader, without faults.
    pub fn new(reader: R) -> StdSource<R>
        ensures left { ⟦<StdSource<R> as Source>⟧.left result ≡ R.remaining reader }
        ensures faults { ⟦<StdSource<R> as Source>⟧.faults result ≡ 0 }
    {
        StdSource { reader, faults: 0 }
    }
}

impl<R: Reader> Source for StdSource<R> {
    ghost left = { λ s. R.remaining s.reader };

    ghost faults = { λ s. s.faults };

    ghost pull_gives = { λ old room r room' new.
        ReaderGives R.remaining R.read_gives old.reader room
        old.faults new.faults r room' new.reader };

    ghost within = { λ old new room room' r gives. gives.within };

    ghost consumes = { λ old new room room' r gives. gives.bytes };

    ghost cause = { λ old new room room' r gives. gives.settled.cause };

    #[tactic(auto, using(crate::proofs::Settled::pull_of))]
    fn pull(&mut self, room: &mut [u8]) -> Result<usize, Failed> {
        settle_read(self.reader.read_once(room), &mut self.faults)
    }
}

/// A sink over a writer. An error, or a write that takes nothing, fails the push and counts as a
/// fault.
#[derive(Drop)]
pub struct StdSink<W: Writer> {
    writer: W,
    faults: u64,
}

impl<W: Writer> StdSink<W> {
    /// A sink over this writer, without faults.
    pub fn new(writer: W) -> StdSink<W>
        ensures written { ⟦<StdSink<W> as Sink>⟧.written result ≡ W.contents writer }
        ensures faults { ⟦<StdSink<W> as Sink>⟧.faults result ≡ 0 }
    {
        StdSink { writer, faults: 0 }
    }
}

impl<W: Writer> Sink for StdSink<W> {
    ghost written = { λ s. W.contents s.writer };

    ghost faults = { λ s. s.faults };

    ghost push_gives = { λ old piece r new.
        WriterGives W.contents W.write_gives old.writer piece old.faults new.faults r new.writer };

    ghost appends = { λ old new piece r gives. gives.bytes };

    ghost cause = { λ old new piece r gives. gives.cause };

    fn push(&mut self, piece: &[u8]) -> Result<(), Failed> {
        let mut rest = piece;
        while !rest.is_empty() {
            let count = settle_write(self.writer.write_once(rest), &mut self.faults)?;
            rest = &rest[count..];
        }
        Ok(())
    }
}
