// A run whose output goes out in blocks.
ghost use Rattle.std.specs.Prelude.{◌≡◌, IfOk, OnOk, OnErr, map};
ghost use Rattle.clock_words.specs.Lines.{command_in};
ghost use Rattle.tick_desk.specs.Shows.{IsFresh};
ghost use Rattle.radclock_run.specs.Runs.{ByBlocks, Ran};

use crate::run::run;
use crate::status::Status;
use ff_grain::NoMemory;
use rad_io::{BlockSink, Failed, Gate, Sink, Source};
use std::alloc::Global;
use std::thread::Threads;
use tick_desk::Desk;

// How a run ends whose last block was handed on so.
fn ended(status: Status, last: Result<(), Failed>) -> Status
    ensures ok { OnOk last (result ≡ status) }
    ensures err { OnErr last (result ≡ Status.WriteFault) }
{
    match last {
        Ok(()) => status,
        Err(Failed) => Status::WriteFault,
    }
}

/// Does what `run` does, and gives back the sink: what is written goes to it in blocks of at most
/// 65,536 bytes. `NoMemory` where memory for a block is wanting: then nothing was pulled or pushed,
/// and nothing done with the desk.
pub fn run_in_blocks<'w, R: Threads + Sync, S: Source, K: Sink, G: Gate>(
    rt: &R,
    alloc: Global,
    words: &'w [&'w str],
    source: &mut S,
    sink: K,
    desk: &mut Desk,
    gate: &G,
) -> (Result<Status, NoMemory>, K)
    // Nothing was done with the desk.
    requires fresh { IsFresh desk.old.pen desk.old.passes.items }

    // The record of `run`, over another way of writing.
    ensures ran { IfOk result.0 (λ status. Ran S.pull_gives (ByBlocks K.push_gives)
        (command_in (map (λ w. w.now) words.entry.now)) source.old source.new sink result.1
        desk.old desk.new status) }
    ensures unread { OnErr result.0 (source.new ≡ source.old) }
    ensures unwritten { OnErr result.0 (result.1 ≡ sink) }
    ensures still { OnErr result.0 (desk.new ≡ desk.old) }
{
    match BlockSink::new(alloc, sink) {
        Ok(mut blocks) => {
            let status = run(rt, alloc, words, source, &mut blocks, desk, gate);
            let (last, sink) = blocks.close();
            (Ok(ended(status, last)), sink)
        }
        Err((NoMemory, sink)) => (Err(NoMemory), sink),
    }
}
