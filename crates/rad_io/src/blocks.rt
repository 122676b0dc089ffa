// Output in blocks.
ghost use Rattle.std.specs.Prelude.{◌≡◌, ◌+◌, ◌≤◌, length, None, IfOk, IfErr, OnOk, OnErr};
ghost use Rattle.rad_io.specs.Blocks.{BlockGives, Closes, HandsOn, IsFresh, Short, StopsAt};

use crate::{Failed, Sink};
use ff_grain::NoMemory;
use std::alloc::{AllocError, Global};
use std::marker::Model;

/// The bytes of a block.
pub const BLOCK: usize = 65_536;

/// A sink that gathers what is pushed into blocks of 65,536 bytes, the last of which may be shorter,
/// and hands each block on to the sink behind it by one push. Once such a push failed, each push to
/// it fails, and nothing more is handed on.
#[derive(Drop)]
pub struct BlockSink<K: Sink> {
    sink: K,
    // What is held. It has room for a block, and is no whole one.
    block: Vec<u8>,
    faults: u64,
}

impl<K: Sink> Model for BlockSink<K> {
    ghost use Rattle.std.specs.Prelude.{◌<◌, ◌≤◌, vec_len, vec_capacity};
    ghost use Rattle.rad_io.specs.Blocks.{Gathering};

    ghost Value = { Gathering K };

    ghost view = { λ s. record { sink = s.sink; block = s.block.items; faults = s.faults } };

    ghost invariant = { λ s. (vec_len s.block < 65536) × (65536 ≤ vec_capacity s.block) };
}

impl<K: Sink> BlockSink<K> {
    /// A sink that holds nothing yet, before this one. `NoMemory` where memory for a block is
    /// wanting, with this one as it was.
    pub fn new(alloc: Global, sink: K) -> Result<BlockSink<K>, (NoMemory, K)>
        ensures ok { IfOk result (λ s. IsFresh sink s) }
        ensures err { IfErr result (λ e. e.1 ≡ sink) }
    {
        match Vec::with_capacity(alloc, BLOCK) {
            Ok(block) => Ok(BlockSink {
                sink,
                block,
                faults: 0,
            }),
            Err(AllocError) => Err((NoMemory, sink)),
        }
    }

    // Takes bytes up to a whole block, which is then handed on.
    #[inline(always)]
    fn take(&mut self, front: &[u8]) -> Result<(), Failed>
        requires sound { self.old.faults ≡ 0 }
        requires fits { length self.old.block + length front.now ≤ 65536 }
        ensures ok { OnOk result (HandsOn K.written K.faults (Short K.push_gives) self.old front.now self.new) }
        ensures err { OnErr result (StopsAt K.written K.faults (Short K.push_gives) self.old front.now self.new) }
    {
        self.block.extend_from_slice(front).unwrap();
        if self.block.len() < BLOCK {
            return Ok(());
        }
        let pushed = self.sink.push(&self.block);
        self.block.clear();
        if pushed.is_err() {
            self.faults = 1;
        }
        pushed
    }

    /// Hands on what is held, unless a push failed before. Gives back the sink behind, and whether
    /// that push failed.
    pub fn close(self) -> (Result<(), Failed>, K)
        ensures { Closes K.written K.faults (Short K.push_gives) self result.0 result.1 }
    {
        let BlockSink {
            mut sink,
            block,
            faults,
        } = self;
        if faults > 0 {
            return (Err(Failed), sink);
        }
        if block.is_empty() {
            return (Ok(()), sink);
        }
        let pushed = sink.push(&block);
        (pushed, sink)
    }
}

impl<K: Sink> Sink for BlockSink<K> {
    // The sink behind tells what it has; what is held is not written yet.
    ghost written = { λ s. None };

    ghost faults = { λ s. s.faults };

    ghost push_gives = { BlockGives K.written K.faults (Short K.push_gives) };

    ghost appends = { λ old new piece r gives. gives.untold };

    ghost cause = { λ old new piece r gives. gives.cause };

    #[inline(always)]
    fn push(&mut self, piece: &[u8]) -> Result<(), Failed> {
        if self.faults > 0 {
            self.faults = self.faults.saturating_add(1);
            return Err(Failed);
        }
        let mut rest = piece;
        while !rest.is_empty() {
            let count = rest.len().min(BLOCK - self.block.len());
            self.take(&rest[..count])?;
            rest = &rest[count..];
        }
        Ok(())
    }
}
