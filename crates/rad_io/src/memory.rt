// A source and a sink in memory, which fail where they are told to.
ghost use Rattle.std.specs.Prelude.{Some, ◌≡◌, ◌≤◌, [], length, take, min, IfOk};
ghost use Rattle.rad_io.specs.Memory.{SupplyGives, StoreGives};

use crate::{Failed, Sink, Source};
use ff_grain::NoMemory;
use std::alloc::Global;
use std::marker::Model;

/// A source over bytes in memory.
#[derive(Drop)]
pub struct MemSource {
    bytes: Vec<u8>,
    taken: usize,
    step: usize,
    failing: Vec<u64>,
    pulls: u64,
    faults: u64,
}

impl Model for MemSource {
    ghost use Rattle.std.specs.Prelude.{◌≤◌, drop, vec_len};
    ghost use Rattle.rad_io.specs.Memory.{Supply};

    ghost Value = { Supply };

    ghost view = { λ s. record {
      left = drop s.taken s.bytes.items;
      step = s.step;
      failing = s.failing.items;
      pulls = s.pulls;
      faults = s.faults;
    } };

    ghost invariant = { λ s. (s.taken ≤ vec_len s.bytes) × (1 ≤ s.step) };
}

impl MemSource {
    /// A source of these bytes, which gives at most `step` of them at a pull. Pulls are numbered
    /// from 0, and those of the numbers in `failing` fail and take nothing.
    pub fn new(bytes: Vec<u8>, step: usize, failing: Vec<u64>) -> MemSource
        requires { 1 ≤ step }
        ensures { result ≡ record {
          left = bytes.items;
          step = step;
          failing = failing.items;
          pulls = 0;
          faults = 0;
        } }
    {
        MemSource {
            bytes,
            taken: 0,
            step,
            failing,
            pulls: 0,
            faults: 0,
        }
    }
}

// Copies the front of what is left into the room, and answers how many bytes.
fn give(left: &[u8], step: usize, room: &mut [u8]) -> usize
    ensures count { result ≡ min step (min (length room.old) (length left.now)) }
    ensures bytes { take result room.new ≡ take result left.now }
    ensures size { length room.new ≡ length room.old }
{
    let count = step.min(room.len().min(left.len()));
    room[..count].copy_from_slice(&left[..count]);
    count
}

impl Source for MemSource {
    ghost left = { λ s. Some s.left };

    ghost faults = { λ s. s.faults };

    ghost pull_gives = { SupplyGives };

    ghost within = { λ old new room room' r gives. gives.within };

    ghost consumes = { λ old new room room' r gives. gives.bytes };

    ghost cause = { λ old new room room' r gives. gives.cause };

    fn pull(&mut self, room: &mut [u8]) -> Result<usize, Failed> {
        let number = self.pulls;
        self.pulls = self.pulls.saturating_add(1);
        if self.failing.contains(&number) {
            self.faults = self.faults.saturating_add(1);
            return Err(Failed);
        }
        let count = give(&self.bytes[self.taken..], self.step, room);
        self.taken += count;
        Ok(count)
    }
}

/// A sink into memory that was taken when it was made.
#[derive(Drop)]
pub struct MemSink {
    bytes: Vec<u8>,
    room: usize,
    failing: Vec<u64>,
    pushes: u64,
    faults: u64,
}

impl Model for MemSink {
    ghost use Rattle.std.specs.Prelude.{◌≤◌, vec_len, vec_capacity};
    ghost use Rattle.rad_io.specs.Memory.{Store};

    ghost Value = { Store };

    ghost view = { λ s. record {
      written = s.bytes.items;
      room = s.room;
      failing = s.failing.items;
      pushes = s.pushes;
      faults = s.faults;
    } };

    ghost invariant = { λ s. (vec_len s.bytes ≤ s.room) × (s.room ≤ vec_capacity s.bytes) };
}

impl MemSink {
    /// An empty sink with room for so many bytes. Pushes are numbered from 0. Those of the numbers
    /// in `failing` fail and append half of their piece, and one that does not fit fails and
    /// appends nothing. `NoMemory` where memory for the room is wanting.
    pub fn new(alloc: Global, room: usize, failing: Vec<u64>) -> Result<MemSink, NoMemory>
        ensures { IfOk result (λ s. s ≡ record {
          written = [];
          room = room;
          failing = failing.items;
          pushes = 0;
          faults = 0;
        }) }
    {
        Ok(MemSink {
            bytes: Vec::with_capacity(alloc, room)?,
            room,
            failing,
            pushes: 0,
            faults: 0,
        })
    }

    /// What is written.
    pub fn written(&self) -> &[u8]
        ensures bytes { result.now ≡ self.now.written }
        ensures within { length self.now.written ≤ self.now.room }
    {
        &self.bytes
    }
}

impl Sink for MemSink {
    ghost written = { λ s. Some s.written };

    ghost faults = { λ s. s.faults };

    ghost push_gives = { StoreGives };

    ghost appends = { λ old new piece r gives. gives.bytes };

    ghost cause = { λ old new piece r gives. gives.cause };

    fn push(&mut self, piece: &[u8]) -> Result<(), Failed> {
        let number = self.pushes;
        self.pushes = self.pushes.saturating_add(1);
        if piece.len() > self.room - self.bytes.len() {
            self.faults = self.faults.saturating_add(1);
            return Err(Failed);
        }
        if self.failing.contains(&number) {
            self.faults = self.faults.saturating_add(1);
            let half = &piece[..piece.len() / 2];
            self.bytes.extend_from_slice(half).unwrap();
            return Err(Failed);
        }
        self.bytes.extend_from_slice(piece).unwrap();
        Ok(())
    }
}
