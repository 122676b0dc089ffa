// The window of the latest accepted stamps.
ghost use Rattle.std.specs.Prelude.{◌≡◌, ℕ, ◌+◌, ◌<◌, ◌≤◌, List, [], ◌∷◌, ◌++◌, length, drop, min, slice_get, slice_range, ◌↔◌, IsTrue, IsNone, Some, IfSome, Ok, IfOk};
ghost use Rattle.std.specs.List.{All};
ghost use Rattle.circular_buffer.specs.Buffer.{keep_last};
ghost use Rattle.stamp_text.specs.Accepted.{IsInRange, IsPlausible, accept_of, last_of, trip};
ghost use Rattle.stamp_text.specs.declared.lines.Stamp.{Stamp};
ghost use Rattle.rtt_window.specs.Bases.{base_at};
ghost use Rattle.rtt_window.specs.Pairs.{first_least, pair_of, ArePair};
ghost use Rattle.rtt_window.specs.Windows.{nothing, StandsFor, HasStamp, kept_with, stamps_in, least_in, judged_in, credit};

use crate::bases::{Base, judged};
use crate::spans::{WIDE, left_end, quarter, slide};
use circular_buffer::HeapCircularBuffer;
use ff_grain::NoMemory;
use min_lists::{Lists, Which};
use stamp_text::Stamp;
use std::alloc::Global;
use std::marker::Model;
use std::sync::ledger::Ledger;
use step_count::Steps;

/// The last stamps that were added, up to 1,024, and where the level of their round trips began.
#[derive(Drop)]
pub struct Window {
    stamps: HeapCircularBuffer<Stamp>,
    lists: Lists,
    count: u64,
    start: u64,
    freq: u64,
}

impl Model for Window {
    ghost use Rattle.rtt_window.specs.Windows.{Kept, Holds};

    ghost Value = { Kept };

    ghost view = { λ w. record { stamps = w.stamps.items; count = w.count; start = w.start; freq = w.freq } };

    ghost invariant = { λ w. Holds w.stamps w.lists w.count w.start w.freq };
}

// The kept stamp at a place.
#[inline(always)]
fn stamp_at(stamps: &HeapCircularBuffer<Stamp>, i: usize) -> Stamp
    requires { i < length stamps.now.items }
    ensures { slice_get stamps.now.items i ≡ Some result }
{
    match stamps.get(i) {
        Some(s) => *s,
        None => unreachable!(),
    }
}

// The round trip of a stamp.
#[inline(always)]
fn trip(s: &Stamp) -> u64
    requires { s.now.ta < s.now.tf }
    ensures { result ≡ trip s.now }
{
    s.tf - s.ta
}

// The first of least round trip among the kept stamps from one place to before another.
fn first_least(stamps: &HeapCircularBuffer<Stamp>, from: usize, to: usize) -> Stamp
    requires some { from < to }
    requires places { to ≤ length stamps.now.items }
    requires forward { All (λ s. s.ta < s.tf) stamps.now.items }
    ensures { first_least (slice_range stamps.now.items from to) ≡ Some result }
{
    let mut least = stamp_at(stamps, from);
    for i in from + 1..to {
        let s = stamp_at(stamps, i);
        if trip(&s) < trip(&least) {
            least = s;
        }
    }
    least
}

// The pair of stamps among the last `reach` of the kept ones, by a look at each.
fn pair_among(stamps: &HeapCircularBuffer<Stamp>, reach: u32) -> (Stamp, Stamp)
    requires two { 2 ≤ reach }
    requires some { 2 ≤ length stamps.now.items }
    requires forward { All (λ s. s.ta < s.tf) stamps.now.items }
    ensures { pair_of reach stamps.now.items ≡ Some result }
{
    let end = stamps.len();
    let near = end.min(reach as usize);
    let quarter = quarter(near as u64) as usize;
    let from = end - near;
    let j = first_least(stamps, from, from + quarter);
    let k = first_least(stamps, end - quarter, end);
    (j, k)
}

impl Window {
    /// An empty window, for a counter with the nominal frequency `freq` in Hz, from 10^6 to 16*10^9.
    ///
    /// It takes all its memory here, and want of it is the only error.
    #[tactic(auto, unfolding(crate::specs::Bases::start_before, crate::specs::Windows::credit))]
    pub fn new(alloc: Global, freq: u64) -> Result<Window, NoMemory>
        requires low { 1000000 ≤ freq }
        requires high { freq ≤ 16000000000 }
        ensures kept { IfOk result (λ w. w ≡ nothing freq) }
        ensures stands { IfOk result (λ w. StandsFor w freq []) }
        ensures credit { IfOk result (λ w. credit w ≡ 0) }
    {
        Ok(Window {
            stamps: HeapCircularBuffer::with_capacity(alloc, WIDE as usize)?,
            lists: Lists::new(alloc)?,
            count: 0,
            start: 0,
            freq,
        })
    }

    // Keeps one more stamp, in the place of the oldest where there is no room.
    #[inline(always)]
    fn keep<L: Ledger>(&mut self, s: Stamp, steps: &mut Steps<L>)
        requires timed { IsInRange s }
        requires accepted { accept_of (last_of self.old.stamps) s self.old.freq ≡ Ok tt }
        ensures kept { self.new ≡ kept_with self.old s }
        ensures steps { steps.old ≤ steps.new }
        ensures credit { steps.new + credit self.new ≤ steps.old + credit self.old + 12 }
    {
        slide(&mut self.lists, self.count, self.start, trip(&s), steps);
        self.stamps.push_back(s);
        self.count += 1;
    }

    // Lets the level begin at a later stamp.
    #[inline(always)]
    fn begin(&mut self, start: u64)
        requires later { self.old.start ≤ start }
        requires here { start ≤ self.old.count }
        ensures kept { self.new ≡ record self.old { start = start } }
        ensures credit { credit self.new ≤ credit self.old }
    {
        self.lists
            .cut(Which::Base, left_end(Which::Base, self.count, start));
        self.start = start;
    }

    // The first stamp of least round trip in one of the six windows.
    #[inline(always)]
    fn least_in(&self, which: Which) -> Stamp
        requires some { HasStamp self.now which }
        ensures value { first_least (stamps_in self.now which) ≡ Some result }
        ensures forward { result.ta < result.tf }
    {
        let dropped = self.count - self.stamps.len() as u64;
        match self.lists.least(which) {
            Some(i) => stamp_at(&self.stamps, (i - dropped) as usize),
            None => unreachable!(),
        }
    }

    // Its round trip.
    #[inline(always)]
    fn least_trip(&self, which: Which) -> u64
        requires some { HasStamp self.now which }
        ensures { result ≡ least_in self.now which }
    {
        trip(&self.least_in(which))
    }

    // The pair of stamps among the last `reach` of the kept ones. For the far and the near window the
    // lists know it.
    #[inline(always)]
    fn pair_within(&self, reach: u32) -> (Stamp, Stamp)
        requires two { 2 ≤ reach }
        requires some { 2 ≤ length self.now.stamps }
        ensures { pair_of reach self.now.stamps ≡ Some result }
    {
        let stamps = &self.stamps;
        match reach {
            1024 => (self.least_in(Which::WideOld), self.least_in(Which::WideNew)),
            64 => (self.least_in(Which::NearOld), self.least_in(Which::NearNew)),
            _ => pair_among(stamps, reach),
        }
    }

    // Keeps one more stamp, and judges it by what is kept.
    #[inline(always)]
    fn judge<L: Ledger>(&mut self, s: Stamp, steps: &mut Steps<L>) -> Base
        requires timed { IsInRange s }
        requires accepted { accept_of (last_of self.old.stamps) s self.old.freq ≡ Ok tt }
        ensures base { result ≡ judged_in (kept_with self.old s) }
        ensures kept { self.new ≡ record (kept_with self.old s) { start = result.start } }
        ensures steps { steps.old ≤ steps.new }
        ensures credit { steps.new + credit self.new ≤ steps.old + credit self.old + 12 }
    {
        let i = self.count;
        self.keep(s, steps);
        let least = self.least_trip(Which::Base);
        let recent = self.least_trip(Which::Recent);
        let answer = judged(self.freq, self.start, i, least, recent);
        self.begin(answer.start);
        answer
    }

    /// Adds a stamp that is accepted behind the newest one, and says which base it has.
    ///
    /// The base is the least round trip since the level began, over the last 1,024 stamps at most.
    /// Where 32 stamps or more stand behind its start, and even the least of the last 32 is more than
    /// four scales above it, the level has shifted, and begins anew with these 32. After the base
    /// and the level shifts of Veitch, Ridoux and Korada.
    ///
    /// A step is one comparison of two round trips. The steps and the credit together rise by twelve
    /// at most, so in the long run a stamp takes twelve steps.
    #[inline(always)]
    pub fn add<L: Ledger>(&mut self, s: Stamp, steps: &mut Steps<L>) -> Base
        requires timed { IsInRange s }
        requires accepted { accept_of (last_of self.old.stamps) s self.old.freq ≡ Ok tt }
        ensures kept { self.new.stamps ≡ keep_last 1024 (self.old.stamps ++ s ∷ []) }
        ensures count { self.new.count ≡ self.old.count + 1 }
        ensures freq { self.new.freq ≡ self.old.freq }
        ensures stands { (freq : ℕ) (all : List Stamp) → StandsFor self.old freq all →
            StandsFor self.new freq (all ++ s ∷ []) }
        ensures base { (freq : ℕ) (all : List Stamp) → StandsFor self.old freq all →
            result ≡ base_at freq (all ++ s ∷ []) (length all) }
        ensures steps { steps.old ≤ steps.new }
        ensures credit { steps.new + credit self.new ≤ steps.old + credit self.old + 12 }
    {
        self.judge(s, steps)
    }

    /// How many stamps were added, kept or not.
    #[inline(always)]
    pub fn count(&self) -> u64
        ensures { result ≡ self.now.count }
    {
        self.count
    }

    /// How many stamps are kept.
    #[inline(always)]
    pub fn len(&self) -> usize
        ensures value { result ≡ length self.now.stamps }
        ensures most { result ≡ min 1024 self.now.count }
    {
        self.stamps.len()
    }

    /// Whether none is kept.
    pub fn is_empty(&self) -> bool
        ensures { IsTrue result ↔ (length self.now.stamps ≡ 0) }
    {
        self.stamps.is_empty()
    }

    /// The kept stamp at the place `i`, the oldest at 0.
    #[inline(always)]
    pub fn stamp(&self, i: usize) -> Stamp
        requires { i < length self.now.stamps }
        ensures value { slice_get self.now.stamps i ≡ Some result }
        ensures timed { IsInRange result }
        ensures sound { IsPlausible self.now.freq result }
    {
        stamp_at(&self.stamps, i)
    }

    /// The kept stamps from the place `from` on, in two runs of which the first has the older ones.
    #[inline(always)]
    pub fn from_place(&self, from: usize) -> (&[Stamp], &[Stamp])
        ensures value { result.0.now ++ result.1.now ≡ drop from self.now.stamps }
        ensures timed { All IsInRange result.0.now × All IsInRange result.1.now }
        ensures sound { All (IsPlausible self.now.freq) result.0.now × All (IsPlausible self.now.freq) result.1.now }
    {
        let (front, back) = self.stamps.as_slices();
        let first = from.min(front.len());
        let rest = (from - first).min(back.len());
        (&front[first..], &back[rest..])
    }

    /// The pair of stamps that a rate is taken from, among the last `reach` of the kept stamps, from 2
    /// to 1,024.
    ///
    /// It is the first stamp of least round trip in the first quarter of them, and the first of least
    /// round trip in the last quarter. A quarter is rounded down, and has one stamp at least. `None`
    /// comes where fewer than two stamps are kept. After the near and the far window of Veitch, Ridoux
    /// and Korada.
    ///
    /// Among the last 1,024 and the last 64 it is known without a look at each stamp.
    #[inline(always)]
    pub fn pair(&self, reach: u32) -> Option<(Stamp, Stamp)>
        requires two { 2 ≤ reach }
        requires kept { reach ≤ 1024 }
        ensures value { result ≡ pair_of reach self.now.stamps }
        ensures all { (freq : ℕ) (all : List Stamp) → StandsFor self.now freq all →
            result ≡ pair_of reach all }
        ensures none { IsNone result ↔ (length self.now.stamps < 2) }
        ensures pair { IfSome result (λ p. ArePair self.now.freq p.0 p.1) }
    {
        if self.stamps.len() < 2 {
            return None;
        }
        Some(self.pair_within(reach))
    }
}
