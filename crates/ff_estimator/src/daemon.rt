// The daemon.
ghost use Rattle.std.specs.Prelude.{◌≡◌, ◌<◌, ◌≤◌, ◌-◌, ◌+◌, ◌*◌, ◌^◌, ℕ, List, [], ◌∷◌, ◌++◌, length, Ok, IfOk, IfSome, pos, ◌≤ℤ◌, ◌<ℤ◌};
ghost use Rattle.std.specs.List.{All};
ghost use Rattle.std.specs.Prelude.{OnErr};
ghost use Rattle.ff_grain.specs.declared.bintime.Bintime.{Bintime};
ghost use Rattle.stamp_text.specs.Accepted.{IsInRange, IsLeapInRange, accepted_with, last_of};
ghost use Rattle.stamp_text.specs.Past.{accept_item};
ghost use Rattle.stamp_text.specs.declared.lines.Item.{Item};
ghost use Rattle.stamp_text.specs.declared.lines.Item.TheVariants as item;
ghost use Rattle.stamp_text.specs.declared.accepts.Refused.{Refused};
ghost use Rattle.stamp_text.specs.declared.lines.Stamp.{Stamp};
ghost use Rattle.rate_pair.specs.Rates.{IsRate};
ghost use Rattle.ff_estimator.specs.Events.{fed_of};
ghost use Rattle.ff_estimator.specs.Daemons.{StandsFor, IsTakenBounded, count_of, mean_kept, taken_kept, credit};
ghost use Rattle.ff_estimator.specs.Runs.{IsPaid};

use crate::choices::{Taken, chosen, predicted_by};
use crate::fulls::{Fed, full_of, with_leaps};
use crate::leaps::{Leaps, fields_kept, leaps_with, no_leaps};
use crate::means::mean;
use crate::rates::{PairRate, Rates, rates_at};
use ff_grain::NoMemory;
use rate_pair::Rate;
use rtt_window::{Base, Window};
use stamp_text::{Past, Refused, Stamp};
use std::alloc::Global;
use std::marker::Model;
use std::sync::ledger::Ledger;
use step_count::Steps;

/// The daemon: it keeps the last accepted stamps, what was taken at the newest one, and the leap seconds.
#[derive(Drop)]
pub struct Daemon {
    window: Window,
    taken: Taken,
    // The accepted items, as far as tests ask for them.
    past: Past,
    leaps: Leaps,
    freq: u64,
    // The rates of the last pairs.
    far: Option<PairRate>,
    near: Option<PairRate>,
}

impl Model for Daemon {
    ghost use Rattle.ff_estimator.specs.Daemons.{Kept, Holds};

    ghost Value = { Kept };

    ghost view = { λ d. record { window = d.window; taken = d.taken; past = d.past; leaps = d.leaps } };

    ghost invariant = { λ d. Holds (record { window = d.window; taken = d.taken; past = d.past; leaps = d.leaps }) d.freq };
}

/// The stamps that a mean is taken over, at most.
const RECENT: u64 = 32;

// The newest stamp, if there is one.
#[inline(always)]
fn newest(window: &Window) -> Option<Stamp>
    ensures value { result ≡ last_of window.now.stamps }
    ensures timed { IfSome result IsInRange }
{
    match window.len().checked_sub(1) {
        Some(last) => Some(window.stamp(last)),
        None => None,
    }
}

// The count at which the reply of the newest stamp came, and 0 before there is one.
#[inline(always)]
fn newest_count(window: &Window) -> u64
    ensures value { result ≡ count_of (last_of window.now.stamps) }
    ensures bound { result < 2 ^ 62 }
{
    match newest(window) {
        Some(s) => s.tf,
        None => 0,
    }
}

// The mean at the newest stamp and its spread, in grains.
#[inline(always)]
fn mean_at(window: &Window, freq: u64, base: &Base, rate: &Rate, now: u64) -> Option<(i128, u128)>
    requires low { 1000000 ≤ freq }
    requires high { freq ≤ 16000000000 }
    requires at { window.now.freq ≡ freq }
    requires some { 0 < window.now.count }
    requires order { IsRate freq rate.now }
    requires now { now < 2 ^ 62 }
    ensures value { result ≡ mean_kept window.now base.now rate.now now }
    ensures time { IfSome result (λ m. (pos 0 ≤ℤ m.0) × (m.0 <ℤ pos (2 ^ 97))) }
    ensures spread { IfSome result (λ m. m.1 ≤ 2 ^ 97 + 1) }
{
    let i = window.count() - 1;
    let first = base.start.max(i.saturating_sub(RECENT - 1));
    let dropped = window.count() - window.len() as u64;
    match mean(
        window,
        (first - dropped) as usize,
        freq,
        base.base,
        rate,
        now,
    ) {
        Some((time, spread)) => Some((time.grains(), spread)),
        None => None,
    }
}

// What is taken at the newest stamp, whose reply came at `now`, given what was taken at `before`.
#[inline(always)]
fn taken_at(
    window: &Window,
    freq: u64,
    base: &Base,
    rates: &Rates,
    before: u64,
    now: u64,
    t: &Taken,
) -> Taken
    requires low { 1000000 ≤ freq }
    requires high { freq ≤ 16000000000 }
    requires at { window.now.freq ≡ freq }
    requires some { 0 < window.now.count }
    requires order { IsRate freq rates.now.global × IsRate freq rates.now.in_use }
    requires bound { rates.now.global.high < 2 ^ 45 }
    requires later { before ≤ now }
    requires now { now < 2 ^ 62 }
    requires bounded { IsTakenBounded t.now before }
    ensures value { result ≡ taken_kept window.now base.now rates.now before now t.now }
    ensures bounded { IsTakenBounded result now }
{
    let mean = mean_at(window, freq, base, &rates.in_use, now);
    let predicted = predicted_by(&rates.global, now - before, t);
    chosen(window.count() - 1, t.run, predicted, mean)
}

impl Daemon {
    /// A daemon without stamps, for a counter with the nominal frequency `freq` in Hz, from 10^6 to
    /// 16*10^9.
    ///
    /// It takes all its memory here, and want of it is the only error.
    #[tactic(auto, unfolding(crate::specs::Choices::taken_before))]
    pub fn new(alloc: Global, freq: u64) -> Result<Daemon, NoMemory>
        requires low { 1000000 ≤ freq }
        requires high { freq ≤ 16000000000 }
        ensures stands { IfOk result (λ d. StandsFor d freq []) }
        ensures credit { IfOk result (λ d. credit d ≡ 0) }
    {
        let taken = Taken {
            time: 0,
            spread: 0,
            predicted: false,
            run: 0,
        };
        Ok(Daemon {
            window: Window::new(alloc, freq)?,
            taken,
            past: Past::new(),
            leaps: no_leaps(),
            freq,
            far: None,
            near: None,
        })
    }

    /// Takes the next stamp: refuses it by the first of its eight tests that holds behind the accepted
    /// items, and is then unchanged, or answers the estimate at it, with what the leap seconds before it
    /// tell.
    ///
    /// Its counters are below 2^62, and its times from 0 to below 2^32 s. After the algorithm of
    /// Veitch, Ridoux and Korada.
    ///
    /// A step is one comparison of two round trips. The steps and the credit together rise by twelve
    /// at most, so in the long run a stamp takes twelve steps. One that is refused takes none.
    #[inline(always)]
    pub fn feed<L: Ledger>(&mut self, s: Stamp, steps: &mut Steps<L>) -> Fed
        requires { IsInRange s }
        ensures answer { (freq : ℕ) (items : List Item) → StandsFor self.old freq items → result ≡ fed_of freq items s }
        ensures stands { (freq : ℕ) (items : List Item) → StandsFor self.old freq items → StandsFor self.new freq (accepted_with items (item.Stamp s) (accept_item freq items (item.Stamp s))) }
        ensures refused { (why : Refused) → result ≡ Fed.Refused why → self.new ≡ self.old }
        ensures uncounted { (why : Refused) → result ≡ Fed.Refused why → steps.new ≡ steps.old }
        ensures paid { IsPaid self.old (record { before = steps.old; after = steps.new }) self.new }
    {
        if let Err(why) = self.past.stamp(&s, self.freq) {
            return Fed::Refused(why);
        }
        let before = newest_count(&self.window);
        let base = self.window.add(s, steps);
        let rates = rates_at(&self.window, self.freq, &mut self.far, &mut self.near);
        self.taken = taken_at(
            &self.window,
            self.freq,
            &base,
            &rates,
            before,
            s.tf,
            &self.taken,
        );
        let i = self.window.count() - 1;
        let full = full_of(i, s.tf, &rates, base.shifted, &self.taken, self.freq);
        Fed::Estimate(with_leaps(fields_kept(&self.leaps, s.tf), full))
    }

    /// Takes a set of the clock at a count: refuses it where it does not come behind the accepted stamps
    /// and sets, and is then unchanged. It says nothing of the time, and takes no steps.
    pub fn set(&mut self, count: u64) -> Result<(), Refused>
        ensures answer { (freq : ℕ) (items : List Item) (at : Bintime) → StandsFor self.old freq items → result ≡ accept_item freq items (item.Set count at) }
        ensures stands { (freq : ℕ) (items : List Item) (at : Bintime) → StandsFor self.old freq items → StandsFor self.new freq (accepted_with items (item.Set count at) result) }
        ensures refused { OnErr result (self.new ≡ self.old) }
        ensures credit { credit self.new ≡ credit self.old }
    {
        self.past.set(count)
    }

    /// Takes a leap second behind a count: refuses it by the first of its four tests that holds behind the
    /// accepted items, and is then unchanged. It takes no steps.
    ///
    /// It is put in where `leap` is 1, and left out where it is -1.
    pub fn leap(&mut self, count: u64, leap: i8) -> Result<(), Refused>
        requires range { IsLeapInRange count leap }
        ensures answer { (freq : ℕ) (items : List Item) → StandsFor self.old freq items → result ≡ accept_item freq items (item.Leap count leap) }
        ensures stands { (freq : ℕ) (items : List Item) → StandsFor self.old freq items → StandsFor self.new freq (accepted_with items (item.Leap count leap) result) }
        ensures refused { OnErr result (self.new ≡ self.old) }
        ensures credit { credit self.new ≡ credit self.old }
    {
        self.past.leap(count, leap)?;
        self.leaps = leaps_with(&self.leaps, count, leap);
        Ok(())
    }
}
