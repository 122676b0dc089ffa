// The accepted items of a file, of all kinds.
ghost use Rattle.std.specs.Prelude.{◌≡◌, ◌⊎◌, ◌≤◌, ◌<◌, ℕ, [], List, OnErr, OnOk, pos, negsuc};
ghost use Rattle.std.specs.Option.{option_copied};
ghost use Rattle.ff_grain.specs.declared.bintime.Bintime.{Bintime};
ghost use Rattle.stamp_text.specs.Accepted.{IsInRange, accepted_with, first_that_holds};
ghost use Rattle.stamp_text.specs.Past.{accept_item, is_leap_old, is_not_behind, is_pending, is_unannounced, is_unsynchronised, later_tests, reply_of, seen_after, seen_of, test_of, word_of};
ghost use Rattle.stamp_text.specs.declared.lines.Item.{Item};
ghost use Rattle.stamp_text.specs.declared.lines.Item.TheVariants as item;

use crate::accepts::{Refused, accept};
use crate::lines::Stamp;
use std::marker::Model;

/// The most leap seconds of a file.
const MOST_LEAPS: u32 = 100;

/// The greatest stratum of a server that is synchronised.
const GREATEST_STRATUM: u32 = 15;

/// What a server that is not synchronised says of leap seconds.
const UNSYNCHRONISED: u32 = 3;

/// The accepted items of a file, as far as the tests of one more ask for them.
#[derive(Drop)]
pub struct Past {
    // The latest stamp.
    stamp: Option<Stamp>,
    // The counts of the latest set and of the latest leap second.
    set: Option<u64>,
    leap: Option<u64>,
    // How many leap seconds there are.
    leaps: u32,
}

impl Model for Past {
    ghost use Rattle.std.specs.Prelude.{◌≤◌, IfSome};
    ghost use Rattle.stamp_text.specs.Accepted.{IsInRange};
    ghost use Rattle.stamp_text.specs.Past.{Seen};

    ghost Value = { Seen };

    ghost view = { λ p. record { stamp = p.stamp; set = p.set; leap = p.leap; leaps = p.leaps } };

    ghost invariant = { λ p. IfSome p.stamp IsInRange × (p.leaps ≤ 100) };
}

impl Default for Past {
    fn default() -> Past {
        Past::new()
    }
}

// A count is not behind one before it, if there is one.
#[inline(always)]
fn is_not_behind(count: u64, before: Option<u64>) -> bool
    ensures { result ≡ is_not_behind count before }
{
    match before {
        Some(before) => count <= before,
        None => false,
    }
}

#[inline(always)]
fn is_unsynchronised(s: &Stamp) -> bool
    ensures { result ≡ is_unsynchronised s.now }
{
    s.leap == UNSYNCHRONISED || s.stratum == 0 || s.stratum > GREATEST_STRATUM
}

// What a server says of a leap second that is to come.
fn word_of(leap: i8) -> u32
    requires sign { (leap ≡ pos 1) ⊎ (leap ≡ negsuc 0) }
    ensures { result ≡ word_of leap }
{
    if leap == 1 { 1 } else { 2 }
}

// A leap second is not behind the latest stamp.
fn is_leap_old(count: u64, stamp: Option<&Stamp>) -> bool
    ensures { result ≡ is_leap_old count (option_copied stamp.entry) }
{
    match stamp {
        Some(s) => count <= s.tf,
        None => true,
    }
}

// The latest stamp does not come behind the latest leap second.
fn is_pending(leap: Option<u64>, stamp: Option<&Stamp>) -> bool
    ensures { result ≡ is_pending leap (option_copied stamp.entry) }
{
    match (leap, stamp) {
        (Some(count), Some(s)) => s.tf <= count,
        _ => false,
    }
}

// The latest stamp does not say that this leap second is to come.
fn is_unannounced(leap: i8, stamp: Option<&Stamp>) -> bool
    requires sign { (leap ≡ pos 1) ⊎ (leap ≡ negsuc 0) }
    ensures { result ≡ is_unannounced leap (option_copied stamp.entry) }
{
    match stamp {
        Some(s) => s.leap != word_of(leap),
        None => true,
    }
}

// The tests of a stamp behind those of its times.
#[inline(always)]
fn later_tests(set: Option<u64>, s: &Stamp) -> Result<(), Refused>
    ensures { result ≡ first_that_holds (later_tests set s.now) }
{
    if is_unsynchronised(s) {
        return Err(Refused::Unsynchronised);
    }
    if is_not_behind(s.ta, set) {
        return Err(Refused::BeforeSet);
    }
    Ok(())
}

impl Past {
    /// No item was accepted.
    pub fn new() -> Past
        ensures { result ≡ seen_of [] }
    {
        Past {
            stamp: None,
            set: None,
            leap: None,
            leaps: 0,
        }
    }

    // When the reply of the latest stamp came.
    fn reply(&self) -> Option<u64>
        ensures { result ≡ reply_of self.now.stamp }
    {
        self.stamp.map(|s| s.tf)
    }

    // The tests of each kind.
    #[inline(always)]
    #[tactic(auto, unfolding(crate::specs::Past::test_of))]
    fn test_stamp(&self, s: &Stamp, freq: u64) -> Result<(), Refused>
        requires low { 1000000 ≤ freq }
        requires high { freq ≤ 16000000000 }
        requires now { IsInRange s.now }
        ensures { result ≡ test_of freq self.now (item.Stamp s.now) }
    {
        accept(self.stamp.as_ref(), s, freq)?;
        later_tests(self.set, s)
    }

    #[tactic(auto, unfolding(crate::specs::Past::test_of))]
    fn test_set(&self, count: u64) -> Result<(), Refused>
        ensures { (freq : ℕ) (at : Bintime) → result ≡ test_of freq self.now (item.Set count at) }
    {
        if is_not_behind(count, self.reply()) || is_not_behind(count, self.set) {
            Err(Refused::SetOld)
        } else {
            Ok(())
        }
    }

    #[tactic(auto, unfolding(crate::specs::Past::test_of))]
    fn test_leap(&self, count: u64, leap: i8) -> Result<(), Refused>
        requires sign { (leap ≡ pos 1) ⊎ (leap ≡ negsuc 0) }
        ensures few { OnOk result (self.now.leaps < 100) }
        ensures test { (freq : ℕ) → result ≡ test_of freq self.now (item.Leap count leap) }
    {
        if is_leap_old(count, self.stamp.as_ref()) {
            return Err(Refused::LeapOld);
        }
        if is_pending(self.leap, self.stamp.as_ref()) {
            return Err(Refused::LeapPending);
        }
        if is_unannounced(leap, self.stamp.as_ref()) {
            return Err(Refused::LeapUnannounced);
        }
        if self.leaps >= MOST_LEAPS {
            return Err(Refused::LeapLimit);
        }
        Ok(())
    }

    /// Tests a stamp behind the accepted items, and answers the first of its eight tests that holds. Where
    /// none holds it is accepted, and else nothing changes.
    ///
    /// `freq` is the counter's nominal frequency in Hz.
    #[inline(always)]
    pub fn stamp(&mut self, s: &Stamp, freq: u64) -> Result<(), Refused>
        requires low { 1000000 ≤ freq }
        requires high { freq ≤ 16000000000 }
        requires now { IsInRange s.now }
        ensures answer { (all : List Item) → self.old ≡ seen_of all → result ≡ accept_item freq all (item.Stamp s.now) }
        ensures stands { (all : List Item) → self.old ≡ seen_of all → self.new ≡ seen_of (accepted_with all (item.Stamp s.now) result) }
        ensures refused { OnErr result (self.new ≡ self.old) }

        // What was kept decides what is answered, and what is then kept.
        ensures test { result ≡ test_of freq self.old (item.Stamp s.now) }
        ensures after { self.new ≡ seen_after self.old (item.Stamp s.now) result }
    {
        self.test_stamp(s, freq)?;
        self.stamp = Some(*s);
        Ok(())
    }

    /// Tests a set at a count behind the accepted items. Where it comes behind the latest stamp and the latest
    /// set it is accepted, and else nothing changes.
    pub fn set(&mut self, count: u64) -> Result<(), Refused>
        ensures answer { (freq : ℕ) (all : List Item) (at : Bintime) → self.old ≡ seen_of all → result ≡ accept_item freq all (item.Set count at) }
        ensures stands { (all : List Item) (at : Bintime) → self.old ≡ seen_of all → self.new ≡ seen_of (accepted_with all (item.Set count at) result) }
        ensures refused { OnErr result (self.new ≡ self.old) }

        // What was kept decides what is answered, and what is then kept.
        ensures test { (freq : ℕ) (at : Bintime) → result ≡ test_of freq self.old (item.Set count at) }
        ensures after { (at : Bintime) → self.new ≡ seen_after self.old (item.Set count at) result }
    {
        self.test_set(count)?;
        self.set = Some(count);
        Ok(())
    }

    /// Tests a leap second behind the accepted items, and answers the first of its four tests that holds.
    /// Where none holds it is accepted, and else nothing changes.
    ///
    /// It is put in where `leap` is 1, and left out where it is -1.
    pub fn leap(&mut self, count: u64, leap: i8) -> Result<(), Refused>
        requires sign { (leap ≡ pos 1) ⊎ (leap ≡ negsuc 0) }
        ensures answer { (freq : ℕ) (all : List Item) → self.old ≡ seen_of all → result ≡ accept_item freq all (item.Leap count leap) }
        ensures stands { (all : List Item) → self.old ≡ seen_of all → self.new ≡ seen_of (accepted_with all (item.Leap count leap) result) }
        ensures refused { OnErr result (self.new ≡ self.old) }

        // What was kept decides what is answered, and what is then kept.
        ensures test { (freq : ℕ) → result ≡ test_of freq self.old (item.Leap count leap) }
        ensures after { self.new ≡ seen_after self.old (item.Leap count leap) result }
    {
        self.test_leap(count, leap)?;
        self.leap = Some(count);
        self.leaps += 1;
        Ok(())
    }
}
