// Conversions of past counts.
ghost use Rattle.std.specs.Prelude.{◌≡◌, ◌≢◌, ◌+◌, ◌-◌, ◌/◌, ◌%◌, ◌<◌, ◌≤◌, ◌^◌, true, false, [], IfSome, IsNone};
ghost use Rattle.ff_hands.specs.Journals.{IsSound};
ghost use Rattle.hand_words.specs.Words.{unpack};
ghost use Rattle.tick_reads.specs.Scans.{scan_at};
ghost use Rattle.tick_reads.specs.Converts.{ask_back};
ghost use Rattle.tick_views.specs.Views.{scan_of};
ghost use Rattle.tick_table.specs.Steps.{IsSoundAt};
ghost use Rattle.tick_laws.specs.Goes.{Answers, GoesDown, IsAtTick};
ghost use Rattle.tick_desk.specs.Answers.{Adds, IsEntryBy, entry_from, hands_of};

use crate::looks::look_at;
use crate::pass::Pass;
use crate::reads::reading;
use clock_lines::{Kind, Reading};
use ff_hands::Hands;
use tick_reads::Ask;
use tick_table::unpack;

/// What a conversion of a past count comes to.
#[derive(Clone, Copy, Debug, PartialEq, Eq)]
pub enum Converted {
    /// All of it is by the hands of the tick that was current at the count.
    Read(Reading),
    /// That tick is no longer kept. `oldest` is the count of the oldest tick that was looked at,
    /// the ninth before the newest.
    TooOld { oldest: u64 },
    /// The counter has not reached the count that was asked for, but stands at `count`.
    Ahead { count: u64 },
    /// A windup came between: the value that was met first, and the one that was met then. The
    /// caller may ask again.
    Again { first: u64, last: u64 },
}

// The slot of the tick before one in this slot.
#[inline(always)]
fn slot_before(slot: u64) -> u64
    requires { slot < 10 }
    ensures { result ≡ (slot + 9) % 10 }
{
    if slot == 0 { 9 } else { slot - 1 }
}

impl Pass {
    /// The uninterrupted clock at a past count below 2^62, by the tick that was current then, the
    /// newest whose count is below it, or tick 0.
    ///
    /// The turn word is loaded, and the newest tick is looked at: its fields, and then the mark of
    /// its slot. Where the count is past it, the counter has to have reached the count, and the
    /// turn word has to be even and the same again. Else the ticks before it are looked at one by
    /// one, down to the ninth before it, which needs neither, also while a windup stands open. A
    /// mark that is not the tick's own is `Again`.
    #[inline(always)]
    pub fn convert(&mut self, count: u64) -> Converted
        requires { count < 2 ^ 62 }
        ensures { Adds self.old self.new (ask_back count) (entry_from count result) }
    {
        let ask = Ask {
            kind: Kind::Back,
            given: count,
        };
        let first = self.seat.open_call(self.share.words(), ask);
        let newest = first / 2;
        if let Some(answer) = self.look_newest(first, count) {
            return answer;
        }
        let mut slot = newest % 10;
        for down in 1..10 {
            slot = slot_before(slot);
            if let Some(answer) = self.look_older(first, newest - down, slot, count) {
                return answer;
            }
        }
        unreachable!()
    }

    // Looks at the newest tick. With no answer the call is at the tick before.
    #[inline(always)]
    fn look_newest(&mut self, first: u64, count: u64) -> Option<Converted>
        requires most { count < 2 ^ 62 }
        requires few { first < 2 ^ 63 }
        requires at { IsAtTick self.old.view count first (first / 2) }
        ensures table { self.new.table ≡ self.old.table }
        ensures some { IfSome result
            (λ a. Answers self.old.view self.new.view (entry_from count a)) }
        ensures by { IfSome result (λ a. IsEntryBy (hands_of self.new.view) (entry_from count a)) }
        ensures none { IsNone result →
            GoesDown self.old.view self.new.view count first (first / 2 - 1) }
        ensures more { IsNone result → first / 2 ≢ 0 }
    {
        let tick = first / 2;
        let seen = look_at(self.share.words(), &mut self.seat, tick, tick % 10);
        if seen.mark != 2 * tick + 2 {
            return Some(Converted::Again {
                first: 2 * tick + 2,
                last: seen.mark,
            });
        }
        let hands = unpack(&seen.fields);
        if hands.count < count {
            if first % 2 != 0 {
                return Some(Converted::Again { first, last: first });
            }
            return Some(self.past_newest(first, &hands, count));
        }
        if tick == 0 {
            return Some(Converted::Read(reading(Kind::Back, tick, &hands, count)));
        }
        None
    }

    // The count is past the newest tick's.
    #[inline(always)]
    fn past_newest(&mut self, first: u64, hands: &Hands, count: u64) -> Converted
        requires most { count < 2 ^ 62 }
        requires calling { self.old.view.calling ≡ true }
        requires ask { self.old.view.ask ≡ ask_back count }
        requires at { scan_of self.old.view ≡
            scan_at first (first / 2) true (scan_of self.old.view).fields [] }
        requires hands { hands.now ≡ unpack (scan_of self.old.view).fields }
        requires stands { IsSoundAt (first / 2) hands.now }
        requires past { hands.now.count < count }
        ensures table { self.new.table ≡ self.old.table }
        ensures answers { Answers self.old.view self.new.view (entry_from count result) }
        ensures by { IsEntryBy (hands_of self.new.view) (entry_from count result) }
    {
        let words = self.share.words();
        let counter = self.seat.load_counter(words);
        if counter < count {
            return Converted::Ahead { count: counter };
        }
        let last = self.seat.load_turn(words);
        if last != first {
            return Converted::Again { first, last };
        }
        Converted::Read(reading(Kind::Back, first / 2, hands, count))
    }

    // Looks at an older tick. With no answer the call is at the tick before.
    #[inline(always)]
    fn look_older(&mut self, first: u64, tick: u64, slot: u64, count: u64) -> Option<Converted>
        requires slot { slot ≡ tick % 10 }
        requires most { count < 2 ^ 62 }
        requires few { first < 2 ^ 63 }
        requires older { tick < first / 2 }
        requires at { IsAtTick self.old.view count first tick }
        ensures table { self.new.table ≡ self.old.table }
        ensures some { IfSome result
            (λ a. Answers self.old.view self.new.view (entry_from count a)) }
        ensures by { IfSome result (λ a. IsEntryBy (hands_of self.new.view) (entry_from count a)) }
        ensures none { IsNone result → GoesDown self.old.view self.new.view count first (tick - 1) }
        ensures more { IsNone result → tick ≢ 0 }
        ensures nearer { IsNone result → tick + 9 ≢ first / 2 }
    {
        let seen = look_at(self.share.words(), &mut self.seat, tick, slot);
        if seen.mark != 2 * tick + 2 {
            return Some(Converted::Again {
                first: 2 * tick + 2,
                last: seen.mark,
            });
        }
        let hands = unpack(&seen.fields);
        if hands.count < count || tick == 0 {
            return Some(Converted::Read(reading(Kind::Back, tick, &hands, count)));
        }
        if tick + 9 == first / 2 {
            return Some(Converted::TooOld {
                oldest: hands.count,
            });
        }
        None
    }
}
