// A reader's seat.
ghost use Rattle.std.specs.Prelude.{◌≡◌, ◌+◌, ◌/◌, ◌%◌, ◌^◌, ◌<◌, true};
ghost use Rattle.tick_views.specs.Views.{turn_loaded, call_begun, field_loaded, mark_loaded, counter_loaded, learned, scan_of};
ghost use Rattle.tick_table.specs.Steps.{LearnsTurn, LearnsHands, LearnsLater, LearnsAll};
ghost use Rattle.tick_views.specs.Worlds.{AllAtMost};

use crate::note::NoteSeat;
use crate::rule::{Asking, LoadCounter, LoadField, LoadMark, LoadTurn, OpenCall, TakePass};
use crate::share::Words;
use atomic_table::Seat;
use std::marker::{Brand, Model};
use tick_reads::Ask;
use tick_views::View;

/// The seat of a reader, which steps on the words that it is given, those of its table. Contracts see its
/// table and its view.
///
/// A call opens by a load of the turn word, and goes on by further loads of the turn word, the counter,
/// and the fields and marks of ticks. Each load is of one word and writes none. The load by which the
/// loads of the call decide an entry adds it to the entries, and no call stands open then.
#[derive(Drop)]
pub struct PassSeat {
    pub(crate) seat: Seat<(), View>,
}

impl Model for PassSeat {
    ghost use Rattle.tick_table.specs.Sees.{PassSees, IsPass};
    ghost use Rattle.tick_views.specs.Views.{pass_of};

    ghost Value = { PassSees };

    ghost view = { λ s. record { table = s.seat.table_id; view = pass_of s.seat.me.0 } };

    ghost invariant = { λ s. IsPass s.seat.table_id s.seat.table_id s.seat.me };
}

impl PassSeat {
    /// Loads the turn word as the first load of a call. A call that stood open is given up, without an
    /// entry.
    #[inline(always)]
    pub fn open_call(&mut self, words: &Words, ask: Ask) -> u64
        requires { words.now.shared.table_id ≡ self.old.table }
        ensures table { self.new.table ≡ self.old.table }
        ensures view { self.new.view ≡ turn_loaded result (call_begun ask self.old.view) }
        ensures learns { LearnsTurn self.old.view result }
    {
        self.open_asking::<Brand>(words, ask)
    }

    // The proof of the call picks what A asks for.
    #[inline(always)]
    fn open_asking<A: Asking>(&mut self, words: &Words, ask: Ask) -> u64
        requires ask { ask ≡ A.ask }
        requires words { words.now.shared.table_id ≡ self.old.table }
        ensures table { self.new.table ≡ self.old.table }
        ensures view { self.new.view ≡ turn_loaded result (call_begun ask self.old.view) }
        ensures learns { LearnsTurn self.old.view result }
    {
        words.shared.load::<OpenCall<A>>(&mut self.seat, 0)
    }

    /// Loads field `field`, from 0 to 14, of the tick that the call is at, in the slot where that tick
    /// would stand. Field 0 begins the look at a tick, and each other one follows the field before it,
    /// or the call decides nothing.
    #[inline(always)]
    pub fn load_field(&mut self, words: &Words, tick: u64, slot: u64, field: u32) -> u64
        requires words { words.now.shared.table_id ≡ self.old.table }
        requires slot { slot ≡ tick % 10 }
        requires calling { self.old.view.calling ≡ true }
        requires field { field < 15 }
        requires tick { tick ≡ (scan_of self.old.view).tick }
        ensures table { self.new.table ≡ self.old.table }
        ensures view { self.new.view ≡ field_loaded field result self.old.view }
    {
        words.shared.load::<LoadField>(&mut self.seat, 2 + 16 * slot as usize + 1 + field as usize)
    }

    /// Loads the mark of the tick that the call is at, behind its fifteen fields. Where the mark is
    /// full, and is of this tick, these fields are the words of its hands, which stand there in a
    /// journal. Any other mark is of a tick that comes at least ten later.
    #[inline(always)]
    pub fn load_mark(&mut self, words: &Words, tick: u64, slot: u64) -> u64
        requires words { words.now.shared.table_id ≡ self.old.table }
        requires slot { slot ≡ tick % 10 }
        requires calling { self.old.view.calling ≡ true }
        requires tick { tick ≡ (scan_of self.old.view).tick }
        ensures table { self.new.table ≡ self.old.table }
        ensures view { self.new.view ≡ mark_loaded result self.old.view }
        ensures hands { LearnsHands (scan_of self.old.view) result }
        ensures later { LearnsLater (scan_of self.old.view) result }
    {
        words
            .shared
            .load::<LoadMark>(&mut self.seat, 2 + 16 * slot as usize)
    }

    /// Loads the turn word once more. Where it is that of the call's first load, and the call is a full
    /// read that has loaded the fields and one counter, the counter is not before the tick.
    #[inline(always)]
    pub fn load_turn(&mut self, words: &Words) -> u64
        requires words { words.now.shared.table_id ≡ self.old.table }
        requires calling { self.old.view.calling ≡ true }
        ensures table { self.new.table ≡ self.old.table }
        ensures view { self.new.view ≡ turn_loaded result self.old.view }
        ensures learns { LearnsTurn self.old.view result }
        ensures hands { LearnsAll self.old.view.ask (scan_of self.old.view) result }
    {
        words.shared.load::<LoadTurn>(&mut self.seat, 0)
    }

    /// Loads the counter, which is not below any that this pass loaded before.
    #[inline(always)]
    pub fn load_counter(&mut self, words: &Words) -> u64
        requires words { words.now.shared.table_id ≡ self.old.table }
        requires calling { self.old.view.calling ≡ true }
        ensures table { self.new.table ≡ self.old.table }
        ensures view { self.new.view ≡ counter_loaded result self.old.view }
        ensures small { result < 2 ^ 62 }
        ensures later { AllAtMost result self.old.view.counters }
    {
        words.shared.load::<LoadCounter>(&mut self.seat, 1)
    }

    /// Takes a note in: this pass has then seen at least as many ticks as the note's maker had.
    pub fn join_note(&mut self, words: &Words, note: NoteSeat)
        requires words { words.now.shared.table_id ≡ self.old.table }
        requires note { note.table ≡ self.old.table }
        ensures table { self.new.table ≡ self.old.table }
        ensures view { self.new.view ≡ learned self.old.view note.seen }
    {
        let NoteSeat { seat } = note;
        words.shared.join_seat::<TakePass>(&mut self.seat, seat);
    }
}
