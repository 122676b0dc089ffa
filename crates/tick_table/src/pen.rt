// The publisher's seat.
ghost use Rattle.std.specs.Prelude.{◌≡◌, ◌+◌, ◌-◌, ◌<◌, ◌≤◌, ◌^◌, ◌++◌, ◌∷◌, [], length, true, false, OnOk, IfOk, Some};
ghost use Rattle.ff_hands.specs.Journals.{Follows};
ghost use Rattle.clock_lines.specs.Readings.{newest};
ghost use Rattle.hand_words.specs.Words.{pack};
ghost use Rattle.tick_views.specs.Views.{pen_first, turn_started, mark_started, field_stored, mark_set, turn_closed, pen_counted, top_raised, crank_lent, crank_taken, pass_made, new_pass, pass_taken};
ghost use Rattle.tick_table.specs.Rule.{turn_now};
ghost use Rattle.tick_table.specs.Steps.{LearnsCounter, LegalLogs};

use crate::crank::CrankSeat;
use crate::note::NoteSeat;
use crate::pass::PassSeat;
use crate::rule::{
    CloseTurn, CutCrank, CutNote, CutPass, LoadOwnCounter, LoadOwnTurn, Raise, SetMark, StartMark,
    StartTurn, StoreField, TakePass,
};
use crate::share::{Share, Words};
use atomic_table::{Seat, Table};
use ff_grain::NoMemory;
use ff_hands::{Hands, fits_words};
use std::alloc::Global;
use std::marker::Model;
use std::sync::Arc;
use tick_views::View;

/// The seat of the publisher, with a share of the table. Contracts see its table and its view.
///
/// A windup makes its steps in one order: `start_turn`, `load_counter`, `start_mark`, `store_field`
/// fifteen times, `set_mark`, `close_turn`, all for the tick after the newest. The journal gains the
/// tick at the last of them.
#[derive(Drop)]
pub struct PenSeat {
    table: Arc<Words, Global>,
    seat: Seat<(), View>,
    // The number of the newest tick.
    last: u64,
    // The crank's share, while it is not out. So to lend the crank takes no memory.
    spare: Option<Share>,
}

impl Model for PenSeat {
    ghost use Rattle.std.specs.Arc.{arc_value};
    ghost use Rattle.tick_table.specs.Sees.{PenSees, IsPen};
    ghost use Rattle.tick_views.specs.Views.{pen_of};

    ghost Value = { PenSees };

    ghost view = { λ s. record { table = s.seat.table_id; view = pen_of s.seat.me.0 } };

    ghost invariant = { λ s. IsPen s.seat.table_id (arc_value s.table).shared.table_id s.seat.id s.seat.me s.last s.spare };
}

// The words at the start: the turn word and the counter are 0, and slot 0 has the full mark of tick 0
// and the cold hands, whose packed word is 261.
pub(crate) const FIRST: [u64; 162] = [
    0, 0, 2, 0, 0, 0, 0, 0, 0, 0, 0, 0, 0, 0, 0, 0, 0, 261, 0, 0, 0, 0, 0, 0, 0, 0, 0, 0, 0, 0, 0,
    0, 0, 0, 0, 0, 0, 0, 0, 0, 0, 0, 0, 0, 0, 0, 0, 0, 0, 0, 0, 0, 0, 0, 0, 0, 0, 0, 0, 0, 0, 0, 0,
    0, 0, 0, 0, 0, 0, 0, 0, 0, 0, 0, 0, 0, 0, 0, 0, 0, 0, 0, 0, 0, 0, 0, 0, 0, 0, 0, 0, 0, 0, 0, 0,
    0, 0, 0, 0, 0, 0, 0, 0, 0, 0, 0, 0, 0, 0, 0, 0, 0, 0, 0, 0, 0, 0, 0, 0, 0, 0, 0, 0, 0, 0, 0, 0,
    0, 0, 0, 0, 0, 0, 0, 0, 0, 0, 0, 0, 0, 0, 0, 0, 0, 0, 0, 0, 0, 0, 0, 0, 0, 0, 0, 0, 0, 0, 0, 0,
    0, 0, 0,
];

impl PenSeat {
    /// A table with the cold hands alone, and its pen. Want of memory is the only error.
    pub fn new(alloc: Global) -> Result<PenSeat, NoMemory>
        ensures { IfOk result (λ p. p.view ≡ pen_first) }
    {
        let (table, seat) = Table::of_words(alloc, &FIRST, &())?;
        let table = Arc::new(alloc, table)?;
        let spare = Arc::try_clone(&table)?;
        Ok(PenSeat {
            table,
            seat,
            last: 0,
            spare: Some(Share { table: spare }),
        })
    }

    /// Opens the turn word. The journal has fewer than 2^62 ticks.
    #[inline(always)]
    pub fn start_turn(&mut self)
        requires closed { self.old.view.winding ≡ false }
        requires room { length self.old.view.journal < 2 ^ 62 }
        ensures table { self.new.table ≡ self.old.table }
        ensures view { self.new.view ≡ turn_started self.old.view }
    {
        let turn = 2 * self.last + 1;
        self.table
            .shared
            .store::<StartTurn>(&mut self.seat, 0, turn);
    }

    /// Marks the slot of tick `tick`, which is the next one, as being written.
    #[inline(always)]
    pub fn start_mark(&mut self, tick: u64)
        requires winding { (self.old.view.winding ≡ true) × (self.old.view.marked ≡ false) }
        requires next { tick ≡ length self.old.view.journal }
        ensures table { self.new.table ≡ self.old.table }
        ensures view { self.new.view ≡ mark_started self.old.view }
    {
        let mark = 2 + 16 * (tick % 10) as usize;
        self.table
            .shared
            .store::<StartMark>(&mut self.seat, mark, 2 * tick + 1);
    }

    /// Stores field `field` of tick `tick`, which is the next one. The fields are stored in their
    /// order, from 0 to 14.
    #[inline(always)]
    pub fn store_field(&mut self, tick: u64, field: u32, word: u64)
        requires winding { (self.old.view.marked ≡ true) × (self.old.view.set ≡ false) }
        requires open { self.old.view.winding ≡ true }
        requires tick { tick ≡ length self.old.view.journal }
        requires next { (field ≡ length self.old.view.stored) × (field < 15) }
        ensures table { self.new.table ≡ self.old.table }
        ensures view { self.new.view ≡ field_stored word self.old.view }
    {
        let at = 2 + 16 * (tick % 10) as usize + 1 + field as usize;
        self.table
            .shared
            .store::<StoreField>(&mut self.seat, at, word);
    }

    /// Marks the slot of tick `tick`, which is the next one, as whole.
    #[inline(always)]
    pub fn set_mark(&mut self, tick: u64)
        requires winding { (self.old.view.winding ≡ true) × (self.old.view.marked ≡ true) }
        requires whole { length self.old.view.stored ≡ 15 }
        requires next { tick ≡ length self.old.view.journal }
        ensures table { self.new.table ≡ self.old.table }
        ensures view { self.new.view ≡ mark_set self.old.view }
    {
        let mark = 2 + 16 * (tick % 10) as usize;
        self.table
            .shared
            .store::<SetMark>(&mut self.seat, mark, 2 * tick + 2);
    }

    /// Closes the turn word, by which the tick is published. The hands are what a windup of the newest
    /// ones makes at the counter that was loaded, and the stored words are theirs.
    #[inline(always)]
    pub fn close_turn(&mut self, h: &Hands)
        requires winding { (self.old.view.winding ≡ true) × (self.old.view.set ≡ true) }
        requires stored { self.old.view.stored ≡ pack h.now }
        requires loaded { self.old.view.loaded ≡ Some h.now.count }
        requires follows { Follows (newest self.old.view.journal) h.now }
        ensures table { self.new.table ≡ self.old.table }
        ensures view { self.new.view ≡ turn_closed self.old.view }
        ensures journal { self.new.view.journal ≡ self.old.view.journal ++ h.now ∷ [] }
    {
        fits_words(*h);
        let turn = 2 * self.last + 2;
        self.table
            .shared
            .store::<CloseTurn>(&mut self.seat, 0, turn);
        self.last += 1;
    }

    /// Loads the turn word. What the pen kept of the passes that it took in is then told to be legal
    /// over its journal.
    pub fn load_turn(&mut self) -> u64
        ensures same { self.new ≡ self.old }
        ensures value { result ≡ turn_now self.old.view }
        ensures legal { LegalLogs self.old.view }
    {
        self.table.shared.load::<LoadOwnTurn>(&mut self.seat, 0)
    }

    /// Loads the counter. While a windup is open, it is the count of its tick.
    #[inline(always)]
    pub fn load_counter(&mut self) -> u64
        ensures table { self.new.table ≡ self.old.table }
        ensures view { self.new.view ≡ pen_counted result self.old.view }
        ensures learns { LearnsCounter self.old.view result }
    {
        self.table.shared.load::<LoadOwnCounter>(&mut self.seat, 1)
    }

    /// Raises the counter to a count below 2^62, where it is not past it, by one step that takes the
    /// greater. The answer is the counter as that step left it.
    #[inline(always)]
    pub fn raise_counter(&mut self, to: u64) -> u64
        requires { to < 2 ^ 62 }
        ensures table { self.new.table ≡ self.old.table }
        ensures view { self.new.view ≡ top_raised to result self.old.view }
        ensures learns { LearnsCounter self.new.view result }
    {
        let old = self.table.shared.fetch_max::<Raise>(&mut self.seat, 1, to);
        old.max(to)
    }

    /// One more share of the table. No step is made. Want of memory is the only error.
    pub fn share(&self) -> Result<Share, NoMemory>
        ensures { IfOk result (λ t. t ≡ self.now.table) }
    {
        let table = Arc::try_clone(&self.table)?;
        Ok(Share { table })
    }

    /// A note of the whole journal.
    pub fn split_note(&mut self) -> NoteSeat
        ensures same { self.new ≡ self.old }
        ensures table { result.table ≡ self.old.table }
        ensures seen { result.seen ≡ length self.old.view.journal }
    {
        let seat = self.table.shared.split_seat::<CutNote>(&mut self.seat);
        NoteSeat { seat }
    }

    /// A new pass, with the next number. It has seen all ticks so far.
    pub fn split_pass(&mut self) -> PassSeat
        ensures table { self.new.table ≡ self.old.table }
        ensures view { self.new.view ≡ pass_made self.old.view }
        ensures same { result.table ≡ self.old.table }
        ensures pass { result.view ≡ new_pass self.old.view.made (length self.old.view.journal) }
    {
        let seat = self.table.shared.split_seat::<CutPass>(&mut self.seat);
        PassSeat { seat }
    }

    /// Takes a pass of this table in, and keeps what it was answered.
    pub fn join_pass(&mut self, pass: PassSeat)
        requires { pass.table ≡ self.old.table }
        ensures table { self.new.table ≡ self.old.table }
        ensures view { self.new.view ≡ pass_taken self.old.view pass.view }
    {
        let PassSeat { seat } = pass;
        self.table
            .shared
            .join_seat::<TakePass>(&mut self.seat, seat);
    }

    /// Lends the crank, where it is not out. It has raised the counter to nothing yet.
    pub fn split_crank(&mut self) -> CrankSeat
        requires home { self.old.view.out ≡ false }
        ensures table { self.new.table ≡ self.old.table }
        ensures view { self.new.view ≡ crank_lent self.old.view }
        ensures crank { (result.table ≡ self.old.table) × (result.top ≡ 0) × (result.met ≡ []) }
    {
        let Some(share) = self.spare.take() else {
            unreachable!()
        };
        let Share { table } = share;
        let seat = self.table.shared.split_seat::<CutCrank>(&mut self.seat);
        CrankSeat { table, seat }
    }

    /// Takes the crank of this table back. The top is then the greater of both tops.
    pub fn join_crank(&mut self, crank: CrankSeat)
        requires { crank.table ≡ self.old.table }
        ensures table { self.new.table ≡ self.old.table }
        ensures view { self.new.view ≡ crank_taken self.old.view crank.top }
    {
        let CrankSeat { table, seat } = crank;
        self.table
            .shared
            .join_seat::<TakePass>(&mut self.seat, seat);
        self.spare = Some(Share { table });
    }
}
