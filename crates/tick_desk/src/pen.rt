// The publisher.
ghost use Rattle.std.specs.Prelude.{◌≡◌, ◌+◌, ◌<◌, ◌≤◌, ◌^◌, ℕ, true, false, length, map, max, [], ◌∷◌, ◌++◌, slice_get, Some, IfOk, IfSome, OnOk, OnErr, IsOk, IsNone, IsSome};
ghost use Rattle.ff_hands.specs.Orders.{is_sane};
ghost use Rattle.ff_hands.specs.Journals.{IsJournal, IsSound};
ghost use Rattle.ff_hands.specs.declared.hands.Hands.{Hands};
ghost use Rattle.clock_lines.specs.Readings.{newest};
ghost use Rattle.tick_views.specs.Views.{kept_of, new_pass};
ghost use Rattle.tick_views.specs.Worlds.{AllAtMost};
ghost use Rattle.clock_core.specs.Machines.{ReadsNow};
ghost use Rattle.tick_desk.specs.Shows.{new_pen};
ghost use Rattle.tick_desk.specs.Winds.{IsCounter, Lends, ReadsNewest, Winds};
ghost use Rattle.ff_hands.specs.Windups.{cold};
ghost use Rattle.tick_table.specs.Rule.{IsOnce};
ghost use Rattle.clock_logs.specs.declared.noted.Kept.{Kept};
ghost use Rattle.tick_laws.specs.Logs.{IsKeptLegal};

use crate::crank::Crank;
use crate::note::Note;
use crate::pass::Pass;
use crate::reads::reading;
use crate::winds::{open, publish, refusal};
use clock_core::Refuse;
use clock_lines::{Kind, Reading};
use ff_grain::NoMemory;
use ff_hands::{Hands, Order, cold, wind};
use std::alloc::Global;
use std::marker::Model;
use tick_table::{PenSeat, Share};

/// A journal has at most so many ticks, for their numbers have to fit into the words.
const MOST_TICKS: usize = 1 << 62;

/// The publisher of a clock: it winds the clock, and keeps what the passes that came back were
/// answered.
///
/// Contracts see its table, its journal, for how many more ticks it has room, the counters that it
/// loaded, its top (the greatest count that it, or a crank that it took back, raised the counter
/// to), the counter as each raise of its own left it, whether a crank is out, how many passes were ever made, and what it kept of those that it
/// took in.
#[derive(Drop)]
pub struct Pen {
    seat: PenSeat,
    ticks: Vec<Hands>,
    top: u64,
    out: bool,
    made: u64,
}

impl Model for Pen {
    ghost use Rattle.std.specs.Prelude.{◌-◌};
    ghost use Rattle.std.specs.Vec.{vec_len, vec_capacity};
    ghost use Rattle.tick_desk.specs.Shows.{PenShows, PenHolds, room_of};

    ghost Value = { PenShows };

    ghost view = { λ p. record {
      table = p.seat.table;
      journal = p.ticks.items;
      spare = room_of (vec_capacity p.ticks) - vec_len p.ticks;
      counters = p.seat.view.counters;
      top = p.top;
      met = p.seat.view.met;
      out = p.out;
      made = p.made;
      kept = p.seat.view.kept;
    } };

    ghost invariant = { λ p. PenHolds p.seat.view p.ticks.items p.top p.out p.made };
}

// The newest tick, where it stands.
#[inline(always)]
fn newest(ticks: &Vec<Hands>) -> &Hands
    requires { IsJournal ticks.now.items }
    ensures value { result.now ≡ newest ticks.now.items }
    ensures sound { IsSound result.now }
{
    match ticks.last() {
        Some(h) => h,
        None => unreachable!(),
    }
}

impl Pen {
    // The pen of a clock that was never set. Want of memory is the only error.
    pub(crate) fn new(alloc: Global) -> Result<Pen, NoMemory>
        ensures { IfOk result (λ p. p ≡ new_pen p.table p.spare [] []) }
    {
        let seat = PenSeat::new(alloc)?;
        let mut ticks = Vec::new(alloc);
        ticks.push(cold())?;
        Ok(Pen {
            seat,
            ticks,
            top: 0,
            out: false,
            made: 0,
        })
    }

    /// Makes room for at least `n` more ticks. Journal and room together are never more than 2^62
    /// ticks.
    ///
    /// Want of memory is the only error, also where the wish is for more than that, and then
    /// nothing has changed. It does not come where there is such room already.
    pub fn reserve(&mut self, n: usize) -> Result<(), NoMemory>
        ensures room { OnOk result (n ≤ self.new.spare) }
        ensures kept { self.new ≡ record self.old { spare = self.new.spare } }
        ensures grows { self.old.spare ≤ self.new.spare }
        ensures refused { OnErr result (self.new ≡ self.old) }
        ensures succeeds { n ≤ self.old.spare → IsOk result }
        ensures most { length self.new.journal + self.new.spare ≤ 2 ^ 62 }
    {
        if n > MOST_TICKS - self.ticks.len() {
            return Err(NoMemory);
        }
        self.ticks.reserve(n)?;
        Ok(())
    }

    /// Raises the counter to a count below 2^62, where it is not past it. It never falls. The
    /// answer is the counter as this raise left it.
    #[inline(always)]
    pub fn advance(&mut self, to: u64) -> u64
        requires { to < 2 ^ 62 }
        ensures after { self.new ≡
            record self.old { top = max self.old.top to; met = self.old.met ++ result ∷ [] } }
        ensures counter { IsCounter self.new result }
    {
        self.top = self.top.max(to);
        self.seat.raise_counter(to)
    }

    /// Winds the clock by an order, at the counter. There has to be room for one more tick, and the
    /// order has to be sane. The answer is the number of the new tick.
    ///
    /// An estimate to take is `Stale` where its update count is at most that of the newest
    /// estimate, and the counter is not looked at. Else an estimate is `Ahead` where its update
    /// count is above the counter, which is loaded for that, and told. After either nothing has
    /// changed. Else the turn word is opened and the counter is loaded, as the new tick's count.
    /// After FreeBSD's `ffclock_windup`.
    #[inline(always)]
    pub fn wind(&mut self, o: Order) -> Result<u64, Refuse>
        requires sane { is_sane o ≡ true }
        requires spare { 1 ≤ self.old.spare }
        ensures { Winds self.old self.new o result }
    {
        let last = newest(&self.ticks);
        let tick = self.ticks.len() as u64;
        if let Some(why) = refusal(&mut self.seat, last, &o) {
            return Err(why);
        }
        let count = open(&mut self.seat);
        let hands = wind(last, count, &o);
        publish(&mut self.seat, tick, &hands);
        self.ticks.push_reserved(hands);
        Ok(tick)
    }

    /// What the clock reads now, by the newest tick: at the counter, which is loaded, or for `Fast`
    /// at the tick's own count. It is never `Again`. The kind is `Abs`, `Mono`, `Uptime` or `Fast`.
    pub fn read(&mut self, kind: Kind) -> Reading
        requires { ReadsNow kind }
        ensures { ReadsNewest self.old self.new kind result }
    {
        let last = newest(&self.ticks);
        let counter = self.seat.load_counter();
        let count = match kind {
            Kind::Fast => last.count,
            Kind::Diff | Kind::Back | Kind::Utc => unreachable!(),
            Kind::Abs | Kind::Mono | Kind::Uptime => counter,
        };
        reading(kind, self.ticks.len() as u64 - 1, last, count)
    }

    /// A note of the whole journal.
    pub fn note(&mut self) -> Note
        ensures same { self.new ≡ self.old }
        ensures table { result.table ≡ self.old.table }
        ensures seen { result.seen ≡ length self.old.journal }
    {
        Note {
            seat: self.seat.split_note(),
        }
    }

    // One more share of the table, for a new pass. Want of memory is the only error.
    pub(crate) fn share(&self) -> Result<Share, NoMemory>
        ensures { IfOk result (λ t. t ≡ self.now.table) }
    {
        self.seat.share()
    }

    // A new pass, with the next number, by a share of this table.
    pub(crate) fn pass_by(&mut self, share: Share) -> Pass
        requires table { share ≡ self.old.table }
        requires few { self.old.made < 2 ^ 62 }
        ensures after { self.new ≡ record self.old { made = self.old.made + 1 } }
        ensures pass { result ≡ record {
          table = self.old.table;
          view = new_pass self.old.made (length self.old.journal);
        } }
    {
        self.made += 1;
        Pass {
            share,
            seat: self.seat.split_pass(),
        }
    }

    /// Takes a pass of this table in, and keeps what it was answered, which is legal over the
    /// journal.
    ///
    /// Each entry is what the journal allows, and current at the turn word that its call loaded
    /// first; the counts of its readings, but for intervals, are below 2^62, and while no crank is
    /// out at most the pen's top. So is each counter that the pass loaded. What was kept of the passes before is legal over the journal as it
    /// stands now, too, so all that is kept can be compared. No two passes that were taken in have
    /// one number.
    pub fn take_in(&mut self, pass: Pass)
        requires { pass.table ≡ self.old.table }
        ensures after { self.new ≡
            record self.old { kept = self.old.kept ++ kept_of pass.view ∷ [] } }
        ensures legal { IsKeptLegal self.old.journal self.old.top self.old.out (kept_of pass.view) }
        ensures counters { self.old.out ≡ false → AllAtMost self.old.top pass.view.counters }
        ensures all { (i : ℕ) (k : Kept) → slice_get self.new.kept i ≡ Some k →
            IsKeptLegal self.old.journal self.old.top self.old.out k }
        ensures once { IsOnce self.new.kept }
    {
        let Pass { share: _, seat } = pass;
        self.seat.join_pass(seat);
        self.seat.load_turn();
    }

    /// Lends the crank, where it is not out. It has raised the counter to nothing yet.
    pub fn lend(&mut self) -> Option<Crank>
        ensures none { IsNone result → (self.old.out ≡ true) × (self.new ≡ self.old) }
        ensures some { IfSome result (λ c. Lends self.old self.new c) }
    {
        if self.out {
            return None;
        }
        self.out = true;
        Some(Crank {
            seat: self.seat.split_crank(),
            top: 0,
        })
    }

    /// Takes the crank of this table back. The top is then the greater of both tops, and no tick's
    /// count is above it, nor any count that the passes taken in have shown.
    pub fn take_back(&mut self, crank: Crank)
        requires { crank.table ≡ self.old.table }
        ensures after { self.new ≡
            record self.old { top = max self.old.top crank.top; out = false } }
        ensures most { (k : ℕ) (h : Hands) →
            slice_get self.new.journal k ≡ Some h → h.count ≤ self.new.top }
        ensures all { (i : ℕ) (k : Kept) → slice_get self.new.kept i ≡ Some k →
            IsKeptLegal self.new.journal self.new.top false k }
    {
        let Crank { seat, top } = crank;
        self.out = false;
        self.top = self.top.max(top);
        self.seat.join_crank(seat);
        self.seat.load_turn();
    }

    /// The journal of all ticks.
    pub fn journal(&self) -> &[Hands]
        ensures value { result.now ≡ self.now.journal }
        ensures journal { IsJournal result.now }
    {
        self.ticks.as_slice()
    }

    // Whether nothing was done with this pen.
    pub(crate) fn is_fresh(&self) -> bool
        ensures fresh { result ≡ true →
            self.now ≡ new_pen self.now.table self.now.spare self.now.counters self.now.met }
        ensures exact { (self.now.journal ≡ cold ∷ []) × (self.now.top ≡ 0) ×
            (self.now.out ≡ false) × (self.now.made ≡ 0) → result ≡ true }
    {
        if self.ticks.len() > 1 || self.top > 0 || self.made > 0 {
            return false;
        }
        !self.out
    }
}
