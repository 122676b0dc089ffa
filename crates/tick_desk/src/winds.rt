// The parts of a windup, on the pen's seat.
ghost use Rattle.std.specs.Prelude.{◌≡◌, ◌<◌, ◌^◌, [], length, true, false, Some};
ghost use Rattle.ff_hands.specs.Journals.{Follows, IsSound};
ghost use Rattle.clock_lines.specs.Readings.{newest};
ghost use Rattle.tick_views.specs.Views.{turn_started, pen_counted};
ghost use Rattle.tick_table.specs.Steps.{LearnsCounter};
ghost use Rattle.tick_desk.specs.Winds.{Tested, Publishes};

use clock_core::Refuse;
use ff_hands::{Hands, Order};
use hand_words::sound_hands_pack;
use tick_table::{FIELDS, PenSeat, pack};

// Why an order is refused, if it is. The counter is loaded where it matters.
#[inline(always)]
pub(crate) fn refusal(seat: &mut PenSeat, last: &Hands, o: &Order) -> Option<Refuse>
    ensures table { seat.new.table ≡ seat.old.table }
    ensures tested { Tested seat.old.view seat.new.view last.now o.now result }
{
    let newest = last.est.update_ffcount;
    let update = match o {
        Order::Plain => return None,
        Order::Take(e) if e.update_ffcount <= newest => {
            return Some(Refuse::Stale { last: newest });
        }
        Order::Take(e) | Order::Reset(e) => e.update_ffcount,
    };
    let count = seat.load_counter();
    if update > count {
        return Some(Refuse::Ahead { count });
    }
    None
}

// Opens the turn word, and only then loads the counter, which is the tick's count: so no reading
// that the turn word lets pass is at a count past it.
#[inline(always)]
pub(crate) fn open(seat: &mut PenSeat) -> u64
    requires closed { seat.old.view.winding ≡ false }
    requires room { length seat.old.view.journal < 2 ^ 62 }
    ensures table { seat.new.table ≡ seat.old.table }
    ensures view { seat.new.view ≡ pen_counted result (turn_started seat.old.view) }
    ensures learns { LearnsCounter (turn_started seat.old.view) result }
{
    seat.start_turn();
    seat.load_counter()
}

#[inline(always)]
fn store_all(seat: &mut PenSeat, tick: u64, words: &[u64; FIELDS])
    requires winding { seat.old.view.winding ≡ true }
    requires marked { seat.old.view.marked ≡ true }
    requires unset { seat.old.view.set ≡ false }
    requires none { seat.old.view.stored ≡ [] }
    requires tick { tick ≡ length seat.old.view.journal }
    ensures table { seat.new.table ≡ seat.old.table }
    ensures view { seat.new.view ≡ record seat.old.view { stored = words.now } }
{
    for f in 0..FIELDS {
        seat.store_field(tick, f as u32, words[f]);
    }
}

// Writes the hands between the two stores of their mark, and closes the turn word.
#[inline(always)]
pub(crate) fn publish(seat: &mut PenSeat, tick: u64, h: &Hands)
    requires winding { seat.old.view.winding ≡ true }
    requires unmarked { seat.old.view.marked ≡ false }
    requires tick { tick ≡ length seat.old.view.journal }
    requires loaded { seat.old.view.loaded ≡ Some h.now.count }
    requires sound { IsSound h.now }
    requires follows { Follows (newest seat.old.view.journal) h.now }
    ensures table { seat.new.table ≡ seat.old.table }
    ensures published { Publishes seat.old.view seat.new.view h.now }
{
    sound_hands_pack();
    let words = pack(h);
    seat.start_mark(tick);
    store_all(seat, tick, &words);
    seat.set_mark(tick);
    seat.close_turn(h);
}
