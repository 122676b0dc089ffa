// A reader.
ghost use Rattle.std.specs.Prelude.{◌≡◌, ◌≤◌};
ghost use Rattle.tick_views.specs.Views.{learned};

use crate::note::Note;
use std::marker::Model;
use tick_table::{PassSeat, Share};

/// A reader of the clock. It never waits, takes no memory and writes nothing that others see.
///
/// Contracts see its table and its view: its number, how many ticks it has seen, the turn words,
/// counters and marks that it ever loaded, the loads of its last call, and its entries, each with
/// the turn word that its call loaded first.
#[derive(Drop)]
pub struct Pass {
    pub(crate) share: Share,
    pub(crate) seat: PassSeat,
}

impl Model for Pass {
    ghost use Rattle.std.specs.Prelude.{◌≡◌};
    ghost use Rattle.tick_table.specs.Sees.{PassSees};

    ghost Value = { PassSees };

    ghost view = { λ p. p.seat };

    ghost invariant = { λ p. p.share ≡ p.seat.table };
}

impl Pass {
    /// Learns a note of its table: all that its maker had seen, this pass has then seen too. So the
    /// later reads of this pass are by ticks that are not before those.
    pub fn learn(&mut self, note: Note)
        requires { note.table ≡ self.old.table }
        ensures after { self.new ≡ record self.old { view = learned self.old.view note.seen } }
        ensures seen { note.seen ≤ self.new.view.seen }
        ensures kept { self.old.view.seen ≤ self.new.view.seen }
    {
        let Note { seat } = note;
        self.seat.join_note(self.share.words(), seat);
    }
}
