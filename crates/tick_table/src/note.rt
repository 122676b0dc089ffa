// Notes.
use atomic_table::Seat;
use std::marker::Model;
use tick_views::View;

/// A seat that tells a pass how many ticks its maker had seen, without a share of the table. It can
/// only be joined. Contracts see its table and that number.
#[derive(Drop)]
pub struct NoteSeat {
    pub(crate) seat: Seat<(), View>,
}

impl Model for NoteSeat {
    ghost use Rattle.tick_table.specs.Sees.{NoteSees, IsNote};
    ghost use Rattle.tick_views.specs.Views.{note_of};

    ghost Value = { NoteSees };

    ghost view = { λ s. record { table = s.seat.table_id; seen = note_of s.seat.me.0 } };

    ghost invariant = { λ s. IsNote s.seat.me };
}
