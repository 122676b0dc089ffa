// What a pen tells a pass.
use std::marker::Model;
use tick_table::NoteSeat;

/// A note of all ticks that its maker had seen, for a pass of the same table to learn.
///
/// Contracts see its table, and how many ticks that were.
#[derive(Drop)]
pub struct Note {
    pub(crate) seat: NoteSeat,
}

impl Model for Note {
    ghost use Rattle.tick_table.specs.Sees.{NoteSees};

    ghost Value = { NoteSees };

    ghost view = { λ n. n.seat };
}
