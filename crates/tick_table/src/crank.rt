// The seat that raises the counter.
ghost use Rattle.std.specs.Prelude.{◌≡◌, ◌<◌, ◌≤◌, ◌^◌, ◌++◌, ◌∷◌, [], max};

use crate::rule::CrankUp;
use crate::share::Words;
use atomic_table::Seat;
use std::alloc::Global;
use std::marker::Model;
use std::sync::Arc;
use tick_views::View;

/// A seat that may raise the counter beside the pen, with a share of the table. Contracts see its
/// table, its top (the greatest count that it raised the counter to since it was lent), and the counter
/// as each of its raises left it.
#[derive(Drop)]
pub struct CrankSeat {
    pub(crate) table: Arc<Words, Global>,
    pub(crate) seat: Seat<(), View>,
}

impl Model for CrankSeat {
    ghost use Rattle.std.specs.Arc.{arc_value};
    ghost use Rattle.tick_table.specs.Sees.{CrankSees, IsCrank};
    ghost use Rattle.tick_views.specs.Views.{crank_of};

    ghost Value = { CrankSees };

    ghost view = { λ s. record { table = s.seat.table_id; top = (crank_of s.seat.me.0).top; met = (crank_of s.seat.me.0).met } };

    ghost invariant = { λ s. IsCrank s.seat.table_id (arc_value s.table).shared.table_id s.seat.me };
}

impl CrankSeat {
    /// Raises the counter to a count below 2^62, where it is not past it, by one step that takes the
    /// greater. The answer is the counter as that step left it.
    pub fn raise_counter(&mut self, to: u64) -> u64
        requires { to < 2 ^ 62 }
        ensures table { self.new.table ≡ self.old.table }
        ensures top { self.new.top ≡ max self.old.top to }
        ensures answer { self.new.met ≡ self.old.met ++ result ∷ [] }
        ensures most { self.new.top ≤ result }
        ensures small { result < 2 ^ 62 }
    {
        let old = self
            .table
            .shared
            .fetch_max::<CrankUp>(&mut self.seat, 1, to);
        old.max(to)
    }
}
