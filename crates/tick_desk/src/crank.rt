// What drives the counter beside the pen.
ghost use Rattle.std.specs.Prelude.{◌≡◌, ◌<◌, ◌≤◌, ◌^◌, ◌++◌, ◌∷◌, [], max};

use std::marker::Model;
use tick_table::CrankSeat;

/// Raises the counter, from a thread of its own if need be. The pen lends one at a time.
///
/// Contracts see its table, its top (the greatest count that it raised the counter to since it was
/// lent), and the counter as each of its raises left it.
#[derive(Drop)]
pub struct Crank {
    pub(crate) seat: CrankSeat,
    pub(crate) top: u64,
}

impl Model for Crank {
    ghost use Rattle.std.specs.Prelude.{◌≡◌};
    ghost use Rattle.tick_table.specs.Sees.{CrankSees};

    ghost Value = { CrankSees };

    ghost view = { λ c. c.seat };

    ghost invariant = { λ c. c.top ≡ c.seat.top };
}

impl Crank {
    /// Raises the counter to a count below 2^62, where it is not past it. It never falls. The
    /// answer is the counter as this raise left it.
    pub fn raise(&mut self, to: u64) -> u64
        requires { to < 2 ^ 62 }
        ensures after { self.new ≡
            record self.old { top = max self.old.top to; met = self.old.met ++ result ∷ [] } }
        ensures reached { self.new.top ≤ result }
        ensures small { result < 2 ^ 62 }
    {
        self.top = self.top.max(to);
        self.seat.raise_counter(to)
    }
}
