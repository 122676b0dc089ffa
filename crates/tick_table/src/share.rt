// The table itself, and shares of it.
use crate::rule::Ticks;
use atomic_table::Table;
use std::alloc::Global;
use std::marker::Model;
use std::sync::Arc;
use tick_views::View;

/// The words under their rule. They stand in one block on the heap, and have no slots for other values.
pub type Words = Table<(), View, (), Ticks, Global>;

/// A share of a table, without a seat. Contracts see which table it is of.
#[derive(Drop)]
pub struct Share {
    pub(crate) table: Arc<Words, Global>,
}

impl Model for Share {
    ghost use Rattle.std.specs.Prelude.{◌≡◌};
    ghost use Rattle.std.specs.Arc.{arc_value};
    ghost use Rattle.atomic_table.specs.Seated.{TableId};

    ghost Value = { TableId };

    ghost view = { λ s. (arc_value s.table).shared.table_id };

    ghost invariant = { λ s. (arc_value s.table).shared.table_id.words ≡ 162 };
}

impl Share {
    ghost use Rattle.std.specs.Prelude.{◌≡◌};

    /// The words, to step on. Whoever holds this reference loads the share no more.
    pub fn words(&self) -> &Words
        ensures { result.now.shared.table_id ≡ self.now }
    {
        &self.table
    }
}
