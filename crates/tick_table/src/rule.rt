// The rule of the words, and what each step tells. These types name the definitions, and have no
// values.
ghost use Rattle.tick_reads.specs.declared.loads.Ask.{Ask};
ghost use Rattle.tick_views.specs.Views.{no_ask};

use atomic_table::{Join, Play, Split, TableRule};
use std::marker::{Brand, PhantomData};
use tick_views::View;

/// The rule: the words stand for what the pen knows, and each other seat's view fits.
pub struct Ticks;

impl TableRule<(), View, ()> for Ticks {
    ghost use Rattle.tick_table.specs.Rule.{Rule};
    ghost use Rattle.tick_views.specs.Views.{pen_first};
    ghost use Rattle.tick_views.specs.declared.views.View.TheVariants.{Pen};

    ghost holds = { λ _. Rule };

    ghost first = { λ _. Pen pen_first };
}

pub(crate) struct StartTurn;

impl Play<(), View> for StartTurn {
    ghost use Rattle.tick_table.specs.Steps.{Starts};

    ghost then = { Starts };
}

pub(crate) struct StartMark;

impl Play<(), View> for StartMark {
    ghost use Rattle.tick_table.specs.Steps.{StartsMark};

    ghost then = { StartsMark };
}

pub(crate) struct SetMark;

impl Play<(), View> for SetMark {
    ghost use Rattle.tick_table.specs.Steps.{SetsMark};

    ghost then = { SetsMark };
}

pub(crate) struct StoreField;

impl Play<(), View> for StoreField {
    ghost use Rattle.tick_table.specs.Steps.{Stores};

    ghost then = { Stores };
}

pub(crate) struct CloseTurn;

impl Play<(), View> for CloseTurn {
    ghost use Rattle.tick_table.specs.Steps.{Closes};

    ghost then = { Closes };
}

// What a call asks for. The proof of the call picks it, since the step is a plain load, which has no
// operand: so a reader writes no shared word.
pub(crate) trait Asking {
    ghost ask: { Ask };
}

impl Asking for Brand {
    ghost ask = { no_ask };
}

pub(crate) struct OpenCall<A> {
    marker: PhantomData<A>,
}

impl<A: Asking> Play<(), View> for OpenCall<A> {
    ghost use Rattle.tick_table.specs.Steps.{Opens};

    ghost then = { Opens A.ask };
}

pub(crate) struct LoadMark;

impl Play<(), View> for LoadMark {
    ghost use Rattle.tick_table.specs.Steps.{LoadsMark};

    ghost then = { LoadsMark };
}

pub(crate) struct LoadField;

impl Play<(), View> for LoadField {
    ghost use Rattle.tick_table.specs.Steps.{LoadsField};

    ghost then = { LoadsField };
}

pub(crate) struct LoadOwnTurn;

impl Play<(), View> for LoadOwnTurn {
    ghost use Rattle.tick_table.specs.Steps.{LoadsOwnTurn};

    ghost then = { LoadsOwnTurn };
}

pub(crate) struct LoadTurn;

impl Play<(), View> for LoadTurn {
    ghost use Rattle.tick_table.specs.Steps.{LoadsTurn};

    ghost then = { LoadsTurn };
}

pub(crate) struct LoadCounter;

impl Play<(), View> for LoadCounter {
    ghost use Rattle.tick_table.specs.Steps.{LoadsCounter};

    ghost then = { LoadsCounter };
}

pub(crate) struct LoadOwnCounter;

impl Play<(), View> for LoadOwnCounter {
    ghost use Rattle.tick_table.specs.Steps.{LoadsOwnCounter};

    ghost then = { LoadsOwnCounter };
}

pub(crate) struct Raise;

impl Play<(), View> for Raise {
    ghost use Rattle.tick_table.specs.Steps.{Raises};

    ghost then = { Raises };
}

pub(crate) struct CrankUp;

impl Play<(), View> for CrankUp {
    ghost use Rattle.tick_table.specs.Steps.{Cranks};

    ghost then = { Cranks };
}

pub(crate) struct CutNote;

impl Split<View> for CutNote {
    ghost use Rattle.tick_views.specs.Views.{noted_cut};

    ghost left = { λ v. v };

    ghost right = { noted_cut };
}

pub(crate) struct CutCrank;

impl Split<View> for CutCrank {
    ghost use Rattle.tick_views.specs.Views.{on_pen, crank_lent, crank_cut};

    ghost left = { on_pen crank_lent };

    ghost right = { crank_cut };
}

pub(crate) struct CutPass;

impl Split<View> for CutPass {
    ghost use Rattle.tick_views.specs.Views.{on_pen, pass_made, pass_cut};

    ghost left = { on_pen pass_made };

    ghost right = { pass_cut };
}

pub(crate) struct TakePass;

impl Join<View> for TakePass {
    ghost use Rattle.tick_views.specs.Views.{taken};
    ghost use Rattle.tick_views.specs.declared.views.View.TheVariants.{Spent};

    ghost both = { taken };

    ghost spent = { Spent };
}
