// What seats know. No value of these types is made: contracts alone speak of them.
use clock_logs::{Kept, Noted};
use ff_hands::Hands;
use std::collections::LinkedList;
use tick_reads::{Ask, Load};

/// A load of the mark of a tick's slot.
#[derive(Clone, Copy)]
pub struct MarkLoad {
    pub tick: u64,
    pub mark: u64,
}

/// What the pen knows: the seat of the publisher.
pub struct PenView {
    /// All ticks that were published.
    pub journal: LinkedList<Hands>,
    /// A windup stands open: the turn word is odd.
    pub winding: bool,
    /// It has started the mark of the next tick.
    pub marked: bool,
    /// It has set that mark, which is full.
    pub set: bool,
    /// The counter that it loaded, which will be the tick's count.
    pub loaded: Option<u64>,
    /// The fields that it stored, in their order.
    pub stored: LinkedList<u64>,
    /// The counters that the pen ever loaded.
    pub counters: LinkedList<u64>,
    /// The greatest count that the pen, or a crank that it took back, raised the counter to.
    pub top: u64,
    /// The counter as each raise of the pen left it, in order.
    pub met: LinkedList<u64>,
    /// A crank is out.
    pub out: bool,
    /// How many passes were ever made.
    pub made: u64,
    /// The passes that were taken in, in that order.
    pub kept: LinkedList<Kept>,
}

/// What a pass knows: the seat of a reader.
pub struct PassView {
    /// Its number, from 0.
    pub number: u64,
    /// How many ticks it has seen: one more than the newest tick that it knows to be published.
    pub seen: u64,
    /// The turn words that it ever loaded, in order.
    pub turns: LinkedList<u64>,
    /// The counters that it ever loaded, in order.
    pub counters: LinkedList<u64>,
    /// The marks that it ever loaded, in order.
    pub marks: LinkedList<MarkLoad>,
    /// A call stands open, which is not decided yet.
    pub calling: bool,
    /// What the last call asks for.
    pub ask: Ask,
    /// The loads of that call, in order.
    pub loads: LinkedList<Load>,
    /// What its calls were answered, in order.
    pub entries: LinkedList<Noted>,
}

/// What the crank knows.
pub struct CrankView {
    /// The greatest count that it raised the counter to since it was lent.
    pub top: u64,
    /// The counter as each raise of it left it, in order.
    pub met: LinkedList<u64>,
}

/// What a seat knows.
pub enum View {
    Pen(PenView),
    Pass(PassView),
    Crank(CrankView),
    /// How many ticks the maker of the note had seen.
    Note(u64),
    /// The seat was joined to another one.
    Spent,
}
