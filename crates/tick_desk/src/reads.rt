// Reads.
ghost use Rattle.std.specs.Prelude.{◌≡◌, ◌/◌, ◌<◌, ◌≤◌, ◌^◌, ◌+◌, ◌∷◌, ℕ, true, false, []};
ghost use Rattle.ff_hands.specs.Journals.{IsSound};
ghost use Rattle.clock_logs.specs.Legal.{full, quick, way_of};
ghost use Rattle.clock_lines.specs.declared.readings.Kind.TheVariants as kind;
ghost use Rattle.clock_lines.specs.Readings.{reading_at};
ghost use Rattle.clock_lines.specs.Values.{MayRead};
ghost use Rattle.tick_reads.specs.declared.loads.Load.TheVariants.{Turn};
ghost use Rattle.tick_reads.specs.Ways.{count_by};
ghost use Rattle.tick_laws.specs.Goes.{Calls, Answers, IsStarted, ask_of, ask_diff};
ghost use Rattle.tick_desk.specs.Answers.{IsReadable, Adds, Finishes, IsEntryBy, IsLate, entry_by, hands_of};

use crate::looks::{load_fields, look_at};
use crate::pass::Pass;
use clock_lines::{Kind, Reading, bound, value};
use ff_hands::Hands;
use std::marker::Model;
use std::snapshot::Snapshot;
use tick_reads::Ask;
use tick_table::unpack;

/// What a read comes to.
#[derive(Clone, Copy, Debug, PartialEq, Eq)]
pub enum Answer {
    /// All of it is by the hands of one published tick.
    Read(Reading),
    /// A windup stood open or came between: the value that was met first, and the one that was met
    /// then. The caller may ask again.
    Again { first: u64, last: u64 },
}

/// A read of which only the turn word was loaded: its kind, and that word.
#[derive(Drop)]
pub struct Begun {
    pub kind: Kind,
    pub first: u64,
    // The pass as it was left. It has no bytes.
    pass: Snapshot<Pass>,
}

impl Model for Begun {
    ghost use Rattle.tick_desk.specs.Answers.{BegunShows, IsBegun};

    ghost Value = { BegunShows };

    ghost view = { λ b. record { kind = b.kind; first = b.first; pass = b.pass.value } };

    ghost invariant = { λ b. IsBegun
        record { kind = b.kind; first = b.first; pass = b.pass.value } };
}

#[inline(always)]
pub(crate) fn reading(kind: Kind, tick: u64, hands: &Hands, count: u64) -> Reading
    requires sound { IsSound hands.now }
    requires most { count < 2 ^ 62 }
    requires place { MayRead kind hands.now.count count }
    ensures { result ≡ reading_at hands.now tick kind count }
{
    Reading {
        kind,
        tick,
        count,
        time: value(hands, kind, count),
        bound: bound(hands, kind, count),
    }
}

// The count of a read that needs no counter: the tick's own, or the interval that was given.
#[inline(always)]
fn quick_count(ask: Ask, hands: &Hands) -> u64
    requires way { way_of ask.kind ≡ quick }
    requires sound { IsSound hands.now }
    requires most { ask.given < 2 ^ 62 }
    ensures value { result ≡ count_by ask.kind ask.given hands.now 0 }
    ensures most { result < 2 ^ 62 }
    ensures place { MayRead ask.kind hands.now.count result }
{
    match ask.kind {
        Kind::Fast => hands.count,
        Kind::Diff => ask.given,
        Kind::Abs | Kind::Mono | Kind::Uptime | Kind::Back | Kind::Utc => unreachable!(),
    }
}

impl Pass {
    /// Begins a read: loads the turn word, and nothing else. The kind is not `Diff` or `Back`.
    ///
    /// Where the turn word is odd a windup stands open, and all kinds but `Fast` are decided by it:
    /// the entry, which is `Again`, is noted here. Any other read goes on by `finish`.
    #[inline(always)]
    pub fn begin(&mut self, kind: Kind) -> Begun
        requires { IsReadable kind }
        ensures kind { result.kind ≡ kind }
        ensures pass { result.pass ≡ self.new }
        ensures table { self.new.table ≡ self.old.table }
        ensures calls { Calls self.old.view self.new.view (ask_of kind) (Turn result.first ∷ []) }
    {
        let first = self
            .seat
            .open_call(self.share.words(), Ask { kind, given: 0 });
        Begun {
            kind,
            first,
            pass: Snapshot::of(&*self),
        }
    }

    /// The rest of a read that was begun, on the pass as that left it: all later loads, and the
    /// answer.
    #[inline(always)]
    pub fn finish(&mut self, begun: Begun) -> Answer
        requires { begun.pass ≡ self.old }
        ensures finishes { Finishes self.old self.new begun.kind (entry_by begun.kind result) }
        ensures late { IsLate begun.kind result }
    {
        let Begun {
            kind,
            first,
            pass: _,
        } = begun;
        match kind {
            Kind::Fast => self.finish_quick(Ask { kind, given: 0 }, first),
            Kind::Diff | Kind::Back => unreachable!(),
            Kind::Abs | Kind::Mono | Kind::Uptime | Kind::Utc => {
                if first % 2 != 0 {
                    return Answer::Again { first, last: first };
                }
                self.finish_kind(kind, first)
            }
        }
    }

    /// A read of the clock, in one attempt. The kind is not `Diff` or `Back`.
    ///
    /// All kinds but `Fast` load the turn word, the fifteen fields of the newest tick, the counter,
    /// and the turn word again: they are `Again` where the turn word is odd, or differs at its
    /// second load. `Fast` loads the turn word, the fields and the mark of the tick's slot, and is
    /// `Again` only where the slot was taken for a tick that comes at least ten later. After
    /// FreeBSD's `ffclock_abstime`.
    #[inline(always)]
    pub fn read(&mut self, kind: Kind) -> Answer
        requires { IsReadable kind }
        ensures adds { Adds self.old self.new (ask_of kind) (entry_by kind result) }
        ensures late { IsLate kind result }
    {
        match kind {
            Kind::Abs => self.read_kind(Kind::Abs),
            Kind::Mono => self.read_kind(Kind::Mono),
            Kind::Uptime => self.read_kind(Kind::Uptime),
            Kind::Utc => self.read_kind(Kind::Utc),
            Kind::Fast => self.read_kind(Kind::Fast),
            Kind::Diff | Kind::Back => unreachable!(),
        }
    }

    // Each kind has a copy of this code of its own, which keeps in hand only those fields that it needs.
    #[inline(always)]
    fn read_kind(&mut self, kind: Kind) -> Answer
        requires { IsReadable kind }
        ensures adds { Adds self.old self.new (ask_of kind) (entry_by kind result) }
        ensures late { IsLate kind result }
    {
        let begun = self.begin(kind);
        self.finish(begun)
    }

    /// How long an interval of counts below 2^62 is, by the newest tick, read as `Fast` is. After
    /// FreeBSD's `ffclock_difftime`.
    #[inline(always)]
    pub fn diff(&mut self, delta: u64) -> Answer
        requires { delta < 2 ^ 62 }
        ensures adds { Adds self.old self.new (ask_diff delta) (entry_by kind.Diff result) }
        ensures late { IsLate kind.Diff result }
    {
        let ask = Ask {
            kind: Kind::Diff,
            given: delta,
        };
        let first = self.seat.open_call(self.share.words(), ask);
        self.finish_quick(ask, first)
    }

    // The rest of a read that loads the turn word again.
    #[inline(always)]
    fn finish_kind(&mut self, kind: Kind, first: u64) -> Answer
        requires way { way_of kind ≡ full }
        requires at { IsStarted self.old.view (ask_of kind) first }
        ensures table { self.new.table ≡ self.old.table }
        ensures answers { Answers self.old.view self.new.view (entry_by kind result) }
        ensures by { IsEntryBy (hands_of self.new.view) (entry_by kind result) }
    {
        let tick = first / 2;
        let words = self.share.words();
        let fields = load_fields(words, &mut self.seat, tick, tick % 10);
        let count = self.seat.load_counter(words);
        let last = self.seat.load_turn(words);
        if last != first {
            return Answer::Again { first, last };
        }
        let hands = unpack(&fields);
        Answer::Read(reading(kind, tick, &hands, count))
    }

    // The rest of a read that looks at a mark.
    #[inline(always)]
    fn finish_quick(&mut self, ask: Ask, first: u64) -> Answer
        requires way { way_of ask.kind ≡ quick }
        requires most { ask.given < 2 ^ 62 }
        requires few { first < 2 ^ 63 }
        requires at { IsStarted self.old.view ask first }
        ensures table { self.new.table ≡ self.old.table }
        ensures answers { Answers self.old.view self.new.view (entry_by ask.kind result) }
        ensures by { IsEntryBy (hands_of self.new.view) (entry_by ask.kind result) }
        ensures late { IsLate ask.kind result }
    {
        let tick = first / 2;
        let seen = look_at(self.share.words(), &mut self.seat, tick, tick % 10);
        if seen.mark != 2 * tick + 2 {
            return Answer::Again {
                first: 2 * tick + 2,
                last: seen.mark,
            };
        }
        let hands = unpack(&seen.fields);
        let count = quick_count(ask, &hands);
        Answer::Read(reading(ask.kind, tick, &hands, count))
    }
}
