// A counter and a journal.
ghost use Rattle.std.specs.Prelude.{◌≡◌, ◌+◌, ◌-◌, ◌<◌, ◌≤◌, ◌^◌, true, max, [], ◌∷◌, length, None, IfOk, OnOk, OnErr, IsOk};
ghost use Rattle.ff_hands.specs.Journals.{order_of, IsJournal, IsSound};
ghost use Rattle.ff_hands.specs.Orders.{is_sane, fits};
ghost use Rattle.ff_hands.specs.Windups.{cold, wind_of};
ghost use Rattle.clock_lines.specs.Values.{MayRead};
ghost use Rattle.clock_core.specs.Machines.{newest, refusal, answer_of, wound, ReadsNow, count_of, reading_of};

use clock_lines::{Kind, Reading, bound, value};
use ff_grain::NoMemory;
use ff_hands::{Hands, Order, cold, wind};
use std::alloc::Global;
use std::marker::Model;

/// Why an order was refused.
#[derive(Clone, Copy, Debug, PartialEq, Eq)]
pub enum Refuse {
    /// The estimate to take is not of a later count than the newest one, whose update count this is.
    Stale { last: u64 },
    /// The estimate's update count is above the counter, which stands at `count`.
    Ahead { count: u64 },
}

/// A counter, and the ticks of a clock so far.
///
/// The ticks are a journal: the first is the cold hands, and each other one is what a windup made of the
/// tick before it. The counter is below 2^62, and no tick's count is above it.
#[derive(Drop)]
pub struct Core {
    ticks: Vec<Hands>,
    counter: u64,
}

impl Model for Core {
    ghost use Rattle.std.specs.Prelude.{◌-◌};
    ghost use Rattle.std.specs.Vec.{vec_len, vec_capacity};
    ghost use Rattle.clock_core.specs.Machines.{Machine, Holds};

    ghost Value = { Machine };

    ghost view = { λ c. record { ticks = c.ticks.items; counter = c.counter; spare = vec_capacity c.ticks - vec_len c.ticks } };

    ghost invariant = { λ c. Holds c.ticks.items c.counter };
}

// Why an order to hands is refused at a counter, if it is.
fn refusal(last: &Hands, counter: u64, o: &Order) -> Option<Refuse>
    ensures { result ≡ refusal last.now counter o.now }
{
    let newest = last.est.update_ffcount;
    match o {
        Order::Plain => None,
        Order::Take(e) if e.update_ffcount <= newest => Some(Refuse::Stale { last: newest }),
        Order::Take(e) | Order::Reset(e) if e.update_ffcount > counter => {
            Some(Refuse::Ahead { count: counter })
        }
        Order::Take(_) | Order::Reset(_) => None,
    }
}

// The hands after an order that is not refused.
fn next(last: &Hands, counter: u64, o: &Order) -> Hands
    requires sound { IsSound last.now }
    requires reached { last.now.count ≤ counter }
    requires most { counter < 2 ^ 62 }
    requires sane { is_sane o.now ≡ true }
    requires taken { refusal last.now counter o.now ≡ None }
    ensures value { result ≡ wind_of last.now counter o.now }
    ensures fits { fits last.now counter o.now ≡ true }
{
    wind(last, counter, o)
}

// The count of a read by hands at a count.
fn count_of(kind: Kind, at: u64, counter: u64) -> u64
    requires now { ReadsNow kind }
    requires reached { at ≤ counter }
    requires most { counter < 2 ^ 62 }
    ensures value { result ≡ count_of kind at counter }
    ensures place { MayRead kind at result }
    ensures most { result < 2 ^ 62 }
{
    match kind {
        Kind::Fast => at,
        Kind::Abs | Kind::Mono | Kind::Uptime | Kind::Diff | Kind::Back | Kind::Utc => counter,
    }
}

impl Core {
    /// A clock that was never set: the cold hands alone, and the counter at 0.
    ///
    /// Want of memory for the first tick is the only error.
    pub fn new(alloc: Global) -> Result<Core, NoMemory>
        ensures { IfOk result (λ c. (c.ticks ≡ cold ∷ []) × (c.counter ≡ 0)) }
    {
        let mut ticks = Vec::new(alloc);
        ticks.push(cold())?;
        Ok(Core { ticks, counter: 0 })
    }

    /// Makes room for at least `n` more ticks.
    ///
    /// Want of memory is the only error, and then nothing has changed. It does not come where there is
    /// such room already.
    pub fn reserve(&mut self, n: usize) -> Result<(), NoMemory>
        ensures room { OnOk result (n ≤ self.new.spare) }
        ensures kept { self.new ≡ record self.old { spare = self.new.spare } }
        ensures grows { self.old.spare ≤ self.new.spare }
        ensures refused { OnErr result (self.new ≡ self.old) }
        ensures succeeds { n ≤ self.old.spare → IsOk result }
    {
        self.ticks.reserve(n)?;
        Ok(())
    }

    /// Moves the counter on to `to`, in counts below 2^62. It never moves back. The answer is the counter.
    pub fn advance(&mut self, to: u64) -> u64
        requires { to < 2 ^ 62 }
        ensures after { self.new ≡ record self.old { counter = max self.old.counter to } }
        ensures value { result ≡ max self.old.counter to }
    {
        self.counter = self.counter.max(to);
        self.counter
    }

    // The newest tick, and what is known of it.
    fn newest(&self) -> Hands
        ensures value { result ≡ newest self.now.ticks }
        ensures sound { IsSound result }
        ensures some { 0 < length self.now.ticks }
        ensures reached { result.count ≤ self.now.counter }
        ensures most { self.now.counter < 2 ^ 62 }
    {
        match self.ticks.last() {
            Some(h) => *h,
            None => unreachable!(),
        }
    }

    /// Winds the clock by an order, at the counter. There has to be room for one more tick, and the order
    /// has to be sane. The answer is the number of the new tick, which tells the order and the counter.
    ///
    /// An estimate to take is `Stale` where its update count is at most that of the newest estimate. Else
    /// an estimate is `Ahead` where its update count is above the counter. After either nothing has
    /// changed. After FreeBSD's `ffclock_windup`, which takes an estimate without a look at its update
    /// count.
    pub fn wind(&mut self, o: Order) -> Result<u64, Refuse>
        requires sane { is_sane o ≡ true }
        requires spare { 1 ≤ self.old.spare }
        ensures answer { result ≡ answer_of self.old o }
        ensures wound { OnOk result (self.new ≡ wound self.old o) }
        ensures told { OnOk result ((order_of (newest self.new.ticks) ≡ o) × ((newest self.new.ticks).count ≡ self.old.counter)) }
        ensures refused { OnErr result (self.new ≡ self.old) }
    {
        let last = self.newest();
        match refusal(&last, self.counter, &o) {
            Some(why) => Err(why),
            None => {
                let tick = self.ticks.len() as u64;
                self.ticks.push_reserved(next(&last, self.counter, &o));
                Ok(tick)
            }
        }
    }

    /// What the clock reads now, by the newest tick: at the counter, or for `Fast` at the tick's own count.
    ///
    /// The kind is `Abs`, `Mono`, `Uptime` or `Fast`.
    pub fn read(&self, kind: Kind) -> Reading
        requires { ReadsNow kind }
        ensures { result ≡ reading_of self.now kind }
    {
        let last = self.newest();
        let count = count_of(kind, last.count, self.counter);
        Reading {
            kind,
            tick: self.ticks.len() as u64 - 1,
            count,
            time: value(&last, kind, count),
            bound: bound(&last, kind, count),
        }
    }

    /// The journal of all ticks. Its last count is at most the counter.
    pub fn ticks(&self) -> &[Hands]
        ensures value { result.now ≡ self.now.ticks }
        ensures journal { IsJournal result.now }
        ensures reached { (newest result.now).count ≤ self.now.counter }
        ensures most { self.now.counter < 2 ^ 62 }
    {
        self.ticks.as_slice()
    }
}
