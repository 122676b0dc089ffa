// The plan of a replay.
ghost use Rattle.std.specs.Prelude.{◌≡◌, ◌+◌, ◌-◌, ◌*◌, ◌^◌, ◌≤◌, ◌++◌, List, length, min, IfOk, OnOk};
ghost use Rattle.stamp_text.specs.declared.lines.Item.{Item};
ghost use Rattle.ff_estimator.specs.Events.{AreOf, count_of_event};
ghost use Rattle.replay_run.specs.Fitting.{PlanFits};
ghost use Rattle.replay_run.specs.Plans.{AreOptionsInRange, count_between, event_step, plan_of, steps_between};

use ff_estimator::Event;
use ff_grain::{Bintime, NoMemory};
use ff_hands::{Order, reset_estimate};
use std::alloc::Global;

/// How a replay goes.
#[derive(Clone, Copy, Debug, PartialEq, Eq)]
pub struct Options {
    /// How many plain steps stand between two events, at most 15.
    pub ticks: u32,
    /// How many readers read the clock beside the driver, at most 16.
    pub readers: u32,
    /// How often each reader reads, at most 16384 times.
    pub reads: u32,
    /// The readers also convert a count of their own past.
    pub back: bool,
    /// The counter is raised beside the driver too.
    pub crank: bool,
    /// The readers also read `Utc`.
    pub utc: bool,
}

/// A step of a plan.
#[derive(Clone, Copy, Debug, PartialEq, Eq)]
pub struct PlanStep {
    /// The count up to which the counter is raised first.
    pub to: u64,
    /// What the clock is then wound by.
    pub order: Order,
}

/// The steps by which the driver of a replay winds the clock.
#[derive(Drop)]
pub struct Plan {
    /// The counter's nominal frequency in Hz, from 10^6 to 16*10^9.
    pub freq: u64,
    pub options: Options,
    pub steps: Vec<PlanStep>,
}

/// The time that the clock is first set to.
pub(crate) const START: Bintime = Bintime { sec: 0, frac: 0 };

// How many steps the plan of so many events has.
fn room_for(events: usize, ticks: u32) -> usize
    ensures { result ≡ min (2 ^ 64 - 1) (1 + events + ticks * (events - 1)) }
{
    let plain = events.saturating_sub(1).saturating_mul(ticks as usize);
    events.saturating_add(1).saturating_add(plain)
}

// The count at the end of part `part` of the way between two counts, which is cut into one part more
// than `ticks`. The product passes a word: it has up to 67 bits.
pub(crate) fn count_between(from: u64, to: u64, part: u32, ticks: u32) -> u64
    requires order { from ≤ to }
    requires part { part ≤ ticks }
    ensures { result ≡ count_between ticks from to part }
{
    let way = u128::from(part) * u128::from(to - from);
    from + (way / (u128::from(ticks) + 1)) as u64
}

// Lets the clocks go on `ticks` times between two events.
fn push_between(steps: &mut Vec<PlanStep>, from: u64, to: u64, ticks: u32) -> Result<(), NoMemory>
    requires order { from ≤ to }
    ensures { OnOk result (steps.new.items ≡ steps.old.items ++ steps_between ticks from to) }
{
    for part in 0..ticks {
        steps.push(PlanStep {
            to: count_between(from, to, part + 1, ticks),
            order: Order::Plain,
        })?;
    }
    Ok(())
}

pub(crate) fn count_of(event: &Event) -> u64
    ensures { result ≡ count_of_event event.now }
{
    match event {
        Event::Estimate(full) => full.est.update_ffcount,
        Event::Set { count, at: _ } => *count,
    }
}

// The step of an event, at its own count.
pub(crate) fn event_step(freq: u64, event: &Event) -> PlanStep
    requires low { 1000000 ≤ freq }
    requires high { freq ≤ 16000000000 }
    ensures { result ≡ event_step freq event.now }
{
    match event {
        Event::Estimate(full) => PlanStep {
            to: full.est.update_ffcount,
            order: Order::Take(full.est),
        },
        Event::Set { count, at } => PlanStep {
            to: *count,
            order: Order::Reset(reset_estimate(*at, *count, freq)),
        },
    }
}

impl Plan {
    /// The plan to replay the events of one daemon for a counter of `freq` Hz, from 10^6 to
    /// 16*10^9, by options in range. A clock that was never set can be wound by it.
    ///
    /// Step 0 resets the clock to the time 0 at the count 0. Each estimate is then taken and each set
    /// made at its own count, and between two of them the clock goes on at evenly spread counts, rounded
    /// down.
    ///
    /// It takes all its memory here, and want of it is the only error.
    pub fn of(
        alloc: Global,
        freq: u64,
        events: &[Event],
        options: &Options,
    ) -> Result<Plan, NoMemory>
        requires low { 1000000 ≤ freq }
        requires high { freq ≤ 16000000000 }
        requires of { (items : List Item) × AreOf events.now freq items }
        requires ranged { AreOptionsInRange options.now }
        ensures freq { IfOk result (λ p. p.freq ≡ freq) }
        ensures options { IfOk result (λ p. p.options ≡ options.now) }
        ensures steps { IfOk result (λ p.
            p.steps.items ≡ plan_of freq events.now options.now.ticks) }
        ensures fits { IfOk result (λ p. PlanFits 0 0 p.steps.items) }
    {
        let ticks = options.ticks;
        let mut steps = Vec::with_capacity(alloc, room_for(events.len(), ticks))?;
        steps.push(PlanStep {
            to: 0,
            order: Order::Reset(reset_estimate(START, 0, freq)),
        })?;
        for i in 0..events.len() {
            let step = event_step(freq, &events[i]);
            let from = step.to;
            steps.push(step)?;
            if i + 1 < events.len() {
                push_between(&mut steps, from, count_of(&events[i + 1]), ticks)?;
            }
        }
        Ok(Plan {
            freq,
            options: *options,
            steps,
        })
    }
}
