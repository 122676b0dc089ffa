// The driver of a lane: it goes by events as they come.
ghost use Rattle.std.specs.Prelude.{◌≡◌, ℕ, ◌+◌, ◌-◌, ◌*◌, ◌^◌, ◌<◌, ◌≤◌, ◌↔◌, [], ◌∷◌, ◌++◌, length, IsTrue, IsFalse, IfSome, Some, vec_len, vec_capacity};
ghost use Rattle.ff_hands.specs.Windups.{cold};
ghost use Rattle.ff_estimator.specs.Events.{AreInTurn, IsLate, count_of_event};
ghost use Rattle.ff_estimator.specs.declared.fulls.Event.{Event};
ghost use Rattle.tick_desk.specs.Shows.{PenShows};
ghost use Rattle.est_lane.specs.Lanes.{received_by, known_to, SameOut};
ghost use Rattle.clock_lines.specs.Readings.{newest};
ghost use Rattle.replay_run.specs.Drives.{StepsBy};
ghost use Rattle.replay_run.specs.Fitting.{StepFits, PlanFits};
ghost use Rattle.replay_run.specs.Laps.{MayFollow, WindsBy, IsBehind, IsAt, lap_of, last_count, way_to};
ghost use Rattle.replay_run.specs.Plans.{plan_of, steps_between};

use crate::driver::step;
use crate::plan::{PlanStep, START, count_between, count_of, event_step};
use est_lane::LaneOut;
use ff_estimator::Event;
use ff_hands::{Order, reset_estimate};
use rad_io::Gate;
use tick_desk::Pen;

// Winds a clock by a step, and says so to the gate.
fn next_step<G: Gate>(gate: &G, pen: &mut Pen, s: &PlanStep)
    requires spare { 1 ≤ pen.old.spare }
    requires fits { StepFits pen.old.top (newest pen.old.journal).est.update_ffcount s.now }
    ensures { StepsBy s.now pen.old pen.new }
{
    gate.between_ticks(pen.journal().len() as u64);
    step(pen, s);
}

// Resets a clock that was never set, as each plan begins.
fn begin<G: Gate>(gate: &G, pen: &mut Pen, freq: u64)
    requires low { 1000000 ≤ freq }
    requires high { freq ≤ 16000000000 }
    requires journal { pen.old.journal ≡ cold ∷ [] }
    requires top { pen.old.top ≡ 0 }
    requires spare { 1 ≤ pen.old.spare }
    ensures winds { WindsBy (plan_of freq [] 0) pen.old pen.new }
    ensures at { IsAt 0 pen.new }
{
    next_step(
        gate,
        pen,
        &PlanStep {
            to: 0,
            order: Order::Reset(reset_estimate(START, 0, freq)),
        },
    );
}

// The count of the last event.
fn last_count(got: &[Event]) -> Option<u64>
    ensures { result ≡ last_count got.now }
{
    match got.last() {
        Some(e) => Some(count_of(e)),
        None => None,
    }
}

// Whether an event is no estimate of the count 0, which no clock takes.
fn is_late(e: &Event) -> bool
    ensures { IsTrue result ↔ IsLate e.now }
{
    match e {
        Event::Estimate(full) => full.est.update_ffcount > 0,
        Event::Set { .. } => true,
    }
}

// Whether an event is of a later count than the one before, if there is one.
fn is_newer(last: Option<u64>, e: &Event) -> bool
    ensures { IsTrue result ↔ IfSome last (λ c. c < count_of_event e.now) }
{
    match last {
        Some(count) => count < count_of(e),
        None => true,
    }
}

// Whether a clock can go by an event behind one of the count `last`.
fn may_follow(freq: u64, last: Option<u64>, e: &Event) -> bool
    requires low { 1000000 ≤ freq }
    requires high { freq ≤ 16000000000 }
    ensures { IsTrue result ↔ MayFollow freq last e.now }
{
    is_newer(last, e) && is_late(e) && event_step(freq, e).order.sane()
}

// Lets the clock go on from an event to the next one.
fn go_on<G: Gate>(gate: &G, pen: &mut Pen, from: u64, to: u64, ticks: u32)
    requires order { from ≤ to }
    requires spare { ticks ≤ pen.old.spare }
    requires fits { PlanFits pen.old.top (newest pen.old.journal).est.update_ffcount (steps_between ticks from to) }
    ensures { WindsBy (steps_between ticks from to) pen.old pen.new }
{
    for part in 0..ticks {
        next_step(
            gate,
            pen,
            &PlanStep {
                to: count_between(from, to, part + 1, ticks),
                order: Order::Plain,
            },
        );
    }
}

// The same from the last event, if there is one.
fn approach<G: Gate>(gate: &G, pen: &mut Pen, last: Option<u64>, to: u64, ticks: u32)
    requires order { IfSome last (λ from. from ≤ to) }
    requires spare { length (way_to ticks last to) ≤ pen.old.spare }
    requires fits { PlanFits pen.old.top (newest pen.old.journal).est.update_ffcount (way_to ticks last to) }
    ensures { WindsBy (way_to ticks last to) pen.old pen.new }
{
    if let Some(from) = last {
        go_on(gate, pen, from, to, ticks);
    }
}

// Goes by an event that may follow those that were got.
fn lap<G: Gate>(gate: &G, pen: &mut Pen, freq: u64, ticks: u32, got: &mut Vec<Event>, e: Event)
    requires low { 1000000 ≤ freq }
    requires high { freq ≤ 16000000000 }
    requires behind { IsBehind (last_count got.old.items) pen.old }
    requires follows { MayFollow freq (last_count got.old.items) e }
    requires spare { length (lap_of freq ticks (last_count got.old.items) e) ≤ pen.old.spare }
    requires room { vec_len got.old < vec_capacity got.old }
    ensures got { got.new.items ≡ got.old.items ++ e ∷ [] }
    ensures len { vec_len got.new ≡ vec_len got.old + 1 }
    ensures room { vec_capacity got.new ≡ vec_capacity got.old }
    ensures winds { WindsBy (lap_of freq ticks (last_count got.old.items) e) pen.old pen.new }
    ensures behind { IsBehind (last_count got.new.items) pen.new }
{
    let s = event_step(freq, &e);
    approach(gate, pen, last_count(got), s.to, ticks);
    next_step(gate, pen, &s);
    got.push_reserved(e);
}

// Goes by what comes, as far as `most` events. True where an event came that may not follow: it is not gone by, and
// nothing is taken behind it.
pub(crate) fn drive_some<G: Gate>(
    gate: &G,
    pen: &mut Pen,
    output: &mut LaneOut,
    freq: u64,
    ticks: u32,
    most: usize,
    got: &mut Vec<Event>,
) -> bool
    requires low { 1000000 ≤ freq }
    requires high { freq ≤ 16000000000 }
    requires journal { pen.old.journal ≡ cold ∷ [] }
    requires top { pen.old.top ≡ 0 }
    requires spare { 1 + most + ticks * (most - 1) ≤ pen.old.spare }
    requires unused { received_by output.old ≡ [] }
    requires empty { got.old.items ≡ [] }
    requires room { most ≤ vec_capacity got.old }
    requires few { most < 2 ^ 60 }
    ensures end { SameOut output.old output.new }
    ensures goes { IsFalse result → got.new.items ≡ received_by output.new }
    ensures stops { IsTrue result → (e : Event) × (received_by output.new ≡ got.new.items ++ e ∷ []) × (MayFollow freq (last_count got.new.items) e → ⊥) }
    ensures winds { WindsBy (plan_of freq got.new.items ticks) pen.old pen.new }
    ensures behind { IsBehind (last_count got.new.items) pen.new }
    ensures room { (vec_len got.new ≤ most) × (most ≤ vec_capacity got.new) }
{
    begin(gate, pen, freq);
    for _ in 0..4 * (most as u64 + 1) {
        if got.len() >= most {
            break;
        }
        match output.take() {
            Some(e) => {
                if !may_follow(freq, last_count(got), &e) {
                    return true;
                }
                lap(gate, pen, freq, ticks, got, e);
            }
            None => {}
        }
    }
    false
}

// The next event, where one is known.
fn take_known(output: &mut LaneOut) -> Event
    requires { 0 < length (known_to output.old) }
    ensures end { SameOut output.old output.new }
    ensures received { received_by output.new ≡ received_by output.old ++ result ∷ [] }
    ensures known { known_to output.old ≡ result ∷ known_to output.new }
{
    match output.take() {
        Some(e) => e,
        None => unreachable!(),
    }
}

// Goes by all known events, where a clock can go by all that were received and are known.
pub(crate) fn drive_rest<G: Gate>(
    gate: &G,
    pen: &mut Pen,
    output: &mut LaneOut,
    freq: u64,
    ticks: u32,
    most: usize,
    got: &mut Vec<Event>,
)
    requires low { 1000000 ≤ freq }
    requires high { freq ≤ 16000000000 }
    requires many { length (received_by output.old ++ known_to output.old) ≡ most }
    requires turn { AreInTurn freq (received_by output.old ++ known_to output.old) }
    requires all { got.old.items ≡ received_by output.old }
    requires room { most ≤ vec_capacity got.old }
    requires behind { IsBehind (last_count got.old.items) pen.old }
    requires spare { 1 + most + ticks * (most - 1) ≤ pen.old.spare + length (plan_of freq got.old.items ticks) }
    ensures end { SameOut output.old output.new }
    ensures got { got.new.items ≡ received_by output.old ++ known_to output.old }
    ensures winds { (first : PenShows) → WindsBy (plan_of freq got.old.items ticks) first pen.old →
        WindsBy (plan_of freq got.new.items ticks) first pen.new }
{
    for _ in got.len()..most {
        let e = take_known(output);
        lap(gate, pen, freq, ticks, got, e);
    }
}
