// A replay whose daemon has a thread of its own.
ghost use Rattle.std.specs.Prelude.{◌≡◌, ◌+◌, ◌-◌, ◌*◌, ◌^◌, ◌<◌, ◌≤◌, All, false, [], ◌∷◌, ◌++◌, length, IsTrue, IsFalse, vec_len, vec_capacity};
ghost use Rattle.stamp_text.specs.Past.{stamps_of};
ghost use Rattle.ff_hands.specs.Windups.{cold};
ghost use Rattle.ff_estimator.specs.Daemons.{StandsFor};
ghost use Rattle.ff_estimator.specs.Events.{events_of};
ghost use Rattle.ff_estimator.specs.declared.fulls.Event.{Event};
ghost use Rattle.est_lane.specs.Lanes.{sent_by, room_of, received_by, SameIn, SameOut};
ghost use Rattle.replay_run.specs.Laps.{AreAcceptedBehind, MayFollow, WindsBy, IsBehind, last_count};
ghost use Rattle.replay_run.specs.Logs.{AreReady, IsReady, HaveRun};
ghost use Rattle.replay_run.specs.Plans.{AreOptionsInRange, plan_of};
ghost use Rattle.replay_run.specs.Plays.{Played};

use crate::feeds::{count_events, feed_all};
use crate::laps::{drive_rest, drive_some};
use crate::log::ReadLog;
use crate::plan::Options;
use crate::players::{all_read, take_all};
use est_lane::{Lane, LaneIn, LaneOut};
use ff_estimator::{Daemon, Event};
use rad_io::Gate;
use stamp_text::Item;
use std::sync::ledger::Ledger;
use std::thread::{Threads, join_mut};
use step_count::Steps;
use tick_desk::{Desk, Pen};

// The driver goes by what comes, beside the readers.
fn drive_beside<R: Threads + Sync, G: Gate>(
    rt: &R,
    pen: &mut Pen,
    output: &mut LaneOut,
    freq: u64,
    options: Options,
    most: usize,
    got: &mut Vec<Event>,
    logs: &mut [ReadLog],
    gate: &G,
) -> bool
    requires low { 1000000 ≤ freq }
    requires high { freq ≤ 16000000000 }
    requires journal { pen.old.journal ≡ cold ∷ [] }
    requires top { pen.old.top ≡ 0 }
    requires spare { 1 + most + options.ticks * (most - 1) ≤ pen.old.spare }
    requires unused { received_by output.old ≡ [] }
    requires empty { got.old.items ≡ [] }
    requires room { most ≤ vec_capacity got.old }
    requires few { most < 2 ^ 60 }
    requires ready { All (IsReady options.reads) logs.old }
    ensures end { SameOut output.old output.new }
    ensures goes { IsFalse result → got.new.items ≡ received_by output.new }
    ensures stops { IsTrue result → (e : Event) × (received_by output.new ≡ got.new.items ++ e ∷ []) × (MayFollow freq (last_count got.new.items) e → ⊥) }
    ensures winds { WindsBy (plan_of freq got.new.items options.ticks) pen.old pen.new }
    ensures behind { IsBehind (last_count got.new.items) pen.new }
    ensures room { (vec_len got.new ≤ most) × (most ≤ vec_capacity got.new) }
    ensures logs { HaveRun freq options logs.old logs.new }
{
    let ticks = options.ticks;
    let (stopped, ()) = join_mut(
        rt,
        &mut || -> bool
            requires low { 1000000 ≤ freq }
            requires high { freq ≤ 16000000000 }
            requires journal { pen.now.journal ≡ cold ∷ [] }
            requires top { pen.now.top ≡ 0 }
            requires spare { 1 + most + ticks * (most - 1) ≤ pen.now.spare }
            requires unused { received_by output.now ≡ [] }
            requires empty { got.now.items ≡ [] }
            requires room { most ≤ vec_capacity got.now }
            requires few { most < 2 ^ 60 }
        { drive_some(gate, pen, output, freq, ticks, most, got) },
        &mut ||
            requires freq { freq < 2 ^ 62 }
            requires ready { All (IsReady options.reads) logs.now }
            ensures { HaveRun freq options logs.entry.now logs.exit.now }
        { all_read(rt, logs, freq, options, gate) },
    );
    stopped
}

// The daemon says all, beside the driver and the readers.
fn say_beside<R: Threads + Sync, G: Gate, L: Ledger + Send>(
    rt: &R,
    pen: &mut Pen,
    freq: u64,
    items: &[Item],
    daemon: &mut Daemon,
    input: &mut LaneIn,
    output: &mut LaneOut,
    options: Options,
    most: usize,
    got: &mut Vec<Event>,
    logs: &mut [ReadLog],
    gate: &G,
    steps: &mut Steps<L>,
) -> bool
    requires low { 1000000 ≤ freq }
    requires high { freq ≤ 16000000000 }
    requires new { StandsFor daemon.old freq [] }
    requires items { AreAcceptedBehind freq [] items.now }
    requires unsent { sent_by input.old ≡ [] }
    requires lane { length (events_of freq items.now) ≤ room_of input.old }
    requires journal { pen.old.journal ≡ cold ∷ [] }
    requires top { pen.old.top ≡ 0 }
    requires spare { 1 + most + options.ticks * (most - 1) ≤ pen.old.spare }
    requires unused { received_by output.old ≡ [] }
    requires empty { got.old.items ≡ [] }
    requires room { most ≤ vec_capacity got.old }
    requires few { most < 2 ^ 60 }
    requires ready { All (IsReady options.reads) logs.old }
    ensures input { SameIn input.old input.new }
    ensures sent { sent_by input.new ≡ events_of freq items.now }
    ensures steps { steps.new ≤ steps.old + 12 * length (stamps_of items.now) }
    ensures output { SameOut output.old output.new }
    ensures goes { IsFalse result → got.new.items ≡ received_by output.new }
    ensures stops { IsTrue result → (e : Event) × (received_by output.new ≡ got.new.items ++ e ∷ []) × (MayFollow freq (last_count got.new.items) e → ⊥) }
    ensures winds { WindsBy (plan_of freq got.new.items options.ticks) pen.old pen.new }
    ensures behind { IsBehind (last_count got.new.items) pen.new }
    ensures room { (vec_len got.new ≤ most) × (most ≤ vec_capacity got.new) }
    ensures logs { HaveRun freq options logs.old logs.new }
{
    let ((), stopped) = join_mut(
        rt,
        &mut ||
            requires new { StandsFor daemon.now freq [] }
            requires items { AreAcceptedBehind freq [] items.now }
            requires unsent { sent_by input.now ≡ [] }
            requires lane { length (events_of freq items.now) ≤ room_of input.now }
        { feed_all(input, freq, items, daemon, steps) },
        &mut || -> bool
            requires low { 1000000 ≤ freq }
            requires high { freq ≤ 16000000000 }
            requires journal { pen.now.journal ≡ cold ∷ [] }
            requires top { pen.now.top ≡ 0 }
            requires spare { 1 + most + options.ticks * (most - 1) ≤ pen.now.spare }
            requires unused { received_by output.now ≡ [] }
            requires empty { got.now.items ≡ [] }
            requires room { most ≤ vec_capacity got.now }
            requires few { most < 2 ^ 60 }
            requires ready { All (IsReady options.reads) logs.now }
        { drive_beside(rt, pen, output, freq, options, most, got, logs, gate) },
    );
    stopped
}

// Plays what a daemon says of items, by a pen and a lane.
fn play_said<R: Threads + Sync, G: Gate, L: Ledger + Send>(
    rt: &R,
    pen: &mut Pen,
    freq: u64,
    items: &[Item],
    daemon: &mut Daemon,
    lane: &mut Lane,
    options: Options,
    got: &mut Vec<Event>,
    logs: &mut [ReadLog],
    gate: &G,
    steps: &mut Steps<L>,
)
    requires low { 1000000 ≤ freq }
    requires high { freq ≤ 16000000000 }
    requires new { StandsFor daemon.old freq [] }
    requires items { AreAcceptedBehind freq [] items.now }
    requires unused { (sent_by lane.old.input ≡ []) × (received_by lane.old.output ≡ []) }
    requires room { length (events_of freq items.now) ≤ room_of lane.old.input }
    requires empty { got.old.items ≡ [] }
    requires fits { length (events_of freq items.now) ≤ vec_capacity got.old }
    requires alone { options.crank ≡ false }
    requires spare { length (plan_of freq (events_of freq items.now) options.ticks) ≤ pen.old.spare }
    requires journal { pen.old.journal ≡ cold ∷ [] }
    requires top { pen.old.top ≡ 0 }
    requires still { pen.old.out ≡ false }
    requires logs { AreReady pen.old.table options.reads logs.old }
    ensures got { got.new.items ≡ events_of freq items.now }
    ensures played { Played freq options (plan_of freq (events_of freq items.now) options.ticks) logs.old logs.new
        pen.old pen.new }
    ensures steps { steps.new ≤ steps.old + 12 * length (stamps_of items.now) }
{
    let most = count_events(items);
    let Lane { input, output } = lane;
    let stopped = say_beside(
        rt, pen, freq, items, daemon, input, output, options, most, got, logs, gate, steps,
    );
    output.meet(input);
    if stopped {
        unreachable!()
    }
    drive_rest(gate, pen, output, freq, options.ticks, most, got);
    take_all(pen, logs);
}

/// Plays what a new daemon says of the accepted items of a file, on a desk whose clock was never set. In threads of their
/// own, where there are threads, and else one after the other, the daemon is fed the items and sends each event over
/// a lane, a driver takes events and winds the pen by the steps of the plan up to each, and readers read as in
/// [`play`](crate::play). Behind these threads the driver goes by what it did not get before, and the pen takes all
/// passes in.
///
/// What is promised holds in whatever order their steps come: all events were got, each once and in order, and the journal
/// and the logs are as if the whole plan had been there from the start. There is room on the lane, in `got` and for ticks
/// for all of it, and the option `crank` is not set. The steps of the daemon are twelve a stamp at most.
///
/// The driver stops at an event that no clock can go by behind those before it. It tests each itself, and none of the
/// daemon's is one.
///
/// It takes no memory. The gate is called before each attempt and before each step.
pub fn play_lane<R: Threads + Sync, G: Gate, L: Ledger + Send>(
    rt: &R,
    desk: &mut Desk,
    freq: u64,
    items: &[Item],
    daemon: &mut Daemon,
    lane: &mut Lane,
    options: &Options,
    got: &mut Vec<Event>,
    logs: &mut Vec<ReadLog>,
    gate: &G,
    steps: &mut Steps<L>,
)
    requires low { 1000000 ≤ freq }
    requires high { freq ≤ 16000000000 }
    requires new { StandsFor daemon.old freq [] }
    requires items { AreAcceptedBehind freq [] items.now }
    requires unused { (sent_by lane.old.input ≡ []) × (received_by lane.old.output ≡ []) }
    requires room { length (events_of freq items.now) ≤ room_of lane.old.input }
    requires empty { got.old.items ≡ [] }
    requires fits { length (events_of freq items.now) ≤ vec_capacity got.old }
    requires ranged { AreOptionsInRange options.now }
    requires alone { options.now.crank ≡ false }
    requires spare { length (plan_of freq (events_of freq items.now) options.now.ticks) ≤ desk.old.pen.spare }
    requires journal { desk.old.pen.journal ≡ cold ∷ [] }
    requires top { desk.old.pen.top ≡ 0 }
    requires still { desk.old.pen.out ≡ false }
    requires logs { AreReady desk.old.pen.table options.now.reads logs.old.items }
    ensures got { got.new.items ≡ events_of freq items.now }
    ensures played { Played freq options.now (plan_of freq (events_of freq items.now) options.now.ticks)
        logs.old.items logs.new.items desk.old.pen desk.new.pen }
    ensures passes { desk.new.passes ≡ desk.old.passes }
    ensures steps { steps.new ≤ steps.old + 12 * length (stamps_of items.now) }
{
    play_said(
        rt,
        &mut desk.pen,
        freq,
        items,
        daemon,
        lane,
        *options,
        got,
        logs.as_mut_slice(),
        gate,
        steps,
    )
}
