// The command `replay`.
ghost use Rattle.std.specs.Prelude.{◌≡◌, ◌≤◌, [], true, false, length, IfOk, OnErr};
ghost use Rattle.ff_estimator.specs.Daemons.{StandsFor};
ghost use Rattle.tick_desk.specs.Shows.{IsFresh};
ghost use Rattle.radclock_input.specs.Inputs.{IsRanged, accepted_among, counted_among, most_accepted};
ghost use Rattle.replay_run.specs.Plans.{AreOptionsInRange};
ghost use Rattle.replay_run.specs.declared.plan.Options.{Options};
ghost use Rattle.radclock_run.specs.Plays.{IsPlanFor, IsReadyFor, ArePrinted, ArePlayed};
ghost use Rattle.radclock_run.specs.Reports.{report_of};
ghost use Rattle.radclock_run.specs.Endings.{EndsWith, Finishes, replay_by};

use crate::estimates::Estimates;
use crate::faults::refuse;
use crate::gather::said_by;
use crate::lanes::play_on_lane;
use crate::reports::push_replay;
use crate::status::Status;
use ff_estimator::Daemon;
use ff_grain::NoMemory;
use rad_io::{Failed, Gate, Sink};
use radclock_input::StampFile;
use replay_run::{Options, Plan, ReadLog, play};
use report_text::{FaultText, ReportHead};
use std::alloc::Global;
use std::sync::ledger::Ledger;
use std::thread::Threads;
use step_count::Steps;
use tick_desk::{Desk, Pen};

// What a replay leaves beside the desk: the readers' logs, and a new daemon that tells the estimates anew
// when the report is written.
#[derive(Drop)]
struct Replayed {
    logs: Vec<ReadLog>,
    daemon: Daemon,
}

// The plan to replay what a file's accepted items say.
fn plan_for_file<L: Ledger>(
    alloc: Global,
    file: &StampFile,
    options: &Options,
    steps: &mut Steps<L>,
) -> Result<Plan, NoMemory>
    requires ranged { IsRanged file.now.head.freq file.now.items.items }
    requires options { AreOptionsInRange options.now }
    ensures { IfOk result (IsPlanFor file.now.head.freq options.now
        (accepted_among file.now.head.freq [] file.now.items.items)) }
{
    let said = said_by(alloc, file, steps)?;
    Plan::of(alloc, file.head.freq, &said.events, options)
}

/// Takes the memory that a play of so many steps wants of a desk with which nothing was done: room for its
/// ticks, and the readers' logs with their passes, by the options of a plan. No tick is made.
pub fn open(
    alloc: Global,
    desk: &mut Desk,
    plan: &Plan,
    steps: usize,
) -> Result<Vec<ReadLog>, NoMemory>
    requires readers { plan.now.options.readers ≤ 16 }
    requires fresh { IsFresh desk.old.pen desk.old.passes.items }
    ensures ready { IfOk result (λ logs. (options : Options) → plan.now.options ≡ options →
        IsReadyFor options steps logs.items desk.new.pen) }
    ensures journal { desk.new.pen.journal ≡ desk.old.pen.journal }
{
    // Nothing was done with the desk, so no pass was taken in either.
    prove!(desk.is_fresh());
    desk.pen.reserve(steps)?;
    desk.passes(alloc, plan.options.readers)?;
    ReadLog::all(alloc, desk, plan)
}

// Plays what a file's accepted items say by the plan of it.
fn play_plan<R: Threads + Sync, G: Gate, L: Ledger>(
    rt: &R,
    alloc: Global,
    file: &StampFile,
    options: &Options,
    steps: &mut Steps<L>,
    desk: &mut Desk,
    gate: &G,
) -> Result<Vec<ReadLog>, NoMemory>
    requires ranged { IsRanged file.now.head.freq file.now.items.items }
    requires options { AreOptionsInRange options.now }
    requires fresh { IsFresh desk.old.pen desk.old.passes.items }
    ensures played { IfOk result (λ logs. ArePlayed options.now file.now.head.freq
        (accepted_among file.now.head.freq [] file.now.items.items) desk.new.pen logs.items) }
    ensures journal { OnErr result (desk.new.pen.journal ≡ desk.old.pen.journal) }
{
    let plan = plan_for_file(alloc, file, options, steps)?;
    let mut logs = open(alloc, desk, &plan, plan.steps.len())?;
    play(rt, desk, &plan, &mut logs, gate);
    Ok(logs)
}

// Plays it by its plan, or as a daemon in a thread of its own says it. All memory is taken before the first tick.
fn play_file<R: Threads + Sync, G: Gate, L: Ledger + Send>(
    rt: &R,
    alloc: Global,
    file: &StampFile,
    options: &Options,
    lane: bool,
    steps: &mut Steps<L>,
    desk: &mut Desk,
    gate: &G,
) -> Result<Replayed, NoMemory>
    requires ranged { IsRanged file.now.head.freq file.now.items.items }
    requires few { counted_among file.now.head.freq file.now.items.items ≤ most_accepted }
    requires options { AreOptionsInRange options.now }
    requires alone { lane ≡ true → options.now.crank ≡ false }
    requires fresh { IsFresh desk.old.pen desk.old.passes.items }
    ensures played { IfOk result (λ r. ArePlayed options.now file.now.head.freq
        (accepted_among file.now.head.freq [] file.now.items.items) desk.new.pen r.logs.items) }
    ensures daemon { IfOk result (λ r. StandsFor r.daemon file.now.head.freq []) }
    ensures journal { OnErr result (desk.new.pen.journal ≡ desk.old.pen.journal) }
{
    let daemon = Daemon::new(alloc, file.head.freq)?;
    let logs = if lane {
        play_on_lane(rt, alloc, file, options, steps, desk, gate)?
    } else {
        play_plan(rt, alloc, file, options, steps, desk, gate)?
    };
    Ok(Replayed { logs, daemon })
}

// Pushes the report on a replay, and ends.
fn tell<K: Sink, L: Ledger>(
    sink: &mut K,
    telling: &mut Estimates<L>,
    file: &StampFile,
    options: &Options,
    lane: bool,
    pen: &Pen,
    logs: &[ReadLog],
) -> Status
    requires ranged { IsRanged file.now.head.freq file.now.items.items }
    requires version { telling.old.version ≡ file.now.head.version }
    requires fresh { StandsFor telling.old.daemon file.now.head.freq [] }
    requires printed { ArePrinted options.now pen.now logs.now }
    ensures { EndsWith K.written K.faults K.push_gives sink.old (report_of (replay_by options.now lane)
        file.now.head file.now.items.items pen.now) Status.Done result sink.new }
{
    let head = ReportHead::Replay {
        freq: file.head.freq,
        ticks: options.ticks,
        readers: options.readers,
        reads: options.reads,
        back: options.back,
        crank: options.crank,
        utc: options.utc,
        lane,
        version: file.head.version,
    };
    let entries = u64::from(options.readers) * u64::from(options.reads);
    match push_replay(sink, telling, &head, file, pen.journal(), logs, entries) {
        Ok(()) => Status::Done,
        Err(Failed) => Status::WriteFault,
    }
}

/// Plays what a file's accepted items say on a fresh desk, beside readers, and with a lane beside the daemon
/// too, and pushes the report. All memory is taken before the first tick. A replay with a crank has no lane.
pub fn replay<R: Threads + Sync, K: Sink, G: Gate, L: Ledger + Send>(
    rt: &R,
    alloc: Global,
    sink: &mut K,
    options: &Options,
    lane: bool,
    file: &StampFile,
    steps: Steps<L>,
    desk: &mut Desk,
    gate: &G,
) -> Status
    requires ranged { IsRanged file.now.head.freq file.now.items.items }
    requires few { counted_among file.now.head.freq file.now.items.items ≤ most_accepted }
    requires options { AreOptionsInRange options.now }
    requires alone { lane ≡ true → options.now.crank ≡ false }
    requires fresh { IsFresh desk.old.pen desk.old.passes.items }
    ensures { Finishes K.written K.faults K.push_gives (replay_by options.now lane) file.now.head
        file.now.items.items sink.old desk.old result sink.new desk.new }
{
    let mut steps = steps;
    match play_file(rt, alloc, file, options, lane, &mut steps, desk, gate) {
        Ok(replayed) => {
            let Replayed { logs, daemon } = replayed;
            let mut telling = Estimates {
                version: file.head.version,
                daemon,
                steps,
            };
            tell(sink, &mut telling, file, options, lane, &desk.pen, &logs)
        }
        Err(NoMemory) => refuse(sink, FaultText::Memory, Status::NoMemory),
    }
}
