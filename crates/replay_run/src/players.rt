// The driver and the readers.
ghost use Rattle.std.specs.Prelude.{◌≡◌, ◌<◌, ◌≤◌, ◌^◌, All, false, [], ◌∷◌, length, IfSome};
ghost use Rattle.ff_hands.specs.Windups.{cold};
ghost use Rattle.replay_run.specs.Drives.{IsDriven, Turned};
ghost use Rattle.replay_run.specs.Fitting.{PlanFits};
ghost use Rattle.replay_run.specs.Logs.{AreReady, IsReady, HasRun, HaveRun};
ghost use Rattle.replay_run.specs.Plays.{HasPass, IsLentFor, IsBack, TakesIn, TakesAll, Played};

use crate::driver::{drive, turn};
use crate::log::ReadLog;
use crate::plan::{Options, Plan, PlanStep};
use crate::reader::read_all;
use rad_io::Gate;
use std::thread;
use std::thread::{Threads, join_mut};
use tick_desk::{Crank, Desk, Pen};

// The readers read, each in a thread of its own.
pub(crate) fn all_read<R: Threads + Sync, G: Gate>(
    rt: &R,
    logs: &mut [ReadLog],
    freq: u64,
    options: Options,
    gate: &G,
)
    requires freq { freq < 2 ^ 62 }
    requires ready { All (IsReady options.reads) logs.old }
    ensures { HaveRun freq options logs.old logs.new }
{
    thread::for_each_mut(
        rt,
        logs,
        16,
        &|_: usize, log: &mut ReadLog|
            requires freq { freq < 2 ^ 62 }
            requires ready { IsReady options.reads log.old }
            ensures { HasRun freq options log.old log.new }
        { read_all(gate, log, freq, options) },
    );
}

// The readers read, and the crank is turned, in threads of their own.
fn beside<R: Threads + Sync, G: Gate>(
    rt: &R,
    crank: &mut Option<Crank>,
    logs: &mut [ReadLog],
    plan: &Plan,
    gate: &G,
)
    requires freq { plan.now.freq < 2 ^ 62 }
    requires fits { PlanFits 0 0 plan.now.steps.items }
    requires ready { All (IsReady plan.now.options.reads) logs.old }
    ensures crank { Turned plan.now.steps.items crank.old crank.new }
    ensures logs { HaveRun plan.now.freq plan.now.options logs.old logs.new }
{
    let freq = plan.freq;
    let options = plan.options;
    let steps: &[PlanStep] = &plan.steps;
    join_mut(
        rt,
        &mut ||
            requires { PlanFits 0 0 steps.now }
            ensures { Turned steps.entry.now crank.entry.now crank.exit.now }
        { turn(crank, steps) },
        &mut ||
            requires freq { freq < 2 ^ 62 }
            requires ready { All (IsReady options.reads) logs.now }
            ensures { HaveRun freq options logs.entry.now logs.exit.now }
        { all_read(rt, logs, freq, options, gate) },
    );
}

// The driver drives, beside the readers and the crank.
fn together<R: Threads + Sync, G: Gate>(
    rt: &R,
    pen: &mut Pen,
    crank: &mut Option<Crank>,
    plan: &Plan,
    logs: &mut [ReadLog],
    gate: &G,
)
    requires freq { plan.now.freq < 2 ^ 62 }
    requires fits { PlanFits 0 0 plan.now.steps.items }
    requires journal { pen.old.journal ≡ cold ∷ [] }
    requires top { pen.old.top ≡ 0 }
    requires spare { length plan.now.steps.items ≤ pen.old.spare }
    requires ready { All (IsReady plan.now.options.reads) logs.old }
    ensures pen { IsDriven plan.now.steps.items pen.old pen.new }
    ensures crank { Turned plan.now.steps.items crank.old crank.new }
    ensures logs { HaveRun plan.now.freq plan.now.options logs.old logs.new }
{
    let steps: &[PlanStep] = &plan.steps;
    join_mut(
        rt,
        &mut ||
            requires journal { pen.now.journal ≡ cold ∷ [] }
            requires top { pen.now.top ≡ 0 }
            requires spare { length steps.now ≤ pen.now.spare }
            requires fits { PlanFits 0 0 steps.now }
            ensures { IsDriven steps.entry.now pen.entry.now pen.exit.now }
        { drive(gate, pen, steps) },
        &mut ||
            requires freq { plan.now.freq < 2 ^ 62 }
            requires fits { PlanFits 0 0 plan.now.steps.items }
            requires ready { All (IsReady plan.now.options.reads) logs.now }
            ensures crank { Turned plan.entry.now.steps.items crank.entry.now crank.exit.now }
            ensures logs { HaveRun plan.entry.now.freq plan.entry.now.options logs.entry.now
                logs.exit.now }
        { beside(rt, crank, logs, plan, gate) },
    );
}

// Lends a crank, where one is wanted.
fn lend_for(pen: &mut Pen, wanted: bool) -> Option<Crank>
    requires { pen.old.out ≡ false }
    ensures { IsLentFor wanted pen.old result pen.new }
{
    if wanted { pen.lend() } else { None }
}

// Takes a crank back, where one was lent.
fn take_back(pen: &mut Pen, crank: Option<Crank>)
    requires { IfSome crank (λ c. c.table ≡ pen.old.table) }
    ensures { IsBack crank pen.old pen.new }
{
    if let Some(c) = crank {
        pen.take_back(c);
    }
}

// Takes in the pass of a log.
fn take_in(pen: &mut Pen, log: &mut ReadLog)
    requires { HasPass pen.old.table log.old }
    ensures { TakesIn log.old log.new pen.old pen.new }
{
    if let Some(pass) = log.pass.take() {
        pen.take_in(pass);
    }
}

// Takes in the passes of all logs.
pub(crate) fn take_all(pen: &mut Pen, logs: &mut [ReadLog])
    requires { All (HasPass pen.old.table) logs.old }
    ensures { TakesAll logs.old logs.new pen.old pen.new }
{
    for log in logs.iter_mut() {
        take_in(pen, log);
    }
}

// Plays a plan by a pen.
fn play_by<R: Threads + Sync, G: Gate>(
    rt: &R,
    pen: &mut Pen,
    plan: &Plan,
    logs: &mut [ReadLog],
    gate: &G,
)
    requires freq { plan.now.freq < 2 ^ 62 }
    requires fits { PlanFits 0 0 plan.now.steps.items }
    requires journal { pen.old.journal ≡ cold ∷ [] }
    requires top { pen.old.top ≡ 0 }
    requires still { pen.old.out ≡ false }
    requires spare { length plan.now.steps.items ≤ pen.old.spare }
    requires logs { AreReady pen.old.table plan.now.options.reads logs.old }
    ensures { Played plan.now.freq plan.now.options plan.now.steps.items logs.old logs.new
        pen.old pen.new }
{
    let mut crank = lend_for(pen, plan.options.crank);
    together(rt, pen, &mut crank, plan, logs, gate);
    take_back(pen, crank);
    take_all(pen, logs);
}

/// Plays a plan on a desk whose clock was never set, with room for all ticks. In threads of their own,
/// where there are threads, and else one after the other, a driver winds the pen by each step, each reader
/// makes its attempts by the pass of its log, and with the option a crank raises the counter to each step's
/// count. Then the pen takes the crank and all passes in.
///
/// What is promised holds in whatever order their steps come. The journal is that of the steps: a legal
/// one, with their orders, and their counts, or with the crank counts that have reached them and are not
/// past the greatest. Each log has the entries that the pen keeps of its pass: as many as there are
/// attempts, each what its attempt may be answered, legal over the journal, and current at the turn word
/// that its call loaded first. No entry shows the counter past the greatest of the steps' counts.
///
/// It takes no memory. The gate is called before each attempt and before each step.
pub fn play<R: Threads + Sync, G: Gate>(
    rt: &R,
    desk: &mut Desk,
    plan: &Plan,
    logs: &mut Vec<ReadLog>,
    gate: &G,
)
    requires freq { plan.now.freq < 2 ^ 62 }
    requires fits { PlanFits 0 0 plan.now.steps.items }
    requires journal { desk.old.pen.journal ≡ cold ∷ [] }
    requires top { desk.old.pen.top ≡ 0 }
    requires still { desk.old.pen.out ≡ false }
    requires spare { length plan.now.steps.items ≤ desk.old.pen.spare }
    requires logs { AreReady desk.old.pen.table plan.now.options.reads logs.old.items }
    ensures played { Played plan.now.freq plan.now.options plan.now.steps.items
        logs.old.items logs.new.items desk.old.pen desk.new.pen }
    ensures passes { desk.new.passes ≡ desk.old.passes }
{
    play_by(rt, &mut desk.pen, plan, logs.as_mut_slice(), gate)
}
