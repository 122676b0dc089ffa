// The command `run`.
ghost use Rattle.std.specs.Prelude.{◌≡◌, ◌-◌, ◌<◌, IfOk, Some, count_by, length, slice_get, OnOk, ◌++◌};
ghost use Rattle.rad_io.specs.Pushes.{Writes};
ghost use Rattle.stamp_text.specs.Past.{AreAcceptedItems};
ghost use Rattle.stamp_maker.specs.Worlds.{frequency};
ghost use Rattle.ff_estimator.specs.Events.{AreOf, full_of_event, fulls_of};
ghost use Rattle.std.specs.Option.{option_to_list};
ghost use Rattle.ff_hands.specs.Journals.{IsJournal};
ghost use Rattle.clock_core.specs.Machines.{newest};
ghost use Rattle.tick_desk.specs.Shows.{IsFresh};
ghost use Rattle.radclock_run.specs.MadeRuns.{IsAskedInRange, run_fulls, run_head, summary_of, run_counts, opening_lines, told_lines, closing_lines, run_lines, run_text};
ghost use Rattle.radclock_run.specs.Replays.{logs_of, run_options, run_items, IsTold};
ghost use Rattle.radclock_run.specs.Plays.{IsPlanFor, IsReadyFor, entries_in};
ghost use Rattle.radclock_run.specs.Endings.{EndsWith, Summarises};

use crate::faults::refuse;
use crate::gather::gather_made;
use crate::replay::open;
use crate::status::Status;
use ff_estimator::{Event, Full};
use ff_grain::NoMemory;
use ff_hands::Hands;
use ideal_world::{Deviation, Watched, farthest};
use rad_io::{Failed, Gate, Sink};
use replay_run::{Options, Plan, ReadLog, play};
use report_text::lines::{estimate_line, tick_line};
use report_text::{
    EndCounts, FaultText, LineText, ReportHead, Summary, end_line, head_line, ideal_line,
    summary_line,
};
use stamp_maker::{FREQ, Maker, made_world};
use std::alloc::Global;
use std::sync::ledger::{Blank, Ledger};
use std::thread::Threads;
use step_count::Steps;
use tick_desk::{Desk, Pen};

/// What the words of a run ask for.
#[derive(Clone, Copy)]
pub struct Asked {
    /// The number that its stamps are drawn from, below 2^32.
    pub number: u64,
    /// How many stamps are made, from 1 to 4,096.
    pub count: u32,
    /// How far the clock was from the truth is asked for as well.
    pub ideal: bool,
}

/// How a run is replayed.
const OPTIONS: Options = Options {
    ticks: 4,
    readers: 4,
    reads: 1000,
    back: false,
    crank: false,
    utc: false,
};

/// The version of a file of made stamps.
const VERSION: u32 = 1;

// What a run wants before its first tick: the estimates, their plan, and the readers' logs with their
// passes.
#[derive(Drop)]
struct Ready {
    fulls: Vec<Full>,
    plan: Plan,
    logs: Vec<ReadLog>,
}

// Makes the stamps, and feeds each to a daemon that is watched in the made world, which accepts it.
fn made_events<L: Ledger>(
    alloc: Global,
    asked: &Asked,
    steps: &mut Steps<L>,
) -> Result<Vec<Event>, NoMemory>
    requires asked { IsAskedInRange asked.now }
    ensures { IfOk result (λ events. AreOf events.items frequency (run_items asked.now)) }
{
    let mut watched = Watched::new(alloc, made_world(), FREQ)?;
    let mut events = Vec::new(alloc);
    let mut maker = Maker::new(asked.number, asked.count);
    while let Some(made) = maker.next() {
        gather_made(&mut watched, &mut events, made.stamp(), steps)?;
    }
    Ok(events)
}

// Keeps the estimate of an event, if it is one.
fn push_full(fulls: &mut Vec<Full>, event: &Event) -> Result<(), NoMemory>
    ensures { OnOk result (fulls.new.items ≡ fulls.old.items ++ option_to_list (full_of_event event.now)) }
{
    match event {
        Event::Estimate(full) => fulls.push(*full)?,
        Event::Set { .. } => {}
    }
    Ok(())
}

// The estimates among events.
fn fulls_of(alloc: Global, events: &[Event]) -> Result<Vec<Full>, NoMemory>
    ensures { IfOk result (λ fulls. fulls.items ≡ fulls_of events.now) }
{
    let mut fulls = Vec::new(alloc);
    for event in events {
        push_full(&mut fulls, event)?;
    }
    Ok(fulls)
}

// Takes all memory that a run wants. No tick is made.
fn prepare<L: Ledger>(
    alloc: Global,
    asked: &Asked,
    steps: &mut Steps<L>,
    desk: &mut Desk,
) -> Result<Ready, NoMemory>
    requires asked { IsAskedInRange asked.now }
    requires fresh { IsFresh desk.old.pen desk.old.passes.items }
    ensures plan { IfOk result (λ r. IsPlanFor frequency run_options (run_items asked.now) r.plan) }
    ensures ready { IfOk result (λ r. IsReadyFor run_options (length r.plan.steps.items)
        r.logs.items desk.new.pen) }
    ensures accepted { IfOk result (λ r. AreAcceptedItems frequency (run_items asked.now)) }
    ensures fulls { IfOk result (λ r. r.fulls.items ≡ run_fulls asked.now) }
    ensures journal { desk.new.pen.journal ≡ desk.old.pen.journal }
{
    let events = made_events(alloc, asked, steps)?;
    let fulls = fulls_of(alloc, &events)?;
    let plan = Plan::of(alloc, FREQ, &events, &OPTIONS)?;
    let logs = open(alloc, desk, &plan, plan.steps.len())?;
    Ok(Ready { fulls, plan, logs })
}

fn shifts(fulls: &[Full]) -> usize
    ensures { result ≡ count_by (λ f. f.shifted) fulls.now }
{
    fulls.iter().filter(|full| full.shifted).count()
}

fn predicted(fulls: &[Full]) -> usize
    ensures { result ≡ count_by (λ f. f.predicted) fulls.now }
{
    fulls.iter().filter(|full| full.predicted).count()
}

fn local(fulls: &[Full]) -> usize
    ensures { result ≡ count_by (λ f. f.local) fulls.now }
{
    fulls.iter().filter(|full| full.local).count()
}

// What the summary counts, where each stamp is accepted.
fn summary_of(fulls: &[Full]) -> Summary
    ensures { result ≡ summary_of fulls.now }
{
    Summary {
        accepted: fulls.len() as u64,
        refused: 0,
        shifts: shifts(fulls) as u64,
        predicted: predicted(fulls) as u64,
        local: local(fulls) as u64,
    }
}

// Pushes the report line and the summary.
fn push_opening<K: Sink>(sink: &mut K, asked: &Asked, fulls: &[Full]) -> Result<(), Failed>
    ensures { Writes K.written K.faults K.push_gives sink.old (opening_lines asked.now fulls.now)
        result sink.new }
{
    let head = ReportHead::Run {
        number: asked.number,
        count: asked.count,
        ideal: asked.ideal,
    };
    head_line(sink, &head)?;
    summary_line(sink, &summary_of(fulls))
}

// The tick that is farthest from the truth in the made world, where it is asked for.
fn farthest_told(asked: &Asked, ticks: &[Hands]) -> Option<Deviation>
    requires journal { IsJournal ticks.now }
    requires many { 2 < length ticks.now }
    ensures { IsTold asked.now ticks.now result }
{
    if asked.ideal {
        farthest(&made_world(), ticks)
    } else {
        None
    }
}

// Pushes what is told of the truth.
fn push_told<K: Sink>(sink: &mut K, told: Option<Deviation>) -> Result<(), Failed>
    ensures { Writes K.written K.faults K.push_gives sink.old (told_lines told) result sink.new }
{
    match told {
        Some(f) => ideal_line(sink, f.tick, f.distance, f.bound),
        None => Ok(()),
    }
}

// The last of some estimates.
fn last_full(fulls: &[Full]) -> Full
    requires { 0 < length fulls.now }
    ensures { slice_get fulls.now (length fulls.now - 1) ≡ Some result }
{
    fulls[fulls.len() - 1]
}

// The last of some ticks.
fn newest(ticks: &[Hands]) -> Hands
    requires { 0 < length ticks.now }
    ensures { result ≡ newest ticks.now }
{
    ticks[ticks.len() - 1]
}

// Pushes the last estimate, the last tick, and the end.
fn push_closing<K: Sink>(
    sink: &mut K,
    fulls: &[Full],
    ticks: &[Hands],
    entries: u64,
) -> Result<(), Failed>
    requires fulls { 0 < length fulls.now }
    requires ticks { 0 < length ticks.now }
    ensures { Writes K.written K.faults K.push_gives sink.old
        (closing_lines fulls.now ticks.now entries) result sink.new }
{
    let counts = EndCounts {
        accepted: fulls.len() as u64,
        refused: 0,
        ticks: Some(ticks.len() as u64),
        entries: Some(entries),
        fired: None,
    };
    let mut line = LineText::new();
    estimate_line(
        sink,
        &mut line,
        fulls.len() as u64 - 1,
        &last_full(fulls),
        VERSION,
    )?;
    tick_line(sink, &mut line, ticks.len() as u64 - 1, &newest(ticks))?;
    end_line(sink, &counts)
}

// Pushes the report on a run. It takes no memory.
fn push_run<K: Sink>(
    sink: &mut K,
    asked: &Asked,
    fulls: &[Full],
    told: Option<Deviation>,
    ticks: &[Hands],
    entries: u64,
) -> Result<(), Failed>
    requires fulls { 0 < length fulls.now }
    requires ticks { 0 < length ticks.now }
    ensures { Writes K.written K.faults K.push_gives sink.old
        (run_lines asked.now fulls.now told ticks.now entries) result sink.new }
{
    push_opening(sink, asked, fulls)?;
    push_told(sink, told)?;
    push_closing(sink, fulls, ticks, entries)
}

// Pushes the report on a run, and ends.
fn tell<K: Sink>(
    sink: &mut K,
    asked: &Asked,
    fulls: &[Full],
    told: Option<Deviation>,
    pen: &Pen,
) -> Status
    requires some { 0 < length fulls.now }
    requires fulls { fulls.now ≡ run_fulls asked.now }
    requires entries { entries_in (logs_of pen.now) ≡ 4000 }
    ensures { EndsWith K.written K.faults K.push_gives sink.old (run_text asked.now told pen.now)
        Status.Done result sink.new }
{
    let entries = u64::from(OPTIONS.readers) * u64::from(OPTIONS.reads);
    match push_run(sink, asked, fulls, told, pen.journal(), entries) {
        Ok(()) => Status::Done,
        Err(Failed) => Status::WriteFault,
    }
}

/// Makes stamps, plays their estimates on a fresh desk, beside readers, and pushes the report. All
/// memory is taken before the first tick. The comparisons of round trips are counted in a ledger of
/// their own, which ends here.
pub fn run_made<R: Threads + Sync, K: Sink, G: Gate, L: Ledger>(
    rt: &R,
    alloc: Global,
    sink: &mut K,
    asked: &Asked,
    desk: &mut Desk,
    gate: &G,
    blank: Blank,
) -> Status
    requires name { blank.name ≡ L.name }
    requires parts { blank.parts ≡ L.parts }
    requires some { 0 < blank.parts }
    requires asked { IsAskedInRange asked.now }
    requires fresh { IsFresh desk.old.pen desk.old.passes.items }
    ensures { Summarises K.written K.faults K.push_gives asked.now sink.old desk.old result
        sink.new desk.new }
{
    let mut steps = Steps::<L>::new(blank);
    match prepare(alloc, asked, &mut steps, desk) {
        Ok(ready) => {
            let Ready {
                fulls,
                plan,
                mut logs,
            } = ready;
            play(rt, desk, &plan, &mut logs, gate);
            let told = farthest_told(asked, desk.pen.journal());
            tell(sink, asked, &fulls, told, &desk.pen)
        }
        Err(NoMemory) => refuse(sink, FaultText::Memory, Status::NoMemory),
    }
}
