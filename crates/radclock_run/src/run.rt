// The top call.
ghost use Rattle.std.specs.Prelude.{◌≡◌, ◌≤◌, ◌<◌, ◌^◌, List, [], true, map};
ghost use Rattle.callouts.specs.Firings.{fired_at, firing_list};
ghost use Rattle.callouts.specs.declared.timers.Entry.{Entry};
ghost use Rattle.clock_words.specs.Lines.{IsReportInRange, command_in};
ghost use Rattle.tick_desk.specs.Shows.{IsFresh};
ghost use Rattle.radclock_input.specs.Inputs.{IsRanged, counted_among, most_accepted};
ghost use Rattle.radclock_run.specs.Asks.{takes_few};
ghost use Rattle.stamp_maker.specs.MadeStamps.{made_list};
ghost use Rattle.report_text.specs.MadeFiles.{file_lines_of};
ghost use Rattle.radclock_run.specs.Reports.{outcomes, ticks_text};
ghost use Rattle.radclock_run.specs.Tellings.{report};
ghost use Rattle.radclock_run.specs.Endings.{EndsWith, Finishes};
ghost use Rattle.radclock_run.specs.Runs.{ByLines, Ran};

use crate::asks::takes_few;
use crate::bases::Bases;
use crate::captures::convert;
use crate::estimates::Estimates;
use crate::faults::refuse;
use crate::journal::{Played, play_file};
use crate::make::push_made;
use crate::ran::{Asked, run_made};
use crate::replay::replay;
use crate::reports::{Telling, push_report};
use crate::stamps::Stamps;
use crate::status::{Status, fault_of, status_of};
use crate::ticks::push_ticks;
use clock_words::{Command, Report, command_of};
use ff_estimator::Daemon;
use ff_grain::NoMemory;
use rad_io::{Failed, Gate, Sink, Source};
use radclock_input::{StampFile, read_file};
use replay_run::Options;
use report_text::{FaultText, ReportHead};
use rtt_window::Window;
use stamp_text::Head;
use std::alloc::Global;
use std::marker::Brand;
use std::sync::ledger::{Blank, Ledger};
use std::thread::Threads;
use step_count::Steps;
use tick_desk::Desk;

// Pushes the report on a file by what tells of its items, and ends.
fn report<K: Sink, T: Telling>(
    sink: &mut K,
    telling: &mut T,
    head: &ReportHead,
    file: &StampFile,
) -> Status
    requires ranged { IsRanged file.now.head.freq file.now.items.items }
    requires fresh { T.stands telling.old file.now.head [] }
    ensures { EndsWith K.written K.faults K.push_gives sink.old
        (report head.now (T.says file.now.head) (outcomes file.now.head.freq [] file.now.items.items))
        Status.Done result sink.new }
{
    match push_report(sink, telling, head, file) {
        Ok(()) => Status::Done,
        Err(Failed) => Status::WriteFault,
    }
}

// Pushes the report on the journal of a clock and on the timers that fire at its ticks, and ends.
fn report_ticks<K: Sink>(sink: &mut K, head: &ReportHead, played: &Played) -> Status
    ensures { (ess : List (List Entry)) → played.now.fired.items ≡ firing_list 0 ess →
        EndsWith K.written K.faults K.push_gives sink.old
        (ticks_text head.now (fired_at ess) played.now.core.ticks played.now.counts) Status.Done result
        sink.new }
{
    match push_ticks(
        sink,
        head,
        played.core.ticks(),
        &played.fired,
        &played.counts,
    ) {
        Ok(()) => Status::Done,
        Err(Failed) => Status::WriteFault,
    }
}

// Takes the memory that a report wants, pushes it, and ends. The comparisons of round trips are
// counted in a ledger of their own, which ends here.
#[tactic(auto, unfolding(crate::specs::Reports::report_of))]
fn finish<R: Threads + Sync, K: Sink, G: Gate, L: Ledger + Send>(
    rt: &R,
    alloc: Global,
    sink: &mut K,
    asked: Report,
    file: &StampFile,
    desk: &mut Desk,
    gate: &G,
    blank: Blank,
) -> Status
    requires name { blank.name ≡ L.name }
    requires parts { blank.parts ≡ L.parts }
    requires some { 0 < blank.parts }
    requires asked { IsReportInRange asked }
    requires ranged { IsRanged file.now.head.freq file.now.items.items }
    requires few { takes_few asked ≡ true →
        counted_among file.now.head.freq file.now.items.items ≤ most_accepted }
    requires fresh { IsFresh desk.old.pen desk.old.passes.items }
    ensures { Finishes K.written K.faults K.push_gives asked file.now.head file.now.items.items
        sink.old desk.old result sink.new desk.new }
{
    let Head { version, freq } = file.head;
    let mut steps = Steps::<L>::new(blank);
    match asked {
        Report::Stamps => {
            let head = ReportHead::Stamps { freq, version };
            report(sink, &mut Stamps { version }, &head, file)
        }
        Report::Rtt => match Window::new(alloc, freq) {
            Ok(window) => {
                let head = ReportHead::Rtt { freq, version };
                report(sink, &mut Bases { window, steps }, &head, file)
            }
            Err(NoMemory) => refuse(sink, FaultText::Memory, Status::NoMemory),
        },
        Report::Estimate => match Daemon::new(alloc, freq) {
            Ok(daemon) => {
                let head = ReportHead::Estimate { freq, version };
                let mut telling = Estimates {
                    version,
                    daemon,
                    steps,
                };
                report(sink, &mut telling, &head, file)
            }
            Err(NoMemory) => refuse(sink, FaultText::Memory, Status::NoMemory),
        },
        Report::Ticks { ticks, timers } => {
            match play_file(alloc, file, ticks, timers, &mut steps) {
                Ok(played) => {
                    let head = ReportHead::Ticks {
                        freq,
                        ticks,
                        timers,
                        version,
                    };
                    report_ticks(sink, &head, &played)
                }
                Err(NoMemory) => refuse(sink, FaultText::Memory, Status::NoMemory),
            }
        }
        Report::Replay {
            ticks,
            readers,
            reads,
            back,
            crank,
            utc,
            lane,
        } => {
            let options = Options {
                ticks,
                readers,
                reads,
                back,
                crank,
                utc,
            };
            replay(rt, alloc, sink, &options, lane, file, steps, desk, gate)
        }
    }
}

// Pushes a made file, and ends.
fn make<K: Sink>(sink: &mut K, number: u64, count: u32) -> Status
    requires number { number < 2 ^ 32 }
    requires some { 1 ≤ count }
    requires most { count ≤ 16384 }
    ensures { EndsWith K.written K.faults K.push_gives sink.old
        (file_lines_of (made_list number count)) Status.Done result sink.new }
{
    match push_made(sink, number, count) {
        Ok(()) => Status::Done,
        Err(Failed) => Status::WriteFault,
    }
}

/// Does the whole work of the program: reads the words after the program's name, then, where they ask for a
/// report or for what a capture becomes, the whole input in pieces of at most 4,096 bytes, and then writes
/// the report or the file that the words ask for, or the one line of a fault.
///
/// Its clause is one record, `Ran`, over one text: that which single pulls gave, to its end or to what
/// stopped it. Its parts say which status comes and when, what was read and written, the headline, the
/// truth, and what the desk holds. They speak of single pulls and pushes alone, so they hold of standard
/// streams as of bytes in memory. What follows in bytes and in counts of faults, where the source and the
/// sink tell these, is said by `lines_tell`.
///
/// The headline is of a replay and of a run over made stamps that is done. In every order in which the
/// steps of the driver, the readers and the crank may come:
///
/// - the journal is a legal one with the plan's orders; with a crank each of its counts is from the
///   plan's to the plan's greatest, and without one it is the plan's own journal;
/// - the estimates that its ticks took are those of the accepted stamps, each once and in order, and behind
///   the reset at its start it was reset by the accepted sets of the file and by nothing else;
/// - there is one log for each reader, with as many entries as attempts were asked for;
/// - each log is legal over the journal: each reading is the value by one tick, at a count not past
///   the next tick;
/// - a call has to be made again only where a windup stood open or came between, or took the slot of
///   the tick that the call was at;
/// - each entry is current at its opening value, what the turn word held at the first load of its call;
/// - the counter that its entries show is not past the plan's greatest count, and none is told to be
///   ahead of it;
/// - between resets uninterrupted readings never fall as the counts rise, whoever read them.
///
/// The truth: in each world in which the counter runs at one rate and that the accepted stamps lie in,
/// estimates are off by at most what was told of their error, and so are readings of the absolute clock
/// and of intervals by ticks that are not marked unsynchronised. Of the other clocks nothing is said.
pub fn run<'w, R: Threads + Sync, S: Source, K: Sink, G: Gate>(
    rt: &R,
    alloc: Global,
    words: &'w [&'w str],
    source: &mut S,
    sink: &mut K,
    desk: &mut Desk,
    gate: &G,
) -> Status
    // Nothing was done with the desk.
    requires fresh { IsFresh desk.old.pen desk.old.passes.items }

    ensures { Ran S.pull_gives (ByLines K.push_gives) (command_in (map (λ w. w.now) words.entry.now))
        source.old source.new sink.old sink.new desk.old desk.new result }
{
    let asked = match command_of(alloc, words) {
        Ok(Some(Command::Report(asked))) => asked,
        Ok(Some(Command::Capture)) => return convert(alloc, source, sink),
        Ok(Some(Command::Make { number, count })) => return make(sink, number, count),
        Ok(
            Some(
                Command::Run {
                    number,
                    count,
                    ideal,
                },
            ),
        ) => {
            let asked = Asked {
                number,
                count,
                ideal,
            };
            let blank = Blank::new(1);
            return run_made::<R, K, G, Brand>(rt, alloc, sink, &asked, desk, gate, blank);
        }
        Ok(None) => return refuse(sink, FaultText::Usage, Status::Usage),
        Err(NoMemory) => return refuse(sink, FaultText::Memory, Status::NoMemory),
    };
    match read_file(alloc, source, takes_few(asked)) {
        Ok(file) => {
            let blank = Blank::new(1);
            finish::<R, K, G, Brand>(rt, alloc, sink, asked, &file, desk, gate, blank)
        }
        Err(stop) => refuse(sink, fault_of(stop), status_of(stop)),
    }
}
