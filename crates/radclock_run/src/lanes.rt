// A replay whose daemon has a thread of its own.
ghost use Rattle.std.specs.Prelude.{◌≡◌, ◌+◌, ◌-◌, ◌*◌, ◌≤◌, [], false, IfOk, OnErr};
ghost use Rattle.tick_desk.specs.Shows.{IsFresh};
ghost use Rattle.replay_run.specs.Plans.{AreOptionsInRange};
ghost use Rattle.radclock_input.specs.Inputs.{IsRanged, accepted_among, counted_among, most_accepted};
ghost use Rattle.radclock_run.specs.Plays.{ArePlayed};

use crate::gather::accepted_items;
use crate::replay::open;
use est_lane::Lane;
use ff_estimator::Daemon;
use ff_grain::NoMemory;
use rad_io::Gate;
use radclock_input::StampFile;
use replay_run::{Options, Plan, ReadLog, count_events, play_lane};
use std::alloc::Global;
use std::sync::ledger::Ledger;
use std::thread::Threads;
use step_count::Steps;
use tick_desk::Desk;

// How many steps the plan of so many events has.
fn steps_for(events: usize, ticks: u32) -> usize
    requires events { events ≤ most_accepted }
    requires ticks { ticks ≤ 15 }
    ensures { result ≡ 1 + events + ticks * (events - 1) }
{
    1 + events + ticks as usize * events.saturating_sub(1)
}

/// Plays what a new daemon in a thread of its own says of a file's accepted items, on a fresh desk. It sends its events
/// over a lane that has room for all of them. All memory is taken before the first tick.
pub fn play_on_lane<R: Threads + Sync, G: Gate, L: Ledger + Send>(
    rt: &R,
    alloc: Global,
    file: &StampFile,
    options: &Options,
    steps: &mut Steps<L>,
    desk: &mut Desk,
    gate: &G,
) -> Result<Vec<ReadLog>, NoMemory>
    requires ranged { IsRanged file.now.head.freq file.now.items.items }
    requires few { counted_among file.now.head.freq file.now.items.items ≤ most_accepted }
    requires options { AreOptionsInRange options.now }
    requires alone { options.now.crank ≡ false }
    requires fresh { IsFresh desk.old.pen desk.old.passes.items }
    ensures played { IfOk result (λ logs. ArePlayed options.now file.now.head.freq
        (accepted_among file.now.head.freq [] file.now.items.items) desk.new.pen logs.items) }
    ensures journal { OnErr result (desk.new.pen.journal ≡ desk.old.pen.journal) }
{
    let freq = file.head.freq;
    let items = accepted_items(alloc, file)?;
    let events = count_events(&items);
    let mut daemon = Daemon::new(alloc, freq)?;
    let mut lane = Lane::new(alloc, events.max(1))?;
    let mut got = Vec::with_capacity(alloc, events)?;
    // The logs go by the options alone: the steps are made as the events come.
    let plan = Plan {
        freq,
        options: *options,
        steps: Vec::new(alloc),
    };
    let mut logs = open(alloc, desk, &plan, steps_for(events, options.ticks))?;
    play_lane(
        rt,
        desk,
        freq,
        &items,
        &mut daemon,
        &mut lane,
        options,
        &mut got,
        &mut logs,
        gate,
        steps,
    );
    Ok(logs)
}
