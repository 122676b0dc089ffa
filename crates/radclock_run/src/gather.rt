// What the accepted items of a file say to a clock.
ghost use Rattle.std.specs.Prelude.{◌≡◌, ℕ, List, [], IfOk, OnOk, not, if◌then◌else◌};
ghost use Rattle.stamp_text.specs.Accepted.{IsInRange, IsItemInRange, accepted_with};
ghost use Rattle.stamp_text.specs.Past.{accept_item};
ghost use Rattle.stamp_text.specs.declared.lines.Item.{Item};
ghost use Rattle.stamp_text.specs.declared.lines.Item.TheVariants as item;
ghost use Rattle.world_times.specs.Worlds.{LiesIn};
ghost use Rattle.radclock_input.specs.Inputs.{IsRanged, accepted_among};
ghost use Rattle.radclock_run.specs.Gathered.{AreEvents, Gathered, IsGathered};
ghost use Rattle.radclock_run.specs.Reports.{outcomes, refused_in};

use ff_estimator::{Daemon, Event, Fed};
use ff_grain::NoMemory;
use ideal_world::{Judged, Watched};
use radclock_input::{StampFile, accept_item};
use stamp_text::{Item, Past, Stamp};
use std::alloc::Global;
use std::sync::ledger::Ledger;
use step_count::Steps;

/// What the accepted items of a file say to a clock, and how many items are refused.
#[derive(Drop)]
pub struct Said {
    pub events: Vec<Event>,
    pub refused: u64,
}

// Hands an item to a daemon, and keeps what it says to a clock where it is accepted. It answers whether it
// is. Want of memory is the only error.
fn gather<L: Ledger>(
    daemon: &mut Daemon,
    events: &mut Vec<Event>,
    x: Item,
    steps: &mut Steps<L>,
) -> Result<bool, NoMemory>
    requires { IsItemInRange x }
    ensures { IfOk result (λ accepted. (freq : ℕ) (all : List Item) →
        Gathered daemon.old events.old.items freq all →
        IsGathered daemon.new events.new.items freq all x accepted) }
{
    match x {
        Item::Stamp(stamp) => match daemon.feed(stamp, steps) {
            Fed::Estimate(full) => {
                events.push(Event::Estimate(full))?;
                Ok(true)
            }
            Fed::Refused(_) => Ok(false),
        },
        Item::Set { count, at } => match daemon.set(count) {
            Ok(()) => {
                events.push(Event::Set { count, at })?;
                Ok(true)
            }
            Err(_) => Ok(false),
        },
        Item::Leap { count, leap } => Ok(daemon.leap(count, leap).is_ok()),
    }
}

/// Feeds a made stamp, which lies in the made world, to a daemon that is watched there, and keeps the
/// estimate at it where it is accepted. Want of memory is the only error.
pub fn gather_made<L: Ledger>(
    watched: &mut Watched,
    events: &mut Vec<Event>,
    s: Stamp,
    steps: &mut Steps<L>,
) -> Result<(), NoMemory>
    requires ranged { IsInRange s }
    requires lies { LiesIn watched.old.world s }
    ensures gathered { OnOk result ((freq : ℕ) (all : List Item) →
        Gathered watched.old.daemon events.old.items freq all →
        Gathered watched.new.daemon events.new.items freq
        (accepted_with all (item.Stamp s) (accept_item freq all (item.Stamp s)))) }
    ensures world { watched.new.world ≡ watched.old.world }
{
    match watched.feed(s, steps) {
        Judged::Estimate { full, .. } => events.push(Event::Estimate(full))?,
        Judged::Refused(_) => {}
        Judged::Outside => unreachable!(),
    }
    Ok(())
}

// How many refusals an answer is.
fn refusals(accepted: bool) -> u64
    ensures { result ≡ (if not accepted then 1 else 0) }
{
    if accepted { 0 } else { 1 }
}

/// What each accepted item of a file says to a clock. Want of memory is the only error.
pub fn said_by<L: Ledger>(
    alloc: Global,
    file: &StampFile,
    steps: &mut Steps<L>,
) -> Result<Said, NoMemory>
    requires ranged { IsRanged file.now.head.freq file.now.items.items }
    ensures events { IfOk result (λ said.
        AreEvents said.events.items file.now.head.freq file.now.items.items) }
    ensures refused { IfOk result (λ said. said.refused ≡
        refused_in (outcomes file.now.head.freq [] file.now.items.items)) }
{
    let mut daemon = Daemon::new(alloc, file.head.freq)?;
    let mut events = Vec::new(alloc);
    let mut refused = 0;
    for x in &file.items {
        let accepted = gather(&mut daemon, &mut events, x.item, steps)?;
        refused += refusals(accepted);
    }
    Ok(Said { events, refused })
}

/// The accepted items of a file, in their order. Want of memory is the only error.
pub fn accepted_items(alloc: Global, file: &StampFile) -> Result<Vec<Item>, NoMemory>
    requires ranged { IsRanged file.now.head.freq file.now.items.items }
    ensures { IfOk result (λ items. items.items ≡
        accepted_among file.now.head.freq [] file.now.items.items) }
{
    let mut past = Past::new();
    let mut items = Vec::new(alloc);
    for x in &file.items {
        match accept_item(&mut past, &x.item, file.head.freq) {
            Ok(()) => items.push(x.item)?,
            Err(_) => {}
        }
    }
    Ok(items)
}
