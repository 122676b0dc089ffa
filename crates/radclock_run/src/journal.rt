// The journal of a clock that is played a file's items.
ghost use Rattle.std.specs.Prelude.{◌≡◌, ◌≤◌, List, [], length, count_by, option_map, IfOk, IfSome, None, Some};
ghost use Rattle.stamp_text.specs.Format.{least_freq, greatest_freq};
ghost use Rattle.stamp_text.specs.declared.lines.Item.{Item};
ghost use Rattle.ff_estimator.specs.Events.{AreOf};
ghost use Rattle.replay_run.specs.Journals.{journal_of};
ghost use Rattle.replay_run.specs.Plans.{plan_of};
ghost use Rattle.callouts.specs.Firings.{asked_timers, firing_list, firings};
ghost use Rattle.clock_words.specs.Lines.{most_ticks, most_timers};
ghost use Rattle.radclock_run.specs.Gathered.{is_estimate};
ghost use Rattle.radclock_input.specs.Inputs.{IsRanged};
ghost use Rattle.radclock_run.specs.Journals.{played_by};
ghost use Rattle.radclock_run.specs.Reports.{outcomes, ticks_counts};

use crate::gather::{Said, said_by};
use crate::plays::play;
use callouts::{Firing, fire_asked};
use clock_core::Core;
use ff_estimator::Event;
use ff_grain::NoMemory;
use radclock_input::StampFile;
use replay_run::{Options, Plan};
use report_text::EndCounts;
use std::alloc::Global;
use std::sync::ledger::Ledger;
use step_count::Steps;

/// A clock that was played what a file's items say, the timers that fire at its ticks, and what the end of its
/// report counts.
#[derive(Drop)]
pub struct Played {
    pub core: Core,
    pub fired: Vec<Firing>,
    pub counts: EndCounts,
}

// A clock that was played the events of accepted items in one thread. All memory that the play
// wants is taken before it begins.
fn clock_for(alloc: Global, freq: u64, events: &[Event], ticks: u32) -> Result<Core, NoMemory>
    requires low { least_freq ≤ freq }
    requires high { freq ≤ greatest_freq }
    requires of { (all : List Item) × AreOf events.now freq all }
    requires ticks { ticks ≤ most_ticks }
    ensures { IfOk result (λ core. core.ticks ≡ journal_of
        (plan_of freq events.now ticks)) }
{
    let options = Options {
        ticks,
        readers: 0,
        reads: 0,
        back: false,
        crank: false,
        utc: false,
    };
    let plan = Plan::of(alloc, freq, events, &options)?;
    let mut core = Core::new(alloc)?;
    core.reserve(plan.steps.len())?;
    play(&mut core, &plan.steps);
    Ok(core)
}

fn is_estimate(event: &Event) -> bool
    ensures { result ≡ is_estimate event.now }
{
    match event {
        Event::Estimate(_) => true,
        Event::Set { .. } => false,
    }
}

// How many stamps are accepted: each has its estimate.
fn estimates_in(events: &[Event]) -> usize
    ensures { result ≡ count_by is_estimate events.now }
{
    events.iter().filter(|event| is_estimate(event)).count()
}

// What the end of the report on a file counts: the accepted stamps, the refused items, the ticks, and the
// timers that fire at them, if they are asked for.
fn counts_of(said: &Said, core: &Core, timers: Option<u32>, fired: &[Firing]) -> EndCounts
    ensures { result ≡ record {
      accepted = count_by is_estimate said.now.events.items;
      refused = said.now.refused;
      ticks = Some (length core.now.ticks);
      entries = None;
      fired = option_map (λ _. length fired.now) timers;
    } }
{
    EndCounts {
        accepted: estimates_in(&said.events) as u64,
        refused: said.refused,
        ticks: Some(core.ticks().len() as u64),
        entries: None,
        fired: timers.map(|_| fired.len() as u64),
    }
}

/// Plays a clock what a file's accepted items say, with so many plain steps between two of
/// them, at most 15, and fires so many timers at its ticks, at most 1,000, if they are asked for. Want of
/// memory is the only error.
pub fn play_file<L: Ledger>(
    alloc: Global,
    file: &StampFile,
    ticks: u32,
    timers: Option<u32>,
    steps: &mut Steps<L>,
) -> Result<Played, NoMemory>
    requires ranged { IsRanged file.now.head.freq file.now.items.items }
    requires ticks { ticks ≤ most_ticks }
    requires timers { IfSome timers (λ n. n ≤ most_timers) }
    ensures ticks { IfOk result (λ p. p.core.ticks ≡ played_by file.now.head.freq ticks
        file.now.items.items) }
    ensures fired { IfOk result (λ p. p.fired.items ≡ firing_list 0
        (firings (asked_timers timers) p.core.ticks)) }
    ensures counts { IfOk result (λ p. p.counts ≡ ticks_counts timers
        (outcomes file.now.head.freq [] file.now.items.items) p.core.ticks) }
{
    let said = said_by(alloc, file, steps)?;
    let core = clock_for(alloc, file.head.freq, &said.events, ticks)?;
    let fired = fire_asked(alloc, timers, core.ticks())?;
    let counts = counts_of(&said, &core, timers, &fired);
    Ok(Played {
        core,
        fired,
        counts,
    })
}
