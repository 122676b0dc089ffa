// The command `ticks`.
ghost use Rattle.std.specs.Prelude.{◌≡◌, List};
ghost use Rattle.rad_io.specs.Pushes.{Writes};
ghost use Rattle.callouts.specs.Firings.{fired_at, firing_list};
ghost use Rattle.callouts.specs.declared.timers.Entry.{Entry};
ghost use Rattle.radclock_run.specs.Reports.{fire_lines, ticks_text, timed_lines};

use callouts::{Firing, split_firings};
use ff_hands::Hands;
use rad_io::{Failed, Sink};
use report_text::lines::{fire_line, tick_line};
use report_text::{EndCounts, LineText, ReportHead, end_line, head_line};

// Pushes a line for each of these timers, which fire.
fn push_fires<K: Sink>(sink: &mut K, line: &mut LineText, fired: &[Firing]) -> Result<(), Failed>
    ensures { Writes K.written K.faults K.push_gives sink.old (fire_lines fired.now) result sink.new }
{
    for f in fired {
        fire_line(sink, line, f.tick, &f.fired)?;
    }
    Ok(())
}

// Pushes a line for each tick, and behind it one for each timer that fires at it. Those of all ticks come in the
// order in which they fire.
fn push_timed<K: Sink>(sink: &mut K, ticks: &[Hands], fired: &[Firing]) -> Result<(), Failed>
    ensures { (ess : List (List Entry)) → fired.now ≡ firing_list 0 ess →
        Writes K.written K.faults K.push_gives sink.old (timed_lines (fired_at ess) 0 ticks.now) result
        sink.new }
{
    let mut line = LineText::new();
    let mut rest = fired;
    for (n, h) in ticks.iter().enumerate() {
        tick_line(sink, &mut line, n as u64, h)?;
        let (now, later) = split_firings(n as u64, rest);
        push_fires(sink, &mut line, now)?;
        rest = later;
    }
    Ok(())
}

/// Pushes the report on a journal: its head, a line for each tick and for each timer that fires at it, and its
/// end. It takes no memory.
pub fn push_ticks<K: Sink>(
    sink: &mut K,
    head: &ReportHead,
    ticks: &[Hands],
    fired: &[Firing],
    counts: &EndCounts,
) -> Result<(), Failed>
    ensures { (ess : List (List Entry)) → fired.now ≡ firing_list 0 ess →
        Writes K.written K.faults K.push_gives sink.old
        (ticks_text head.now (fired_at ess) ticks.now counts.now) result sink.new }
{
    head_line(sink, head)?;
    push_timed(sink, ticks, fired)?;
    end_line(sink, counts)
}
