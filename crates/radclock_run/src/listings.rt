// The lines of a journal and of logs.
ghost use Rattle.std.specs.Prelude.{◌≡◌, ◌<◌, ◌^◌, All, length};
ghost use Rattle.rad_io.specs.Pushes.{Writes};
ghost use Rattle.radclock_run.specs.Plays.{entries_of};
ghost use Rattle.radclock_run.specs.Reports.{tick_lines, entry_lines, log_lines};

use clock_lines::Entry;
use ff_hands::Hands;
use rad_io::{Failed, Sink};
use replay_run::ReadLog;
use report_text::LineText;
use report_text::entries::entry_line;
use report_text::lines::tick_line;

/// Pushes a line for each tick. It takes no memory.
pub fn push_journal<K: Sink>(sink: &mut K, ticks: &[Hands]) -> Result<(), Failed>
    ensures { Writes K.written K.faults K.push_gives sink.old (tick_lines 0 ticks.now) result
        sink.new }
{
    let mut line = LineText::new();
    for (n, h) in ticks.iter().enumerate() {
        tick_line(sink, &mut line, n as u64, h)?;
    }
    Ok(())
}

// Pushes a line for each entry of a reader.
fn push_log<K: Sink>(
    sink: &mut K,
    line: &mut LineText,
    reader: u32,
    entries: &[Entry],
) -> Result<(), Failed>
    requires { length entries.now < 2 ^ 32 }
    ensures { Writes K.written K.faults K.push_gives sink.old (entry_lines reader 0 entries.now)
        result sink.new }
{
    for (k, e) in entries.iter().enumerate() {
        entry_line(sink, line, reader, k as u32, e)?;
    }
    Ok(())
}

/// Pushes a line for each entry of each reader. It takes no memory.
pub fn push_logs<K: Sink>(sink: &mut K, logs: &[ReadLog]) -> Result<(), Failed>
    requires few { length logs.now < 2 ^ 32 }
    requires short { All (λ l. length l.entries.items < 2 ^ 32) logs.now }
    ensures { Writes K.written K.faults K.push_gives sink.old (log_lines 0 (entries_of logs.now))
        result sink.new }
{
    let mut line = LineText::new();
    for (i, log) in logs.iter().enumerate() {
        push_log(sink, &mut line, i as u32, &log.entries)?;
    }
    Ok(())
}
