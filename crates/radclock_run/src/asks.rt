// What a report asks of its input.
ghost use Rattle.std.specs.Prelude.{◌≡◌};
ghost use Rattle.radclock_run.specs.Asks.{takes_few};

use clock_words::Report;

/// Whether a report takes only so many accepted stamps and sets, 16,384.
pub fn takes_few(report: Report) -> bool
    ensures { result ≡ takes_few report }
{
    match report {
        Report::Stamps | Report::Rtt | Report::Estimate => false,
        Report::Ticks { .. } | Report::Replay { .. } => true,
    }
}
