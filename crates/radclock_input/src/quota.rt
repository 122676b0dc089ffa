// The limit on accepted stamps and sets.
use crate::files::{MOST_ACCEPTED, accept_item};
use crate::stops::Stop;
use report_text::Limit;
use stamp_text::{Item, Past};

/// The limit on accepted stamps and sets, and how far those so far have come.
#[derive(Drop)]
pub struct Quota {
    // Where there is no limit, no item is tested.
    pub limited: bool,
    // The accepted items, as far as tests ask for them.
    pub past: Past,
    // How many stamps and sets there are among them.
    pub accepted: usize,
}

impl Quota {
    ghost use Rattle.std.specs.Prelude.{◌≤◌, IfErr, OnOk};
    ghost use Rattle.stamp_text.specs.Accepted.{IsItemInRange};
    ghost use Rattle.stamp_text.specs.Format.{least_freq, greatest_freq};
    ghost use Rattle.radclock_input.specs.Readings.{Admits, IsCounted, IsOver, IsSpent};

    // Counts an item that is accepted: a stamp or a set. A leap second does not count.
    #[inline(always)]
    fn count(&mut self, item: &Item) -> Result<(), Stop>
        ensures ok { OnOk result (IsCounted self.old self.new item.now) }
        ensures err { IfErr result (λ stop. IsOver stop self.old item.now) }
    {
        match item {
            Item::Leap { .. } => Ok(()),
            Item::Stamp(_) | Item::Set { .. } => {
                if self.accepted >= MOST_ACCEPTED {
                    return Err(Stop::Large(Limit::Accepted));
                }
                self.accepted += 1;
                Ok(())
            }
        }
    }

    /// Tests an item where there is a limit, and counts it where it is accepted.
    #[inline(always)]
    pub fn admit(&mut self, freq: u64, item: &Item) -> Result<(), Stop>
        requires low { least_freq ≤ freq }
        requires high { freq ≤ greatest_freq }
        requires range { IsItemInRange item.now }
        ensures ok { OnOk result (Admits self.old self.new freq item.now) }
        ensures err { IfErr result (λ stop. IsSpent stop self.old freq item.now) }
    {
        if !self.limited {
            return Ok(());
        }
        match accept_item(&mut self.past, item, freq) {
            Err(_) => Ok(()),
            Ok(()) => match self.count(item) {
                Ok(()) => Ok(()),
                Err(stop) => Err(stop),
            },
        }
    }
}
