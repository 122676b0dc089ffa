// What a daemon says of accepted items, sent over a lane.
ghost use Rattle.std.specs.Prelude.{◌≡◌, ℕ, ◌+◌, ◌*◌, ◌≤◌, List, [], ◌∷◌, ◌++◌, length, Ok};
ghost use Rattle.std.specs.Option.{option_to_list};
ghost use Rattle.stamp_text.specs.Accepted.{IsItemInRange};
ghost use Rattle.stamp_text.specs.Past.{accept_item, counts_of, count_of_item, stamps_of};
ghost use Rattle.stamp_text.specs.declared.lines.Item.{Item};
ghost use Rattle.ff_estimator.specs.Daemons.{StandsFor, credit};
ghost use Rattle.ff_estimator.specs.Events.{event_behind, events_of};
ghost use Rattle.est_lane.specs.Lanes.{sent_by, room_of, SameIn};
ghost use Rattle.replay_run.specs.Laps.{AreAcceptedBehind};

use est_lane::LaneIn;
use ff_estimator::{Daemon, Event, Fed};
use stamp_text::Item;
use std::sync::ledger::Ledger;
use step_count::Steps;

// How many events an item gives.
fn events_at(x: &Item) -> usize
    ensures value { result ≡ length (option_to_list (count_of_item x.now)) }
    ensures most { result ≤ 1 }
{
    match x {
        Item::Stamp(_) | Item::Set { .. } => 1,
        Item::Leap { .. } => 0,
    }
}

/// How many events accepted items give: one for each stamp and each set, and none for a leap second.
pub fn count_events(items: &[Item]) -> usize
    ensures value { result ≡ length (counts_of items.now) }
    ensures most { result ≤ length items.now }
{
    let mut events = 0;
    for x in items {
        events += events_at(x);
    }
    events
}

// Hands an accepted item to a daemon. It answers what that says to a clock, if anything.
fn say<L: Ledger>(daemon: &mut Daemon, x: Item, steps: &mut Steps<L>) -> Option<Event>
    requires { IsItemInRange x }
    ensures said { (freq : ℕ) (before : List Item) → StandsFor daemon.old freq before →
        accept_item freq before x ≡ Ok tt → result ≡ event_behind freq before x }
    ensures stands { (freq : ℕ) (before : List Item) → StandsFor daemon.old freq before →
        accept_item freq before x ≡ Ok tt → StandsFor daemon.new freq (before ++ x ∷ []) }
    ensures paid { steps.new + credit daemon.new ≤
        steps.old + credit daemon.old + 12 * length (stamps_of (x ∷ [])) }
{
    match x {
        Item::Stamp(stamp) => match daemon.feed(stamp, steps) {
            Fed::Estimate(full) => Some(Event::Estimate(full)),
            Fed::Refused(_) => None,
        },
        Item::Set { count, at } => match daemon.set(count) {
            Ok(()) => Some(Event::Set { count, at }),
            Err(_) => None,
        },
        Item::Leap { count, leap } => {
            let _taken = daemon.leap(count, leap);
            None
        }
    }
}

// Sends what was said, if anything.
fn send_said(input: &mut LaneIn, said: Option<Event>)
    requires { length (sent_by input.old ++ option_to_list said) ≤ room_of input.old }
    ensures end { SameIn input.old input.new }
    ensures sent { sent_by input.new ≡ sent_by input.old ++ option_to_list said }
{
    if let Some(e) = said {
        input.send(e);
    }
}

// Feeds a new daemon for a counter of `freq` Hz all items, and sends each event.
pub(crate) fn feed_all<L: Ledger>(
    input: &mut LaneIn,
    freq: u64,
    items: &[Item],
    daemon: &mut Daemon,
    steps: &mut Steps<L>,
)
    requires new { StandsFor daemon.old freq [] }
    requires items { AreAcceptedBehind freq [] items.now }
    requires unused { sent_by input.old ≡ [] }
    requires room { length (events_of freq items.now) ≤ room_of input.old }
    ensures end { SameIn input.old input.new }
    ensures sent { sent_by input.new ≡ events_of freq items.now }
    ensures steps { steps.new ≤ steps.old + 12 * length (stamps_of items.now) }
{
    for x in items {
        let said = say(daemon, *x, steps);
        send_said(input, said);
    }
}
