// Which stamps are accepted.
ghost use Rattle.std.specs.Prelude.{◌≡◌, ◌≤◌, ◌<◌, ◌-◌, IfSome, OnOk};
ghost use Rattle.std.specs.Option.{option_copied};
ghost use Rattle.stamp_text.specs.Accepted.{IsInRange, accept_of, is_acausal};

use crate::lines::Stamp;
use ff_grain::highest_period;

/// Why an item is refused: the first of the tests of its kind that holds, in this order. The first eight
/// are those of a stamp.
#[derive(Clone, Copy, Debug, PartialEq, Eq)]
pub enum Refused {
    /// The reply came when the request left, or before: `ta >= tf`.
    Backward,
    /// The server's times go back: `te < tb`.
    ServerBackward,
    /// The request left when the accepted one before it had no reply: `ta <= prev.tf`.
    Overlap,
    /// The server's time is before that of the accepted stamp before it: `tb < prev.te`.
    ServerOld,
    /// The round trip took more than a second: `tf - ta > freq`.
    LongTrip,
    /// The server took longer than the whole round trip, even at the greatest period.
    Acausal,
    /// The server is not synchronised: its `leap` is 3, or its stratum is 0 or above 15.
    Unsynchronised,
    /// The request left when the clock was last set, or before.
    BeforeSet,
    /// A set is not behind the last accepted stamp, or not behind the last accepted set.
    SetOld,
    /// A leap second is not behind the last accepted stamp, or there is none.
    LeapOld,
    /// The last accepted stamp does not come behind the last accepted leap second.
    LeapPending,
    /// The last accepted stamp does not say that such a leap second is to come.
    LeapUnannounced,
    /// A hundred leap seconds were accepted.
    LeapLimit,
}

// The server took longer than the round trip.
#[inline(always)]
fn is_acausal(s: &Stamp, freq: u64) -> bool
    requires low { 1000000 ≤ freq }
    requires high { freq ≤ 16000000000 }
    requires now { IsInRange s.now }
    requires forward { s.now.ta ≤ s.now.tf }
    requires trip { s.now.tf - s.now.ta ≤ freq }
    ensures { result ≡ is_acausal s.now freq }
{
    let most = u128::from(s.tf - s.ta) * u128::from(highest_period(freq));
    s.te.grains() - s.tb.grains() > most as i128
}

/// Tests a stamp against the accepted one before it, and answers the first test that holds.
///
/// `freq` is the counter's nominal frequency in Hz. After the checks that Veitch, Ridoux and Korada
/// make on a stamp before they use it.
#[inline(always)]
#[tactic(auto, unfolding(crate::specs::Accepted::accept_of))]
pub fn accept(prev: Option<&Stamp>, s: &Stamp, freq: u64) -> Result<(), Refused>
    requires low { 1000000 ≤ freq }
    requires high { freq ≤ 16000000000 }
    requires before { IfSome prev (λ p. IsInRange p.now) }
    requires now { IsInRange s.now }
    ensures answer { result ≡ accept_of (option_copied prev.entry) s.now freq }
    ensures forward { OnOk result (s.now.ta < s.now.tf) }
{
    if s.ta >= s.tf {
        return Err(Refused::Backward);
    }
    if s.te < s.tb {
        return Err(Refused::ServerBackward);
    }
    if let Some(p) = prev {
        if s.ta <= p.tf {
            return Err(Refused::Overlap);
        }
        if s.tb < p.te {
            return Err(Refused::ServerOld);
        }
    }
    let trip = s.tf - s.ta;
    if trip > freq {
        return Err(Refused::LongTrip);
    }
    if is_acausal(s, freq) {
        return Err(Refused::Acausal);
    }
    Ok(())
}
