// Rates of frequencies and of pairs, by their rules.
ghost use Rattle.std.specs.Prelude.{◌≡◌};

use crate::{Rate, nominal, of_pair};
use ff_grain::Bintime;
use stamp_text::Stamp;

const FREQ: u64 = 1_000_000_000;

fn rate(period: u64, low: u64, high: u64) -> Rate {
    Rate { period, low, high }
}

// An exchange in which the server kept the request for less than a second.
fn stamp(ta: u64, sec: i64, kept: u64, tf: u64) -> Stamp
    ensures ta { result.ta ≡ ta }
    ensures tb { result.tb ≡ record { sec = sec; frac = 0 } }
    ensures te { result.te ≡ record { sec = sec; frac = kept } }
    ensures tf { result.tf ≡ tf }
{
    Stamp {
        ta,
        tb: Bintime { sec, frac: 0 },
        te: Bintime { sec, frac: kept },
        tf,
        stratum: 1,
        leap: 0,
    }
}

#[test]
fn frequencies_have_their_rates(rt: HostRuntime) {
    let wanted = rate(18_446_744_072, 18_437_520_700, 18_455_967_444);
    assert_eq!(rt; nominal(FREQ), wanted);
    assert_eq!(rt; nominal(2_400_000_000).period, 7_686_143_364);
    assert_eq!(rt; nominal(1_000_000).period, 18_446_744_073_708);
}

#[test]
fn pairs_have_their_rates(rt: HostRuntime) {
    let second = stamp(17_000_000_000, 1_700_000_016, 0, 17_000_100_000);
    let first = stamp(1_000_000_000, 1_700_000_000, 0, 1_000_100_000);
    let wanted = rate(18_446_744_073, 18_446_628_782, 18_446_859_367);
    assert_eq!(rt; of_pair(&first, &second, FREQ), wanted);
    let kept = stamp(1_000_000_000, 1_700_000_000, 1 << 50, 1_000_100_000);
    let wanted = rate(18_446_708_889, 18_446_593_598, 18_446_824_182);
    assert_eq!(rt; of_pair(&kept, &second, FREQ), wanted);
    // The bounds, the lowest and the highest period that are believed.
    let first = stamp(0, 5, 0, 500_000_000);
    let second = stamp(2_000_000_000, 7, 0, 2_500_000_000);
    let wanted = rate(18_446_744_073, 18_437_520_700, 18_455_967_444);
    assert_eq!(rt; of_pair(&first, &second, FREQ), wanted);
    let early = stamp(2_000_000_000, 6, 0, 2_500_000_000);
    let lowest = rate(18_437_520_700, 18_437_520_700, 18_437_520_700);
    assert_eq!(rt; of_pair(&first, &early, FREQ), lowest);
    let late = stamp(2_000_000_000, 9, 0, 2_500_000_000);
    let highest = rate(18_455_967_444, 18_455_967_444, 18_455_967_444);
    assert_eq!(rt; of_pair(&first, &late, FREQ), highest);
}
