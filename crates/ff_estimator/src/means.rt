// The mean time of the kept stamps.
ghost use Rattle.std.specs.Prelude.{◌≡◌, ◌+◌, ◌^◌, ◌<◌, ◌≤◌, length, map, drop, IfSome, pos, ◌≤ℤ◌, ◌<ℤ◌};
ghost use Rattle.ff_grain.specs.Grains.{number_of};
ghost use Rattle.offset_weights.specs.Means.{mean_of, numbers_of};
ghost use Rattle.rate_pair.specs.Rates.{IsRate};
ghost use Rattle.ff_estimator.specs.Terms.{term_of};

use crate::weighings::{Weighed, weigh_all};
use ff_grain::Bintime;
use rate_pair::Rate;
use rtt_window::Window;

/// The mean time at the count `now`, and its spread, in grains of 2^-64 s, by the window's stamps from
/// the place `from` on, of which there are at most 32. `None` exactly where none of them has a weight.
///
/// Each stamp says two times for `now`: the time at which the server had the request, with what the
/// counts since the request left take at the period of `rate`, and the time at which the server
/// answered, with what the counts since the reply came take. Its time is halfway between these. It may
/// be off by half of its round trip at the highest period and of what the period may be wrong over
/// all these counts. It weighs by how many counts its round trip is above `base`, and by its age.
/// After the weighted offset estimate of Veitch, Ridoux and Korada (2009).
///
/// `freq` is the window's nominal frequency in Hz, from 10^6 to 16*10^9. `now` is below 2^62.
#[inline(always)]
pub fn mean(
    window: &Window,
    from: usize,
    freq: u64,
    base: u64,
    rate: &Rate,
    now: u64,
) -> Option<(Bintime, u128)>
    requires few { length window.now.stamps ≤ from + 32 }
    requires freq { freq ≡ window.now.freq }
    requires low { 1000000 ≤ freq }
    requires high { freq ≤ 16000000000 }
    requires now { now < 2 ^ 62 }
    requires rate { IsRate freq rate.now }
    ensures mean { numbers_of result ≡ mean_of (map (term_of freq base rate.now now) (drop from window.now.stamps)) }
    ensures time { IfSome result (λ m. (pos 0 ≤ℤ number_of m.0) × (number_of m.0 <ℤ pos (2 ^ 97))) }
    ensures spread { IfSome result (λ m. m.1 ≤ 2 ^ 97 + 1) }
{
    let mut sums = Weighed::new();
    let (older, newer) = window.from_place(from);
    weigh_all(&mut sums, older, freq, base, now);
    weigh_all(&mut sums, newer, freq, base, now);
    sums.at_rate(rate).time()
}
