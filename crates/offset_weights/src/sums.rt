// Sums of weighted terms, and their mean.
ghost use Rattle.std.specs.Prelude.{◌≡◌, ◌+◌, ◌*◌, ◌-◌, ◌^◌, ◌<◌, ◌≤◌, List, [], ◌∷◌, ◌++◌, IfSome, IsNone, ◌↔◌, pos, ◌≤ℤ◌, ◌<ℤ◌};
ghost use Rattle.ff_grain.specs.Grains.{number_of};

use ff_grain::Bintime;
use std::marker::Model;

/// Sums over weighted terms, each with twice a time and twice its spread in grains of 2^-64 s. It
/// keeps how many terms were added and the sums alone, not the terms.
#[derive(Drop)]
pub struct Sums {
    added: u32,
    weight: u32,
    time: u128,
    spread: u128,
}

impl Model for Sums {
    ghost use Rattle.offset_weights.specs.Means.{Kept, IsBounded};

    ghost Value = { Kept };

    ghost view = { λ s. record { added = s.added; weight = s.weight; time = s.time; spread = s.spread } };

    ghost invariant = { λ s. IsBounded s.added s.weight s.time s.spread };
}

impl Default for Sums {
    fn default() -> Sums {
        Sums::new()
    }
}

impl Sums {
    ghost use Rattle.offset_weights.specs.Means.{Term, StandsFor, IsBounded, mean_of, numbers_of};

    /// No term.
    pub fn new() -> Sums
        ensures none { StandsFor result [] }
        ensures added { result.added ≡ 0 }
    {
        Sums {
            added: 0,
            weight: 0,
            time: 0,
            spread: 0,
        }
    }

    /// The sums over so many terms of a weight from 1 to 65536, each with twice its time and twice its
    /// spread below 2^98 grains: their weights, and by these the times and the spreads.
    #[inline(always)]
    pub fn of(added: u32, weight: u32, time: u128, spread: u128) -> Sums
        requires { IsBounded added weight time spread }
        ensures { result ≡ record { added = added; weight = weight; time = time; spread = spread } }
    {
        Sums {
            added,
            weight,
            time,
            spread,
        }
    }

    /// Adds a term: its weight from 1 to 65536, and twice its time and twice its spread in grains,
    /// each below 2^98. At most 32 terms may be added.
    ///
    /// A term of weight 0 is not added: it would change no sum.
    pub fn add(&mut self, weight: u32, twice_time: u128, twice_spread: u128)
        requires least { 1 ≤ weight }
        requires most { weight ≤ 65536 }
        requires few { self.old.added < 32 }
        requires time { twice_time < 2 ^ 98 }
        requires spread { twice_spread < 2 ^ 98 }
        ensures stands { (terms : List Term) → StandsFor self.old terms →
            let term : Term = record { weight = weight; twice_time = twice_time; twice_spread = twice_spread } in
            StandsFor self.new (terms ++ term ∷ []) }
        ensures added { self.new.added ≡ self.old.added + 1 }
    {
        self.added += 1;
        self.weight += weight;
        self.time += u128::from(weight) * twice_time;
        self.spread += u128::from(weight) * twice_spread;
    }

    /// The mean time of the terms, rounded down to a whole grain, and its spread: the mean spread
    /// in grains, rounded up, and one more for the rounding of the time. `None` exactly where the
    /// weights sum to 0.
    ///
    /// After the weighted offset estimate of Veitch, Ridoux and Korada.
    #[inline(always)]
    #[tactic(auto, using(crate::proofs::MeanLaws::mean_of_none, crate::proofs::MeanLaws::mean_of_some, crate::proofs::MeanLaws::mean_below))]
    pub fn time(&self) -> Option<(Bintime, u128)>
        ensures mean { (terms : List Term) → StandsFor self.now terms → numbers_of result ≡ mean_of terms }
        ensures none { IsNone result ↔ (self.now.weight ≡ 0) }
        ensures time { IfSome result (λ m. (pos 0 ≤ℤ number_of m.0) × (number_of m.0 <ℤ pos (2 ^ 97))) }
        ensures spread { IfSome result (λ m. m.1 ≤ 2 ^ 97 + 1) }
    {
        if self.weight == 0 {
            return None;
        }
        let twice = 2 * u128::from(self.weight);
        let time = self.time / twice;
        let spread = self.spread.div_ceil(twice) + 1;
        Some((Bintime::of_grains(time as i128), spread))
    }
}

#[cfg(test)]
mod tests {
    use super::*;

    // One term: 21/6 is 3.5 and 15/6 is 2.5. Both: (2^67 + 23)/8 is 2^64 + 2.875 and 19/8 is 2.375.
    #[test]
    fn means_are_rounded_down_and_spreads_up(rt: HostRuntime) {
        let mut sums = Sums::new();
        assert_eq!(rt; sums.time(), None);
        sums.add(3, 7, 5);
        assert_eq!(rt; sums.time(), Some((Bintime { sec: 0, frac: 3 }, 4)));
        sums.add(1, (1 << 67) + 2, 4);
        assert_eq!(rt; sums.time(), Some((Bintime { sec: 1, frac: 2 }, 4)));
    }
}
