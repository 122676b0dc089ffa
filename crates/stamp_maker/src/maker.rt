// Stamps, one after the other.
ghost use Rattle.std.specs.Prelude.{◌≡◌, ◌+◌, ◌^◌, ◌<◌, ◌≤◌, IfSome, OnSome, MatchOption};
ghost use Rattle.world_times.specs.Worlds.{LiesIn};
ghost use Rattle.stamp_maker.specs.Worlds.{made_world};
ghost use Rattle.stamp_maker.specs.MadeStamps.{made, IsWithin, stamp_of_made};

use crate::draws::{backward_delay, departure, draw, forward_delay, service};
use crate::made::{Made, exchange};
use rand_pcg::Lcg64Xsh32;
use std::marker::Model;

/// Makes stamps that are drawn from a number, one after the other. The same number and count make the
/// same stamps.
#[derive(Drop)]
pub struct Maker {
    number: u64,
    count: u32,
    made: u32,
    generator: Lcg64Xsh32,
}

impl Model for Maker {
    ghost use Rattle.stamp_maker.specs.Makers.{Making, Holds};

    ghost Value = { Making };

    ghost view = { λ m. record { number = m.number; count = m.count; made = m.made } };

    ghost invariant = { λ m. Holds m.number m.count m.made m.generator };
}

impl Maker {
    /// A maker of `count` stamps, from 1 to 16384, that are drawn from a number below 2^32.
    pub fn new(number: u64, count: u32) -> Maker
        requires number { number < 2 ^ 32 }
        requires some { 1 ≤ count }
        requires most { count ≤ 16384 }
        ensures { result ≡ record { number = number; count = count; made = 0 } }
    {
        Maker {
            number,
            count,
            made: 0,
            generator: Lcg64Xsh32::new(number, 1),
        }
    }

    /// The next stamp, which lies in the made world, or `None` where all were made, and then nothing
    /// changes any more.
    pub fn next(&mut self) -> Option<Made>
        ensures made { MatchOption result
            (self.old.made ≡ self.old.count)
            (λ m. m ≡ made self.old.number self.old.count self.old.made) }
        ensures counted { MatchOption result
            (self.new ≡ self.old)
            (λ _. self.new ≡ record self.old { made = self.old.made + 1 }) }
        ensures left { OnSome result (self.old.made < self.old.count) }
        ensures within { IfSome result IsWithin }
        ensures lies { IfSome result (λ m. LiesIn made_world (stamp_of_made m)) }
    {
        if self.made >= self.count {
            return None;
        }
        let i = self.made;
        let [first, second, third, fourth] = draw(&mut self.generator);
        self.made += 1;
        Some(exchange(
            departure(i, first),
            forward_delay(self.count, i, second),
            service(third),
            backward_delay(fourth),
        ))
    }
}
