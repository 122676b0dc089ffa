// What holds of the definitions in an ideal world.
ghost use Rattle.world_laws.specs.Journals.{PlansGoBy, BoundsHold, ReadingsHold, PlaysHold};
ghost use Rattle.world_laws.specs.Marks.{SetsAreMarked, TakesAreMarked, TakesAreTrue};
ghost use Rattle.world_laws.specs.Truths.{UtcIsCovered};
ghost use Rattle.world_laws.specs.Laws.{PairsHold, NominalHolds, TermsHold, MeansHold, PredictionsHold, SpreadsHold, EstimatesHold};

/// The law that the bounds of a rate cover the true period: of the rate of a pair that lies in the
/// world, and of the nominal one.
pub fn rates_hold()
    ensures pair { PairsHold }
    ensures nominal { NominalHolds }
{}

/// The law that a time that is said of a later count is within its spread of the truth: by one stamp,
/// by a mean, and by a prediction.
pub fn times_hold()
    ensures term { TermsHold }
    ensures mean { MeansHold }
    ensures prediction { PredictionsHold }
{}

/// The law that each estimate of accepted stamps that lie in the world is within its spread of the
/// truth, and, unless it is marked unsynchronised, within its bound at each later count.
pub fn estimates_hold()
    ensures spread { SpreadsHold }
    ensures estimate { EstimatesHold }
{}

/// The law that the bounds of the clock cover the truth: by a journal whose takes are of the
/// estimates of accepted stamps that lie in the world, at each tick that is synchronised, and at each
/// count from its own on. A journal of the plan of their estimates is such a one.
pub fn bounds_hold()
    ensures plan { PlansGoBy }
    ensures bound { BoundsHold }
    ensures reading { ReadingsHold }
    ensures play { PlaysHold }
{}

/// The law that a set of the clock takes the promise away until the next estimate is taken: from its tick
/// on the ticks are marked unsynchronised, and the tick of the next estimate is marked as that is. Where it
/// is not, it is true again, whatever the set said.
pub fn sets_promise_nothing()
    ensures set { SetsAreMarked }
    ensures take { TakesAreMarked }
    ensures again { TakesAreTrue }
{}

/// The law that what is promised of Utc is what is promised of the absolute clock: where a reading of Utc is
/// within its bound, so is its time with the leap seconds that hold there.
pub fn utc_is_as_true()
    ensures { UtcIsCovered }
{}
