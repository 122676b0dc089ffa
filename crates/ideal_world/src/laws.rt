// What holds of made stamps, and of the farthest tick.
ghost use Rattle.ideal_world.specs.Deviations.{DeviationsAreBounded};
ghost use Rattle.ideal_world.specs.MadeTruth.{MadeEstimatesAreTrue, MadeTicksAreTrue};

/// The law that the estimates of made stamps are true in the made world, and the ticks of a journal of
/// their plan that are not marked unsynchronised.
pub fn made_stamps_hold()
    ensures estimates { MadeEstimatesAreTrue }
    ensures ticks { MadeTicksAreTrue }
{}

/// The law that where the ticks are true, the farthest one is off by at most its bound, unless it is
/// marked unsynchronised.
pub fn deviations_are_bounded()
    ensures { DeviationsAreBounded }
{}
