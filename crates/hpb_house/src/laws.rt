//! The laws of the house.
ghost use Rattle.hpb_house.specs.Limits.{LimitsAre};

/// Each limit of the code is the number that the documents name.
pub fn limits_are()
    ensures { LimitsAre }
{}
