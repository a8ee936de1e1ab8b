//! The laws of serving.
ghost use Rattle.hpb_serve.specs.Limits.{LimitsAre};

/// Each limit of the code is the number that the documents name.
pub fn limits_are()
    ensures { LimitsAre }
{}
