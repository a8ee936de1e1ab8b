ghost use Rattle.hpb_program.specs.Limits.{LimitsAre};

/// Each limit of the code is the one in the documents.
pub fn limits_are()
    ensures { LimitsAre }
{}
