//! The law of the numbers that clauses name.
ghost use Rattle.hpb_recover.specs.Limits.{LimitsAre};

/// Each number that the clauses of this crate name is that of the written format.
pub fn limits_are()
    ensures { LimitsAre }
{}
