//! The laws of the board.
ghost use Rattle.hpb_board.specs.Limits.{LimitsAre};

/// Each limit of the code is the number that the documents name.
pub fn limits_are()
    ensures { LimitsAre }
{}
