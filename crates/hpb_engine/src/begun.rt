//! What becomes of letters that are offered to an engine.
use hpb_rules::{Answers, Letters};

/// What would become of letters if they were offered now. Of several that apply, the first counts.
#[derive(Clone, Copy, Debug, PartialEq, Eq)]
pub enum Weight {
    /// 93 `failed`: a call of the device has failed before.
    Failed,
    /// A batch is in flight. The letters can be offered again once it is acknowledged.
    Busy,
    /// No letter is new: each is refused or a repeat, or there is none.
    Old,
    /// Some letters are new, and no clean frame is left. A checkpoint makes frames clean again.
    Full,
    /// Some letters are new, and nothing bars them.
    New,
}

/// Why letters that are offered can't be taken. Of several that apply, the first counts.
#[derive(Clone, Copy, Debug, PartialEq, Eq)]
pub enum Bar {
    /// 93 `failed`: a call of the device has failed before.
    Failed,
    /// A batch is in flight.
    Busy,
    /// Some letters are new, and no clean frame is left.
    Full,
}

/// What became of letters that were offered. Letters that aren't taken are handed back.
#[derive(Drop)]
pub enum Begun {
    /// 93 `failed`: a call of the device has failed before.
    Failed(Letters),
    /// A batch is in flight.
    Busy(Letters),
    /// No letter is new. These are the answers to all of them, and nothing changes.
    Answered(Answers),
    /// Some letters are new, and no clean frame is left.
    Full(Letters),
    /// The new commands are in flight.
    InFlight,
}
