//! The result of an offer to a keeper.

use hpb_rules::{Answers, Letters};

/// What became of letters that were offered.
#[derive(Drop)]
pub enum Offered {
    /// They are prepared on the board, and their new commands are in flight.
    InFlight,
    /// No letter is new. These are the answers to all of them, and they are published.
    Answered(Answers),
    /// They are handed back unchanged, and nothing has changed.
    Back(Letters, Reason),
}

/// Why letters are handed back. Of several reasons that apply, it is the first by `Keeper::offer`.
#[derive(Clone, Copy, Debug, PartialEq, Eq)]
pub enum Reason {
    /// A batch is in flight.
    Busy,
    /// Some letters are new, and no clean frame is left.
    Full,
    /// 93 `failed`: a call of the device has failed.
    Failed,
    /// The answers to a seat would number more than the board can count.
    Spent,
    /// 90 `memory`: memory was refused.
    Memory,
}
