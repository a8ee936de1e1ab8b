//! How often events came.

use std::fmt;

/// How often each kind of event of a walk must come, at least.
const LEAST: u64 = 21;

/// How often each kind of event came in a walk.
#[derive(Clone, Copy, Debug, Default, PartialEq, Eq)]
pub(crate) struct Tally {
    /// Stops, those after which the batch in flight had landed, and those after which the walk went on with the device
    /// that was left.
    pub(crate) stops: u64,
    pub(crate) landed: u64,
    pub(crate) restarts: u64,
    /// Batches that were acknowledged, and offers that were answered at once, or handed back.
    pub(crate) done: u64,
    pub(crate) old: u64,
    pub(crate) full: u64,
    pub(crate) busy: u64,
    /// Checkpoints that became whole, and steps with nothing to do.
    pub(crate) whole: u64,
    pub(crate) idle: u64,
}

impl Tally {
    /// Whether each kind of event came often.
    pub(crate) fn is_full(&self) -> bool {
        self.landed >= LEAST
            && self.restarts >= LEAST
            && self.done >= LEAST
            && self.old >= LEAST
            && self.full >= LEAST
            && self.busy >= LEAST
            && self.whole >= LEAST
            && self.idle >= LEAST
    }
}

/// Counts one more.
pub(crate) fn count_one(counter: &mut u64) {
    *counter = counter.saturating_add(1);
}

impl fmt::Display for Tally {
    fn fmt<W: fmt::Write>(&self, f: &mut fmt::Formatter<W>) -> fmt::Result {
        write!(
            f,
            "{} stops, {} landed, {} restarts, {} done, {} old, {} full, {} busy, {} whole, {} idle",
            self.stops,
            self.landed,
            self.restarts,
            self.done,
            self.old,
            self.full,
            self.busy,
            self.whole,
            self.idle
        )
    }
}
