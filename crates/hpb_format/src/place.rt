//! The gates before the journal.

/// The gate of the head.
pub(crate) const HEAD_GATE: usize = 0;

/// The gates of the two slots.
pub(crate) const FIRST_GATE: usize = 12_288;

pub(crate) const SECOND_GATE: usize = 32_768;
