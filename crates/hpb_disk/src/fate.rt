//! The fates of a write at a stop.

/// The fate, at a stop, of a write that no sync covers.
#[derive(Clone, Copy, Debug, PartialEq, Eq)]
pub enum Fate {
    /// The write is whole.
    Kept,
    /// The write is gone, as if it had not been made.
    Lost,
    /// The range of the write is filled with this byte.
    Filled(u8),
}
