//! The record of a device in memory.

/// A call that was made.
#[derive(Drop)]
pub enum Done {
    Read,
    Write(usize, Vec<u8>),
    Sync,
}
