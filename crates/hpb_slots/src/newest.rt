use crate::Slot;

/// The slot that holds the newest state of a device.
#[derive(Clone, Copy, Debug, PartialEq, Eq)]
pub struct Newest {
    pub slot: Slot,
    /// How many batches the state covers.
    pub index: u64,
    /// Whether the gate of the other slot is open, whatever stands behind it.
    pub other_open: bool,
}
