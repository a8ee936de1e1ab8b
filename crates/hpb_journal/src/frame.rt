use hpb_codec::Batch;

/// The contents of the frame of a batch, as a reader of that batch sees them.
#[derive(Drop)]
pub enum Frame {
    /// Its gate isn't open: the frame is empty.
    Closed,
    /// It is open with the index of another batch.
    Other,
    /// It is open and holds the batch.
    Batch(Batch),
    /// It is open with the batch's index, and its body spells no batch.
    Damaged,
}
