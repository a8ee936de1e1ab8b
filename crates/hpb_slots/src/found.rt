/// The contents of one slot.
#[derive(Clone, Copy, Debug)]
pub(crate) struct Found {
    /// Whether its gate is open.
    pub(crate) is_open: bool,
    /// How many batches its state covers, if it is open and holds a state.
    pub(crate) index: Option<u64>,
}
