/// The terms on which a licence is sold: its bidding units, and its opening, the lowest first bid in whole dollars.
#[derive(Clone, Copy, Debug, PartialEq, Eq)]
pub struct Terms {
    /// In bidding units.
    pub units: u32,
    /// In whole dollars.
    pub opening: u64,
}
