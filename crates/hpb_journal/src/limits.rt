/// The offset of the first byte of a journal. Head and slots lie before it, in every layout.
pub const JOURNAL_AT: usize = 53_248;

/// The bytes of a frame of three cells.
pub const CELL_FRAME_BYTES: usize = 1_536;

/// The offset of the body of a frame within the frame.
pub(crate) const BODY_AT: usize = 16;
