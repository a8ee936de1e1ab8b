/// The offset of the first byte of the slots. The head lies before it.
pub const SLOTS_AT: usize = 12_288;

/// The offset behind the last byte of the slots. The journal begins there.
pub const SLOTS_END: usize = 53_248;

/// The bytes of a slot: the page of its gate, and the four of its body.
pub(crate) const SLOT_BYTES: usize = 20_480;
