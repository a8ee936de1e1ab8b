/// How many pages a formatted device has at least.
pub const LEAST_PAGES: usize = 17;

/// The offset of the head, behind its gate.
pub const HEAD_AT: usize = 16;

/// The bytes of a head's magic.
pub const MAGIC_BYTES: usize = 8;
