/// All went well.
pub const WELL: u8 = 0;

/// The job wasn't done, or ended ill: a definition, its file or memory was refused, or a stream or a call of the disk failed.
pub const ILL: u8 = 1;

/// The words were wrong.
pub const WRONG_WORDS: u8 = 2;
