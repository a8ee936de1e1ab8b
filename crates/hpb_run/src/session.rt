//! The streams of a session, and its pace.

use std::io::{Read, Write};

/// The streams that a session reads and writes.
#[derive(Drop)]
pub struct Session<'r, 'w, 'e, R: Read, W: Write, E: Write> {
    /// The lines.
    pub reader: &'r mut R,
    /// The answers, one for each line.
    pub writer: &'w mut W,
    /// At a terminal: behind the answer of a refused command, which number would do. Elsewhere nothing is written here.
    pub errors: &'e mut E,
    /// People type the lines: commands are committed one at a time.
    pub is_terminal: bool,
}

/// How often a session commits, and how often it makes a checkpoint.
#[derive(Clone, Copy)]
pub struct Pace {
    /// How many commands are committed together if that many have come, from 1 to 64. Any other number counts as the
    /// nearest of these.
    pub batch: usize,
    /// After how many commits a checkpoint is due. If it is 0, one is made only when the journal is full.
    pub every: u32,
}
