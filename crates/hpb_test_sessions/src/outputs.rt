//! An output that counts writes, and one that fails.

use std::io;
use std::io::{ErrorKind, Write};

/// An output that fails.
#[derive(Drop)]
pub(crate) struct Deaf;

impl Write for Deaf {
    fn write(&mut self, _bytes: &[u8]) -> io::Result<usize> {
        Err(ErrorKind::BrokenPipe.into())
    }

    fn flush(&mut self) -> io::Result<()> {
        Err(ErrorKind::BrokenPipe.into())
    }
}

/// An output that counts writes.
#[derive(Drop)]
pub(crate) struct Counted {
    pub(crate) bytes: Vec<u8>,
    pub(crate) writes: u32,
}

impl Write for Counted {
    fn write(&mut self, bytes: &[u8]) -> io::Result<usize> {
        self.writes = self.writes.saturating_add(1);
        self.bytes.write(bytes)
    }

    fn flush(&mut self) -> io::Result<()> {
        Ok(())
    }
}
