//! Readers and writers of a session that note what happens between them.
ghost use Rattle.std.specs.Io.{ReadsAtMost};

use std::cell::Cell;
use std::io;
use std::io::{Read, Write};

/// The events of a session, as both of its ends see them.
#[derive(Drop)]
pub(crate) struct Talk {
    reads: Cell<usize>,
    pub(crate) writes: Cell<usize>,
    /// How many lines were written, and how many of them were flushed.
    written: Cell<usize>,
    pub(crate) flushed: Cell<usize>,
    /// Whether more was asked for before all that had been given was answered and flushed.
    pub(crate) early: Cell<bool>,
}

impl Talk {
    pub(crate) fn new() -> Self {
        Talk {
            reads: Cell::new(0),
            writes: Cell::new(0),
            written: Cell::new(0),
            flushed: Cell::new(0),
            early: Cell::new(false),
        }
    }
}

/// Gives one line a read.
#[derive(Drop)]
pub(crate) struct Lines<'a> {
    pub(crate) talk: &'a Talk,
    pub(crate) rest: &'a [u8],
}

impl Read for Lines<'_> {
    fn read(&mut self, buffer: &mut [u8]) -> io::Result<usize> {
        let reads = self.talk.reads.get();
        if self.talk.flushed.get() < reads {
            self.talk.early.set(true);
        }
        self.talk.reads.set(reads.saturating_add(1));
        let length = line_length(self.rest);
        give(&mut self.rest, buffer, length)
    }
}

/// How many bytes the first line has, its end included.
fn line_length(bytes: &[u8]) -> usize {
    match bytes.iter().position(|byte| *byte == b'\n') {
        Some(end) => end + 1,
        None => bytes.len(),
    }
}

/// Gives at most `most` bytes.
fn give(rest: &mut &[u8], buffer: &mut [u8], most: usize) -> io::Result<usize>
    ensures { ReadsAtMost result buffer.new }
{
    let all = *rest;
    let length = most.min(all.len()).min(buffer.len());
    buffer[..length].copy_from_slice(&all[..length]);
    *rest = &all[length..];
    Ok(length)
}

/// Counts the lines that are written, and the calls.
#[derive(Drop)]
pub(crate) struct Counts<'a> {
    pub(crate) talk: &'a Talk,
}

impl Write for Counts<'_> {
    fn write(&mut self, bytes: &[u8]) -> io::Result<usize> {
        let lines = bytes.iter().filter(|byte| **byte == b'\n').count();
        self.talk
            .written
            .set(self.talk.written.get().saturating_add(lines));
        self.talk
            .writes
            .set(self.talk.writes.get().saturating_add(1));
        Ok(bytes.len())
    }

    fn flush(&mut self) -> io::Result<()> {
        self.talk.flushed.set(self.talk.written.get());
        Ok(())
    }
}
