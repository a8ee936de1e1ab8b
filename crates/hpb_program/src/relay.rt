//! Notices while an auction is served. A thread writes them by standard error's descriptor, since the program's own
//! `errors` belong to another thread alone.

use crate::waiting::{Waiting, wait_for};
use hpb_messages::MissedNotices;
use hpb_server::{read_some, say};
use std::alloc::{AllocError, Global};
use std::fs::Files;
use std::io::{PipeReader, PipeWriter, Write, pipe};
use std::os::fd::{AsRawFd, RawFd};
use std::sync::atomic::{AtomicU64, Ordering};
use std::thread::{Builder, Threads};
use std::{fmt, io};

/// How many descriptors a relay has: both ends of two pipes.
pub(crate) const RELAY_DESCRIPTORS: u32 = 4;

/// How many bytes the stack of the relay's thread has.
const STACK_BYTES: usize = 128 * 1_024;

/// How many bytes its thread writes at a time. Other writers into the same pipe can't come between so few.
const PART_BYTES: usize = 4_096;

/// How long the relay's end waits for a reader who doesn't read, in milliseconds.
const LAST_WAIT: i32 = 1_000;

/// How long a notice waits if no thread takes it, in milliseconds.
const NO_WAIT: i32 = 0;

/// Takes notices, and has a thread of its own write them to standard error, in order. So a caller with a notice never
/// waits for its reader. A notice that finds no room is left out and counted, and the next notice says how many were.
/// When the relay is dropped, it waits for a while until all is written.
pub(crate) struct Relay {
    alloc: Global,
    /// `None` if the system gave no pipe or no thread. Then a notice is written only if standard error takes it at
    /// once.
    ends: Option<Ends>,
    /// How many notices were left out since the last one that was taken.
    missed: AtomicU64,
}

/// The ends of a relay's pipes that its thread doesn't have.
#[derive(Drop)]
pub(crate) struct Ends {
    /// Takes notices. A write never waits, and takes all of its lines or none.
    pub(crate) lines: PipeWriter,
    /// Ends when the thread has written all.
    pub(crate) over: PipeReader,
}

impl Relay {
    /// Starts a relay, which has taken nothing yet.
    pub(crate) fn start<R: Files + Threads>(rt: &R, alloc: Global) -> Relay {
        Relay::over(alloc, start_thread(rt).ok())
    }

    /// A relay over these ends.
    pub(crate) fn over(alloc: Global, ends: Option<Ends>) -> Relay {
        Relay {
            alloc,
            ends,
            missed: AtomicU64::new(0),
        }
    }

    /// Takes a notice, if there is room and memory for it.
    pub(crate) fn notify<N: fmt::Display + Copy>(&self, notice: N) {
        let missed = self.missed.swap(0, Ordering::SeqCst);
        let is_taken = match lines_of(self.alloc, missed, notice) {
            Ok(lines) => self.take(lines.as_bytes()),
            Err(_) => false,
        };
        if !is_taken {
            let missing = missed.saturating_add(1);
            self.missed.fetch_add(missing, Ordering::SeqCst);
        }
    }

    /// Takes lines. `false` if there is no room for all of them; then none is taken.
    fn take(&self, lines: &[u8]) -> bool {
        match &self.ends {
            Some(ends) => ends.take(lines),
            None => write_at_once(lines),
        }
    }
}

impl Drop for Relay {
    fn drop(self) {
        let Relay {
            alloc,
            ends,
            missed,
        } = self;
        if let Some(ends) = ends {
            ends.finish(alloc, missed.into_inner());
        }
    }
}

impl Ends {
    fn take(&self, lines: &[u8]) -> bool {
        let mut pipe = &self.lines;
        matches!(pipe.write(lines), Ok(count) if count == lines.len())
    }

    /// Lets the thread end once it has written all, and waits for that, unless nobody reads.
    fn finish(self, alloc: Global, missed: u64) {
        let is_read = missed == 0 || self.tell_missed(alloc, missed);
        let Ends { lines, over } = self;
        drop(lines);
        if is_read {
            wait_for(over.as_raw_fd(), libc::net::POLLIN, LAST_WAIT);
        }
    }

    /// Sends a notice of how many were left out behind the last one. `false` if nobody reads.
    fn tell_missed(&self, alloc: Global, missed: u64) -> bool {
        if !wait_for(self.lines.as_raw_fd(), libc::net::POLLOUT, LAST_WAIT) {
            return false;
        }
        let left_out = MissedNotices(missed);
        match format!(in alloc; "hpb: {left_out}\n") {
            Ok(line) => self.take(line.as_bytes()),
            Err(_) => true,
        }
    }
}

/// The lines of a notice. If some were left out before it, a line says how many.
fn lines_of<N: fmt::Display + Copy>(
    alloc: Global,
    missed: u64,
    notice: N,
) -> Result<String, AllocError> {
    if missed == 0 {
        return format!(in alloc; "hpb: {notice}\n");
    }
    let left_out = MissedNotices(missed);
    format!(in alloc; "hpb: {left_out}\nhpb: {notice}\n")
}

/// Starts the thread of a relay. Nobody joins it: if nobody reads standard error, it is left behind.
fn start_thread<R: Files + Threads>(rt: &R) -> io::Result<Ends> {
    let (taken, lines) = pipe(rt)?;
    let (over, open) = pipe(rt)?;
    if os::set_nonblocking(lines.as_raw_fd(), true) < 0 {
        return Err(io::Error::from_raw_os_error(os::errno()));
    }
    let copies = move || {
        copy_to_errors(taken);
        drop(open);
    };
    Builder::new().stack_size(STACK_BYTES).spawn(rt, copies)?;
    Ok(Ends { lines, over })
}

/// Writes all that comes out of a pipe to standard error, and waits until that takes it.
fn copy_to_errors(pipe: PipeReader) {
    let (mut pipe, mut errors) = (pipe, Waiting::new(Errors));
    let mut part = [0; PART_BYTES];
    for _ in 0..u64::MAX {
        match read_some(&mut pipe, &mut part, PART_BYTES) {
            Ok(0) | Err(_) => return,
            Ok(count) => say(&part[..count], &mut errors),
        }
    }
}

/// Writes lines to standard error if it takes them at once.
fn write_at_once(lines: &[u8]) -> bool {
    if !wait_for(libc::STDERR_FILENO, libc::net::POLLOUT, NO_WAIT) {
        return false;
    }
    matches!(Errors.write(lines), Ok(count) if count == lines.len())
}

/// Standard error, by its descriptor.
#[derive(Clone, Copy)]
struct Errors;

impl AsRawFd for Errors {
    fn as_raw_fd(&self) -> RawFd {
        libc::STDERR_FILENO
    }
}

impl Write for Errors {
    fn write(&mut self, bytes: &[u8]) -> io::Result<usize> {
        match usize::try_from(libc::write(libc::STDERR_FILENO, bytes)) {
            Ok(count) => Ok(count),
            Err(_) => Err(io::Error::from_raw_os_error(os::errno())),
        }
    }

    fn flush(&mut self) -> io::Result<()> {
        Ok(())
    }
}
