//! Streams whose calls wait, even if they are set not to.

use std::io;
use std::io::{ErrorKind, Read, Write};
use std::os::fd::AsRawFd;

/// The limit in milliseconds of a wait without a limit.
const NO_LIMIT: i32 = -1;

/// Waits until a descriptor is ready for these events, or until this many milliseconds have passed. A descriptor that
/// has failed, or whose other end is closed, is ready. `false` if time ran out.
pub(crate) fn wait_for(descriptor: i32, events: i16, milliseconds: i32) -> bool {
    let mut asked = [libc::types::pollfd {
        fd: descriptor,
        events,
        revents: 0,
    }];
    libc::net::poll(&mut asked, milliseconds) > 0
}

/// Whether a call failed because it can't be made yet, on a stream that is set not to wait.
fn is_early(error: &io::Error) -> bool {
    error.kind() == ErrorKind::WouldBlock
}

/// A stream whose calls wait until they can be made. Any process that shares an open file may set it not to wait
/// (`O_NONBLOCK`), and so does it for all others.
#[derive(Drop)]
pub struct Waiting<S> {
    /// The stream itself.
    pub stream: S,
}

impl<S> Waiting<S> {
    ghost use Rattle.std.specs.Prelude.{◌≡◌};

    /// A stream that is waited for.
    pub fn new(stream: S) -> Self
        ensures { result.stream ≡ stream }
    {
        Waiting { stream }
    }
}

impl<R: Read + AsRawFd> Read for Waiting<R> {
    ghost remaining = { λ waiting. R.remaining waiting.stream };

    fn read(&mut self, buffer: &mut [u8]) -> io::Result<usize> {
        'tries: for _ in 0..u64::MAX {
            match self.stream.read(buffer) {
                Ok(count) => return Ok(count),
                Err(error) => {
                    if !is_early(&error) {
                        return Err(error);
                    }
                }
            }
            wait_for(self.stream.as_raw_fd(), libc::net::POLLIN, NO_LIMIT);
        }
        Err(ErrorKind::TimedOut.into())
    }
}

impl<W: Write + AsRawFd> Write for Waiting<W> {
    ghost contents = { λ waiting. W.contents waiting.stream };

    fn write(&mut self, bytes: &[u8]) -> io::Result<usize> {
        'tries: for _ in 0..u64::MAX {
            match self.stream.write(bytes) {
                Ok(count) => return Ok(count),
                Err(error) => {
                    if !is_early(&error) {
                        return Err(error);
                    }
                }
            }
            wait_for(self.stream.as_raw_fd(), libc::net::POLLOUT, NO_LIMIT);
        }
        Err(ErrorKind::TimedOut.into())
    }

    fn flush(&mut self) -> io::Result<()> {
        'tries: for _ in 0..u64::MAX {
            match self.stream.flush() {
                Ok(()) => return Ok(()),
                Err(error) => {
                    if !is_early(&error) {
                        return Err(error);
                    }
                }
            }
            wait_for(self.stream.as_raw_fd(), libc::net::POLLOUT, NO_LIMIT);
        }
        Err(ErrorKind::TimedOut.into())
    }
}
