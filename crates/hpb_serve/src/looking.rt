//! Reading a connection by looks, before its thread sleeps.
ghost use Rattle.std.specs.Io.{ReadsAtMost, WritesAtMost};

use std::cell::Cell;
use std::io::{ErrorKind, Read, Write};
use std::net::TcpStream;
use std::{io, thread};

/// One side of a connection, which looks for more to read this many times before its thread sleeps until something
/// comes. Other threads run between two looks. With 0 looks it sleeps at once. It notes the error of a call that
/// failed.
#[derive(Clone, Copy)]
pub(crate) struct Looking<'a> {
    stream: &'a TcpStream,
    looks: u32,
    failure: &'a Cell<Option<io::Error>>,
}

impl<'a> Looking<'a> {
    /// This side of a connection. Each write is sent at once.
    pub(crate) fn new(
        stream: &'a TcpStream,
        looks: u32,
        failure: &'a Cell<Option<io::Error>>,
    ) -> Looking<'a> {
        // If either of these is refused, the connection still works, only more slowly.
        let _ = stream.set_nodelay(true);
        if looks > 0 {
            let _ = stream.set_nonblocking(true);
        }
        Looking {
            stream,
            looks,
            failure,
        }
    }

    /// Reads any bytes that have come. If no look finds any, it waits for some.
    fn look(&self, buf: &mut [u8]) -> io::Result<usize>
        ensures { ReadsAtMost result buf.new }
    {
        let mut stream = self.stream;
        if self.looks == 0 {
            return stream.read(buf);
        }
        for _ in 0..self.looks {
            match stream.read(buf) {
                Err(error) if error.kind() == ErrorKind::WouldBlock => thread::yield_now(),
                ended => return ended,
            }
        }
        // No look found any: the next call waits.
        stream.set_nonblocking(false)?;
        let ended = stream.read(buf);
        let _ = stream.set_nonblocking(true);
        ended
    }

    /// Writes as much as the other side takes, and waits until it takes some.
    fn send(&self, buf: &[u8]) -> io::Result<usize>
        ensures { WritesAtMost result buf.now }
    {
        let mut stream = self.stream;
        match stream.write(buf) {
            Err(error) if error.kind() == ErrorKind::WouldBlock => {}
            ended => return ended,
        }
        // The other side takes no more yet: the next call waits.
        stream.set_nonblocking(false)?;
        let ended = stream.write(buf);
        let _ = stream.set_nonblocking(true);
        ended
    }

    /// Notes the error of a call, if it failed.
    fn note(&self, ended: &io::Result<usize>) {
        if let Err(error) = ended {
            self.failure.set(Some(*error));
        }
    }
}

impl Read for Looking<'_> {
    fn read(&mut self, buf: &mut [u8]) -> io::Result<usize> {
        let ended = self.look(buf);
        self.note(&ended);
        ended
    }
}

impl Write for Looking<'_> {
    fn write(&mut self, buf: &[u8]) -> io::Result<usize> {
        let ended = self.send(buf);
        self.note(&ended);
        ended
    }

    fn flush(&mut self) -> io::Result<()> {
        Ok(())
    }
}
