//! Streams that remember their failures, for messages.

use hpb_server::send_bytes;
use std::io;
use std::io::{Read, Write};

/// A stream, and the error of its last call, if that failed.
#[derive(Drop)]
pub struct Noted<S> {
    /// The stream itself.
    pub stream: S,
    /// The error of its last call, if that failed.
    pub failure: Option<io::Error>,
    /// Whether its last write or flush failed or took nothing. Only the calls of this type set it.
    cut: bool,
}

impl<S> Noted<S> {
    ghost use Rattle.std.specs.Prelude.{◌≡◌, false, None};
    ghost use Rattle.hpb_messages.specs.Telling.{is_cut};

    /// A stream of which no call has failed.
    pub fn new(stream: S) -> Self
        ensures stream { result.stream ≡ stream }
        ensures works { result.failure ≡ None }
        ensures whole { is_cut result ≡ false }
    {
        Noted {
            stream,
            failure: None,
            cut: false,
        }
    }

    /// Whether the last text was cut: the stream failed or took nothing, so that only a front of the text may be
    /// written.
    pub fn is_cut(&self) -> bool
        ensures { result ≡ is_cut self.now }
    {
        self.cut
    }
}

impl<W: Write> Noted<W> {
    ghost use Rattle.std.specs.Prelude.{◌≡◌, true, false, MatchResult};
    ghost use Rattle.hpb_messages.specs.Telling.{is_cut};
    ghost use Rattle.hpb_server.specs.Writing.{Puts};

    /// Writes a text and flushes it, and remembers whether all of it was taken.
    pub fn send(&mut self, text: &[u8]) -> io::Result<()>
        ensures bytes { Puts (W.contents self.old.stream) (W.contents self.new.stream) text.now result }
        ensures cut { MatchResult result (λ _. is_cut self.new ≡ false) (λ _. is_cut self.new ≡ true) }
    {
        let sent = send_bytes(self, text);
        self.cut = sent.is_err();
        sent
    }
}

impl<R: Read> Read for Noted<R> {
    ghost use Rattle.std.specs.Prelude.{◌≡◌, None, Some, MatchResult};
    ghost use Rattle.std.specs.Io.{ReadsAtMost};
    ghost use Rattle.std.specs.Io.KnownBytes.{ReadConsumes};

    ghost remaining = { λ noted. R.remaining noted.stream };

    fn read(&mut self, buffer: &mut [u8]) -> io::Result<usize>
        ensures bound { ReadsAtMost result buffer.new }
        ensures bytes { ReadConsumes (R.remaining self.old.stream) (R.remaining self.new.stream) result buffer.new }
        ensures noted { MatchResult result (λ count. self.new.failure ≡ None) (λ error. self.new.failure ≡ Some error) }
    {
        match self.stream.read(buffer) {
            Ok(count) => {
                self.failure = None;
                Ok(count)
            }
            Err(error) => {
                self.failure = Some(error);
                Err(error)
            }
        }
    }
}

impl<W: Write> Write for Noted<W> {
    ghost use Rattle.std.specs.Prelude.{◌≡◌, None, Some, MatchResult, IfErr};
    ghost use Rattle.std.specs.Io.{WritesAtMost};
    ghost use Rattle.std.specs.Io.KnownBytes.{Keeps, WriteAppends};

    ghost contents = { λ noted. W.contents noted.stream };

    fn write(&mut self, bytes: &[u8]) -> io::Result<usize>
        ensures bound { WritesAtMost result bytes.now }
        ensures bytes { WriteAppends (W.contents self.old.stream) (W.contents self.new.stream) result bytes.now }
        ensures noted { MatchResult result (λ count. self.new.failure ≡ None) (λ error. self.new.failure ≡ Some error) }
    {
        match self.stream.write(bytes) {
            Ok(count) => {
                self.failure = None;
                self.cut = count == 0 && !bytes.is_empty();
                Ok(count)
            }
            Err(error) => {
                self.failure = Some(error);
                self.cut = true;
                Err(error)
            }
        }
    }

    fn flush(&mut self) -> io::Result<()>
        ensures bytes { Keeps (W.contents self.old.stream) (W.contents self.new.stream) }
        ensures noted { IfErr result (λ error. self.new.failure ≡ Some error) }
    {
        match self.stream.flush() {
            Ok(()) => {
                self.cut = false;
                Ok(())
            }
            Err(error) => {
                self.failure = Some(error);
                self.cut = true;
                Err(error)
            }
        }
    }
}

/// The failures of a job's input and output.
#[derive(Clone, Copy)]
pub struct Failures {
    /// The error of the input's last read, if that failed.
    pub reading: Option<io::Error>,
    /// The error of the output's last write or flush, if that failed.
    pub writing: Option<io::Error>,
}

impl Failures {
    ghost use Rattle.std.specs.Prelude.{◌≡◌};

    /// The failures of these two.
    pub fn of<R, W>(input: &Noted<R>, output: &Noted<W>) -> Self
        ensures reading { result.reading ≡ input.now.failure }
        ensures writing { result.writing ≡ output.now.failure }
    {
        Failures {
            reading: input.failure,
            writing: output.failure,
        }
    }
}
