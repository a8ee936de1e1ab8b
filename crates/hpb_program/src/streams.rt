//! The standard streams. Closed ones are opened, and one that leads to the file of a job gets nothing.
ghost use Rattle.hpb_rules.specs.declared.refusal.Refusal.TheVariants as refusals;
ghost use Rattle.hpb_messages.specs.Telling.{is_cut, TellsUnled};
ghost use Rattle.hpb_server.specs.Telling.{Says, TellsOf};

use crate::led::Led;
use hpb_messages::{LedAdvice, Noted, advise, tell, tell_memory};
use hpb_rules::Refusal;
use hpb_server::say;
use std::alloc::Global;
use std::fs::{File, Files};
use std::io::Write;
use std::os::fd::IntoRawFd;
use std::{fmt, io};

/// The file that stands in for a closed stream: it reads as empty, and takes all bytes.
const NOTHING: &str = "/dev/null";

/// Opens each closed standard stream on /dev/null. Call this before anything else is opened. Otherwise a file could get
/// the number of a closed stream: output for that stream would be written into the file, or the file be read as input.
///
/// If it fails, a stream stays closed. Then nothing else may be opened.
pub fn hold_streams<R: Files<File = File>>(rt: &R) -> io::Result<()> {
    hold_stream(rt, libc::STDIN_FILENO)?;
    hold_stream(rt, libc::STDOUT_FILENO)?;
    hold_stream(rt, libc::STDERR_FILENO)
}

/// Opens one stream if it is closed. The system gives the least free number, so the streams before this one must be
/// held already.
fn hold_stream<R: Files<File = File>>(rt: &R, stream: i32) -> io::Result<()> {
    if !is_closed(stream) {
        return Ok(());
    }
    let file = File::options().read(true).write(true).open(rt, NOTHING)?;
    if file.into_raw_fd() == stream {
        Ok(())
    } else {
        Err(io::Error::from_raw_os_error(libc::EBADF))
    }
}

/// Whether a number belongs to no open file. The call only advises how a file will be read, which changes nothing.
fn is_closed(stream: i32) -> bool {
    libc::posix_fadvise(stream, 0, 0, libc::POSIX_FADV_NORMAL) == libc::EBADF
}

/// Writes the line of a refusal, unless the output leads to the job's file: the line would be written into the auction.
pub(crate) fn tell_unled<W: Write>(refusal: Refusal, led: Led, output: &mut Noted<W>)
    ensures { TellsUnled led.output (is_cut output.new) (W.contents output.old.stream) (W.contents output.new.stream) refusal }
{
    if led.output {
        return;
    }
    tell(refusal, output);
}

/// Writes a text to standard error, unless that leads to the job's file.
pub(crate) fn say_unled<E: Write>(text: &str, led: Led, errors: &mut E)
    ensures { Says (E.contents errors.old) (E.contents errors.new) text.now }
{
    if !led.errors {
        say(text.as_bytes(), errors);
    }
}

/// Writes a refusal and what to do to standard error, unless that leads to the job's file.
pub(crate) fn advise_unled<A: fmt::Display + Copy, E: Write>(
    alloc: Global,
    refusal: Refusal,
    advice: A,
    led: Led,
    errors: &mut E,
)
    ensures { TellsOf (E.contents errors.old) (E.contents errors.new) refusal }
{
    if !led.errors {
        advise(alloc, refusal, advice, errors);
    }
}

/// Writes the message of 90 to standard error, unless that leads to the job's file. It takes no memory.
pub(crate) fn tell_memory_unled<E: Write>(led: Led, errors: &mut E)
    ensures { TellsOf (E.contents errors.old) (E.contents errors.new) refusals.Memory }
{
    if !led.errors {
        tell_memory(errors);
    }
}

/// Writes to standard error that a standard stream leads to a job's file, unless that one does.
pub(crate) fn advise_led<E: Write>(alloc: Global, file: &str, led: Led, errors: &mut E)
    ensures { TellsOf (E.contents errors.old) (E.contents errors.new) refusals.Device }
{
    if !led.errors {
        let advice = LedAdvice {
            stream: led.stream(),
            file,
            is_new: led.is_new,
        };
        advise(alloc, Refusal::Device, advice, errors);
    }
}
