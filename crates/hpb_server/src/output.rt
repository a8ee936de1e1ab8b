ghost use Rattle.std.specs.Prelude.{◌≡◌, ◌+◌, ◌<◌, ◌↔◌, [], length, IfErr, IfOk, IsTrue};
ghost use Rattle.std.specs.Io.KnownBytes.{Keeps};
ghost use Rattle.hpb_rules.specs.Rendering.{refusal_text, reply_text};
ghost use Rattle.hpb_wire.specs.Responses.{Adds, text_of};
ghost use Rattle.hpb_wire.specs.declared.text.TheConstants.{RESPONSE_BYTES};
ghost use Rattle.hpb_server.specs.Fault.{IsFailure};
ghost use Rattle.hpb_server.specs.declared.output.TheConstants.{OUTPUT_BYTES};
ghost use Rattle.hpb_server.specs.Writing.{Puts, Sends, Writes};

use crate::fault::SessionFault;
use crate::signal::is_interrupted;
use hpb_rules::{Refusal, Reply};
use hpb_wire::{RESPONSE_BYTES, Response, ResponseText};
use std::alloc::{AllocError, Global};
use std::io;
use std::io::{ErrorKind, Write};
use std::marker::Model;

/// How many bytes of responses are kept before they are written.
const OUTPUT_BYTES: usize = 65_536;

/// Responses that are still to be written. Their room is allocated once.
#[derive(Drop)]
pub(crate) struct Output {
    waiting: ResponseText,
}

impl Model for Output {
    ghost use Rattle.std.specs.Prelude.{ℕ, List};

    ghost Value = { List ℕ };

    ghost view = { λ o. o.waiting };
}

impl Output {
    pub(crate) fn new(alloc: Global) -> Result<Self, AllocError>
        ensures { IfOk result (λ o. o ≡ []) }
    {
        Ok(Output {
            waiting: ResponseText::new(alloc, OUTPUT_BYTES)?,
        })
    }

    /// Adds a response, or nothing if memory is refused. The desk is the `Caller` of `render_for`.
    #[inline(always)]
    pub(crate) fn add<Caller>(&mut self, response: &Response<'_>) -> Result<(), AllocError>
        ensures { Adds self.old self.new (text_of response.now) result }
    {
        self.waiting.render_for::<Caller>(response)
    }

    /// Adds a reply, or nothing if memory is refused.
    #[inline(always)]
    pub(crate) fn reply(&mut self, reply: Reply) -> Result<(), AllocError>
        ensures { Adds self.old self.new (reply_text reply) result }
    {
        self.waiting.render_reply(reply)
    }

    /// Adds the line of a refusal, or nothing if memory is refused.
    #[inline(always)]
    pub(crate) fn refuse(&mut self, refusal: Refusal) -> Result<(), AllocError>
        ensures { Adds self.old self.new (refusal_text refusal) result }
    {
        self.reply(Reply::Refused(refusal))
    }

    /// Whether there may be too little room for one more response.
    #[inline(always)]
    pub(crate) fn is_nearly_full(&self) -> bool
        ensures { IsTrue result ↔ OUTPUT_BYTES < length self.now + RESPONSE_BYTES }
    {
        self.waiting.len() > OUTPUT_BYTES - RESPONSE_BYTES
    }

    /// Writes the responses and flushes the writer. If the writer fails, a front of them was written.
    #[tactic(auto, using(crate::proofs::Writing::none_sent))]
    pub(crate) fn send<W: Write>(&mut self, writer: &mut W) -> Result<(), SessionFault>
        ensures bytes { Sends (W.contents writer.old) (W.contents writer.new) self.old result }
        ensures empty { self.new ≡ [] }
    {
        if self.waiting.as_bytes().is_empty() {
            return Ok(());
        }
        let sent = send_bytes(writer, self.waiting.as_bytes());
        self.waiting.clear();
        match sent {
            Ok(()) => Ok(()),
            Err(_) => Err(SessionFault::Writer),
        }
    }
}

/// Writes bytes and flushes the writer.
#[tactic(auto, using(crate::proofs::Writing::sent))]
pub fn send_bytes<W: Write>(writer: &mut W, bytes: &[u8]) -> io::Result<()>
    ensures bytes { Puts (W.contents writer.old) (W.contents writer.new) bytes.now result }
    ensures cause { IfErr result IsFailure }
{
    put(writer, bytes)?;
    flush(writer)
}

fn put<W: Write>(writer: &mut W, bytes: &[u8]) -> io::Result<()>
    ensures bytes { Puts (W.contents writer.old) (W.contents writer.new) bytes.now result }
    ensures cause { IfErr result IsFailure }
{
    let mut at = 0;
    'parts: while at < bytes.len() {
        at += put_some(writer, &bytes[at..])?;
    }
    Ok(())
}

/// Writes a front of some bytes, and tries again after a signal. A writer that takes no byte has failed.
fn put_some<W: Write>(writer: &mut W, bytes: &[u8]) -> io::Result<usize>
    requires { 0 < length bytes.now }
    ensures bytes { Writes (W.contents writer.old) (W.contents writer.new) bytes.now result }
    ensures cause { IfErr result IsFailure }
{
    'tries: for _ in 0..u64::MAX {
        match writer.write(bytes) {
            Ok(0) => return Err(ErrorKind::WriteZero.into()),
            Ok(count) => return Ok(count),
            Err(error) => {
                if !is_interrupted(&error) {
                    return Err(error);
                }
            }
        }
    }
    Err(ErrorKind::TimedOut.into())
}

/// Flushes the writer, and tries again after a signal.
fn flush<W: Write>(writer: &mut W) -> io::Result<()>
    ensures bytes { Keeps (W.contents writer.old) (W.contents writer.new) }
    ensures cause { IfErr result IsFailure }
{
    'tries: for _ in 0..u64::MAX {
        match writer.flush() {
            Ok(()) => return Ok(()),
            Err(error) => {
                if !is_interrupted(&error) {
                    return Err(error);
                }
            }
        }
    }
    Err(ErrorKind::TimedOut.into())
}
