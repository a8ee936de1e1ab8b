ghost use Rattle.std.specs.Prelude.{◌≡◌, ◌<◌, ◌≤◌, [], ◌++◌, take, length, vec_len, Some, IfErr, IfOk, OnOk, OnErr};
ghost use Rattle.std.specs.Io.{ReadsAtMost};
ghost use Rattle.std.specs.Io.KnownBytes.{Consumes, IsAtEnd, Keeps};
ghost use Rattle.hpb_server.specs.Fault.{IsFailure};
ghost use Rattle.hpb_server.specs.Reading.{Fills, FindsEnd, GivesDefinition, HasNoEnd, ReadsWithin, SkipsLine, StopsReading, TakesAll, TakesPart};

use crate::fault::SessionFault;
use crate::line::{KEPT_BYTES, Line};
use crate::signal::is_interrupted;
use hpb_rules::MOST_DEFINITION_BYTES;
use memchr::memchr;
use std::alloc::{AllocError, Global};
use std::io;
use std::io::{ErrorKind, Read};
use std::marker::Model;

/// How many bytes are requested from a reader at a time.
const CHUNK_BYTES: usize = 65_536;

/// How many bytes of a definition are kept: one more than it may have, to see that it is too long.
const KEPT_DEFINITION_BYTES: usize = MOST_DEFINITION_BYTES + 1;

/// The end of a line.
const LINE_FEED: u8 = b'\n';

/// The first line of a script, as far as it may be a definition.
#[derive(Drop)]
pub(crate) struct DefinitionText {
    pub(crate) bytes: Vec<u8>,
    /// Whether lines may come after it.
    pub(crate) has_end: bool,
}

/// The bytes that a reader has given, cut into lines. A reader is only asked for more once all of them are taken.
#[derive(Drop)]
pub(crate) struct Input {
    chunk: Vec<u8>,
    start: usize,
    end: usize,
    budget: u64,
}

impl Model for Input {
    ghost use Rattle.hpb_server.specs.Reading.{Pending};

    ghost Value = { Pending };

    ghost use Rattle.hpb_server.specs.Input.{pending, IsInput};

    ghost view = { pending };

    ghost invariant = { IsInput };
}

impl Input {
    /// An input of at most `budget` bytes. Fails only if memory is refused.
    pub(crate) fn new(alloc: Global, budget: u64) -> Result<Self, AllocError>
        ensures { IfOk result (λ i. i ≡ record { unread = []; budget = budget }) }
    {
        Ok(Input {
            chunk: vec![in alloc; 0; CHUNK_BYTES]?,
            start: 0,
            end: 0,
            budget,
        })
    }

    /// Reads more, once all bytes read before are taken. `false` if the reader has ended.
    pub(crate) fn fill<R: Read>(&mut self, reader: &mut R) -> Result<bool, SessionFault>
        requires { self.old.unread ≡ [] }
        ensures { Fills (R.remaining reader.old) (R.remaining reader.new) self.old self.new result }
    {
        // If nothing more may be read, one byte shows whether there is more.
        let most = self.budget.clamp(1, CHUNK_BYTES as u64) as usize;
        let Ok(count) = read_some(reader, self.chunk.as_mut_slice(), most) else {
            return Err(SessionFault::Reader);
        };
        if count == 0 {
            return Ok(false);
        }
        if count as u64 > self.budget {
            return Err(SessionFault::Reader);
        }
        self.budget -= count as u64;
        self.start = 0;
        self.end = count;
        Ok(true)
    }

    /// Reads the first line, as far as it may be a definition. A longer line is only read until it is known to be too
    /// long.
    pub(crate) fn take_definition<R: Read>(
        &mut self,
        alloc: Global,
        reader: &mut R,
    ) -> Result<DefinitionText, SessionFault>
        requires { self.old.unread ≡ [] }
        ensures ok { IfOk result (GivesDefinition (R.remaining reader.old) (R.remaining reader.new) self.old.budget self.new) }
        ensures err { IfErr result (StopsReading (R.remaining reader.old) (R.remaining reader.new) self.old.budget) }
    {
        let mut bytes = Vec::new(alloc);
        'chunks: loop {
            let has_end = self.take_definition_part(&mut bytes)?;
            if has_end {
                return Ok(DefinitionText { bytes, has_end });
            }
            let is_too_long = bytes.len() > MOST_DEFINITION_BYTES;
            if is_too_long {
                return Ok(DefinitionText { bytes, has_end });
            }
            let has_more = self.fill(reader)?;
            if !has_more {
                return Ok(DefinitionText { bytes, has_end });
            }
        }
    }

    /// Adds unread bytes to a definition, up to its end. `false` if all are taken and it goes on.
    fn take_definition_part(&mut self, bytes: &mut Vec<u8>) -> Result<bool, AllocError>
        requires { vec_len bytes.old ≤ KEPT_DEFINITION_BYTES }
        ensures { IfOk result (TakesPart KEPT_DEFINITION_BYTES self.old self.new bytes.old.items bytes.new.items) }
    {
        let unread = &self.chunk[self.start..self.end];
        match find_end(unread) {
            Some(length) => {
                keep(bytes, &unread[..length])?;
                self.start += length + 1;
                Ok(true)
            }
            None => {
                keep(bytes, unread)?;
                self.start = self.end;
                Ok(false)
            }
        }
    }

    /// The unread bytes, without a copy.
    pub(crate) fn unread(&self) -> &[u8]
        ensures { result.now ≡ self.now.unread }
    {
        &self.chunk[self.start..self.end]
    }

    /// How many bytes the next line has, if its end was read.
    pub(crate) fn find_line(&self) -> Option<usize>
        ensures { FindsEnd self.now.unread result }
    {
        find_end(self.unread())
    }

    /// The first `size` unread bytes, without a copy.
    pub(crate) fn front(&self, size: usize) -> &[u8]
        requires { size ≤ length self.now.unread }
        ensures { result.now ≡ take size self.now.unread }
    {
        &self.chunk[self.start..self.start + size]
    }

    /// Takes the next line, which has `size` bytes, and its end.
    pub(crate) fn skip_line(&mut self, size: usize)
        requires { FindsEnd self.old.unread (Some size) }
        ensures { SkipsLine size self.old self.new }
    {
        let end = self.start + size;
        self.start = end + 1;
    }

    /// Adds all unread bytes to a line that goes on.
    pub(crate) fn keep_rest(&mut self, line: &mut Line)
        requires { HasNoEnd self.old.unread }
        ensures { TakesAll KEPT_BYTES self.old self.new line.old line.new }
    {
        line.extend(&self.chunk[self.start..self.end]);
        self.start = self.end;
    }
}

/// Adds a part to a definition, as far as its bytes are kept.
fn keep(bytes: &mut Vec<u8>, part: &[u8]) -> Result<(), AllocError>
    requires { vec_len bytes.old ≤ KEPT_DEFINITION_BYTES }
    ensures { OnOk result (bytes.new.items ≡ take KEPT_DEFINITION_BYTES (bytes.old.items ++ part.now)) }
{
    let room = KEPT_DEFINITION_BYTES - bytes.len();
    bytes.extend_from_slice(&part[..room.min(part.len())])?;
    Ok(())
}

/// The place of the first line feed.
fn find_end(bytes: &[u8]) -> Option<usize>
    ensures { FindsEnd bytes.now result }
{
    memchr(LINE_FEED, bytes)
}

/// Reads at most `most` bytes into the start of a buffer, and tries again after a signal.
pub fn read_some<R: Read>(reader: &mut R, buffer: &mut [u8], most: usize) -> io::Result<usize>
    requires some { 0 < most }
    requires room { most ≤ length buffer.old }
    ensures bound { IfOk result (λ n. n ≤ most) }
    ensures bytes { IfOk result (λ n. Consumes (R.remaining reader.old) (R.remaining reader.new) (take n buffer.new)) }
    ensures end { IfOk result (λ n. n ≡ 0 → IsAtEnd (R.remaining reader.new)) }
    ensures kept { OnErr result (Keeps (R.remaining reader.old) (R.remaining reader.new)) }
    ensures cause { IfErr result IsFailure }
{
    'tries: for _ in 0..u64::MAX {
        match reader.read(&mut buffer[..most]) {
            Ok(count) => return Ok(count),
            Err(error) => {
                if !is_interrupted(&error) {
                    return Err(error);
                }
            }
        }
    }
    Err(ErrorKind::TimedOut.into())
}
