//! Sessions whose writer fails at each write and each flush in turn, or takes nothing.

use crate::definitions::new_auction;
use crate::talks::{Lines, Talk};
use hpb_server::{ScriptDesk, SessionFault, serve_auction};
use std::alloc::Global;
use std::io;
use std::io::{ErrorKind, Write};
use std::process::Abort;
use std::test::Fail;

/// Takes whole writes and flushes, each a number of times. Then it fails, or takes no byte.
#[derive(Drop)]
struct FailingWriter {
    bytes: Vec<u8>,
    writes: usize,
    flushes: usize,
    takes_nothing: bool,
}

impl Write for FailingWriter {
    fn write(&mut self, bytes: &[u8]) -> io::Result<usize> {
        if self.writes == 0 {
            if self.takes_nothing {
                return Ok(0);
            }
            return Err(ErrorKind::BrokenPipe.into());
        }
        self.writes -= 1;
        self.bytes.extend_from_slice(bytes)?;
        Ok(bytes.len())
    }

    fn flush(&mut self) -> io::Result<()> {
        if self.flushes == 0 {
            return Err(ErrorKind::BrokenPipe.into());
        }
        self.flushes -= 1;
        Ok(())
    }
}

const LINES: &[u8] = b"BID x 1 a 100\nBID y 1 b 150\nCLOSE 1\nSHOW\n";

/// The text that is written once a number of these lines are answered.
const FRONTS: [&[u8]; 5] = [
    b"",
    b"OK 1\n",
    b"OK 1\nOK 2\n",
    b"OK 1\nOK 2\nOK 3\n",
    b"OK 1\nOK 2\nOK 3\nROUND 2 STAGE 1 OPEN REVENUE 250 COUNT 3\n",
];

/// Serves the lines one by one, with an auction in memory.
fn serve_to<W: Write>(
    alloc: Global,
    writer: &mut W,
    desk: &mut ScriptDesk,
) -> Result<(), SessionFault> {
    let talk = Talk::new();
    let mut reader = Lines {
        talk: &talk,
        rest: LINES,
    };
    serve_auction(alloc, &mut reader, writer, desk)
}

/// The desk of a new auction.
fn new_desk(alloc: Global) -> Result<Box<ScriptDesk>, Fail> {
    let auction = Box::into_inner(new_auction(alloc)?);
    Ok(Box::new(alloc, ScriptDesk::new(auction))?)
}

/// How many commands a desk has accepted.
fn count_of(desk: Box<ScriptDesk>) -> u32 {
    Box::into_inner(desk).into_auction().count()
}

/// Serves the lines one by one to a writer that fails. Returns how that ended, the text that was written, and how many
/// commands were accepted.
fn served(
    alloc: Global,
    (writes, flushes, takes_nothing): (usize, usize, bool),
) -> Result<(Result<(), SessionFault>, Vec<u8>, u32), Fail> {
    let mut desk = new_desk(alloc)?;
    let mut writer = FailingWriter {
        bytes: Vec::new(alloc),
        writes,
        flushes,
        takes_nothing,
    };
    let result = serve_to(alloc, &mut writer, &mut desk);
    Ok((result, writer.bytes, count_of(desk)))
}

/// Checks how the lines end with this writer: how many of them are written, and how many are accepted.
fn end_after(
    rt: &impl Abort,
    alloc: Global,
    writer: (usize, usize, bool),
    end: Result<(), SessionFault>,
    (lines, accepted): (usize, u32),
) -> Result<(), Fail> {
    let (result, written, count) = served(alloc, writer)?;
    assert_eq!(rt; result, end, "{writer:?}");
    assert_eq!(rt;
        Some(written.as_slice()),
        FRONTS.get(lines).copied(),
        "{writer:?}"
    );
    assert_eq!(rt; count, accepted, "{writer:?}");
    Ok(())
}

#[test]
fn each_write_and_each_flush_fails_in_turn(rt: HostRuntime) -> Result<(), Fail> {
    let alloc = rt.alloc();
    let (failed, many) = (Err(SessionFault::Writer), usize::MAX);
    for (line, accepted) in [(0, 1), (1, 2), (2, 3), (3, 3)] {
        end_after(&rt, alloc, (line, many, false), failed, (line, accepted))?;
        end_after(
            &rt,
            alloc,
            (many, line, false),
            failed,
            (line + 1, accepted),
        )?;
    }
    end_after(&rt, alloc, (1, many, true), failed, (1, 2))?;
    end_after(&rt, alloc, (4, 4, false), Ok(()), (4, 3))
}
