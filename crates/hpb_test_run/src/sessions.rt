//! Sessions whose auction is kept on a device.

use hpb_codec::{JournalLayout, JournalShape};
use hpb_disk::{Disk, MemoryDisk, OnceDisk};
use hpb_engine::Engine;
use hpb_run::{Pace, Ran, run_device, run_engine};
use hpb_test_engine::calls::count;
use hpb_test_engine::devices::{
    boxed, count_on, engine_over, faulty_engine, new_device_with, new_engine,
};
use hpb_test_engine::over_layouts;
use std::alloc::{AllocError, Global};
use std::process::Abort;
use std::test::Fail;

/// A package beats its parts in one round, and they win the tie in the next.
const LINES: &[u8] =
    b"BID x 1 a 100\nBID y 1 b 150\nBID z 1 all 500\nBID w 1 c 100\nCLOSE 1\nSHOW\n\
    BID w 2 c 250\nCLOSE 2\nSHOW\nNODE a\n";

const ANSWERS: &[u8] = b"OK 1\nOK 2\nOK 3\nOK 4\nOK 5\nROUND 2 STAGE 1 OPEN REVENUE 500 COUNT 5\n\
    OK 6\nOK 7\nROUND 3 STAGE 1 OPEN REVENUE 500 COUNT 7\nNODE a HIGH 100 x PRICE 100 MIN 110 WIN yes\n";

/// The bytes written, and the result of the session.
#[derive(Drop)]
pub(crate) struct Session<D: Disk + Drop> {
    pub(crate) ran: Ran<D>,
    pub(crate) written: Vec<u8>,
}

/// Runs lines.
pub(crate) fn run_lines<D: Disk + Drop>(
    alloc: Global,
    engine: Box<Engine<D>>,
    lines: &[u8],
    batch: usize,
    every: u32,
) -> Result<Box<Session<D>>, AllocError> {
    let mut reader = lines;
    let mut written = Vec::new(alloc);
    let engine = Box::into_inner(engine);
    let pace = Pace { batch, every };
    let ran = run_device(alloc, &mut reader, &mut written, engine, pace);
    boxed(alloc, Session { ran, written })
}

/// A session wrote this text, and no fault ended it.
fn end_well<D: Disk + Drop>(
    rt: &impl Abort,
    session: &Session<D>,
    text: &[u8],
    (batch, every): (usize, u32),
) {
    assert_eq!(rt; session.written.as_slice(), text, "{batch} {every}");
    assert_eq!(rt; session.ran.end, Ok(()), "{batch} {every}");
}

/// How many calls the lines take over a new device, which then must have all commands.
fn calls(
    rt: &impl Abort,
    alloc: Global,
    shape: JournalShape,
    batch: usize,
    every: u32,
) -> Result<usize, Fail> {
    let engine = new_engine(alloc, shape)?;
    let before = engine.disk.calls();
    let session = run_lines(alloc, engine, LINES, batch, every)?;
    end_well(rt, &session, ANSWERS, (batch, every));
    let calls = session.ran.engine.disk.calls().saturating_sub(before);
    let disk = Box::into_inner(session).ran.engine.finish();
    assert_eq!(rt; count_on(alloc, disk)?, 7, "{batch} {every}");
    Ok(calls)
}

/// How many calls seven batches take. With four frames there is a checkpoint before the fifth batch; with more there is
/// none.
fn calls_of_seven(shape: JournalShape) -> usize {
    match shape.layout {
        JournalLayout::Pages => 41,
        JournalLayout::Cells => 28,
    }
}

/// The text is the same for each of these paces, with its number of calls. There are seven, four or two batches, each
/// of four calls. A checkpoint of m batches has ten calls and m, and the first one has one fewer.
fn write_same_text(rt: &impl Abort, alloc: Global, shape: JournalShape) -> Result<(), Fail> {
    for (batch, every, wanted) in [
        (1, 0, calls_of_seven(shape)),
        (1, 1, 104),
        (1, 3, 53),
        (2, 0, 16),
        (2, 1, 59),
        (2, 2, 39),
        (2, 3, 28),
        (64, 0, 8),
        (64, 1, 29),
        (64, 3, 8),
    ] {
        let calls = calls(rt, alloc, shape, batch, every)?;
        assert_eq!(rt; calls, wanted, "{batch} {every}");
    }
    Ok(())
}

#[test]
fn same_text_on_a_device(rt: HostRuntime) -> Result<(), Fail> {
    over_layouts!(shape => write_same_text(&rt, rt.alloc(), shape)?);
    Ok(())
}

/// Runs the lines at a terminal.
fn run_at_a_terminal(
    alloc: Global,
    engine: Box<Engine<MemoryDisk>>,
    every: u32,
) -> Result<Box<Session<MemoryDisk>>, AllocError> {
    let mut reader = LINES;
    let mut written = Vec::new(alloc);
    let mut errors = Vec::new(alloc);
    let engine = Box::into_inner(engine);
    let mut streams = hpb_run::Session {
        reader: &mut reader,
        writer: &mut written,
        errors: &mut errors,
        is_terminal: true,
    };
    let ran = run_engine(alloc, engine, &mut streams, Pace { batch: 1, every });
    boxed(alloc, Session { ran, written })
}

/// Runs the lines over a new device at a terminal. Gives how many calls that took.
fn calls_at_a_terminal(
    rt: &impl Abort,
    alloc: Global,
    shape: JournalShape,
    every: u32,
) -> Result<usize, Fail> {
    let engine = new_engine(alloc, shape)?;
    let before = engine.disk.calls();
    let session = run_at_a_terminal(alloc, engine, every)?;
    end_well(rt, &session, ANSWERS, (1, every));
    Ok(session.ran.engine.disk.calls().saturating_sub(before))
}

/// Seven batches of a command each, with four calls, and a checkpoint after each. The first checkpoint has ten calls,
/// since its slot is closed already, and each of the six others eleven.
fn count_calls_at_a_terminal(
    rt: &impl Abort,
    alloc: Global,
    shape: JournalShape,
) -> Result<(), Fail> {
    let calls = calls_at_a_terminal(rt, alloc, shape, 0)?;
    assert_eq!(rt; calls, calls_of_seven(shape));
    assert_eq!(rt; calls_at_a_terminal(rt, alloc, shape, 1)?, 104);
    Ok(())
}

#[test]
fn a_terminal_has_its_checkpoints(rt: HostRuntime) -> Result<(), Fail> {
    over_layouts!(shape => count_calls_at_a_terminal(&rt, rt.alloc(), shape)?);
    Ok(())
}

/// The same round, one in which `x` waives and a waiver of `y` is taken, and one in which `x` has none left.
const WAIVING: &[u8] = b"BID x 1 a 100\nBID y 1 b 150\nBID z 1 all 500\nBID w 1 c 100\nCLOSE 1\n\
    WAIVE x 2\nCLOSE 2\nSHOW\nWHO x\nWHO y\nWHO z\nWAIVE x 3\nCLOSE 3\nSHOW\nWHO x\n";

const WAIVED: &[u8] =
    b"OK 1\nOK 2\nOK 3\nOK 4\nOK 5\nOK 6\nOK 7\nROUND 3 STAGE 1 OPEN REVENUE 500 COUNT 7\n\
    WHO x ELIGIBILITY 10 ACTIVITY 0 TICKET 2 WAIVERS 0\n\
    WHO y ELIGIBILITY 10 ACTIVITY 0 TICKET 1 WAIVERS 0\n\
    WHO z ELIGIBILITY 40 ACTIVITY 40 TICKET 1 WAIVERS 1\n\
    ERR 28 waiver\nOK 8\nROUND 3 STAGE 1 CLOSED REVENUE 500 COUNT 8\n\
    WHO x ELIGIBILITY 0 ACTIVITY 0 TICKET 2 WAIVERS 0\n";

/// The view of `x` at the end, on the device that is opened again.
const OPENED: &[u8] = b"WHO x ELIGIBILITY 0 ACTIVITY 0 TICKET 2 WAIVERS 0\n";

/// The device after a session over one waiver, with a checkpoint after each `every` batches.
fn left_by_waiver(
    rt: &impl Abort,
    alloc: Global,
    shape: JournalShape,
    every: u32,
) -> Result<MemoryDisk, Fail> {
    let engine = engine_over(alloc, new_device_with(alloc, shape, 1)?)?;
    let session = run_lines(alloc, engine, WAIVING, 1, every)?;
    end_well(rt, &session, WAIVED, (1, every));
    Ok(Box::into_inner(session).ran.engine.finish())
}

/// Such a session, and one over the device that it left.
fn waive(rt: &impl Abort, alloc: Global, shape: JournalShape, every: u32) -> Result<(), Fail> {
    let engine = engine_over(alloc, left_by_waiver(rt, alloc, shape, every)?)?;
    let session = run_lines(alloc, engine, b"WHO x\n", 1, 0)?;
    assert_eq!(rt; session.written.as_slice(), OPENED, "{every}");
    Ok(())
}

/// The waiver stands in a state if each batch has a checkpoint. It stands in a frame if only a full journal has one.
fn waive_each(rt: &impl Abort, alloc: Global, shape: JournalShape) -> Result<(), Fail> {
    waive(rt, alloc, shape, 1)?;
    waive(rt, alloc, shape, 0)
}

#[test]
fn waivers_on_a_device(rt: HostRuntime) -> Result<(), Fail> {
    over_layouts!(shape => waive_each(&rt, rt.alloc(), shape)?);
    Ok(())
}

/// Runs the lines over a device with one call that fails: the one of this number after the opening.
fn run_faulty(
    alloc: Global,
    shape: JournalShape,
    call: u64,
    batch: usize,
    every: u32,
) -> Result<Box<Session<OnceDisk<MemoryDisk>>>, Fail> {
    let engine = faulty_engine(alloc, shape, call)?;
    Ok(run_lines(alloc, engine, LINES, batch, every)?)
}

/// The output of a session of batches of two, if a call of the second one fails.
const FAULT_IN_SECOND_BATCH: &[u8] = b"OK 1\nOK 2\nERR 91 device\nERR 91 device\nERR 93 failed\n\
    ROUND 1 STAGE 1 OPEN REVENUE 0 COUNT 2\nERR 93 failed\nERR 93 failed\n\
    ROUND 1 STAGE 1 OPEN REVENUE 0 COUNT 2\nNODE a HIGH 0 - PRICE 0 MIN 100 WIN no\n";

/// The second batch of a session ended with a fault.
fn fail_second_batch<D: Disk + Drop>(rt: &impl Abort, session: &Session<D>, call: u64) {
    assert_eq!(rt; session.written.as_slice(), FAULT_IN_SECOND_BATCH, "{call}");
    assert_eq!(rt; session.ran.end, Ok(()), "{call}");
    assert!(rt; session.ran.engine.failed, "{call}");
    assert_eq!(rt; count(&session.ran.engine), 2, "{call}");
}

/// The fault comes at each of the four calls of the second commit.
fn fail_each_call(rt: &impl Abort, alloc: Global, shape: JournalShape) -> Result<(), Fail> {
    for call in 5..9 {
        let session = run_faulty(alloc, shape, call, 2, 0)?;
        fail_second_batch(rt, &session, call);
    }
    Ok(())
}

#[test]
fn fault_in_second_batch(rt: HostRuntime) -> Result<(), Fail> {
    over_layouts!(shape => fail_each_call(&rt, rt.alloc(), shape)?);
    Ok(())
}

/// The output of a session whose checkpoint after the first batch fails: no command gets 91.
const FAULT_IN_A_CHECKPOINT: &[u8] =
    b"OK 1\nOK 2\nOK 3\nOK 4\nOK 5\nROUND 2 STAGE 1 OPEN REVENUE 500 COUNT 5\n\
    ERR 93 failed\nERR 93 failed\nROUND 2 STAGE 1 OPEN REVENUE 500 COUNT 5\n\
    NODE a HIGH 100 x PRICE 138 MIN 160 WIN no\n";

/// The checkpoint has the calls of a session from the fifth on.
fn fail_checkpoint(rt: &impl Abort, alloc: Global, shape: JournalShape) -> Result<(), Fail> {
    let session = run_faulty(alloc, shape, 6, 64, 1)?;
    end_well(rt, &session, FAULT_IN_A_CHECKPOINT, (64, 1));
    assert!(rt; session.ran.engine.failed);
    Ok(())
}

#[test]
fn fault_in_a_checkpoint(rt: HostRuntime) -> Result<(), Fail> {
    over_layouts!(shape => fail_checkpoint(&rt, rt.alloc(), shape)?);
    Ok(())
}
