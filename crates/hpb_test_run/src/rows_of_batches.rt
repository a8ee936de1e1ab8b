//! Batches and whole checkpoints over a device.

use hpb_codec::JournalShape;
use hpb_disk::MemoryDisk;
use hpb_engine::Engine;
use hpb_run::{Ended, commit_letters, make_checkpoint};
use hpb_test_engine::devices::{count_on, new_engine};
use hpb_test_engine::letters::{accepted, in_round, one};
use hpb_test_engine::over_layouts;
use std::alloc::Global;
use std::process::Abort;
use std::test::Fail;

/// Commits the command behind `at` others, with this many calls of the device.
fn commit_with(
    rt: &impl Abort,
    alloc: Global,
    engine: &mut Engine<MemoryDisk>,
    at: u32,
    calls: usize,
) -> Result<(), Fail> {
    let before = engine.disk.calls();
    let Ended { answers, fault } = commit_letters(alloc, engine, one(in_round(at)))?;
    assert_eq!(rt; answers.as_slice(), [accepted(in_round(at), at)].as_slice());
    assert_eq!(rt; fault, None);
    assert_eq!(rt; engine.disk.calls(), before.saturating_add(calls));
    Ok(())
}

/// Makes a whole checkpoint, with this many calls of the device.
fn checkpoint_with(
    rt: &impl Abort,
    engine: &mut Engine<MemoryDisk>,
    calls: usize,
) -> Result<(), Fail> {
    let before = engine.disk.calls();
    let fault = make_checkpoint(engine);
    assert_eq!(rt; fault, None);
    assert_eq!(rt; engine.disk.calls(), before.saturating_add(calls));
    Ok(())
}

/// A checkpoint of one batch, and another one, for which all is covered and clean: none of its steps makes a call.
fn checkpoint_twice(rt: &impl Abort, alloc: Global, shape: JournalShape) -> Result<(), Fail> {
    let mut engine = new_engine(alloc, shape)?;
    commit_with(rt, alloc, &mut engine, 0, 4)?;
    checkpoint_with(rt, &mut engine, 10)?;
    checkpoint_with(rt, &mut engine, 0)?;
    assert_eq!(rt; count_on(alloc, Box::into_inner(engine).finish())?, 1);
    Ok(())
}

#[test]
fn checkpoint_is_whole(rt: HostRuntime) -> Result<(), Fail> {
    over_layouts!(shape => checkpoint_twice(&rt, rt.alloc(), shape)?);
    Ok(())
}
