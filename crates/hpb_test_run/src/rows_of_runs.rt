//! Events one after another, and the device that is opened after a stop.

use crate::runs::{driven, survived};
use hpb_codec::JournalShape;
use hpb_disk::MemoryDisk;
use hpb_engine::{Driven, Event, Survived};
use hpb_rules::{Letter, Refusal};
use hpb_slots::Slot;
use hpb_test_engine::calls::count;
use hpb_test_engine::devices::{Found, found_in, new_engine};
use hpb_test_engine::letters::Bidder::X;
use hpb_test_engine::letters::Node::A;
use hpb_test_engine::letters::{accepted, bid, refused, two};
use hpb_test_engine::over_layouts;
use std::alloc::Global;
use std::process::Abort;
use std::test::Fail;

/// The first bid of x.
fn first() -> Letter {
    bid(X, 1, A, 100)
}

/// Its second bid on the same node in the same round.
fn again() -> Letter {
    bid(X, 2, A, 120)
}

/// A batch, its four turns, and this many steps of a checkpoint.
fn events(alloc: Global, steps: usize) -> Result<Vec<Event>, Fail> {
    let mut events = Vec::new(alloc);
    events.push(Event::Offer(two(first(), again())))?;
    for _ in 0..4 {
        events.push(Event::Commit)?;
    }
    for _ in 0..steps {
        events.push(Event::Checkpoint)?;
    }
    Ok(events)
}

/// The device that is left by a stop at the end of a run.
fn left_by(alloc: Global, shape: JournalShape, events: &[Event]) -> Result<MemoryDisk, Fail> {
    let driven = driven(alloc, new_engine(alloc, shape)?, events)?;
    Ok(driven.engine.disk.after_stop(alloc, &[])?)
}

/// Runs events over a new device, and opens the device that a stop at the end leaves.
fn survived_whole(
    alloc: Global,
    shape: JournalShape,
    events: &[Event],
) -> Result<Box<Survived<MemoryDisk, MemoryDisk>>, Fail> {
    let left = left_by(alloc, shape, events)?;
    survived(alloc, shape, events, left)
}

/// The result on the opened device.
fn found_of(survived: &Survived<MemoryDisk, MemoryDisk>) -> Option<Found> {
    match &survived.found {
        Ok(opened) => Some(found_in(opened)),
        Err(_) => None,
    }
}

/// Whether all events were taken.
fn ends_well(driven: &Driven<MemoryDisk>) -> bool {
    let wanted = [accepted(first(), 0), refused(again(), 1, Refusal::Again)];
    driven.answers.as_slice() == wanted.as_slice()
        && driven.fault.is_none()
        && count(&driven.engine) == 1
}

/// Without an event nothing is taken.
fn drive_nothing(rt: &impl Abort, alloc: Global, shape: JournalShape) -> Result<(), Fail> {
    let survived = survived_whole(alloc, shape, &[])?;
    assert!(rt; survived.driven.answers.is_empty());
    assert!(rt; survived.driven.fault.is_none());
    Ok(())
}

/// A batch and a whole checkpoint are driven, and all commands are found after a stop. A first checkpoint of one batch
/// takes eleven steps; the twelfth is idle.
fn drive_all(rt: &impl Abort, alloc: Global, shape: JournalShape) -> Result<(), Fail> {
    let survived = survived_whole(alloc, shape, &events(alloc, 12)?)?;
    assert!(rt; ends_well(&survived.driven));
    let wanted = Found {
        count: 1,
        clean: u64::from(shape.frames),
        covered: 1,
        slot: Slot::Second,
    };
    assert_eq!(rt; found_of(&survived), Some(wanted));
    drive_nothing(rt, alloc, shape)
}

#[test]
fn events_are_driven(rt: HostRuntime) -> Result<(), Fail> {
    over_layouts!(shape => drive_all(&rt, rt.alloc(), shape)?);
    Ok(())
}
