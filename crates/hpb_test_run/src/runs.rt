//! Events that are driven one after another.

use hpb_codec::JournalShape;
use hpb_disk::{Disk, MemoryDisk};
use hpb_engine::{Driven, Engine, Event, Survived, drive, drive_opened, drive_then_open};
use hpb_recover::Opened;
use hpb_test_engine::devices::{boxed, new_device, opened_or_cause};
use std::alloc::Global;
use std::test::Fail;

/// The result of events.
pub(crate) fn driven<D: Disk + Drop>(
    alloc: Global,
    engine: Box<Engine<D>>,
    events: &[Event],
) -> Result<Box<Driven<D>>, Fail> {
    match drive(alloc, Box::into_inner(engine), events) {
        Ok(driven) => Ok(boxed(alloc, driven)?),
        Err(engine) => {
            drop(engine);
            Err(Fail::new("memory was refused"))
        }
    }
}

/// Drives the events over an opened device.
pub(crate) fn run<D: Disk + Drop>(
    alloc: Global,
    opened: Opened<D>,
    events: &[Event],
) -> Result<Box<Driven<D>>, Fail> {
    match drive_opened(alloc, opened, events) {
        Ok(driven) => Ok(boxed(alloc, driven)?),
        Err(disk) => {
            drop(disk);
            Err(Fail::new("memory was refused"))
        }
    }
}

/// Drives the events over a new device, and then opens another one, which may have the bytes that a stop of the run
/// left.
pub(crate) fn survived(
    alloc: Global,
    shape: JournalShape,
    events: &[Event],
    left: MemoryDisk,
) -> Result<Box<Survived<MemoryDisk, MemoryDisk>>, Fail> {
    let opened = opened_or_cause(alloc, new_device(alloc, shape)?)?;
    match drive_then_open(alloc, Box::into_inner(opened), events, left) {
        Ok(survived) => Ok(boxed(alloc, survived)?),
        Err(devices) => {
            drop(devices);
            Err(Fail::new("memory was refused"))
        }
    }
}
