//! Calls that start an engine, and take events.

use crate::trials::{
    Came, Tried, begin, came_of, end, engine, engine_sum, events, file_sum, is_sum, opened,
    opened_sum,
};
use anyhow::Result;
use hpb_disk::FileDisk;
use hpb_engine::{Driven, Engine, Event, drive, drive_opened};
use hpb_recover::{Opened, open};
use hpb_rules::Refusal;

/// The result of a call that starts an engine.
fn came(rt: &HostRuntime, made: Result<Engine<FileDisk>, Opened<FileDisk>>) -> Came {
    match made {
        Ok(engine) => came_of(engine_sum(rt, &engine)),
        Err(_) => Came::Refused(Refusal::Memory),
    }
}

/// Tries `Engine::start`, over a new device of an auction of this many nodes.
pub(crate) fn start(rt: &HostRuntime, nodes: u64, layout: u8) -> Result<Tried> {
    let opened = opened(rt, nodes, layout)?;
    Ok(start_marked(rt, opened))
}

/// Starts an engine between the marks. If that is refused, the opened device is handed back, and an engine is started
/// over it once more.
fn start_marked(rt: &HostRuntime, opened: Opened<FileDisk>) -> Tried {
    let given = opened_sum(rt, &opened);
    let _ = begin(rt);
    let made = Engine::start(rt.alloc(), opened);
    let _ = end(rt);
    match made {
        Ok(engine) => Tried::well(came_of(engine_sum(rt, &engine))),
        Err(back) => Tried {
            first: Came::Refused(Refusal::Memory),
            is_same: is_sum(opened_sum(rt, &back), given),
            again: came(rt, Engine::start(rt.alloc(), back)),
        },
    }
}

/// The result of events: the sum of the engine, and how many answers left.
fn drove(rt: &HostRuntime, driven: &Driven<FileDisk>) -> Came {
    let sum = engine_sum(rt, &driven.engine);
    came_of(sum.map(|sum| sum.wrapping_add(driven.answers.len() as u64)))
}

/// The result of a call that takes events.
fn driven<B: Drop>(rt: &HostRuntime, made: Result<Driven<FileDisk>, B>) -> Came {
    match made {
        Ok(made) => drove(rt, &made),
        Err(_) => Came::Refused(Refusal::Memory),
    }
}

/// Tries `drive`, with an engine over a new device of an auction of this many nodes.
pub(crate) fn drive_events(rt: &HostRuntime, nodes: u64, layout: u8) -> Result<Tried> {
    let events = events(rt.alloc(), nodes)?;
    let engine = engine(rt, nodes, layout)?;
    Ok(drive_marked(rt, engine, &events))
}

/// Takes events between the marks. If that is refused, the engine is handed back, and takes them then.
fn drive_marked(rt: &HostRuntime, engine: Engine<FileDisk>, events: &[Event]) -> Tried {
    let given = engine_sum(rt, &engine);
    let _ = begin(rt);
    let made = drive(rt.alloc(), engine, events);
    let _ = end(rt);
    match made {
        Ok(made) => Tried::well(drove(rt, &made)),
        Err(back) => Tried {
            first: Came::Refused(Refusal::Memory),
            is_same: is_sum(engine_sum(rt, &back), given),
            again: driven(rt, drive(rt.alloc(), back, events)),
        },
    }
}

/// Tries `drive_opened`, on a new device of an auction of this many nodes.
pub(crate) fn drive_device(rt: &HostRuntime, nodes: u64, layout: u8) -> Result<Tried> {
    let events = events(rt.alloc(), nodes)?;
    let opened = opened(rt, nodes, layout)?;
    Ok(drive_device_marked(rt, opened, &events))
}

/// Takes events on an opened device, between the marks. If that is refused, the device is handed back and opened anew,
/// and takes them then.
fn drive_device_marked(rt: &HostRuntime, opened: Opened<FileDisk>, events: &[Event]) -> Tried {
    let given = opened_sum(rt, &opened);
    let _ = begin(rt);
    let made = drive_opened(rt.alloc(), opened, events);
    let _ = end(rt);
    match made {
        Ok(made) => Tried::well(drove(rt, &made)),
        Err(disk) => drive_again(rt, disk, given, events),
    }
}

/// Opens a device that was handed back, checks that it is unchanged, and takes the events.
fn drive_again(rt: &HostRuntime, disk: FileDisk, given: Option<u64>, events: &[Event]) -> Tried {
    let first = Came::Refused(Refusal::Memory);
    match open(rt.alloc(), disk) {
        Ok(opened) => Tried {
            first,
            is_same: is_sum(opened_sum(rt, &opened), given),
            again: driven(rt, drive_opened(rt.alloc(), opened, events)),
        },
        Err(fault) => Tried {
            first,
            is_same: false,
            again: Came::Refused(fault.cause.refusal()),
        },
    }
}
