//! Sizes at which all requests must be answered.

ghost use Rattle.std.specs.Prelude.{◌≤◌};
ghost use Rattle.hpb_rules.specs.declared.limits.TheConstants.{MOST_SEATS};

use crate::auctions::{Sent, Size, are_accepted, definition, events};
use anyhow::{Error, Result, bail};
use hpb_codec::{JournalLayout, JournalShape};
use hpb_disk::MemoryDisk;
use hpb_engine::{Driven, Event, drive};
use hpb_format::format_layout;
use hpb_house::House;
use hpb_test_engine::devices::{boxed, count_on, device_bytes, engine_over, opened_or_cause};
use std::alloc::Global;
use std::sync::Wait;
use std::test::Fail;

const GREATEST: Size = Size {
    nodes: 127,
    packages: 63,
    bidders: 64,
};

fn pages(frames: u32) -> JournalShape {
    JournalShape {
        layout: JournalLayout::Pages,
        frames,
    }
}

pub(crate) fn cells(frames: u32) -> JournalShape {
    JournalShape {
        layout: JournalLayout::Cells,
        frames,
    }
}

/// A device of such a size.
pub(crate) fn formatted(alloc: Global, size: Size, shape: JournalShape) -> Result<MemoryDisk> {
    let definition = definition(alloc, size)?;
    let disk = MemoryDisk::zeros(alloc, device_bytes(shape))?;
    match format_layout(alloc, disk, &definition, shape.frames, shape.layout.byte()) {
        Ok(disk) => Ok(disk),
        Err(fault) => Err(Error::from(fault.cause)),
    }
}

/// Opens a device, starts an engine and drives it.
fn driven(alloc: Global, disk: MemoryDisk, events: &[Event]) -> Result<Box<Driven<MemoryDisk>>> {
    let engine = engine_over(alloc, disk)?;
    match drive(alloc, Box::into_inner(engine), events) {
        Ok(driven) => Ok(boxed(alloc, driven)?),
        Err(engine) => {
            drop(engine);
            bail!("memory was refused")
        }
    }
}

/// Whether there was no fault, and this many commands are newly accepted, from the first on.
fn is_accepted(driven: &Driven<MemoryDisk>, accepted: u32) -> bool {
    driven.fault.is_none()
        && driven.answers.len() == accepted as usize
        && are_accepted(&driven.answers)
}

/// Formats a device, opens it, starts an engine and drives it. `accepted` commands must be accepted, and `found` be
/// there when the device is opened again.
fn drives(
    alloc: Global,
    (size, shape): (Size, JournalShape),
    events: &[Event],
    (accepted, found): (u32, u32),
) -> Result<()> {
    let driven = driven(alloc, formatted(alloc, size, shape)?, events)?;
    if !is_accepted(&driven, accepted) {
        bail!("{size:?}, {shape:?}, {} events: an answer", events.len());
    }
    if count_on(alloc, Box::into_inner(driven).engine.finish())? != found {
        bail!(
            "{size:?}, {shape:?}, {} events: what is opened",
            events.len()
        );
    }
    Ok(())
}

/// Each command is accepted, and is found when the device is opened again.
fn works(alloc: Global, size: Size, shape: JournalShape, commands: u32, batch: u32) -> Result<()> {
    let sent = Sent {
        commands,
        batch,
        frames: shape.frames,
    };
    let events = events(alloc, size, sent)?;
    drives(alloc, (size, shape), &events, (commands, commands))
}

/// The least journal of each layout, some rounds.
fn works_in_both(alloc: Global, nodes: u64, packages: u64, bidders: u64) -> Result<()> {
    let size = Size {
        nodes,
        packages,
        bidders,
    };
    works(alloc, size, pages(4), 300, 16)?;
    works(alloc, size, cells(16), 300, 16)
}

#[test]
fn each_number_of_nodes(rt: HostRuntime) -> Result<(), Fail> {
    works_in_both(rt.alloc(), 1, 0, 3)?;
    works_in_both(rt.alloc(), 2, 0, 3)?;
    works_in_both(rt.alloc(), 64, 0, 3)?;
    works_in_both(rt.alloc(), 65, 1, 3)?;
    works_in_both(rt.alloc(), 127, 63, 3)?;
    Ok(())
}

#[test]
fn each_number_of_bidders(rt: HostRuntime) -> Result<(), Fail> {
    works_in_both(rt.alloc(), 127, 63, 1)?;
    works_in_both(rt.alloc(), 127, 63, 63)?;
    works_in_both(rt.alloc(), 127, 63, 64)?;
    Ok(())
}

#[test]
fn each_number_of_pages(rt: HostRuntime) -> Result<(), Fail> {
    works(rt.alloc(), GREATEST, pages(4), 300, 64)?;
    works(rt.alloc(), GREATEST, pages(5), 300, 64)?;
    works(rt.alloc(), GREATEST, pages(64), 300, 64)?;
    works(rt.alloc(), GREATEST, pages(1_024), 300, 64)?;
    Ok(())
}

#[test]
fn each_number_of_cells(rt: HostRuntime) -> Result<(), Fail> {
    works(rt.alloc(), GREATEST, cells(16), 300, 64)?;
    works(rt.alloc(), GREATEST, cells(24), 300, 64)?;
    works(rt.alloc(), GREATEST, cells(64), 300, 64)?;
    works(rt.alloc(), GREATEST, cells(1_024), 300, 64)?;
    Ok(())
}

fn batches(alloc: Global, batch: u32) -> Result<()> {
    works(alloc, GREATEST, pages(4), 200, batch)?;
    works(alloc, GREATEST, cells(16), 200, batch)
}

#[test]
fn each_size_of_batches(rt: HostRuntime) -> Result<(), Fail> {
    batches(rt.alloc(), 1)?;
    batches(rt.alloc(), 63)?;
    batches(rt.alloc(), 64)?;
    Ok(())
}

fn commands(alloc: Global, commands: u32) -> Result<()> {
    works(alloc, GREATEST, pages(64), commands, 64)?;
    works(alloc, GREATEST, cells(64), commands, 64)
}

#[test]
fn each_number_of_commands(rt: HostRuntime) -> Result<(), Fail> {
    commands(rt.alloc(), 0)?;
    commands(rt.alloc(), 1)?;
    commands(rt.alloc(), 65_536)?;
    Ok(())
}

/// The first events of a thousand: an offer of one command and the four turns of its commit, over and over. A command
/// is accepted with its fourth turn, and is on the device with the third.
fn events_of(alloc: Global, shape: JournalShape) -> Result<()> {
    let sent = Sent {
        commands: 200,
        batch: 1,
        frames: shape.frames,
    };
    let events = events(alloc, GREATEST, sent)?;
    if events.len() != 1_000 {
        bail!("{} events", events.len());
    }
    for count in [1u32, 2, 3, 4, 5, 255, 256, 257, 999, 1_000] {
        let front = &events[..events.len().min(count as usize)];
        let found = count.saturating_add(1) / 5;
        drives(alloc, (GREATEST, shape), front, (count / 5, found))?;
    }
    Ok(())
}

#[test]
fn each_number_of_events(rt: HostRuntime) -> Result<(), Fail> {
    events_of(rt.alloc(), pages(256))?;
    events_of(rt.alloc(), cells(256))?;
    Ok(())
}

/// A house over a new device has a client for each session.
fn starts<R: Wait>(rt: &R, alloc: Global, shape: JournalShape, sessions: u8) -> Result<()>
    requires { (1 ≤ sessions) × (sessions ≤ MOST_SEATS) }
{
    let opened = opened_or_cause(alloc, formatted(alloc, GREATEST, shape)?)?;
    let started = match House::start(rt, alloc, Box::into_inner(opened), sessions) {
        Ok(started) => boxed(alloc, started)?,
        Err(fault) => {
            drop(fault);
            bail!("the house was not started")
        }
    };
    if started.clients.len() != usize::from(sessions) {
        bail!("{} clients", started.clients.len());
    }
    Ok(())
}

#[test]
fn each_number_of_sessions(rt: HostRuntime) -> Result<(), Fail> {
    starts(&rt, rt.alloc(), pages(4), 1)?;
    starts(&rt, rt.alloc(), cells(1_024), 2)?;
    starts(&rt, rt.alloc(), pages(1_024), 31)?;
    starts(&rt, rt.alloc(), cells(16), 32)?;
    Ok(())
}
