//! Calls by their names.

use crate::files::Way;
use crate::houses::Begun;
use crate::memories::Call;
use crate::trials::{Tried, tell};
use crate::{
    auctions, definitions, engines, files, formats, houses, memories, openings, scripts, sessions,
    starts, texts,
};
use anyhow::{Result, bail};
use std::sync::Wait;

/// Makes the call of this name, and writes its result.
pub(crate) fn tried<W: Wait>(
    rt: &HostRuntime,
    waits: &W,
    call: &str,
    nodes: &str,
    layout: &str,
) -> Result<()> {
    let nodes = nodes.parse::<u64>()?;
    let layout = layout.parse::<u8>()?;
    if call == "House::start" {
        return house_told(rt, waits, nodes, layout);
    }
    let tried = made(rt, call, nodes, layout)?;
    tell(rt, &tried)?;
    Ok(())
}

/// Starts a house, and writes the result, and in the next line which part was refused.
fn house_told<W: Wait>(rt: &HostRuntime, waits: &W, nodes: u64, layout: u8) -> Result<()> {
    let Begun { tried, part } = houses::start(rt, waits, nodes, layout)?;
    tell(rt, &tried)?;
    if let Some(part) = part {
        println!(rt; "{part:?}")?;
    }
    Ok(())
}

/// Makes the call of this name.
fn made(rt: &HostRuntime, call: &str, nodes: u64, layout: u8) -> Result<Tried> {
    match call {
        "check" => definitions::check(rt, nodes),
        "copy" => definitions::copy(rt, nodes),
        "read_definition" => definitions::read(rt),
        "decode_head" => definitions::decode(rt, nodes),
        "Auction::new" => auctions::new(rt, nodes),
        "Auction::copy" => auctions::copy(rt, nodes),
        "run_commands" => auctions::run(rt, nodes),
        "ResponseText::new" => texts::new(rt),
        "render" => texts::render(rt, nodes),
        "run_script" => scripts::run(rt),
        "serve" => scripts::serve(rt, nodes),
        _ => made_on_device(rt, call, nodes, layout),
    }
}

/// Makes the call of this name, if it is one on a device that keeps an auction.
fn made_on_device(rt: &HostRuntime, call: &str, nodes: u64, layout: u8) -> Result<Tried> {
    match call {
        "format" => formats::tried(rt, nodes, None),
        "format_layout" => formats::tried(rt, nodes, Some(layout)),
        "open" => openings::open_device(rt, nodes, layout),
        "Engine::start" => starts::start(rt, nodes, layout),
        "Engine::run" => engines::run(rt, nodes, layout),
        "drive" => starts::drive_events(rt, nodes, layout),
        "drive_opened" => starts::drive_device(rt, nodes, layout),
        "run_device" => sessions::run(rt, nodes, layout),
        _ => made_alone(rt, call, layout),
    }
}

/// Makes the call of this name, if it is one of a device alone.
fn made_alone(rt: &HostRuntime, call: &str, layout: u8) -> Result<Tried> {
    match call {
        "MemoryDisk::zeros" => memories::zeros(rt, layout),
        "MemoryDisk::of" => memories::of(rt, layout),
        "MemoryDisk::after_stop" => memories::after_stop(rt, layout),
        "MemoryDisk::read_into" => memories::first_call(rt, layout, Call::Read),
        "MemoryDisk::write_at" => memories::first_call(rt, layout, Call::Write),
        "MemoryDisk::sync" => memories::first_call(rt, layout, Call::Sync),
        "FileDisk::make" => Ok(files::of_none(rt, Way::Make, layout)),
        "FileDisk::open" => files::of_file(rt, Way::Open, layout),
        "FileDisk::open_to_read" => files::of_file(rt, Way::OpenToRead, layout),
        "FileDisk::open_or_make" => Ok(files::of_none(rt, Way::OpenOrMake, layout)),
        _ => bail!("no such call"),
    }
}
