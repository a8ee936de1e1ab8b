//! Opened devices for houses.

use anyhow::Error;
use hpb_codec::{JournalLayout, JournalShape};
use hpb_disk::{MemoryDisk, OnceDisk};
use hpb_format::format_layout;
use hpb_recover::Opened;
use hpb_test_engine::devices::{calls_of_opening, device_bytes, new_device, opened};
use hpb_tree::{BidderDraft, Definition, Draft, NodeDraft, TermsDraft};
use std::alloc::{AllocError, Global};
use std::test::Fail;

/// A new device of six nodes and four bidders with such a journal, opened.
pub(crate) fn six_nodes_opened(
    alloc: Global,
    shape: JournalShape,
) -> Result<Box<Opened<MemoryDisk>>, Fail> {
    match opened(alloc, new_device(alloc, shape)?) {
        Ok(opened) => Ok(Box::new(alloc, opened)?),
        Err(fault) => Err(Fail::from(Error::from(fault.cause))),
    }
}

/// The same with one call that fails: the one of this number after the opening, counted from 1.
pub(crate) fn faulty_opened(
    alloc: Global,
    shape: JournalShape,
    call: u64,
) -> Result<Box<Opened<OnceDisk<MemoryDisk>>>, Fail> {
    let fault = calls_of_opening(alloc, shape)?.saturating_add(call);
    let disk = OnceDisk::new(new_device(alloc, shape)?, fault);
    match opened(alloc, disk) {
        Ok(opened) => Ok(Box::new(alloc, opened)?),
        Err(fault) => Err(Fail::from(Error::from(fault.cause))),
    }
}

/// How many licences and how many bidders the wide definition has.
pub(crate) const WIDE: u8 = 32;

/// The frames of the wide device.
const FRAMES: u32 = 64;

/// A draft of these licences, and of bidders that may bid on all of them.
fn wide_draft(alloc: Global) -> Result<Draft, AllocError> {
    let mut draft = Draft {
        step: 10,
        percent: 10,
        stages: vec![in alloc; 80]?,
        waivers: 0,
        nodes: Vec::new(alloc),
        bidders: Vec::new(alloc),
    };
    for place in 0..WIDE {
        draft.nodes.push(NodeDraft {
            name: format!(in alloc; "n{place}")?,
            parent: None,
            terms: Some(TermsDraft {
                units: 1,
                opening: 100,
            }),
        })?;
        let name = format!(in alloc; "b{place}")?;
        draft.bidders.push(BidderDraft { name, units: 32 })?;
    }
    Ok(draft)
}

/// The definition by that draft.
fn wide_definition(alloc: Global) -> Result<Box<Definition>, Fail> {
    let draft = wide_draft(alloc)?;
    Ok(Box::new(alloc, Definition::check(alloc, &draft)?)?)
}

/// A new device for it with 64 frames of this layout.
fn wide_device(alloc: Global, layout: JournalLayout) -> Result<MemoryDisk, Fail> {
    let definition = wide_definition(alloc)?;
    let shape = JournalShape {
        layout,
        frames: FRAMES,
    };
    let disk = MemoryDisk::zeros(alloc, device_bytes(shape))?;
    match format_layout(alloc, disk, &definition, FRAMES, layout.byte()) {
        Ok(disk) => Ok(disk),
        Err(fault) => Err(Fail::from(Error::from(fault.cause))),
    }
}

/// A new device of 32 licences, 32 bidders and 64 frames of this layout, opened.
pub(crate) fn wide_opened(
    alloc: Global,
    layout: JournalLayout,
) -> Result<Box<Opened<MemoryDisk>>, Fail> {
    let disk = wide_device(alloc, layout)?;
    match opened(alloc, disk) {
        Ok(opened) => Ok(Box::new(alloc, opened)?),
        Err(fault) => Err(Fail::from(Error::from(fault.cause))),
    }
}
