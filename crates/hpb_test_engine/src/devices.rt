//! Devices in memory of each layout, engines over them, and the results of opening them again.

use anyhow::{Error, Result, bail};
use hpb_codec::{JournalLayout, JournalShape, PAGE_BYTES};
use hpb_disk::{Disk, Fate, MemoryDisk, OnceDisk};
use hpb_engine::Engine;
use hpb_format::format_layout;
use hpb_recover::{OpenFault, Opened, open};
use hpb_slots::Slot;
use hpb_tree::{BidderDraft, Definition, Draft, NodeDraft, TermsDraft};
use std::alloc::{AllocError, Global};

/// A journal of pages, and one of cells, each with the fewest frames.
pub const PAGES: JournalShape = JournalShape {
    layout: JournalLayout::Pages,
    frames: 4,
};

pub const CELLS: JournalShape = JournalShape {
    layout: JournalLayout::Cells,
    frames: 16,
};

/// Does a row with the journal of each layout, by the name that it has in the row: `over_layouts!(shape =>
/// row(shape)?)`.
#[macro_export]
macro_rules! over_layouts {
    ($shape:ident => $row:expr) => {
        for $shape in [$crate::devices::PAGES, $crate::devices::CELLS] {
            $row;
        }
    };
}

/// The journal's first byte, behind 13 pages of 4,096 bytes.
const JOURNAL_AT: usize = 53_248;

/// The bytes of a frame: a page, or three cells of 512.
fn frame_bytes(layout: JournalLayout) -> usize {
    match layout {
        JournalLayout::Pages => PAGE_BYTES,
        JournalLayout::Cells => 1_536,
    }
}

/// The first byte of the frame at this place.
pub fn frame_at(layout: JournalLayout, place: u32) -> usize {
    let before = frame_bytes(layout).saturating_mul(place as usize);
    JOURNAL_AT.saturating_add(before)
}

/// The bytes of a device with such a journal, which ends behind the last frame.
pub fn device_bytes(shape: JournalShape) -> usize {
    frame_at(shape.layout, shape.frames)
}

fn node(
    alloc: Global,
    name: &str,
    parent: Option<u64>,
    units: Option<u64>,
) -> Result<NodeDraft, AllocError> {
    Ok(NodeDraft {
        name: String::from_str(alloc, name)?,
        parent,
        terms: units.map(|units| TermsDraft {
            units,
            opening: 100,
        }),
    })
}

/// A draft of six nodes, four bidders, two stages and this many waivers.
fn six_nodes_draft(alloc: Global, waivers: u64) -> Result<Draft, AllocError> {
    let mut draft = Draft {
        step: 10,
        percent: 10,
        stages: vec![in alloc; 80, 95]?,
        waivers,
        nodes: Vec::new(alloc),
        bidders: Vec::new(alloc),
    };
    for (name, parent, units) in [
        ("all", None, None),
        ("east", Some(0), None),
        ("a", Some(1), Some(10)),
        ("b", Some(1), Some(10)),
        ("c", Some(0), Some(20)),
        ("d", None, Some(5)),
    ] {
        draft.nodes.push(node(alloc, name, parent, units)?)?;
    }
    for (name, units) in [("x", 10), ("y", 10), ("z", 40), ("w", 25)] {
        let name = String::from_str(alloc, name)?;
        draft.bidders.push(BidderDraft { name, units })?;
    }
    Ok(draft)
}

/// A definition of six nodes, four bidders, two stages and this many waivers.
fn six_nodes_with(alloc: Global, waivers: u64) -> Result<Definition> {
    let draft = six_nodes_draft(alloc, waivers)?;
    Ok(Definition::check(alloc, &draft)?)
}

/// A definition of six nodes, four bidders, two stages and no waivers.
pub fn six_nodes(alloc: Global) -> Result<Definition> {
    six_nodes_with(alloc, 0)
}

/// A device of this definition that was formatted with such a journal.
fn formatted(alloc: Global, definition: &Definition, shape: JournalShape) -> Result<MemoryDisk> {
    let disk = MemoryDisk::zeros(alloc, device_bytes(shape))?;
    match format_layout(alloc, disk, definition, shape.frames, shape.layout.byte()) {
        Ok(disk) => Ok(disk),
        Err(fault) => Err(Error::from(fault.cause)),
    }
}

/// A new device with such a journal and this many waivers, which had no call yet.
pub fn new_device_with(alloc: Global, shape: JournalShape, waivers: u64) -> Result<MemoryDisk> {
    let definition = six_nodes_with(alloc, waivers)?;
    let bytes = bytes_of(alloc, formatted(alloc, &definition, shape)?)?;
    Ok(MemoryDisk::of(alloc, bytes)?)
}

/// A new device with such a journal, which had no call yet.
pub fn new_device(alloc: Global, shape: JournalShape) -> Result<MemoryDisk> {
    new_device_with(alloc, shape, 0)
}

/// All bytes of a device.
pub fn bytes_of(alloc: Global, disk: MemoryDisk) -> Result<Vec<u8>> {
    let mut disk = disk;
    let mut bytes = vec![in alloc; 0; disk.len()]?;
    disk.read_into(0, &mut bytes)?;
    Ok(bytes)
}

/// A value in a box. Its owner frees it by one call, however large it is.
pub fn boxed<T: Drop>(alloc: Global, value: T) -> Result<Box<T>, AllocError> {
    Ok(Box::new(alloc, value)?)
}

/// Opens a device.
pub fn opened<D: Disk + Drop>(alloc: Global, disk: D) -> Result<Opened<D>, OpenFault<D>> {
    match open(alloc, disk) {
        Ok(opened) => Ok(opened),
        Err(fault) => Err(fault),
    }
}

/// An engine over an opened device.
pub fn started<D: Disk + Drop>(alloc: Global, opened: Box<Opened<D>>) -> Result<Box<Engine<D>>> {
    match Engine::start(alloc, Box::into_inner(opened)) {
        Ok(engine) => Ok(boxed(alloc, engine)?),
        Err(opened) => {
            drop(opened);
            bail!("memory was refused")
        }
    }
}

/// The result of opening a device; without the device if it isn't opened.
pub fn opened_or_cause<D: Disk + Drop>(alloc: Global, disk: D) -> Result<Box<Opened<D>>> {
    match opened(alloc, disk) {
        Ok(opened) => Ok(boxed(alloc, opened)?),
        Err(fault) => Err(Error::from(fault.cause)),
    }
}

/// An engine over a device.
pub fn engine_over<D: Disk + Drop>(alloc: Global, disk: D) -> Result<Box<Engine<D>>> {
    started(alloc, opened_or_cause(alloc, disk)?)
}

/// An engine over a new device with such a journal.
pub fn new_engine(alloc: Global, shape: JournalShape) -> Result<Box<Engine<MemoryDisk>>> {
    engine_over(alloc, new_device(alloc, shape)?)
}

/// How many calls it takes to open a new device. An engine's own calls are counted behind these.
pub fn calls_of_opening(alloc: Global, shape: JournalShape) -> Result<u64> {
    let engine = new_engine(alloc, shape)?;
    Ok(engine.disk.calls() as u64)
}

/// An engine over a new device with one call that fails: the one of this number after the opening, counted from 1.
pub fn faulty_engine(
    alloc: Global,
    shape: JournalShape,
    call: u64,
) -> Result<Box<Engine<OnceDisk<MemoryDisk>>>> {
    let fault = calls_of_opening(alloc, shape)?.saturating_add(call);
    engine_over(alloc, OnceDisk::new(new_device(alloc, shape)?, fault))
}

/// The fates that are tried for all writes that no sync covers.
pub const FATES: [Fate; 4] = [Fate::Kept, Fate::Lost, Fate::Filled(0), Fate::Filled(165)];

/// Opens the bytes that a stop leaves of an engine's device, by the fates of the writes that no sync covers.
pub fn opened_after(
    alloc: Global,
    engine: &Engine<MemoryDisk>,
    fates: &[Fate],
) -> Result<Box<Opened<MemoryDisk>>> {
    opened_or_cause(alloc, engine.disk.after_stop(alloc, fates)?)
}

/// The numbers of an opened device.
#[derive(Clone, Copy, Debug, PartialEq, Eq)]
pub struct Found {
    /// How many commands there are.
    pub count: u32,
    /// How many frames are clean.
    pub clean: u64,
    /// How many batches the newest state covers, and in which slot it is.
    pub covered: u64,
    pub slot: Slot,
}

/// The numbers of an opened device.
pub fn found_in<D: Disk + Drop>(opened: &Opened<D>) -> Found {
    Found {
        count: opened.auction().count(),
        clean: opened.clean(),
        covered: opened.plan.covered,
        slot: opened.plan.slot,
    }
}

/// How many commands a device has.
pub fn count_on(alloc: Global, disk: MemoryDisk) -> Result<u32> {
    let opened = opened_or_cause(alloc, disk)?;
    Ok(opened.auction().count())
}
