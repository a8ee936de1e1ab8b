//! Devices to try, and the results of opening them.

use crate::definitions::six_nodes_with;
use hpb_codec::{JournalLayout, JournalShape, PAGE_BYTES};
use hpb_disk::{Disk, MemoryDisk};
use hpb_format::{FormatCause, format_layout};
use hpb_recover::{Cause, Flaw, open};
use hpb_tree::Definition;
use std::alloc::Global;
use std::process::Abort;
use std::test::Fail;

/// Journals of pages: with the fewest frames, with twice as many, and with the most.
pub(crate) const FOUR_PAGES: JournalShape = JournalShape {
    layout: JournalLayout::Pages,
    frames: 4,
};

pub(crate) const EIGHT_PAGES: JournalShape = JournalShape {
    layout: JournalLayout::Pages,
    frames: 8,
};

pub(crate) const MOST_PAGES: JournalShape = JournalShape {
    layout: JournalLayout::Pages,
    frames: 1_024,
};

/// Journals of cells: with the fewest frames, and with the most.
pub(crate) const SIXTEEN_CELLS: JournalShape = JournalShape {
    layout: JournalLayout::Cells,
    frames: 16,
};

pub(crate) const MOST_CELLS: JournalShape = JournalShape {
    layout: JournalLayout::Cells,
    frames: 1_024,
};

/// Does a row with each of three journals, by the name that it has in the row: `over_layouts!(shape => row(shape)?)`.
#[macro_export]
macro_rules! over_layouts {
    ($shape:ident => $row:expr) => {
        for $shape in [
            $crate::devices::FOUR_PAGES,
            $crate::devices::EIGHT_PAGES,
            $crate::devices::SIXTEEN_CELLS,
        ] {
            $row;
        }
    };
}

/// The journal's first byte.
pub(crate) const JOURNAL: usize = 53_248;

/// The byte of an open gate.
pub(crate) const OPEN: u8 = 0xa5;

/// The first byte of a frame, counted from 0: each is a page, or three cells of 512 bytes.
pub(crate) fn frame_at(layout: JournalLayout, frame: u32) -> usize {
    let bytes = match layout {
        JournalLayout::Pages => PAGE_BYTES,
        JournalLayout::Cells => 1_536_usize,
    };
    JOURNAL.saturating_add(bytes.saturating_mul(frame as usize))
}

/// The bytes of a device with such a journal, which ends behind the last frame.
pub(crate) fn device_bytes(shape: JournalShape) -> usize {
    frame_at(shape.layout, shape.frames)
}

/// The result of opening: how many commands and clean frames, or why it isn't opened.
pub(crate) type Found = Result<(u32, u64), Cause>;

pub(crate) const UNFORMATTED: Found = Err(Cause::Flawed(Flaw::Unformatted));

pub(crate) const LAYOUT: Found = Err(Cause::Flawed(Flaw::Layout));

pub(crate) const CHECKPOINT: Found = Err(Cause::Flawed(Flaw::Checkpoint));

pub(crate) const FRAME: Found = Err(Cause::Flawed(Flaw::Frame));

/// Formats a device with such a journal. Gives the device, with the cause of a fault.
pub(crate) fn formatted<D: Disk + Drop>(
    alloc: Global,
    disk: D,
    definition: &Definition,
    shape: JournalShape,
) -> (D, Option<FormatCause>) {
    match format_layout(alloc, disk, definition, shape.frames, shape.layout.byte()) {
        Ok(disk) => (disk, None),
        Err(fault) => (fault.disk, Some(fault.cause)),
    }
}

/// All bytes of a device.
pub(crate) fn all_of<D: Disk>(alloc: Global, disk: &mut D) -> Result<Vec<u8>, Fail> {
    let mut bytes = vec![in alloc; 0; disk.len()]?;
    disk.read_into(0, &mut bytes)?;
    Ok(bytes)
}

/// The bytes of a new device with such a journal, for the definition with this many waivers.
pub(crate) fn new_device_with(
    alloc: Global,
    shape: JournalShape,
    waivers: u8,
) -> Result<Vec<u8>, Fail> {
    let definition = six_nodes_with(alloc, waivers)?;
    let disk = MemoryDisk::zeros(alloc, device_bytes(shape))?;
    let (mut disk, _) = formatted(alloc, disk, &definition, shape);
    all_of(alloc, &mut disk)
}

/// The same without waivers.
pub(crate) fn new_device(alloc: Global, shape: JournalShape) -> Result<Vec<u8>, Fail> {
    new_device_with(alloc, shape, 0)
}

/// Opens a device, and hands it back.
pub(crate) fn opened<D: Disk + Drop>(alloc: Global, disk: D) -> (D, Found) {
    match open(alloc, disk) {
        Ok(opened) => {
            let found = (opened.auction().count(), opened.clean());
            (opened.disk, Ok(found))
        }
        Err(fault) => (fault.disk, Err(fault.cause)),
    }
}

/// Opens a device with these bytes.
pub(crate) fn opened_bytes(alloc: Global, bytes: Vec<u8>) -> Result<Found, Fail> {
    let (_, found) = opened(alloc, MemoryDisk::of(alloc, bytes)?);
    Ok(found)
}

/// A changed byte of a device, by its offset.
pub(crate) type Change = (usize, u8);

/// Opens a device with these bytes, some of them changed.
pub(crate) fn opened_with(alloc: Global, bytes: &[u8], changes: &[Change]) -> Result<Found, Fail> {
    let mut changed = bytes.to_vec(alloc)?;
    for (at, byte) in changes {
        if *at < changed.len() {
            changed[*at] = *byte;
        }
    }
    opened_bytes(alloc, changed)
}

/// Whether a device opens with this result under each of these changes alone.
pub(crate) fn open_changed(
    rt: &impl Abort,
    alloc: Global,
    bytes: &[u8],
    rows: &[&[Change]],
    wanted: Found,
) -> Result<(), Fail> {
    for changes in rows {
        assert_eq!(rt; opened_with(alloc, bytes, changes)?, wanted, "{changes:?}");
    }
    Ok(())
}

/// Opens a device with the first `count` of these bytes.
pub(crate) fn opened_front(alloc: Global, bytes: &[u8], count: usize) -> Result<Found, Fail> {
    let mut front = bytes.to_vec(alloc)?;
    front.truncate(count);
    opened_bytes(alloc, front)
}
