//! Files of each layout.

use super::{definition, sum_of};
use anyhow::{Error, Result};
use hpb_codec::{JournalLayout, JournalShape, LEAST_CELL_FRAMES, LEAST_FRAMES, PAGE_BYTES};
use hpb_disk::FileDisk;
use hpb_format::format_layout;
use hpb_recover::LEAST_PAGES;
use std::fs;

/// The name of the file, in the folder in which the program runs.
pub(crate) const FILE: &str = "device";

/// The journal with the fewest frames in the layout of this number; any other number counts as the second layout's.
pub(crate) fn shape_of(layout: u8) -> JournalShape {
    if layout == JournalLayout::Pages.byte() {
        JournalShape {
            layout: JournalLayout::Pages,
            frames: LEAST_FRAMES,
        }
    } else {
        JournalShape {
            layout: JournalLayout::Cells,
            frames: LEAST_CELL_FRAMES,
        }
    }
}

/// The pages of a device with the fewest frames of cells: two more than frames of a page each need.
const LEAST_PAGES_OF_CELLS: usize = LEAST_PAGES + 2;

/// The bytes of a device of this layout: 17 pages, or 19.
pub(crate) fn size_of(layout: u8) -> usize {
    match shape_of(layout).layout {
        JournalLayout::Pages => LEAST_PAGES * PAGE_BYTES,
        JournalLayout::Cells => LEAST_PAGES_OF_CELLS * PAGE_BYTES,
    }
}

/// A new file of zeros, in place of the old one.
pub(crate) fn new_file(rt: &HostRuntime, layout: u8) -> Result<FileDisk> {
    let _ = fs::remove_file(rt, FILE);
    Ok(FileDisk::make(rt, rt.alloc(), FILE, size_of(layout))?)
}

/// A new file that keeps an auction of this many nodes.
pub(crate) fn formatted(rt: &HostRuntime, nodes: u64, layout: u8) -> Result<FileDisk> {
    let alloc = rt.alloc();
    let shape = shape_of(layout);
    let disk = new_file(rt, layout)?;
    let definition = definition(alloc, nodes)?;
    match format_layout(alloc, disk, &definition, shape.frames, shape.layout.byte()) {
        Ok(disk) => Ok(disk),
        Err(fault) => Err(Error::from(fault.cause)),
    }
}

/// The sum of the file's bytes. `None` if the file can't be read.
pub(crate) fn file_sum(rt: &HostRuntime) -> Option<u64> {
    match fs::read(rt, FILE) {
        Ok(bytes) => Some(sum_of(&bytes)),
        Err(_) => None,
    }
}
