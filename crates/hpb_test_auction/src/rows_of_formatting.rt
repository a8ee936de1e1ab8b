//! The results of opening new devices, and devices that aren't new.

use crate::definitions::six_nodes;
use crate::devices::{
    EIGHT_PAGES, FOUR_PAGES, Found, LAYOUT, MOST_CELLS, MOST_PAGES, SIXTEEN_CELLS, UNFORMATTED,
    device_bytes, formatted, new_device, opened, opened_front,
};
use hpb_codec::{JournalLayout, JournalShape, PAGE_BYTES};
use hpb_disk::MemoryDisk;
use hpb_format::FormatCause;
use hpb_tree::Definition;
use std::alloc::Global;
use std::test::Fail;

/// Journals, and the bytes of their devices.
const SIZES: [(JournalShape, usize); 4] = [
    (FOUR_PAGES, 69_632),
    (MOST_PAGES, 4_247_552),
    (SIXTEEN_CELLS, 77_824),
    (MOST_CELLS, 1_626_112),
];

/// The results on a device of this many bytes: of formatting it, of opening it then, and of formatting it again.
fn formatted_twice(
    alloc: Global,
    definition: &Definition,
    shape: JournalShape,
    len: usize,
) -> Result<(Option<FormatCause>, Found, Option<FormatCause>), Fail> {
    let disk = MemoryDisk::zeros(alloc, len)?;
    let (disk, cause) = formatted(alloc, disk, definition, shape);
    let (disk, found) = opened(alloc, disk);
    let (disk, again) = formatted(alloc, disk, definition, shape);
    drop(disk);
    Ok((cause, found, again))
}

#[test]
fn formatted_and_opened(rt: HostRuntime) -> Result<(), Fail> {
    let alloc = rt.alloc();
    let definition = six_nodes(alloc)?;
    for (shape, len) in SIZES {
        assert_eq!(rt; device_bytes(shape), len);
        let (cause, found, again) = formatted_twice(alloc, &definition, shape, len)?;
        assert_eq!(rt; cause, None, "{len}");
        assert_eq!(rt; found, Ok((0, u64::from(shape.frames))), "{len}");
        assert_eq!(rt; again, Some(FormatCause::Formatted), "{len}");
    }
    Ok(())
}

/// Frames of pages, and bytes, that a device can't have together.
const APART: [(u32, usize); 3] = [(3, 65_536), (1_025, 4_251_648), (4, 69_631)];

#[test]
fn lengths_that_are_refused(rt: HostRuntime) -> Result<(), Fail> {
    let alloc = rt.alloc();
    let definition = six_nodes(alloc)?;
    for (frames, len) in APART {
        let layout = JournalLayout::Pages;
        let shape = JournalShape { layout, frames };
        let (cause, found, _) = formatted_twice(alloc, &definition, shape, len)?;
        assert_eq!(rt; cause, Some(FormatCause::Length), "{len}");
        assert_eq!(rt; found, UNFORMATTED, "{len}");
    }
    Ok(())
}

#[test]
fn unformatted_devices(rt: HostRuntime) -> Result<(), Fail> {
    let alloc = rt.alloc();
    let zeros = vec![in alloc; 0; 69_632]?;
    for len in [0, 69_631, 69_632] {
        assert_eq!(rt; opened_front(alloc, &zeros, len)?, UNFORMATTED, "{len}");
    }
    Ok(())
}

/// How many pages a device has at least.
const LEAST_PAGES: usize = 17;

/// Each number of whole pages that a device may be cut to.
#[test]
fn device_cut_short(rt: HostRuntime) -> Result<(), Fail> {
    let alloc = rt.alloc();
    let whole = new_device(alloc, EIGHT_PAGES)?;
    for pages in 0..22_usize {
        let wanted = if pages < LEAST_PAGES {
            UNFORMATTED
        } else if pages < 21 {
            LAYOUT
        } else {
            Ok((0, 8))
        };
        let found = opened_front(alloc, &whole, pages.saturating_mul(PAGE_BYTES))?;
        assert_eq!(rt; found, wanted, "{pages}");
    }
    Ok(())
}
