//! Opening a device in memory.

use hpb_disk::MemoryDisk;
use hpb_recover::{Cause, open};
use std::alloc::Global;

/// Opens a device. Gives how many commands its auction has accepted, or why it isn't opened, and hands the device back.
pub(crate) fn opened(alloc: Global, disk: MemoryDisk) -> (MemoryDisk, Result<u32, Cause>) {
    match open(alloc, disk) {
        Ok(opened) => {
            let count = opened.auction().count();
            (opened.disk, Ok(count))
        }
        Err(fault) => (fault.disk, Err(fault.cause)),
    }
}
