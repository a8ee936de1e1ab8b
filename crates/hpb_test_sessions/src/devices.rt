//! Opened devices for houses: six nodes, four bidders and a journal of a given shape.

use anyhow::Error;
use hpb_codec::JournalShape;
use hpb_disk::{MemoryDisk, OnceDisk};
use hpb_recover::Opened;
use hpb_test_engine::devices::{calls_of_opening, new_device, opened};
use std::alloc::Global;

/// A new device in memory, opened.
pub(crate) fn new_opened(alloc: Global, shape: JournalShape) -> Result<Opened<MemoryDisk>, Error> {
    match opened(alloc, new_device(alloc, shape)?) {
        Ok(opened) => Ok(opened),
        Err(fault) => Err(Error::from(fault.cause)),
    }
}

/// The same with one call that fails: the one of this number after the opening, counted from 1.
pub(crate) fn faulty_opened(
    alloc: Global,
    shape: JournalShape,
    call: u64,
) -> Result<Opened<OnceDisk<MemoryDisk>>, Error> {
    let fault = calls_of_opening(alloc, shape)?.saturating_add(call);
    let disk = OnceDisk::new(new_device(alloc, shape)?, fault);
    match opened(alloc, disk) {
        Ok(opened) => Ok(opened),
        Err(fault) => Err(Error::from(fault.cause)),
    }
}
