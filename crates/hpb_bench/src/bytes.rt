//! The bytes of a device.

use anyhow::{Result, bail};
use hpb_auction::Auction;
use hpb_codec::{BATCH_SIZE, Batch, PAGE_BYTES, STATE_SIZE, encode_batch, encode_state};
use hpb_disk::{Disk, MemoryDisk};
use hpb_format::format;
use hpb_rules::Saved;
use hpb_tree::Definition;
use std::alloc::{AllocError, Global};

/// The byte of an open gate.
pub(crate) const OPEN: u8 = 0xa5;

/// The first page of the journal.
pub(crate) const JOURNAL: usize = 13;

/// The first byte of a frame's body in its page, which begins with the index of the frame's batch.
pub(crate) const BODY: usize = 16;

/// The first bytes of the slots. The body of each begins a page later.
const FIRST_SLOT: usize = 12_288;

const SECOND_SLOT: usize = 32_768;

/// Puts bytes at an offset. Bytes that don't fit are left out.
pub(crate) fn put(bytes: &mut [u8], at: usize, part: &[u8]) {
    if at <= bytes.len() && part.len() <= bytes.len() - at {
        bytes[at..at + part.len()].copy_from_slice(part);
    }
}

/// All bytes of a device.
pub(crate) fn all_of<D: Disk>(alloc: Global, disk: &mut D) -> Result<Vec<u8>> {
    let mut bytes = vec![in alloc; 0; disk.len()]?;
    disk.read_into(0, &mut bytes)?;
    Ok(bytes)
}

/// The bytes of a new device.
pub(crate) fn new_device(alloc: Global, definition: &Definition, frames: u16) -> Result<Vec<u8>> {
    let pages = JOURNAL + usize::from(frames);
    let disk = MemoryDisk::zeros(alloc, pages * PAGE_BYTES)?;
    match format(alloc, disk, definition, u32::from(frames)) {
        Ok(mut disk) => all_of(alloc, &mut disk),
        Err(_) => bail!("not formatted"),
    }
}

/// Puts a batch into a frame, and opens its gate.
pub(crate) fn put_batch(
    alloc: Global,
    bytes: &mut [u8],
    frame: u16,
    batch: &Batch,
) -> Result<(), AllocError> {
    let mut body = vec![in alloc; 0; BATCH_SIZE]?;
    encode_batch(batch, &mut body);
    if let Some(page) = bytes
        .chunks_mut(PAGE_BYTES)
        .nth(JOURNAL + usize::from(frame))
    {
        put(page, 0, &[OPEN]);
        put(page, BODY, &body);
    }
    Ok(())
}

/// Closes the gates of this many frames.
pub(crate) fn close_frames(bytes: &mut [u8], frames: u16) {
    let pages = bytes.chunks_mut(PAGE_BYTES).skip(JOURNAL);
    for page in pages.take(usize::from(frames)) {
        put(page, 0, &[0]);
    }
}

/// Puts the state of an auction into a slot, as one that covers this many batches, and opens its gate.
pub(crate) fn put_state(
    alloc: Global,
    bytes: &mut [u8],
    is_second: bool,
    auction: &Auction,
    covered: u64,
) -> Result<(), AllocError> {
    let mut saved = Saved::empty();
    auction.save(&mut saved);
    let mut body = vec![in alloc; 0; STATE_SIZE]?;
    encode_state(&saved, covered, &mut body);
    let at = if is_second { SECOND_SLOT } else { FIRST_SLOT };
    put(bytes, at, &[OPEN]);
    put(bytes, at + PAGE_BYTES, &body);
    Ok(())
}
