//! The contents of frames and slots, byte by byte.

use crate::commands::{A, X, bid};
use crate::definitions::new_auction;
use crate::devices::{OPEN, frame_at, new_device};
use hpb_auction::Auction;
use hpb_codec::{
    BATCH_SIZE, Batch, CELLS_SIZE, JournalLayout, JournalShape, PAGE_BYTES, STATE_SIZE,
    encode_batch, encode_cells, encode_state,
};
use hpb_disk::MemoryDisk;
use hpb_recover::open;
use hpb_rules::{Command, Commands, Reply, Saved};
use std::alloc::{AllocError, Global};
use std::test::Fail;

/// The first byte of a frame's body, in the frame.
const BODY: usize = 16;

/// The first byte of each slot. Its body begins a page later.
const SLOTS: [usize; 2] = [12_288, 32_768];

/// A batch of these commands.
pub(crate) fn batch(index: u64, first: u64, commands: &[Command]) -> Batch {
    let mut list = Commands::new();
    for command in commands {
        let _ = list.push(*command);
    }
    Batch {
        index,
        first,
        commands: list,
    }
}

/// Puts bytes at an offset. Bytes that don't fit are left out.
pub(crate) fn put(bytes: &mut [u8], at: usize, part: &[u8]) {
    if at <= bytes.len() && part.len() <= bytes.len() - at {
        bytes[at..at + part.len()].copy_from_slice(part);
    }
}

/// The bytes of a frame's body with a batch: a whole page, or the cells that the batch takes.
fn body_of(alloc: Global, layout: JournalLayout, batch: &Batch) -> Result<Vec<u8>, AllocError> {
    match layout {
        JournalLayout::Pages => {
            let mut body = vec![in alloc; 0; BATCH_SIZE]?;
            encode_batch(batch, &mut body);
            Ok(body)
        }
        JournalLayout::Cells => {
            let mut body = vec![in alloc; 0; CELLS_SIZE]?;
            let size = encode_cells(batch, &mut body);
            body.truncate(size);
            Ok(body)
        }
    }
}

/// Puts a batch into a frame, counted from 0, and opens its gate.
pub(crate) fn put_batch(
    alloc: Global,
    bytes: &mut [u8],
    layout: JournalLayout,
    frame: u32,
    batch: &Batch,
) -> Result<(), AllocError> {
    let at = frame_at(layout, frame);
    put(bytes, at, &[OPEN]);
    put(
        bytes,
        at.saturating_add(BODY),
        &body_of(alloc, layout, batch)?,
    );
    Ok(())
}

/// A new device whose first frame has a batch of one bid.
pub(crate) fn with_one_bid(alloc: Global, shape: JournalShape) -> Result<Vec<u8>, Fail> {
    let mut bytes = new_device(alloc, shape)?;
    let first = batch(0, 1, &[bid(X, 1, A, 100)]);
    put_batch(alloc, &mut bytes, shape.layout, 0, &first)?;
    Ok(bytes)
}

fn state_of(alloc: Global, auction: &Auction, index: u64) -> Result<Vec<u8>, AllocError> {
    let mut saved = Saved::empty();
    auction.save(&mut saved);
    let mut body = vec![in alloc; 0; STATE_SIZE]?;
    encode_state(&saved, index, &mut body);
    Ok(body)
}

fn is_refused(auction: &mut Auction, command: &Command) -> bool {
    matches!(auction.apply(command), Reply::Refused(_))
}

/// The state after these commands, none of them refused, as one that covers `index` batches.
fn state_after(alloc: Global, commands: &[Command], index: u64) -> Result<Vec<u8>, Fail> {
    let mut auction = new_auction(alloc)?;
    for command in commands {
        if is_refused(&mut auction, command) {
            return Err("a command was refused")?;
        }
    }
    Ok(state_of(alloc, &auction, index)?)
}

/// Puts a state into a slot, counted from 0, and opens its gate.
pub(crate) fn put_state(
    alloc: Global,
    bytes: &mut [u8],
    slot: usize,
    commands: &[Command],
    index: u64,
) -> Result<(), Fail> {
    if let Some(at) = SLOTS.get(slot) {
        put(bytes, *at, &[OPEN]);
        put(
            bytes,
            *at + PAGE_BYTES,
            &state_after(alloc, commands, index)?,
        );
    }
    Ok(())
}

/// Whether a device with these bytes opens with the auction after these commands, and with this many clean frames.
pub(crate) fn opens_as(
    alloc: Global,
    bytes: &[u8],
    commands: &[Command],
    clean: u64,
) -> Result<bool, Fail> {
    match open(alloc, MemoryDisk::of(alloc, bytes.to_vec(alloc)?)?) {
        Ok(opened) => {
            let opened = Box::new(alloc, opened)?;
            let auction = opened.auction();
            let is_counted = auction.count() as usize == commands.len() && opened.clean() == clean;
            let state = state_of(alloc, auction, 0)?;
            Ok(is_counted && state == state_after(alloc, commands, 0)?)
        }
        Err(fault) => Err(fault.cause)?,
    }
}
