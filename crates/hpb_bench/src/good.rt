//! Devices as an auction leaves them.

use crate::auctions::{count_of, full_tree, new_auction, play};
use crate::bytes::{close_frames, new_device, put_batch, put_state};
use crate::dice::Dice;
use anyhow::Result;
use hpb_auction::Auction;
use hpb_codec::Batch;
use hpb_tree::Definition;
use std::alloc::Global;

/// How many devices there are of each kind: as many auctions, with one definition and one number of frames.
pub(crate) const OF_A_KIND: usize = 8;

/// The kinds: how many nodes, bidders and frames.
const KINDS: [(u64, u64, u16); 4] = [(7, 4, 4), (7, 4, 5), (3, 2, 4), (15, 8, 8)];

/// A device that is written, and its auction.
#[derive(Drop)]
struct Writer {
    bytes: Vec<u8>,
    auction: Auction,
    frames: u16,
    /// How many batches may be put behind the newest state.
    room: u16,
    /// Whether the newest state is in the second slot.
    is_second: bool,
}

impl Writer {
    fn new(alloc: Global, definition: &Definition, frames: u16) -> Result<Writer> {
        Ok(Writer {
            bytes: new_device(alloc, definition, frames)?,
            auction: new_auction(alloc, definition)?,
            frames,
            room: frames,
            is_second: false,
        })
    }

    /// Puts the state before a batch into the slot that isn't the newest. The frames before it are closed or not.
    fn checkpoint(&mut self, alloc: Global, dice: &mut Dice, index: u64) -> Result<()> {
        self.is_second = !self.is_second;
        put_state(alloc, &mut self.bytes, self.is_second, &self.auction, index)?;
        self.room = self.frames;
        if dice.once_in(2) {
            close_frames(&mut self.bytes, self.frames);
        }
        Ok(())
    }

    /// Puts a batch of some commands into its frame, if the auction isn't over.
    fn commit(&mut self, alloc: Global, dice: &mut Dice, index: u64) -> Result<bool> {
        let first = count_of(&self.auction).wrapping_add(1);
        let commands = play(&mut self.auction, dice);
        if commands.len() == 0 {
            return Ok(false);
        }
        let batch = Batch {
            index,
            first,
            commands,
        };
        let frame = index.checked_rem(u64::from(self.frames)).unwrap_or(0);
        put_batch(alloc, &mut self.bytes, frame as u16, &batch)?;
        self.room = self.room.saturating_sub(1);
        Ok(true)
    }
}

/// A device with all batches of an auction, up to some number, and a checkpoint now and then.
fn good_device(
    alloc: Global,
    dice: &mut Dice,
    definition: &Definition,
    frames: u16,
) -> Result<Vec<u8>> {
    let mut writer = Writer::new(alloc, definition, frames)?;
    for index in 0..dice.below(40) as u64 {
        if writer.room == 0 || dice.once_in(5) {
            writer.checkpoint(alloc, dice, index)?;
        }
        if !writer.commit(alloc, dice, index)? {
            break;
        }
    }
    Ok(writer.bytes)
}

/// Some devices of each kind, one kind behind the other.
pub(crate) fn good_devices(alloc: Global, dice: &mut Dice) -> Result<Vec<Vec<u8>>> {
    let mut devices = Vec::new(alloc);
    for (nodes, bidders, frames) in KINDS {
        let definition = full_tree(alloc, nodes, bidders)?;
        for _ in 0..OF_A_KIND {
            devices.push(good_device(alloc, dice, &definition, frames)?)?;
        }
    }
    Ok(devices)
}
