//! The largest device, whose journal is full of the largest batches.

use crate::auctions::{count_of, full_tree, new_auction, next_bid, next_close, take};
use crate::bytes::{new_device, put_batch};
use crate::opening::opened;
use anyhow::{Result, bail};
use hpb_auction::Auction;
use hpb_codec::Batch;
use hpb_disk::{Disk, MemoryDisk};
use hpb_rules::{Command, Commands, MOST_BIDDERS, MOST_LETTERS, MOST_NODES};
use hpb_tree::Definition;
use std::alloc::Global;

/// How many frames the largest journal has.
const FRAMES: u16 = 1_024;

/// How many nodes and bidders the largest auction has.
const NODES: u64 = MOST_NODES as u64;

const BIDDERS: u64 = MOST_BIDDERS as u64;

/// How many commands a round has: a bid of each bidder on each node, and a close.
const ROUND: usize = MOST_BIDDERS * MOST_NODES + 1;

/// The next command of an auction that had `count`. Of two bids on a node, the later one is higher.
fn command_at(auction: &Auction, count: u64) -> Command {
    let place = (count % ROUND as u64) as usize;
    if place == ROUND - 1 {
        return next_close(auction);
    }
    let bidder = place / MOST_NODES;
    next_bid(auction, bidder, place % MOST_NODES, bidder as u8)
}

/// The next batch of an auction, of 64 commands.
fn next_batch(auction: &mut Auction, index: u16) -> Result<Batch> {
    let first = count_of(auction).wrapping_add(1);
    let mut commands = Commands::new();
    for _ in 0..MOST_LETTERS {
        let command = command_at(auction, count_of(auction));
        take(auction, command, &mut commands);
    }
    if commands.len() < MOST_LETTERS {
        bail!("a command was refused");
    }
    Ok(Batch {
        index: u64::from(index),
        first,
        commands,
    })
}

/// The bytes of a device whose state is that of the beginning, and whose journal is full.
fn full_bytes(alloc: Global, definition: &Definition) -> Result<Vec<u8>> {
    let mut auction = new_auction(alloc, definition)?;
    let mut bytes = new_device(alloc, definition, FRAMES)?;
    for frame in 0..FRAMES {
        let batch = next_batch(&mut auction, frame)?;
        put_batch(alloc, &mut bytes, frame, &batch)?;
    }
    Ok(bytes)
}

/// The largest device: 127 nodes, 64 bidders, and 1,024 batches of 64 commands.
fn full_device(alloc: Global) -> Result<MemoryDisk> {
    let definition = full_tree(alloc, NODES, BIDDERS)?;
    Ok(MemoryDisk::of(alloc, full_bytes(alloc, &definition)?)?)
}

/// Opens the largest device this many times. Gives the sum of the numbers of commands.
pub(crate) fn open_rounds(alloc: Global, rounds: u64) -> Result<u64> {
    let mut disk = full_device(alloc)?;
    let mut sum = 0_u64;
    for _ in 0..rounds {
        let (back, found) = opened(alloc, disk);
        let Ok(count) = found else {
            bail!("not opened");
        };
        sum = sum.wrapping_add(u64::from(count));
        disk = back;
    }
    Ok(sum)
}

/// Reads all bytes of a device.
fn read_all(disk: &mut MemoryDisk, bytes: &mut [u8]) -> Result<()> {
    if bytes.len() != disk.len() {
        bail!("as many bytes as the device has");
    }
    disk.read_into(0, bytes)?;
    Ok(())
}

/// Reads all bytes of the largest device this many times. Gives the sum of their first ones.
pub(crate) fn read_rounds(alloc: Global, rounds: u64) -> Result<u64> {
    let mut disk = full_device(alloc)?;
    let mut bytes = vec![in alloc; 0; disk.len()]?;
    let mut sum = 0_u64;
    for _ in 0..rounds {
        read_all(&mut disk, &mut bytes)?;
        if let Some(gate) = bytes.first() {
            sum = sum.wrapping_add(u64::from(*gate));
        }
    }
    Ok(sum)
}
