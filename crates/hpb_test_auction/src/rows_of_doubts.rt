//! Doubts about devices that open, but that no honest device is like.

use crate::commands::{A, B, X, Y, bid};
use crate::devices::new_device;
use crate::images::{batch, put, put_batch, put_state, with_one_bid};
use crate::over_layouts;
use hpb_codec::JournalShape;
use hpb_disk::MemoryDisk;
use hpb_journal::Frame;
use hpb_recover::{Doubts, Later, Opened, find_doubts, open};
use std::alloc::Global;
use std::process::Abort;
use std::test::Fail;

/// The gate of the second slot, and the last byte of its body.
const GATE: usize = 32_768;

const LAST: usize = 53_247;

/// The doubts about a device: the count in the bytes of its other slot; and the index of its last later batch, with the
/// number of that batch's first command.
type Told = (Option<u32>, Option<(u64, u64)>);

/// The numbers of these doubts.
fn told_by(doubts: &Doubts) -> Told {
    let later = match &doubts.frame {
        None => None,
        Some(Later { index, frame }) => match frame {
            Frame::Batch(batch) => Some((*index, batch.first)),
            _ => Some((*index, 0)),
        },
    };
    (doubts.slot, later)
}

/// The doubts about an opened device, and how many commands it has.
fn told_of_opened(alloc: Global, opened: Opened<MemoryDisk>) -> Option<(u32, Told)> {
    let Opened { mut disk, plan, .. } = opened;
    let doubts = find_doubts(alloc, &mut disk, &plan);
    let count = plan.auction.count();
    drop(disk);
    drop(plan);
    match doubts {
        Ok(doubts) => Some((count, told_by(&doubts))),
        Err(_) => None,
    }
}

/// The doubts about a device with these bytes, and how many commands it has. `None` if it isn't opened.
fn told_of(alloc: Global, bytes: &[u8]) -> Result<Option<(u32, Told)>, Fail> {
    let disk = MemoryDisk::of(alloc, bytes.to_vec(alloc)?)?;
    match open(alloc, disk) {
        Ok(opened) => Ok(told_of_opened(alloc, opened)),
        Err(_) => Ok(None),
    }
}

/// A checkpoint of one command stands in the second slot, and then a byte of it is changed. The device opens by the
/// older checkpoint, with the doubt that a newer one had 1 command. If the slot's gate is closed, there is no doubt.
fn spoil_newest(rt: &impl Abort, alloc: Global, shape: JournalShape) -> Result<(), Fail> {
    let mut bytes = new_device(alloc, shape)?;
    put_state(alloc, &mut bytes, 1, &[bid(X, 1, A, 100)], 1)?;
    assert_eq!(rt; told_of(alloc, &bytes)?, Some((1, (None, None))));
    put(&mut bytes, LAST, &[1]);
    assert_eq!(rt; told_of(alloc, &bytes)?, Some((0, (Some(1), None))));
    put(&mut bytes, GATE, &[0]);
    assert_eq!(rt; told_of(alloc, &bytes)?, Some((0, (None, None))));
    Ok(())
}

#[test]
fn newest_checkpoint_damaged_is_told(rt: HostRuntime) -> Result<(), Fail> {
    over_layouts!(shape => spoil_newest(&rt, rt.alloc(), shape)?);
    Ok(())
}

/// The first frame holds the batch of one round later. Only a newer checkpoint can have made room for it.
fn put_later(rt: &impl Abort, alloc: Global, shape: JournalShape) -> Result<(), Fail> {
    let mut bytes = with_one_bid(alloc, shape)?;
    assert_eq!(rt; told_of(alloc, &bytes)?, Some((1, (None, None))));
    let index = u64::from(shape.frames);
    let later = batch(index, 40, &[bid(Y, 1, B, 150)]);
    put_batch(alloc, &mut bytes, shape.layout, 0, &later)?;
    let told = (None, Some((index, 40)));
    assert_eq!(rt; told_of(alloc, &bytes)?, Some((0, told)));
    Ok(())
}

#[test]
fn later_batch_is_told(rt: HostRuntime) -> Result<(), Fail> {
    over_layouts!(shape => put_later(&rt, rt.alloc(), shape)?);
    Ok(())
}
