//! The results of opening devices that were changed.

use crate::devices::{
    CHECKPOINT, Change, EIGHT_PAGES, Found, LAYOUT, SIXTEEN_CELLS, UNFORMATTED, all_of, new_device,
    new_device_with, open_changed, opened, opened_with,
};
use crate::images::with_one_bid;
use crate::over_layouts;
use hpb_codec::{JournalShape, PAGE_BYTES};
use hpb_disk::{Disk, MemoryDisk, OnceDisk};
use hpb_recover::Cause;
use std::alloc::Global;
use std::process::Abort;
use std::test::Fail;

/// The result of opening a new device with one byte changed, at this offset of its first page.
fn flipped_at(at: usize, shape: JournalShape) -> Found {
    if at == 0 || (16 <= at && at < 24) {
        UNFORMATTED
    } else if at < 16 {
        Ok((0, u64::from(shape.frames)))
    } else {
        LAYOUT
    }
}

/// Flips all bits of this many bytes of the first page, one byte at a time.
fn flip_head(
    rt: &impl Abort,
    alloc: Global,
    shape: JournalShape,
    count: usize,
) -> Result<(), Fail> {
    let whole = new_device(alloc, shape)?;
    for (at, byte) in whole.iter().enumerate().take(count) {
        let found = opened_with(alloc, &whole, &[(at, byte ^ 0xff)])?;
        assert_eq!(rt; found, flipped_at(at, shape), "{at}");
    }
    Ok(())
}

#[test]
fn head_byte_flipped(rt: HostRuntime) -> Result<(), Fail> {
    flip_head(&rt, rt.alloc(), EIGHT_PAGES, PAGE_BYTES)?;
    flip_head(&rt, rt.alloc(), SIXTEEN_CELLS, 64)
}

/// Changes of the first slot's body, with each of which it is no state: the eligibility of the first bidder is 11, the
/// batch index 1, the last byte 1.
const IN_THE_SLOT: [&[Change]; 3] = [&[(19_483, 11)], &[(16_407, 1)], &[(32_767, 1)]];

#[test]
fn damaged_slot(rt: HostRuntime) -> Result<(), Fail> {
    let alloc = rt.alloc();
    over_layouts!(shape => {
        let whole = new_device(alloc, shape)?;
        open_changed(&rt, alloc, &whole, &IN_THE_SLOT, CHECKPOINT)?;
    });
    Ok(())
}

/// Formats of states and numbers of waivers in the head that don't exist.
const NO_HEADS: [&[Change]; 3] = [&[(25, 1)], &[(25, 3)], &[(34, 21)]];

/// The first slot's body in the first format, which has no waivers left.
const FIRST_FORMAT: &[Change] = &[
    (16_384, 1),
    (19_492, 0),
    (19_540, 0),
    (19_588, 0),
    (19_636, 0),
];

/// The same, in a head without waivers.
const WITHOUT_WAIVERS: &[Change] = &[
    (34, 0),
    (16_384, 1),
    (19_492, 0),
    (19_540, 0),
    (19_588, 0),
    (19_636, 0),
];

#[test]
fn waiver_heads_refused(rt: HostRuntime) -> Result<(), Fail> {
    let alloc = rt.alloc();
    over_layouts!(shape => {
        let whole = new_device_with(alloc, shape, 1)?;
        let sound = Ok((0, u64::from(shape.frames)));
        open_changed(&rt, alloc, &whole, &[&[], &[(34, 20)], WITHOUT_WAIVERS], sound)?;
        open_changed(&rt, alloc, &whole, &NO_HEADS, LAYOUT)?;
        open_changed(&rt, alloc, &whole, &[&[(34, 0)], FIRST_FORMAT], CHECKPOINT)?;
    });
    Ok(())
}

/// How many calls of the device there are when it is opened.
fn calls_of_opening(alloc: Global, bytes: &[u8]) -> Result<u64, Fail> {
    let (disk, _) = opened(alloc, MemoryDisk::of(alloc, bytes.to_vec(alloc)?)?);
    Ok(disk.calls() as u64)
}

/// Opens a device twice, with one call that fails. Says whether it then has the same bytes as before.
fn opened_twice(alloc: Global, bytes: &[u8], call: u64) -> Result<(Found, Found, bool), Fail> {
    let disk = OnceDisk::new(MemoryDisk::of(alloc, bytes.to_vec(alloc)?)?, call);
    let (disk, found) = opened(alloc, disk);
    let (disk, again) = opened(alloc, disk);
    let is_same = all_of(alloc, &mut disk.into_inner())?.as_slice() == bytes;
    Ok((found, again, is_same))
}

/// Each call of opening fails by itself, and the device is opened again. With one open slot the calls are a sync, two
/// reads of the head, and a read of each slot's gate, of the state, and of each frame. The call behind them is the sync
/// of the second opening.
fn fail_each_call(rt: &impl Abort, alloc: Global, shape: JournalShape) -> Result<(), Fail> {
    let whole = with_one_bid(alloc, shape)?;
    let frames = u64::from(shape.frames);
    let calls = frames.saturating_add(6);
    assert_eq!(rt; calls_of_opening(alloc, &whole)?, calls);
    let sound = Ok((1, frames.saturating_sub(1)));
    let failed = Err(Cause::Device);
    for call in 1..calls.saturating_add(1) {
        let found = opened_twice(alloc, &whole, call)?;
        assert_eq!(rt; found, (failed, sound, true), "{call}");
    }
    let past = opened_twice(alloc, &whole, calls.saturating_add(1))?;
    assert_eq!(rt; past, (sound, failed, true));
    Ok(())
}

#[test]
fn open_fails_once(rt: HostRuntime) -> Result<(), Fail> {
    over_layouts!(shape => fail_each_call(&rt, rt.alloc(), shape)?);
    Ok(())
}
