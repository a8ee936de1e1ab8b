//! The results of opening devices with frames that no writer made.

use crate::commands::{A, B, C, X, Y, Z, bid};
use crate::devices::{
    Change, FRAME, Found, JOURNAL, frame_at, new_device, open_changed, opened_bytes, opened_with,
};
use crate::images::{batch, put, put_batch, with_one_bid};
use crate::over_layouts;
use hpb_codec::JournalShape;
use std::alloc::Global;
use std::process::Abort;
use std::test::Fail;

/// The lowest byte of the index, in a frame.
const INDEX: usize = 23;

/// A device with this many commands, and this many frames that aren't clean.
fn found(shape: JournalShape, count: u32, unclean: u32) -> Found {
    Ok((count, u64::from(shape.frames.saturating_sub(unclean))))
}

/// Changes of the first frame, which has a batch of one bid. With each of them it can't be the first of all batches.
const DAMAGES: [&[Change]; 14] = [
    // No record, one more than there is, and more than there can be; first number 2.
    &[(JOURNAL + 33, 0)],
    &[(JOURNAL + 33, 2)],
    &[(JOURNAL + 33, 65)],
    &[(JOURNAL + 31, 2)],
    // The bytes that are zero before the records and behind them.
    &[(JOURNAL + 34, 1)],
    &[(JOURNAL + 56, 1)],
    // A kind, a bidder and a node that don't exist, and the zero byte.
    &[(JOURNAL + 40, 5)],
    &[(JOURNAL + 41, 4)],
    &[(JOURNAL + 42, 6)],
    &[(JOURNAL + 43, 1)],
    // No ticket, ticket 2 first, and 90 dollars.
    &[(JOURNAL + 47, 0)],
    &[(JOURNAL + 47, 2)],
    &[(JOURNAL + 55, 90)],
    // The same bid twice.
    &[
        (JOURNAL + 33, 2),
        (JOURNAL + 56, 1),
        (JOURNAL + 58, 2),
        (JOURNAL + 63, 1),
        (JOURNAL + 71, 100),
    ],
];

/// Under another index the frame belongs to another batch. Then it only isn't clean, whatever its body has.
fn damage(rt: &impl Abort, alloc: Global, shape: JournalShape) -> Result<(), Fail> {
    let mut bytes = with_one_bid(alloc, shape)?;
    assert_eq!(rt; opened_with(alloc, &bytes, &[])?, found(shape, 1, 1));
    open_changed(rt, alloc, &bytes, &DAMAGES, FRAME)?;
    put(&mut bytes, JOURNAL + INDEX, &[1]);
    open_changed(rt, alloc, &bytes, &DAMAGES, Ok((0, 0)))
}

#[test]
fn damaged_frames(rt: HostRuntime) -> Result<(), Fail> {
    over_layouts!(shape => damage(&rt, rt.alloc(), shape)?);
    Ok(())
}

/// The first three frames, each with the next batch: open (`o`), closed (`-`), or open with the index of the batch that
/// the frame serves next (`n`). Then how many commands the device opens with, and how many frames aren't clean. `None`
/// if it doesn't open.
const ORDERS: [(&[u8; 3], Option<(u32, u32)>); 8] = [
    (b"ooo", Some((3, 3))),
    (b"oo-", Some((2, 2))),
    (b"-oo", None),
    (b"o-o", None),
    (b"noo", None),
    (b"ono", None),
    (b"onn", Some((1, u32::MAX))),
    (b"n--", Some((0, u32::MAX))),
];

/// A new device with such first frames.
fn with_frames(alloc: Global, shape: JournalShape, frames: &[u8; 3]) -> Result<Vec<u8>, Fail> {
    let bids = [bid(X, 1, A, 100), bid(Y, 1, B, 150), bid(Z, 1, C, 100)];
    let mut bytes = new_device(alloc, shape)?;
    for ((frame, word), command) in (0_u32..3).zip(frames).zip(bids) {
        let own = u64::from(frame);
        let index = if *word == b'n' {
            own + u64::from(shape.frames)
        } else {
            own
        };
        let batch = batch(index, own + 1, &[command]);
        put_batch(alloc, &mut bytes, shape.layout, frame, &batch)?;
        if *word == b'-' {
            put(&mut bytes, frame_at(shape.layout, frame), &[0]);
        }
    }
    Ok(bytes)
}

fn try_orders(rt: &impl Abort, alloc: Global, shape: JournalShape) -> Result<(), Fail> {
    for (frames, wanted) in ORDERS {
        let wanted = match wanted {
            Some((count, unclean)) => found(shape, count, unclean),
            None => FRAME,
        };
        let bytes = with_frames(alloc, shape, frames)?;
        assert_eq!(rt; opened_bytes(alloc, bytes)?, wanted, "{frames:?}");
    }
    Ok(())
}

#[test]
fn frames_out_of_their_order(rt: HostRuntime) -> Result<(), Fail> {
    over_layouts!(shape => try_orders(&rt, rt.alloc(), shape)?);
    Ok(())
}
