//! Devices that were made when states had their first format, and the checkpoints that are made of them.

use crate::calls::{commit, steps_to_whole};
use crate::devices::{FATES, bytes_of, engine_over, new_engine, opened_or_cause};
use crate::letters::Bidder::{W, X, Y, Z};
use crate::letters::Node::{A, All, B, C};
use crate::letters::{bid, close, list_of};
use crate::over_layouts;
use crate::states::{same, state_after};
use hpb_auction::Auction;
use hpb_codec::JournalShape;
use hpb_disk::{Fate, FuseDisk, MemoryDisk};
use hpb_recover::Opened;
use hpb_rules::{Letter, NodeId};
use hpb_slots::Slot;
use std::alloc::Global;
use std::process::Abort;
use std::test::Fail;

/// The byte of the format of states: in the head, and in the body of each slot.
const IN_HEAD: usize = 25;

const IN_FIRST: usize = 16_384;

const IN_SECOND: usize = 36_864;

/// The byte behind the nodes and bidders of the head.
const HEAD_END: usize = 12_288;

fn put(bytes: &mut [u8], at: usize, byte: u8) {
    if at < bytes.len() {
        bytes[at] = byte;
    }
}

/// The bytes of a device, as it was when states had their first format. A state of the empty auction without waivers
/// differs in that format by its number alone.
fn made_old(alloc: Global, disk: MemoryDisk) -> Result<Vec<u8>, Fail> {
    let mut bytes = bytes_of(alloc, disk)?;
    put(&mut bytes, IN_HEAD, 1);
    put(&mut bytes, IN_FIRST, 1);
    Ok(bytes)
}

/// A round in which a package beats its parts.
fn first_round() -> [Letter; 5] {
    [
        bid(X, 1, A, 100),
        bid(Y, 1, B, 150),
        bid(Z, 1, All, 500),
        bid(W, 1, C, 100),
        close(1),
    ]
}

/// An old device with this round in its first frame.
fn old_device(alloc: Global, shape: JournalShape) -> Result<Vec<u8>, Fail> {
    let mut engine = new_engine(alloc, shape)?;
    let _ = commit(&mut engine, list_of(&first_round()));
    made_old(alloc, Box::into_inner(engine).finish())
}

/// The result of opening a device with these bytes.
fn opened_bytes(alloc: Global, bytes: &[u8]) -> Result<Box<Opened<MemoryDisk>>, Fail> {
    let disk = MemoryDisk::of(alloc, bytes.to_vec(alloc)?)?;
    Ok(opened_or_cause(alloc, disk)?)
}

/// The amount and the bidder of a node's high bid, its price, its minimum, and whether it wins.
type Shown = (Option<(u64, usize)>, u64, u64, bool);

/// The view of each node after the round.
const SHOWN: [Shown; 6] = [
    (Some((500, 2)), 500, 550, true),
    (None, 325, 360, false),
    (Some((100, 0)), 138, 160, false),
    (Some((150, 1)), 187, 210, false),
    (Some((100, 3)), 175, 200, false),
    (None, 0, 100, false),
];

/// The view of the node at this place.
fn shown_at(auction: &Auction, place: usize) -> Option<Shown> {
    if place >= auction.definition().node_count() {
        return None;
    }
    let view = auction.node_view(NodeId::new(place));
    let high = view.high.map(|offer| (offer.amount, offer.bidder.place()));
    Some((high, view.price, view.minimum, view.wins))
}

/// Whether an auction is the one after the round.
fn is_after_round(auction: &Auction) -> bool {
    for (place, shown) in SHOWN.iter().enumerate() {
        if shown_at(auction, place) != Some(*shown) {
            return false;
        }
    }
    auction.count() == 5
}

/// Makes a checkpoint on a device with these bytes, whose calls all fail from this one on. Gives whether it is whole,
/// and the device.
fn cut(alloc: Global, old: &[u8], call: u64) -> Result<(bool, MemoryDisk), Fail> {
    let disk = FuseDisk::new(MemoryDisk::of(alloc, old.to_vec(alloc)?)?, call);
    let mut engine = engine_over(alloc, disk)?;
    let is_whole = steps_to_whole(&mut engine, 20) > 0;
    Ok((is_whole, Box::into_inner(engine).finish().into_inner()))
}

/// The format of the state with which a device opens, as these bytes say it.
fn format_of(opened: &Opened<MemoryDisk>, bytes: &[u8]) -> Option<u8> {
    let at = match opened.plan.slot {
        Slot::First => IN_FIRST,
        Slot::Second => IN_SECOND,
    };
    bytes.get(at).copied()
}

/// The bytes that a stop leaves of an old device have its head, byte for byte, and its auction. The state in the second
/// slot is of the second format.
fn leave_old(
    rt: &impl Abort,
    alloc: Global,
    old: &[u8],
    disk: &MemoryDisk,
    fate: Fate,
) -> Result<(), Fail> {
    let bytes = bytes_of(alloc, disk.after_stop(alloc, &[fate; 16])?)?;
    assert!(rt; bytes.get(..HEAD_END) == old.get(..HEAD_END));
    let opened = opened_bytes(alloc, &bytes)?;
    let state = state_after(alloc, &first_round())?;
    assert!(rt; same(opened.auction(), &state));
    let wanted = match opened.plan.slot {
        Slot::First => 1,
        Slot::Second => 2,
    };
    assert_eq!(rt; format_of(&opened, &bytes), Some(wanted));
    Ok(())
}

/// A checkpoint is cut at this call, counted behind those by which the device is opened. It has ten: eight write the
/// state, and two retire its frame.
fn cut_at(rt: &impl Abort, alloc: Global, old: &[u8], opening: u64, call: u64) -> Result<(), Fail> {
    let (is_whole, disk) = cut(alloc, old, opening.saturating_add(call))?;
    assert_eq!(rt; is_whole, call > 10, "{call}");
    for fate in FATES {
        leave_old(rt, alloc, old, &disk, fate)?;
    }
    Ok(())
}

/// The formats of the states in the first and in the second slot.
fn formats_in(bytes: &[u8]) -> (Option<u8>, Option<u8>) {
    (bytes.get(IN_FIRST).copied(), bytes.get(IN_SECOND).copied())
}

/// A checkpoint is cut at each of its calls, and then at none. After the last the second slot has the second format.
fn cut_each(rt: &impl Abort, alloc: Global, shape: JournalShape) -> Result<(), Fail> {
    let old = old_device(alloc, shape)?;
    let opened = opened_bytes(alloc, &old)?;
    assert!(rt; is_after_round(opened.auction()));
    let opening = opened.disk.calls() as u64;
    for call in 1..12 {
        cut_at(rt, alloc, &old, opening, call)?;
    }
    let (_, whole) = cut(alloc, &old, opening.saturating_add(11))?;
    let bytes = bytes_of(alloc, whole)?;
    assert_eq!(rt; formats_in(&bytes), (Some(1), Some(2)));
    Ok(())
}

#[test]
fn old_device_checkpointed(rt: HostRuntime) -> Result<(), Fail> {
    over_layouts!(shape => cut_each(&rt, rt.alloc(), shape)?);
    Ok(())
}
