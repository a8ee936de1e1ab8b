//! The results of opening devices after a stop.

use crate::calls::{Turn, steps_retiring, steps_to_whole, take_step};
use crate::devices::{Found, found_in, new_engine, opened_after, started};
use crate::expecting::{commits_one, hands_back, steps, takes, turns};
use crate::letters::Bidder::{X, Y};
use crate::letters::Node::{A, B};
use crate::letters::{accepted, after_four, bid, close, four, list_of, one};
use crate::over_layouts;
use crate::states::{same, state_after};
use hpb_codec::JournalShape;
use hpb_disk::{Disk, Fate, MemoryDisk};
use hpb_engine::{Engine, Part, Rest, Weight};
use hpb_recover::Opened;
use hpb_rules::{Letter, Letters};
use hpb_slots::Slot;
use std::alloc::Global;
use std::process::Abort;
use std::test::Fail;

/// The byte of an open gate.
const OPEN: u8 = 0xa5;

/// Three commands.
fn three() -> [Letter; 3] {
    [bid(X, 1, A, 100), bid(Y, 1, B, 150), close(1)]
}

/// A device without a checkpoint, with `count` commands in this many batches, each in a frame of its own.
fn uncovered(shape: JournalShape, count: u32, batches: u32) -> Found {
    Found {
        count,
        clean: u64::from(shape.frames.saturating_sub(batches)),
        covered: 0,
        slot: Slot::First,
    }
}

/// Whether three turns of a batch are made.
fn writes_gate<D: Disk + Drop>(engine: &mut Engine<D>, letters: Letters) -> bool {
    takes(engine, letters)
        && turns(engine, Ok(Turn::Went))
        && turns(engine, Ok(Turn::Went))
        && turns(engine, Ok(Turn::Went))
}

fn write_gate(
    rt: &impl Abort,
    alloc: Global,
    engine: &mut Engine<MemoryDisk>,
    shape: JournalShape,
) -> Result<(), Fail> {
    assert!(rt; writes_gate(engine, list_of(&three())));
    let (none, all) = (uncovered(shape, 0, 0), uncovered(shape, 3, 1));
    for (fate, wanted) in [
        (Fate::Kept, all),
        (Fate::Lost, none),
        (Fate::Filled(0), none),
        (Fate::Filled(OPEN), all),
        (Fate::Filled(0xa4), none),
    ] {
        let opened = opened_after(alloc, engine, &[fate])?;
        assert_eq!(rt; found_in(&opened), wanted);
    }
    Ok(())
}

#[test]
fn stop_in_the_gate_write(rt: HostRuntime) -> Result<(), Fail> {
    let alloc = rt.alloc();
    over_layouts!(shape => write_gate(&rt, alloc, &mut *new_engine(alloc, shape)?, shape)?);
    Ok(())
}

/// Whether a checkpoint is begun, and its first two pages are written.
fn writes_two_pages<D: Disk + Drop>(engine: &mut Engine<D>) -> bool {
    for part in [Part::Other, Part::Other, Part::Chunk(0), Part::Chunk(1)] {
        if !steps(engine, Ok(Rest::Went(part))) {
            return false;
        }
    }
    true
}

/// Whether a checkpoint is begun after the first of three batches, and its third page is written after them all.
fn writes_third_page<D: Disk + Drop>(engine: &mut Engine<D>) -> bool {
    commits_one(engine, accepted(bid(X, 1, A, 100), 0))
        && writes_two_pages(engine)
        && commits_one(engine, accepted(bid(Y, 1, B, 150), 1))
        && commits_one(engine, accepted(close(1), 2))
        && steps(engine, Ok(Rest::Went(Part::Chunk(2))))
}

fn write_third_page(
    rt: &impl Abort,
    alloc: Global,
    engine: &mut Engine<MemoryDisk>,
    shape: JournalShape,
) -> Result<(), Fail> {
    assert!(rt; writes_third_page(engine));
    let old = uncovered(shape, 3, 3);
    let wanted = state_after(alloc, &three())?;
    for fate in [Fate::Kept, Fate::Lost, Fate::Filled(0), Fate::Filled(OPEN)] {
        let opened = opened_after(alloc, engine, &[fate])?;
        assert_eq!(rt; found_in(&opened), old);
        assert!(rt; same(opened.auction(), &wanted));
    }
    Ok(())
}

#[test]
fn stop_in_the_third_page(rt: HostRuntime) -> Result<(), Fail> {
    let alloc = rt.alloc();
    over_layouts!(shape => write_third_page(&rt, alloc, &mut *new_engine(alloc, shape)?, shape)?);
    Ok(())
}

/// Whether four batches are committed and a checkpoint of them is written that has retired two frames, without a sync.
fn retires_two<D: Disk + Drop>(engine: &mut Engine<D>) -> bool {
    for (letter, at) in four().iter().zip(0..) {
        if !commits_one(engine, accepted(*letter, at)) {
            return false;
        }
    }
    for _ in 0..9 {
        let _ = take_step(engine);
    }
    steps(engine, Ok(Rest::Went(Part::Retired))) && steps(engine, Ok(Rest::Went(Part::Retired)))
}

/// How many frames may be open after a stop while the four are retired and the first is closed.
const OLD: u32 = 3;

/// A device with a checkpoint of the four batches: these frames aren't clean.
fn covering_four(shape: JournalShape) -> Found {
    Found {
        count: 4,
        clean: u64::from(shape.frames.saturating_sub(OLD)),
        covered: 4,
        slot: Slot::Second,
    }
}

/// The results of opening after a stop while frames are retired. The first frame is closed, and the second is open with
/// its old batch.
fn stop_retiring(
    rt: &impl Abort,
    alloc: Global,
    shape: JournalShape,
) -> Result<Box<Opened<MemoryDisk>>, Fail> {
    let mut engine = new_engine(alloc, shape)?;
    assert!(rt; retires_two(&mut engine));
    let opened = opened_after(alloc, &engine, &[Fate::Kept, Fate::Lost])?;
    assert_eq!(rt; found_in(&opened), covering_four(shape));
    let state = state_after(alloc, &four())?;
    assert!(rt; same(opened.auction(), &state));
    Ok(opened)
}

/// Each clean frame takes a batch. The next batch comes after a checkpoint, which retires all frames.
fn fill_clean(rt: &impl Abort, engine: &mut Engine<MemoryDisk>, shape: JournalShape) {
    let full = shape.frames.saturating_add(4).saturating_sub(OLD);
    for at in 4..full {
        assert!(rt; commits_one(engine, accepted(after_four(at), at)));
    }
    assert!(rt; hands_back(engine, &[after_four(full)], Weight::Full));
    assert_eq!(rt; steps_to_whole(engine, 100), steps_retiring(shape.frames));
    assert!(rt; takes(engine, one(after_four(full))));
}

/// The engine goes on after such a stop.
fn go_on(rt: &impl Abort, alloc: Global, shape: JournalShape) -> Result<(), Fail> {
    let opened = stop_retiring(rt, alloc, shape)?;
    fill_clean(rt, &mut *started(alloc, opened)?, shape);
    Ok(())
}

#[test]
fn stop_while_retiring(rt: HostRuntime) -> Result<(), Fail> {
    over_layouts!(shape => go_on(&rt, rt.alloc(), shape)?);
    Ok(())
}
