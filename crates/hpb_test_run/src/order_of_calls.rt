//! Which call of the device each step makes.

use crate::watching::{Call, Watch};
use hpb_codec::{JournalLayout, JournalShape, PAGE_BYTES};
use hpb_disk::MemoryDisk;
use hpb_engine::{Engine, Part, Rest};
use hpb_test_engine::calls::{Turn, commit, offer, take_step, take_turn};
use hpb_test_engine::devices::{frame_at, new_engine};
use hpb_test_engine::letters::{in_round, one};
use hpb_test_engine::over_layouts;
use std::alloc::Global;
use std::process::Abort;
use std::test::Fail;

/// The bytes of a gate that is open or closed.
const OPEN: u8 = 0xa5;

const CLOSED: u8 = 0;

/// The first bytes of the slots, which are their gates.
const FIRST_SLOT: usize = 12_288;

const SECOND_SLOT: usize = 32_768;

/// The write of a gate.
fn gate(at: usize, first: u8) -> Call {
    Call::Write { at, len: 1, first }
}

/// The write of the gate of the frame of this place.
fn frame_gate(shape: JournalShape, place: u32, first: u8) -> Call {
    gate(frame_at(shape.layout, place), first)
}

/// The write of the body of the frame of this place, which has one command: a page behind its gate, or a cell. Its first
/// byte is the highest of the batch index.
fn body(shape: JournalShape, place: u32) -> Call {
    let len = match shape.layout {
        JournalLayout::Pages => 4_080,
        JournalLayout::Cells => 496,
    };
    Call::Write {
        at: frame_at(shape.layout, place).saturating_add(16),
        len,
        first: 0,
    }
}

/// The format of states, the first byte of each state.
const FORMAT: u8 = 2;

/// The write of a page of a state: the one of this place in a slot.
fn chunk(slot: usize, place: usize, first: u8) -> Call {
    let before = place.saturating_add(1).saturating_mul(PAGE_BYTES);
    Call::Write {
        at: slot.saturating_add(before),
        len: PAGE_BYTES,
        first,
    }
}

/// Whether a turn of a commit has this result, with this call.
fn turns_by(
    watch: &mut Watch,
    alloc: Global,
    engine: &mut Engine<MemoryDisk>,
    (wanted, call): (Turn, Call),
) -> Result<bool, Fail> {
    let (turn, _) = take_turn(engine);
    Ok(turn == Ok(wanted) && watch.look(alloc, &engine.disk)? == call)
}

/// Whether a step of a checkpoint has this result, with this call.
fn steps_by(
    watch: &mut Watch,
    alloc: Global,
    engine: &mut Engine<MemoryDisk>,
    (wanted, call): (Rest, Call),
) -> Result<bool, Fail> {
    let step = take_step(engine);
    Ok(step == Ok(wanted) && watch.look(alloc, &engine.disk)? == call)
}

/// The four turns of a batch into the frame of this place.
fn four_turns(shape: JournalShape, place: u32) -> [(Turn, Call); 4] {
    [
        (Turn::Went, body(shape, place)),
        (Turn::Went, Call::Sync),
        (Turn::Went, frame_gate(shape, place, OPEN)),
        (Turn::Done, Call::Sync),
    ]
}

/// Commits the command of this place into its frame, by four turns.
fn commit_by(
    rt: &impl Abort,
    alloc: Global,
    engine: &mut Engine<MemoryDisk>,
    shape: JournalShape,
    place: u32,
) -> Result<(), Fail> {
    let mut watch = Watch::new(alloc, &engine.disk);
    let _ = offer(engine, one(in_round(place)));
    assert_eq!(rt; watch.look(alloc, &engine.disk)?, Call::Nothing);
    for turn in four_turns(shape, place) {
        assert!(rt; turns_by(&mut watch, alloc, engine, turn)?);
    }
    assert!(rt; turns_by(&mut watch, alloc, engine, (Turn::Idle, Call::Nothing))?);
    Ok(())
}

/// The first nine steps of a checkpoint into a slot, and the first call among them.
fn nine_steps(slot: usize, first: Call) -> [(Rest, Call); 9] {
    [
        (Rest::Went(Part::Other), first),
        (Rest::Went(Part::Other), Call::Sync),
        (Rest::Went(Part::Chunk(0)), chunk(slot, 0, FORMAT)),
        (Rest::Went(Part::Chunk(1)), chunk(slot, 1, 0)),
        (Rest::Went(Part::Chunk(2)), chunk(slot, 2, 0)),
        (Rest::Went(Part::Chunk(3)), chunk(slot, 3, 0)),
        (Rest::Went(Part::Other), Call::Sync),
        (Rest::Went(Part::Other), gate(slot, OPEN)),
        (Rest::Went(Part::Other), Call::Sync),
    ]
}

/// The steps that retire two frames, from this place on, and the idle step after them.
fn last_steps(shape: JournalShape, place: u32) -> [(Rest, Call); 4] {
    let next = place.saturating_add(1);
    [
        (Rest::Went(Part::Retired), frame_gate(shape, place, CLOSED)),
        (Rest::Went(Part::Retired), frame_gate(shape, next, CLOSED)),
        (Rest::Whole, Call::Sync),
        (Rest::Idle, Call::Nothing),
    ]
}

/// Makes these steps, one after another.
fn make_steps(
    rt: &impl Abort,
    alloc: Global,
    engine: &mut Engine<MemoryDisk>,
    steps: &[(Rest, Call)],
) -> Result<(), Fail> {
    let mut watch = Watch::new(alloc, &engine.disk);
    for step in steps {
        assert!(rt; steps_by(&mut watch, alloc, engine, *step)?);
    }
    Ok(())
}

/// Two batches and their checkpoint, twice. The second slot is closed from the first on. Then the first one is open,
/// and a checkpoint closes it.
fn write_two_checkpoints(
    rt: &impl Abort,
    alloc: Global,
    engine: &mut Engine<MemoryDisk>,
    shape: JournalShape,
) -> Result<(), Fail> {
    commit_by(rt, alloc, engine, shape, 0)?;
    commit_by(rt, alloc, engine, shape, 1)?;
    make_steps(rt, alloc, engine, &nine_steps(SECOND_SLOT, Call::Nothing))?;
    make_steps(rt, alloc, engine, &last_steps(shape, 0))?;
    let _ = commit(engine, one(in_round(2)));
    let _ = commit(engine, one(in_round(3)));
    let closing = gate(FIRST_SLOT, CLOSED);
    make_steps(rt, alloc, engine, &nine_steps(FIRST_SLOT, closing))?;
    make_steps(rt, alloc, engine, &last_steps(shape, 2))
}

#[test]
fn order_of_commits_and_checkpoints(rt: HostRuntime) -> Result<(), Fail> {
    let alloc = rt.alloc();
    over_layouts!(shape => write_two_checkpoints(&rt, alloc, &mut *new_engine(alloc, shape)?, shape)?);
    Ok(())
}
