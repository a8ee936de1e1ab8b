//! When a session on a device commits, and when it makes a checkpoint, by the calls of the device.

use crate::sessions::run_lines;
use hpb_codec::{JournalLayout, JournalShape};
use hpb_disk::MemoryDisk;
use hpb_engine::Engine;
use hpb_test_engine::calls::count;
use hpb_test_engine::devices::{boxed, new_engine};
use std::alloc::Global;
use std::process::Abort;
use std::test::Fail;

/// How many commands a round has.
const IN_ROUND: u32 = 8;

/// The bids' amount in the round of this place. It is at least an eighth more than in the round before, which is above
/// the minimum.
fn amount(round: u32) -> u64 {
    let mut amount: u64 = 100;
    for _ in 0..round {
        let more = amount.saturating_add(amount / 8);
        amount = (more / 10).saturating_mul(10).saturating_add(10);
    }
    amount
}

/// The line of this place. In each round x, y and w bid on their licences, z bids on three of them, and the round is
/// closed.
fn line(alloc: Global, place: u32) -> Result<String, Fail> {
    let round = place / IN_ROUND;
    let ticket = round.saturating_add(1);
    let (second, third) = (round.saturating_mul(2), round.saturating_mul(3));
    let amount = amount(round);
    let (sender, ticket, node) = match place % IN_ROUND {
        0 => ("x", ticket, "a"),
        1 => ("y", ticket, "b"),
        2 => ("w", second.saturating_add(1), "c"),
        3 => ("w", second.saturating_add(2), "d"),
        4 => ("z", third.saturating_add(1), "a"),
        5 => ("z", third.saturating_add(2), "b"),
        6 => ("z", third.saturating_add(3), "c"),
        _ => return Ok(format!(in alloc; "CLOSE {ticket}\n")?),
    };
    Ok(format!(in alloc; "BID {sender} {ticket} {node} {amount}\n")?)
}

/// This many lines, each of which is accepted.
fn lines(alloc: Global, count: u32) -> Result<String, Fail> {
    let mut text = String::new(alloc);
    for place in 0..count {
        text.push_str(&line(alloc, place)?)?;
    }
    Ok(text)
}

/// A session: the journal's frames, how many commands it has, how many are committed together, and after how many
/// batches a checkpoint is due. Then how many batches there are, and how many calls of the device they take.
type Pace = (u32, u32, usize, u32, u64, usize);

/// Runs a session over an engine. It must end without a fault, with this many accepted commands. Gives the engine back,
/// and how many calls the session made.
fn run(
    rt: &impl Abort,
    alloc: Global,
    engine: Box<Engine<MemoryDisk>>,
    lines: &str,
    pace: Pace,
) -> Result<(Box<Engine<MemoryDisk>>, usize), Fail> {
    let (frames, commands, batch, every, ..) = pace;
    let before = engine.disk.calls();
    let session = run_lines(alloc, engine, lines.as_bytes(), batch, every)?;
    assert_eq!(rt; session.ran.end, Ok(()), "{frames} {batch} {every}");
    assert_eq!(rt;
        count(&session.ran.engine),
        commands,
        "{frames} {batch} {every}"
    );
    let calls = session.ran.engine.disk.calls().saturating_sub(before);
    let engine = Box::into_inner(session).ran.engine;
    Ok((boxed(alloc, engine)?, calls))
}

/// A session over a new device has its batches and its calls. The same lines once more are all repeats, and make no
/// call, though the journal is full or nearly so.
fn keep_pace(
    rt: &impl Abort,
    alloc: Global,
    layout: JournalLayout,
    pace: Pace,
) -> Result<(), Fail> {
    let (frames, commands, batch, every, batches, wanted) = pace;
    let lines = lines(alloc, commands)?;
    let engine = new_engine(alloc, JournalShape { layout, frames })?;
    let (engine, calls) = run(rt, alloc, engine, &lines, pace)?;
    assert_eq!(rt;
        engine.progress.window.next,
        batches,
        "{frames} {batch} {every}"
    );
    assert_eq!(rt; calls, wanted, "{frames} {batch} {every}");
    let (_, again) = run(rt, alloc, engine, &lines, pace)?;
    assert_eq!(rt; again, 0, "{frames} {batch} {every}");
    Ok(())
}

/// Sessions over pages, with counts from the order of the calls:
/// - A batch has four calls.
/// - A checkpoint of m batches has ten and m. The first one of a new device has one fewer, as the gate of its other
///   slot is closed already.
/// - A checkpoint is made when the journal is full, and when one is due; batches are then counted anew.
///
/// The first session has 620 batches and 154 checkpoints of 4. The last three have 620 batches and 10 checkpoints;
/// twice four of 64 and one of 44; and 78 batches and 26 checkpoints of 3.
const OVER_PAGES: [Pace; 12] = [
    (4, 620, 1, 0, 620, 4_635),
    (4, 200, 1, 1, 200, 2_999),
    (4, 200, 1, 2, 200, 1_999),
    (4, 200, 7, 3, 29, 232),
    (4, 620, 64, 1, 10, 149),
    (4, 620, 64, 300, 10, 67),
    (8, 200, 8, 1, 25, 374),
    (8, 200, 1, 3, 200, 1_657),
    (8, 620, 7, 300, 89, 553),
    (64, 620, 64, 0, 10, 40),
    (64, 620, 1, 300, 620, 3_179),
    (64, 620, 8, 3, 78, 649),
];

/// The same over cells.
const OVER_CELLS: [Pace; 8] = [
    (16, 620, 1, 0, 620, 3_467),
    (16, 200, 1, 1, 200, 2_999),
    (16, 200, 7, 2, 29, 283),
    (16, 200, 8, 3, 25, 203),
    (16, 620, 1, 300, 620, 3_485),
    (16, 620, 7, 0, 89, 485),
    (16, 620, 64, 300, 10, 40),
    (64, 620, 8, 0, 78, 385),
];

#[test]
fn paces_over_pages(rt: HostRuntime) -> Result<(), Fail> {
    for pace in OVER_PAGES {
        keep_pace(&rt, rt.alloc(), JournalLayout::Pages, pace)?;
    }
    Ok(())
}

#[test]
fn paces_over_cells(rt: HostRuntime) -> Result<(), Fail> {
    for pace in OVER_CELLS {
        keep_pace(&rt, rt.alloc(), JournalLayout::Cells, pace)?;
    }
    Ok(())
}

/// Over 1,024 frames, too, a checkpoint comes after each 300 batches: 620 batches and two checkpoints of 300, with
/// 2,480 and 619 calls.
#[test]
fn pace_of_300_with_1024_pages(rt: HostRuntime) -> Result<(), Fail> {
    let pace = (1_024, 620, 1, 300, 620, 3_099);
    keep_pace(&rt, rt.alloc(), JournalLayout::Pages, pace)
}

/// A journal of 1,024 frames is full once: 1,100 batches, and a checkpoint of 1,024.
#[test]
fn pace_of_a_thousand_full_frames_of_cells(rt: HostRuntime) -> Result<(), Fail> {
    let pace = (1_024, 1_100, 1, 0, 1_100, 5_433);
    keep_pace(&rt, rt.alloc(), JournalLayout::Cells, pace)
}
