//! The results of opening journals whose frames serve one batch after another.

use crate::commands::{front, many_rounds};
use crate::devices::{FOUR_PAGES, MOST_CELLS, MOST_PAGES, SIXTEEN_CELLS, new_device};
use crate::images::{batch, opens_as, put_batch, put_state};
use hpb_codec::JournalShape;
use hpb_rules::Command;
use std::alloc::Global;
use std::test::Fail;

/// A journal, each batch of which has one command. The numbers: how many batches the newest state covers, the oldest
/// batch that a frame holds, and the next one.
type Journal = (JournalShape, u16, u16, u16);

const JOURNALS: [Journal; 7] = [
    // No batch behind the state; some frames retired, and none; and full.
    (FOUR_PAGES, 5, 2, 5),
    (FOUR_PAGES, 5, 5, 7),
    (FOUR_PAGES, 5, 3, 7),
    (SIXTEEN_CELLS, 5, 5, 14),
    (SIXTEEN_CELLS, 5, 5, 21),
    // The longest ones: full, with the newest batches in the first frames.
    (MOST_PAGES, 1_020, 4, 1_028),
    (MOST_CELLS, 1_020, 4, 1_028),
];

/// Puts the state and the batches of a journal into a new device.
fn put_journal(
    alloc: Global,
    bytes: &mut [u8],
    commands: &[Command],
    journal: Journal,
) -> Result<(), Fail> {
    let (shape, covered, oldest, next) = journal;
    put_state(
        alloc,
        bytes,
        1,
        front(commands, covered),
        u64::from(covered),
    )?;
    let batches = (0..next).zip(commands);
    for (index, command) in batches.skip(usize::from(oldest)) {
        let number = u64::from(index) + 1;
        if let Some(frame) = u32::from(index).checked_rem(shape.frames) {
            let batch = batch(u64::from(index), number, &[*command]);
            put_batch(alloc, bytes, shape.layout, frame, &batch)?;
        }
    }
    Ok(())
}

/// Whether a device with such a journal opens with all commands before the next batch. The frames must be clean from
/// that of the next batch up to that of the oldest one.
fn is_opened(alloc: Global, commands: &[Command], journal: Journal) -> Result<bool, Fail> {
    let (shape, _, oldest, next) = journal;
    let mut bytes = new_device(alloc, shape)?;
    put_journal(alloc, &mut bytes, commands, journal)?;
    let end = u64::from(oldest) + u64::from(shape.frames);
    let clean = end.saturating_sub(u64::from(next));
    opens_as(alloc, &bytes, front(commands, next), clean)
}

#[test]
fn journals_that_wrapped(rt: HostRuntime) -> Result<(), Fail> {
    let alloc = rt.alloc();
    let commands = many_rounds(alloc)?;
    for journal in JOURNALS {
        let is_right = is_opened(alloc, &commands, journal)?;
        assert!(rt; is_right, "{} {}", journal.1, journal.3);
    }
    Ok(())
}
