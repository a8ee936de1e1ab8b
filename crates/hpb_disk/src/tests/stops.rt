//! Devices in memory, and the images that a stop leaves of them.

use super::using::{has, write};
use crate::done::Done;
use crate::{Disk, Fate, MemoryDisk};
use std::test::Fail;

const STOPS: [(&[Fate], [u8; 8]); 3] = [
    // The last write has no fate, so it is lost.
    (&[Fate::Lost, Fate::Kept], [9, 9, 2, 2, 2, 9, 9, 9]),
    // A write filled with a byte, over an earlier write and under a later one.
    (
        &[Fate::Kept, Fate::Filled(7), Fate::Kept],
        [1, 1, 7, 7, 3, 3, 9, 9],
    ),
    // More fates than writes change nothing.
    (
        &[Fate::Lost, Fate::Lost, Fate::Lost, Fate::Kept],
        [9, 9, 9, 9, 9, 9, 9, 9],
    ),
];

#[test]
fn fates_of_writes(rt: HostRuntime) -> Result<(), Fail> {
    let alloc = rt.alloc();
    let mut disk = MemoryDisk::zeros(alloc, 8)?;
    assert!(rt; write(&mut disk, 0, &[9; 8]));
    assert!(rt; disk.sync().is_ok());
    assert!(rt; write(&mut disk, 0, &[1, 1, 1, 1]));
    assert!(rt; write(&mut disk, 2, &[2, 2, 2]));
    assert!(rt; write(&mut disk, 4, &[3, 3]));
    assert_eq!(rt; disk.calls(), 5);
    for (pick, expected) in STOPS {
        let mut stopped = disk.after_stop(alloc, pick)?;
        assert_eq!(rt; stopped.calls(), 0);
        assert!(rt; has(&mut stopped, expected.as_slice()));
    }
    Ok(())
}

/// Calls of this prove that the value may go to another thread.
fn may_cross_threads<T: Send>(_value: &T) {}

#[test]
fn a_call_in_the_record_may_cross_threads() -> Result<(), Fail> {
    may_cross_threads(&Done::Sync);
    Ok(())
}
