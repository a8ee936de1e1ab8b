//! Devices that are made to fail, gates, and the replacing of a record.

use super::using::{has, holds_two, reads_open};
use crate::{Disk, Fate, FuseDisk, MemoryDisk, OnceDisk, close_gate, open_gate, replace_record};
use std::alloc::Global;
use std::process::Abort;
use std::test::Fail;

/// Which of five calls succeed: a write, a sync, a read, a write, a sync.
fn script<D: Disk>(disk: &mut D) -> [bool; 5] {
    if disk.len() != 4 {
        return [false; 5];
    }
    let first = disk.write_at(0, &[1, 1]).is_ok();
    let second = disk.sync().is_ok();
    let third = disk.read_into(0, &mut [0; 4]).is_ok();
    let fourth = disk.write_at(1, &[2, 2]).is_ok();
    let fifth = disk.sync().is_ok();
    [first, second, third, fourth, fifth]
}

/// Checks how many calls a device had, and what a stop leaves of it if the writes that no sync covers are lost.
fn check_behind<R: Abort>(
    rt: &R,
    alloc: Global,
    disk: &MemoryDisk,
    calls: usize,
    lost: &[u8],
) -> Result<(), Fail> {
    assert_eq!(rt; disk.calls(), calls);
    let mut stopped = disk.after_stop(alloc, &[Fate::Lost])?;
    assert!(rt; has(&mut stopped, lost));
    Ok(())
}

#[test]
fn a_fuse_fails_from_a_call_on(rt: HostRuntime) -> Result<(), Fail> {
    let mut fuse = FuseDisk::new(MemoryDisk::zeros(rt.alloc(), 4)?, 4);
    assert_eq!(rt; fuse.fault(), 4);
    // The write is passed on, and the sync behind it isn't.
    assert_eq!(rt; script(&mut fuse), [true, true, true, false, false]);
    assert!(rt; holds_two(&fuse, 2));
    check_behind(&rt, rt.alloc(), &fuse.into_inner(), 4, &[1, 1, 0, 0])
}

#[test]
fn one_call_fails(rt: HostRuntime) -> Result<(), Fail> {
    let mut once = OnceDisk::new(MemoryDisk::zeros(rt.alloc(), 4)?, 2);
    assert_eq!(rt; once.fault(), 2);
    assert_eq!(rt; script(&mut once), [true, false, true, true, true]);
    check_behind(&rt, rt.alloc(), &once.into_inner(), 4, &[1, 2, 2, 0])
}

#[test]
fn gates_open_and_close(rt: HostRuntime) -> Result<(), Fail> {
    let alloc = rt.alloc();
    let mut disk = MemoryDisk::of(alloc, [1, 0xa5, 0xa6].to_vec(alloc)?)?;
    assert_eq!(rt; reads_open(&mut disk, 0), Some(false));
    assert_eq!(rt; reads_open(&mut disk, 1), Some(true));
    assert_eq!(rt; reads_open(&mut disk, 2), Some(false));
    assert_eq!(rt; disk.len(), 3);
    assert!(rt; open_gate(&mut disk, 0).is_ok());
    assert!(rt; close_gate(&mut disk, 1, true).is_ok());
    assert!(rt; has(&mut disk, &[0xa5, 0, 0xa6]));
    Ok(())
}

#[test]
fn a_record_is_replaced(rt: HostRuntime) -> Result<(), Fail> {
    let alloc = rt.alloc();
    // The gate, the old record, and the place for the new one.
    let mut disk = MemoryDisk::of(alloc, [0, 1, 2, 0, 0].to_vec(alloc)?)?;
    assert_eq!(rt; disk.len(), 5);
    assert!(rt; replace_record(&mut disk, &[3, 4]).is_ok());
    check_behind(&rt, alloc, &disk, 4, &[0xa5, 1, 2, 3, 4])
}
