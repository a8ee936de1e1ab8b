//! Calls of devices in memory.

use crate::trials::{Came, Tried, begin, end, size_of, sum_of};
use anyhow::Result;
use hpb_disk::{Disk, DiskFailed, Fate, MemoryDisk};
use hpb_rules::Refusal;
use std::alloc::{AllocError, Global};

/// The fate of each write at a stop.
const FATES: [Fate; 3] = [Fate::Kept, Fate::Filled(165), Fate::Lost];

/// How many bytes are written at a time.
const WRITTEN: usize = 4_096;

/// The sum of all bytes of a device.
fn device_sum(alloc: Global, disk: &mut MemoryDisk) -> Result<u64> {
    let mut bytes = vec![in alloc; 0; disk.len()]?;
    disk.read_into(0, &mut bytes)?;
    Ok(sum_of(&bytes))
}

/// The result of a call that makes a device.
fn came(alloc: Global, made: Result<MemoryDisk, AllocError>) -> Result<Came> {
    match made {
        Ok(disk) => {
            let mut disk = disk;
            Ok(Came::Well(device_sum(alloc, &mut disk)?))
        }
        Err(_) => Ok(Came::Refused(Refusal::Memory)),
    }
}

/// Tries `MemoryDisk::zeros`.
pub(crate) fn zeros(rt: &HostRuntime, layout: u8) -> Result<Tried> {
    let alloc = rt.alloc();
    let size = size_of(layout);
    begin(rt)?;
    let made = MemoryDisk::zeros(alloc, size);
    end(rt)?;
    Ok(Tried {
        first: came(alloc, made)?,
        is_same: true,
        again: came(alloc, MemoryDisk::zeros(alloc, size))?,
    })
}

/// Tries `MemoryDisk::of`. It takes the bytes, and frees them if it is refused.
pub(crate) fn of(rt: &HostRuntime, layout: u8) -> Result<Tried> {
    let alloc = rt.alloc();
    let bytes = vec![in alloc; 7; size_of(layout)]?;
    let more = vec![in alloc; 7; size_of(layout)]?;
    begin(rt)?;
    let made = MemoryDisk::of(alloc, bytes);
    end(rt)?;
    Ok(Tried {
        first: came(alloc, made)?,
        is_same: true,
        again: came(alloc, MemoryDisk::of(alloc, more))?,
    })
}

/// A device with three writes that no sync covers.
fn written(alloc: Global, layout: u8) -> Result<MemoryDisk> {
    let mut disk = MemoryDisk::zeros(alloc, size_of(layout))?;
    for byte in 1..=3u8 {
        let bytes = [byte; WRITTEN];
        let at = disk.len().saturating_sub(WRITTEN) / 4 * usize::from(byte);
        put(&mut disk, at, &bytes)?;
    }
    Ok(disk)
}

/// Writes bytes, if there is room for them.
fn put(disk: &mut MemoryDisk, at: usize, bytes: &[u8]) -> Result<(), DiskFailed> {
    match at.checked_add(bytes.len()) {
        Some(end) if end <= disk.len() => disk.write_at(at, bytes),
        _ => Err(DiskFailed),
    }
}

/// Tries `MemoryDisk::after_stop`, on a device with three writes that no sync covers.
pub(crate) fn after_stop(rt: &HostRuntime, layout: u8) -> Result<Tried> {
    let alloc = rt.alloc();
    let mut disk = written(alloc, layout)?;
    let given = device_sum(alloc, &mut disk)?;
    let calls = disk.calls();
    begin(rt)?;
    let made = disk.after_stop(alloc, &FATES);
    end(rt)?;
    let first = came(alloc, made)?;
    let again = came(alloc, disk.after_stop(alloc, &FATES))?;
    let is_same = disk.calls() == calls && device_sum(alloc, &mut disk)? == given;
    Ok(Tried {
        first,
        is_same,
        again,
    })
}

/// The calls for which a device's record has to grow.
#[derive(Clone, Copy)]
pub(crate) enum Call {
    Read,
    Write,
    Sync,
}

/// Makes a call of a device, from its first byte on.
fn make(disk: &mut MemoryDisk, call: Call, bytes: &mut [u8]) -> Result<(), DiskFailed> {
    if bytes.len() > disk.len() {
        return Err(DiskFailed);
    }
    match call {
        Call::Read => disk.read_into(0, bytes),
        Call::Write => disk.write_at(0, bytes),
        Call::Sync => disk.sync(),
    }
}

/// The result of a call of a device.
fn called(alloc: Global, disk: &mut MemoryDisk, made: Result<(), DiskFailed>) -> Result<Came> {
    match made {
        Ok(()) => Ok(Came::Well(device_sum(alloc, disk)?)),
        Err(DiskFailed) => Ok(Came::Refused(Refusal::Device)),
    }
}

/// Tries a call of a `MemoryDisk` that has had none. If it is refused, it isn't in the device's record, and does
/// nothing else.
pub(crate) fn first_call(rt: &HostRuntime, layout: u8, call: Call) -> Result<Tried> {
    let alloc = rt.alloc();
    let mut disk = MemoryDisk::zeros(alloc, size_of(layout))?;
    let mut bytes = vec![in alloc; 7; WRITTEN]?;
    let given = sum_of(&vec![in alloc; 0; size_of(layout)]?);
    begin(rt)?;
    let made = make(&mut disk, call, &mut bytes);
    end(rt)?;
    let first = called(alloc, &mut disk, made)?;
    if let Came::Well(_) = first {
        return Ok(Tried::well(first));
    }
    let is_same = disk.calls() == 0 && device_sum(alloc, &mut disk)? == given;
    let made = make(&mut disk, call, &mut bytes);
    Ok(Tried {
        first,
        is_same,
        again: called(alloc, &mut disk, made)?,
    })
}
