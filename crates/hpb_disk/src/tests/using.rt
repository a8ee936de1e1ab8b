//! Calls that check first that they stay within the device.

use crate::{Disk, gate_is_open};

/// Whether a device has exactly these bytes, eight at most.
pub(super) fn has<D: Disk>(disk: &mut D, bytes: &[u8]) -> bool {
    let mut found = [0; 8];
    let len = disk.len();
    if len != bytes.len() || len > 8 {
        return false;
    }
    disk.read_into(0, &mut found[..len]).is_ok() && found.starts_with(bytes)
}

/// Two bytes of a device, if the read succeeds.
pub(super) fn two_at<D: Disk>(disk: &mut D, at: usize) -> Option<[u8; 2]> {
    let mut bytes = [0; 2];
    let len = disk.len();
    if at > len || len - at < 2 {
        return None;
    }
    match disk.read_into(at, &mut bytes) {
        Ok(()) => Some(bytes),
        Err(_) => None,
    }
}

/// Whether nobody else has written two bytes of the device.
pub(super) fn holds_two<D: Disk>(disk: &D, at: usize) -> bool {
    let mut room = [0; 2];
    let len = disk.len();
    at <= len && len - at >= 2 && disk.still_holds(at, &mut room)
}

/// Whether a write succeeds.
pub(super) fn write<D: Disk>(disk: &mut D, at: usize, bytes: &[u8]) -> bool {
    let len = disk.len();
    at <= len && bytes.len() <= len - at && disk.write_at(at, bytes).is_ok()
}

/// Whether a gate reads open.
pub(super) fn reads_open<D: Disk>(disk: &mut D, at: usize) -> Option<bool> {
    if at >= disk.len() {
        return None;
    }
    match gate_is_open(disk, at) {
        Ok(is_open) => Some(is_open),
        Err(_) => None,
    }
}
