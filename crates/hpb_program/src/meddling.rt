//! Whether somebody else has meddled with the file of a run.

use hpb_disk::{Disk, FileDisk, FileStamp};
use hpb_messages::Meddling;
use std::fs::{File, Files};

/// The number of bytes that are compared at a time.
const PIECE_BYTES: usize = 65_536;

/// What somebody else has done to a disk's file since it had this stamp, as far as it can be seen.
pub(crate) fn meddling_of<H: Files<File = File>>(
    rt: &H,
    file: &str,
    stamp: &FileStamp,
    disk: &FileDisk,
) -> Option<Meddling> {
    if is_spoiled(disk) || matches!(disk.stamp(), Ok(now) if now != *stamp) {
        return Some(Meddling::Spoiled);
    }
    if !stamp.is_at(rt, file) {
        return Some(Meddling::Replaced);
    }
    None
}

/// Whether somebody else has cut or written a disk's file. It compares piece by piece.
fn is_spoiled(disk: &FileDisk) -> bool {
    let mut room = [0; PIECE_BYTES];
    for piece in 0..usize::MAX {
        match holds_piece(disk, piece, &mut room) {
            Some(true) => {}
            Some(false) => return true,
            None => return false,
        }
    }
    false
}

/// Whether the disk still holds this piece as its calls have left it, or `None` if there is no such piece. Pieces are
/// numbered from 0, and each has as many bytes as `room`; the last one may have fewer.
fn holds_piece(disk: &FileDisk, piece: usize, room: &mut [u8]) -> Option<bool> {
    let at = piece.checked_mul(room.len())?;
    let len = disk.len().checked_sub(at)?.min(room.len());
    if len == 0 {
        return None;
    }
    Some(disk.still_holds(at, &mut room[..len]))
}
