//! Whether a device still has the bytes that its house wrote.

use hpb_disk::Disk;
use hpb_house::{House, Naming};
use std::sync::Wait;

/// How many bytes are compared at a time.
const PIECE_BYTES: usize = 65_536;

/// Whether somebody else has written the device of a house, or cut it. It compares piece by piece, and takes the lock
/// for one piece at a time, so that a commit waits for one piece at most.
pub(crate) fn is_overwritten<D: Disk + Drop, W: Wait + Drop, J: Naming, R: Wait>(
    rt: &R,
    house: &House<D, W, J>,
) -> bool {
    let mut room = [0; PIECE_BYTES];
    for piece in 0..usize::MAX {
        match house.holds_piece(rt, piece, &mut room) {
            Some(true) => {}
            Some(false) => return true,
            None => return false,
        }
    }
    false
}
