//! How to replace a record so that no crash loses it: an example of a device's caller.
ghost use Rattle.std.specs.Prelude.{◌+◌, ◌*◌, ◌≤◌, [], ◌∷◌, length, OnOk};
ghost use Rattle.hpb_disk.specs.Asked.{AsksInTurn};
ghost use Rattle.hpb_disk.specs.Asked.Asked.{writes, syncs};
ghost use Rattle.hpb_disk.specs.Gates.{HasClosedGate, open_byte};
ghost use Rattle.hpb_disk.specs.Images.{part, Within};
ghost use Rattle.hpb_disk.specs.Device.{CountsFailure, IsSettled, LeavesOnly};
ghost use Rattle.hpb_disk.specs.Replacing.{HasRecord, HasEither, HasSameRest};

use crate::{Disk, DiskFailed, open_gate};

/// Replaces a record by one of the same length. Behind the gate at offset 0 stand two places; the first counts while
/// the gate is closed, and the second while it is open. After `Ok` every crash leaves the new record. A crash at any
/// moment of the call leaves the old record or the new one, and so does a call that fails. The bytes behind both places
/// stay.
pub fn replace_record<D: Disk>(disk: &mut D, bytes: &[u8]) -> Result<(), DiskFailed>
    requires room { 1 + 2 * length bytes.now ≤ length (D.device disk.old).seen }
    requires closed { HasClosedGate 0 (D.device disk.old).seen }
    // No write is pending.
    requires settled { IsSettled (D.device disk.old) }
    ensures kept { OnOk result (Within (D.device disk.new).may_leave (HasRecord (length bytes.now) bytes.now)) }
    ensures any_moment { LeavesOnly (D.device disk.old) (D.device disk.new)
        (λ image. HasEither (length bytes.now) (part 1 (length bytes.now) (D.device disk.old).seen) bytes.now image × HasSameRest (length bytes.now) (D.device disk.old).seen image) }
    ensures cause { CountsFailure result (D.device disk.old) (D.device disk.new) }
    // The new record is whole before the gate is opened: there is a sync between, and one after.
    ensures asked { AsksInTurn result (syncs ∷ writes 0 open_byte ∷ syncs ∷ writes (1 + length bytes.now) bytes.now ∷ [])
        (D.device disk.old).asked (D.device disk.new).asked }
{
    disk.write_at(1 + bytes.len(), bytes)?;
    // The bytes behind the gate must be whole first, because a gate that is torn open shows them.
    disk.sync()?;
    open_gate(disk, 0)?;
    disk.sync()
}
