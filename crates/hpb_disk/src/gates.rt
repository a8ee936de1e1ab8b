//! Gates: a gate is a byte that says whether the bytes behind it count.
ghost use Rattle.std.specs.Prelude.{◌≡◌, ◌<◌, ◌↔◌, true, false, [], ◌∷◌, length, IsTrue, IfOk, OnOk};
ghost use Rattle.hpb_disk.specs.Asked.Asked.{writes};
ghost use Rattle.hpb_disk.specs.Gates.{open_byte, closed_byte, HasOpenGate, HasClosedGate};
ghost use Rattle.hpb_disk.specs.Images.{put, TornFrom, Within};
ghost use Rattle.hpb_disk.specs.Device.{CountsFailure, IsUnchanged, LeavesOnly, MakesCall};

use crate::{Disk, DiskFailed};

const OPEN: u8 = 0xa5;

const CLOSED: u8 = 0;

/// Reads whether a gate is open.
pub fn gate_is_open<D: Disk>(disk: &mut D, at: usize) -> Result<bool, DiskFailed>
    requires { at < length (D.device disk.old).seen }
    ensures open { IfOk result (λ is_open. IsTrue is_open ↔ HasOpenGate at (D.device disk.old).seen) }
    ensures unchanged { IsUnchanged (D.device disk.old) (D.device disk.new) }
    ensures call { MakesCall result [] (D.device disk.old) (D.device disk.new) }
{
    let mut gate = [0];
    disk.read_into(at, &mut gate)?;
    Ok(gate == [OPEN])
}

/// Opens a gate. The opening counts after the next sync. Until then a crash may leave the gate open or closed, and all
/// other bytes as before.
pub fn open_gate<D: Disk>(disk: &mut D, at: usize) -> Result<(), DiskFailed>
    requires { at < length (D.device disk.old).seen }
    ensures open { OnOk result (HasOpenGate at (D.device disk.new).seen) }
    ensures written { OnOk result ((D.device disk.new).seen ≡ put at open_byte (D.device disk.old).seen) }
    ensures size { length (D.device disk.new).seen ≡ length (D.device disk.old).seen }
    ensures crash { LeavesOnly (D.device disk.old) (D.device disk.new)
        (TornFrom at 1 (D.device disk.old).may_leave) }
    ensures call { MakesCall result (writes at open_byte ∷ []) (D.device disk.old) (D.device disk.new) }
{
    disk.write_at(at, &[OPEN])
}

/// Closes a gate, if it may be open. A gate that is closed in every image that a crash may leave isn't written, since a
/// torn byte could open it. The caller says so by `may_be_open`; then the device gets no call.
pub fn close_gate<D: Disk>(disk: &mut D, at: usize, may_be_open: bool) -> Result<(), DiskFailed>
    requires range { at < length (D.device disk.old).seen }
    requires told { may_be_open ≡ false → Within (D.device disk.old).may_leave (HasClosedGate at) }
    ensures closed { OnOk result (HasClosedGate at (D.device disk.new).seen) }
    ensures left_alone { may_be_open ≡ false → disk.new ≡ disk.old }
    ensures written { may_be_open ≡ true → OnOk result ((D.device disk.new).seen ≡ put at closed_byte (D.device disk.old).seen) }
    ensures size { length (D.device disk.new).seen ≡ length (D.device disk.old).seen }
    ensures crash { may_be_open ≡ true → LeavesOnly (D.device disk.old) (D.device disk.new)
        (TornFrom at 1 (D.device disk.old).may_leave) }
    ensures cause { CountsFailure result (D.device disk.old) (D.device disk.new) }
    ensures call { may_be_open ≡ true → MakesCall result (writes at closed_byte ∷ []) (D.device disk.old) (D.device disk.new) }
{
    if !may_be_open {
        return Ok(());
    }
    disk.write_at(at, &[CLOSED])
}
