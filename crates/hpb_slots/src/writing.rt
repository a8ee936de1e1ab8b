//! Writing a checkpoint.
ghost use Rattle.std.specs.Prelude.{◌≡◌, ◌<◌, ◌≤◌, [], ◌∷◌, length, true, false, OnOk};
ghost use Rattle.hpb_codec.specs.declared.state.TheConstants.{CHUNKS, STATE_SIZE};
ghost use Rattle.hpb_codec.specs.Laws.{chunk_of};
ghost use Rattle.hpb_disk.specs.Device.{CountsFailure, LeavesOnly, MakesCall};
ghost use Rattle.hpb_disk.specs.Images.{Within};
ghost use Rattle.hpb_slots.specs.declared.limits.TheConstants.{SLOTS_END};
ghost use Rattle.hpb_slots.specs.Slots.{IsOpen, IsClosed, chunk_at, gate_at, piece_of};
ghost use Rattle.hpb_slots.specs.Writes.{writes_chunk, opens_slot, closes_slot};
ghost use Rattle.hpb_slots.specs.Changes.{ChangesGate, ChangesChunk, TornGate, TornChunk};

use crate::Slot;
use crate::limits::{SLOT_BYTES, SLOTS_AT};
use hpb_codec::{CHUNK_SIZE, PAGE_BYTES, chunk};
use hpb_disk::{
    Disk, DiskFailed, close_gate, elsewhere_stays, open_gate, put_is_read, put_is_torn,
};

/// The offset of a slot's gate.
pub(crate) fn gate_offset(slot: Slot) -> usize
    ensures { result ≡ gate_at slot }
{
    SLOTS_AT + SLOT_BYTES * slot.place()
}

/// Writes one chunk of a state's body into a slot. If the slot's gate is closed in every image that a crash may leave,
/// the chunk doesn't count, whether whole or torn.
pub fn write_chunk<D: Disk>(
    disk: &mut D,
    slot: Slot,
    i: usize,
    body: &[u8],
) -> Result<(), DiskFailed>
    requires room { SLOTS_END ≤ length (D.device disk.old).seen }
    requires body { length body.now ≡ STATE_SIZE }
    requires chunk { i < CHUNKS }
    // After a write that succeeds a read gives the chunk there. All else is as it was.
    ensures written { OnOk result (piece_of slot i (D.device disk.new).seen ≡ chunk_of i body.now) }
    ensures rest { OnOk result (ChangesChunk slot i (D.device disk.old).seen (D.device disk.new).seen) }
    ensures size { length (D.device disk.new).seen ≡ length (D.device disk.old).seen }
    // A crash from then on, or within the call, may leave any bytes in this chunk, and elsewhere the same as before.
    ensures crash { LeavesOnly (D.device disk.old) (D.device disk.new)
        (TornChunk slot i (D.device disk.old).may_leave) }
    ensures call { MakesCall result (writes_chunk slot i body.now ∷ []) (D.device disk.old) (D.device disk.new) }
{
    elsewhere_stays();
    put_is_read();
    put_is_torn();
    disk.write_at(
        gate_offset(slot) + PAGE_BYTES + CHUNK_SIZE * i,
        chunk(body, i),
    )
}

/// Opens the gate of a slot. The opening counts after the next sync. Until then a crash may leave the gate open or
/// closed.
pub fn open_slot<D: Disk>(disk: &mut D, slot: Slot) -> Result<(), DiskFailed>
    requires room { SLOTS_END ≤ length (D.device disk.old).seen }
    ensures open { OnOk result (IsOpen slot (D.device disk.new).seen) }
    ensures rest { OnOk result (ChangesGate slot (D.device disk.old).seen (D.device disk.new).seen) }
    ensures size { length (D.device disk.new).seen ≡ length (D.device disk.old).seen }
    ensures crash { LeavesOnly (D.device disk.old) (D.device disk.new)
        (TornGate slot (D.device disk.old).may_leave) }
    ensures call { MakesCall result (opens_slot slot ∷ []) (D.device disk.old) (D.device disk.new) }
{
    elsewhere_stays();
    put_is_torn();
    open_gate(disk, gate_offset(slot))
}

/// Closes the gate of a slot, if it may be open. A gate that is closed in every image that a crash may leave isn't
/// written, since a torn byte could open it. The caller says so by `may_be_open`; then the device gets no call.
pub fn close_slot<D: Disk>(disk: &mut D, slot: Slot, may_be_open: bool) -> Result<(), DiskFailed>
    requires room { SLOTS_END ≤ length (D.device disk.old).seen }
    requires told { may_be_open ≡ false → Within (D.device disk.old).may_leave (IsClosed slot) }
    ensures closed { OnOk result (IsClosed slot (D.device disk.new).seen) }
    ensures left_alone { may_be_open ≡ false → disk.new ≡ disk.old }
    ensures rest { may_be_open ≡ true → OnOk result (ChangesGate slot (D.device disk.old).seen (D.device disk.new).seen) }
    ensures size { length (D.device disk.new).seen ≡ length (D.device disk.old).seen }
    ensures crash { may_be_open ≡ true → LeavesOnly (D.device disk.old) (D.device disk.new)
        (TornGate slot (D.device disk.old).may_leave) }
    ensures cause { CountsFailure result (D.device disk.old) (D.device disk.new) }
    ensures call { may_be_open ≡ true → MakesCall result (closes_slot slot ∷ []) (D.device disk.old) (D.device disk.new) }
{
    elsewhere_stays();
    put_is_torn();
    close_gate(disk, gate_offset(slot), may_be_open)
}
