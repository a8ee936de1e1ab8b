//! Writes a new device behind its closed gates, and opens it.
ghost use Rattle.std.specs.Prelude.{◌≡◌, ◌≤◌, ◌+◌, ℕ, List, [], ◌∷◌, ◌++◌, length, OnOk};
ghost use Rattle.hpb_codec.specs.declared.state.TheConstants.{CHUNKS, STATE_SIZE};
ghost use Rattle.hpb_disk.specs.Asked.{Asked};
ghost use Rattle.hpb_disk.specs.Asked.Asked.{syncs, writes};
ghost use Rattle.hpb_disk.specs.Device.{IsSettled, LeavesOnly};
ghost use Rattle.hpb_disk.specs.Gates.{open_byte};
ghost use Rattle.hpb_disk.specs.Images.{part, Torn, Within};
ghost use Rattle.hpb_slots.specs.declared.limits.TheConstants.{SLOTS_AT, SLOTS_END};
ghost use Rattle.hpb_slots.specs.declared.slot.Slot.TheVariants.{First};
ghost use Rattle.hpb_slots.specs.Slots.{HasChunks};
ghost use Rattle.hpb_slots.specs.Writes.{opens_slot};
ghost use Rattle.hpb_format.specs.Asking.{AreClosings, MakesCalls, Writes, writes_chunks, writing};
ghost use Rattle.hpb_format.specs.Stages.{AreClosed, ChangesBody, IsClosedOrMade, IsMade, IsOpenAndMade, IsUnheadedOrMade, IsWritten};
ghost use Rattle.hpb_recover.specs.Heads.{IsHeaded};
ghost use Rattle.hpb_codec.specs.declared.head.TheConstants.{HEAD_SIZE};
ghost use Rattle.hpb_recover.specs.declared.limits.TheConstants.{HEAD_AT};
ghost use Rattle.hpb_format.specs.declared.place.TheConstants.{HEAD_GATE};

use crate::closing::close_all;
use crate::new_device::NewDevice;
use crate::place::HEAD_GATE;
use hpb_codec::CHUNKS;
use hpb_disk::{
    Disk, DiskFailed, elsewhere_stays, open_gate, open_or_closed, put_is_read, put_is_torn,
};
use hpb_journal::Frames;
use hpb_recover::HEAD_AT;
use hpb_slots::{Slot, chunks_are_whole, open_slot, write_chunk};
use hpb_tree::Definition;

/// Writes the head behind its gate.
fn write_head<D: Disk>(disk: &mut D, head: &[u8]) -> Result<(), DiskFailed>
    requires room { SLOTS_AT ≤ length (D.device disk.old).seen }
    requires head { length head.now ≡ HEAD_SIZE }
    ensures written { OnOk result (part HEAD_AT HEAD_SIZE (D.device disk.new).seen ≡ head.now) }
    ensures rest { OnOk result (Torn HEAD_AT HEAD_SIZE (D.device disk.old).seen (D.device disk.new).seen) }
    ensures calls { Writes result (writes HEAD_AT head.now ∷ []) (D.device disk.old) (D.device disk.new) }
{
    elsewhere_stays();
    put_is_read();
    put_is_torn();
    disk.write_at(HEAD_AT, head)
}

/// Writes the body of the first slot.
fn write_state<D: Disk>(disk: &mut D, state: &[u8]) -> Result<(), DiskFailed>
    requires room { SLOTS_END ≤ length (D.device disk.old).seen }
    requires state { length state.now ≡ STATE_SIZE }
    ensures written { OnOk result (HasChunks First CHUNKS state.now (D.device disk.new).seen) }
    ensures rest { OnOk result (ChangesBody (D.device disk.old).seen (D.device disk.new).seen) }
    ensures calls { Writes result (writes_chunks CHUNKS state.now) (D.device disk.old) (D.device disk.new) }
{
    for i in 0..CHUNKS {
        write_chunk(disk, Slot::First, i, state)?;
    }
    Ok(())
}

/// Writes head and state of a device whose gates are all closed, and syncs.
fn write_all<D: Disk, F: Frames>(
    disk: &mut D,
    frames: &F,
    head: &[u8],
    state: &[u8],
) -> Result<(), DiskFailed>
    requires room { length (D.device disk.old).seen ≡ (F.layout frames.now).size }
    requires closed { AreClosed (F.layout frames.now) (D.device disk.old).seen }
    requires head { length head.now ≡ HEAD_SIZE }
    requires state { length state.now ≡ STATE_SIZE }
    ensures written { OnOk result (IsWritten (F.layout frames.now) head.now state.now (D.device disk.new).seen) }
    ensures calls { Writes result (syncs ∷ writes_chunks CHUNKS state.now ++ writes HEAD_AT head.now ∷ []) (D.device disk.old) (D.device disk.new) }
{
    frames.laws();
    elsewhere_stays();
    chunks_are_whole();
    write_head(disk, head)?;
    write_state(disk, state)?;
    disk.sync()
}

/// Opens the first slot of a device that is written, and syncs.
fn open_first<D: Disk, F: Frames>(disk: &mut D, frames: &F) -> Result<(), DiskFailed>
    requires room { SLOTS_END ≤ length (D.device disk.old).seen }
    ensures made { (head state : List ℕ) → IsWritten (F.layout frames.now) head state (D.device disk.old).seen
        → OnOk result (IsMade (F.layout frames.now) head state (D.device disk.new).seen) }
    ensures settled { OnOk result (IsSettled (D.device disk.new)) }
    ensures calls { Writes result (syncs ∷ opens_slot First ∷ []) (D.device disk.old) (D.device disk.new) }
{
    frames.laws();
    open_slot(disk, Slot::First)?;
    disk.sync()
}

/// Writes all but the head's gate of a device whose gates are all closed, and syncs.
fn write_behind<D: Disk, F: Frames>(
    disk: &mut D,
    frames: &F,
    new: &NewDevice,
) -> Result<(), DiskFailed>
    requires room { length (D.device disk.old).seen ≡ (F.layout frames.now).size }
    requires closed { AreClosed (F.layout frames.now) (D.device disk.old).seen }
    requires head { length new.now.head.items ≡ HEAD_SIZE }
    requires state { length new.now.state.items ≡ STATE_SIZE }
    ensures made { OnOk result (IsMade (F.layout frames.now) new.now.head.items new.now.state.items (D.device disk.new).seen) }
    ensures settled { OnOk result (IsSettled (D.device disk.new)) }
    ensures calls { Writes result (writing new.now.head.items new.now.state.items) (D.device disk.old) (D.device disk.new) }
{
    frames.laws();
    write_all(disk, frames, &new.head, &new.state)?;
    open_first(disk, frames)
}

/// Opens the head of a device on which all else is written, and syncs.
fn open_head<D: Disk, F: Frames>(disk: &mut D, frames: &F) -> Result<(), DiskFailed>
    requires room { SLOTS_END ≤ length (D.device disk.old).seen }
    requires settled { IsSettled (D.device disk.old) }
    ensures made { (head state : List ℕ) → IsMade (F.layout frames.now) head state (D.device disk.old).seen
        → OnOk result (Within (D.device disk.new).may_leave (IsOpenAndMade (F.layout frames.now) head state)) }
    ensures any_moment { (head state : List ℕ) → IsMade (F.layout frames.now) head state (D.device disk.old).seen
        → LeavesOnly (D.device disk.old) (D.device disk.new) (IsClosedOrMade (F.layout frames.now) head state) }
    ensures calls { MakesCalls result (syncs ∷ writes HEAD_GATE open_byte ∷ []) (D.device disk.old) (D.device disk.new) }
{
    frames.laws();
    elsewhere_stays();
    put_is_torn();
    open_or_closed();
    open_gate(disk, HEAD_GATE)?;
    disk.sync()
}

/// Makes a new device from one that isn't headed and has no pending write. It closes all gates that read open, writes
/// the bytes behind them, opens the first slot's gate and then the head's. A sync follows each of these four steps.
pub(crate) fn write_new<D: Disk, F: Frames>(
    disk: &mut D,
    frames: &F,
    definition: &Definition,
    new: &NewDevice,
) -> Result<(), DiskFailed>
    requires room { length (D.device disk.old).seen ≡ (F.layout frames.now).size }
    requires settled { IsSettled (D.device disk.old) }
    requires unheaded { IsHeaded (D.device disk.old).seen → ⊥ }
    requires head { length new.now.head.items ≡ HEAD_SIZE }
    requires state { length new.now.state.items ≡ STATE_SIZE }
    ensures made { OnOk result (Within (D.device disk.new).may_leave (IsOpenAndMade (F.layout frames.now) new.now.head.items new.now.state.items)) }
    ensures any_moment { LeavesOnly (D.device disk.old) (D.device disk.new)
        (IsUnheadedOrMade (F.layout frames.now) new.now.head.items new.now.state.items) }
    ensures calls { (calls : List Asked) × AreClosings (F.shape frames.now) (3 + (F.layout frames.now).count) calls
        × MakesCalls result ((syncs ∷ writes HEAD_GATE open_byte ∷ []) ++ writing new.now.head.items new.now.state.items ++ syncs ∷ calls) (D.device disk.old) (D.device disk.new) }
{
    frames.laws();
    open_or_closed();
    close_all(disk, frames, definition)?;
    write_behind(disk, frames, new)?;
    open_head(disk, frames)
}
