//! Closes the gates of a device that isn't formatted, before anything is written behind them.
ghost use Rattle.std.specs.Prelude.{◌≡◌, ◌⊎◌, ◌+◌, ◌<◌, ◌≤◌, ℕ, List, ◌∷◌, length, OnOk};
ghost use Rattle.hpb_codec.specs.declared.layout.JournalShape.{JournalShape};
ghost use Rattle.hpb_disk.specs.Asked.{Asked};
ghost use Rattle.hpb_disk.specs.Asked.Asked.{syncs, writes};
ghost use Rattle.hpb_disk.specs.Device.{IsSettled};
ghost use Rattle.hpb_disk.specs.Gates.{HasClosedGate, closed_byte};
ghost use Rattle.hpb_disk.specs.Images.{SameBefore, Torn};
ghost use Rattle.hpb_journal.specs.Changes.{ChangesGate};
ghost use Rattle.hpb_journal.specs.Frames.{IsClosed};
ghost use Rattle.hpb_journal.specs.declared.limits.TheConstants.{JOURNAL_AT};
ghost use Rattle.hpb_slots.specs.declared.slot.Slot.{Slot};
ghost use Rattle.hpb_slots.specs.Slots.{IsClosed as IsClosedSlot};
ghost use Rattle.hpb_format.specs.Asking.{AreClosings, Closes, IsClosing, MakesCalls};
ghost use Rattle.hpb_format.specs.Stages.{AreClosed, OnlyCloses};
ghost use Rattle.hpb_recover.specs.declared.limits.TheConstants.{HEAD_AT, MAGIC_BYTES};
ghost use Rattle.hpb_format.specs.declared.place.TheConstants.{HEAD_GATE};

use crate::place::{FIRST_GATE, HEAD_GATE, SECOND_GATE};
use hpb_disk::{Disk, DiskFailed, close_gate, elsewhere_stays, gate_is_open, put_is_torn};
use hpb_journal::{Frame, Frames};
use hpb_tree::Definition;

/// Closes a gate, if it reads open.
fn close_if_open<D: Disk>(disk: &mut D, at: usize) -> Result<(), DiskFailed>
    requires room { at < length (D.device disk.old).seen }
    requires apart { (at ≡ HEAD_GATE) ⊎ (HEAD_AT + MAGIC_BYTES ≤ at) }
    ensures closed { OnOk result (HasClosedGate at (D.device disk.new).seen) }
    ensures rest { OnOk result (Torn at 1 (D.device disk.old).seen (D.device disk.new).seen) }
    ensures closes { (journal : JournalShape) → IsClosing journal (writes at closed_byte) → Closes journal 1 result (D.device disk.old) (D.device disk.new) }
{
    elsewhere_stays();
    put_is_torn();
    if !gate_is_open(disk, at)? {
        return Ok(());
    }
    close_gate(disk, at, true)
}

/// Closes the gate of a batch's frame, if it reads open.
fn close_frame_if_open<D: Disk, F: Frames>(
    disk: &mut D,
    frames: &F,
    index: u64,
    definition: &Definition,
) -> Result<(), DiskFailed>
    requires room { (F.layout frames.now).size ≤ length (D.device disk.old).seen }
    ensures closed { OnOk result (IsClosed (F.layout frames.now) index (D.device disk.new).seen) }
    ensures rest { OnOk result (ChangesGate (F.layout frames.now) index (D.device disk.old).seen (D.device disk.new).seen) }
    ensures closes { Closes (F.shape frames.now) 1 result (D.device disk.old) (D.device disk.new) }
{
    if matches!(frames.read_frame(disk, index, definition)?, Frame::Closed) {
        return Ok(());
    }
    frames.close_frame(disk, index, true)
}

/// Closes the gates of all frames that read open.
fn close_frames<D: Disk, F: Frames>(
    disk: &mut D,
    frames: &F,
    definition: &Definition,
) -> Result<(), DiskFailed>
    requires room { (F.layout frames.now).size ≤ length (D.device disk.old).seen }
    ensures closed { OnOk result ((b : ℕ) → IsClosed (F.layout frames.now) b (D.device disk.new).seen) }
    ensures before { OnOk result (SameBefore JOURNAL_AT (D.device disk.old).seen (D.device disk.new).seen) }
    ensures closes { Closes (F.shape frames.now) (F.layout frames.now).count result (D.device disk.old) (D.device disk.new) }
{
    frames.laws();
    for index in 0..u64::from(frames.count()) {
        close_frame_if_open(disk, frames, index, definition)?;
    }
    Ok(())
}

/// Closes the gates before the journal that read open: the head's, and those of the slots.
fn close_head_and_slots<D: Disk>(disk: &mut D) -> Result<(), DiskFailed>
    requires room { JOURNAL_AT ≤ length (D.device disk.old).seen }
    ensures head { OnOk result (HasClosedGate HEAD_GATE (D.device disk.new).seen) }
    ensures slots { OnOk result ((slot : Slot) → IsClosedSlot slot (D.device disk.new).seen) }
    ensures closes { (journal : JournalShape) → Closes journal 3 result (D.device disk.old) (D.device disk.new) }
{
    elsewhere_stays();
    close_if_open(disk, HEAD_GATE)?;
    close_if_open(disk, FIRST_GATE)?;
    close_if_open(disk, SECOND_GATE)
}

/// Closes all gates that read open, and syncs.
pub(crate) fn close_all<D: Disk, F: Frames>(
    disk: &mut D,
    frames: &F,
    definition: &Definition,
) -> Result<(), DiskFailed>
    requires room { (F.layout frames.now).size ≤ length (D.device disk.old).seen }
    ensures closed { OnOk result (AreClosed (F.layout frames.now) (D.device disk.new).seen) }
    ensures settled { OnOk result (IsSettled (D.device disk.new)) }
    ensures any_moment { OnlyCloses (D.device disk.old) (D.device disk.new) }
    ensures calls { (calls : List Asked) × AreClosings (F.shape frames.now) (3 + (F.layout frames.now).count) calls × MakesCalls result (syncs ∷ calls) (D.device disk.old) (D.device disk.new) }
{
    frames.laws();
    close_head_and_slots(disk)?;
    close_frames(disk, frames, definition)?;
    disk.sync()
}
