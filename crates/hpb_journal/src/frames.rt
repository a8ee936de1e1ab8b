//! The frames of a journal.
ghost use Rattle.std.specs.Prelude.{◌≡◌, ◌≤◌, [], ◌∷◌, length, true, false, OnOk, IfOk};
ghost use Rattle.hpb_rules.specs.Tree.{Rules};
ghost use Rattle.hpb_codec.specs.declared.layout.JournalShape.{JournalShape};
ghost use Rattle.hpb_disk.specs.Device.{CountsFailure, IsUnchanged, LeavesOnly, MakesCall};
ghost use Rattle.hpb_disk.specs.Images.{Within};
ghost use Rattle.hpb_journal.specs.Layouts.{Layout, IsLayout};
ghost use Rattle.hpb_journal.specs.Frames.{IsOpen, IsClosed, IsRead, MayBeKept, Says};
ghost use Rattle.hpb_journal.specs.Places.{writes_body, opens_frame, closes_frame};
ghost use Rattle.hpb_journal.specs.Changes.{ChangesBody, ChangesGate, TornBody, TornGate};

use crate::Frame;
use hpb_codec::Batch;
use hpb_disk::{Disk, DiskFailed};
use hpb_tree::Definition;

/// The frames of a journal on a device. Their contents are the list of batches from an index on (`Kept`): a batch
/// counts while its frame is open and spells it.
///
/// A batch is written in four steps: `write_body` while the frame's gate is closed in every image that a crash may
/// leave, a sync, `open_frame`, and a sync. A frame that isn't needed any more is closed by `close_frame`, which counts
/// after a sync. Each call makes at most one call of the device, and takes no memory.
pub trait Frames {
    /// The places of the frames, and the meaning of their bytes.
    ghost layout: { Self → Layout };

    /// The kind of layout, and how many frames there are.
    ghost shape: { Self → JournalShape };

    /// How many frames there are, from `LEAST_FRAMES` to `MOST_FRAMES`.
    fn count(&self) -> u32
        ensures { result ≡ (layout self.now).count };

    /// How many bytes a device with these frames has.
    fn device_len(&self) -> usize
        ensures { result ≡ (layout self.now).size };

    /// Writes the body of a batch into the batch's frame. If the gate is closed in every image that a crash may leave,
    /// the body doesn't count, whether whole or torn.
    fn write_body<D: Disk>(&self, disk: &mut D, batch: &Batch) -> Result<(), DiskFailed>
        requires room { (layout self.now).size ≤ length (D.device disk.old).seen }
        // After a write that succeeds a read gives the batch, under each definition under which it may be kept. All
        // else is as it was.
        ensures written { (rules : Rules) → MayBeKept rules batch.now → OnOk result (Says (layout self.now) rules batch.now (D.device disk.new).seen) }
        ensures rest { OnOk result (ChangesBody (layout self.now) batch.now.index (D.device disk.old).seen (D.device disk.new).seen) }
        ensures size { length (D.device disk.new).seen ≡ length (D.device disk.old).seen }
        // A crash from then on, or within the call, may leave any bytes in this body, and elsewhere the same as before.
        ensures crash { LeavesOnly (D.device disk.old) (D.device disk.new)
            (TornBody (layout self.now) batch.now.index (D.device disk.old).may_leave) }
        // The device was asked for this write alone, whether it succeeds or not.
        ensures call { MakesCall result (writes_body (shape self.now) batch.now ∷ []) (D.device disk.old) (D.device disk.new) };

    /// Opens the gate of a batch's frame. The opening counts after the next sync. Until then a crash may leave the gate
    /// open or closed.
    fn open_frame<D: Disk>(&self, disk: &mut D, index: u64) -> Result<(), DiskFailed>
        requires room { (layout self.now).size ≤ length (D.device disk.old).seen }
        ensures open { OnOk result (IsOpen (layout self.now) index (D.device disk.new).seen) }
        ensures rest { OnOk result (ChangesGate (layout self.now) index (D.device disk.old).seen (D.device disk.new).seen) }
        ensures size { length (D.device disk.new).seen ≡ length (D.device disk.old).seen }
        ensures crash { LeavesOnly (D.device disk.old) (D.device disk.new)
            (TornGate (layout self.now) index (D.device disk.old).may_leave) }
        ensures call { MakesCall result (opens_frame (shape self.now) index ∷ []) (D.device disk.old) (D.device disk.new) };

    /// Closes the gate of a batch's frame, if it may be open. A gate that is closed in every image that a crash may
    /// leave isn't written, since a torn byte could open it. The caller says so by `may_be_open`; then the device gets
    /// no call.
    fn close_frame<D: Disk>(
        &self,
        disk: &mut D,
        index: u64,
        may_be_open: bool,
    ) -> Result<(), DiskFailed>
        requires room { (layout self.now).size ≤ length (D.device disk.old).seen }
        requires told { may_be_open ≡ false → Within (D.device disk.old).may_leave (IsClosed (layout self.now) index) }
        ensures closed { OnOk result (IsClosed (layout self.now) index (D.device disk.new).seen) }
        ensures left_alone { may_be_open ≡ false → disk.new ≡ disk.old }
        ensures rest { may_be_open ≡ true → OnOk result (ChangesGate (layout self.now) index (D.device disk.old).seen (D.device disk.new).seen) }
        ensures size { length (D.device disk.new).seen ≡ length (D.device disk.old).seen }
        ensures crash { may_be_open ≡ true → LeavesOnly (D.device disk.old) (D.device disk.new)
            (TornGate (layout self.now) index (D.device disk.old).may_leave) }
        ensures cause { CountsFailure result (D.device disk.old) (D.device disk.new) }
        ensures call { may_be_open ≡ true → MakesCall result (closes_frame (shape self.now) index ∷ []) (D.device disk.old) (D.device disk.new) };

    /// Reads the frame of a batch, whatever its bytes are. The device gets one read.
    fn read_frame<D: Disk>(
        &self,
        disk: &mut D,
        index: u64,
        definition: &Definition,
    ) -> Result<Frame, DiskFailed>
        requires room { (layout self.now).size ≤ length (D.device disk.old).seen }
        ensures frame { IfOk result (λ frame. IsRead (layout self.now) definition.now index (D.device disk.old).seen frame) }
        ensures unchanged { IsUnchanged (D.device disk.old) (D.device disk.new) }
        ensures call { MakesCall result [] (D.device disk.old) (D.device disk.new) };

    /// Proves the properties of each layout. It does nothing.
    fn laws(&self)
        ensures { IsLayout (layout self.now) };
}
