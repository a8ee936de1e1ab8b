//! Frames of three cells each.
ghost use Rattle.std.specs.Prelude.{◌≡◌, ◌+◌, ◌*◌, ◌%◌, ◌≤◌, ◌<◌, [], ◌∷◌, length, OnOk};
ghost use Rattle.hpb_codec.specs.Cells.{cells_of, BeginsCells};
ghost use Rattle.hpb_codec.specs.declared.cells.TheConstants.{CELLS_SIZE};
ghost use Rattle.hpb_disk.specs.Asked.Asked.{writes};
ghost use Rattle.hpb_disk.specs.Device.{LeavesOnly, MakesCall};
ghost use Rattle.hpb_disk.specs.Images.{part, put, TornFrom};
ghost use Rattle.hpb_journal.specs.Frames.{MayBeKept};
ghost use Rattle.hpb_rules.specs.Tree.{Rules};
ghost use Rattle.hpb_codec.specs.declared.layout.TheConstants.{LEAST_CELL_FRAMES, CELL_FRAMES_STEP, MOST_FRAMES};
ghost use Rattle.hpb_journal.specs.declared.limits.TheConstants.{JOURNAL_AT, CELL_FRAME_BYTES};

use crate::limits::{BODY_AT, CELL_FRAME_BYTES, JOURNAL_AT};
use crate::three_cells::in_cells;
use crate::{Frame, Frames};
use hpb_codec::{Batch, CELLS_SIZE, cells_are_one, encode_cells};
use hpb_disk::{
    Disk, DiskFailed, close_gate, elsewhere_stays, open_gate, put_is_read, put_is_torn,
};
use hpb_tree::Definition;

/// Frame b begins at byte 53,248 + 1,536 * (b mod count). Its gate is its first byte, and its body is all bytes from
/// byte 16 on. A batch takes as many cells of it as it needs.
#[derive(Clone, Copy, Debug)]
pub struct CellFrames {
    /// How many frames there are: `LEAST_CELL_FRAMES` to `MOST_FRAMES`, a multiple of `CELL_FRAMES_STEP`.
    pub count: u32,
    pub ghost least: { LEAST_CELL_FRAMES ≤ count },
    pub ghost most: { count ≤ MOST_FRAMES },
    pub ghost eights: { count % CELL_FRAMES_STEP ≡ 0 },
}

impl CellFrames {
    ghost use Rattle.hpb_journal.specs.Strides.{frame_at};

    /// A journal of `count` frames.
    pub fn new(count: u32) -> CellFrames
        requires least { LEAST_CELL_FRAMES ≤ count }
        requires most { count ≤ MOST_FRAMES }
        requires eights { count % CELL_FRAMES_STEP ≡ 0 }
        ensures { result.count ≡ count }
    {
        CellFrames { count }
    }

    // The offset of the first byte of a batch's cells.
    fn place(&self, index: u64) -> usize
        ensures value { result ≡ frame_at CELL_FRAME_BYTES self.now.count index }
        ensures inside { result + CELL_FRAME_BYTES ≤ JOURNAL_AT + CELL_FRAME_BYTES * self.now.count }
    {
        JOURNAL_AT + CELL_FRAME_BYTES * (index % u64::from(self.count)) as usize
    }
}

/// Writes the cells of a batch from an offset of a device on, in one write: 496, 1,008 or 1,520 bytes, never more than
/// the batch takes.
pub fn write_cells<D: Disk>(disk: &mut D, at: usize, batch: &Batch) -> Result<(), DiskFailed>
    requires room { at + CELLS_SIZE ≤ length (D.device disk.old).seen }
    ensures written { OnOk result ((D.device disk.new).seen ≡ put at (cells_of batch.now) (D.device disk.old).seen) }
    // A frame's body that begins there then begins with the batch, under each definition under which it may be kept.
    ensures says { (rules : Rules) → MayBeKept rules batch.now → OnOk result (BeginsCells rules (part at CELLS_SIZE (D.device disk.new).seen) batch.now) }
    ensures size { length (D.device disk.new).seen ≡ length (D.device disk.old).seen }
    ensures few { length (cells_of batch.now) ≤ CELLS_SIZE }
    // A crash from then on, or within the call, may leave any bytes in the cells that the batch takes, and elsewhere
    // the same as before.
    ensures crash { LeavesOnly (D.device disk.old) (D.device disk.new)
        (TornFrom at (length (cells_of batch.now)) (D.device disk.old).may_leave) }
    ensures call { MakesCall result (writes at (cells_of batch.now) ∷ []) (D.device disk.old) (D.device disk.new) }
{
    let mut body = [0; CELLS_SIZE];
    let size = encode_cells(batch, &mut body);
    put_is_read();
    disk.write_at(at, &body[..size])
}

impl Frames for CellFrames {
    ghost use Rattle.hpb_codec.specs.declared.layout.JournalLayout.TheVariants.{Cells};
    ghost use Rattle.hpb_journal.specs.Cells.{cell_layout};

    ghost layout = { λ frames. cell_layout frames.count };

    ghost shape = { λ frames. record { layout = Cells; frames = frames.count } };

    fn count(&self) -> u32 {
        self.count
    }

    fn device_len(&self) -> usize {
        JOURNAL_AT + CELL_FRAME_BYTES * self.count as usize
    }

    fn write_body<D: Disk>(&self, disk: &mut D, batch: &Batch) -> Result<(), DiskFailed> {
        elsewhere_stays();
        put_is_torn();
        write_cells(disk, self.place(batch.index) + BODY_AT, batch)
    }

    fn open_frame<D: Disk>(&self, disk: &mut D, index: u64) -> Result<(), DiskFailed> {
        elsewhere_stays();
        put_is_torn();
        open_gate(disk, self.place(index))
    }

    fn close_frame<D: Disk>(
        &self,
        disk: &mut D,
        index: u64,
        may_be_open: bool,
    ) -> Result<(), DiskFailed> {
        elsewhere_stays();
        put_is_torn();
        close_gate(disk, self.place(index), may_be_open)
    }

    fn read_frame<D: Disk>(
        &self,
        disk: &mut D,
        index: u64,
        definition: &Definition,
    ) -> Result<Frame, DiskFailed> {
        let mut cells = [0; CELL_FRAME_BYTES];
        disk.read_into(self.place(index), &mut cells)?;
        Ok(in_cells(&cells, index, definition))
    }

    fn laws(&self) {
        cells_are_one();
    }
}
