//! Frames of one page each.
ghost use Rattle.std.specs.Prelude.{◌≡◌, ◌+◌, ◌*◌, ◌≤◌, ◌<◌, length};
ghost use Rattle.hpb_codec.specs.declared.layout.TheConstants.{LEAST_FRAMES, MOST_FRAMES, PAGE_BYTES};
ghost use Rattle.hpb_journal.specs.declared.limits.TheConstants.{JOURNAL_AT};

use crate::limits::{BODY_AT, JOURNAL_AT};
use crate::page::frame_in;
use crate::{Frame, Frames};
use hpb_codec::{BATCH_SIZE, Batch, PAGE_BYTES, batches_are_one, encode_batch};
use hpb_disk::{
    Disk, DiskFailed, close_gate, elsewhere_stays, open_gate, put_is_read, put_is_torn,
};
use hpb_tree::Definition;

/// Frame b stands in page 13 + b mod count. Its gate is the page's first byte, and its body is the page from byte 16
/// on.
#[derive(Clone, Copy, Debug)]
pub struct PageFrames {
    /// How many frames there are, from `LEAST_FRAMES` to `MOST_FRAMES`.
    pub count: u32,
    pub ghost least: { LEAST_FRAMES ≤ count },
    pub ghost most: { count ≤ MOST_FRAMES },
}

impl PageFrames {
    ghost use Rattle.hpb_journal.specs.Strides.{frame_at};

    /// A journal of `count` frames.
    pub fn new(count: u32) -> PageFrames
        requires least { LEAST_FRAMES ≤ count }
        requires most { count ≤ MOST_FRAMES }
        ensures { result.count ≡ count }
    {
        PageFrames { count }
    }

    // The offset of the first byte of a batch's page.
    fn page(&self, index: u64) -> usize
        ensures value { result ≡ frame_at PAGE_BYTES self.now.count index }
        ensures inside { result + PAGE_BYTES ≤ JOURNAL_AT + PAGE_BYTES * self.now.count }
    {
        JOURNAL_AT + PAGE_BYTES * (index % u64::from(self.count)) as usize
    }
}

impl Frames for PageFrames {
    ghost use Rattle.hpb_codec.specs.declared.layout.JournalLayout.TheVariants.{Pages};
    ghost use Rattle.hpb_journal.specs.Pages.{page_layout};

    ghost layout = { λ frames. page_layout frames.count };

    ghost shape = { λ frames. record { layout = Pages; frames = frames.count } };

    fn count(&self) -> u32 {
        self.count
    }

    fn device_len(&self) -> usize {
        JOURNAL_AT + PAGE_BYTES * self.count as usize
    }

    fn write_body<D: Disk>(&self, disk: &mut D, batch: &Batch) -> Result<(), DiskFailed> {
        let mut body = [0; BATCH_SIZE];
        encode_batch(batch, &mut body);
        elsewhere_stays();
        put_is_read();
        put_is_torn();
        disk.write_at(self.page(batch.index) + BODY_AT, &body)
    }

    fn open_frame<D: Disk>(&self, disk: &mut D, index: u64) -> Result<(), DiskFailed> {
        elsewhere_stays();
        put_is_torn();
        open_gate(disk, self.page(index))
    }

    fn close_frame<D: Disk>(
        &self,
        disk: &mut D,
        index: u64,
        may_be_open: bool,
    ) -> Result<(), DiskFailed> {
        elsewhere_stays();
        put_is_torn();
        close_gate(disk, self.page(index), may_be_open)
    }

    fn read_frame<D: Disk>(
        &self,
        disk: &mut D,
        index: u64,
        definition: &Definition,
    ) -> Result<Frame, DiskFailed> {
        let mut page = [0; PAGE_BYTES];
        disk.read_into(self.page(index), &mut page)?;
        Ok(frame_in(&page, index, definition))
    }

    fn laws(&self) {
        batches_are_one();
    }
}
