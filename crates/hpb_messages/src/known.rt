//! The facts known about a job that ended ill, beside its fault.
ghost use Rattle.std.specs.Prelude.{◌≡◌};
ghost use Rattle.hpb_codec.specs.Layouts.{IsShape};
ghost use Rattle.hpb_messages.specs.Pages.{pages_of};

use crate::job_fault::JobFault;
use crate::noted::Failures;
use hpb_codec::{
    HEAD_SIZE, JournalLayout, JournalShape, LEAST_FRAMES, MOST_FRAMES, PAGE_BYTES, decode_head,
    has_magic,
};
use hpb_disk::{Disk, MemoryDisk, gate_is_open};
use hpb_journal::{AnyFrames, Frames};
use hpb_recover::HEAD_AT;
use hpb_words::Job;
use std::alloc::Global;
use std::fs::{File, Files};
use std::io;
use std::os::unix::fs::FileExt;

/// A job, the failures of its streams, and its file as it is after it was refused.
#[derive(Clone, Copy)]
pub struct Known<'a> {
    /// The job itself.
    pub job: Job<'a>,
    /// How its input and its output failed.
    pub failures: Failures,
    /// Its file as it is now, if it was looked at and could be opened.
    pub seen: Option<SeenFile>,
    /// The system's error, if a call of the file's disk failed before and fails again.
    pub trouble: Option<io::Error>,
}

impl<'a> Known<'a> {
    /// The path of the job's file.
    pub(crate) fn file(self) -> &'a str {
        self.job.file().unwrap_or("")
    }
}

/// Collects the facts about a job beside its end. If a file's bytes or length were refused, or a call of its disk
/// failed, it looks at the file once more.
pub fn known_of<'a, H: Files<File = File>, T>(
    rt: &H,
    alloc: Global,
    job: Job<'a>,
    end: &Result<T, JobFault>,
    failures: Failures,
) -> Known<'a>
    ensures job { result.job ≡ job.entry }
    ensures failures { result.failures ≡ failures }
{
    let seen = match (end, job.file()) {
        (Err(fault), Some(file)) if fault.is_of_bytes() => SeenFile::of(rt, alloc, file),
        _ => None,
    };
    let trouble = match (end, job.file()) {
        (Err(fault), Some(file)) if fault.is_of_calls() => trouble_of(rt, file),
        _ => None,
    };
    Known {
        job,
        failures,
        seen,
        trouble,
    }
}

/// The length of a file, and the contents of its first pages.
#[derive(Clone, Copy, Debug, PartialEq, Eq)]
pub struct SeenFile {
    /// Its length in bytes.
    pub bytes: u64,
    /// The contents of its first pages.
    pub head: SeenHead,
}

/// The contents of a file's first pages.
#[derive(Clone, Copy, Debug, PartialEq, Eq)]
pub enum SeenHead {
    /// No head, or one whose gate is closed: the file keeps no auction.
    Closed,
    /// A head that begins as one, but is damaged.
    Damaged,
    /// The head of an auction with a journal of this shape.
    Of(JournalShape),
}

/// How many bytes the head and its gate take at the beginning of a file.
const FRONT_BYTES: usize = HEAD_AT + HEAD_SIZE;

impl SeenFile {
    /// The file of a path as it is now, if it can be opened. It changes nothing of it.
    pub(crate) fn of<H: Files<File = File>>(rt: &H, alloc: Global, path: &str) -> Option<SeenFile> {
        let file = File::open(rt, path).ok()?;
        let bytes = file.metadata().ok()?.len();
        let head = head_of(alloc, &file).unwrap_or(SeenHead::Closed);
        Some(SeenFile { bytes, head })
    }
}

/// The system's error if the file of a path can't be synced, or read from beginning to end. `None` if it can.
pub(crate) fn trouble_of<H: Files<File = File>>(rt: &H, path: &str) -> Option<io::Error> {
    match read_all(rt, path) {
        Ok(()) => None,
        Err(error) => Some(error),
    }
}

fn read_all<H: Files<File = File>>(rt: &H, path: &str) -> io::Result<()> {
    let file = File::open(rt, path)?;
    file.sync_data()?;
    let pages = file.metadata()?.len() / PAGE_BYTES as u64;
    let mut page = [0; PAGE_BYTES];
    for place in 0..pages {
        file.read_exact_at(&mut page, place.saturating_mul(PAGE_BYTES as u64))?;
    }
    Ok(())
}

/// The contents of a file's first pages, if they can be read and memory isn't refused.
fn head_of(alloc: Global, file: &File) -> Option<SeenHead> {
    let mut front = vec![in alloc; 0; FRONT_BYTES].ok()?;
    let mut head = vec![in alloc; 0; HEAD_SIZE].ok()?;
    file.read_exact_at(&mut front, 0).ok()?;
    let mut disk = MemoryDisk::of(alloc, front).ok()?;
    if disk.len() < FRONT_BYTES {
        return None;
    }
    let is_open = gate_is_open(&mut disk, 0).ok()?;
    disk.read_into(HEAD_AT, &mut head).ok()?;
    if !is_open || !has_magic(&head) {
        return Some(SeenHead::Closed);
    }
    match decode_head(alloc, &head).ok()? {
        Some((head, _)) => Some(SeenHead::Of(head.journal)),
        None => Some(SeenHead::Damaged),
    }
}

/// How many pages a device has whose journal has this shape.
pub fn pages_of(journal: JournalShape) -> usize
    requires { IsShape journal }
    ensures { result ≡ pages_of journal }
{
    AnyFrames::new(journal).device_len() / PAGE_BYTES
}

/// How many pages a file has whose journal has this shape. 0 if no journal can have it.
pub(crate) fn pages_for(journal: JournalShape) -> u64 {
    if journal.is_allowed() {
        pages_of(journal) as u64
    } else {
        0
    }
}

/// The journal with which a file has this many bytes, in this layout or else in the other.
pub(crate) fn journal_fitting(bytes: u64, layout: JournalLayout) -> Option<JournalShape> {
    let other = match layout {
        JournalLayout::Pages => JournalLayout::Cells,
        JournalLayout::Cells => JournalLayout::Pages,
    };
    fitting_in(bytes, layout).or(fitting_in(bytes, other))
}

fn fitting_in(bytes: u64, layout: JournalLayout) -> Option<JournalShape> {
    for frames in LEAST_FRAMES..=MOST_FRAMES {
        let journal = JournalShape { layout, frames };
        let is_one = journal.is_allowed();
        if is_one && pages_for(journal).saturating_mul(PAGE_BYTES as u64) == bytes {
            return Some(journal);
        }
    }
    None
}

/// An allowed journal near one that isn't, in the same layout: with as many frames or a few more, as far as the range
/// goes.
pub(crate) fn journal_near(asked: JournalShape) -> JournalShape {
    let layout = asked.layout;
    for frames in asked.frames..=MOST_FRAMES {
        let journal = JournalShape { layout, frames };
        let is_one = journal.is_allowed();
        if is_one {
            return journal;
        }
    }
    JournalShape {
        layout,
        frames: MOST_FRAMES,
    }
}
