//! Messages on standard error about a job that ended ill: why, and what to do. All texts of that kind stand here. Only
//! the faults of a definition have theirs in `hpb_reasons`.

use crate::job_fault::JobFault;
use crate::known::{Known, SeenFile, SeenHead, journal_fitting, journal_near, pages_for};
use crate::noted::Failures;
use crate::run_end::RunEnd;
use hpb_codec::{JournalLayout, PAGE_BYTES};
use hpb_disk::FileFault;
use hpb_format::FormatCause;
use hpb_recover::{Cause, Flaw, LEAST_PAGES};
use hpb_rules::Refusal;
use hpb_server::SessionFault;
use hpb_words::{CheckCommand, Escaped, Job, JobCommand, JournalOptions, Pasted};
use std::io::ErrorKind;
use std::{fmt, io};

/// The message about a job on a file that was not done: why, and what to do.
#[derive(Clone, Copy)]
pub struct JobAdvice<'a> {
    /// Why it was not done.
    pub fault: &'a JobFault,
    /// The facts known about the job beside its fault.
    pub known: Known<'a>,
}

impl fmt::Display for JobAdvice<'_> {
    fn fmt<W: fmt::Write>(&self, f: &mut fmt::Formatter<W>) -> fmt::Result {
        let known = self.known;
        match self.fault {
            JobFault::Memory => f.write_str(memory_of(known.job)),
            JobFault::Reader => write_reading(f, known.failures),
            JobFault::Writer => write_writing(f, known.failures),
            JobFault::Definition(fault) => f.write_str(fault.said()),
            JobFault::Journal => advise_of_journal(f, known.job),
            JobFault::File(fault) => advise_of_file(f, known, fault),
            JobFault::Format(cause) => advise_of_format(f, known, *cause),
            JobFault::Open(cause) => advise_of_open(f, known, *cause),
            JobFault::Port { port, error } => write!(
                f,
                "port {port} can't be had: {error}: choose another, by --port"
            ),
            JobFault::Descriptors {
                sessions,
                wanted,
                error,
            } => write!(
                f,
                "{sessions} sessions want {wanted} files and connections at a time: {error}: let the process have as many (ulimit -n), or give fewer to --sessions"
            ),
            JobFault::Place => write!(
                f,
                "a session has no place in memory: free some, or give fewer to --sessions"
            ),
            JobFault::Order => advise_of_differing(
                f,
                known,
                "a session was given another answer than the one that it waited for",
            ),
            JobFault::Counts => advise_of_differing(
                f,
                known,
                "the answers to the sessions aren't those that the file keeps",
            ),
        }
    }
}

/// The text for answers that differ from those that a file keeps.
fn advise_of_differing<W: fmt::Write>(
    f: &mut fmt::Formatter<W>,
    known: Known<'_>,
    what: &str,
) -> fmt::Result {
    let (file, look) = (Escaped(known.file()), CheckCommand(known.file()));
    write!(
        f,
        "{what}, which is a fault of hpb: see what {file} keeps by {look}, and compare it with the answers"
    )
}

const MEMORY: &str = "memory was refused";

/// The text for want of memory while serving, which takes threads too.
const MEMORY_OR_THREAD: &str =
    "memory, or a thread, was refused: free some memory, let the process have more threads (ulimit -u), or give fewer to --sessions. All that was answered by OK is kept";

fn memory_of(job: Job<'_>) -> &'static str {
    match job {
        Job::Serve { .. } => MEMORY_OR_THREAD,
        _ => MEMORY,
    }
}

/// The text for a number of frames that the layout can't have: those it can have, and the nearest.
fn advise_of_journal<W: fmt::Write>(f: &mut fmt::Formatter<W>, job: Job<'_>) -> fmt::Result {
    let Some(asked) = job.journal() else {
        return Ok(());
    };
    let near = journal_near(asked);
    let range = match asked.layout {
        JournalLayout::Pages => "from 4 to 1,024 frames",
        JournalLayout::Cells => "from 16 to 1,024 frames, in eights",
    };
    let (asked, other, pages) = (JournalOptions(asked), JournalOptions(near), pages_for(near));
    write!(
        f,
        "{asked} can't be: such a journal has {range}. {other} can, and makes a file of {pages} pages"
    )
}

fn advise_of_file<W: fmt::Write>(
    f: &mut fmt::Formatter<W>,
    known: Known<'_>,
    fault: &FileFault,
) -> fmt::Result {
    let file = Escaped(known.file());
    match fault {
        FileFault::Busy => write!(
            f,
            "{file} is in use by another process: wait until that has ended"
        ),
        FileFault::NotAFile => write!(f, "{file} is no regular file: name one"),
        FileFault::TooLong => write!(
            f,
            "{file} is longer than any file of an auction: name another"
        ),
        FileFault::Stream | FileFault::Errors => write!(
            f,
            "a standard stream leads to {file}: let it lead elsewhere"
        ),
        FileFault::Beside => write!(
            f,
            "{file}.new is there, by which name {file} is made first: if no other hpb makes it now, give that one another name"
        ),
        FileFault::BesideForeign => write!(
            f,
            "{file}.new is another user's, and {file} is made by that name first: name a file in a folder that only you may write"
        ),
        FileFault::BesideWritable => write!(
            f,
            "{file}.new may be written by others, and {file} is made by that name first: if no other hpb makes it now, give that one another name"
        ),
        FileFault::Foreign => write!(
            f,
            "{file} is another user's, who could change the auction: name a file that isn't there, in a folder that only you may write"
        ),
        FileFault::ForeignLink => write!(
            f,
            "{file} is another user's link, which may lead to any file of yours: name a file that isn't there, in a folder that only you may write"
        ),
        FileFault::DanglingLink => write!(
            f,
            "{file} is a link that leads to no file: remove it, or name a file that isn't there"
        ),
        FileFault::Limit { len, limit } => write!(
            f,
            "{file} wants {len} bytes, and this process may write no more than {limit} to a file: let it write more (ulimit -f)"
        ),
        FileFault::Memory(_) => f.write_str(MEMORY),
        FileFault::System(error) => advise_of_system(f, known, error),
    }
}

/// The text for a file for which the system refused a call, before anything was read of it. Only `format` makes files.
fn advise_of_system<W: fmt::Write>(
    f: &mut fmt::Formatter<W>,
    known: Known<'_>,
    error: &io::Error,
) -> fmt::Result {
    let file = Escaped(known.file());
    let is_made = matches!(known.job, Job::Format { .. });
    let tried = if is_made {
        "opened, made or written"
    } else {
        "opened"
    };
    let remedy = match error.kind() {
        ErrorKind::NotFound if is_made => "see that its folder is there",
        ErrorKind::NotFound => "see that its path is right. Only `hpb format` makes a file",
        ErrorKind::PermissionDenied => "see that you may use it, and read its folder",
        ErrorKind::StorageFull => "make room on its disk, and try again",
        _ => "see that its path is right, that you may use it, and that its disk is well",
    };
    write!(f, "{file} could not be {tried}: {error}: {remedy}")
}

fn advise_of_format<W: fmt::Write>(
    f: &mut fmt::Formatter<W>,
    known: Known<'_>,
    cause: FormatCause,
) -> fmt::Result {
    let (file, look) = (Escaped(known.file()), CheckCommand(known.file()));
    match cause {
        FormatCause::Length => advise_of_length(f, known),
        FormatCause::Formatted => write!(
            f,
            "{file} keeps an auction already, and nothing was changed: see it by {look}, or name another file"
        ),
        FormatCause::Device => write!(
            f,
            "{file} could not be read, written or synced. See to its disk, and make room on a full one. Then see by {look} whether the file keeps the auction, and if it doesn't, try again"
        ),
        FormatCause::Memory => f.write_str(MEMORY),
    }
}

/// The text for a file that is there, with another length than the journal wants.
fn advise_of_length<W: fmt::Write>(f: &mut fmt::Formatter<W>, known: Known<'_>) -> fmt::Result {
    let file = Escaped(known.file());
    let (Some(asked), Some(seen)) = (known.job.journal(), known.seen) else {
        return write!(
            f,
            "{file} is there and has another length than this journal wants: name a file that isn't there"
        );
    };
    let (options, wanted, length) = (JournalOptions(asked), pages_for(asked), Length(seen.bytes));
    if seen.head != SeenHead::Closed {
        let look = CheckCommand(known.file());
        return write!(
            f,
            "{file} keeps an auction already, and nothing was changed: it has {length}, and {options} wants {wanted}. See it by {look}, or name another file"
        );
    }
    write!(
        f,
        "{file} is there and has {length}, and {options} wants {wanted}: "
    )?;
    match journal_fitting(seen.bytes, asked.layout) {
        Some(journal) => {
            let fitting = JournalOptions(journal);
            write!(f, "give {fitting}, or name a file that isn't there")
        }
        None => write!(f, "name a file that isn't there"),
    }
}

/// The length of a file: in pages if it has whole ones, and otherwise in bytes.
#[derive(Clone, Copy)]
struct Length(u64);

impl fmt::Display for Length {
    fn fmt<W: fmt::Write>(&self, f: &mut fmt::Formatter<W>) -> fmt::Result {
        let (pages, rest) = (self.0 / PAGE_BYTES as u64, self.0 % PAGE_BYTES as u64);
        match (pages, rest) {
            (1, 0) => write!(f, "1 page"),
            (pages, 0) => write!(f, "{pages} pages"),
            _ => write!(f, "{} bytes, which are no whole pages", self.0),
        }
    }
}

fn advise_of_open<W: fmt::Write>(
    f: &mut fmt::Formatter<W>,
    known: Known<'_>,
    cause: Cause,
) -> fmt::Result {
    let file = Escaped(known.file());
    match cause {
        Cause::Flawed(Flaw::Unformatted) => advise_of_unformatted(f, known),
        Cause::Flawed(Flaw::Layout) => advise_of_layout(f, known),
        Cause::Flawed(Flaw::Checkpoint) => write!(
            f,
            "{file} has no whole checkpoint, which no power cut does to it: leave it as it is, and go back to your newest backup"
        ),
        Cause::Flawed(Flaw::Frame) => write!(
            f,
            "a batch in the journal of {file} is damaged, which no power cut does to it: leave it as it is, and go back to your newest backup"
        ),
        Cause::Device => {
            write!(f, "{file} could not be read or synced: ")?;
            if let Some(error) = known.trouble {
                write!(f, "{error}: ")?;
            }
            f.write_str("see to its disk, and try again")
        }
        Cause::Memory => f.write_str(MEMORY),
    }
}

/// The text for a file that keeps no auction: it never did, or it was cut or overwritten.
fn advise_of_unformatted<W: fmt::Write>(
    f: &mut fmt::Formatter<W>,
    known: Known<'_>,
) -> fmt::Result {
    let file = Escaped(known.file());
    write!(f, "{file} keeps no auction: ")?;
    match known.seen {
        Some(SeenFile { bytes: 0, .. }) => write!(f, "it is empty")?,
        Some(SeenFile { bytes, .. }) if !has_pages(bytes) => {
            let length = Length(bytes);
            write!(
                f,
                "it has {length}, and one that does has {LEAST_PAGES} at least"
            )?;
        }
        _ => write!(f, "it doesn't begin as one that does")?,
    }
    write!(
        f,
        ". If it kept one, it was cut or overwritten: leave it as it is, and go back to your newest backup. If `hpb format` was stopped while it made the file, do the same again. To make a new auction, name a file that isn't there: `hpb format --file new.hpb --journal 64 < definition.json`"
    )
}

/// Whether a file of this many bytes may keep an auction.
fn has_pages(bytes: u64) -> bool {
    bytes % PAGE_BYTES as u64 == 0 && bytes / PAGE_BYTES as u64 >= LEAST_PAGES as u64
}

/// The text for a file whose head is damaged, or whose length isn't the one in its head.
fn advise_of_layout<W: fmt::Write>(f: &mut fmt::Formatter<W>, known: Known<'_>) -> fmt::Result {
    let file = Escaped(known.file());
    let Some(seen) = known.seen else {
        return write!(
            f,
            "the head of {file} is damaged, or the file was cut or made longer: leave it as it is, and go back to your newest backup"
        );
    };
    let length = Length(seen.bytes);
    let SeenHead::Of(journal) = seen.head else {
        return write!(
            f,
            "the head of {file} is damaged, and the file has {length}: leave it as it is, and go back to your newest backup"
        );
    };
    let (options, wanted) = (JournalOptions(journal), pages_for(journal));
    let whole = wanted.saturating_mul(PAGE_BYTES as u64);
    write!(
        f,
        "{file} has {length}, and by its head {wanted} ({options}): "
    )?;
    if seen.bytes < whole {
        return write!(
            f,
            "it was cut. Leave it as it is, and go back to your newest backup"
        );
    }
    let (name, look) = (Pasted(known.file()), CheckCommand(known.file()));
    write!(
        f,
        "it was made longer. Copy it, cut it by `truncate -s {whole} {name}`, and see it by {look}; if it is refused still, go back to your newest backup"
    )
}

/// The message about a run or serving that had begun and ended ill: why, and what to do.
#[derive(Clone, Copy)]
pub struct EndAdvice<'a> {
    /// How it ended.
    pub end: RunEnd,
    /// The facts known about the job beside its end.
    pub known: Known<'a>,
}

impl fmt::Display for EndAdvice<'_> {
    fn fmt<W: fmt::Write>(&self, f: &mut fmt::Formatter<W>) -> fmt::Result {
        let (end, known) = (self.end, self.known);
        let Err(fault) = end.end else {
            return advise_of_disk(f, known, end);
        };
        advise_of_fault(f, known, fault)?;
        if end.failed {
            let (number, word) = (Refusal::Device.number(), Refusal::Device.word());
            write!(f, "\nhpb: {number} {word}: ")?;
            advise_of_disk(f, known, end)?;
        }
        Ok(())
    }
}

/// What somebody else did to a job's file while the job had it open.
#[derive(Clone, Copy, Debug, PartialEq, Eq)]
pub enum Meddling {
    /// It was cut, made longer or written.
    Spoiled,
    /// Its path leads to another file, or to none.
    Replaced,
}

/// The message about a job's file with which somebody else has meddled, once the job has ended.
#[derive(Clone, Copy)]
pub struct MeddlingAdvice<'a> {
    pub known: Known<'a>,
    pub meddling: Meddling,
}

impl fmt::Display for MeddlingAdvice<'_> {
    fn fmt<W: fmt::Write>(&self, f: &mut fmt::Formatter<W>) -> fmt::Result {
        let file = self.known.file();
        let (file, look) = (Escaped(file), CheckCommand(file));
        match self.meddling {
            Meddling::Spoiled => write!(
                f,
                "{file} was cut, made longer or overwritten while it was in use, and may lack commands that got OK. See it by {look}, go back to your newest backup, and send again, in their order, the commands since then"
            ),
            Meddling::Replaced => write!(
                f,
                "{file} was moved, removed or replaced while it was in use. Commands that got OK are in the file that was opened: if that has another name, give it its own name again. If it has none, go back to your newest backup, and send again, in their order, the commands since then"
            ),
        }
    }
}

/// The text for a disk of which a call failed while its auction was run or served.
fn advise_of_disk<W: fmt::Write>(
    f: &mut fmt::Formatter<W>,
    known: Known<'_>,
    end: RunEnd,
) -> fmt::Result {
    let (file, command) = (Escaped(known.file()), JobCommand(known.job));
    write!(f, "the disk of {file} failed")?;
    if let Some(code) = end.code {
        write!(f, ": {}", io::Error::from_raw_os_error(code))?;
    }
    let unkept = unkept(known.job);
    write!(
        f,
        ". All that was answered by OK is kept. See to the disk first. If it is full, make room, and the same file goes on. If it breaks, copy {file} to another disk, and use the copy. Then go on by {command}, and send again, in their order, {unkept}, or not at all: one that was kept gets its old number, or 13 if its sender has a later one that was kept"
    )
}

/// The commands that have to be sent again once a disk has failed. While an auction is served, no answer is 91.
fn unkept(job: Job<'_>) -> &'static str {
    match job {
        Job::Serve { .. } => "the commands that were answered by 93",
        _ => "the commands that were answered by 91 or 93",
    }
}

/// The text for a stream that failed, or memory that was refused, once a run or serving had begun.
fn advise_of_fault<W: fmt::Write>(
    f: &mut fmt::Formatter<W>,
    known: Known<'_>,
    fault: SessionFault,
) -> fmt::Result {
    write!(
        f,
        "{}",
        ScriptAdvice {
            fault,
            failures: known.failures
        }
    )?;
    let command = JobCommand(known.job);
    match known.job {
        Job::Serve { file, .. } => {
            let (file, look) = (Escaped(file), CheckCommand(file));
            write!(
                f,
                ". All sessions have ended, and all that was answered by OK is kept. See {file} by {look}"
            )
        }
        _ => write!(
            f,
            ". All that was answered by OK is kept. Then go on by {command}, and send again, in their order, the lines that have no answer"
        ),
    }
}

/// The message about a script that a fault ended.
#[derive(Clone, Copy)]
pub struct ScriptAdvice {
    /// The fault that ended it.
    pub fault: SessionFault,
    /// How its input and its output failed.
    pub failures: Failures,
}

impl fmt::Display for ScriptAdvice {
    fn fmt<W: fmt::Write>(&self, f: &mut fmt::Formatter<W>) -> fmt::Result {
        match self.fault {
            SessionFault::Memory => f.write_str(MEMORY),
            SessionFault::Reader => write_reading(f, self.failures),
            SessionFault::Writer => write_writing(f, self.failures),
        }
    }
}

/// The text for an input that failed, in the words of the system, or one that had too many bytes.
fn write_reading<W: fmt::Write>(f: &mut fmt::Formatter<W>, failures: Failures) -> fmt::Result {
    match failures.reading {
        Some(error) => write!(f, "reading: {error}"),
        None => write!(f, "reading: more than 1,000,000,000 bytes"),
    }
}

/// The text for an output that failed, in the words of the system, or one that took nothing.
fn write_writing<W: fmt::Write>(f: &mut fmt::Formatter<W>, failures: Failures) -> fmt::Result {
    match failures.writing {
        Some(error) => write!(f, "writing: {error}"),
        None => write!(f, "writing: nothing more was taken"),
    }
}

/// The message if a standard stream is closed, and nothing else could be opened in its place.
#[derive(Clone, Copy)]
pub struct StreamsAdvice<'a>(pub &'a io::Error);

impl fmt::Display for StreamsAdvice<'_> {
    fn fmt<W: fmt::Write>(&self, f: &mut fmt::Formatter<W>) -> fmt::Result {
        let error = self.0;
        write!(
            f,
            "a standard stream is closed, and /dev/null can't be opened in its place: {error}: start hpb with its streams open"
        )
    }
}

/// The message about a standard stream that leads to a job's file.
#[derive(Clone, Copy)]
pub struct LedAdvice<'a> {
    /// Its name, such as "standard input".
    pub stream: &'static str,
    /// The path of the job's file.
    pub file: &'a str,
    /// Whether it leads to the file `F.new`, as file `F` is called while it is made, and not to `F` itself.
    pub is_new: bool,
}

impl fmt::Display for LedAdvice<'_> {
    fn fmt<W: fmt::Write>(&self, f: &mut fmt::Formatter<W>) -> fmt::Result {
        let (stream, file) = (self.stream, Escaped(self.file));
        if self.is_new {
            return write!(
                f,
                "{stream} is {file}.new, as {file} is called while it is made: let it lead elsewhere"
            );
        }
        write!(
            f,
            "{stream} is {file}, the file of the auction itself: let it lead elsewhere"
        )
    }
}
