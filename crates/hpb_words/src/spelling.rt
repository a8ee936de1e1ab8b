//! The words that ask for a job, in the form in which people type them.

use crate::escaped::Pasted;
use crate::words::Job;
use hpb_codec::{JournalLayout, JournalShape};
use std::fmt;

/// A job's command, whole: it can be pasted.
#[derive(Clone, Copy)]
pub struct JobCommand<'a>(pub Job<'a>);

impl fmt::Display for JobCommand<'_> {
    fn fmt<W: fmt::Write>(&self, f: &mut fmt::Formatter<W>) -> fmt::Result {
        match self.0 {
            Job::Script => write!(f, "`hpb < SCRIPT`"),
            Job::Format { file, journal } => {
                let (file, shown) = (Pasted(file), JournalOptions(journal));
                write!(f, "`hpb format --file {file} {shown} < definition.json`")
            }
            Job::Check { file } => write!(f, "{}", CheckCommand(file)),
            Job::Run { file, batch, every } => {
                let file = Pasted(file);
                write!(f, "`hpb run --file {file} --batch {batch} --every {every}`")
            }
            Job::Serve {
                file,
                port,
                sessions,
            } => {
                let file = Pasted(file);
                write!(
                    f,
                    "`hpb serve --file {file} --port {port} --sessions {sessions}`"
                )
            }
        }
    }
}

/// The command that shows what the file of this path keeps.
#[derive(Clone, Copy)]
pub struct CheckCommand<'a>(pub &'a str);

impl fmt::Display for CheckCommand<'_> {
    fn fmt<W: fmt::Write>(&self, f: &mut fmt::Formatter<W>) -> fmt::Result {
        write!(f, "`hpb check --file {}`", Pasted(self.0))
    }
}

/// The options that ask for a journal.
#[derive(Clone, Copy)]
pub struct JournalOptions(pub JournalShape);

impl fmt::Display for JournalOptions {
    fn fmt<W: fmt::Write>(&self, f: &mut fmt::Formatter<W>) -> fmt::Result {
        let frames = self.0.frames;
        match self.0.layout {
            JournalLayout::Pages => write!(f, "--journal {frames}"),
            JournalLayout::Cells => write!(f, "--journal {frames} --layout 2"),
        }
    }
}
