//! Messages to people while an auction is served.

use crate::advice::ScriptAdvice;
use crate::noted::Failures;
use hpb_rules::Refusal;
use hpb_server::SessionFault;
use hpb_words::Escaped;
use std::net::SocketAddr;
use std::{fmt, io};

/// How many notices were lost.
#[derive(Clone, Copy, Debug, PartialEq, Eq)]
pub struct MissedNotices(pub u64);

impl fmt::Display for MissedNotices {
    fn fmt<W: fmt::Write>(&self, f: &mut fmt::Formatter<W>) -> fmt::Result {
        match self.0 {
            1 => f.write_str("1 notice was")?,
            count => write!(f, "{count} notices were")?,
        }
        f.write_str(" not written: nobody read standard error, or memory was refused")
    }
}

/// A call of the disk of this path's file has failed.
#[derive(Clone, Copy)]
pub struct FailedNotice<'a>(pub &'a str);

impl fmt::Display for FailedNotice<'_> {
    fn fmt<W: fmt::Write>(&self, f: &mut fmt::Formatter<W>) -> fmt::Result {
        let (number, word) = (Refusal::Device.number(), Refusal::Device.word());
        let file = Escaped(self.0);
        write!(
            f,
            "{number} {word}: a call of the disk of {file} failed. From now on no command is accepted, and questions are answered still. All that was answered by OK is kept. End all sessions: then it is said here why, and what to do"
        )
    }
}

/// The fate of a file while it was served.
#[derive(Clone, Copy, Debug, PartialEq, Eq)]
pub enum Change {
    /// It has another length, or bytes that somebody else wrote.
    Spoiled,
    /// It has another name.
    Moved,
    /// Its name was removed, or is another file's, and it has another name besides. This is its inode's number.
    Unnamed { inode: u64 },
    /// It has no name any more. Only this process keeps it, which has it open by this descriptor.
    Nameless { process: i32, descriptor: i32 },
}

/// A file that was changed while it was served.
#[derive(Clone, Copy)]
pub struct ChangeNotice<'a> {
    pub path: &'a str,
    pub change: Change,
    /// Whether all sessions have ended.
    pub is_end: bool,
}

impl fmt::Display for ChangeNotice<'_> {
    fn fmt<W: fmt::Write>(&self, f: &mut fmt::Formatter<W>) -> fmt::Result {
        let file = Escaped(self.path);
        match (self.change, self.is_end) {
            (Change::Spoiled, _) => write!(
                f,
                "{file} was cut, made longer or overwritten while it was in use, and may lack commands that get OK: end all sessions, and go back to your newest backup"
            ),
            (Change::Moved, false) => write!(
                f,
                "{file} was moved while it was served: commands that get OK go on into the file that was opened: see that it gets its name again"
            ),
            (Change::Moved, true) => write!(
                f,
                "{file} was moved while it was served: commands that got OK are in the file that was opened, under its other name: see that it gets its name again"
            ),
            (Change::Unnamed { inode }, false) => write!(
                f,
                "{file} was removed or replaced while it was served, but its file has another name, which `find / -inum {inode}` finds: commands that get OK go on into it, and are kept as long as that name stays. See that it gets its name again"
            ),
            (Change::Unnamed { inode }, true) => write!(
                f,
                "{file} was removed or replaced while it was served, but its file has another name, which `find / -inum {inode}` finds: commands that got OK are in it, and are kept as long as that name stays. See that it gets its name again"
            ),
            (
                Change::Nameless {
                    process,
                    descriptor,
                },
                false,
            ) => write!(
                f,
                "{file} was removed or replaced while it was served, and commands that get OK are lost with it when this process ends. Copy it before, while no command comes: `cp /proc/{process}/fd/{descriptor} saved.hpb`"
            ),
            (Change::Nameless { .. }, true) => write!(
                f,
                "{file} was removed or replaced while it was served, and commands that got OK are lost with it, unless it was copied: go back to your newest backup, and send again, in their order, the commands since then"
            ),
        }
    }
}

/// The fate of a connection that asked for a session.
#[derive(Clone, Copy)]
pub enum SeatNotice<'a> {
    /// It took a place.
    Taken { taken: usize, places: usize },
    /// The accept failed.
    Missed(&'a io::Error),
    /// Its session got no thread.
    Refused,
}

impl fmt::Display for SeatNotice<'_> {
    fn fmt<W: fmt::Write>(&self, f: &mut fmt::Formatter<W>) -> fmt::Result {
        match *self {
            SeatNotice::Taken { taken, places } => write!(f, "{taken} of {places} places taken"),
            SeatNotice::Missed(error) => write!(
                f,
                "a connection could not be accepted, and its session has ended: {error}"
            ),
            SeatNotice::Refused => f.write_str(
                "a thread was refused (ulimit -u tells how many there may be): sessions that have one are served to their end, and nobody else is taken",
            ),
        }
    }
}

/// A place of a session, and the other side of its connection.
#[derive(Clone, Copy)]
pub struct PlaceNotice {
    /// Its number, from 1 on.
    pub number: usize,
    /// How many places there are.
    pub places: usize,
    pub peer: SocketAddr,
    pub state: PlaceState,
}

/// The state of a place.
#[derive(Clone, Copy)]
pub enum PlaceState {
    /// A session has it.
    Held,
    /// That session has ended.
    Ended(Ending),
}

impl fmt::Display for PlaceNotice {
    fn fmt<W: fmt::Write>(&self, f: &mut fmt::Formatter<W>) -> fmt::Result {
        let (number, places, peer) = (self.number, self.places, self.peer);
        match self.state {
            PlaceState::Held => write!(f, "place {number} of {places} is held by {peer}"),
            PlaceState::Ended(ending) => write!(
                f,
                "place {number} of {places} ({peer}) has ended: {ending}"
            ),
        }
    }
}

/// How a session over a connection has ended.
#[derive(Clone, Copy)]
pub enum Ending {
    /// The other side has ended the connection.
    Closed,
    /// A fault ended it. If a call of the connection failed, also the last error.
    Failed(SessionFault, Option<io::Error>),
    /// It got another answer than that to its command.
    OutOfOrder,
}

impl fmt::Display for Ending {
    fn fmt<W: fmt::Write>(&self, f: &mut fmt::Formatter<W>) -> fmt::Result {
        match *self {
            Ending::Closed => f.write_str("its connection ended"),
            Ending::Failed(fault, failure) => {
                let (number, word) = (fault.refusal().number(), fault.refusal().word());
                let failures = Failures {
                    reading: failure,
                    writing: failure,
                };
                write!(f, "{number} {word}: {}", ScriptAdvice { fault, failures })
            }
            Ending::OutOfOrder => {
                let (number, word) = (Refusal::Order.number(), Refusal::Order.word());
                write!(
                    f,
                    "{number} {word}: it was given another answer than that to its command"
                )
            }
        }
    }
}
