//! The watch over a served file, which reports events beside its sessions to people.

use crate::relay::Relay;
use hpb_disk::{FileDisk, FileFault};
use hpb_messages::{
    Change, ChangeNotice, Ending, FailedNotice, Meddling, PlaceNotice, PlaceState, SeatNotice,
};
use hpb_serve::{EndCause, Place, Watch};
use std::alloc::{AllocError, Global};
use std::fs::{File, Files};
use std::io;
use std::os::fd::AsRawFd;
use std::os::unix::fs::MetadataExt;
use std::sync::atomic::{AtomicBool, Ordering};

/// The folder in which the system shows the names of the files that this process has open, by their descriptors.
const NAMES: &str = "/proc/self/fd";

/// The system puts this behind the name of an open file if that name is gone or another file's.
const GONE: &[u8] = b" (deleted)";

/// The name of an open file, how many names it has, its length, and its inode's number.
#[derive(Drop)]
struct Seen {
    name: Vec<u8>,
    /// How many names it has.
    names: u64,
    len: u64,
    inode: u64,
}

impl Seen {
    /// These facts as they are now. The name changes if the file is moved, removed or replaced. It is empty if the
    /// system shows none.
    fn of(alloc: Global, file: &File) -> Result<Seen, FileFault> {
        let found = file.metadata()?;
        Ok(Seen {
            name: name_of(alloc, file)?,
            names: found.nlink(),
            len: found.len(),
            inode: found.ino(),
        })
    }

    /// Whether the file has lost the name that it had before.
    fn has_lost(&self, before: &Seen) -> bool {
        self.name.as_slice().strip_suffix(GONE) == Some(before.name.as_slice())
    }
}

fn name_of(alloc: Global, file: &File) -> Result<Vec<u8>, AllocError> {
    let link = format!(in alloc; "{NAMES}/{}", file.as_raw_fd())?;
    let mut name = [0; libc::PATH_MAX];
    let count = usize::try_from(os::readlink(link.as_bytes(), &mut name)).unwrap_or(0);
    name[..count.min(libc::PATH_MAX)].to_vec(alloc)
}

/// A watch over the file that is served. It sends notices through a relay, and waits for nobody.
#[derive(Drop)]
pub(crate) struct Lookout<'a> {
    alloc: Global,
    path: &'a str,
    /// The file, opened once more.
    file: File,
    seen: Seen,
    /// Whether somebody else has cut the file, made it longer or written it. If so, a notice was sent.
    is_spoiled: AtomicBool,
    relay: &'a Relay,
}

impl<'a> Lookout<'a> {
    /// A watch over the file of a path, from which a device was opened. Refused with 91 `device` if the path leads to
    /// another file by now, and with 90 `memory` if memory is refused.
    pub(crate) fn new<H: Files<File = File>>(
        rt: &H,
        alloc: Global,
        path: &'a str,
        disk: &FileDisk,
        relay: &'a Relay,
    ) -> Result<Lookout<'a>, FileFault> {
        let file = File::open(rt, path)?;
        // This comparison comes after the opening: a file that replaced this one in between would be watched instead.
        if !disk.stamp()?.is_at(rt, path) {
            return Err(FileFault::Busy);
        }
        let seen = Seen::of(alloc, &file)?;
        Ok(Lookout {
            alloc,
            path,
            file,
            seen,
            is_spoiled: AtomicBool::new(false),
            relay,
        })
    }
}

impl Lookout<'_> {
    /// What somebody else was seen to have done to the file's bytes or length since it was opened.
    pub(crate) fn meddling(&self) -> Option<Meddling> {
        if self.is_spoiled.load(Ordering::SeqCst) {
            return Some(Meddling::Spoiled);
        }
        None
    }

    /// Sends a notice, once, that somebody else has cut the file, made it longer or written it.
    fn tell_spoiled(&self, is_end: bool) {
        if !self.is_spoiled.swap(true, Ordering::SeqCst) {
            self.tell(Change::Spoiled, is_end);
        }
    }

    fn tell(&self, change: Change, is_end: bool) {
        let path = self.path;
        self.relay.notify(ChangeNotice {
            path,
            change,
            is_end,
        });
    }

    /// The change of the file's name between its opening and `seen`, if there is one.
    fn change_of_name(&self, seen: &Seen) -> Option<Change> {
        if seen.names == 0 {
            return Some(Change::Nameless {
                process: libc::getpid(),
                descriptor: self.file.as_raw_fd(),
            });
        }
        if seen.has_lost(&self.seen) {
            return Some(Change::Unnamed { inode: seen.inode });
        }
        if seen.name.as_slice() != self.seen.name.as_slice() {
            return Some(Change::Moved);
        }
        None
    }

    /// Sends notices of changes of the file's length and name. `false` if there is none.
    fn tell_change(&self, is_end: bool) -> bool {
        let Ok(seen) = Seen::of(self.alloc, &self.file) else {
            return false;
        };
        let has_length = seen.len == self.seen.len;
        if !has_length {
            self.tell_spoiled(is_end);
        }
        let change = self.change_of_name(&seen);
        if let Some(change) = change {
            self.tell(change, is_end);
        }
        change.is_some() || !has_length
    }

    fn tell_of_place(&self, place: &Place, state: PlaceState) {
        let notice = PlaceNotice {
            number: place.number,
            places: place.places,
            peer: place.peer,
            state,
        };
        self.relay.notify(notice);
    }
}

impl Watch for Lookout<'_> {
    fn taken(&self, taken: usize, places: usize) {
        self.relay.notify(SeatNotice::Taken { taken, places });
    }

    fn missed(&self, error: &io::Error) {
        self.relay.notify(SeatNotice::Missed(error));
    }

    fn begun(&self, place: &Place) {
        self.tell_of_place(place, PlaceState::Held);
    }

    fn ended(&self, place: &Place, cause: EndCause) {
        let ending = match cause {
            EndCause::Closed => Ending::Closed,
            EndCause::Fault(fault, failure) => Ending::Failed(fault, failure),
            EndCause::Order => Ending::OutOfOrder,
        };
        self.tell_of_place(place, PlaceState::Ended(ending));
    }

    fn refused_thread(&self) {
        self.relay.notify(SeatNotice::Refused);
    }

    fn failed(&self) {
        self.relay.notify(FailedNotice(self.path));
    }

    fn overwritten(&self) {
        self.tell_spoiled(false);
    }

    fn look(&self) -> bool {
        self.tell_change(false)
    }

    fn look_last(&self) {
        self.tell_change(true);
    }
}
