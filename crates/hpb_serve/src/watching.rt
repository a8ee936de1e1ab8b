//! The watch: reports of events beside the sessions.

use crate::end::EndCause;
use crate::sameness::is_overwritten;
use hpb_disk::Disk;
use hpb_house::{Gate, House, Naming, Point};
use std::cell::Cell;
use std::io;
use std::net::SocketAddr;
use std::sync::Wait;

/// A place that a connection took.
#[derive(Clone, Copy, Debug)]
pub struct Place {
    /// Its number, from 1 on.
    pub number: usize,
    /// How many places there are.
    pub places: usize,
    /// The other side of the connection.
    pub peer: SocketAddr,
}

/// Takes reports of events beside the sessions, and looks after the file or device that they are served from. Several
/// threads call it.
pub trait Watch {
    /// A connection has come, or an accept failed: this many of these places are taken now.
    fn taken(&self, taken: usize, places: usize);

    /// An accept failed, for this reason, and so the session of its place has ended.
    fn missed(&self, error: &io::Error);

    /// The session of a connection that has come begins.
    fn begun(&self, place: &Place);

    /// A session over a connection has ended, for this reason.
    fn ended(&self, place: &Place, cause: EndCause);

    /// A thread was refused, to a worker or to a session: only the sessions that have one are served.
    fn refused_thread(&self);

    /// A call of the device has failed, for the first time: no command is accepted any more.
    fn failed(&self);

    /// Somebody else has written the device, or cut it. This may be reported more than once.
    fn overwritten(&self);

    /// Looks whether the device is still in its place, and warns somebody if it isn't. `true` if it has warned
    /// somebody.
    fn look(&self) -> bool;

    /// The same, once all sessions have ended.
    fn look_last(&self);
}

/// A watch that does nothing.
#[derive(Clone, Copy, Debug)]
pub struct Unwatched;

impl Watch for Unwatched {
    fn taken(&self, _taken: usize, _places: usize) {}

    fn missed(&self, _error: &io::Error) {}

    fn begun(&self, _place: &Place) {}

    fn ended(&self, _place: &Place, _cause: EndCause) {}

    fn refused_thread(&self) {}

    fn failed(&self) {}

    fn overwritten(&self) {}

    fn look(&self) -> bool {
        false
    }

    fn look_last(&self) {}
}

/// The gate of a checkpointer. At each checkpoint it compares the device with the house's own bytes until they differ,
/// and has the watch look until that has warned somebody. It reports a failed device to the watch.
#[derive(Drop)]
pub(crate) struct Rounds<'a, D: Disk + Drop, W: Wait + Drop, J: Naming, V> {
    house: &'a House<D, W, J>,
    watch: &'a V,
    is_overwritten: Cell<bool>,
    has_told: Cell<bool>,
}

impl<'a, D: Disk + Drop, W: Wait + Drop, J: Naming, V: Watch> Rounds<'a, D, W, J, V> {
    pub(crate) fn new(house: &'a House<D, W, J>, watch: &'a V) -> Rounds<'a, D, W, J, V> {
        Rounds {
            house,
            watch,
            is_overwritten: Cell::new(false),
            has_told: Cell::new(false),
        }
    }

    /// Does so at the beginning of a checkpoint.
    fn look<R: Wait>(&self, rt: &R) {
        if !self.is_overwritten.get() && is_overwritten(rt, self.house) {
            self.is_overwritten.set(true);
            self.watch.overwritten();
        }
        if !self.has_told.get() {
            self.has_told.set(self.watch.look());
        }
    }
}

impl<D: Disk + Drop, W: Wait + Drop, J: Naming, V: Watch> Gate for Rounds<'_, D, W, J, V> {
    fn at<R: Wait>(&self, rt: &R, point: Point) {
        match point {
            Point::Page(0) => self.look(rt),
            Point::Failed => self.watch.failed(),
            _ => {}
        }
    }
}

/// Compares the device, and has the watch look, once all sessions have ended.
pub(crate) fn look_last<D: Disk + Drop, W: Wait + Drop, J: Naming, V: Watch, R: Wait>(
    rt: &R,
    house: &House<D, W, J>,
    watch: &V,
) {
    if is_overwritten(rt, house) {
        watch.overwritten();
    }
    watch.look_last();
}
