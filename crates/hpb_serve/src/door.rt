//! The door: each session takes its own connection there, in its own thread.

use crate::watching::{Place, Watch};
use std::net::{TcpListener, TcpStream};
use std::sync::atomic::{AtomicUsize, Ordering};
use std::sync::{Mutex, MutexGuard, Wait};
use std::thread::Parker;
use std::time::Duration;

/// After an accept that failed, how long none is tried, in milliseconds. Whatever was missing may be there then.
const MISSED_WAIT: u64 = 100;

/// A connection that was accepted.
#[derive(Drop)]
pub(crate) struct Guest {
    pub(crate) stream: TcpStream,
    pub(crate) place: Place,
}

/// The state under the door's lock.
#[derive(Drop)]
pub(crate) struct Entry {
    /// `None` once the last place is taken.
    listener: Option<TcpListener>,
    /// How many places are taken.
    taken: usize,
}

impl Entry {
    /// Takes the next place, and waits for its connection. If the accept fails, the session of that place has ended.
    fn take<R: Wait, V: Watch>(&mut self, rt: &R, watch: &V, places: usize) -> Option<Guest> {
        let Some(listener) = &self.listener else {
            return None;
        };
        let accepted = listener.accept();
        self.taken = self.taken.saturating_add(1);
        let number = self.taken;
        match accepted {
            Ok((stream, peer)) => {
                watch.taken(number, places);
                let place = Place {
                    number,
                    places,
                    peer,
                };
                watch.begun(&place);
                Some(Guest { stream, place })
            }
            Err(error) => {
                watch.missed(&error);
                Parker::new().park_timeout(rt, Duration::from_millis(MISSED_WAIT));
                watch.taken(number, places);
                None
            }
        }
    }
}

/// The door of a house. One session at a time waits there for its connection, and the last one closes the door behind
/// itself.
#[derive(Drop)]
pub(crate) struct Door {
    entry: Mutex<Entry>,
    /// How many places there are.
    places: usize,
    /// How many sessions have a thread: the first ones. The others never come in.
    sessions: AtomicUsize,
}

impl Door {
    /// A door for this many sessions. Each counts as having a thread until `admit` says otherwise.
    pub(crate) fn new(listener: TcpListener, places: usize) -> Door {
        let entry = Entry {
            listener: Some(listener),
            taken: 0,
        };
        Door {
            entry: Mutex::new(entry),
            places,
            sessions: AtomicUsize::new(places),
        }
    }

    /// Keeps the door shut until the guard is dropped.
    pub(crate) fn hold<R: Wait>(&self, rt: &R) -> MutexGuard<'_, Entry> {
        self.entry.lock(rt)
    }

    /// Admits this many sessions, the first ones, since no more have a thread.
    pub(crate) fn admit(&self, sessions: usize) {
        self.sessions.store(sessions, Ordering::SeqCst);
    }

    /// Waits for the connection of the session of this number, from 0 on. `None` if the accept fails, and at once if
    /// that session has no thread.
    pub(crate) fn enter<R: Wait, V: Watch>(
        &self,
        rt: &R,
        watch: &V,
        session: usize,
    ) -> Option<Guest> {
        if session >= self.sessions.load(Ordering::SeqCst) {
            return None;
        }
        let mut guard = self.entry.lock(rt);
        let entry = &mut *guard;
        let guest = entry.take(rt, watch, self.places);
        if entry.taken >= self.sessions.load(Ordering::SeqCst) {
            entry.listener = None;
        }
        guest
    }
}
