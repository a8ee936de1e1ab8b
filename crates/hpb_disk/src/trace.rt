//! The calls of a device, in a list that only proofs see. It takes no memory.
ghost use Rattle.std.specs.Prelude.{◌≡◌, List, ℕ, [], ◌∷◌};
ghost use Rattle.std.specs.Borrow.{ftrue};
ghost use Rattle.hpb_disk.specs.Events.{Event, event_of};

use std::marker::{Model, PhantomData};

// The kinds of an entry, as `call_of` and `asked_by` read them.
const READ: u64 = 0;

const WROTE: u64 = 1;

const SYNCED: u64 = 2;

const WRITE_FAILED: u64 = 3;

const READ_FAILED: u64 = 4;

const WRITE_REFUSED: u64 = 5;

const SYNC_FAILED: u64 = 6;

// The kinds of an entry of a device that is made to fail, as `passed_on` and `fault_of` read them.
const PASSED: u64 = 0;

const HELD: u64 = 1;

const BROKEN: u64 = 2;

/// In clauses `first` is the image at the start, and `events` has the calls, the newest first.
#[derive(Drop)]
pub struct Trace {
    marker: PhantomData<u8>,
    pub ghost first: { List ℕ },
    pub ghost events: { List Event },
}

impl Model for Trace {
    ghost also_owns = { λ _. ftrue };
}

impl Trace {
    pub(crate) fn new(_first: &[u8]) -> Trace
        ensures { (result.first ≡ _first.now) × (result.events ≡ []) }
    {
        Trace {
            marker: PhantomData,
        }
    }

    /// Adds an entry. The numbers are a kind and an offset.
    fn note(&mut self, _numbers: &[u64], _bytes: &[u8])
        ensures { (self.new.first ≡ self.old.first) × (self.new.events ≡ event_of _numbers.now _bytes.now ∷ self.old.events) }
    {}

    /// A read was done.
    pub(crate) fn read(&mut self)
        ensures { (self.new.first ≡ self.old.first) × (self.new.events ≡ event_of (0 ∷ 0 ∷ []) [] ∷ self.old.events) }
    {
        self.note(&[READ, 0], &[]);
    }

    /// A write was done.
    pub(crate) fn wrote(&mut self, at: usize, bytes: &[u8])
        ensures { (self.new.first ≡ self.old.first) × (self.new.events ≡ event_of (1 ∷ at ∷ []) bytes.now ∷ self.old.events) }
    {
        self.note(&[WROTE, at as u64], bytes);
    }

    /// A sync was done.
    pub(crate) fn synced(&mut self)
        ensures { (self.new.first ≡ self.old.first) × (self.new.events ≡ event_of (2 ∷ 0 ∷ []) [] ∷ self.old.events) }
    {
        self.note(&[SYNCED, 0], &[]);
    }

    /// A write failed, and may have been done in part.
    pub(crate) fn write_failed(&mut self, at: usize, bytes: &[u8])
        ensures { (self.new.first ≡ self.old.first) × (self.new.events ≡ event_of (3 ∷ at ∷ []) bytes.now ∷ self.old.events) }
    {
        self.note(&[WRITE_FAILED, at as u64], bytes);
    }

    /// A read failed.
    pub(crate) fn read_failed(&mut self)
        ensures { (self.new.first ≡ self.old.first) × (self.new.events ≡ event_of (4 ∷ 0 ∷ []) [] ∷ self.old.events) }
    {
        self.note(&[READ_FAILED, 0], &[]);
    }

    /// A write failed, and did nothing.
    pub(crate) fn write_refused(&mut self, at: usize, bytes: &[u8])
        ensures { (self.new.first ≡ self.old.first) × (self.new.events ≡ event_of (5 ∷ at ∷ []) bytes.now ∷ self.old.events) }
    {
        self.note(&[WRITE_REFUSED, at as u64], bytes);
    }

    /// A sync failed.
    pub(crate) fn sync_failed(&mut self)
        ensures { (self.new.first ≡ self.old.first) × (self.new.events ≡ event_of (6 ∷ 0 ∷ []) [] ∷ self.old.events) }
    {
        self.note(&[SYNC_FAILED, 0], &[]);
    }

    /// A call was passed on.
    pub(crate) fn passed(&mut self)
        ensures { (self.new.first ≡ self.old.first) × (self.new.events ≡ event_of (0 ∷ 0 ∷ []) [] ∷ self.old.events) }
    {
        self.note(&[PASSED, 0], &[]);
    }

    /// A call failed because of its number, and wasn't passed on.
    pub(crate) fn held(&mut self)
        ensures { (self.new.first ≡ self.old.first) × (self.new.events ≡ event_of (1 ∷ 0 ∷ []) [] ∷ self.old.events) }
    {
        self.note(&[HELD, 0], &[]);
    }

    /// A write was passed on, and answered as failed.
    pub(crate) fn broken(&mut self)
        ensures { (self.new.first ≡ self.old.first) × (self.new.events ≡ event_of (2 ∷ 0 ∷ []) [] ∷ self.old.events) }
    {
        self.note(&[BROKEN, 0], &[]);
    }
}
