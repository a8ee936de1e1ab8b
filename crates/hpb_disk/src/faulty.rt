//! A device that is made to fail: from one call on, or at one call alone.
ghost use Rattle.std.specs.Prelude.{◌≡◌, ◌+◌, ◌-◌, ◌≤◌, Bool, true, false, [], ◌∷◌, length, IsErr, OnOk};
ghost use Rattle.hpb_disk.specs.Images.{part, put, Only, TornFrom};
ghost use Rattle.hpb_disk.specs.Device.{IsUnchanged, LeavesOnly, MakesCall};
ghost use Rattle.hpb_disk.specs.Faults.{faults_of, faults_among, is_fault, is_late};

use crate::trace::Trace;
use crate::{Disk, DiskFailed};
use std::marker::PhantomData;

/// What happens to the calls after the first that fails.
pub trait Faults {
    /// Whether they fail too.
    const LATER: bool;

    ghost LATER: { Bool };
}

/// All of them fail too.
#[derive(Drop)]
pub struct FromThenOn;

impl Faults for FromThenOn {
    const LATER: bool = true;

    ghost LATER = { true };
}

/// They are passed on, like those before it.
#[derive(Drop)]
pub struct ThatAlone;

impl Faults for ThatAlone {
    const LATER: bool = false;

    ghost LATER = { false };
}

/// A device whose calls all fail from one on.
pub type FuseDisk<D> = FaultyDisk<D, FromThenOn>;

/// A device of whose calls one fails.
pub type OnceDisk<D> = FaultyDisk<D, ThatAlone>;

/// Passes calls on to the device behind it, except those that fail because of their numbers. If the first of these is a
/// write, it is passed on too and answered as failed; no other of them is passed on.
#[derive(Drop)]
pub struct FaultyDisk<D: Disk + Drop, F: Faults> {
    inner: D,
    // The number of the first call that fails; and how many calls are left until then, 0 once it has come.
    fault: u64,
    away: u64,
    trace: Trace,
    // The calls that it was asked for itself.
    asked: Trace,
    kind: PhantomData<F>,
    ghost counted: { away ≡ fault - length trace.events },
    ghost fails: { faults_of trace.events ≡ faults_among F.LATER fault (length trace.events) },
}

impl<D: Disk + Drop, F: Faults> FaultyDisk<D, F> {
    ghost use Rattle.hpb_disk.specs.FaultyDisks.{inner as inner_of, fault as fault_of_disk, calls, own_faults};

    /// A device on which the call with this number is the first that fails. Calls count from 1; so at 0 a `FuseDisk`
    /// fails all calls, and a `OnceDisk` none.
    pub fn new(inner: D, fault: u64) -> FaultyDisk<D, F>
        ensures inner { inner_of result ≡ inner }
        ensures fault { fault_of_disk result ≡ fault }
        ensures calls { calls result ≡ 0 }
    {
        FaultyDisk {
            inner,
            fault,
            away: fault,
            trace: Trace::new(&[]),
            asked: Trace::new(&[]),
            kind: PhantomData,
        }
    }

    /// The device behind it.
    pub fn into_inner(self) -> D
        ensures { result ≡ inner_of self }
    {
        self.inner
    }

    /// The number of the first call that fails. As many of its calls have failed by themselves as must fail because of
    /// their numbers.
    pub fn fault(&self) -> u64
        ensures fault { result ≡ fault_of_disk self.now }
        ensures faults { own_faults self.now ≡ faults_among F.LATER result (calls self.now) }
    {
        self.fault
    }

    /// Whether the next call fails because it comes after the first that fails.
    fn is_next_late(&self) -> bool
        ensures { result ≡ is_late F.LATER (fault_of_disk self.now) (calls self.now + 1) }
    {
        F::LATER && self.away == 0
    }

    /// Whether the next call fails because of its number.
    fn is_next_fault(&self) -> bool
        ensures { result ≡ is_fault F.LATER (fault_of_disk self.now) (calls self.now + 1) }
    {
        self.away == 1 || self.is_next_late()
    }
}

impl<D: Disk + Drop, F: Faults> Disk for FaultyDisk<D, F> {
    ghost use Rattle.hpb_disk.specs.FaultyDisks.{inner as inner_of, behind, fault as fault_of_disk, calls, faulty_device};
    ghost use Rattle.hpb_disk.specs.Asked.Asked.{writes, syncs};

    ghost device = { faulty_device };

    fn len(&self) -> usize {
        self.inner.len()
    }

    fn read_into(&mut self, at: usize, out: &mut [u8]) -> Result<(), DiskFailed>
        requires range { at + length out.old ≤ length (faulty_device self.old).seen }
        ensures bytes { OnOk result (out.new ≡ part at (length out.old) (faulty_device self.old).seen) }
        ensures unchanged { IsUnchanged (faulty_device self.old) (faulty_device self.new) }
        ensures call { MakesCall result [] (faulty_device self.old) (faulty_device self.new) }
        // Beyond the trait: which calls fail, and which reach the device behind it.
        ensures fault { fault_of_disk self.new ≡ fault_of_disk self.old }
        ensures fails { is_fault F.LATER (fault_of_disk self.old) (calls self.old + 1) ≡ true → IsErr result }
        ensures held { is_fault F.LATER (fault_of_disk self.old) (calls self.old + 1) ≡ true → inner_of self.new ≡ inner_of self.old }
        ensures passed { is_fault F.LATER (fault_of_disk self.old) (calls self.old + 1) ≡ false → (behind self.new).moment ≡ (behind self.old).moment + 1 }
    {
        let fails = self.is_next_fault();
        self.away = self.away.saturating_sub(1);
        if fails {
            self.trace.held();
            self.asked.read_failed();
            return Err(DiskFailed);
        }
        self.trace.passed();
        match self.inner.read_into(at, out) {
            Ok(()) => {
                self.asked.read();
                Ok(())
            }
            Err(failed) => {
                self.asked.read_failed();
                Err(failed)
            }
        }
    }

    fn write_at(&mut self, at: usize, bytes: &[u8]) -> Result<(), DiskFailed>
        requires range { at + length bytes.now ≤ length (faulty_device self.old).seen }
        ensures written { OnOk result ((faulty_device self.new).seen ≡ put at bytes.now (faulty_device self.old).seen) }
        ensures size { length (faulty_device self.new).seen ≡ length (faulty_device self.old).seen }
        ensures crash { LeavesOnly (faulty_device self.old) (faulty_device self.new)
            (TornFrom at (length bytes.now) (faulty_device self.old).may_leave) }
        ensures call { MakesCall result (writes at bytes.now ∷ []) (faulty_device self.old) (faulty_device self.new) }
        // Beyond the trait: which calls fail, and which reach the device behind it.
        ensures fault { fault_of_disk self.new ≡ fault_of_disk self.old }
        ensures fails { is_fault F.LATER (fault_of_disk self.old) (calls self.old + 1) ≡ true → IsErr result }
        ensures held { is_late F.LATER (fault_of_disk self.old) (calls self.old + 1) ≡ true → inner_of self.new ≡ inner_of self.old }
        ensures passed { is_late F.LATER (fault_of_disk self.old) (calls self.old + 1) ≡ false → (behind self.new).moment ≡ (behind self.old).moment + 1 }
        ensures behind { is_late F.LATER (fault_of_disk self.old) (calls self.old + 1) ≡ false → (behind self.new).failures ≡ (behind self.old).failures
            → (faulty_device self.new).seen ≡ put at bytes.now (faulty_device self.old).seen }
    {
        if self.is_next_late() {
            self.trace.held();
            self.asked.write_refused(at, bytes);
            return Err(DiskFailed);
        }
        let fails = self.is_next_fault();
        self.away = self.away.saturating_sub(1);
        let answer = self.inner.write_at(at, bytes);
        if fails {
            self.trace.broken();
            self.asked.write_refused(at, bytes);
            return Err(DiskFailed);
        }
        self.trace.passed();
        match answer {
            Ok(()) => {
                self.asked.wrote(at, bytes);
                Ok(())
            }
            Err(failed) => {
                self.asked.write_refused(at, bytes);
                Err(failed)
            }
        }
    }

    fn sync(&mut self) -> Result<(), DiskFailed>
        ensures durable { OnOk result (Only (faulty_device self.old).seen (faulty_device self.new).may_leave) }
        ensures seen { (faulty_device self.new).seen ≡ (faulty_device self.old).seen }
        ensures crash { LeavesOnly (faulty_device self.old) (faulty_device self.new) (faulty_device self.old).may_leave }
        ensures call { MakesCall result (syncs ∷ []) (faulty_device self.old) (faulty_device self.new) }
        // Beyond the trait: which calls fail, and which reach the device behind it.
        ensures fault { fault_of_disk self.new ≡ fault_of_disk self.old }
        ensures fails { is_fault F.LATER (fault_of_disk self.old) (calls self.old + 1) ≡ true → IsErr result }
        ensures held { is_fault F.LATER (fault_of_disk self.old) (calls self.old + 1) ≡ true → inner_of self.new ≡ inner_of self.old }
        ensures passed { is_fault F.LATER (fault_of_disk self.old) (calls self.old + 1) ≡ false → (behind self.new).moment ≡ (behind self.old).moment + 1 }
    {
        let fails = self.is_next_fault();
        self.away = self.away.saturating_sub(1);
        if fails {
            self.trace.held();
            self.asked.sync_failed();
            return Err(DiskFailed);
        }
        self.trace.passed();
        match self.inner.sync() {
            Ok(()) => {
                self.asked.synced();
                Ok(())
            }
            Err(failed) => {
                self.asked.sync_failed();
                Err(failed)
            }
        }
    }

    fn still_holds(&self, at: usize, room: &mut [u8]) -> bool {
        self.inner.still_holds(at, room)
    }
}
