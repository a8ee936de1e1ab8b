//! A device in memory, which keeps a record of its calls.
ghost use Rattle.std.specs.Prelude.{◌≡◌, ◌+◌, ◌≤◌, [], ◌∷◌, ◌++◌, length, drop, replicate, vec_len, OnOk, OnErr, IfOk, MatchResult};
ghost use Rattle.hpb_disk.specs.Images.{part, put, Only, TornFrom};
ghost use Rattle.hpb_disk.specs.Device.{IsSettled, IsUnchanged, LeavesOnly, MakesCall};
ghost use Rattle.hpb_disk.specs.Calls.{calls_of, seen_of, failures_of, base_of, pending_of};
ghost use Rattle.hpb_disk.specs.Fates.{stopped};
ghost use Rattle.hpb_disk.specs.Records.{writes_of};

use crate::done::Done;
use crate::stop::stop_one;
use crate::trace::Trace;
use crate::{Disk, DiskFailed, Fate};
use std::alloc::{AllocError, Global};

/// A device whose bytes are in memory. A call fails only if its record can't grow; such a call does nothing else.
#[derive(Drop)]
pub struct MemoryDisk {
    alloc: Global,
    // The bytes that a read gives.
    bytes: Vec<u8>,
    // The bytes at the newest sync.
    base: Vec<u8>,
    // The calls that were done, and how many of them the newest sync covers.
    done: Vec<Done>,
    covered: usize,
    trace: Trace,
    ghost shown: { bytes.items ≡ seen_of trace.first (calls_of trace.events) },
    ghost based: { base.items ≡ base_of trace.first (calls_of trace.events) },
    ghost sized: { length base.items ≡ length bytes.items },
    ghost inside: { covered ≤ length done.items },
    ghost pending: { writes_of (drop covered done.items) ≡ pending_of (calls_of trace.events) },
    ghost counted: { length done.items + failures_of (calls_of trace.events) ≡ length (calls_of trace.events) },
}

pub(crate) fn overwrite(image: &mut Vec<u8>, at: usize, bytes: &[u8])
    requires { at + length bytes.now ≤ vec_len image.old }
    ensures { image.new.items ≡ put at bytes.now image.old.items }
{
    image[at..at + bytes.len()].copy_from_slice(bytes);
}

fn keep(done: &mut Vec<Done>, one: Done) -> Result<(), AllocError>
    ensures ok { OnOk result (done.new.items ≡ done.old.items ++ one ∷ []) }
    ensures err { OnErr result (done.new.items ≡ done.old.items) }
{
    done.push(one)?;
    Ok(())
}

fn keep_write(
    alloc: Global,
    done: &mut Vec<Done>,
    at: usize,
    bytes: &[u8],
) -> Result<(), AllocError>
    ensures ok { OnOk result ((v : _) × (v.items ≡ bytes.now) × (done.new.items ≡ done.old.items ++ Done.Write at v ∷ [])) }
    ensures err { OnErr result (done.new.items ≡ done.old.items) }
{
    let bytes = bytes.to_vec(alloc)?;
    keep(done, Done::Write(at, bytes))?;
    Ok(())
}

impl MemoryDisk {
    ghost use Rattle.hpb_disk.specs.MemoryDisks.{memory_calls, memory_device, memory_base, memory_pending};

    /// A device of `len` zero bytes, without a call so far.
    pub fn zeros(alloc: Global, len: usize) -> Result<MemoryDisk, AllocError>
        ensures seen { IfOk result (λ disk. (memory_device disk).seen ≡ replicate len 0) }
        ensures settled { IfOk result (λ disk. IsSettled (memory_device disk)) }
        ensures base { IfOk result (λ disk. memory_base disk ≡ (memory_device disk).seen) }
        ensures fresh { IfOk result (λ disk. memory_calls disk ≡ []) }
    {
        MemoryDisk::of(alloc, vec![in alloc; 0; len]?)
    }

    /// A device that holds these bytes, without a call so far, so that no write is pending.
    pub fn of(alloc: Global, bytes: Vec<u8>) -> Result<MemoryDisk, AllocError>
        ensures seen { IfOk result (λ disk. (memory_device disk).seen ≡ bytes.items) }
        ensures settled { IfOk result (λ disk. IsSettled (memory_device disk)) }
        ensures base { IfOk result (λ disk. memory_base disk ≡ (memory_device disk).seen) }
        ensures fresh { IfOk result (λ disk. memory_calls disk ≡ []) }
    {
        let base = bytes.to_vec(alloc)?;
        let trace = Trace::new(&bytes);
        Ok(MemoryDisk {
            alloc,
            bytes,
            base,
            done: Vec::new(alloc),
            covered: 0,
            trace,
        })
    }

    /// A device with an image that a stop may leave now. The writes that no sync covers, the oldest first, each take
    /// the next fate of `pick`. If there are too few fates, the other writes are lost.
    pub fn after_stop(&self, alloc: Global, pick: &[Fate]) -> Result<MemoryDisk, AllocError>
        ensures image { IfOk result (λ disk. (memory_device disk).seen ≡ stopped (memory_pending self.now) pick.now (memory_base self.now)) }
        ensures may_stay { IfOk result (λ disk. (memory_device self.now).may_leave (memory_device disk).seen) }
        ensures settled { IfOk result (λ disk. IsSettled (memory_device disk)) }
        ensures base { IfOk result (λ disk. memory_base disk ≡ (memory_device disk).seen) }
        ensures fresh { IfOk result (λ disk. memory_calls disk ≡ []) }
    {
        let mut image = self.base.to_vec(alloc)?;
        let mut fates = pick;
        for done in &self.done[self.covered..] {
            fates = stop_one(alloc, &mut image, done, fates)?;
        }
        let stopped = MemoryDisk::of(alloc, image)?;
        Ok(stopped)
    }

    /// How many calls are in its record: all reads, writes and syncs that succeeded.
    pub fn calls(&self) -> usize
        ensures { result + (memory_device self.now).failures ≡ (memory_device self.now).moment }
    {
        self.done.len()
    }
}

impl Disk for MemoryDisk {
    ghost use Rattle.hpb_disk.specs.MemoryDisks.{memory_calls, memory_device};
    ghost use Rattle.hpb_disk.specs.Asked.Asked.{writes, syncs};
    ghost use Rattle.hpb_disk.specs.Calls.Call.{read, wrote, synced, failed};

    ghost device = { memory_device };

    fn len(&self) -> usize {
        self.bytes.len()
    }

    fn read_into(&mut self, at: usize, out: &mut [u8]) -> Result<(), DiskFailed>
        requires range { at + length out.old ≤ length (memory_device self.old).seen }
        ensures bytes { OnOk result (out.new ≡ part at (length out.old) (memory_device self.old).seen) }
        ensures unchanged { IsUnchanged (memory_device self.old) (memory_device self.new) }
        ensures call { MakesCall result [] (memory_device self.old) (memory_device self.new) }
        // Beyond the trait: the call that is put into the record.
        ensures called { MatchResult result
            (λ _. memory_calls self.new ≡ read ∷ memory_calls self.old)
            (λ _. memory_calls self.new ≡ failed ∷ memory_calls self.old) }
    {
        match keep(&mut self.done, Done::Read) {
            Ok(()) => {
                out.copy_from_slice(&self.bytes[at..at + out.len()]);
                self.trace.read();
                Ok(())
            }
            Err(_) => {
                self.trace.read_failed();
                Err(DiskFailed)
            }
        }
    }

    fn write_at(&mut self, at: usize, bytes: &[u8]) -> Result<(), DiskFailed>
        requires range { at + length bytes.now ≤ length (memory_device self.old).seen }
        ensures written { OnOk result ((memory_device self.new).seen ≡ put at bytes.now (memory_device self.old).seen) }
        ensures size { length (memory_device self.new).seen ≡ length (memory_device self.old).seen }
        ensures crash { LeavesOnly (memory_device self.old) (memory_device self.new)
            (TornFrom at (length bytes.now) (memory_device self.old).may_leave) }
        ensures call { MakesCall result (writes at bytes.now ∷ []) (memory_device self.old) (memory_device self.new) }
        // Beyond the trait: the call that is put into the record.
        ensures called { MatchResult result
            (λ _. memory_calls self.new ≡ wrote at bytes.now ∷ memory_calls self.old)
            (λ _. memory_calls self.new ≡ failed ∷ memory_calls self.old) }
    {
        match keep_write(self.alloc, &mut self.done, at, bytes) {
            Ok(()) => {
                overwrite(&mut self.bytes, at, bytes);
                self.trace.wrote(at, bytes);
                Ok(())
            }
            Err(_) => {
                self.trace.write_refused(at, bytes);
                Err(DiskFailed)
            }
        }
    }

    #[tactic(auto, using(crate::proofs::Steps::synced_leaves))]
    fn sync(&mut self) -> Result<(), DiskFailed>
        ensures durable { OnOk result (Only (memory_device self.old).seen (memory_device self.new).may_leave) }
        ensures seen { (memory_device self.new).seen ≡ (memory_device self.old).seen }
        ensures crash { LeavesOnly (memory_device self.old) (memory_device self.new) (memory_device self.old).may_leave }
        ensures call { MakesCall result (syncs ∷ []) (memory_device self.old) (memory_device self.new) }
        // Beyond the trait: the call that is put into the record.
        ensures called { MatchResult result
            (λ _. memory_calls self.new ≡ synced ∷ memory_calls self.old)
            (λ _. memory_calls self.new ≡ failed ∷ memory_calls self.old) }
    {
        match keep(&mut self.done, Done::Sync) {
            Ok(()) => {
                self.base.copy_from_slice(&self.bytes);
                self.covered = self.done.len();
                self.trace.synced();
                Ok(())
            }
            Err(_) => {
                self.trace.sync_failed();
                Err(DiskFailed)
            }
        }
    }

    fn still_holds(&self, at: usize, room: &mut [u8]) -> bool {
        room.copy_from_slice(&self.bytes[at..at + room.len()]);
        true
    }
}
