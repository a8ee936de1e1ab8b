//! A device in a file of the operating system.
ghost use Rattle.std.specs.Prelude.{◌≡◌, ◌+◌, ◌≤◌, ◌^◌, true, false, [], ◌∷◌, length, replicate, IsErr, IfOk, OnOk, OnErr, MatchResult};
ghost use Rattle.hpb_disk.specs.Images.{part, put, Only, TornFrom};
ghost use Rattle.hpb_disk.specs.Device.{IsSettled, IsUnchanged, LeavesOnly, MakesCall};
ghost use Rattle.hpb_disk.specs.Calls.{calls_of, seen_of};

use crate::memory::overwrite;
use crate::opening::{
    Share, are_same, beside, check_descriptor, check_free, check_limit, check_owner, fill_and_name,
    forget_beside, lock, look_at, open_beside, open_folder, settle, sync_names,
};
use crate::stamp::FileStamp;
use crate::trace::Trace;
use crate::{Disk, DiskFailed, FileFault};
use std::alloc::Global;
use std::fs::{self, File, Files};
use std::io;
use std::io::ErrorKind;
use std::os::unix::fs::FileExt;
use std::path::Path;

/// The most bytes that a device in a file may have, since a copy of them is kept in memory.
pub const MOST_BYTES: u64 = 1 << 26;

/// A device whose bytes are those of a file. It holds a lock of the file while it lives. The lock is exclusive; a
/// device that only reads shares it with others that only read.
///
/// A read compares the file with a copy in memory: if they differ, the read fails. After a write or a sync that failed,
/// every later call fails. Part of such a write may be in the file, so a later sync that succeeded would keep bytes
/// that the copy doesn't have. After a failed sync the system may have dropped bytes that it couldn't write, and report
/// that only once.
#[derive(Drop)]
pub struct FileDisk {
    file: File,
    bytes: Vec<u8>,
    broken: bool,
    code: Option<i32>,
    trace: Trace,
    ghost shown: { bytes.items ≡ seen_of trace.first (calls_of trace.events) },
}

impl FileDisk {
    ghost use Rattle.hpb_disk.specs.FileDisks.{file_device, file_is_apart, file_is_broken};

    // A device over a file that holds these bytes, all of them on the medium.
    pub(crate) fn over(file: File, bytes: Vec<u8>) -> FileDisk
        ensures seen { (file_device result).seen ≡ bytes.items }
        ensures settled { IsSettled (file_device result) }
        ensures works { file_is_broken result ≡ false }
        ensures file { result.file ≡ file }
    {
        let trace = Trace::new(&bytes);
        FileDisk {
            file,
            bytes,
            broken: false,
            code: None,
            trace,
        }
    }

    // Locks the file, alone or beside others that only read, and reads the bytes that are on the medium.
    fn take(alloc: Global, file: File, share: Share) -> Result<FileDisk, FileFault>
        ensures settled { IfOk result (λ disk. IsSettled (file_device disk)) }
        ensures works { IfOk result (λ disk. file_is_broken disk ≡ false) }
        ensures apart { IfOk result file_is_apart }
        ensures most { IfOk result (λ disk. length (file_device disk).seen ≤ 2 ^ 26) }
    {
        check_descriptor(&file)?;
        if !file.metadata()?.is_file() {
            return Err(FileFault::NotAFile);
        }
        lock(&file, share)?;
        let len = file.metadata()?.len();
        if len > MOST_BYTES {
            return Err(FileFault::TooLong);
        }
        if share == Share::Nobody {
            check_limit(len)?;
        }
        settle(&file)?;
        let mut bytes = vec![in alloc; 0; len as usize]?;
        file.read_exact_at(&mut bytes, 0)?;
        Ok(FileDisk::over(file, bytes))
    }

    /// Opens an existing file, whose length is that of the device. No write is pending, and the file's name is on the
    /// medium too.
    pub fn open<R: Files<File = File>>(
        rt: &R,
        alloc: Global,
        path: &str,
    ) -> Result<FileDisk, FileFault>
        ensures settled { IfOk result (λ disk. IsSettled (file_device disk)) }
        ensures works { IfOk result (λ disk. file_is_broken disk ≡ false) }
        ensures apart { IfOk result file_is_apart }
        ensures most { IfOk result (λ disk. length (file_device disk).seen ≤ 2 ^ 26) }
    {
        look_at(rt, path)?;
        let file = File::options().read(true).write(true).open(rt, path)?;
        let disk = FileDisk::take(alloc, file, Share::Nobody)?;
        sync_names(rt, alloc, path)?;
        Ok(disk)
    }

    /// Opens an existing file for reading only. It needs no right to write the file, and a write is a failure of the
    /// device. Others may read the file in this way at the same time. While one of them does, no value that may write
    /// can open it; and while such a value has it, this call is refused.
    pub fn open_to_read<R: Files<File = File>>(
        rt: &R,
        alloc: Global,
        path: &str,
    ) -> Result<FileDisk, FileFault>
        ensures settled { IfOk result (λ disk. IsSettled (file_device disk)) }
        ensures works { IfOk result (λ disk. file_is_broken disk ≡ false) }
        ensures apart { IfOk result file_is_apart }
        ensures most { IfOk result (λ disk. length (file_device disk).seen ≤ 2 ^ 26) }
    {
        look_at(rt, path)?;
        let file = File::options().read(true).open(rt, path)?;
        FileDisk::take(alloc, file, Share::Readers)
    }

    /// Makes a file of `len` zero bytes if there is none, and opens it. No write is pending, and the file's name is on
    /// the medium too.
    ///
    /// The file is made under its name with `.new` behind it, and gets its own name when it is whole. So there is never
    /// a shorter file of that name, whenever the process is killed. Nobody but its owner may read or write it, and
    /// nobody else ever had it open: a file that a killed process left under the other name is removed first.
    ///
    /// An existing file is never replaced. A file under the other name is refused and left alone in these cases:
    ///
    /// - it is another user's (`BesideForeign`);
    /// - others may write it (`BesideWritable`);
    /// - it holds more than zeros, has another name too or isn't a regular file (`Beside`).
    pub fn make<R: Files<File = File>>(
        rt: &R,
        alloc: Global,
        path: &str,
        len: usize,
    ) -> Result<FileDisk, FileFault>
        ensures seen { IfOk result (λ disk. (file_device disk).seen ≡ replicate len 0) }
        ensures settled { IfOk result (λ disk. IsSettled (file_device disk)) }
        ensures works { IfOk result (λ disk. file_is_broken disk ≡ false) }
        ensures apart { IfOk result file_is_apart }
    {
        if len as u64 > MOST_BYTES {
            return Err(FileFault::TooLong);
        }
        check_limit(len as u64)?;
        let bytes = vec![in alloc; 0; len]?;
        let mut again = vec![in alloc; 0; len]?;
        let beside = beside(alloc, path)?;
        let folder = open_folder(rt, &Path::new(path))?;
        let file = open_beside(rt, alloc, beside.as_str())?;
        let named = fill_and_name(rt, &file, &bytes, &mut again, beside.as_str(), path);
        if let Err(fault) = named {
            let _ = forget_beside(rt, beside.as_str(), &file);
            return Err(fault);
        }
        folder.sync_all()?;
        Ok(FileDisk::over(file, bytes))
    }

    // Opens an existing file, unless it is another user's, or another user's link leads to it. If it still has the name
    // under which it was made, that name is removed.
    fn open_own<R: Files<File = File>>(
        rt: &R,
        alloc: Global,
        path: &str,
    ) -> Result<FileDisk, FileFault>
        ensures settled { IfOk result (λ disk. IsSettled (file_device disk)) }
        ensures works { IfOk result (λ disk. file_is_broken disk ≡ false) }
        ensures apart { IfOk result file_is_apart }
    {
        let disk = FileDisk::open(rt, alloc, path)?;
        check_owner(rt, path, &disk.file)?;
        forget_beside(rt, beside(alloc, path)?.as_str(), &disk.file)?;
        Ok(disk)
    }

    /// Opens an existing file, or makes one of `len` zero bytes if there is none. These are refused:
    ///
    /// - a file of another user, who could write it at any time (`Foreign`);
    /// - a file to which another user's link leads (`ForeignLink`);
    /// - the name of a link that leads to no file (`DanglingLink`).
    pub fn open_or_make<R: Files<File = File>>(
        rt: &R,
        alloc: Global,
        path: &str,
        len: usize,
    ) -> Result<FileDisk, FileFault>
        ensures settled { IfOk result (λ disk. IsSettled (file_device disk)) }
        ensures works { IfOk result (λ disk. file_is_broken disk ≡ false) }
        ensures apart { IfOk result file_is_apart }
    {
        match FileDisk::open_own(rt, alloc, path) {
            Err(FileFault::System(error)) if error.kind() == ErrorKind::NotFound => {}
            opened => return opened,
        }
        check_free(rt, path)?;
        match FileDisk::make(rt, alloc, path, len) {
            // Another process made it meanwhile.
            Err(FileFault::System(error)) if error.kind() == ErrorKind::AlreadyExists => {
                FileDisk::open_own(rt, alloc, path)
            }
            made => made,
        }
    }

    /// The system's number for the error of the write or the sync that failed, if one did and the system gave a number.
    pub fn code(&self) -> Option<i32> {
        self.code
    }

    /// The identity of the file, and its length.
    pub fn stamp(&self) -> io::Result<FileStamp> {
        Ok(FileStamp::of(&self.file.metadata()?))
    }
}

impl Disk for FileDisk {
    ghost use Rattle.hpb_disk.specs.FileDisks.{file_calls, file_device, file_is_broken};
    ghost use Rattle.hpb_disk.specs.Asked.Asked.{writes, syncs};
    ghost use Rattle.hpb_disk.specs.Calls.Call.{read, wrote, synced, failed, write_failed};

    ghost device = { file_device };

    fn len(&self) -> usize {
        self.bytes.len()
    }

    fn read_into(&mut self, at: usize, out: &mut [u8]) -> Result<(), DiskFailed>
        requires range { at + length out.old ≤ length (file_device self.old).seen }
        ensures bytes { OnOk result (out.new ≡ part at (length out.old) (file_device self.old).seen) }
        ensures unchanged { IsUnchanged (file_device self.old) (file_device self.new) }
        ensures call { MakesCall result [] (file_device self.old) (file_device self.new) }
        // Beyond the trait: the call that is noted, and that no call succeeds after a write or a sync that failed.
        ensures called { MatchResult result
            (λ _. file_calls self.new ≡ read ∷ file_calls self.old)
            (λ _. file_calls self.new ≡ failed ∷ file_calls self.old) }
        ensures broken { file_is_broken self.old ≡ true → IsErr result }
        ensures stays_broken { file_is_broken self.old ≡ true → file_is_broken self.new ≡ true }
    {
        if self.broken {
            self.trace.read_failed();
            return Err(DiskFailed);
        }
        let read = self.file.read_exact_at(out, at as u64);
        if read.is_err() || !are_same(out, &self.bytes[at..at + out.len()]) {
            self.trace.read_failed();
            return Err(DiskFailed);
        }
        self.trace.read();
        Ok(())
    }

    fn write_at(&mut self, at: usize, bytes: &[u8]) -> Result<(), DiskFailed>
        requires range { at + length bytes.now ≤ length (file_device self.old).seen }
        ensures written { OnOk result ((file_device self.new).seen ≡ put at bytes.now (file_device self.old).seen) }
        ensures size { length (file_device self.new).seen ≡ length (file_device self.old).seen }
        ensures crash { LeavesOnly (file_device self.old) (file_device self.new)
            (TornFrom at (length bytes.now) (file_device self.old).may_leave) }
        ensures call { MakesCall result (writes at bytes.now ∷ []) (file_device self.old) (file_device self.new) }
        // Beyond the trait: the call that is noted, and that no call succeeds after a write or a sync that failed.
        ensures called { MatchResult result
            (λ _. file_calls self.new ≡ wrote at bytes.now ∷ file_calls self.old)
            (λ _. file_is_broken self.old ≡ false → file_calls self.new ≡ write_failed at bytes.now ∷ file_calls self.old) }
        ensures broken { file_is_broken self.old ≡ true → IsErr result }
        ensures breaks { OnErr result (file_is_broken self.new ≡ true) }
    {
        if self.broken {
            self.trace.write_refused(at, bytes);
            return Err(DiskFailed);
        }
        match self.file.write_all_at(bytes, at as u64) {
            Ok(()) => {
                overwrite(&mut self.bytes, at, bytes);
                self.trace.wrote(at, bytes);
                Ok(())
            }
            Err(error) => {
                self.broken = true;
                self.code = error.raw_os_error();
                self.trace.write_failed(at, bytes);
                Err(DiskFailed)
            }
        }
    }

    #[tactic(auto, using(crate::proofs::Steps::synced_leaves))]
    fn sync(&mut self) -> Result<(), DiskFailed>
        ensures durable { OnOk result (Only (file_device self.old).seen (file_device self.new).may_leave) }
        ensures seen { (file_device self.new).seen ≡ (file_device self.old).seen }
        ensures crash { LeavesOnly (file_device self.old) (file_device self.new) (file_device self.old).may_leave }
        ensures call { MakesCall result (syncs ∷ []) (file_device self.old) (file_device self.new) }
        // Beyond the trait: the call that is noted, and that no call succeeds after a write or a sync that failed.
        ensures called { MatchResult result
            (λ _. file_calls self.new ≡ synced ∷ file_calls self.old)
            (λ _. file_calls self.new ≡ failed ∷ file_calls self.old) }
        ensures broken { file_is_broken self.old ≡ true → IsErr result }
        ensures breaks { OnErr result (file_is_broken self.new ≡ true) }
    {
        if self.broken {
            self.trace.sync_failed();
            return Err(DiskFailed);
        }
        match self.file.sync_data() {
            Ok(()) => {
                self.trace.synced();
                Ok(())
            }
            Err(error) => {
                self.broken = true;
                self.code = error.raw_os_error();
                self.trace.sync_failed();
                Err(DiskFailed)
            }
        }
    }

    fn still_holds(&self, at: usize, room: &mut [u8]) -> bool {
        if self.broken {
            return true;
        }
        match self.file.read_exact_at(room, at as u64) {
            Ok(()) => are_same(room, &self.bytes[at..at + room.len()]),
            // The file ends before these bytes. If they can't be read for another reason, the next call reports it.
            Err(error) => error.kind() != ErrorKind::UnexpectedEof,
        }
    }
}
