//! Opening and making files.
ghost use Rattle.std.specs.Prelude.{◌≡◌, ◌↔◌, IfOk, IsOk, IsTrue};
ghost use Rattle.hpb_disk.specs.FileDisks.{IsApart};

use crate::FileFault;
use crate::file::MOST_BYTES;
use std::alloc::{AllocError, Global};
use std::fs::{self, File, Files, Metadata, Permissions, TryLockError};
use std::io;
use std::io::ErrorKind;
use std::os::fd::AsRawFd;
use std::os::unix::fs::{FileExt, MetadataExt, OpenOptionsExt, PermissionsExt};
use std::path::{Path, PathBuf};

/// The least descriptor that the file of a device may have. Those below it belong to the standard streams.
const LEAST_DESCRIPTOR: i32 = libc::STDERR_FILENO + 1;

/// Linux's number for RLIMIT_FSIZE, the limit on the bytes of a file that a process writes.
const FILE_SIZE_LIMIT: i32 = 1;

/// The ending of a file's name while the file is made.
const BESIDE: &str = ".new";

/// The permissions of a file that is made: its owner may read and write it, and nobody else may do anything.
const OWNERS_ALONE: u32 = 0o600;

/// The bits of a mode that are permissions.
const PERMISSIONS: u32 = 0o7777;

/// The permissions by which users other than the owner may write.
const OTHERS_WRITE: u32 = 0o022;

/// The paths of standard input, output and errors, if the system has such paths.
const INPUT: &str = "/dev/fd/0";

const OUTPUT: &str = "/dev/fd/1";

const ERRORS: &str = "/dev/fd/2";

/// Whether others may have the file at the same time.
#[derive(Clone, Copy, PartialEq, Eq)]
pub(crate) enum Share {
    Nobody,
    Readers,
}

/// Whether two slices have the same bytes.
pub(crate) fn are_same(some: &[u8], others: &[u8]) -> bool
    ensures { IsTrue result ↔ (some.now ≡ others.now) }
{
    some == others
}

/// Refuses, before it is opened, anything that isn't a regular file: opening a pipe waits for its other end. Also
/// refuses a file that a standard stream leads to.
pub(crate) fn look_at<R: Files>(rt: &R, path: &str) -> Result<(), FileFault> {
    let found = fs::metadata(rt, path)?;
    if !found.is_file() {
        return Err(FileFault::NotAFile);
    }
    check_streams(rt, &found)
}

/// Whether both are metadata of the same file.
fn are_of_one(some: &Metadata, other: &Metadata) -> bool {
    some.dev() == other.dev() && some.ino() == other.ino()
}

/// Whether a path leads to this file.
fn leads_to<R: Files>(rt: &R, path: &str, file: &Metadata) -> bool {
    match fs::metadata(rt, path) {
        Ok(found) => are_of_one(&found, file),
        Err(_) => false,
    }
}

/// Refuses a file that a standard stream leads to: the stream's output would be written into it.
fn check_streams<R: Files>(rt: &R, file: &Metadata) -> Result<(), FileFault> {
    if leads_to(rt, ERRORS, file) {
        return Err(FileFault::Errors);
    }
    if leads_to(rt, OUTPUT, file) || leads_to(rt, INPUT, file) {
        return Err(FileFault::Stream);
    }
    Ok(())
}

/// Refuses a descriptor that is a standard stream's.
pub(crate) fn check_descriptor(file: &File) -> Result<(), FileFault>
    ensures apart { IsOk result → IsApart file.now }
{
    if file.as_raw_fd() < LEAST_DESCRIPTOR {
        return Err(FileFault::Stream);
    }
    Ok(())
}

/// Refuses a length above the limit beyond which the system ends a process that writes.
pub(crate) fn check_limit(len: u64) -> Result<(), FileFault> {
    let mut limit = libc::types::rlimit {
        rlim_cur: u64::MAX,
        rlim_max: u64::MAX,
    };
    let is_known = libc::getrlimit(FILE_SIZE_LIMIT, &mut limit) == 0;
    if is_known && len > limit.rlim_cur {
        return Err(FileFault::Limit {
            len,
            limit: limit.rlim_cur,
        });
    }
    Ok(())
}

/// Takes the lock of a file, and doesn't wait for it.
pub(crate) fn lock(file: &File, share: Share) -> Result<(), FileFault> {
    let locked = match share {
        Share::Nobody => file.try_lock(),
        Share::Readers => file.try_lock_shared(),
    };
    match locked {
        Ok(()) => Ok(()),
        Err(TryLockError::WouldBlock) => Err(FileFault::Busy),
        Err(TryLockError::Error(error)) => Err(FileFault::System(error)),
    }
}

/// After this, earlier writes are on the medium, and later reads come from there. Otherwise, if a sync of an earlier
/// process failed, the system's memory could hold bytes that the medium doesn't have.
pub(crate) fn settle(file: &File) -> io::Result<()> {
    file.sync_data()?;
    match libc::posix_fadvise(file.as_raw_fd(), 0, 0, libc::POSIX_FADV_DONTNEED) {
        0 => Ok(()),
        code => Err(io::Error::from_raw_os_error(code)),
    }
}

/// Opens the folder of a path's last name, to be synced.
pub(crate) fn open_folder<R: Files<File = File>>(rt: &R, path: &Path) -> io::Result<File> {
    let folder = match path.parent() {
        Some(folder) if !folder.as_str().is_empty() => folder.as_str(),
        _ => ".",
    };
    File::open(rt, folder)
}

/// The path of a file, without a link in it.
fn whole_path<R: Files>(rt: &R, alloc: Global, path: &str) -> Result<PathBuf, FileFault> {
    match rt.canonicalize(alloc, path) {
        Ok(whole) => Ok(whole),
        Err(error) if error.kind() == ErrorKind::OutOfMemory => Err(FileFault::Memory(AllocError)),
        Err(error) => Err(FileFault::System(error)),
    }
}

/// Syncs the folder of a file's name. If the path is a link to the file, syncs the link's folder too.
pub(crate) fn sync_names<R: Files<File = File>>(
    rt: &R,
    alloc: Global,
    path: &str,
) -> Result<(), FileFault> {
    let whole = whole_path(rt, alloc, path)?;
    open_folder(rt, &whole.as_path())?.sync_all()?;
    if fs::symlink_metadata(rt, path)?.is_symlink() {
        open_folder(rt, &Path::new(path))?.sync_all()?;
    }
    Ok(())
}

/// The name that a file has while it is made.
pub(crate) fn beside(alloc: Global, path: &str) -> Result<String, AllocError> {
    format!(in alloc; "{path}{BESIDE}")
}

/// Whether a name is this file's own, not a link to it.
fn is_name_of<R: Files>(rt: &R, name: &str, file: &Metadata) -> bool {
    match fs::symlink_metadata(rt, name) {
        Ok(found) => are_of_one(&found, file),
        Err(_) => false,
    }
}

/// Removes the name that a file had while it was made, if it still has it.
pub(crate) fn forget_beside<R: Files>(rt: &R, beside: &str, file: &File) -> io::Result<()> {
    if is_name_of(rt, beside, &file.metadata()?) {
        fs::remove_file(rt, beside)?;
    }
    Ok(())
}

/// Whether a file belongs to the effective user of this process.
fn is_own(file: &Metadata) -> bool {
    file.uid() == libc::geteuid()
}

/// Refuses a file of another user, who could read and write it at any time. Also refuses a path that is another user's
/// link: it may lead to any file of this user, and later to another one.
pub(crate) fn check_owner<R: Files>(rt: &R, path: &str, file: &File) -> Result<(), FileFault> {
    if !is_own(&file.metadata()?) {
        return Err(FileFault::Foreign);
    }
    if !is_own(&fs::symlink_metadata(rt, path)?) {
        return Err(FileFault::ForeignLink);
    }
    Ok(())
}

/// Refuses a path that leads to no file if it is a link: no file can get its name.
pub(crate) fn check_free<R: Files>(rt: &R, path: &str) -> Result<(), FileFault> {
    match fs::symlink_metadata(rt, path) {
        Ok(found) if found.is_symlink() => Err(FileFault::DanglingLink),
        _ => Ok(()),
    }
}

/// Refuses the file at the name that a file has while it is made, unless a killed process of this user left it. It
/// refuses another user's file, and one that isn't regular. It refuses a file that has another name too, by which it
/// may be in use, and a file that others may write.
fn check_rest(found: &Metadata) -> Result<(), FileFault> {
    if !is_own(found) {
        return Err(FileFault::BesideForeign);
    }
    if !found.is_file() || found.nlink() > 1 {
        return Err(FileFault::Beside);
    }
    if found.mode() & OTHERS_WRITE != 0 {
        return Err(FileFault::BesideWritable);
    }
    Ok(())
}

/// Refuses a file that holds more than zeros: no killed process left it.
fn check_blank(alloc: Global, file: &File, len: u64) -> Result<(), FileFault> {
    if len > MOST_BYTES {
        return Err(FileFault::Beside);
    }
    let mut left = vec![in alloc; 0; len as usize]?;
    file.read_exact_at(&mut left, 0)?;
    if left.iter().any(|byte| *byte != 0) {
        return Err(FileFault::Beside);
    }
    Ok(())
}

/// The result of looking at a left file. If it was there and is gone, it belonged to another process that makes the
/// file too.
fn found_still<T: Drop>(found: io::Result<T>) -> Result<T, FileFault> {
    match found {
        Ok(found) => Ok(found),
        Err(error) if error.kind() == ErrorKind::NotFound => Err(FileFault::Busy),
        Err(error) => Err(FileFault::System(error)),
    }
}

/// Removes the file that a killed process left at the name that a file has while it is made. The file is locked until
/// then, so nobody can make the device's file from it. Anyone who has it open keeps a file without a name.
fn remove_rest<R: Files<File = File>>(
    rt: &R,
    alloc: Global,
    beside: &str,
) -> Result<(), FileFault> {
    check_rest(&found_still(fs::symlink_metadata(rt, beside))?)?;
    let rest = found_still(File::options().read(true).write(true).open(rt, beside))?;
    lock(&rest, Share::Nobody)?;
    // Another file may have got that name since, or another process may have made its file from this one.
    let own = rest.metadata()?;
    check_rest(&own)?;
    check_streams(rt, &own)?;
    if !is_name_of(rt, beside, &own) {
        return Err(FileFault::Busy);
    }
    check_blank(alloc, &rest, own.len())?;
    fs::remove_file(rt, beside)?;
    Ok(())
}

/// Makes a file at the name that a file has while it is made, and locks it. `Beside` if something stands there.
fn make_beside<R: Files<File = File>>(rt: &R, beside: &str) -> Result<File, FileFault>
    ensures apart { IfOk result IsApart }
{
    let made = File::options()
        .read(true)
        .write(true)
        .create_new(true)
        .mode(OWNERS_ALONE)
        .open(rt, beside);
    let file = match made {
        Ok(file) => file,
        Err(error) if error.kind() == ErrorKind::AlreadyExists => return Err(FileFault::Beside),
        Err(error) => return Err(FileFault::System(error)),
    };
    check_descriptor(&file)?;
    lock(&file, Share::Nobody)?;
    let own = file.metadata()?;
    // Another process may have taken it for a left file before it was locked.
    if !is_name_of(rt, beside, &own) {
        return Err(FileFault::Busy);
    }
    // The process's mask may have taken further permissions away.
    if own.mode() & PERMISSIONS != OWNERS_ALONE {
        file.set_permissions(Permissions::from_mode(OWNERS_ALONE))?;
    }
    Ok(file)
}

/// Makes and locks a file at the name that a file has while it is made, in place of one that a killed process left
/// there. Nobody else ever had it, and nobody else may read or write it.
pub(crate) fn open_beside<R: Files<File = File>>(
    rt: &R,
    alloc: Global,
    beside: &str,
) -> Result<File, FileFault>
    ensures apart { IfOk result IsApart }
{
    match make_beside(rt, beside) {
        Err(FileFault::Beside) => {}
        made => return made,
    }
    remove_rest(rt, alloc, beside)?;
    make_beside(rt, beside)
}

/// Makes a file hold exactly these bytes, on the medium. They are read back into `again`.
fn fill(file: &File, bytes: &[u8], again: &mut [u8]) -> Result<(), FileFault> {
    file.set_len(bytes.len() as u64)?;
    file.write_all_at(bytes, 0)?;
    file.sync_all()?;
    settle(file)?;
    file.read_exact_at(again, 0)?;
    // Anyone who wrote it before it was locked still has it open.
    if !are_same(again, bytes) {
        return Err(FileFault::Busy);
    }
    Ok(())
}

/// Makes a file hold these bytes, and then gives it its name, unless a file of that name exists.
pub(crate) fn fill_and_name<R: Files>(
    rt: &R,
    file: &File,
    bytes: &[u8],
    again: &mut [u8],
    beside: &str,
    path: &str,
) -> Result<(), FileFault> {
    fill(file, bytes, again)?;
    fs::hard_link(rt, beside, path)?;
    // If it stays, the next `open_or_make` of this file removes it.
    let _ = fs::remove_file(rt, beside);
    Ok(())
}
