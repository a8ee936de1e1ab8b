//! Devices in files.

use super::using::{has, holds_two, two_at, write};
use crate::{Disk, FileDisk, FileFault, MOST_BYTES};
use std::alloc::Global;
use std::fs::{self, File, Files};
use std::io;
use std::os::fd::IntoRawFd;
use std::os::unix::fs::{PermissionsExt, chown, symlink};
use std::test::Fail;

/// The result of opening or making a file, as one word.
fn word(opened: Result<FileDisk, FileFault>) -> &'static str {
    match &opened {
        Ok(_) => "opened",
        Err(FileFault::Busy) => "busy",
        Err(FileFault::NotAFile) => "no file",
        Err(FileFault::Beside) => "beside",
        Err(FileFault::BesideForeign) => "another's beside",
        Err(FileFault::BesideWritable) => "writable beside",
        Err(FileFault::Foreign) => "another's",
        Err(FileFault::ForeignLink) => "another's link",
        Err(FileFault::DanglingLink) => "dangling link",
        Err(FileFault::Stream) => "stream",
        Err(FileFault::TooLong) => "too long",
        Err(FileFault::System(_)) => "refused",
        Err(_) => "other",
    }
}

fn opened<R: Files<File = File>>(rt: &R, alloc: Global, path: &str) -> Result<Box<FileDisk>, Fail> {
    Ok(Box::new(alloc, FileDisk::open(rt, alloc, path)?)?)
}

fn made<R: Files<File = File>>(rt: &R, alloc: Global, path: &str) -> Result<Box<FileDisk>, Fail> {
    Ok(Box::new(alloc, FileDisk::open_or_make(rt, alloc, path, 4)?)?)
}

#[test]
fn a_file_is_made_written_and_opened_again(rt: HostRuntime) -> Result<(), Fail> {
    let alloc = rt.alloc();
    let path = "hpb_disk_made";
    let _ = fs::remove_file(&rt, path);
    let mut disk = made(&rt, alloc, path)?;
    assert!(rt; has(&mut *disk, &[0; 4]));
    assert_eq!(rt; permissions_of(&rt, path)?, 0o600);
    assert!(rt; write(&mut *disk, 1, &[1, 2]));
    assert!(rt; write(&mut *disk, 2, &[3]));
    assert!(rt; disk.sync().is_ok());
    assert!(rt; has(&mut *disk, &[0, 1, 3, 0]));
    // While one value has the file, no other can open it.
    assert_eq!(rt; word(FileDisk::open(&rt, alloc, path)), "busy");
    drop(disk);
    let mut again = opened(&rt, alloc, path)?;
    assert!(rt; has(&mut *again, &[0, 1, 3, 0]));
    // The file exists, so it isn't made.
    assert_eq!(rt; word(FileDisk::make(&rt, alloc, path, 4)), "refused");
    fs::remove_file(&rt, path)?;
    Ok(())
}

#[test]
fn a_file_that_another_changes_or_cuts_fails(rt: HostRuntime) -> Result<(), Fail> {
    let path = "hpb_disk_cut";
    fs::write(&rt, path, [1, 2, 3, 4].as_slice())?;
    let mut disk = opened(&rt, rt.alloc(), path)?;
    fs::write(&rt, path, [1, 2, 9, 4].as_slice())?;
    assert_eq!(rt; two_at(&mut *disk, 2), None);
    assert_eq!(rt; two_at(&mut *disk, 0), Some([1, 2]));
    assert_eq!(rt; (holds_two(&*disk, 0), holds_two(&*disk, 2)), (true, false));
    File::options().write(true).open(&rt, path)?.set_len(3)?;
    assert_eq!(rt; two_at(&mut *disk, 2), None);
    assert_eq!(rt; two_at(&mut *disk, 0), Some([1, 2]));
    assert_eq!(rt; (holds_two(&*disk, 0), holds_two(&*disk, 2)), (true, false));
    // Its bytes are as before.
    fs::write(&rt, path, [1, 2, 3, 4].as_slice())?;
    assert!(rt; holds_two(&*disk, 2));
    assert_eq!(rt; disk.len(), 4);
    fs::remove_file(&rt, path)?;
    Ok(())
}

#[test]
fn what_is_no_file_is_refused(rt: HostRuntime) -> Result<(), Fail> {
    let alloc = rt.alloc();
    let folder = "hpb_disk_folder";
    let _ = fs::remove_dir_all(&rt, folder);
    fs::create_dir(&rt, folder)?;
    assert_eq!(rt; word(FileDisk::open(&rt, alloc, folder)), "no file");
    assert_eq!(rt; word(FileDisk::open_to_read(&rt, alloc, folder)), "no file");
    assert_eq!(rt; word(FileDisk::make(&rt, alloc, folder, 4)), "refused");
    assert_eq!(rt;
        word(FileDisk::open(&rt, alloc, "hpb_disk_folder/none")),
        "refused"
    );
    assert_eq!(rt;
        word(FileDisk::make(&rt, alloc, "hpb_disk_folder/none/a", 4)),
        "refused"
    );
    assert_eq!(rt; word(FileDisk::open(&rt, alloc, "/dev/full")), "no file");
    fs::remove_dir(&rt, folder)?;
    Ok(())
}

#[test]
fn a_file_that_cannot_be_synced_is_refused(rt: HostRuntime) -> Result<(), Fail> {
    // A regular file of the system, which can be read and locked.
    let path = "/proc/self/comm";
    assert_eq!(rt; word(FileDisk::open(&rt, rt.alloc(), path)), "refused");
    Ok(())
}

#[test]
fn a_folder_that_cannot_be_synced_is_refused(rt: HostRuntime) -> Result<(), Fail> {
    let alloc = rt.alloc();
    let folder = "hpb_disk_shut";
    let _ = fs::remove_dir_all(&rt, folder);
    fs::create_dir(&rt, folder)?;
    fs::set_permissions(&rt, folder, fs::Permissions::from_mode(0o300))?;
    // A user with all rights opens it all the same.
    let may_read = File::open(&rt, folder).is_ok();
    let path = "hpb_disk_shut/made";
    let wanted = if may_read { "opened" } else { "refused" };
    assert_eq!(rt; word(FileDisk::make(&rt, alloc, path, 4)), wanted);
    assert_eq!(rt; fs::exists(&rt, path)?, may_read);
    fs::write(&rt, path, [0; 4].as_slice())?;
    assert_eq!(rt; word(FileDisk::open(&rt, alloc, path)), wanted);
    assert_eq!(rt; word(FileDisk::open_to_read(&rt, alloc, path)), "opened");
    fs::remove_file(&rt, path)?;
    fs::remove_dir(&rt, folder)?;
    Ok(())
}

#[test]
fn the_descriptor_of_a_standard_stream_is_refused(rt: HostRuntime) -> Result<(), Fail> {
    let alloc = rt.alloc();
    let path = "hpb_disk_stream";
    fs::write(&rt, path, b"abcd".as_slice())?;
    libc::close(libc::STDIN_FILENO);
    let opened = word(FileDisk::open(&rt, alloc, path));
    let read = word(FileDisk::open_to_read(&rt, alloc, path));
    // The folder gets that descriptor, and the file another.
    let made = word(FileDisk::make(&rt, alloc, "hpb_disk_stream_made", 4));
    assert_eq!(rt; opened, "stream");
    assert_eq!(rt; read, "stream");
    assert_eq!(rt; made, "opened");
    // Once it leads to the file, no other descriptor will do.
    let input = File::open(&rt, path)?;
    assert_eq!(rt; input.into_raw_fd(), libc::STDIN_FILENO);
    assert_eq!(rt; word(FileDisk::open(&rt, alloc, path)), "stream");
    assert_eq!(rt; word(FileDisk::open_to_read(&rt, alloc, path)), "stream");
    libc::close(libc::STDIN_FILENO);
    let input = File::open(&rt, "/dev/null")?;
    assert_eq!(rt; input.into_raw_fd(), libc::STDIN_FILENO);
    fs::remove_file(&rt, path)?;
    fs::remove_file(&rt, "hpb_disk_stream_made")?;
    Ok(())
}

/// The permissions of a file.
fn permissions_of<R: Files>(rt: &R, path: &str) -> io::Result<u32> {
    Ok(fs::metadata(rt, path)?.permissions().mode() & 0o7777)
}

#[test]
fn what_a_killed_process_left_beside_is_removed(rt: HostRuntime) -> Result<(), Fail> {
    let alloc = rt.alloc();
    let (path, beside) = ("hpb_disk_left", "hpb_disk_left.new");
    let _ = fs::remove_file(&rt, path);
    // The left file was longer.
    fs::write(&rt, beside, [0; 8].as_slice())?;
    fs::set_permissions(&rt, beside, fs::Permissions::from_mode(0o644))?;
    let rest = File::open(&rt, beside)?;
    let mut disk = made(&rt, alloc, path)?;
    assert!(rt; has(&mut *disk, &[0; 4]));
    assert!(rt; !fs::exists(&rt, beside)?);
    assert_eq!(rt; permissions_of(&rt, path)?, 0o600);
    // Anyone who still has the left file open doesn't have the new one.
    assert_eq!(rt; rest.metadata()?.len(), 8);
    assert!(rt; rest.try_lock().is_ok());
    assert!(rt; write(&mut *disk, 0, b"wxyz"));
    drop(disk);
    // The process was killed between the two names.
    fs::hard_link(&rt, path, beside)?;
    let mut again = made(&rt, alloc, path)?;
    assert!(rt; has(&mut *again, b"wxyz"));
    assert!(rt; !fs::exists(&rt, beside)?);
    drop(again);
    fs::remove_file(&rt, path)?;
    Ok(())
}

#[test]
fn what_stands_beside_is_not_overwritten(rt: HostRuntime) -> Result<(), Fail> {
    let alloc = rt.alloc();
    let (path, beside, other) = ("hpb_disk_moved", "hpb_disk_moved.new", "hpb_disk_kept");
    let _ = fs::remove_file(&rt, path);
    // A file that somebody wrote.
    fs::write(&rt, beside, b"wxyz".as_slice())?;
    assert_eq!(rt; word(FileDisk::make(&rt, alloc, path, 4)), "beside");
    assert_eq!(rt; fs::read(&rt, beside)?.as_slice(), b"wxyz".as_slice());
    // A file with two pages of zeros, and then a byte that isn't zero.
    let mut long = vec![in alloc; 0; 8_193]?;
    long[8_192] = b'w';
    fs::write(&rt, beside, long.as_slice())?;
    assert_eq!(rt; word(FileDisk::make(&rt, alloc, path, 4)), "beside");
    assert_eq!(rt; fs::read(&rt, beside)?.as_slice(), long.as_slice());
    fs::remove_file(&rt, beside)?;
    // A second name of a file of zeros, and then a link to it.
    fs::write(&rt, other, [0; 8].as_slice())?;
    fs::hard_link(&rt, other, beside)?;
    assert_eq!(rt; word(FileDisk::make(&rt, alloc, path, 4)), "beside");
    fs::remove_file(&rt, beside)?;
    symlink(&rt, other, beside)?;
    assert_eq!(rt; word(FileDisk::make(&rt, alloc, path, 4)), "beside");
    fs::remove_file(&rt, beside)?;
    assert_eq!(rt; fs::read(&rt, other)?.len(), 8);
    assert_eq!(rt; word(FileDisk::make(&rt, alloc, path, 4)), "opened");
    fs::remove_file(&rt, path)?;
    fs::remove_file(&rt, other)?;
    Ok(())
}

#[test]
fn what_others_may_write_beside_is_refused(rt: HostRuntime) -> Result<(), Fail> {
    let alloc = rt.alloc();
    let (path, beside) = ("hpb_disk_written", "hpb_disk_written.new");
    let _ = fs::remove_file(&rt, path);
    fs::write(&rt, beside, [0; 4].as_slice())?;
    for mode in [0o620, 0o602] {
        fs::set_permissions(&rt, beside, fs::Permissions::from_mode(mode))?;
        assert_eq!(rt;
            word(FileDisk::make(&rt, alloc, path, 4)),
            "writable beside"
        );
        assert_eq!(rt; permissions_of(&rt, beside)?, mode);
    }
    fs::remove_file(&rt, beside)?;
    Ok(())
}

#[test]
fn what_is_another_users_is_refused(rt: HostRuntime) -> Result<(), Fail> {
    let alloc = rt.alloc();
    let (path, beside) = ("hpb_disk_another", "hpb_disk_another.new");
    let _ = fs::remove_file(&rt, path);
    fs::write(&rt, beside, [0; 4].as_slice())?;
    // Only a user with all rights can give a file away.
    if chown(&rt, beside, Some(1), None).is_ok() {
        assert_eq!(rt;
            word(FileDisk::make(&rt, alloc, path, 4)),
            "another's beside"
        );
        assert!(rt; fs::exists(&rt, beside)?);
        fs::rename(&rt, beside, path)?;
        assert_eq!(rt;
            word(FileDisk::open_or_make(&rt, alloc, path, 4)),
            "another's"
        );
        assert_eq!(rt; word(FileDisk::open(&rt, alloc, path)), "opened");
        fs::rename(&rt, path, beside)?;
    }
    fs::remove_file(&rt, beside)?;
    Ok(())
}

#[test]
fn a_file_that_is_being_made_is_busy(rt: HostRuntime) -> Result<(), Fail> {
    let alloc = rt.alloc();
    let (path, beside) = ("hpb_disk_twice", "hpb_disk_twice.new");
    let _ = fs::remove_file(&rt, path);
    fs::write(&rt, beside, b"".as_slice())?;
    let other = File::open(&rt, beside)?;
    assert!(rt; other.try_lock().is_ok());
    assert_eq!(rt; word(FileDisk::make(&rt, alloc, path, 4)), "busy");
    assert!(rt; fs::exists(&rt, beside)?);
    drop(other);
    assert_eq!(rt; word(FileDisk::make(&rt, alloc, path, 4)), "opened");
    fs::remove_file(&rt, path)?;
    Ok(())
}

#[test]
fn a_mark_tells_of_another_file_and_another_length(rt: HostRuntime) -> Result<(), Fail> {
    let path = "hpb_disk_marked";
    fs::write(&rt, path, b"abcd".as_slice())?;
    // Opened by a link, whose folder is synced too.
    let link = "hpb_disk_link";
    let _ = fs::remove_file(&rt, link);
    symlink(&rt, path, link)?;
    let disk = opened(&rt, rt.alloc(), link)?;
    let stamp = disk.stamp()?;
    assert!(rt; stamp.is_at(&rt, path) && stamp.is_at(&rt, link));
    fs::rename(&rt, path, "hpb_disk_away")?;
    assert!(rt; !stamp.is_at(&rt, path));
    fs::write(&rt, path, b"abcd".as_slice())?;
    assert!(rt; !stamp.is_at(&rt, path));
    fs::rename(&rt, "hpb_disk_away", path)?;
    assert!(rt; stamp.is_at(&rt, path));
    File::options().write(true).open(&rt, path)?.set_len(5)?;
    assert!(rt; !stamp.is_at(&rt, path));
    fs::remove_file(&rt, link)?;
    fs::remove_file(&rt, path)?;
    Ok(())
}

#[test]
fn a_file_that_is_read_alone_cannot_be_written(rt: HostRuntime) -> Result<(), Fail> {
    let alloc = rt.alloc();
    let path = "hpb_disk_read";
    let _ = fs::remove_file(&rt, path);
    fs::write(&rt, path, b"abcd".as_slice())?;
    fs::set_permissions(&rt, path, fs::Permissions::from_mode(0o400))?;
    let mut disk = Box::new(alloc, FileDisk::open_to_read(&rt, alloc, path)?)?;
    assert!(rt; has(&mut *disk, b"abcd"));
    assert!(rt; disk.sync().is_ok());
    // It was opened without the right to write, so even a user with all rights can't write by it.
    assert!(rt; !write(&mut *disk, 0, b"x"));
    assert!(rt; !has(&mut *disk, b"abcd"));
    assert!(rt; disk.sync().is_err());
    assert!(rt; holds_two(&*disk, 0));
    drop(disk);
    assert_eq!(rt; fs::read(&rt, path)?.as_slice(), b"abcd".as_slice());
    fs::remove_file(&rt, path)?;
    assert_eq!(rt; word(FileDisk::open_to_read(&rt, alloc, path)), "refused");
    Ok(())
}

#[test]
fn readers_share_a_file_and_keep_writers_out(rt: HostRuntime) -> Result<(), Fail> {
    let alloc = rt.alloc();
    let path = "hpb_disk_shared";
    fs::write(&rt, path, b"abcd".as_slice())?;
    let one = Box::new(alloc, FileDisk::open_to_read(&rt, alloc, path)?)?;
    let other = Box::new(alloc, FileDisk::open_to_read(&rt, alloc, path)?)?;
    assert_eq!(rt; word(FileDisk::open(&rt, alloc, path)), "busy");
    drop(one);
    assert_eq!(rt; word(FileDisk::open(&rt, alloc, path)), "busy");
    drop(other);
    let writer = opened(&rt, alloc, path)?;
    assert_eq!(rt; word(FileDisk::open_to_read(&rt, alloc, path)), "busy");
    drop(writer);
    assert_eq!(rt; word(FileDisk::open_to_read(&rt, alloc, path)), "opened");
    fs::remove_file(&rt, path)?;
    Ok(())
}

#[test]
fn a_long_file_is_refused(rt: HostRuntime) -> Result<(), Fail> {
    let alloc = rt.alloc();
    let path = "hpb_disk_long";
    fs::write(&rt, path, b"".as_slice())?;
    File::options()
        .write(true)
        .open(&rt, path)?
        .set_len(MOST_BYTES + 1)?;
    assert_eq!(rt; word(FileDisk::open(&rt, alloc, path)), "too long");
    fs::remove_file(&rt, path)?;
    assert_eq!(rt; word(FileDisk::make(&rt, alloc, path, 1 << 27)), "too long");
    assert_eq!(rt; word(FileDisk::open(&rt, alloc, path)), "refused");
    Ok(())
}

#[test]
fn a_file_without_permission_is_refused(rt: HostRuntime) -> Result<(), Fail> {
    let path = "hpb_disk_closed";
    let _ = fs::remove_file(&rt, path);
    fs::write(&rt, path, b"abcd".as_slice())?;
    fs::set_permissions(&rt, path, fs::Permissions::from_mode(0o400))?;
    // A user with all rights opens it all the same.
    let may_write = File::options().write(true).open(&rt, path).is_ok();
    let wanted = if may_write { "opened" } else { "refused" };
    assert_eq!(rt; word(FileDisk::open(&rt, rt.alloc(), path)), wanted);
    fs::remove_file(&rt, path)?;
    Ok(())
}
