//! The identity of a device's file.

use std::fs::{self, Files, Metadata};
use std::os::unix::fs::MetadataExt;

/// The identity of a file, and how many bytes it has.
#[derive(Clone, Copy, Debug, PartialEq, Eq)]
pub struct FileStamp {
    device: u64,
    inode: u64,
    len: u64,
}

impl FileStamp {
    pub(crate) fn of(file: &Metadata) -> FileStamp {
        FileStamp {
            device: file.dev(),
            inode: file.ino(),
            len: file.len(),
        }
    }

    /// Whether a path leads to this file, and it still has as many bytes.
    pub fn is_at<R: Files>(&self, rt: &R, path: &str) -> bool {
        match fs::metadata(rt, path) {
            Ok(found) => FileStamp::of(&found) == *self,
            Err(_) => false,
        }
    }
}
