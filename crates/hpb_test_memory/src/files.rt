//! Calls of devices in files.

use crate::trials::{Came, FILE, Tried, begin, came_of, end, file_sum, is_sum, new_file, size_of};
use anyhow::Result;
use hpb_disk::{FileDisk, FileFault};
use hpb_rules::Refusal;
use std::fs;

/// The result of a call that makes a device. Its file is closed.
fn came(rt: &HostRuntime, made: Result<FileDisk, FileFault>) -> Came {
    match made {
        Ok(_) => came_of(file_sum(rt)),
        Err(FileFault::Memory(_)) => Came::Refused(Refusal::Memory),
        Err(_) => Came::Refused(Refusal::Device),
    }
}

/// The ways to make a device of a file.
#[derive(Clone, Copy)]
pub(crate) enum Way {
    Open,
    OpenToRead,
    Make,
    OpenOrMake,
}

/// Makes a device of the file.
fn make(rt: &HostRuntime, way: Way, layout: u8) -> Result<FileDisk, FileFault> {
    let alloc = rt.alloc();
    let size = size_of(layout);
    match way {
        Way::Open => FileDisk::open(rt, alloc, FILE),
        Way::OpenToRead => FileDisk::open_to_read(rt, alloc, FILE),
        Way::Make => FileDisk::make(rt, alloc, FILE, size),
        Way::OpenOrMake => FileDisk::open_or_make(rt, alloc, FILE, size),
    }
}

/// Makes a device of the file, between the marks.
fn make_marked(rt: &HostRuntime, way: Way, layout: u8) -> Came {
    let _ = begin(rt);
    let made = make(rt, way, layout);
    let _ = end(rt);
    came(rt, made)
}

/// Tries a call that makes a device of a file that is there.
pub(crate) fn of_file(rt: &HostRuntime, way: Way, layout: u8) -> Result<Tried> {
    let _ = new_file(rt, layout)?;
    let given = file_sum(rt);
    let first = make_marked(rt, way, layout);
    Ok(Tried {
        first,
        is_same: is_sum(file_sum(rt), given),
        again: came(rt, make(rt, way, layout)),
    })
}

/// Tries a call that makes a device of a file that isn't there. If it is refused, no file is left.
pub(crate) fn of_none(rt: &HostRuntime, way: Way, layout: u8) -> Tried {
    let _ = fs::remove_file(rt, FILE);
    let first = make_marked(rt, way, layout);
    if let Came::Well(_) = first {
        return Tried::well(first);
    }
    Tried {
        first,
        is_same: fs::metadata(rt, FILE).is_err(),
        again: came(rt, make(rt, way, layout)),
    }
}
