//! Why a file can't serve as a device.

use std::alloc::AllocError;
use std::io;
use thiserror::Error;

/// Why a file was neither opened nor made.
#[derive(Debug, Drop, Error)]
pub enum FileFault {
    /// Memory was refused.
    #[error(transparent)]
    Memory(#[from(alloc)] AllocError),
    /// Another value has the file's lock, in this process or in another.
    #[error("the file is in use")]
    Busy,
    /// It isn't a regular file, but a pipe or a device of the system.
    #[error("it isn't a regular file")]
    NotAFile,
    /// It has more than `MOST_BYTES` bytes.
    #[error("the file is too long")]
    TooLong,
    /// Standard input or output leads to the file, or would, because the file was opened under the descriptor of a
    /// closed stream. The stream's output would be written into the file.
    #[error("standard input or output leads to the file")]
    Stream,
    /// The stream of standard errors leads to the file.
    #[error("standard errors lead to the file")]
    Errors,
    /// A file is made under another name first. Something stands at that name that no killed process left.
    #[error("another file stands where it is made")]
    Beside,
    /// The file that stands at that name is another user's.
    #[error("another user's file stands where it is made")]
    BesideForeign,
    /// Users other than its owner may write the file that stands at that name.
    #[error("a file that others may write stands where it is made")]
    BesideWritable,
    /// An auction was to be made in another user's file.
    #[error("the file is another user's")]
    Foreign,
    /// An auction was to be made in the file that another user's link leads to.
    #[error("the file's name is another user's link")]
    ForeignLink,
    /// An auction was to be made under the name of a link that leads to no file.
    #[error("the file's name is a link that leads to no file")]
    DanglingLink,
    /// It has more bytes than this process may write: the system ends a process that writes beyond the limit.
    #[error("the file has {len} bytes, and no more than {limit} may be written")]
    Limit { len: u64, limit: u64 },
    /// The system refused a call, for example because there is no such file, because it is a directory, or because it
    /// can't sync.
    #[error(transparent)]
    System(#[from] io::Error),
}
