//! The marks of a call: a line before it and one behind it. Only requests for memory between these are refused.

use std::io;

/// Writes that the call begins.
pub(crate) fn begin<R: Print>(rt: &R) -> io::Result<()> {
    rt.println("CALL")
}

/// Writes that the call has ended.
pub(crate) fn end<R: Print>(rt: &R) -> io::Result<()> {
    rt.println("CAME")
}
