//! The end of a run or serving of a file that had begun.

use hpb_server::SessionFault;

/// The end of a run or serving of a file that had begun. No line on standard output says it.
#[derive(Clone, Copy, Debug, PartialEq, Eq)]
pub struct RunEnd {
    /// The fault that ended a run before the end of its input, or that the last line of serving could not be written.
    pub end: Result<(), SessionFault>,
    /// Whether a call of the file's disk has failed. From then on a command is answered by 91 or 93.
    pub failed: bool,
    /// The system's number of that disk's first failure, if the system gave one.
    pub code: Option<i32>,
}
