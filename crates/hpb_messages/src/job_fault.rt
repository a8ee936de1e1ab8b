//! Why a job on a file was not done.
ghost use Rattle.std.specs.Prelude.{◌≡◌};
ghost use Rattle.hpb_messages.specs.Faults.{made_of_definition, made_of_file, made_of_formatting, made_of_opening, refusal_of};

use hpb_define::{DefineCause, DefineFault};
use hpb_disk::FileFault;
use hpb_format::FormatCause;
use hpb_recover::Cause;
use hpb_rules::Refusal;
use std::alloc::AllocError;
use std::io;

/// Why a job on a file was not done.
#[derive(Debug, Drop)]
pub enum JobFault {
    /// 90 `memory`: memory was refused.
    Memory,
    /// 92 `stream`: the input failed.
    Reader,
    /// 92 `stream`: the output failed.
    Writer,
    /// 50 to 57, 60 to 62: the definition is refused.
    Definition(DefineFault),
    /// 43 `length`: a journal of this layout can't have this many frames.
    Journal,
    /// 91 `device`: the file was not opened or made, or the system refused a call while it was formatted.
    File(FileFault),
    /// 41 `formatted`, 43 `length` or 91 `device`: the file was not formatted.
    Format(FormatCause),
    /// 40 `unformatted`, 42 `layout`, 44 `checkpoint`, 45 `frame` or 91 `device`: the contents of the file were not
    /// opened.
    Open(Cause),
    /// 92 `stream`: no connections to this port can be had.
    Port {
        port: u16,
        error: io::Error,
    },
    /// 92 `stream`: these sessions need `wanted` files and connections at a time, and can't have them.
    Descriptors {
        sessions: u8,
        wanted: u64,
        error: io::Error,
    },
    /// 94 `place`: the place of a session was refused.
    Place,
    /// 95 `order`: an answer came that isn't the one for which its session waited.
    Order,
    /// 96 `counts`: the sessions' answers differ from the commands that were kept.
    Counts,
}

impl JobFault {
    /// The refusal by which this fault is reported.
    pub fn refusal(&self) -> Refusal
        ensures { result ≡ refusal_of self.now }
    {
        match self {
            JobFault::Memory => Refusal::Memory,
            JobFault::Reader | JobFault::Writer => Refusal::Stream,
            JobFault::Definition(fault) => fault.refusal(),
            JobFault::Journal => Refusal::Length,
            JobFault::File(_) => Refusal::Device,
            JobFault::Format(cause) => cause.refusal(),
            JobFault::Open(cause) => cause.refusal(),
            JobFault::Port { .. } | JobFault::Descriptors { .. } => Refusal::Stream,
            JobFault::Place => Refusal::Place,
            JobFault::Order => Refusal::Order,
            JobFault::Counts => Refusal::Counts,
        }
    }

    /// The fault of a job whose file was not formatted.
    pub fn of_formatting(cause: FormatCause) -> JobFault
        ensures { result ≡ made_of_formatting cause }
    {
        match cause {
            FormatCause::Memory => JobFault::Memory,
            cause => JobFault::Format(cause),
        }
    }

    /// The fault of a job whose device was not opened, or not looked at.
    pub fn of_opening(cause: Cause) -> JobFault
        ensures { result ≡ made_of_opening cause }
    {
        match cause {
            Cause::Memory => JobFault::Memory,
            cause => JobFault::Open(cause),
        }
    }

    /// Whether the fault is about the contents of a file, or about its length.
    pub(crate) fn is_of_bytes(&self) -> bool {
        matches!(
            self,
            JobFault::Open(Cause::Flawed(_)) | JobFault::Format(FormatCause::Length)
        )
    }

    /// Whether a call of the file's disk failed while it was opened.
    pub(crate) fn is_of_calls(&self) -> bool {
        matches!(self, JobFault::Open(Cause::Device))
    }
}

impl From<AllocError> for JobFault {
    ghost use Rattle.hpb_messages.specs.declared.job_fault.JobFault.TheVariants.{Memory};

    ghost from_gives = { λ _ fault. fault ≡ Memory };

    fn from(_error: AllocError) -> JobFault {
        JobFault::Memory
    }
}

impl From<DefineFault> for JobFault {
    ghost from_gives = { λ fault made. made ≡ made_of_definition fault };

    fn from(fault: DefineFault) -> JobFault {
        match fault.cause {
            DefineCause::Memory => JobFault::Memory,
            _ => JobFault::Definition(fault),
        }
    }
}

impl From<FileFault> for JobFault {
    ghost from_gives = { λ fault made. made ≡ made_of_file fault };

    fn from(fault: FileFault) -> JobFault {
        match fault {
            FileFault::Memory(_) => JobFault::Memory,
            fault => JobFault::File(fault),
        }
    }
}
