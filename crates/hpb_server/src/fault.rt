ghost use Rattle.std.specs.Prelude.{◌≡◌};
ghost use Rattle.hpb_server.specs.declared.fault.SessionFault.TheVariants.{Memory};
ghost use Rattle.hpb_server.specs.Fault.{refusal_of};

use hpb_rules::Refusal;
use std::alloc::{AllocError, AllocFailed};
use thiserror::Error;

/// Why a session ended early. No line of the session reports it: its number is for whoever started the session.
#[derive(Clone, Copy, Debug, PartialEq, Eq, Error)]
pub enum SessionFault {
    /// 90 `memory`: memory was refused.
    #[error("memory")]
    Memory,
    /// 92 `stream`: the reader failed, or more bytes came than may be read.
    #[error("stream")]
    Reader,
    /// 92 `stream`: the writer failed, or took no byte.
    #[error("stream")]
    Writer,
}

impl SessionFault {
    /// The refusal that reports this fault.
    pub fn refusal(self) -> Refusal
        ensures { result ≡ refusal_of self }
    {
        match self {
            SessionFault::Memory => Refusal::Memory,
            SessionFault::Reader | SessionFault::Writer => Refusal::Stream,
        }
    }
}

impl From<AllocError> for SessionFault {
    ghost from_gives = { λ _ e. e ≡ Memory };

    fn from(_error: AllocError) -> SessionFault {
        SessionFault::Memory
    }
}

impl<T: Drop> From<AllocFailed<T>> for SessionFault {
    ghost from_gives = { λ _ e. e ≡ Memory };

    fn from(_error: AllocFailed<T>) -> SessionFault {
        SessionFault::Memory
    }
}
