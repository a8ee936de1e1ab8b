//! Why a device isn't opened.
ghost use Rattle.std.specs.Prelude.{◌≡◌};
ghost use Rattle.hpb_recover.specs.Causes.{refusal_of};
ghost use Rattle.hpb_recover.specs.declared.cause.Cause.TheVariants.{Device, Memory};

use crate::Flaw;
use hpb_disk::DiskFailed;
use hpb_rules::Refusal;
use std::alloc::{AllocError, AllocFailed};
use thiserror::Error;

/// Why a device isn't opened: the number and the word of its refusal, as in an `ERR` line.
#[derive(Clone, Copy, Debug, PartialEq, Eq, Error)]
pub enum Cause {
    /// 40 `unformatted`, 42 `layout`, 44 `checkpoint` or 45 `frame`: its bytes have this flaw.
    #[error(transparent)]
    Flawed(Flaw),
    /// 90 `memory`: memory was refused.
    #[error("memory")]
    Memory,
    /// 91 `device`: a call of the device failed.
    #[error("device")]
    Device,
}

impl Cause {
    /// The refusal that reports this cause.
    pub fn refusal(self) -> Refusal
        ensures { result ≡ refusal_of self }
    {
        match self {
            Cause::Flawed(flaw) => flaw.refusal(),
            Cause::Memory => Refusal::Memory,
            Cause::Device => Refusal::Device,
        }
    }
}

impl From<DiskFailed> for Cause {
    ghost from_gives = { λ _ cause. cause ≡ Device };

    fn from(_failed: DiskFailed) -> Cause {
        Cause::Device
    }
}

impl From<AllocError> for Cause {
    ghost from_gives = { λ _ cause. cause ≡ Memory };

    fn from(_error: AllocError) -> Cause {
        Cause::Memory
    }
}

impl<T: Drop> From<AllocFailed<T>> for Cause {
    ghost from_gives = { λ _ cause. cause ≡ Memory };

    fn from(_error: AllocFailed<T>) -> Cause {
        Cause::Memory
    }
}
