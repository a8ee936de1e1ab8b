ghost use Rattle.std.specs.Prelude.{◌≡◌};
ghost use Rattle.hpb_format.specs.Outcomes.{refusal_of};

use hpb_rules::Refusal;
use thiserror::Error;

/// Why a device wasn't formatted: the number and the word of its refusal, as in an `ERR` line.
#[derive(Clone, Copy, Debug, PartialEq, Eq, Error)]
pub enum FormatCause {
    /// 43 `length`: the number names no layout, the number of frames isn't allowed in that layout, or the device
    /// doesn't have the length for them.
    #[error("length")]
    Length,
    /// 41 `formatted`: the device is formatted already.
    #[error("formatted")]
    Formatted,
    /// 91 `device`: a call of the device failed.
    #[error("device")]
    Device,
    /// 90 `memory`: memory was refused.
    #[error("memory")]
    Memory,
}

impl FormatCause {
    /// The refusal that reports this cause.
    pub fn refusal(self) -> Refusal
        ensures { result ≡ refusal_of self }
    {
        match self {
            FormatCause::Length => Refusal::Length,
            FormatCause::Formatted => Refusal::Formatted,
            FormatCause::Device => Refusal::Device,
            FormatCause::Memory => Refusal::Memory,
        }
    }
}

/// A device that wasn't formatted, handed back with the cause.
#[derive(Debug, Drop, Error)]
#[error("{cause}")]
pub struct FormatFault<D> {
    pub disk: D,
    pub cause: FormatCause,
}
