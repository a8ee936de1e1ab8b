//! Why sessions were not served, or not to their end.
ghost use Rattle.std.specs.Prelude.{◌≡◌};
ghost use Rattle.hpb_serve.specs.Faults.{refusal_of};

use hpb_disk::Disk;
use hpb_house::{CloseFault, Halt, StartCause};
use hpb_rings::{Client, Report};
use hpb_rules::Refusal;
use std::alloc::{AllocError, AllocFailed};

/// The error of sessions that have all ended, but whose answers differ from the committed commands.
#[derive(Drop)]
pub struct Differing<D: Disk + Drop> {
    /// The remains of the house, and the two numbers.
    pub fault: CloseFault<D>,
    /// The report of each session's client, from seat 0 on.
    pub reports: Vec<Report>,
}

/// Why sessions were not served, or not to their end.
#[derive(Drop)]
pub enum ServeFault<D: Disk + Drop> {
    /// 90 `memory`: memory or a thread was refused.
    Memory,
    /// 92 `stream`: the line with the port wasn't written.
    Writer,
    /// 90 `memory` or 94 `place`: the house was not started.
    Start(StartCause),
    /// 95 `order`: an answer came that isn't the one for which its session waited. This is that session's client, as it
    /// was left.
    Order(Client<Halt>),
    /// 96 `counts`: the sessions' answers differ from the committed commands.
    Counts(Differing<D>),
}

impl<D: Disk + Drop> ServeFault<D> {
    /// The refusal that an `ERR` line reports.
    pub fn refusal(&self) -> Refusal
        ensures { result ≡ refusal_of self.now }
    {
        match self {
            ServeFault::Memory => Refusal::Memory,
            ServeFault::Writer => Refusal::Stream,
            ServeFault::Start(cause) => cause.refusal(),
            ServeFault::Order(_) => Refusal::Order,
            ServeFault::Counts(_) => Refusal::Counts,
        }
    }
}

impl<D: Disk + Drop> From<AllocError> for ServeFault<D> {
    ghost use Rattle.hpb_serve.specs.declared.fault.ServeFault.TheVariants.{Memory};

    ghost from_gives = { λ _ fault. fault ≡ Memory };

    fn from(_error: AllocError) -> ServeFault<D> {
        ServeFault::Memory
    }
}

/// Why the report of a session is missing.
#[derive(Drop)]
pub(crate) enum ThreadsFault {
    /// 90 `memory`: memory or a thread was refused.
    Memory,
    /// 95 `order`: an answer came that isn't the one for which its session waited. This is that session's client, as it
    /// was left.
    Order(Client<Halt>),
}

impl From<AllocError> for ThreadsFault {
    ghost use Rattle.hpb_serve.specs.declared.fault.ThreadsFault.TheVariants.{Memory};

    ghost from_gives = { λ _ fault. fault ≡ Memory };

    fn from(_error: AllocError) -> ThreadsFault {
        ThreadsFault::Memory
    }
}

impl<T: Drop> From<AllocFailed<T>> for ThreadsFault {
    ghost use Rattle.hpb_serve.specs.declared.fault.ThreadsFault.TheVariants.{Memory};

    ghost from_gives = { λ _ fault. fault ≡ Memory };

    fn from(_error: AllocFailed<T>) -> ThreadsFault {
        ThreadsFault::Memory
    }
}
