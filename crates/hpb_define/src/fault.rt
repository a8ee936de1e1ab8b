ghost use Rattle.std.specs.Prelude.{◌≡◌};
ghost use Rattle.hpb_define.specs.declared.fault.DefineCause.TheVariants.{Memory};
ghost use Rattle.hpb_define.specs.Fault.{refusal_of, refused, unread};

use hpb_reasons::{Explanation, NOTHING_FOUND};
use hpb_rules::Refusal;
use hpb_tree::DefinitionFault;
use serde_json::Category;
use std::alloc::{AllocError, AllocFailed};
use thiserror::Error;

/// The refusal by which bytes gave no definition: its number and its word, as in an `ERR` line.
#[derive(Clone, Copy, Debug, PartialEq, Eq, Error)]
pub enum DefineCause {
    /// 90 `memory`: memory was refused.
    #[error("memory")]
    Memory,
    /// 60 `json`: the bytes aren't JSON, aren't UTF-8, or are too many.
    #[error("json")]
    Json,
    /// 61 `field`: a field is missing, unknown or of another type.
    #[error("field")]
    Field,
    /// 62 `number`: a number isn't whole, or doesn't fit 64 bits.
    #[error("number")]
    Number,
    /// 62 `number` or one of 50 to 57, as `DefinitionFault` names them: the written definition breaks a rule of
    /// definitions.
    #[error("{0}")]
    Refused(DefinitionFault),
}

/// Why bytes gave no definition, with a reason for people.
#[derive(Debug, Drop, Error)]
#[error("{cause}")]
pub struct DefineFault {
    pub cause: DefineCause,
    /// The place and the fault there, for whoever wrote the definition (`hpb_reasons::reason`). Nothing is decided by
    /// it. `None` if memory was refused for it.
    pub reason: Option<Explanation>,
}

impl DefineFault {
    /// The refusal that reports this fault.
    pub fn refusal(&self) -> Refusal
        ensures { result ≡ refusal_of self.now.cause }
    {
        self.cause.refusal()
    }

    /// The words for people: the reason, or if there is none, the document that says what a definition must be.
    pub fn said(&self) -> &str {
        match &self.reason {
            Some(reason) => reason.text.as_str(),
            None => NOTHING_FOUND,
        }
    }

    /// Whether the reason is that the bytes end before the definition does, or are nothing but blanks.
    pub fn ends_early(&self) -> bool {
        match &self.reason {
            Some(reason) => reason.ends_early,
            None => false,
        }
    }
}

impl DefineCause {
    /// The refusal that reports this cause.
    pub fn refusal(self) -> Refusal
        ensures { result ≡ refusal_of self }
    {
        match self {
            DefineCause::Memory => Refusal::Memory,
            DefineCause::Json => Refusal::Json,
            DefineCause::Field => Refusal::Field,
            DefineCause::Number => Refusal::Number,
            DefineCause::Refused(fault) => fault.refusal(),
        }
    }
}

impl From<DefinitionFault> for DefineCause {
    ghost from_gives = { λ fault e. e ≡ refused fault };

    fn from(fault: DefinitionFault) -> DefineCause {
        match fault {
            DefinitionFault::Memory => DefineCause::Memory,
            _ => DefineCause::Refused(fault),
        }
    }
}

impl From<serde_json::Error> for DefineCause {
    ghost from_gives = { λ error e. e ≡ unread error };

    fn from(error: serde_json::Error) -> DefineCause {
        match error.classify() {
            Category::Memory => DefineCause::Memory,
            _ => DefineCause::Json,
        }
    }
}

impl From<AllocError> for DefineCause {
    ghost from_gives = { λ _ e. e ≡ Memory };

    fn from(_error: AllocError) -> DefineCause {
        DefineCause::Memory
    }
}

impl<T: Drop> From<AllocFailed<T>> for DefineCause {
    ghost from_gives = { λ _ e. e ≡ Memory };

    fn from(_error: AllocFailed<T>) -> DefineCause {
        DefineCause::Memory
    }
}
