//! The faults of a definition, a session and a device, in the words of `ERR` lines.

use hpb_define::DefineCause;
use hpb_disk::DiskFailed;
use hpb_format::FormatCause;
use hpb_recover::{Cause, Flaw};
use hpb_rules::Refusal;
use hpb_server::SessionFault;
use hpb_tree::DefinitionFault;
use std::alloc::{AllocError, Global};
use std::fmt::Display;
use std::test::Fail;

/// Whether a cause has the word of this refusal.
fn is_told(alloc: Global, cause: &impl Display, refusal: Refusal) -> Result<bool, AllocError> {
    Ok(cause.to_string(alloc)?.as_str() == refusal.word())
}

const DEFINE_CAUSES: [DefineCause; 14] = [
    DefineCause::Memory,
    DefineCause::Json,
    DefineCause::Field,
    DefineCause::Number,
    DefineCause::Refused(DefinitionFault::Memory),
    DefineCause::Refused(DefinitionFault::Number),
    DefineCause::Refused(DefinitionFault::Empty),
    DefineCause::Refused(DefinitionFault::Name),
    DefineCause::Refused(DefinitionFault::Duplicate),
    DefineCause::Refused(DefinitionFault::Parent),
    DefineCause::Refused(DefinitionFault::Children),
    DefineCause::Refused(DefinitionFault::Leaf),
    DefineCause::Refused(DefinitionFault::Limits),
    DefineCause::Refused(DefinitionFault::Terms),
];

const SESSION_FAULTS: [SessionFault; 3] = [
    SessionFault::Memory,
    SessionFault::Reader,
    SessionFault::Writer,
];

const CAUSES: [Cause; 6] = [
    Cause::Flawed(Flaw::Unformatted),
    Cause::Flawed(Flaw::Layout),
    Cause::Flawed(Flaw::Checkpoint),
    Cause::Flawed(Flaw::Frame),
    Cause::Memory,
    Cause::Device,
];

const FORMAT_CAUSES: [FormatCause; 4] = [
    FormatCause::Length,
    FormatCause::Formatted,
    FormatCause::Device,
    FormatCause::Memory,
];

#[test]
fn causes_have_the_words_of_their_refusals(rt: HostRuntime) -> Result<(), Fail> {
    let alloc = rt.alloc();
    for cause in DEFINE_CAUSES {
        assert!(rt; is_told(alloc, &cause, cause.refusal())?, "{cause:?}");
    }
    for fault in SESSION_FAULTS {
        assert!(rt; is_told(alloc, &fault, fault.refusal())?, "{fault:?}");
    }
    for cause in CAUSES {
        assert!(rt; is_told(alloc, &cause, cause.refusal())?, "{cause:?}");
    }
    for cause in FORMAT_CAUSES {
        assert!(rt; is_told(alloc, &cause, cause.refusal())?, "{cause:?}");
    }
    assert!(rt; is_told(alloc, &DiskFailed, Refusal::Device)?);
    Ok(())
}
