ghost use Rattle.std.specs.Prelude.{◌≡◌, ◌≢◌, None, Some, IfOk, IfErr, OnOk, option_map};
ghost use Rattle.hpb_rules.specs.Drafts.{draft_refusal};
ghost use Rattle.hpb_tree.specs.Draft.{rules_of};
ghost use Rattle.hpb_tree.specs.Fault.{refusal_of};
ghost use Rattle.hpb_tree.specs.declared.fault.DefinitionFault.TheVariants.{Memory};

mod limits;
mod names;
mod ranges;
mod shape;
mod terms;

use crate::building::build;
use crate::definition::Definition;
use crate::draft::Draft;
use crate::fault::DefinitionFault;
use limits::is_over_limits;
use names::{has_bad_name, has_duplicate};
use ranges::has_bad_number;
use shape::{has_late_parent, has_parted_licence, has_thin_package};
use std::alloc::{AllocError, Global};
use terms::has_bad_terms;

impl Definition {
    /// The definition that a draft spells. If the draft has several faults, one is reported: a number out of range (62
    /// `number`) first, then the fault with the smallest number. These are 50 `empty`, 51 `name`, 52 `duplicate`, 53
    /// `parent`, 54 `children`, 55 `leaf`, 56 `limits` and 57 `terms`. If memory is refused, 90 `memory` may come in
    /// place of any.
    pub fn check(alloc: Global, draft: &Draft) -> Result<Definition, DefinitionFault>
        ensures ok { IfOk result (λ d. d ≡ rules_of draft.now) }
        ensures accepted { OnOk result (draft_refusal (rules_of draft.now) ≡ None) }
        ensures refused { IfErr result (λ e. e ≢ Memory → draft_refusal (rules_of draft.now) ≡ Some (refusal_of e)) }
    {
        match first_fault(alloc, draft)? {
            Some(fault) => Err(fault),
            None => Ok(build(alloc, draft)?),
        }
    }
}

/// The fault that a draft is refused for, if it is refused.
fn first_fault(alloc: Global, draft: &Draft) -> Result<Option<DefinitionFault>, AllocError>
    ensures { IfOk result (λ fault. option_map refusal_of fault ≡ draft_refusal (rules_of draft.now)) }
{
    let nodes = draft.nodes.as_slice();
    if has_bad_number(draft) {
        return Ok(Some(DefinitionFault::Number));
    }
    if draft.nodes.is_empty() || draft.bidders.is_empty() || draft.stages.is_empty() {
        return Ok(Some(DefinitionFault::Empty));
    }
    if has_bad_name(draft) {
        return Ok(Some(DefinitionFault::Name));
    }
    if has_duplicate(alloc, draft)? {
        return Ok(Some(DefinitionFault::Duplicate));
    }
    if has_late_parent(nodes) {
        return Ok(Some(DefinitionFault::Parent));
    }
    if has_thin_package(nodes) {
        return Ok(Some(DefinitionFault::Children));
    }
    if has_parted_licence(nodes) {
        return Ok(Some(DefinitionFault::Leaf));
    }
    if is_over_limits(draft) {
        return Ok(Some(DefinitionFault::Limits));
    }
    if has_bad_terms(draft) {
        return Ok(Some(DefinitionFault::Terms));
    }
    Ok(None)
}
