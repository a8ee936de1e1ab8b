ghost use Rattle.std.specs.Prelude.{◌≡◌, ◌<◌, option_map};
ghost use Rattle.hpb_rules.specs.Drafts.{are_bad_terms, has_bad_terms};
ghost use Rattle.hpb_tree.specs.Draft.{rules_of, terms_said};

use crate::checking::ranges::is_within;
use crate::draft::{Draft, TermsDraft};
use crate::outline::terms_at;
use hpb_rules::{MOST_LICENCE_OPENING, MOST_LICENCE_UNITS};

/// Whether some licence's units or opening are out of range. The step must not be 0.
pub(crate) fn has_bad_terms(draft: &Draft) -> bool
    requires { 0 < draft.now.step }
    ensures { result ≡ has_bad_terms (rules_of draft.now) }
{
    let nodes = draft.nodes.as_slice();
    let step = draft.step;
    for place in 0..nodes.len() {
        if are_bad_terms(step, terms_at(nodes, place)) {
            return true;
        }
    }
    false
}

fn are_bad_terms(step: u64, terms: Option<TermsDraft>) -> bool
    requires { 0 < step }
    ensures { result ≡ are_bad_terms step (option_map terms_said terms) }
{
    match terms {
        Some(terms) => {
            !is_within(1, u64::from(MOST_LICENCE_UNITS), terms.units)
                || !is_within(1, MOST_LICENCE_OPENING, terms.opening)
                || terms.opening % step != 0
        }
        None => false,
    }
}
