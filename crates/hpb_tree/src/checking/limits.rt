ghost use Rattle.std.specs.Prelude.{◌≡◌, ◌≤◌, ◌<◌, false, length, nat_lt};
ghost use Rattle.std.specs.List.{list_any};
ghost use Rattle.hpb_rules.specs.Drafts.{has_late_parent, is_over_limits, depth};
ghost use Rattle.hpb_rules.specs.Tree.{places};
ghost use Rattle.hpb_tree.specs.Draft.{rules_of, nodes_said};

use crate::draft::{Draft, NodeDraft};
use crate::outline::licence_count;
use crate::walking::depth;
use hpb_rules::{MOST_BIDDERS, MOST_LEVELS, MOST_LICENCES, MOST_NODES, MOST_STAGES};

/// Whether there are too many nodes, licences, bidders, stages or levels.
pub(crate) fn is_over_limits(draft: &Draft) -> bool
    requires { has_late_parent (nodes_said draft.now.nodes.items) ≡ false }
    ensures { result ≡ is_over_limits (rules_of draft.now) }
{
    let nodes = draft.nodes.as_slice();
    MOST_NODES < nodes.len()
        || MOST_LICENCES < licence_count(nodes)
        || MOST_BIDDERS < draft.bidders.len()
        || MOST_STAGES < draft.stages.len()
        || is_too_deep(nodes)
}

fn is_too_deep(nodes: &[NodeDraft]) -> bool
    requires before { has_late_parent (nodes_said nodes.now) ≡ false }
    requires most { length nodes.now ≤ MOST_NODES }
    ensures { result ≡ list_any (λ n. nat_lt MOST_LEVELS (depth (nodes_said nodes.now) n)) (places (nodes_said nodes.now)) }
{
    for place in 0..nodes.len() {
        if MOST_LEVELS < depth(nodes, place) {
            return true;
        }
    }
    false
}
